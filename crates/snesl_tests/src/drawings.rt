// Drawings: words and colours, strings, the text of a network, and its picture in DOT.

use flow_messages::Kind;
use flow_networks::Edge;
use flow_nodes::plans::Operation;
use snesl_data::operators::BinaryOperator;
use snesl_draw::{
    Drawing, DrawnEdge, DrawnForm, DrawnNode, InputStream, drawn_form, kind_colour, kind_word,
    network_dot, network_text, operation_word, quoted,
};
use snesl_syntax::{Program, Span, parse};
use std::test::Fail;

#[test]
fn operations_and_kinds_have_words_and_colours(rt: HostRuntime) {
    let told = [
        operation_word(&Operation::Binary(BinaryOperator::Multiply)),
        operation_word(&Operation::Pack(Kind::Int)),
        kind_word(Kind::Vec),
        kind_colour(Kind::Unit),
    ];
    assert_eq!(rt; told, ["Binary: Multiply", "Pack", "vector", "#777777"]);
}

#[test]
fn no_byte_of_a_text_ends_its_string(rt: HostRuntime) -> Result<(), Fail> {
    let made = quoted(rt.alloc(), b"a \"b\\\"\n\t\x7f\xc3\xa9~")?;
    assert_eq!(rt; made.as_slice(), b"a \\\"b\\\\\\\"\\n ???~".as_slice());
    Ok(())
}

fn node(number: usize, word: &'static str, at: usize) -> DrawnNode {
    DrawnNode {
        number,
        word,
        at,
        input: None,
    }
}

fn edge(writer: usize, reader: usize, messages: Option<u64>) -> DrawnEdge {
    DrawnEdge {
        edge: Edge {
            writer,
            writer_port: 0,
            reader,
            reader_port: 0,
        },
        kind: Kind::Int,
        messages,
    }
}

#[test]
fn a_node_has_its_line(rt: HostRuntime) -> Result<(), Fail> {
    let alloc = rt.alloc();
    let drawing = Drawing {
        nodes: vec![in alloc;
            node(0, "Const", 7),
            node(1, "Unary: Negate", 6),
            node(2, "Print", 6),
        ]?,
        edges: vec![in alloc; edge(0, 1, None), edge(1, 2, Some(12))]?,
        forms: Vec::new(alloc),
    };
    let text = network_text(alloc, b"let\nx\n-1", &drawing)?;
    let want = b"0 Const 3:2 -> 1 int
1 Unary: Negate 3:1 <- 0 int -> 2 int 12
2 Print 3:1 <- 1 int 12
";
    assert_eq!(rt; text.as_slice(), want.as_slice());
    Ok(())
}

#[test]
fn nodes_stand_in_the_frames_of_their_forms(rt: HostRuntime) -> Result<(), Fail> {
    let alloc = rt.alloc();
    let edge = DrawnEdge {
        edge: Edge {
            writer: 0,
            writer_port: 0,
            reader: 1,
            reader_port: 0,
        },
        kind: Kind::Bool,
        messages: Some(480),
    };
    let input = DrawnNode {
        number: 0,
        word: "Input",
        at: 0,
        input: Some(InputStream {
            name: Span { at: 2, len: 1 },
            part: "lengths",
        }),
    };
    let form = DrawnForm {
        at: 1,
        first: 1,
        piece: Span { at: 0, len: 4 },
    };
    let drawing = Drawing {
        nodes: vec![in alloc; input, node(1, "Fork", 1), node(2, "Sink", 1)]?,
        edges: vec![in alloc; edge]?,
        forms: vec![in alloc; form]?,
    };
    let dot = network_dot(alloc, b"\"\\v\n", &drawing)?;
    let want = br##"  n0 [label="0 Input v: lengths"];
  subgraph cluster_1 {
  color="#cccccc"; bgcolor="#f4f4f4";
  f1 [shape=plaintext, style="", width=0, margin="0.05,0", label="1:1\l\"\\v \l"];
  {rank=same; f1; n1}
  n1 [label="1 Fork"];
  n2 [label="2 Sink"];
  }
  n0 -> n1 [color="#b35900", label=" 480", fontcolor="#b35900", penwidth=2];
  label=<<table border="1" cellborder="0" color="#cccccc"><tr><td><font color="#b35900">bool</font></td></tr></table>>; labelloc=b; labeljust=r;
}
"##;
    assert!(rt; dot.ends_with(want));
    Ok(())
}

// The text of the form that keeps an offset.
fn form_at(program: &Program, at: usize) -> &[u8] {
    drawn_form(program, node(0, "", at))
        .piece
        .spelled(&program.text)
}

#[test]
fn a_form_is_its_whole_text(rt: HostRuntime) -> Result<(), Fail> {
    let alloc = rt.alloc();
    let text = b"function f(x : int) : int = (x + 1) * 2; {f(y) : y in iota(10) | y < 3}";
    let program = parse(alloc, text)?;
    let told = [
        form_at(&program, 36),
        form_at(&program, 41),
        form_at(&program, 42),
        form_at(&program, 54),
        form_at(&program, 59),
        form_at(&program, 67),
        form_at(&program, 49),
    ];
    let want: [&[u8]; 7] = [
        b"(x + 1) * 2",
        b"{f(y) : y in iota(10) | y < 3}",
        b"f(y)",
        b"iota(10)",
        b"10",
        b"y < 3",
        b"y",
    ];
    assert_eq!(rt; told, want);
    Ok(())
}
