// What an editor is told of a message, by hand.

use snesl_data::Refusal;
use snesl_look::findings::{
    Finding, finding_of, hint_of, mark_len, object_line, place_of, sentence_of,
};
use std::test::Fail;

// A message with a note and a hint, and one with neither.
const HINTED: &[u8] =
    b"error: no `x` here\n --> line 1, column 5\n  |\n1 | 1 + x\n  |     ^\n  = note: = hint: none\n  = hint: take it out\n";

const BARE: &[u8] = b"error: the program is nested too deeply\n";

// Texts, an offset in each, and how many bytes are marked there.
const MARKED: [(&str, usize, usize); 9] = [
    ("let total = 1", 4, 5),
    ("let total = 1", 9, 0),
    ("let total = 1", 10, 1),
    ("12ab", 0, 4),
    ("a <= b", 2, 2),
    ("a < = b", 2, 1),
    ("a ++ b", 2, 2),
    ("x \u{201c}y", 2, 3),
    ("x", 1, 0),
];

#[test]
fn messages_have_parts(rt: HostRuntime) {
    assert_eq!(rt; sentence_of(HINTED), b"no `x` here".as_slice());
    assert_eq!(rt; hint_of(HINTED), Some(b"take it out".as_slice()));
    assert_eq!(rt;
        sentence_of(BARE),
        b"the program is nested too deeply".as_slice()
    );
    assert_eq!(rt; hint_of(BARE), None);
}

#[test]
fn an_editor_marks_what_stands_there(rt: HostRuntime) {
    for (text, offset, len) in MARKED {
        assert_eq!(rt; mark_len(text.as_bytes(), offset), len, "{text} {offset}");
    }
}

// A job, refusals of it, and the line, the column and the end that each has in it.
const PROGRAM: &[u8] = b"input total : int;\n  total\n";

const INPUT: &[u8] = b"\n total = true";

const PLACED: [(Refusal, usize, usize, usize); 5] = [
    (Refusal::Name(21), 2, 3, 8),
    (Refusal::Mismatch(12), 1, 13, 14),
    (Refusal::Syntax(26), 2, 8, 8),
    (Refusal::BadInput(10), 5, 10, 14),
    (Refusal::Deep, 1, 1, 1),
];

#[test]
fn a_refusal_has_its_place_in_the_job(rt: HostRuntime) {
    for (refusal, line, column, end) in PLACED {
        let finding = finding_of(Some("a.snesl"), refusal, PROGRAM, INPUT, HINTED);
        assert_eq!(rt; finding.line, line, "{line} {column}");
        assert_eq!(rt; finding.column, column, "{line} {column}");
        assert_eq!(rt; finding.end, end, "{line} {column}");
        assert_eq!(rt; finding.file, Some("a.snesl"));
        assert_eq!(rt; finding.sentence, b"no `x` here".as_slice());
        assert_eq!(rt; finding.hint, Some(b"take it out".as_slice()));
    }
    assert!(rt; place_of(Refusal::Deep, PROGRAM, INPUT).is_none());
}

#[test]
fn a_finding_is_an_object_of_json(rt: HostRuntime) -> Result<(), Fail> {
    let finding = Finding {
        file: Some("a \"b\".snesl"),
        line: 2,
        column: 5,
        end: 6,
        sentence: b"`\xff` is no sign",
        hint: Some(b"a \\ b"),
    };
    let line = object_line(rt.alloc(), &finding)?;
    let want =
        "{\"file\":\"a \\\"b\\\".snesl\",\"line\":2,\"column\":5,\"end\":6,\"severity\":\"error\",\"message\":\"`\u{fffd}` is no sign\",\"hint\":\"a \\\\ b\"}\n";
    assert_eq!(rt; line.as_slice(), want.as_bytes());
    let bare = Finding {
        file: None,
        hint: None,
        sentence: b"it is no job",
        ..finding
    };
    let line = object_line(rt.alloc(), &bare)?;
    let want =
        "{\"file\":null,\"line\":2,\"column\":5,\"end\":6,\"severity\":\"error\",\"message\":\"it is no job\",\"hint\":null}\n";
    assert_eq!(rt; line.as_slice(), want.as_bytes());
    Ok(())
}
