// Plans, and what networks are made of, with ample memory.

ghost use Rattle.std.specs.Prelude.{◌≡◌, IfOk};
ghost use Rattle.snesl_data.specs.Types.{bool, int, pair, seq, ty_of};

use crate::declared_inputs::inputs_of;
use flow_assembly::assemble;
use flow_base::Transducer;
use flow_messages::{Item, Msg};
use flow_nodes::inputs::TextSource;
use flow_nodes::plans::{Operation, Step};
use flow_values::is_value;
use kahn::Want;
use snesl_data::{Dialect, Refusal, Ty};
use snesl_syntax::{Program, parse};
use snesl_translator::scopes::Scope;
use snesl_translator::steps::{Steps, Wires};
use snesl_translator::{ProgramContext, translate};
use snesl_types::check;
use snesl_values::Inputs;
use std::alloc::{AllocError, Global};
use std::process::Abort;
use std::test::Fail;

// The steps of a program without inputs, and the streams of its value.
fn translated(alloc: Global, text: &[u8]) -> Result<(Vec<Step>, Wires), Refusal> {
    let program = parse(alloc, text)?;
    let dialect = check(alloc, &program)?.dialect();
    let mut steps = Steps::new(alloc, dialect);
    let wires = translated_into(&mut steps, &program)?;
    Ok((steps.into_steps(), wires))
}

fn translated_into(steps: &mut Steps, program: &Program) -> Result<Wires, Refusal> {
    let control = steps.control(0)?;
    let context = ProgramContext {
        text: &program.text,
        functions: &program.declarations,
    };
    translate(steps, &context, &program.expr, &Scope::Nothing, control)
}

// Whether these are the six steps of a sum of squares.
fn are_squares(steps: &[Step]) -> bool {
    steps.len() == 6
        && matches!(steps[2].operation, Operation::Iota)
        && steps[4].reads.as_slice() == [3usize, 3].as_slice()
        && steps[5].reads.as_slice() == [2usize, 5].as_slice()
}

// The stream of a value, how many numbers it has and the first of them, where it is an integer.
fn number_on(alloc: Global, wires: &Wires) -> Result<Option<(usize, usize, usize)>, AllocError> {
    let numbers = wires.numbers(alloc)?;
    let Some(&first) = numbers.first() else {
        return Ok(None);
    };
    if !matches!(wires.ty(alloc)?, Ty::Int) {
        return Ok(None);
    }
    Ok(Some((wires.stream(), numbers.len(), first)))
}

#[test]
fn squares(rt: HostRuntime) -> Result<(), Fail> {
    let (steps, wires) = translated(rt.alloc(), b"reduce_add({x * x : x in iota(4)})")?;
    let told = (are_squares(&steps), number_on(rt.alloc(), &wires)?);
    assert_eq!(rt; told, (true, Some((6, 1, 6))));
    Ok(())
}

// How many steps a program has.
fn count_of(alloc: Global, text: &[u8]) -> Result<usize, Refusal> {
    let (steps, _wires) = translated(alloc, text)?;
    Ok(steps.len())
}

// Each form of the language once; how many steps each has is counted by hand from the translation.
const FORMS: [(&[u8], usize); 9] = [
    (b"(1, true)", 3),
    (b"let u = 1 in 7", 3),
    (b"- 1 + 2", 5),
    (b"the({1})", 6),
    (b"{1} ++ {2}", 11),
    (b"{5 | true}", 5),
    (b"if true then 1 else 2", 12),
    (b"{x : x in iota(2)}", 4),
    (b"function f(x : int) : int = x + x; f(f(1))", 4),
];

// How many nodes, edges and places there are where nothing is assembled.
fn sizes_of_nothing(alloc: Global) -> Result<[usize; 3], Refusal> {
    let assembled = assemble(alloc, Dialect::One, Vec::new(alloc))?;
    Ok([
        assembled.graph.nodes(),
        assembled.graph.edges(),
        assembled.places.len(),
    ])
}

#[test]
fn steps_of_forms(rt: HostRuntime) -> Result<(), Fail> {
    for (text, count) in FORMS {
        assert_eq!(rt; count_of(rt.alloc(), text)?, count);
    }
    assert!(rt; sizes_of_nothing(rt.alloc())? == [0; 3]);
    Ok(())
}

// A byte for a message: a digit for a small number, `F` and `T` for flags, `.` for the end, and `?` for any other.
fn byte_of(message: &Msg) -> u8 {
    match message {
        Msg::End => b'.',
        Msg::Item(Item::Bool(false)) => b'F',
        Msg::Item(Item::Bool(true)) => b'T',
        Msg::Item(Item::Int(number)) => match u8::try_from(*number) {
            Ok(digit) if digit < 10 => b'0' + digit,
            _ => b'?',
        },
        _ => b'?',
    }
}

// The messages that a source writes, or the first so many: a byte for each.
fn written(alloc: Global, source: &mut TextSource, most: usize) -> Result<Vec<u8>, AllocError> {
    let mut messages = Vec::new(alloc);
    for _ in 0..most {
        match source.want() {
            Want::Write(_) => messages.push(byte_of(&source.emit()?))?,
            _ => break,
        }
    }
    Ok(messages)
}

// The type of a pair of an integer and a sequence of truth values, which has three edges.
fn number_and_truths(alloc: Global) -> Result<Ty, AllocError>
    ensures { IfOk result (λ ty. ty_of ty ≡ pair int (seq bool)) }
{
    let truths = Ty::Seq(Box::new(alloc, Ty::Bool)?);
    let truths = Box::new(alloc, truths)?;
    Ok(Ty::Pair(Box::new(alloc, Ty::Int)?, truths))
}

// What the first input, which is of that type, puts on an edge of it. Whether that is this.
fn is_written(
    rt: &impl Abort,
    alloc: Global,
    inputs: &Inputs,
    edge: usize,
    messages: &[u8],
) -> Result<bool, AllocError> {
    let place = inputs.place(0).unwrap_or(usize::MAX);
    let text = inputs.text().clone()?;
    assert!(rt; place <= text.len());
    let ty = number_and_truths(alloc)?;
    let mut source = TextSource::new(alloc, text, place, &ty, edge)?;
    Ok(written(alloc, &mut source, 8)?.as_slice() == messages)
}

// Whether there is one input, of its declared type.
fn is_typed(alloc: Global, inputs: &Inputs) -> Result<bool, AllocError> {
    if inputs.len() != 1 || inputs.decls().len() != 1 {
        return Ok(false);
    }
    let datum = inputs.datum(alloc, 0)?;
    Ok(is_value(&inputs.decls()[0].1, &datum))
}

// The pair stands on three edges.
#[test]
fn streams(rt: HostRuntime) -> Result<(), Fail> {
    let program = b"input p : (int, {bool}); p".as_slice();
    let inputs = inputs_of(rt.alloc(), program, b"p = (7, {true, false})")?;
    let told = [
        is_typed(rt.alloc(), &inputs)?,
        is_written(&rt, rt.alloc(), &inputs, 0, b"7.")?,
        is_written(&rt, rt.alloc(), &inputs, 1, b"FFT.")?,
        is_written(&rt, rt.alloc(), &inputs, 2, b"TF.")?,
    ];
    assert_eq!(rt; told, [true; 4]);
    Ok(())
}
