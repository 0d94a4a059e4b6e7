// The text of a value.

ghost use Rattle.std.specs.Prelude.{◌≡◌, ◌++◌, map, IfOk, OnOk};
ghost use Rattle.std.specs.Fmt.{signed_decimal};
ghost use Rattle.snesl_data.specs.Values.{an_int, a_bool, value_of, values_of, elements_of};
ghost use Rattle.snesl_data.specs.Text.{text, items_text, comma_before};

use crate::datum::{Datum, Elements};
use itoa::Buffer;
use std::alloc::{AllocError, Global};

/// The text of a value as a program prints it, without blanks: `-14`, `true`, `(1,2)`, `[1,2]` for
/// a vector and `{1,2}` for a sequence. Its only error is that memory was refused.
pub fn text_of(alloc: Global, datum: &Datum) -> Result<Vec<u8>, AllocError>
    ensures { IfOk result (λ bytes. bytes.items ≡ text (value_of datum.now)) }
{
    let mut out = Vec::new(alloc);
    append_text(&mut out, datum)?;
    Ok(out)
}

// One buffer takes all the text.
#[cycle(texts)]
fn append_text(out: &mut Vec<u8>, datum: &Datum) -> Result<(), AllocError>
    ensures { OnOk result (out.new.items ≡ out.old.items ++ text (value_of datum.now)) }
{
    match datum {
        Datum::Int(n) => append_integer(out, *n),
        Datum::Bool(truth) => append_truth(out, *truth),
        Datum::Pair(first, second) => {
            out.extend_from_slice(b"(")?;
            append_text(out, first)?;
            out.extend_from_slice(b",")?;
            append_text(out, second)?;
            out.extend_from_slice(b")")
        }
        Datum::Vec(elements) => {
            out.extend_from_slice(b"[")?;
            append_elements(out, elements)?;
            out.extend_from_slice(b"]")
        }
        Datum::Seq(items) => {
            out.extend_from_slice(b"{")?;
            append_items(out, items)?;
            out.extend_from_slice(b"}")
        }
    }
}

#[cycle(texts)]
fn append_elements(out: &mut Vec<u8>, elements: &Elements) -> Result<(), AllocError>
    ensures { OnOk result (out.new.items ≡
        out.old.items ++ items_text (elements_of elements.now)) }
{
    match elements {
        Elements::Ints(all) => append_ints(out, all),
        Elements::Wides(all) => append_wides(out, all),
        Elements::Bools(all) => append_truths(out, all),
        Elements::Others(all) => append_items(out, all),
    }
}

#[cycle(texts)]
fn append_items(out: &mut Vec<u8>, items: &[Datum]) -> Result<(), AllocError>
    ensures { OnOk result (out.new.items ≡
        out.old.items ++ items_text (values_of (map value_of items.now))) }
{
    for (i, item) in items.iter().enumerate() {
        append_comma(out, i)?;
        append_text(out, item)?;
    }
    Ok(())
}

fn append_ints(out: &mut Vec<u8>, ints: &[i64]) -> Result<(), AllocError>
    ensures { OnOk result (out.new.items ≡
        out.old.items ++ items_text (values_of (map an_int ints.now))) }
{
    for (i, n) in ints.iter().enumerate() {
        append_comma(out, i)?;
        append_integer(out, *n as i128)?;
    }
    Ok(())
}

fn append_wides(out: &mut Vec<u8>, wides: &[i128]) -> Result<(), AllocError>
    ensures { OnOk result (out.new.items ≡
        out.old.items ++ items_text (values_of (map an_int wides.now))) }
{
    for (i, n) in wides.iter().enumerate() {
        append_comma(out, i)?;
        append_integer(out, *n)?;
    }
    Ok(())
}

fn append_truths(out: &mut Vec<u8>, truths: &[bool]) -> Result<(), AllocError>
    ensures { OnOk result (out.new.items ≡
        out.old.items ++ items_text (values_of (map a_bool truths.now))) }
{
    for (i, truth) in truths.iter().enumerate() {
        append_comma(out, i)?;
        append_truth(out, *truth)?;
    }
    Ok(())
}

// A comma before each item but the first.
fn append_comma(out: &mut Vec<u8>, place: usize) -> Result<(), AllocError>
    ensures { OnOk result (out.new.items ≡ out.old.items ++ comma_before place) }
{
    if place > 0 {
        return out.extend_from_slice(b",");
    }
    Ok(())
}

fn append_truth(out: &mut Vec<u8>, truth: bool) -> Result<(), AllocError>
    ensures { OnOk result (out.new.items ≡ out.old.items ++ text (a_bool truth)) }
{
    if truth {
        out.extend_from_slice(b"true")
    } else {
        out.extend_from_slice(b"false")
    }
}

fn append_integer(out: &mut Vec<u8>, n: i128) -> Result<(), AllocError>
    ensures { OnOk result (out.new.items ≡ out.old.items ++ signed_decimal n) }
{
    let mut buffer = Buffer::new();
    out.extend_from_slice(buffer.format(n).as_bytes())
}
