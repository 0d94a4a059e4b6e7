// What an editor reads.

ghost use Rattle.std.specs.Prelude.{◌≡◌, ◌∷◌, ◌++◌, [], IfOk};
ghost use Rattle.json.specs.Print.{print};
ghost use Rattle.snesl_look.specs.findings.Objects.{WritesMore, member_tokens, number_member, object_tokens, place_tokens, severity_tokens, source_tokens, text_token, word_tokens};

use json::Writer;
use std::alloc::{AllocError, Global};

/// What is wrong with a job: where, what, and what may help.
#[derive(Clone, Copy)]
pub struct Finding<'a> {
    /// The file of the job, where it came from one.
    pub file: Option<&'a str>,
    /// The line in the job, from 1.
    pub line: usize,
    /// The column, from 1, in bytes.
    pub column: usize,
    /// The column behind what stands there.
    pub end: usize,
    /// What is wrong.
    pub sentence: &'a [u8],
    /// What may help.
    pub hint: Option<&'a [u8]>,
}

// Writes a text. What is no UTF-8 becomes U+FFFD.
fn write_text(alloc: Global, out: &mut Writer, text: &[u8]) -> Result<(), AllocError>
    ensures { WritesMore result out.old out.new (text_token text.now ∷ []) }
{
    let text = String::from_utf8_lossy(alloc, text)?;
    out.string(text.as_str())
}

// Writes a member with a number.
fn write_number(out: &mut Writer, key: &str, number: usize) -> Result<(), AllocError>
    ensures { WritesMore result out.old out.new (number_member key.now number) }
{
    out.key(key)?;
    out.u64(number as u64)
}

// Writes where it is.
fn write_place(out: &mut Writer, finding: &Finding<'_>) -> Result<(), AllocError>
    ensures { WritesMore result out.old out.new (place_tokens finding.now) }
{
    write_number(out, "line", finding.line)?;
    write_number(out, "column", finding.column)?;
    write_number(out, "end", finding.end)
}

// Writes what it is, and what may help.
fn write_words(alloc: Global, out: &mut Writer, finding: &Finding<'_>) -> Result<(), AllocError>
    ensures { WritesMore result out.old out.new (word_tokens finding.now) }
{
    out.key("message")?;
    write_text(alloc, out, finding.sentence)?;
    out.key("hint")?;
    match finding.hint {
        Some(hint) => write_text(alloc, out, hint),
        None => out.null(),
    }
}

// Writes that it is an error.
fn write_severity(out: &mut Writer) -> Result<(), AllocError>
    ensures { WritesMore result out.old out.new severity_tokens }
{
    out.key("severity")?;
    out.string("error")
}

// Writes in which file it is.
fn write_source(out: &mut Writer, finding: &Finding<'_>) -> Result<(), AllocError>
    ensures { WritesMore result out.old out.new (source_tokens finding.now) }
{
    out.key("file")?;
    match finding.file {
        Some(file) => out.string(file),
        None => out.null(),
    }
}

// Writes the members of the object.
fn write_members(alloc: Global, out: &mut Writer, finding: &Finding<'_>) -> Result<(), AllocError>
    ensures { WritesMore result out.old out.new (member_tokens finding.now) }
{
    write_source(out, finding)?;
    write_place(out, finding)?;
    write_severity(out)?;
    write_words(alloc, out, finding)
}

// Writes the object.
fn write_object(alloc: Global, out: &mut Writer, finding: &Finding<'_>) -> Result<(), AllocError>
    ensures { WritesMore result out.old out.new (object_tokens finding.now) }
{
    out.begin_object()?;
    write_members(alloc, out, finding)?;
    out.end_object()
}

/// A finding as an object of JSON, in a line. What is no UTF-8 becomes U+FFFD. The error is that memory was refused.
pub fn object_line(alloc: Global, finding: &Finding<'_>) -> Result<Vec<u8>, AllocError>
    ensures { IfOk result (λ line. line.items ≡ print (object_tokens finding.now) ++ 10 ∷ []) }
{
    let mut out = Writer::new(Vec::new(alloc));
    write_object(alloc, &mut out, finding)?;
    let mut line = out.into_inner();
    line.push(b'\n')?;
    Ok(line)
}
