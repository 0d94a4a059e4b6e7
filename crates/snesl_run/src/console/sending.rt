// Sending bytes to a writer.

ghost use Rattle.std.specs.Prelude.{◌≡◌, IsTrue};
ghost use Rattle.snesl_data.specs.Refusals.{is_of_the_system, status_of_refusal};
ghost use Rattle.snesl_run.specs.console.Streams.{write_effect, HasSent, WasTold};
ghost use Rattle.snesl_run.specs.console.Lines.{PrintsLine, refusal_line};

use crate::console::lines::system_line;
use snesl_data::{Counted, Refusal};
use std::io::Write;

/// Whether the writer took all bytes; else it took a beginning of them, and exactly one call failed. A write that fails, or
/// that takes no byte, ends it: there is no second try, at an interrupted call either.
pub fn send<W: Write>(out: &mut Counted<W>, bytes: &[u8]) -> bool
    ensures { HasSent (write_effect W.contents out.old out.new) bytes.now result }
{
    let mut rest = bytes;
    while !rest.is_empty() {
        match out.write(rest) {
            Ok(n) if n > 0 => rest = &rest[n..],
            _ => return false,
        }
    }
    true
}

/// Prints a line, and gives the exit status: this one, or that of `Output` where the line could not be written, which is
/// said on `err`.
pub fn print<W: Write, E: Write>(
    line: &[u8],
    status: u8,
    out: &mut Counted<W>,
    err: &mut Counted<E>,
) -> u8
    ensures { PrintsLine W.contents E.contents out.old out.new err.old err.new line.now status result }
{
    if send(out, line) {
        status
    } else {
        complain(Refusal::Output, err)
    }
}

/// Says a refusal of the system as a line on `err`, where that can be written, and returns its exit
/// status, 4.
pub fn complain<E: Write>(refusal: Refusal, err: &mut Counted<E>) -> u8
    requires { IsTrue (is_of_the_system refusal) }
    ensures status { result ≡ status_of_refusal refusal }
    ensures told { WasTold (write_effect E.contents err.old err.new) (refusal_line refusal) }
{
    let _ = send(err, system_line(refusal));
    refusal.status()
}
