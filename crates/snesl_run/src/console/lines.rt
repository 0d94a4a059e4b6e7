// The lines that are printed.

ghost use Rattle.std.specs.Prelude.{◌≡◌, ◌++◌, IfOk, OnOk, IsTrue};
ghost use Rattle.snesl_data.specs.Refusals.{is_of_the_system};
ghost use Rattle.snesl_run.specs.console.Lines.{fault_line, refusal_line, place_text};

use itoa::Buffer;
use snesl_data::{Fault, Refusal};
use std::alloc::{AllocError, Global};

// This line and the next ones stand here whole, so that they can be said where memory is refused.

/// The line of words that are refused.
pub const BAD_CONFIG_LINE: &[u8] = b"refused 10\n";

/// The line of a network that has stalled.
pub const STALLED_LINE: &[u8] = b"stalled\n";

// The line of a refusal of the system.
pub(crate) fn system_line(refusal: Refusal) -> &'static [u8]
    requires { IsTrue (is_of_the_system refusal) }
    ensures { result.now ≡ refusal_line refusal }
{
    match refusal {
        Refusal::NoMemory => b"refused 11\n",
        Refusal::Output => b"refused 12\n",
        Refusal::NoThread => b"refused 13\n",
        Refusal::Read => b"refused 14\n",
        _ => b"refused 15\n",
    }
}

/// The line of a fault: `fault N at K`. The error is that memory was refused.
pub fn fault_line(alloc: Global, fault: Fault) -> Result<Vec<u8>, AllocError>
    ensures { IfOk result (λ line. line.items ≡ fault_line fault.kind fault.at) }
{
    let mut buffer = Buffer::new();
    let mut line = Vec::from_slice(alloc, b"fault ")?;
    line.extend_from_slice(buffer.format(fault.kind.number()).as_bytes())?;
    append_place(&mut line, Some(fault.at))?;
    line.extend_from_slice(b"\n")?;
    Ok(line)
}

/// The line of a refusal: `refused N at K`, or `refused N` where it has no offset. The error is that memory was refused.
pub fn refusal_line(alloc: Global, refusal: Refusal) -> Result<Vec<u8>, AllocError>
    ensures { IfOk result (λ line. line.items ≡ refusal_line refusal) }
{
    let mut buffer = Buffer::new();
    let mut line = Vec::from_slice(alloc, b"refused ")?;
    line.extend_from_slice(buffer.format(refusal.number()).as_bytes())?;
    append_place(&mut line, refusal.at())?;
    line.extend_from_slice(b"\n")?;
    Ok(line)
}

// ` at K`, where there is an offset.
fn append_place(line: &mut Vec<u8>, at: Option<usize>) -> Result<(), AllocError>
    ensures { OnOk result (line.new.items ≡ line.old.items ++ place_text at) }
{
    if let Some(at) = at {
        let mut buffer = Buffer::new();
        line.extend_from_slice(b" at ")?;
        line.extend_from_slice(buffer.format(at).as_bytes())?;
    }
    Ok(())
}
