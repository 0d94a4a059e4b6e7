// What the beginning of a job says of its parts.

ghost use Rattle.std.specs.Prelude.{◌≡◌, ◌==◌, ◌↔◌, ◌⊎◌, IsTrue, codes, length, position};
ghost use Rattle.snesl_run.specs.console.Parts.{AreParts};
ghost use Rattle.snesl_run.specs.console.Beginnings.{IsScanned, Tells};

use std::alloc::Global;

/// The greatest length of a program, in bytes.
pub(crate) const LONGEST_PROGRAM: usize = 65_536;

// The separator's line without its line feed, and the longer one.
const SEPARATOR: &[u8] = b"---";

const SEPARATOR_AND_RETURN: &[u8] = b"---\r";

/// What is known of the parts of all jobs that begin with some bytes.
#[derive(Clone, Copy)]
pub(crate) enum Beginning {
    /// The program ends here, and the input text begins there.
    Parted { program: usize, input: usize },
    /// The program is too long.
    TooLong,
    /// Neither yet. The last line begins here.
    Open { line: usize },
}

// What the bytes say, where a line begins at `line`, and no line feed stands between there and `from`.
pub(crate) fn look(bytes: &[u8], mut line: usize, mut from: usize) -> Beginning
    requires { IsScanned bytes.now line from }
    ensures { Tells bytes.now result }
{
    while let Some(n) = line_len(&bytes[from..]) {
        let end = from + n;
        if is_separator(&bytes[line..end]) {
            return Beginning::Parted {
                program: line,
                input: end + 1,
            };
        }
        line = end + 1;
        if line > LONGEST_PROGRAM + 1 {
            return Beginning::TooLong;
        }
        from = line;
    }
    if bytes.len() > LONGEST_PROGRAM && !SEPARATOR_AND_RETURN.starts_with(&bytes[line..]) {
        return Beginning::TooLong;
    }
    Beginning::Open { line }
}

// The length of the first line, where a line feed ends it.
fn line_len(bytes: &[u8]) -> Option<usize>
    ensures { result ≡ position (λ b. b == 10) bytes.now }
{
    bytes.iter().position(|b| *b == b'\n')
}

// Whether a line, without its line feed, is the separator.
fn is_separator(line: &[u8]) -> bool
    ensures { IsTrue result ↔ (line.now ≡ codes "---") ⊎ (line.now ≡ codes "---\r") }
{
    line == SEPARATOR || line == SEPARATOR_AND_RETURN
}

// The parts of a job that ends after these bytes, whose last line begins here.
pub(crate) fn parts_at_end(alloc: Global, mut bytes: Vec<u8>, line: usize) -> (Vec<u8>, Vec<u8>)
    requires { IsScanned bytes.items line (length bytes.items) }
    ensures { AreParts bytes.items result.0.items result.1.items }
{
    let program = if &bytes[line..] == SEPARATOR {
        line
    } else {
        LONGEST_PROGRAM + 1
    };
    bytes.truncate(program);
    (bytes, Vec::new(alloc))
}
