// Bytes spelled as text.
//
// A text stands for its bytes, but for a backslash and what is after it:
//
//   \t \n \r \0     a tab, a line feed, a carriage return, the byte 0
//   \xHH            the byte of two hexadecimal digits, so `\x5c` for a backslash and `\x20` for a blank
//   \ at a line's end   nothing: the next line goes on where this one ends
//   \[COUNT:TEXT\]  TEXT so many times, as `\[64:(\]`; no such piece stands inside another

ghost use Rattle.std.specs.Prelude.{◌≡◌, ◌-◌, ◌<◌, ◌≤◌, Some, IfSome};

use std::alloc::{AllocError, Global};
use thiserror::Error;

/// Why a text spells no bytes.
#[derive(Clone, Copy, Debug, Error)]
pub enum SpellingError {
    /// A backslash with none of the listed forms after it.
    #[error("a backslash begins no escape")]
    Escape,
    /// A repeated piece that has no count, is not closed or not opened, or stands in another.
    #[error("a repeated piece is not well formed")]
    Repeat,
    /// Memory was refused.
    #[error("out of memory")]
    NoMemory,
}

impl From<AllocError> for SpellingError {
    fn from(_: AllocError) -> SpellingError {
        SpellingError::NoMemory
    }
}

// The bytes so far, and of an open repeated piece where it begins and how often it is to stand.
#[derive(Drop)]
struct Speller {
    bytes: Vec<u8>,
    open: Option<(usize, usize)>,
}

/// The bytes that a text spells.
pub fn spelled_bytes(alloc: Global, text: &str) -> Result<Vec<u8>, SpellingError> {
    let mut speller = Speller {
        bytes: Vec::new(alloc),
        open: None,
    };
    let mut pieces = text.split('\\');
    if let Some(front) = pieces.next() {
        speller.bytes.extend_from_slice(front.as_bytes())?;
    }
    for piece in pieces {
        speller.escape(piece)?;
    }
    match speller.open {
        None => Ok(speller.bytes),
        Some(_) => Err(SpellingError::Repeat),
    }
}

impl Speller {
    // Takes what is after one backslash, up to the next.
    fn escape(&mut self, piece: &str) -> Result<(), SpellingError> {
        match piece.as_bytes() {
            [b'x', high, low, rest @ ..] => {
                let byte = byte_of_digits(*high, *low).ok_or(SpellingError::Escape)?;
                self.bytes.push(byte).map_err(AllocError::from)?;
                self.add(rest)
            }
            [b'[', ..] => self.open(piece),
            [b']', rest @ ..] => {
                self.close()?;
                self.add(rest)
            }
            [b'\n', rest @ ..] => self.add(rest),
            [letter, rest @ ..] => {
                let byte = byte_of_letter(*letter).ok_or(SpellingError::Escape)?;
                self.bytes.push(byte).map_err(AllocError::from)?;
                self.add(rest)
            }
            [] => Err(SpellingError::Escape),
        }
    }

    // Adds bytes as they are.
    fn add(&mut self, rest: &[u8]) -> Result<(), SpellingError> {
        self.bytes.extend_from_slice(rest)?;
        Ok(())
    }

    // Opens a repeated piece: `[COUNT:` and bytes as they are.
    fn open(&mut self, piece: &str) -> Result<(), SpellingError> {
        if self.open.is_some() {
            return Err(SpellingError::Repeat);
        }
        let (count, rest) = counted(piece).ok_or(SpellingError::Repeat)?;
        self.open = Some((self.bytes.len(), count));
        self.add(rest.as_bytes())
    }

    // Closes the repeated piece, which stands once already.
    fn close(&mut self) -> Result<(), SpellingError> {
        let (start, count) = self.open.take().ok_or(SpellingError::Repeat)?;
        let pieces = match self.bytes.get(start..) {
            Some(piece) => repeated(*self.bytes.allocator(), piece, count)?,
            None => return Err(SpellingError::Repeat),
        };
        self.bytes.truncate(start);
        self.add(&pieces)
    }
}

// A piece so many times, at least once. It is doubled, since some pieces stand millions of times.
fn repeated(alloc: Global, piece: &[u8], count: usize) -> Result<Vec<u8>, SpellingError> {
    let wanted = piece
        .len()
        .checked_mul(count)
        .ok_or(SpellingError::NoMemory)?;
    let mut pieces = piece.to_vec(alloc)?;
    for _ in 0..usize::BITS {
        if wanted <= pieces.len() {
            break;
        }
        let copy = pieces.to_vec(alloc)?;
        pieces.extend_from_slice(&copy)?;
    }
    pieces.truncate(wanted);
    Ok(pieces)
}

// The count, at least one, of a piece that begins `[COUNT:`, and what is after it.
fn counted(piece: &str) -> Option<(usize, &str)> {
    let (count, rest) = piece.strip_prefix('[')?.split_once(':')?;
    match count.parse::<usize>() {
        Ok(0) | Err(_) => None,
        Ok(count) => Some((count, rest)),
    }
}

// The byte that this letter stands for after a backslash.
fn byte_of_letter(letter: u8) -> Option<u8>
    ensures tab { letter ≡ 116 → result ≡ Some 9 }
    ensures line_feed { letter ≡ 110 → result ≡ Some 10 }
    ensures carriage_return { letter ≡ 114 → result ≡ Some 13 }
    ensures zero { letter ≡ 48 → result ≡ Some 0 }
{
    match letter {
        b't' => Some(b'\t'),
        b'n' => Some(b'\n'),
        b'r' => Some(b'\r'),
        b'0' => Some(0),
        _ => None,
    }
}

// The byte of two hexadecimal digits.
fn byte_of_digits(high: u8, low: u8) -> Option<u8> {
    let (high, low) = (digit(high)?, digit(low)?);
    Some(high * 16 + low)
}

// The value of a hexadecimal digit, below 16.
fn digit(byte: u8) -> Option<u8>
    ensures below { IfSome result (λ value. value < 16) }
    ensures decimal { 48 ≤ byte → byte ≤ 57 → result ≡ Some (byte - 48) }
    ensures letter { 97 ≤ byte → byte ≤ 102 → result ≡ Some (byte - 87) }
{
    match byte {
        b'0'..=b'9' => Some(byte - b'0'),
        b'a'..=b'f' => Some(byte - b'a' + 10),
        _ => None,
    }
}
