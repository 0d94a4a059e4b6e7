// Places in a text.

ghost use Rattle.std.specs.Prelude.{◌≡◌, ◌≤◌, IfOk, length, map};
ghost use Rattle.std.specs.List.{after_last, count_by, position_or_len};
ghost use Rattle.snesl_look.specs.Places.{caret_line, column_of, is_line_feed, line_of, line_text, shown_byte, starts_character};

use std::alloc::{AllocError, Global};

/// A place in a text: its line and its column, both counted from 1. A column counts bytes.
#[derive(Clone, Copy, Debug, PartialEq, Eq)]
pub struct Position {
    pub line: usize,
    pub column: usize,
}

/// The place of an offset, which counts the bytes before it. An offset after the text's end counts as that end.
pub fn position_of(text: &[u8], offset: usize) -> Position
    ensures line { result.line ≡ line_of text.now offset }
    ensures column { result.column ≡ column_of text.now offset }
{
    let before = &text[..offset.min(text.len())];
    Position {
        line: line_feeds(before) + 1,
        column: last_line_len(before) + 1,
    }
}

/// The line in which an offset stands, without its line feed. A line feed belongs to the line that it ends.
pub fn line_at(text: &[u8], offset: usize) -> &[u8]
    ensures { result.now ≡ line_text text.now offset }
{
    line_around(text, offset.min(text.len()))
}

// The same for an offset within the text.
fn line_around(text: &[u8], offset: usize) -> &[u8]
    requires { offset ≤ length text.now }
    ensures { result.now ≡ line_text text.now offset }
{
    let start = offset - last_line_len(&text[..offset]);
    let end = offset + first_line_len(&text[offset..]);
    &text[start..end]
}

/// A caret under a column of a line: as many characters as stand before it, a tab for each tab and else a blank, and then
/// `^`. The error is that memory was refused.
pub fn caret_line(alloc: Global, line: &[u8], column: usize) -> Result<Vec<u8>, AllocError>
    ensures { IfOk result (λ caret. caret.items ≡ caret_line line.now column) }
{
    let before = column.saturating_sub(1).min(line.len());
    let mut caret = Vec::new(alloc);
    for byte in &line[..before] {
        if starts_character(*byte) {
            caret.push(if *byte == b'\t' { b'\t' } else { b' ' })?;
        }
    }
    caret.push(b'^')?;
    Ok(caret)
}

/// A line as it is shown: a blank for each control character but the tab. The error is that memory was refused.
pub fn shown_line(alloc: Global, line: &[u8]) -> Result<Vec<u8>, AllocError>
    ensures { IfOk result (λ shown. shown.items ≡ map shown_byte line.now) }
{
    let mut shown = Vec::with_capacity(alloc, line.len())?;
    for byte in line {
        shown.push(shown_byte(*byte))?;
    }
    Ok(shown)
}

// How many line feeds there are.
fn line_feeds(text: &[u8]) -> usize
    ensures count { result ≡ count_by is_line_feed text.now }
{
    text.iter().filter(|byte| **byte == b'\n').count()
}

// The length of what stands after the last line feed.
fn last_line_len(text: &[u8]) -> usize
    ensures count { result ≡ length (after_last is_line_feed text.now) }
    ensures within { result ≤ length text.now }
{
    let mut start = text.len();
    while start > 0 && text[start - 1] != b'\n' {
        start -= 1;
    }
    text.len() - start
}

// The length of what stands before the first line feed.
fn first_line_len(text: &[u8]) -> usize
    ensures count { result ≡ position_or_len is_line_feed text.now }
    ensures within { result ≤ length text.now }
{
    text.iter().take_while(|byte| **byte != b'\n').count()
}

// Whether a character begins with this byte: all but the later bytes of a character of several.
fn starts_character(byte: u8) -> bool
    ensures { result ≡ starts_character byte }
{
    !matches!(byte, 0x80..=0xbf)
}

// A blank for a control character that is no tab.
fn shown_byte(byte: u8) -> u8
    ensures { result ≡ shown_byte byte }
{
    if (byte < 32 && byte != b'\t') || byte == 127 {
        b' '
    } else {
        byte
    }
}
