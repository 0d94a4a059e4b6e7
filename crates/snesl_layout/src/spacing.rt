// What stands between two tokens of a line.

ghost use Rattle.std.specs.Prelude.{◌≡◌, ◌≤◌, drop, length, take};
ghost use Rattle.std.specs.List.{prefix_len};
ghost use Rattle.snesl_layout.specs.Spacing.{closes, depth_after, ends_operand, is_glued, is_prefix_minus, is_printed, names_function, deeper, opens, token_bytes, next_at};

use snesl_data::is_blank;
use snesl_grammar::lexer::{Token, TokenKind};

// Whether a bracket opens.
pub fn opens(kind: TokenKind) -> bool
    ensures { result ≡ opens kind }
{
    matches!(
        kind,
        TokenKind::LeftParen | TokenKind::LeftBracket | TokenKind::LeftBrace
    )
}

// Whether a bracket closes.
pub fn closes(kind: TokenKind) -> bool
    ensures { result ≡ closes kind }
{
    matches!(
        kind,
        TokenKind::RightParen | TokenKind::RightBracket | TokenKind::RightBrace
    )
}

// One more of what is counted up to 64, as deep as programs are.
pub fn deeper(depth: u8) -> u8
    ensures { result ≡ deeper depth }
{
    if depth < 64 { depth + 1 } else { depth }
}

// How many brackets are open after a token.
pub fn depth_after(depth: u8, kind: TokenKind) -> u8
    ensures { result ≡ depth_after depth kind }
{
    if opens(kind) {
        deeper(depth)
    } else if closes(kind) {
        depth.saturating_sub(1)
    } else {
        depth
    }
}

// Whether an expression may end with the token, so that `-` behind it has two operands.
fn ends_operand(kind: TokenKind) -> bool
    ensures { result ≡ ends_operand kind }
{
    match kind {
        TokenKind::Integer(_) | TokenKind::Name(_) | TokenKind::True | TokenKind::False => true,
        _ => closes(kind),
    }
}

// Whether the token is the name of a function where `(` follows.
fn names_function(kind: TokenKind) -> bool
    ensures { result ≡ names_function kind }
{
    matches!(
        kind,
        TokenKind::Name(_)
            | TokenKind::Iota
            | TokenKind::ScanAdd
            | TokenKind::ReduceAdd
            | TokenKind::ReduceMax
            | TokenKind::ReduceAnd
            | TokenKind::ReduceOr
            | TokenKind::Length
            | TokenKind::Concat
            | TokenKind::Part
            | TokenKind::The
            | TokenKind::Tab
            | TokenKind::Seq
            | TokenKind::Fst
            | TokenKind::Snd
    )
}

// Whether the last token is a `-` with one operand, by the token before it.
fn is_prefix_minus(before: TokenKind, last: TokenKind) -> bool
    ensures { result ≡ is_prefix_minus before last }
{
    match last {
        TokenKind::Minus => !ends_operand(before),
        _ => false,
    }
}

// Whether nothing stands between the last token and the next one in a line.
pub fn is_glued(before: TokenKind, last: TokenKind, next: TokenKind) -> bool
    ensures { result ≡ is_glued before last next }
{
    if opens(last) || closes(next) || is_prefix_minus(before, last) {
        return true;
    }
    match next {
        TokenKind::Comma | TokenKind::Semicolon => true,
        TokenKind::LeftParen => names_function(last),
        _ => false,
    }
}

// Where the next token begins, or the text ends.
fn next_at(text: &[u8], after: &[Token]) -> usize
    ensures { result ≡ next_at text.now after.now }
{
    match after.first() {
        Some(token) => token.at,
        None => text.len(),
    }
}

// The bytes of a text from a place up to another.
fn between(text: &[u8], start: usize, end: usize) -> &[u8]
    ensures { result.now ≡ drop start (take end text.now) }
{
    let before = &text[..end.min(text.len())];
    &before[start.min(before.len())..]
}

// Whether a byte is no blank.
fn is_printed(b: u8) -> bool
    ensures { result ≡ is_printed b }
{
    !is_blank(b)
}

// How many bytes at the front are no blanks.
fn printed_len(text: &[u8]) -> usize
    ensures count { result ≡ prefix_len is_printed text.now }
    ensures within { result ≤ length text.now }
{
    text.iter().take_while(|b| is_printed(**b)).count()
}

// The bytes of a token before others: up to the next one or to a blank.
pub fn token_bytes<'a>(text: &'a [u8], token: Token, after: &[Token]) -> &'a [u8]
    ensures { result.now ≡ token_bytes text.now token after.now }
{
    let rest = between(text, token.at, next_at(text, after));
    &rest[..printed_len(rest)]
}
