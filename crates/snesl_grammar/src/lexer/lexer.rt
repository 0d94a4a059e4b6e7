// The lexer: which tokens a text is, and where its first bad byte stands.

ghost use Rattle.std.specs.Prelude.{◌≡◌, ◌<◌, ◌≤◌, [], ◌∷◌, length, Some, None, IsTrue, IfOk, IfErr, MatchOption};
ghost use Rattle.std.specs.List.{AllByRecursion, prefix_len};
ghost use Rattle.std.specs.Char.{is_ascii_digit};
ghost use Rattle.snesl_data.specs.declared.dialect.Dialect.TheVariants.{Two};
ghost use Rattle.snesl_data.specs.Integers.{greatest_integer};
ghost use Rattle.snesl_data.specs.Blanks.{is_blank};
ghost use Rattle.snesl_grammar.specs.lexer.Tables.{kind_in};
ghost use Rattle.snesl_grammar.specs.lexer.Words.{word_kind};
ghost use Rattle.snesl_grammar.specs.lexer.Signs.{one_byte_signs, two_byte_signs, sign_token};
ghost use Rattle.snesl_grammar.specs.lexer.Lexical.{number, first, after_blanks, next_kind, dialect_of, Tokens, IsTokenWithin, IsBadOf};
ghost use Rattle.snesl_grammar.specs.lexer.Lexemes.{FirstIsLongest};
ghost use Rattle.snesl_grammar.specs.lexer.Readings.{HaveOneReading, TokensNameTheirDialect};

use crate::lexer::token::{Token, TokenKind};
use snesl_data::{Dialect, Refusal, digits_len, is_blank, word_len};
use std::alloc::Global;

/// What stands first in bytes.
#[derive(Clone, Copy, Debug, PartialEq, Eq)]
pub enum Foremost {
    /// A blank, of one byte.
    Blank,
    /// A token of this kind and of this many bytes.
    Found(TokenKind, usize),
    /// No blank and no token, or an integer over the limit of the dialect.
    Bad,
}

// The kind of a word: a reserved word, or else a name.
fn word_kind(word: &[u8]) -> TokenKind
    ensures { result ≡ word_kind word.now }
{
    match word {
        b"input" => TokenKind::Input,
        b"function" => TokenKind::Function,
        b"let" => TokenKind::Let,
        b"in" => TokenKind::In,
        b"if" => TokenKind::If,
        b"then" => TokenKind::Then,
        b"else" => TokenKind::Else,
        b"true" => TokenKind::True,
        b"false" => TokenKind::False,
        b"not" => TokenKind::Not,
        b"and" => TokenKind::And,
        b"or" => TokenKind::Or,
        b"int" => TokenKind::Int,
        b"bool" => TokenKind::Bool,
        b"dialect" => TokenKind::Dialect,
        b"iota" => TokenKind::Iota,
        b"scan_add" => TokenKind::ScanAdd,
        b"reduce_add" => TokenKind::ReduceAdd,
        b"reduce_max" => TokenKind::ReduceMax,
        b"reduce_and" => TokenKind::ReduceAnd,
        b"reduce_or" => TokenKind::ReduceOr,
        b"length" => TokenKind::Length,
        b"concat" => TokenKind::Concat,
        b"part" => TokenKind::Part,
        b"the" => TokenKind::The,
        b"tab" => TokenKind::Tab,
        b"seq" => TokenKind::Seq,
        b"fst" => TokenKind::Fst,
        b"snd" => TokenKind::Snd,
        _ => TokenKind::Name(word.len()),
    }
}

// The sign that these two bytes are.
fn two_byte_sign(b: u8, next: u8) -> Option<TokenKind>
    ensures { result ≡ kind_in two_byte_signs (b ∷ next ∷ []) }
{
    match (b, next) {
        (b'=', b'=') => Some(TokenKind::Same),
        (b'<', b'=') => Some(TokenKind::AtMost),
        (b'>', b'=') => Some(TokenKind::AtLeast),
        (b'+', b'+') => Some(TokenKind::Append),
        _ => None,
    }
}

// The sign that this byte is.
fn one_byte_sign(b: u8) -> Option<TokenKind>
    ensures { result ≡ kind_in one_byte_signs (b ∷ []) }
{
    match b {
        b'(' => Some(TokenKind::LeftParen),
        b')' => Some(TokenKind::RightParen),
        b'{' => Some(TokenKind::LeftBrace),
        b'}' => Some(TokenKind::RightBrace),
        b'[' => Some(TokenKind::LeftBracket),
        b']' => Some(TokenKind::RightBracket),
        b':' => Some(TokenKind::Colon),
        b';' => Some(TokenKind::Semicolon),
        b',' => Some(TokenKind::Comma),
        b'|' => Some(TokenKind::Bar),
        b'=' => Some(TokenKind::Equals),
        b'<' => Some(TokenKind::Less),
        b'>' => Some(TokenKind::Greater),
        b'+' => Some(TokenKind::Plus),
        b'-' => Some(TokenKind::Minus),
        b'*' => Some(TokenKind::Star),
        b'/' => Some(TokenKind::Slash),
        b'%' => Some(TokenKind::Percent),
        b'!' => Some(TokenKind::At),
        _ => None,
    }
}

// The token of a sign: the longest is taken.
fn sign_token(b: u8, next: u8) -> Foremost
    ensures { result ≡ sign_token b next }
{
    if let Some(kind) = two_byte_sign(b, next) {
        return Foremost::Found(kind, 2);
    }
    match one_byte_sign(b) {
        Some(kind) => Foremost::Found(kind, 1),
        None => Foremost::Bad,
    }
}

// The greatest integer that a literal may write.
fn greatest_literal(dialect: Dialect) -> u128
    ensures exact { result ≡ greatest_integer dialect }
    ensures fits { result ≤ greatest_integer Two }
{
    dialect.greatest() as u128
}

// The token of digits: an integer, or bad where it is over the limit of the dialect.
fn number(dialect: Dialect, digits: &[u8]) -> Foremost
    requires { AllByRecursion (λ c. IsTrue (is_ascii_digit c)) digits.now }
    ensures { result ≡ number dialect digits.now }
{
    let greatest = greatest_literal(dialect);
    let mut value = 0u128;
    for c in digits {
        let digit = u128::from(*c - b'0');
        if value > (greatest - digit) / 10 {
            return Foremost::Bad;
        }
        value = 10 * value + digit;
    }
    Foremost::Found(TokenKind::Integer(value as i128), digits.len())
}

// What stands first in a text of this dialect.
fn first_token(dialect: Dialect, text: &[u8]) -> Foremost
    requires { 0 < length text.now }
    ensures found { result ≡ first dialect text.now }
    ensures within { IsTokenWithin (length text.now) result }
{
    let b = text[0];
    if is_blank(b) {
        return Foremost::Blank;
    }
    if b.is_ascii_alphabetic() {
        let len = word_len(text);
        return Foremost::Found(word_kind(&text[..len]), len);
    }
    if b.is_ascii_digit() {
        let len = digits_len(text);
        return number(dialect, &text[..len]);
    }
    let next = if text.len() > 1 { text[1] } else { 0 };
    sign_token(b, next)
}

// How many bytes at the front are blanks.
fn blanks_len(text: &[u8]) -> usize
    ensures count { result ≡ prefix_len is_blank text.now }
    ensures within { result ≤ length text.now }
{
    text.iter().take_while(|b| is_blank(**b)).count()
}

// The bytes after the blanks at the front.
fn after_blanks(text: &[u8]) -> &[u8]
    ensures { result.now ≡ after_blanks text.now }
{
    &text[blanks_len(text)..]
}

// The kind of the token that comes next after blanks, and the bytes after it. The first dialect
// reads it.
fn next_kind(text: &[u8]) -> Option<(TokenKind, &[u8])>
    ensures { MatchOption result
        (next_kind text.now ≡ None)
        (λ found. next_kind text.now ≡ Some (found.0, found.1.now)) }
{
    let rest = after_blanks(text);
    if rest.is_empty() {
        return None;
    }
    match first_token(Dialect::One, rest) {
        Foremost::Found(kind, len) => Some((kind, &rest[len..])),
        Foremost::Blank | Foremost::Bad => None,
    }
}

// The dialect that a text names with its first three tokens.
fn dialect_of(text: &[u8]) -> Dialect
    ensures { result ≡ dialect_of text.now }
{
    let Some((TokenKind::Dialect, text)) = next_kind(text) else {
        return Dialect::One;
    };
    let Some((TokenKind::Integer(2), text)) = next_kind(text) else {
        return Dialect::One;
    };
    let Some((TokenKind::Semicolon, _)) = next_kind(text) else {
        return Dialect::One;
    };
    Dialect::Two
}

// The tokens of a text of this dialect, or the offset of its first bad byte.
fn tokens_in(dialect: Dialect, alloc: Global, text: &[u8]) -> Result<Vec<Token>, Refusal>
    ensures found { IfOk result (λ tokens. Tokens dialect 0 text.now tokens.items) }
    ensures bad { IfErr result (IsBadOf dialect 0 text.now) }
{
    let mut tokens = Vec::new(alloc);
    let mut at = 0usize;
    while at < text.len() {
        match first_token(dialect, &text[at..]) {
            Foremost::Blank => at += 1,
            Foremost::Found(kind, len) => {
                tokens.push(Token { kind, at })?;
                at += len;
            }
            Foremost::Bad => return Err(Refusal::Lex(at)),
        }
    }
    Ok(tokens)
}

/// The tokens of a program text, in order, each with the offset of its first byte. Offsets count
/// bytes from 0. Blanks may stand before, between and after tokens, and the longest token is taken.
///
/// # Errors
///
/// - `Refusal::Lex(at)`: at byte `at` no token begins, or an integer that is over the limit of the
///   text's dialect: 2^63 - 1, or 2^127 - 1 where its first three tokens are `dialect`, 2 and `;`.
///   It is the first such byte.
/// - `Refusal::NoMemory`: there is no room for the tokens.
pub fn tokens_of(alloc: Global, text: &[u8]) -> Result<Vec<Token>, Refusal>
    ensures found { IfOk result (λ tokens. Tokens (dialect_of text.now) 0 text.now tokens.items) }
    ensures bad { IfErr result (IsBadOf (dialect_of text.now) 0 text.now) }
{
    tokens_in(dialect_of(text), alloc, text)
}

/// A law of the definitions that `tokens_of` promises: what stands first in a text is a blank or the
/// longest lexeme that the text begins with.
pub fn longest_lexeme()
    ensures { FirstIsLongest }
{}

/// A law of the same definitions: each text is either one list of tokens or has one first bad byte.
/// So a text with a bad byte is never answered with tokens.
pub fn one_reading()
    ensures { HaveOneReading }
{}

/// A law of the same definitions: the dialect in which a text is read is the one that its first
/// three tokens name.
pub fn tokens_name_their_dialect()
    ensures { TokensNameTheirDialect }
{}
