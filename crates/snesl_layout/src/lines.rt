// Where lines break.

ghost use Rattle.std.specs.Prelude.{◌≡◌, ◌≤◌};
ghost use Rattle.snesl_layout.specs.Lines.{begins_statement, ends, ends_line, ends_statement, fits_behind, flat_after, gap_before, gap_len, in_line_after, begins_body, breaks_after, breaks_before, fills, follows_then, is_beyond, is_broken, is_cut, is_let_end, is_literal, levels_after, line_levels, margin, may_break, part_after, part_of, room_after, start, state_after, stop_of, then_begins_after, wraps, breaks};

use crate::spacing::{closes, deeper, depth_after, is_glued, opens, token_bytes};
use snesl_grammar::lexer::{Token, TokenKind};

// The bytes of a line are so many, and one more for what closes it.
const WIDTH: usize = 99;

/// In what a token stands.
#[derive(Clone, Copy)]
pub enum Part {
    /// Before all tokens.
    Start,
    /// The declaration of an input.
    Input,
    /// A function before its body.
    Header,
    /// The body of a function.
    Body,
    /// The dialect, or the expression of the program.
    Other,
}

/// What stands between two tokens.
#[derive(Clone, Copy)]
pub enum Gap {
    Nothing,
    Blank,
    /// The end of a line, and a new line that is indented by so many levels.
    Line(u8),
    /// The end of a line, and an empty line.
    EmptyLine,
}

/// Up to where it is looked whether tokens fit into a line, but for those in brackets that they open.
#[derive(Clone, Copy)]
pub enum Stop {
    /// To the end of what stands behind a bracket without a blank.
    Bracket,
    /// To the `;` of a declaration.
    Statement,
    /// To the next place where a line always breaks, or where a bracket around them closes.
    Line,
    /// To the next place where a line may break, or where a bracket around them closes.
    Piece,
}

/// What the tokens before a token lead to.
#[derive(Clone, Copy)]
pub struct State {
    pub part: Part,
    /// Whether the declaration or the expression fits into a line, from the last break on.
    pub in_line: bool,
    /// How many braces are open that do not fit into a line.
    pub levels: u8,
    /// How many brackets are open of those that fit.
    pub flat: u8,
    /// How many bytes the line still has.
    pub room: usize,
    /// Whether the last token is the `in` of a `let`.
    pub after_let: bool,
    /// Whether the last `then` in what does not fit begins a line.
    pub then_begins: bool,
    pub before: TokenKind,
    pub last: TokenKind,
}

// Before all tokens.
pub fn start() -> State
    ensures { result ≡ start }
{
    State {
        part: Part::Start,
        in_line: false,
        levels: 0,
        flat: 0,
        room: WIDTH,
        after_let: false,
        then_begins: false,
        before: TokenKind::Semicolon,
        last: TokenKind::Semicolon,
    }
}

// Whether a line always breaks beside the token.
fn ends_line(kind: TokenKind) -> bool
    ensures { result ≡ ends_line kind }
{
    matches!(
        kind,
        TokenKind::Comma | TokenKind::Semicolon | TokenKind::Colon | TokenKind::Bar | TokenKind::In
    )
}

// Whether a line may break before the token.
fn wraps(kind: TokenKind) -> bool
    ensures { result ≡ wraps kind }
{
    matches!(
        kind,
        TokenKind::Then
            | TokenKind::Else
            | TokenKind::Or
            | TokenKind::And
            | TokenKind::Append
            | TokenKind::Plus
    )
}

// Whether what is looked at ends before the token.
fn ends(stop: Stop, kind: TokenKind) -> bool
    ensures { result ≡ ends stop kind }
{
    match stop {
        Stop::Bracket => !closes(kind) && !matches!(kind, TokenKind::Comma | TokenKind::Semicolon),
        Stop::Statement => matches!(kind, TokenKind::Semicolon),
        Stop::Line => closes(kind) || ends_line(kind),
        Stop::Piece => closes(kind) || ends_line(kind) || wraps(kind),
    }
}

// Whether a line breaks anyway behind the token, up to where it is looked: a `let` that does not stand in brackets goes on in a new
// line behind its `in`.
fn is_cut(stop: Stop, kind: TokenKind) -> bool
    ensures { result ≡ is_cut stop kind }
{
    match stop {
        Stop::Line => matches!(kind, TokenKind::Let),
        _ => false,
    }
}

// How many bytes stand between two tokens of a line.
fn gap_len(before: TokenKind, last: TokenKind, next: TokenKind) -> usize
    ensures count { result ≡ gap_len before last next }
    ensures few { result ≤ 1 }
{
    if is_glued(before, last, next) { 0 } else { 1 }
}

// Whether the tokens behind the last one fit into so many bytes of a line, up to where it is looked.
fn fits_behind(
    text: &[u8],
    stop: Stop,
    room: usize,
    before: TokenKind,
    last: TokenKind,
    tokens: &[Token],
) -> bool
    ensures { result ≡ fits_behind text.now stop room before last tokens.now }
{
    let mut room = room;
    let mut depth = depth_after(0, last);
    let mut before = before;
    let mut last = last;
    for i in 0..tokens.len() {
        let token = tokens[i];
        if depth == 0 && ends(stop, token.kind) {
            return true;
        }
        if depth == 0 && is_cut(stop, token.kind) {
            return false;
        }
        let taken = gap_len(before, last, token.kind)
            + token_bytes(text, token, &tokens[i + 1..]).len();
        if taken > room {
            return false;
        }
        room -= taken;
        depth = depth_after(depth, token.kind);
        before = last;
        last = token.kind;
    }
    true
}

// Whether the last token ends a declaration.
fn ends_statement(state: State) -> bool
    ensures { result ≡ ends_statement state }
{
    matches!(state.last, TokenKind::Semicolon) && state.levels == 0 && state.flat == 0
}

// Whether a declaration or the expression begins.
fn begins_statement(state: State) -> bool
    ensures { result ≡ begins_statement state }
{
    match state.part {
        Part::Start => true,
        _ => ends_statement(state),
    }
}

// Whether the body of a function begins.
fn begins_body(state: State) -> bool
    ensures { result ≡ begins_body state }
{
    match (state.part, state.last) {
        (Part::Header, TokenKind::Equals) => true,
        _ => false,
    }
}

// Whether what is around the next token does not fit into a line.
fn is_broken(state: State) -> bool
    ensures { result ≡ is_broken state }
{
    !state.in_line && state.flat == 0
}

// Whether an item may be just this token: an integer or a truth value.
fn is_literal(kind: TokenKind) -> bool
    ensures { result ≡ is_literal kind }
{
    matches!(
        kind,
        TokenKind::Integer(_) | TokenKind::True | TokenKind::False
    )
}

// Whether an item that begins so goes on in the line of the one before: behind a literal a literal, or `-`.
fn fills(before: TokenKind, kind: TokenKind) -> bool
    ensures { result ≡ fills before kind }
{
    is_literal(before) && (is_literal(kind) || matches!(kind, TokenKind::Minus))
}

// Whether a line breaks there after the last token.
fn breaks_after(state: State, kind: TokenKind) -> bool
    ensures { result ≡ breaks_after state kind }
{
    match state.last {
        TokenKind::LeftBrace | TokenKind::Semicolon => true,
        TokenKind::Comma => !fills(state.before, kind),
        TokenKind::In => state.after_let,
        _ => begins_body(state),
    }
}

// Whether a line breaks there before a token.
fn breaks_before(state: State, kind: TokenKind) -> bool
    ensures { result ≡ breaks_before state kind }
{
    match kind {
        TokenKind::RightBrace | TokenKind::Bar => true,
        TokenKind::Colon => state.levels > 0,
        _ => false,
    }
}

// Whether a line breaks there where what follows does not fit.
fn may_break(state: State, kind: TokenKind) -> bool
    ensures { result ≡ may_break state kind }
{
    wraps(kind) || matches!(state.last, TokenKind::Comma)
}

// Whether the token is the `else` of an `if` whose `then` begins a line.
fn follows_then(state: State, kind: TokenKind) -> bool
    ensures { result ≡ follows_then state kind }
{
    matches!(kind, TokenKind::Else) && state.then_begins
}

// Up to where it is looked whether a line breaks before a token.
fn stop_of(kind: TokenKind) -> Stop
    ensures { result ≡ stop_of kind }
{
    match kind {
        TokenKind::Then | TokenKind::Else => Stop::Line,
        _ => Stop::Piece,
    }
}

// Whether the token, and what follows up to where it is looked, does not fit.
fn is_beyond(text: &[u8], state: State, token: Token, after: &[Token]) -> bool
    ensures { result ≡ is_beyond text.now state token after.now }
{
    let taken = token_bytes(text, token, after).len() + 1;
    if taken > state.room {
        return true;
    }
    let room = state.room - taken;
    !fits_behind(
        text,
        stop_of(token.kind),
        room,
        state.last,
        token.kind,
        after,
    )
}

// Whether a line breaks between the last token and this one.
fn breaks(text: &[u8], state: State, token: Token, after: &[Token]) -> bool
    ensures { result ≡ breaks text.now state token after.now }
{
    if !is_broken(state) {
        return false;
    }
    if breaks_after(state, token.kind) || breaks_before(state, token.kind) {
        return true;
    }
    if follows_then(state, token.kind) {
        return true;
    }
    may_break(state, token.kind) && is_beyond(text, state, token, after)
}

// By how many levels a line is indented.
fn line_levels(state: State, kind: TokenKind) -> u8
    ensures { result ≡ line_levels state kind }
{
    let levels = match kind {
        TokenKind::RightBrace => state.levels.saturating_sub(1),
        _ => state.levels,
    };
    match state.part {
        Part::Header | Part::Body => deeper(levels),
        _ => levels,
    }
}

// What stands before a declaration or the expression: nothing before the first, and an empty line but between inputs.
fn margin(part: Part, kind: TokenKind) -> Gap
    ensures { result ≡ margin part kind }
{
    match (part, kind) {
        (Part::Start, _) => Gap::Nothing,
        (Part::Input, TokenKind::Input) => Gap::Line(0),
        _ => Gap::EmptyLine,
    }
}

// What stands between the last token and this one.
pub fn gap_before(text: &[u8], state: State, token: Token, after: &[Token]) -> Gap
    ensures { result ≡ gap_before text.now state token after.now }
{
    if begins_statement(state) {
        margin(state.part, token.kind)
    } else if breaks(text, state, token, after) {
        Gap::Line(line_levels(state, token.kind))
    } else if is_glued(state.before, state.last, token.kind) {
        Gap::Nothing
    } else {
        Gap::Blank
    }
}

// How many bytes a line still has after a token of this length.
fn room_after(state: State, gap: Gap, len: usize) -> usize
    ensures { result ≡ room_after state gap len }
{
    match gap {
        Gap::Nothing => state.room.saturating_sub(len),
        Gap::Blank => state.room.saturating_sub(1).saturating_sub(len),
        Gap::Line(levels) => (WIDTH.saturating_sub(4 * usize::from(levels))).saturating_sub(len),
        Gap::EmptyLine => WIDTH.saturating_sub(len),
    }
}

// What begins with a token of this kind.
fn part_of(kind: TokenKind) -> Part
    ensures { result ≡ part_of kind }
{
    match kind {
        TokenKind::Input => Part::Input,
        TokenKind::Function => Part::Header,
        _ => Part::Other,
    }
}

// In what the token stands.
fn part_after(state: State, kind: TokenKind) -> Part
    ensures { result ≡ part_after state kind }
{
    if begins_statement(state) {
        part_of(kind)
    } else if begins_body(state) {
        Part::Body
    } else {
        state.part
    }
}

// Whether a declaration or the expression fits into a line: that is looked up where it begins, and where the body does.
fn in_line_after(text: &[u8], state: State, room: usize, kind: TokenKind, after: &[Token]) -> bool
    ensures { result ≡ in_line_after text.now state room kind after.now }
{
    if begins_statement(state) || begins_body(state) {
        fits_behind(text, Stop::Statement, room, state.last, kind, after)
    } else {
        state.in_line
    }
}

// How many brackets are open then of those that fit.
fn flat_after(state: State, in_line: bool, fits: bool, kind: TokenKind) -> u8
    ensures { result ≡ flat_after state in_line fits kind }
{
    if !opens(kind) || in_line || state.flat > 0 {
        depth_after(state.flat, kind)
    } else if fits {
        1
    } else {
        0
    }
}

// How many braces are open then that do not fit.
fn levels_after(state: State, in_line: bool, fits: bool, kind: TokenKind) -> u8
    ensures { result ≡ levels_after state in_line fits kind }
{
    if in_line || state.flat > 0 {
        return state.levels;
    }
    match kind {
        TokenKind::LeftBrace if !fits => deeper(state.levels),
        TokenKind::RightBrace => state.levels.saturating_sub(1),
        _ => state.levels,
    }
}

// Whether the token is the `in` of a `let`: that of a binder stands behind a name and `:` or `;`.
fn is_let_end(state: State, kind: TokenKind) -> bool
    ensures { result ≡ is_let_end kind state.before }
{
    match (kind, state.before) {
        (TokenKind::In, TokenKind::Colon | TokenKind::Semicolon) => false,
        (TokenKind::In, _) => true,
        _ => false,
    }
}

// Whether the last `then` in what does not fit begins a line.
fn then_begins_after(state: State, gap: Gap, kind: TokenKind) -> bool
    ensures { result ≡ then_begins_after state gap kind }
{
    if is_broken(state) && matches!(kind, TokenKind::Then) {
        matches!(gap, Gap::Line(_))
    } else {
        state.then_begins
    }
}

// What the tokens up to this one lead to.
pub fn state_after(text: &[u8], state: State, token: Token, after: &[Token]) -> State
    ensures { result ≡ state_after text.now state token after.now }
{
    let kind = token.kind;
    let len = token_bytes(text, token, after).len();
    let gap = gap_before(text, state, token, after);
    let room = room_after(state, gap, len);
    let in_line = in_line_after(text, state, room, kind, after);
    let closes = fits_behind(text, Stop::Bracket, room, state.last, kind, after);
    State {
        part: part_after(state, kind),
        in_line,
        levels: levels_after(state, in_line, closes, kind),
        flat: flat_after(state, in_line, closes, kind),
        room,
        after_let: is_let_end(state, kind),
        then_begins: then_begins_after(state, gap, kind),
        before: state.last,
        last: kind,
    }
}
