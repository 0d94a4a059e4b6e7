// Tokens.

/// What a token is. A reserved word is named for its text.
#[derive(Clone, Copy, Debug, PartialEq, Eq)]
pub enum TokenKind {
    /// An integer literal, by its value, from 0 to the greatest integer of the text's dialect.
    Integer(i128),
    /// A name, by its length in bytes.
    Name(usize),
    /// `input`
    Input,
    /// `function`
    Function,
    /// `let`
    Let,
    /// `in`
    In,
    /// `if`
    If,
    /// `then`
    Then,
    /// `else`
    Else,
    /// `true`
    True,
    /// `false`
    False,
    /// `not`
    Not,
    /// `and`
    And,
    /// `or`
    Or,
    /// `int`
    Int,
    /// `bool`
    Bool,
    /// `dialect`
    Dialect,
    /// `iota`
    Iota,
    /// `scan_add`
    ScanAdd,
    /// `reduce_add`
    ReduceAdd,
    /// `reduce_max`
    ReduceMax,
    /// `reduce_and`
    ReduceAnd,
    /// `reduce_or`
    ReduceOr,
    /// `length`
    Length,
    /// `concat`
    Concat,
    /// `part`
    Part,
    /// `the`
    The,
    /// `tab`
    Tab,
    /// `seq`
    Seq,
    /// `fst`
    Fst,
    /// `snd`
    Snd,
    /// `(`
    LeftParen,
    /// `)`
    RightParen,
    /// `{`
    LeftBrace,
    /// `}`
    RightBrace,
    /// `[`
    LeftBracket,
    /// `]`
    RightBracket,
    /// `:`
    Colon,
    /// `;`
    Semicolon,
    /// `,`
    Comma,
    /// `|`
    Bar,
    /// `=`
    Equals,
    /// `==`
    Same,
    /// `<`
    Less,
    /// `<=`
    AtMost,
    /// `>`
    Greater,
    /// `>=`
    AtLeast,
    /// `+`
    Plus,
    /// `++`
    Append,
    /// `-`
    Minus,
    /// `*`
    Star,
    /// `/`
    Slash,
    /// `%`
    Percent,
    /// `!`
    At,
}

/// A token and where it stands.
#[derive(Clone, Copy, Debug, PartialEq, Eq)]
pub struct Token {
    /// What it is.
    pub kind: TokenKind,
    /// The offset of its first byte, counted from 0.
    pub at: usize,
}
