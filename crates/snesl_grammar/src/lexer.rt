// Tokens, and the lexer that finds them.

pub mod lexer;
pub mod token;

pub use lexer::{longest_lexeme, one_reading, tokens_name_their_dialect, tokens_of};
pub use token::{Token, TokenKind};
