// Programs as trees.

pub mod declaration;
pub mod expr;
pub mod operator;
pub mod span;

pub use declaration::{Declaration, Function, Typing, WrittenType};
pub use expr::{Binder, Expr};
pub use operator::{Builtin, Operator, Prefix};
pub use span::Span;
