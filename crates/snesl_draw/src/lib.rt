//! The network of a program, drawn: as a picture in DOT, the language of Graphviz, and as a text.
#![tactic(auto)]

mod dot;
mod drawing;
mod extent;
mod forms;
mod inputs;
mod lines;
mod network;
mod quoting;
mod steps;
mod text;
mod words;

pub use dot::network_dot;
pub use drawing::{Drawing, DrawnEdge, DrawnForm, DrawnNode, InputStream};
pub use forms::drawn_form;
pub use network::drawing_of;
pub use quoting::quoted;
pub use text::network_text;
pub use words::{kind_colour, kind_word, operation_word};
