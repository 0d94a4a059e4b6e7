//! The settings of the program: what the words of a command line say.

mod command_line;
mod options;
mod values;

pub use command_line::settings;
