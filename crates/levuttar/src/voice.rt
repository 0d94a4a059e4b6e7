// What is said on standard error.

use snesl_data::Counted;
use snesl_run::console::send;
use std::cell::Cell;
use std::io::Write;

// The word with which a message of what went wrong begins, and how a terminal is told to show it in red, and then as before.
const ERROR: &[u8] = b"error";

const RED: &[u8] = b"\x1b[1;31m";

const AS_BEFORE: &[u8] = b"\x1b[0m";

// Standard error, and how it is written.
#[derive(Drop)]
pub(crate) struct Voice<'a, E> {
    err: Counted<E>,
    // Whether nobody reads standard output any more: then nothing is said.
    has_broken: &'a Cell<bool>,
    // Whether it is a terminal.
    on_terminal: bool,
    // Whether it shows colours.
    in_colours: bool,
}

impl<'a, E: Write> Voice<'a, E> {
    pub(crate) fn new(
        err: E,
        has_broken: &'a Cell<bool>,
        on_terminal: bool,
        in_colours: bool,
    ) -> Voice<'a, E> {
        Voice {
            err: Counted::new(err),
            has_broken,
            on_terminal,
            in_colours,
        }
    }

    // Whether a line can be written anew.
    pub(crate) fn on_terminal(&self) -> bool {
        self.on_terminal
    }

    // Writes a text, and tells whether that was done.
    pub(crate) fn say(&mut self, text: &[u8]) -> bool {
        if self.has_broken.get() {
            return false;
        }
        match text.strip_prefix(ERROR) {
            Some(rest) if self.in_colours => send(&mut self.err, RED)
                && send(&mut self.err, ERROR)
                && send(&mut self.err, AS_BEFORE)
                && send(&mut self.err, rest),
            _ => send(&mut self.err, text),
        }
    }
}
