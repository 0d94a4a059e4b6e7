// An output that somebody reads, or nobody any more.

use std::cell::Cell;
use std::io::{self, ErrorKind, Write};

// An output. It notes where nobody reads it any more.
#[derive(Drop)]
pub(crate) struct Piped<'a, W> {
    inner: W,
    has_broken: &'a Cell<bool>,
}

impl<'a, W> Piped<'a, W> {
    pub(crate) fn new(inner: W, has_broken: &'a Cell<bool>) -> Piped<'a, W> {
        Piped { inner, has_broken }
    }
}

impl<W: Write> Write for Piped<'_, W> {
    fn write(&mut self, buf: &[u8]) -> io::Result<usize> {
        let taken = self.inner.write(buf);
        if let Err(error) = &taken
            && error.kind() == ErrorKind::BrokenPipe
        {
            self.has_broken.set(true);
        }
        taken
    }

    fn flush(&mut self) -> io::Result<()> {
        self.inner.flush()
    }
}
