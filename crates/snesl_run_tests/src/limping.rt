// A reader and a writer that move one byte a call, and count their calls, some of which go wrong.

ghost use Rattle.std.specs.Prelude.{◌≡◌, IfOk};

use std::alloc::Global;
use std::io;
use std::io::{ErrorKind, Read, Write};

/// How a call goes wrong.
#[derive(Clone, Copy)]
pub enum Stop {
    /// It fails.
    Fails,
    /// It is interrupted, so that one who tries again does no wrong.
    IsInterrupted,
    /// It moves no byte.
    MovesNothing,
}

impl Stop {
    // What the call answers.
    fn answer(self) -> io::Result<usize>
        ensures { IfOk result (λ moved. moved ≡ 0) }
    {
        match self {
            Stop::Fails => Err(io::Error::from(ErrorKind::Other)),
            Stop::IsInterrupted => Err(io::Error::from(ErrorKind::Interrupted)),
            Stop::MovesNothing => Ok(0),
        }
    }
}

/// Which calls go wrong: some after those that work. The calls after them work again.
#[derive(Clone, Copy)]
pub struct Trouble {
    pub works: u64,
    pub fails: u64,
    pub stop: Stop,
}

/// No call goes wrong.
pub const SOUND: Trouble = Trouble {
    works: 0,
    fails: 0,
    stop: Stop::Fails,
};

impl Trouble {
    /// All calls fail after so many.
    pub fn behind(works: usize) -> Trouble {
        Trouble {
            works: works as u64,
            fails: u64::MAX,
            stop: Stop::Fails,
        }
    }

    // Whether a call goes wrong, after so many others.
    fn strikes(&self, behind: u64) -> bool {
        match behind.checked_sub(self.works) {
            Some(number) => number < self.fails,
            None => false,
        }
    }
}

/// A reader over memory.
#[derive(Drop)]
pub struct LimpingReader<'a> {
    rest: &'a [u8],
    trouble: Trouble,
    pub calls: u64,
}

impl<'a> LimpingReader<'a> {
    /// A reader of these bytes.
    pub fn new(rest: &'a [u8], trouble: Trouble) -> LimpingReader<'a> {
        LimpingReader {
            rest,
            trouble,
            calls: 0,
        }
    }
}

impl Read for LimpingReader<'_> {
    fn read(&mut self, buf: &mut [u8]) -> io::Result<usize> {
        let behind = self.calls;
        self.calls = behind.saturating_add(1);
        if self.trouble.strikes(behind) {
            return self.trouble.stop.answer();
        }
        if buf.is_empty() {
            return Ok(0);
        }
        let Some((byte, rest)) = self.rest.split_first() else {
            return Ok(0);
        };
        buf[0] = *byte;
        self.rest = rest;
        Ok(1)
    }
}

/// A writer over memory.
#[derive(Drop)]
pub struct LimpingWriter {
    pub taken: Vec<u8>,
    trouble: Trouble,
    pub calls: u64,
}

impl LimpingWriter {
    /// A writer that has taken nothing yet.
    pub fn new(alloc: Global, trouble: Trouble) -> LimpingWriter {
        LimpingWriter {
            taken: Vec::new(alloc),
            trouble,
            calls: 0,
        }
    }
}

impl Write for LimpingWriter {
    fn write(&mut self, buf: &[u8]) -> io::Result<usize> {
        let behind = self.calls;
        self.calls = behind.saturating_add(1);
        if self.trouble.strikes(behind) {
            return self.trouble.stop.answer();
        }
        let Some(byte) = buf.first() else {
            return Ok(0);
        };
        self.taken.push(*byte)?;
        Ok(1)
    }

    fn flush(&mut self) -> io::Result<()> {
        Ok(())
    }
}
