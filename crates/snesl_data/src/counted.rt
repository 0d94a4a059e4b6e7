// Readers and writers whose failures are counted.

ghost use Rattle.std.specs.Prelude.{◌≡◌, length};
ghost use Rattle.std.specs.Io.{ReadsAtMost, WritesAtMost};
ghost use Rattle.std.specs.Io.KnownBytes.{Keeps, ReadConsumes, WriteAppends};
ghost use Rattle.snesl_data.specs.Counted.{counted_inner, failures_of, one_more, counted, read_failed, write_failed, flush_failed};

use std::io::{self, Read, Write};

/// A reader or a writer, and how many of its calls have failed.
#[derive(Debug, Drop)]
pub struct Counted<T> {
    inner: T,
    failures: u64,
}

impl<T> Counted<T> {
    /// No call of `inner` has failed so far.
    pub fn new(inner: T) -> Self
        ensures inner { counted_inner result ≡ inner }
        ensures failures { failures_of result ≡ 0 }
    {
        Counted { inner, failures: 0 }
    }

    /// The reader or writer inside.
    pub fn into_inner(self) -> T
        ensures { result ≡ counted_inner self }
    {
        self.inner
    }

    /// How many calls have failed: those of `read`, `write` and `flush` that ended in an error, and
    /// those of `write` that took none of the bytes that they were given. The count stays at
    /// `u64::MAX`.
    pub fn failures(&self) -> u64
        ensures { result ≡ failures_of self.now }
    {
        self.failures
    }

    fn count_failure(&mut self)
        ensures inner { counted_inner self.new ≡ counted_inner self.old }
        ensures failures { failures_of self.new ≡ one_more (failures_of self.old) }
    {
        self.failures = self.failures.saturating_add(1);
    }
}

impl<R: Read> Read for Counted<R> {
    ghost remaining = { λ reader. R.remaining (counted_inner reader) };

    fn read(&mut self, buf: &mut [u8]) -> io::Result<usize>
        ensures bound { ReadsAtMost result buf.new }
        ensures bytes { ReadConsumes (R.remaining (counted_inner self.old))
            (R.remaining (counted_inner self.new)) result buf.new }
        ensures counts { failures_of self.new ≡ counted (failures_of self.old)
            (read_failed result) }
    {
        let result = self.inner.read(buf);
        if result.is_err() {
            self.count_failure();
        }
        result
    }
}

impl<W: Write> Write for Counted<W> {
    ghost contents = { λ writer. W.contents (counted_inner writer) };

    fn write(&mut self, buf: &[u8]) -> io::Result<usize>
        ensures bound { WritesAtMost result buf.now }
        ensures bytes { WriteAppends (W.contents (counted_inner self.old))
            (W.contents (counted_inner self.new)) result buf.now }
        ensures counts { failures_of self.new ≡ counted (failures_of self.old)
            (write_failed result (length buf.now)) }
    {
        let result = self.inner.write(buf);
        let has_failed = match &result {
            Ok(taken) => *taken == 0 && !buf.is_empty(),
            Err(_) => true,
        };
        if has_failed {
            self.count_failure();
        }
        result
    }

    fn flush(&mut self) -> io::Result<()>
        ensures bytes { Keeps (W.contents (counted_inner self.old))
            (W.contents (counted_inner self.new)) }
        ensures counts { failures_of self.new ≡ counted (failures_of self.old)
            (flush_failed result) }
    {
        let flushed = self.inner.flush();
        if flushed.is_err() {
            self.count_failure();
        }
        flushed
    }
}
