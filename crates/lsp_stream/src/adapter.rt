//! A std reader or writer that reports how its calls ended.

ghost use Rattle.std.specs.Prelude.{◌≡◌, ◌↔◌, true, false};
ghost use Rattle.std.specs.Io.{ReadsAtMost, WritesAtMost};
ghost use Rattle.std.specs.IoError.{error_kind};
ghost use Rattle.lsp_stream.specs.Ports.{IsReadFailure, IsWriteFailure, IsFlushFailure, IsEnd, flushed_after_write, flushed_after_flush, one_more, uncounted};

use crate::port::{Sink, Source};
use std::io::{self, ErrorKind, Read, Write};

/// Makes a [`Source`] of a std reader and a [`Sink`] of a std writer. Each call is one call of the
/// inner one, and returns what that one returned; this is tested, and said by no clause.
#[derive(Debug, Drop)]
pub struct Told<T> {
    inner: T,
    failed: bool,
    calls: u64,
    ended: bool,
    flushed: bool,
}

impl<T> Told<T> {
    /// Wraps a reader or a writer. No call was made yet.
    pub fn new(inner: T) -> Told<T>
        ensures inner { result.inner ≡ inner }
        ensures failed { result.failed ≡ false }
        ensures calls { result.calls ≡ 0 }
        ensures ended { result.ended ≡ false }
        ensures flushed { result.flushed ≡ true }
    {
        Told {
            inner,
            failed: false,
            calls: 0,
            ended: false,
            flushed: true,
        }
    }

    /// Returns the inner reader or writer.
    pub fn into_inner(self) -> T
        ensures { result ≡ self.inner }
    {
        self.inner
    }

    /// Notes what a read returned.
    fn note_read(&mut self, answer: &io::Result<usize>, buf: &[u8])
        ensures inner { self.new.inner ≡ self.old.inner }
        ensures failed { self.new.failed ≡ true ↔ IsReadFailure answer.now }
        ensures counted { self.new.calls ≡ one_more self.old.calls }
        ensures ended { self.new.ended ≡ true ↔ IsEnd buf.now answer.now }
    {
        self.calls = self.calls.saturating_add(1);
        self.ended = !buf.is_empty() && matches!(answer, Ok(0));
        self.failed = match answer {
            Ok(_) => false,
            Err(error) => !is_interrupted(error),
        };
    }

    /// Notes what a write returned.
    fn note_write(&mut self, answer: &io::Result<usize>, buf: &[u8])
        ensures inner { self.new.inner ≡ self.old.inner }
        ensures failed { self.new.failed ≡ true ↔ IsWriteFailure answer.now buf.now }
        ensures counted { self.new.calls ≡ one_more self.old.calls }
        ensures flushed { self.new.flushed ≡ flushed_after_write self.old.flushed answer.now }
    {
        self.calls = self.calls.saturating_add(1);
        self.failed = match answer {
            Ok(taken) => *taken == 0 && !buf.is_empty(),
            Err(error) => !is_interrupted(error),
        };
        if let Ok(taken) = answer {
            self.flushed = self.flushed && *taken == 0;
        }
    }

    /// Notes what a flush returned.
    fn note_flush(&mut self, answer: &io::Result<()>)
        ensures inner { self.new.inner ≡ self.old.inner }
        ensures failed { self.new.failed ≡ true ↔ IsFlushFailure answer.now }
        ensures counted { self.new.calls ≡ one_more self.old.calls }
        ensures flushed { self.new.flushed ≡ flushed_after_flush self.old.flushed answer.now }
    {
        self.calls = self.calls.saturating_add(1);
        self.failed = match answer {
            Ok(()) => false,
            Err(error) => !is_interrupted(error),
        };
        self.flushed = self.flushed || answer.is_ok();
    }
}

/// Returns whether the call was interrupted. Then it didn't fail, and may be made again.
pub(crate) fn is_interrupted(error: &io::Error) -> bool
    ensures { result ≡ true ↔ error_kind error.now ≡ ErrorKind.Interrupted }
{
    error.kind() == ErrorKind::Interrupted
}

impl<T: Read> Source for Told<T> {
    ghost seen = { λ t.
        record {
          left = T.remaining t.inner;
          failed = t.failed;
          calls = t.calls;
          calls_left = uncounted t.calls;
          ended = t.ended;
        } };

    fn read(&mut self, buf: &mut [u8]) -> io::Result<usize> {
        let answer = self.inner.read(buf);
        self.note_read(&answer, buf);
        answer
    }

    fn failed(&self) -> bool {
        self.failed
    }

    fn calls(&self) -> u64 {
        self.calls
    }

    fn ended(&self) -> bool {
        self.ended
    }
}

impl<T: Write> Sink for Told<T> {
    ghost seen = { λ t.
        record {
          written = T.contents t.inner;
          failed = t.failed;
          calls = t.calls;
          calls_left = uncounted t.calls;
          flushed = t.flushed;
        } };

    fn write(&mut self, buf: &[u8]) -> io::Result<usize> {
        let answer = self.inner.write(buf);
        self.note_write(&answer, buf);
        answer
    }

    fn flush(&mut self) -> io::Result<()> {
        let answer = self.inner.flush();
        self.note_flush(&answer);
        answer
    }

    fn failed(&self) -> bool {
        self.failed
    }

    fn calls(&self) -> u64 {
        self.calls
    }

    fn flushed(&self) -> bool {
        self.flushed
    }
}
