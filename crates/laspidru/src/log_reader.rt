//! A log in memory, as a command reads it.

ghost use Rattle.std.specs.Prelude.{◌≡◌, Some, false, length};

use lsp_stream::Source;
use std::io;

/// The bytes of a log that are left to read. No read fails.
#[derive(Drop)]
pub(crate) struct LogReader<'a> {
    rest: &'a [u8],
    calls: u64,
    ended: bool,
}

impl<'a> LogReader<'a> {
    /// Starts at the first byte of a log.
    pub(crate) fn new(log: &'a [u8]) -> LogReader<'a>
        ensures rest { result.rest.now ≡ log.now }
        ensures calls { result.calls ≡ 0 }
        ensures ended { result.ended ≡ false }
    {
        LogReader {
            rest: log,
            calls: 0,
            ended: false,
        }
    }
}

impl Source for LogReader<'_> {
    ghost seen = { λ reader.
        record {
          left = Some reader.rest.now;
          failed = false;
          calls = reader.calls;
          calls_left = length reader.rest.now;
          ended = reader.ended;
        } };

    fn read(&mut self, buf: &mut [u8]) -> io::Result<usize> {
        let count = buf.len().min(self.rest.len());
        let (front, rest) = self.rest.split_at(count);
        buf[..count].copy_from_slice(front);
        self.rest = rest;
        self.calls = self.calls.saturating_add(1);
        self.ended = !buf.is_empty() && count == 0;
        Ok(count)
    }

    fn failed(&self) -> bool {
        false
    }

    fn calls(&self) -> u64 {
        self.calls
    }

    fn ended(&self) -> bool {
        self.ended
    }
}
