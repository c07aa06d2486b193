//! The output of a command in memory, as the command writes it.

ghost use Rattle.std.specs.Prelude.{◌≡◌, [], Some, true, false, length};
ghost use Rattle.laspidru.specs.Logs.{writes_left};

use lsp_stream::Sink;
use std::alloc::Global;
use std::io::{self, ErrorKind, Write};

/// The most bytes of an output: more than a computer has, and too few for 2^64 - 1 writes.
const MAX_OUTPUT: usize = 1 << 61;

/// The bytes that were written. A write fails only if memory for it is missing.
#[derive(Drop)]
pub(crate) struct LogWriter {
    bytes: Vec<u8>,
    calls: u64,
    failed: bool,
    flushed: bool,
}

impl LogWriter {
    /// Starts without bytes.
    pub(crate) fn new(alloc: Global) -> LogWriter
        ensures bytes { result.bytes.items ≡ [] }
        ensures calls { result.calls ≡ 0 }
        ensures failed { result.failed ≡ false }
        ensures flushed { result.flushed ≡ true }
    {
        LogWriter {
            bytes: Vec::new(alloc),
            calls: 0,
            failed: false,
            flushed: true,
        }
    }

    /// Returns the bytes that were written.
    pub(crate) fn into_bytes(self) -> Vec<u8>
        ensures { result ≡ self.bytes }
    {
        self.bytes
    }
}

impl Sink for LogWriter {
    ghost seen = { λ writer.
        record {
          written = Some writer.bytes.items;
          failed = writer.failed;
          calls = writer.calls;
          calls_left = writes_left (length writer.bytes.items) writer.flushed;
          flushed = writer.flushed;
        } };

    fn write(&mut self, buf: &[u8]) -> io::Result<usize> {
        self.calls = self.calls.saturating_add(1);
        self.failed = true;
        if buf.len() > MAX_OUTPUT.saturating_sub(self.bytes.len()) {
            return Err(io::Error::from(ErrorKind::OutOfMemory));
        }
        self.bytes.extend_from_slice(buf)?;
        self.failed = false;
        self.flushed = self.flushed && buf.is_empty();
        Ok(buf.len())
    }

    fn flush(&mut self) -> io::Result<()> {
        self.calls = self.calls.saturating_add(1);
        self.failed = false;
        self.flushed = true;
        Ok(())
    }

    fn failed(&self) -> bool {
        self.failed
    }

    fn calls(&self) -> u64 {
        self.calls
    }

    fn flushed(&self) -> bool {
        self.flushed
    }
}
