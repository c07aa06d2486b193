//! The reader and the writer that a run reads from and writes to.
//!
//! What is known of a reader or a writer is one ghost member, `seen`, so a clause names both
//! ends in two lines. It says whether all is flushed, so clauses speak of writers whose bytes
//! can't be observed.

ghost use Rattle.std.specs.Prelude.{◌≡◌, ◌<◌, ◌↔◌, true, false, length};
ghost use Rattle.std.specs.Io.{ReadsAtMost, WritesAtMost};
ghost use Rattle.std.specs.Io.KnownBytes.{ReadConsumes, WriteAppends, Keeps};
ghost use Rattle.lsp_stream.specs.Ports.{ReaderState, WriterState};
ghost use Rattle.lsp_stream.specs.Ports.{IsReadFailure, IsWriteFailure, IsFlushFailure, IsEnd, flushed_after_write, flushed_after_flush, one_more, FewReads, FewWrites};

use std::io;

/// A reader that reports how its calls ended. [`Told`](crate::Told) makes one of any std reader.
pub trait Source {
    // What is known of it: the bytes that are left to read, and what `failed`, `calls` and `ended`
    // answer.
    ghost seen: { Self → ReaderState };

    /// Reads bytes into `buf`, as std's `Read` does. If `buf` isn't empty, 0 bytes are the end.
    fn read(&mut self, buf: &mut [u8]) -> io::Result<usize>
        ensures bound { ReadsAtMost result buf.new }
        ensures bytes { ReadConsumes (seen self.old).left (seen self.new).left result buf.new }
        ensures failed { (seen self.new).failed ≡ true ↔ IsReadFailure result }
        ensures counted { (seen self.new).calls ≡ one_more (seen self.old).calls }
        ensures ended { (seen self.new).ended ≡ true ↔ IsEnd buf.new result }
        ensures few { 0 < length buf.new → FewReads (seen self.old) (seen self.new) };

    /// Returns whether the last read failed. An interrupted one didn't.
    fn failed(&self) -> bool
        ensures { result ≡ (seen self.now).failed };

    /// Returns how many reads were made. It saturates at `u64::MAX`.
    fn calls(&self) -> u64
        ensures { result ≡ (seen self.now).calls };

    /// Returns whether the last read was at the end: `buf` wasn't empty, and it returned 0.
    fn ended(&self) -> bool
        ensures { result ≡ (seen self.now).ended };
}

/// A writer that reports how its calls ended. [`Told`](crate::Told) makes one of any std writer.
pub trait Sink {
    // What is known of it: the bytes that it holds, and what `failed`, `calls` and `flushed`
    // answer.
    ghost seen: { Self → WriterState };

    /// Writes the first bytes of `buf`, and returns how many, as std's `Write` does.
    fn write(&mut self, buf: &[u8]) -> io::Result<usize>
        ensures bound { WritesAtMost result buf.now }
        ensures bytes { WriteAppends (seen self.old).written (seen self.new).written result
            buf.now }
        ensures failed { (seen self.new).failed ≡ true ↔ IsWriteFailure result buf.now }
        ensures flushed { (seen self.new).flushed
            ≡ flushed_after_write (seen self.old).flushed result }
        ensures counted { (seen self.new).calls ≡ one_more (seen self.old).calls }
        ensures few { 0 < length buf.now → (seen self.new).failed ≡ false →
            FewWrites (seen self.old) (seen self.new) };

    /// Flushes what was written, as std's `Write` does.
    fn flush(&mut self) -> io::Result<()>
        ensures bytes { Keeps (seen self.old).written (seen self.new).written }
        ensures failed { (seen self.new).failed ≡ true ↔ IsFlushFailure result }
        ensures flushed { (seen self.new).flushed
            ≡ flushed_after_flush (seen self.old).flushed result }
        ensures counted { (seen self.new).calls ≡ one_more (seen self.old).calls }
        ensures few { (seen self.old).flushed ≡ false → (seen self.new).failed ≡ false →
            FewWrites (seen self.old) (seen self.new) };

    /// Returns whether the last write or flush failed. An interrupted one didn't. A write that took
    /// nothing of a `buf` that isn't empty did.
    fn failed(&self) -> bool
        ensures { result ≡ (seen self.now).failed };

    /// Returns how many writes and flushes were made. It saturates at `u64::MAX`.
    fn calls(&self) -> u64
        ensures { result ≡ (seen self.now).calls };

    /// Returns whether all that was written is flushed: a flush succeeded after the last write
    /// that took bytes. True before the first.
    fn flushed(&self) -> bool
        ensures { result ≡ (seen self.now).flushed };
}
