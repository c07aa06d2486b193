//! A reader and a writer over memory whose calls end as a script says.

ghost use Rattle.std.specs.Prelude.{◌≡◌, [], Some, min, length};
ghost use Rattle.std.specs.Io.{ReadsAtMost, WritesAtMost};
ghost use Rattle.std.specs.Io.KnownBytes.{ReadConsumes, WriteAppends, Keeps};
ghost use Rattle.lsp_stream.specs.Scripts.{scripted_call, rest_of, IsScriptedRead, IsScriptedWrite, IsScriptedFlush};
ghost use Rattle.lsp_stream.specs.inside.Scripts.{IsStop};

use std::alloc::Global;
use std::io::{self, ErrorKind, Read, Write};

/// How a call ends.
#[derive(Clone, Copy, Debug, PartialEq, Eq)]
pub enum CallEnd {
    /// It moves so many bytes, or fewer if there are fewer. A read moves at least one, a flush
    /// succeeds.
    Take(usize),
    /// It is interrupted, and may be made again.
    Interrupt,
    /// It fails.
    Fail,
}

/// Returns the next call of a script, or what the calls after its end do.
fn next_call(script: &mut &[CallEnd], others: CallEnd) -> CallEnd
    ensures call { result ≡ scripted_call script.old.now others }
    ensures rest { script.new.now ≡ rest_of script.old.now }
{
    match script.split_first() {
        Some((call, rest)) => {
            *script = rest;
            *call
        }
        None => others,
    }
}

/// Returns the error of a call that moves no byte.
fn stopped(call: CallEnd) -> io::Error
    ensures { IsStop call result }
{
    match call {
        CallEnd::Interrupt => io::Error::from(ErrorKind::Interrupted),
        _ => io::Error::other("a call that was to fail"),
    }
}

/// Reads from memory. Its nth call ends as the nth of `script` says, and all later ones as `others`
/// says.
#[derive(Debug, Drop)]
pub struct StopReader<'a> {
    rest: &'a [u8],
    script: &'a [CallEnd],
    others: CallEnd,
}

impl<'a> StopReader<'a> {
    /// Makes a reader of these bytes.
    pub fn new(bytes: &'a [u8], script: &'a [CallEnd], others: CallEnd) -> StopReader<'a>
        ensures bytes { result.rest.now ≡ bytes.now }
        ensures script { result.script.now ≡ script.now }
        ensures others { result.others ≡ others }
    {
        StopReader {
            rest: bytes,
            script,
            others,
        }
    }
}

impl Read for StopReader<'_> {
    ghost remaining = { λ reader. Some reader.rest.now };

    fn read(&mut self, buf: &mut [u8]) -> io::Result<usize>
        ensures bound { ReadsAtMost result buf.new }
        ensures bytes { ReadConsumes (Some self.old.rest.now) (Some self.new.rest.now) result
            buf.new }
        ensures as_scripted { IsScriptedRead (scripted_call self.old.script.now self.old.others)
            (min (length buf.old) (length self.old.rest.now)) result }
        ensures script { self.new.script.now ≡ rest_of self.old.script.now }
        ensures others { self.new.others ≡ self.old.others }
    {
        match next_call(&mut self.script, self.others) {
            CallEnd::Take(most) => {
                let n = most.max(1).min(buf.len()).min(self.rest.len());
                let (front, rest) = self.rest.split_at(n);
                buf[..n].copy_from_slice(front);
                self.rest = rest;
                Ok(n)
            }
            call => Err(stopped(call)),
        }
    }
}

/// Writes to memory. Its nth call ends as the nth of `script` says, and all later ones as `others`
/// says. Writes and flushes count alike.
#[derive(Debug, Drop)]
pub struct StopWriter<'a> {
    bytes: Vec<u8>,
    flushes: usize,
    script: &'a [CallEnd],
    others: CallEnd,
}

impl<'a> StopWriter<'a> {
    /// Makes a writer without bytes.
    pub fn new(alloc: Global, script: &'a [CallEnd], others: CallEnd) -> StopWriter<'a>
        ensures bytes { result.bytes.items ≡ [] }
        ensures flushes { result.flushes ≡ 0 }
        ensures script { result.script.now ≡ script.now }
        ensures others { result.others ≡ others }
    {
        StopWriter {
            bytes: Vec::new(alloc),
            flushes: 0,
            script,
            others,
        }
    }

    /// Returns the bytes that were written.
    pub fn bytes(&self) -> &[u8]
        ensures { result.now ≡ self.now.bytes.items }
    {
        &self.bytes
    }

    /// Returns how many flushes succeeded. It saturates at `usize::MAX`.
    pub fn flushes(&self) -> usize
        ensures { result ≡ self.now.flushes }
    {
        self.flushes
    }
}

impl Write for StopWriter<'_> {
    ghost contents = { λ writer. Some writer.bytes.items };

    fn write(&mut self, buf: &[u8]) -> io::Result<usize>
        ensures bound { WritesAtMost result buf.now }
        ensures bytes { WriteAppends (Some self.old.bytes.items) (Some self.new.bytes.items) result
            buf.now }
        ensures as_scripted { IsScriptedWrite (scripted_call self.old.script.now self.old.others)
            (length buf.now) result }
        ensures script { self.new.script.now ≡ rest_of self.old.script.now }
        ensures others { self.new.others ≡ self.old.others }
        ensures flushes { self.new.flushes ≡ self.old.flushes }
    {
        match next_call(&mut self.script, self.others) {
            CallEnd::Take(most) => {
                let n = most.min(buf.len());
                self.bytes.extend_from_slice(&buf[..n])?;
                Ok(n)
            }
            call => Err(stopped(call)),
        }
    }

    fn flush(&mut self) -> io::Result<()>
        ensures bytes { Keeps (Some self.old.bytes.items) (Some self.new.bytes.items) }
        ensures as_scripted { IsScriptedFlush (scripted_call self.old.script.now self.old.others)
            self.old.flushes self.new.flushes result }
        ensures script { self.new.script.now ≡ rest_of self.old.script.now }
        ensures others { self.new.others ≡ self.old.others }
    {
        match next_call(&mut self.script, self.others) {
            CallEnd::Take(_) => {
                self.flushes = self.flushes.saturating_add(1);
                Ok(())
            }
            call => Err(stopped(call)),
        }
    }
}
