//! Reads, writes and flushes, each in a bounded number of calls.

ghost use Rattle.std.specs.Prelude.{◌≡◌, ◌≢◌, ◌<◌, ◌≤◌, ◌+◌, ◌↔◌, ◌⊎◌, ◌&&◌, not, true, false, IfOk, IfErr, OnOk, OnErr, length, take};
ghost use Rattle.std.specs.Io.KnownBytes.{Consumes, Appends, Keeps, IsAtEnd};
ghost use Rattle.lsp_stream.specs.Ports.{FewReads, Rose};
ghost use Rattle.lsp_stream.specs.Turns.{AppendsFront, AppendsShort, ReadsWithin, WritesFew, WritesWithin};

use crate::adapter::is_interrupted;
use crate::fault::EngineFault;
use crate::port::{Sink, Source};

/// How many reads, writes and flushes may still be made.
#[derive(Debug, Drop)]
pub struct Turns {
    left: u64,
}

impl Turns {
    /// Allows so many reads, writes and flushes.
    pub fn new(left: u64) -> Turns
        ensures { result.left ≡ left }
    {
        Turns { left }
    }

    /// Uses one turn, if there is one.
    fn spend(&mut self) -> Result<(), EngineFault>
        ensures spent { OnOk result (self.new.left + 1 ≡ self.old.left) }
        ensures none { IfErr result
            (λ fault. (fault ≡ EngineFault.TooManyTurns) × (self.old.left ≡ 0)
            × (self.new.left ≡ 0)) }
    {
        if self.left == 0 {
            return Err(EngineFault::TooManyTurns);
        }
        self.left -= 1;
        Ok(())
    }
}

/// Reads the next bytes into `buf`, and returns how many: 0 at the end. An interrupted read is
/// repeated.
///
/// # Errors
/// [`EngineFault::Read`] if a read fails, [`EngineFault::TooManyTurns`] if no turn is left for one.
pub fn read_piece<R: Source>(
    reader: &mut R,
    buf: &mut [u8],
    turns: &mut Turns,
) -> Result<usize, EngineFault>
    requires { 0 < length buf.old }
    ensures bound { IfOk result (λ n. n ≤ length buf.new) }
    ensures read { IfOk result
        (λ n. Consumes (R.seen reader.old).left (R.seen reader.new).left (take n buf.new)) }
    ensures kept { OnErr result (Keeps (R.seen reader.old).left (R.seen reader.new).left) }
    ensures ended { IfOk result (λ n. (R.seen reader.new).ended ≡ true ↔ n ≡ 0) }
    ensures at_end { IfOk result (λ n. n ≡ 0 → IsAtEnd (R.seen reader.new).left) }
    ensures less { OnOk result (turns.new.left < turns.old.left) }
    ensures calls { ReadsWithin turns.old.left turns.new.left
        (R.seen reader.old) (R.seen reader.new) result }
    ensures few { FewReads (R.seen reader.old) (R.seen reader.new) }
{
    'reads: loop {
        turns.spend()?;
        match reader.read(buf) {
            Ok(n) => return Ok(n),
            Err(error) => {
                if !is_interrupted(&error) {
                    return Err(EngineFault::Read);
                }
            }
        }
    }
}

/// Writes all of the bytes, each time all that are left. An interrupted write is repeated, and one
/// that takes nothing is a fault.
fn write_out<W: Sink>(writer: &mut W, bytes: &[u8], turns: &mut Turns) -> Result<(), EngineFault>
    ensures wrote { OnOk result
        (Appends (W.seen writer.old).written (W.seen writer.new).written bytes.now) }
    ensures front { OnErr result
        (AppendsFront (W.seen writer.old).written (W.seen writer.new).written bytes.now) }
    ensures error { IfErr result
        (λ fault. (fault ≡ EngineFault.Write) ⊎ (fault ≡ EngineFault.TooManyTurns)) }
    ensures short { IfErr result (λ fault. fault ≡ EngineFault.TooManyTurns →
        AppendsShort false (W.seen writer.old).written (W.seen writer.new).written bytes.now) }
    ensures calls { WritesWithin turns.old.left turns.new.left
        (W.seen writer.old) (W.seen writer.new) result }
    ensures few { WritesFew (W.seen writer.old) (W.seen writer.new) result }
{
    let mut at = 0;
    'writes: while at < bytes.len() {
        turns.spend()?;
        match writer.write(&bytes[at..]) {
            Ok(0) => return Err(EngineFault::Write),
            Ok(n) => at += n,
            Err(error) => {
                if !is_interrupted(&error) {
                    return Err(EngineFault::Write);
                }
            }
        }
    }
    Ok(())
}

/// Flushes the writer. An interrupted flush is repeated.
///
/// # Errors
/// [`EngineFault::Write`] if a flush fails, [`EngineFault::TooManyTurns`] if no turn is left for
/// one.
pub fn flush_out<W: Sink>(writer: &mut W, turns: &mut Turns) -> Result<(), EngineFault>
    ensures kept { Keeps (W.seen writer.old).written (W.seen writer.new).written }
    // The last flush was made, and did not fail.
    ensures flushed { OnOk result
        (((W.seen writer.new).failed ≡ false)
        × Rose (W.seen writer.old).calls (W.seen writer.new).calls) }
    ensures all_flushed { OnOk result ((W.seen writer.new).flushed ≡ true) }
    ensures not_flushed { OnErr result
        ((W.seen writer.new).flushed ≡ (W.seen writer.old).flushed) }
    ensures error { IfErr result
        (λ fault. (fault ≡ EngineFault.Write) ⊎ (fault ≡ EngineFault.TooManyTurns)) }
    ensures calls { WritesWithin turns.old.left turns.new.left
        (W.seen writer.old) (W.seen writer.new) result }
    ensures few { (W.seen writer.old).flushed ≡ false →
        WritesFew (W.seen writer.old) (W.seen writer.new) result }
{
    'flushes: loop {
        turns.spend()?;
        match writer.flush() {
            Ok(()) => return Ok(()),
            Err(error) => {
                if !is_interrupted(&error) {
                    return Err(EngineFault::Write);
                }
            }
        }
    }
}

/// Writes the output of a record or of the end of the input. With `flush` it then flushes the
/// writer, if something that was written isn't flushed yet.
///
/// # Errors
/// [`EngineFault::Write`] if a write or a flush fails, or a write takes nothing.
/// [`EngineFault::TooManyTurns`] if no turn is left for a call.
pub fn write_given<W: Sink>(
    writer: &mut W,
    bytes: &[u8],
    flush: bool,
    turns: &mut Turns,
) -> Result<(), EngineFault>
    ensures wrote { OnOk result
        (Appends (W.seen writer.old).written (W.seen writer.new).written bytes.now) }
    ensures front { OnErr result
        (AppendsFront (W.seen writer.old).written (W.seen writer.new).written bytes.now) }
    ensures error { IfErr result
        (λ fault. (fault ≡ EngineFault.Write) ⊎ (fault ≡ EngineFault.TooManyTurns)) }
    // Where the turns ran out, bytes were still to be written, or to be flushed.
    ensures short { IfErr result (λ fault. fault ≡ EngineFault.TooManyTurns →
        AppendsShort (flush && not (W.seen writer.new).flushed) (W.seen writer.old).written
        (W.seen writer.new).written bytes.now) }
    ensures flushed { OnOk result (flush ≡ true → (W.seen writer.new).flushed ≡ true) }
    ensures calls { WritesWithin turns.old.left turns.new.left
        (W.seen writer.old) (W.seen writer.new) result }
    ensures few { WritesFew (W.seen writer.old) (W.seen writer.new) result }
{
    write_out(writer, bytes, turns)?;
    if flush && !writer.flushed() {
        flush_out(writer, turns)?;
    }
    Ok(())
}
