//! What a program does with its output beside what it is run for: help, lines on standard error, and
//! the last flush.

ghost use Rattle.std.specs.Prelude.{◌≡◌, map};
ghost use Rattle.std.specs.List.{concat};
ghost use Rattle.std.specs.Io.KnownBytes.{Keeps};
ghost use Rattle.lsp_program.specs.Output.{IsFlushed, IsPrinted, IsTextPrinted, digits_of};

use itoa::Buffer;
use lsp_stream::{EngineFault, Sink, Turns, flush_out, write_given};
use std::alloc::Global;

/// How many reads, writes and flushes a run may make. The last flush may be tried as often, and so
/// may the writes of a line on standard error.
pub const MAX_TURNS: u64 = 1_099_511_627_776;

/// Writes the text of `clap`'s error, which may be help or the version, and flushes it.
///
/// # Errors
/// Out of memory, before anything is written; a write or a flush that failed; too many calls.
pub fn print_text<W: Sink>(
    alloc: Global,
    text: &clap::Error,
    output: &mut W,
) -> Result<(), EngineFault>
    ensures { IsTextPrinted (W.seen output.old) (W.seen output.new) result }
{
    let text = format!(in alloc; "{text}")?;
    let mut turns = Turns::new(MAX_TURNS);
    write_given(output, text.as_bytes(), true, &mut turns)?;
    Ok(())
}

/// Writes pieces of text one after another. It needs no memory.
///
/// # Errors
/// A write that failed or took nothing; too many calls.
pub fn print<W: Sink>(output: &mut W, pieces: &[&str]) -> Result<(), EngineFault>
    ensures { IsPrinted (concat (map (λ piece. piece.now) pieces.now))
        (W.seen output.old) (W.seen output.new) result }
{
    let mut turns = Turns::new(MAX_TURNS);
    for piece in pieces {
        write_given(output, piece.as_bytes(), false, &mut turns)?;
    }
    Ok(())
}

/// Returns a number in decimal digits, or nothing.
pub fn digits(number: Option<u64>, buffer: &mut Buffer) -> &str
    ensures { result.now ≡ digits_of number }
{
    match number {
        Some(number) => buffer.format(number),
        None => "",
    }
}

/// Flushes the output at the end of a run. An interrupted flush is repeated.
///
/// # Errors
/// A flush that failed, or too many that were interrupted.
#[tactic(auto, using(crate::proofs::FlushLemmas::flushed_of))]
pub fn flush<W: Sink>(output: &mut W) -> Result<(), EngineFault>
    ensures kept { Keeps (W.seen output.old).written (W.seen output.new).written }
    ensures flushed { IsFlushed (W.seen output.old) (W.seen output.new) result }
{
    flush_out(output, &mut Turns::new(MAX_TURNS))
}
