//! From a reader to a writer, record by record: each is handed to the pipeline, and its output is
//! written before more is read.
//!
//! With `flushes` all output is flushed before more is read. A record's head has its log's version,
//! so an engine keeps none.

ghost use Rattle.std.specs.Prelude.{◌≡◌, ◌≢◌, ◌&&◌, [], ⊤, ℕ, Bool, List, length, Err, Ok, not, false, true, OnOk, IfOk, IfErr, MatchOption};
ghost use Rattle.lsp_frame.specs.Faults.{place_after};
ghost use Rattle.lsp_stream.specs.Ports.{ports};
ghost use Rattle.lsp_stream.specs.Turns.{WritesFew, WritesWithin};
ghost use Rattle.lsp_stream.specs.inside.Turns.{LeavesFlushed};
ghost use Rattle.lsp_log.specs.Splitting.{IsReady};
ghost use Rattle.log_session.specs.Engine.{state_of};
ghost use Rattle.log_session.specs.inside.Piped.{pipe_output};
ghost use Rattle.log_session.specs.inside.Engine.{IsAnswer, IsEndWritten, IsLoopRun, IsProgress, RunStart, reading_by};

use crate::outcome::Outcome;
use crate::pipeline::Pipeline;
use crate::printer::Printer;
use crate::session::selecting::Selection;
use lsp_frame::Limits;
use lsp_log::{Splitter, Version, read_opening};
use lsp_stream::{Duplex, EngineFault, Sink, Source, Turns, read_piece, write_given};
use std::alloc::Global;

/// The most bytes that one read asks for.
const PIECE: usize = 65_536;

/// How an input is read.
#[derive(Clone, Copy)]
pub struct InputRules {
    pub limits: Limits,
    /// Whether a log of version 2 is recognised.
    pub versions: bool,
    /// Whether a log of version 2 is refused, if it is recognised.
    pub refuses_two: bool,
}

/// Refuses a log of version 2 if only version 1 is accepted.
fn accept(version: Version, refuses_two: bool) -> Result<(), EngineFault>
    ensures ok { OnOk result (refuses_two ≡ true → version ≡ Version.One) }
    ensures error { IfErr result (λ fault. (fault ≡ EngineFault.BadLog 0) × (refuses_two ≡ true)
        × (version ≡ Version.Two)) }
{
    match version {
        Version::Two if refuses_two => Err(EngineFault::BadLog { place: 0 }),
        _ => Ok(()),
    }
}

/// Hands each record that becomes complete with the bytes of a piece to the pipeline, up to one
/// that ends the run, and writes its output before it goes on.
fn take_piece<W: Sink, P: Printer>(
    splitter: &mut Splitter,
    pipeline: &mut Pipeline<P>,
    writer: &mut W,
    buffer: &mut Vec<u8>,
    piece: &[u8],
    flushes: bool,
    turns: &mut Turns,
) -> Result<Option<Outcome>, EngineFault>
    requires { IsReady splitter.old }
    ensures ready { OnOk result (IsReady splitter.new) }
    ensures version { splitter.new.version ≡ splitter.old.version }
    ensures progress { IfOk result (λ end. (start : RunStart) (input : List ℕ) →
        IsProgress start input piece.now splitter.old
        (pipe_output pipeline.old.selection (P.state pipeline.old.printer))
        (W.seen writer.old).written →
        MatchOption end
        (IsProgress start input [] splitter.new
        (pipe_output pipeline.new.selection (P.state pipeline.new.printer))
        (W.seen writer.new).written)
        (λ outcome. (ended_before ended unflushed : Bool) →
        IsAnswer start (state_of ended_before ended unflushed) ⊤ input
        (W.seen writer.new).written (Ok outcome))) }
    ensures error { IfErr result (λ fault. (start : RunStart) (input : List ℕ) →
        IsProgress start input piece.now splitter.old
        (pipe_output pipeline.old.selection (P.state pipeline.old.printer))
        (W.seen writer.old).written →
        (ended_before ended : Bool) →
        IsAnswer start
        (state_of ended_before ended (flushes && not (W.seen writer.new).flushed)) ⊤ input
        (W.seen writer.new).written (Err fault)) }
    ensures not_read { IfErr result (λ fault. fault ≢ EngineFault.Read) }
    ensures calls { WritesWithin turns.old.left turns.new.left
        (W.seen writer.old) (W.seen writer.new) result }
    ensures all_flushed { LeavesFlushed flushes (W.seen writer.old) (W.seen writer.new) result }
    ensures few { WritesFew (W.seen writer.old) (W.seen writer.new) result }
{
    let mut at = 0;
    'bytes: while at < piece.len() {
        at += splitter.feed(&piece[at..])?;
        let Some(found) = splitter.record() else {
            continue;
        };
        buffer.clear();
        let given = pipeline.handle(&found, buffer)?;
        let output = given.output.bytes(found.raw, buffer);
        write_given(writer, output, flushes, turns)?;
        splitter.next();
        if let Some(outcome) = given.end {
            return Ok(Some(outcome));
        }
    }
    Ok(None)
}

/// Writes the output at the end of the input, part by part.
fn write_last<W: Sink, P: Printer>(
    pipeline: &mut Pipeline<P>,
    writer: &mut W,
    buffer: &mut Vec<u8>,
    line_due: bool,
    flushes: bool,
    turns: &mut Turns,
) -> Result<Outcome, EngineFault>
    // Where the end has one part, none of it is written when memory runs out.
    ensures last { IsEndWritten (P.parts pipeline.old.printer ≡ 0)
        (flushes && not (W.seen writer.new).flushed) line_due
        (pipe_output pipeline.old.selection (P.state pipeline.old.printer) [])
        (W.seen writer.old).written (W.seen writer.new).written result }
    ensures calls { WritesWithin turns.old.left turns.new.left
        (W.seen writer.old) (W.seen writer.new) result }
    ensures all_flushed { LeavesFlushed flushes (W.seen writer.old) (W.seen writer.new) result }
    ensures few { WritesFew (W.seen writer.old) (W.seen writer.new) result }
{
    let mut due = line_due;
    'parts: loop {
        buffer.clear();
        let end = pipeline.finish(due, buffer)?;
        write_given(writer, buffer, flushes, turns)?;
        match end {
            Some(outcome) => return Ok(outcome),
            None => due = false,
        }
    }
}

/// Ends a run at the end of the input. `place` is the input's length.
fn finish_run<W: Sink, P: Printer>(
    splitter: &Splitter,
    pipeline: &mut Pipeline<P>,
    writer: &mut W,
    buffer: &mut Vec<u8>,
    place: u64,
    flushes: bool,
    turns: &mut Turns,
) -> Result<Outcome, EngineFault>
    requires { IsReady splitter.now }
    ensures answer { (start : RunStart) (input : List ℕ) →
        IsProgress start input [] splitter.now
        (pipe_output pipeline.old.selection (P.state pipeline.old.printer))
        (W.seen writer.old).written →
        place ≡ place_after 0 (length input) →
        (ended_before ended : Bool) → ended ≡ true →
        IsAnswer start
        (state_of ended_before ended (flushes && not (W.seen writer.new).flushed))
        (P.parts pipeline.old.printer ≡ 0) input (W.seen writer.new).written result }
    ensures not_read { IfErr result (λ fault. fault ≢ EngineFault.Read) }
    ensures calls { WritesWithin turns.old.left turns.new.left
        (W.seen writer.old) (W.seen writer.new) result }
    ensures all_flushed { LeavesFlushed flushes (W.seen writer.old) (W.seen writer.new) result }
    ensures few { WritesFew (W.seen writer.old) (W.seen writer.new) result }
{
    if !splitter.at_rest() {
        return Err(EngineFault::Truncated { place });
    }
    let due = splitter.line_due();
    write_last(pipeline, writer, buffer, due, flushes, turns)
}

/// Reads to the end of the input. Hands each record to the pipeline as soon as it is complete, and
/// writes the record's output before it reads on.
pub fn run_on<R: Source, W: Sink, P: Printer>(
    alloc: Global,
    ends: &mut Duplex<'_, R, W>,
    pipeline: &mut Pipeline<P>,
    rules: InputRules,
    flushes: bool,
    max_turns: u64,
) -> Result<Outcome, EngineFault>
    ensures run { IsLoopRun (reading_by rules)
        (pipe_output pipeline.old.selection (P.state pipeline.old.printer)) flushes
        ((p : P) → P.parts p ≡ 0) max_turns
        (ports (R.seen ends.old.reader.now) (W.seen ends.old.writer.now))
        (ports (R.seen ends.new.reader.now) (W.seen ends.new.writer.now)) result }
    // No read came before all that was written was flushed.
    ensures in_time { flushes ≡ true → (W.seen ends.old.writer.now).flushed ≡ true →
        ends.new.read_early ≡ ends.old.read_early }
    ensures same_reader { ends.new.reader.ghost_name ≡ ends.old.reader.ghost_name }
    ensures same_writer { ends.new.writer.ghost_name ≡ ends.old.writer.ghost_name }
{
    let mut turns = Turns::new(max_turns);
    let mut buf = [0u8; PIECE];
    let mut buffer = Vec::new(alloc);
    let opening = read_opening(ends.reader(), &mut buf, rules.versions, &mut turns)?;
    accept(opening.version, rules.refuses_two)?;
    let mut splitter = Splitter::new(alloc, rules.limits, opening.version);
    let mut from = opening.version.line().len();
    let mut to = opening.len;
    let mut ended = opening.ended;
    let mut place = to as u64;
    'pieces: loop {
        let end = take_piece(
            &mut splitter,
            pipeline,
            ends.writer(),
            &mut buffer,
            &buf[from..to],
            flushes,
            &mut turns,
        )?;
        if let Some(outcome) = end {
            return Ok(outcome);
        }
        if ended {
            return finish_run(
                &splitter,
                pipeline,
                ends.writer(),
                &mut buffer,
                place,
                flushes,
                &mut turns,
            );
        }
        from = 0;
        to = read_piece(ends.reader(), &mut buf, &mut turns)?;
        place = place.saturating_add(to as u64);
        ended = to == 0;
    }
}

/// Runs a command over both ends of a connection, for all records or a selection. With `flushes`
/// what it writes is flushed before more is read.
pub fn run_over<R: Source, W: Sink, P: Printer + Drop>(
    alloc: Global,
    ends: &mut Duplex<'_, R, W>,
    printer: P,
    selection: Option<Selection>,
    rules: InputRules,
    flushes: bool,
    max_turns: u64,
) -> Result<Outcome, EngineFault>
    ensures run { IsLoopRun (reading_by rules) (pipe_output selection (P.state printer)) flushes
        ((p : P) → P.parts p ≡ 0) max_turns
        (ports (R.seen ends.old.reader.now) (W.seen ends.old.writer.now))
        (ports (R.seen ends.new.reader.now) (W.seen ends.new.writer.now)) result }
    // No read came before all that was written was flushed.
    ensures in_time { flushes ≡ true → (W.seen ends.old.writer.now).flushed ≡ true →
        ends.new.read_early ≡ ends.old.read_early }
    ensures same_reader { ends.new.reader.ghost_name ≡ ends.old.reader.ghost_name }
    ensures same_writer { ends.new.writer.ghost_name ≡ ends.old.writer.ghost_name }
{
    let mut pipeline = Pipeline::new(alloc, printer, selection);
    run_on(alloc, ends, &mut pipeline, rules, flushes, max_turns)
}

/// Runs a command over a reader and a writer, for all records or a selection.
pub fn run<R: Source, W: Sink, P: Printer + Drop>(
    alloc: Global,
    reader: &mut R,
    writer: &mut W,
    printer: P,
    selection: Option<Selection>,
    rules: InputRules,
    max_turns: u64,
) -> Result<Outcome, EngineFault>
    ensures run { IsLoopRun (reading_by rules) (pipe_output selection (P.state printer)) false
        ((p : P) → P.parts p ≡ 0) max_turns
        (ports (R.seen reader.old) (W.seen writer.old))
        (ports (R.seen reader.new) (W.seen writer.new)) result }
{
    let mut ends = Duplex::new(reader, writer);
    run_over(
        alloc, &mut ends, printer, selection, rules, false, max_turns,
    )
}
