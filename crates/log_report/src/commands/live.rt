//! `check` and `trace` of a session as it goes on: what they write is flushed before more is read.

ghost use Rattle.std.specs.Prelude.{◌≡◌, true};
ghost use Rattle.lsp_stream.specs.Ports.{ports};
ghost use Rattle.log_report.specs.Explain.{explain_engine};
ghost use Rattle.log_session.specs.Run.{IsEngineRun, live};
ghost use Rattle.log_report.specs.Check.{check_engine};
ghost use Rattle.log_report.specs.Trace.{trace_engine};

use crate::commands::explain::Listing;
use crate::commands::trace::Details;
use crate::printer::check::Check;
use crate::printer::explain::Explain;
use crate::printer::trace::Trace;
use log_session::{Outcome, Pipeline, Settings, run_on};
use lsp_stream::{Duplex, EngineFault, Sink, Source};
use std::alloc::Global;

/// Writes what [`check`](crate::check) does, and flushes the line of each record before more of the
/// log is read: a reader that waits for what an editor sends next has all lines up to there.
///
/// All that the writer took before must be flushed. Errors, costs and memory are those of
/// [`check`](crate::check), with a flush for each read at most.
pub fn check_live<R: Source, W: Sink>(
    alloc: Global,
    ends: &mut Duplex<'_, R, W>,
    settings: Settings,
    max_turns: u64,
) -> Result<Outcome, EngineFault>
    ensures run { IsEngineRun (live (check_engine settings)) max_turns
        (ports (R.seen ends.old.reader.now) (W.seen ends.old.writer.now))
        (ports (R.seen ends.new.reader.now) (W.seen ends.new.writer.now)) result }
    // No read came before all that was written was flushed.
    ensures in_time { (W.seen ends.old.writer.now).flushed ≡ true →
        ends.new.read_early ≡ ends.old.read_early }
    ensures same_reader { ends.new.reader.ghost_name ≡ ends.old.reader.ghost_name }
    ensures same_writer { ends.new.writer.ghost_name ≡ ends.old.writer.ghost_name }
{
    let rules = settings.rules(false);
    let check = Check::new(alloc, settings);
    let mut pipeline = Pipeline::new(alloc, check, None);
    run_on(alloc, ends, &mut pipeline, rules, true, max_turns)
}

/// Writes what [`explain`](crate::explain) does, and flushes as [`check_live`] does.
pub fn explain_live<R: Source, W: Sink>(
    alloc: Global,
    ends: &mut Duplex<'_, R, W>,
    settings: Settings,
    listing: Listing,
    max_turns: u64,
) -> Result<Outcome, EngineFault>
    ensures run { IsEngineRun (live (explain_engine settings listing)) max_turns
        (ports (R.seen ends.old.reader.now) (W.seen ends.old.writer.now))
        (ports (R.seen ends.new.reader.now) (W.seen ends.new.writer.now)) result }
    // No read came before all that was written was flushed.
    ensures in_time { (W.seen ends.old.writer.now).flushed ≡ true →
        ends.new.read_early ≡ ends.old.read_early }
    ensures same_reader { ends.new.reader.ghost_name ≡ ends.old.reader.ghost_name }
    ensures same_writer { ends.new.writer.ghost_name ≡ ends.old.writer.ghost_name }
{
    let rules = settings.rules(false);
    let explain = Explain::new(alloc, settings, listing);
    let mut pipeline = Pipeline::new(alloc, explain, None);
    run_on(alloc, ends, &mut pipeline, rules, true, max_turns)
}

/// Writes what [`trace`](crate::trace) does, and flushes as [`check_live`] does.
pub fn trace_live<R: Source, W: Sink>(
    alloc: Global,
    ends: &mut Duplex<'_, R, W>,
    settings: Settings,
    details: Details,
    max_turns: u64,
) -> Result<Outcome, EngineFault>
    ensures run { IsEngineRun (live (trace_engine settings details)) max_turns
        (ports (R.seen ends.old.reader.now) (W.seen ends.old.writer.now))
        (ports (R.seen ends.new.reader.now) (W.seen ends.new.writer.now)) result }
    // No read came before all that was written was flushed.
    ensures in_time { (W.seen ends.old.writer.now).flushed ≡ true →
        ends.new.read_early ≡ ends.old.read_early }
    ensures same_reader { ends.new.reader.ghost_name ≡ ends.old.reader.ghost_name }
    ensures same_writer { ends.new.writer.ghost_name ≡ ends.old.writer.ghost_name }
{
    let rules = settings.rules(false);
    let trace = Trace::new(alloc, settings, details);
    let mut pipeline = Pipeline::new(alloc, trace, None);
    run_on(alloc, ends, &mut pipeline, rules, true, max_turns)
}
