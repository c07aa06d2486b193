//! `check`.

ghost use Rattle.lsp_stream.specs.Ports.{ports};
ghost use Rattle.log_session.specs.Run.{IsEngineRun};
ghost use Rattle.log_report.specs.Check.{check_engine};

use crate::printer::check::Check;
use log_session::{Outcome, Settings, run};
use lsp_stream::{EngineFault, Sink, Source};
use std::alloc::Global;

/// Writes a line for each record of a log, with its number, from 1, and a word for what a server
/// answers to it. It is written as soon as the record is complete. The status is 1 if something was
/// refused, else 0.
///
/// Errors, costs and memory are those of [`serve`](log_session::serve), and [`EngineFault::BadLog`].
pub fn check<R: Source, W: Sink>(
    alloc: Global,
    reader: &mut R,
    writer: &mut W,
    settings: Settings,
    max_turns: u64,
) -> Result<Outcome, EngineFault>
    ensures run { IsEngineRun (check_engine settings) max_turns
        (ports (R.seen reader.old) (W.seen writer.old))
        (ports (R.seen reader.new) (W.seen writer.new)) result }
{
    let rules = settings.rules(false);
    let check = Check::new(alloc, settings);
    run(alloc, reader, writer, check, None, rules, max_turns)
}
