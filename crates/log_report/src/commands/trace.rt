//! `trace`.

ghost use Rattle.std.specs.Prelude.{◌≡◌};
ghost use Rattle.lsp_stream.specs.Ports.{ports};
ghost use Rattle.log_session.specs.Settings.{log_config};
ghost use Rattle.log_report.specs.Lines.{nothing_known};
ghost use Rattle.log_session.specs.Run.{IsEngineRun};
ghost use Rattle.log_session.specs.Session.{opened};
ghost use Rattle.log_report.specs.Trace.{trace_engine};

use crate::facts::Known;
use crate::printer::trace::Trace;
use log_session::{Canonical, Outcome, Settings, run};
use lsp_stream::{EngineFault, Sink, Source};
use std::alloc::Global;

/// What [`trace`] writes of each record beside the members that it always has.
#[derive(Clone, Copy, Debug, PartialEq, Eq)]
pub struct Details {
    /// The document's text, where it was opened or changed.
    pub texts: bool,
    /// The body, where it is JSON, without its line ends.
    pub bodies: bool,
}

/// Writes a line of JSON for each record of a log: its number, its offset, what it is, what a
/// server answers to it, and why it was refused or what is suspicious of it. It is written as soon
/// as the record is complete. The status is 1 if something was refused, else 0.
///
/// Errors and memory are those of [`check`](crate::check), with the URIs of 64 documents more. Each
/// body of the server's is read too. A body that is no keystroke is read as a tree of its JSON. The
/// notes of a change of a range cost what the change costs, those of several changes a copy of the
/// text. With `texts` a record costs what its document's text has.
pub fn trace<R: Source, W: Sink>(
    alloc: Global,
    reader: &mut R,
    writer: &mut W,
    settings: Settings,
    details: Details,
    max_turns: u64,
) -> Result<Outcome, EngineFault>
    ensures run { IsEngineRun (trace_engine settings details) max_turns
        (ports (R.seen reader.old) (W.seen writer.old))
        (ports (R.seen reader.new) (W.seen writer.new)) result }
{
    let rules = settings.rules(false);
    let trace = Trace::new(alloc, settings, details);
    run(alloc, reader, writer, trace, None, rules, max_turns)
}
