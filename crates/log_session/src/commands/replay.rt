//! `replay`.

ghost use Rattle.lsp_stream.specs.Ports.{ports};
ghost use Rattle.log_session.specs.Run.{IsEngineRun};
ghost use Rattle.log_session.specs.Replay.{replay_engine};

use crate::engine::run;
use crate::outcome::Outcome;
use crate::printer::replay::Replay;
use crate::settings::Settings;
use lsp_stream::{EngineFault, Sink, Source};
use std::alloc::Global;

/// Writes the documents that are open at the end of a log: a line of JSON for each, in order of
/// opening. The status is 1 if something was refused, else 0. After a fault while reading nothing
/// is written.
///
/// Errors, costs and memory are those of [`serve`](crate::serve), and [`EngineFault::BadLog`].
pub fn replay<R: Source, W: Sink>(
    alloc: Global,
    reader: &mut R,
    writer: &mut W,
    settings: Settings,
    max_turns: u64,
) -> Result<Outcome, EngineFault>
    ensures run { IsEngineRun (replay_engine settings) max_turns
        (ports (R.seen reader.old) (W.seen writer.old))
        (ports (R.seen reader.new) (W.seen writer.new)) result }
{
    let rules = settings.rules(false);
    let replay = Replay {
        session: settings.session(alloc),
        next: 0,
    };
    run(alloc, reader, writer, replay, None, rules, max_turns)
}
