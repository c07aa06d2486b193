//! `convert`.

ghost use Rattle.std.specs.Prelude.{true};
ghost use Rattle.lsp_stream.specs.Ports.{ports};
ghost use Rattle.log_rewrite.specs.laws.Written.{IsConverted};
ghost use Rattle.log_session.specs.Run.{IsEngineRun};
ghost use Rattle.log_rewrite.specs.laws.Written.{WritesLog};
ghost use Rattle.log_rewrite.specs.Convert.{convert_engine};

use crate::printer::convert::Convert;
use log_session::{Outcome, Settings, run};
use lsp_stream::{EngineFault, Sink, Source};
use std::alloc::Global;

/// Makes a log of version 2 of a log of version 1. Writes the line of version 2, then each record
/// with its mark, and after it the server's reply, if there is one. The status is 1 if something
/// was refused, else 0. A log of version 2 is refused as soon as its line was read.
///
/// Errors, costs and memory are those of [`serve`](log_session::serve), and [`EngineFault::BadLog`].
pub fn convert<R: Source, W: Sink>(
    alloc: Global,
    reader: &mut R,
    writer: &mut W,
    settings: Settings,
    max_turns: u64,
) -> Result<Outcome, EngineFault>
    ensures run { IsEngineRun (convert_engine settings) max_turns
        (ports (R.seen reader.old) (W.seen writer.old))
        (ports (R.seen reader.new) (W.seen writer.new)) result }
    // What was written is a log of which `replay` reports the same, where no reply in it is over
    // the limit.
    ensures converted { WritesLog settings (IsConverted settings)
        (ports (R.seen reader.old) (W.seen writer.old))
        (ports (R.seen reader.new) (W.seen writer.new)) result }
{
    let rules = settings.rules(true);
    let convert = Convert {
        session: settings.session(alloc),
    };
    run(alloc, reader, writer, convert, None, rules, max_turns)
}
