//! `check` with reasons.

ghost use Rattle.std.specs.Prelude.{◌≡◌};
ghost use Rattle.lsp_stream.specs.Ports.{ports};
ghost use Rattle.log_session.specs.Settings.{log_config};
ghost use Rattle.log_report.specs.Explain.{explain_engine};
ghost use Rattle.log_report.specs.Lines.{nothing_known};
ghost use Rattle.log_session.specs.Run.{IsEngineRun};
ghost use Rattle.log_session.specs.Session.{opened};

use crate::facts::Known;
use crate::printer::explain::Explain;
use log_session::{Outcome, Settings, run};
use lsp_stream::{EngineFault, Sink, Source};
use std::alloc::Global;

/// Which records have a line of [`explain`], and with which notes.
#[derive(Clone, Copy, Debug, PartialEq, Eq)]
pub struct Listing {
    /// Only records that count as refused, or have notes on their lines.
    pub brief: bool,
    /// Each note is on its record's line, also where its kind comes often.
    pub all: bool,
}

impl Default for Listing {
    ghost use Rattle.log_report.specs.Explain.{default_listing};

    ghost is_default = { λ listing. listing ≡ default_listing };

    /// Returns each line, with the notes that aren't hidden.
    fn default() -> Listing {
        Listing {
            brief: false,
            all: false,
        }
    }
}

/// Writes a line for each record of a log, as [`check`](crate::check) does. Where it was refused it
/// has the document, why, and the record to look at; where it is suspicious the document and notes.
/// At the end come the numbers of messages, of refusals by their codes, and of notes by their
/// kinds, each with the first record, and what to do next. The status is 1 if something was refused,
/// else 0.
///
/// A kind of note that about one of a hundred records has that change documents is a habit: it is
/// on few lines. `listing` has each note on its line, or leaves lines out.
///
/// Errors and memory are those of [`check`](crate::check), with the URIs of 64 documents more. A
/// body that is no keystroke is read as a tree of its JSON. The notes of a change of a range cost
/// what the change costs, those of several changes also a step for each block of the text.
pub fn explain<R: Source, W: Sink>(
    alloc: Global,
    reader: &mut R,
    writer: &mut W,
    settings: Settings,
    listing: Listing,
    max_turns: u64,
) -> Result<Outcome, EngineFault>
    ensures run { IsEngineRun (explain_engine settings listing) max_turns
        (ports (R.seen reader.old) (W.seen writer.old))
        (ports (R.seen reader.new) (W.seen writer.new)) result }
{
    let rules = settings.rules(false);
    let explain = Explain::new(alloc, settings, listing);
    run(alloc, reader, writer, explain, None, rules, max_turns)
}
