//! `replay` of a part of a log.

ghost use Rattle.lsp_stream.specs.Ports.{ports};
ghost use Rattle.log_rewrite.specs.Part.{part_engine};
ghost use Rattle.log_session.specs.Run.{IsEngineRun};

use crate::printer::part::ReplayPart;
use crate::printer::part::chosen::Chosen;
use log_session::{Outcome, Settings, run};
use lsp_stream::{EngineFault, Sink, Source};
use std::alloc::Global;

/// The part of a log that [`replay_part`] reads, and what it prints.
#[derive(Debug, PartialEq, Eq, Drop)]
pub struct Part {
    /// The number of the last record that is read, from 1, as `check` counts them. Without one the
    /// whole log is read.
    pub at: Option<u64>,
    /// The URI of the document whose text is printed, or how it ends. Without one each open document
    /// has a line.
    pub uri: Option<String>,
}

/// Writes the documents that are open after a record of a log, as [`replay`](log_session::replay) does at
/// its end; or the last text of one document, byte for byte, also if it was closed. A document with
/// that URI or file path comes first; else it is the one whose URI ends so. After the part's last record
/// nothing is read. The status is 1 if something was refused up to there, else 0. If the log has
/// fewer records, or the document was not open up to there, or the URIs of several end so, nothing
/// is written: the outcome says which is missing, and the status is 1.
///
/// Errors and costs are those of [`replay`](log_session::replay). The memory is for what is written, too.
pub fn replay_part<R: Source, W: Sink>(
    alloc: Global,
    reader: &mut R,
    writer: &mut W,
    settings: Settings,
    part: Part,
    max_turns: u64,
) -> Result<Outcome, EngineFault>
    ensures run { IsEngineRun (part_engine settings part) max_turns
        (ports (R.seen reader.old) (W.seen writer.old))
        (ports (R.seen reader.new) (W.seen writer.new)) result }
{
    let rules = settings.rules(false);
    let replay = ReplayPart {
        session: settings.session(alloc),
        part,
        chosen: Chosen::none(),
        alloc,
    };
    run(alloc, reader, writer, replay, None, rules, max_turns)
}
