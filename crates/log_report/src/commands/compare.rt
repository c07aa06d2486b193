//! `compare`.

ghost use Rattle.lsp_stream.specs.Ports.{ports};
ghost use Rattle.log_report.specs.Compare.{compare_engine};
ghost use Rattle.log_session.specs.Run.{IsEngineRun};

use crate::printer::compare::Compare;
use line_diff::Comparison;
use log_session::{Outcome, Settings, run};
use lsp_stream::{EngineFault, Sink, Source};
use std::alloc::Global;

/// Writes whether a document's last text is that of a file, also if it was closed. If it isn't, it
/// writes how they differ: by line ends, the last line end or a byte order mark alone; or line by
/// line, with the messages that made each line so. Then it names the first messages about the
/// document that were refused.
///
/// The status is 0 if the texts are equal, byte for byte, else 1, whatever was refused. If no
/// document's URI ends as the comparison wants, nothing is written, and the outcome says that it is
/// missing. If another one ends so too, and none has just that URI or file path, both are named.
///
/// Errors are those of [`check`](crate::check). A change costs what it costs `check`, and what lies
/// between it and the one before it. The memory is for the open documents, at most 32 bytes for each
/// change of the document, its text and the file.
pub fn compare<R: Source, W: Sink>(
    alloc: Global,
    reader: &mut R,
    writer: &mut W,
    settings: Settings,
    comparison: Comparison,
    max_turns: u64,
) -> Result<Outcome, EngineFault>
    ensures run { IsEngineRun (compare_engine settings comparison) max_turns
        (ports (R.seen reader.old) (W.seen writer.old))
        (ports (R.seen reader.new) (W.seen writer.new)) result }
{
    let rules = settings.rules(false);
    let compare = Compare {
        session: settings.session(alloc),
        alloc,
        comparison,
    };
    run(alloc, reader, writer, compare, None, rules, max_turns)
}
