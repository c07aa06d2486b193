//! `normalise`, with squash and without: of all records, or of those that are about the session and
//! the documents' texts.

ghost use Rattle.std.specs.Prelude.{◌≡◌, true, false, if◌then◌else◌, None, Some};
ghost use Rattle.lsp_frame.specs.Limits.{AreInRange};
ghost use Rattle.lsp_stream.specs.Ports.{ports};
ghost use Rattle.log_session.specs.Settings.{log_config};
ghost use Rattle.log_rewrite.specs.Documents.{WritesDocuments, documents_engine};
ghost use Rattle.log_rewrite.specs.laws.Written.{IsCanonicalLog, IsSquashed, IsWholeLog};
ghost use Rattle.log_rewrite.specs.Normalise.{whole_log};
ghost use Rattle.log_rewrite.specs.Rewritten.{rewriting_engine};
ghost use Rattle.log_rewrite.specs.Squash.{normalised};
ghost use Rattle.log_session.specs.Selection.{nothing_selected};
ghost use Rattle.log_session.specs.Run.{IsEngineRun, flushing, log_engine};
ghost use Rattle.log_rewrite.specs.laws.Written.{WritesLog};
ghost use Rattle.log_rewrite.specs.Squash.{normalise_engine};
ghost use Rattle.log_session.specs.Session.{opened};
ghost use Rattle.log_session.specs.inside.Piped.{piped};

use crate::printer::normalise::{Normalise, WriteWhole};
use crate::printer::squash::Squashing;
use log_session::{Canonical, Outcome, Selection, Settings, Whole, run_over};
use lsp_stream::{Duplex, EngineFault, Sink, Source};
use std::alloc::Global;

/// Writes a log in which each accepted change is its canonical message, and everything else is as
/// it was, byte for byte. The status is 1 if something was refused, else 0.
///
/// With `squash` accepted changes of one document, with no other record between them, are a series.
/// A series is written once it has ended: as the one canonical message of all its batches, under
/// the last version. If that message has more than `max_changes` changes, or its body is over the
/// limit, each change is written as without squash.
///
/// # Errors
/// [`EngineFault::BodyTooLong`] at an accepted change whose canonical body is over the limit,
/// [`EngineFault::BadLog`], and those of [`serve`](log_session::serve). After a fault a series that
/// hasn't ended isn't written.
///
/// # Costs
/// Those of [`serve`](log_session::serve). With `squash` a series of k changes costs some k log k more.
/// It keeps the series' old text, its canonical messages, and its batches together.
pub fn normalise<R: Source, W: Sink>(
    alloc: Global,
    reader: &mut R,
    writer: &mut W,
    settings: Settings,
    max_turns: u64,
) -> Result<Outcome, EngineFault>
    ensures run { IsEngineRun (normalise_engine settings) max_turns
        (ports (R.seen reader.old) (W.seen writer.old))
        (ports (R.seen reader.new) (W.seen writer.new)) result }
    // Without squash, what was written is a log of which `replay` reports the same, and its own
    // canonical form.
    ensures canonical_log { settings.squash ≡ false → WritesLog settings (IsCanonicalLog settings)
        (ports (R.seen reader.old) (W.seen writer.old))
        (ports (R.seen reader.new) (W.seen writer.new)) result }
    // With squash, it is a log of which `replay` reports the same documents and the same status,
    // and its own squashed form.
    ensures squashed { settings.squash ≡ true → WritesLog settings (IsSquashed settings)
        (ports (R.seen reader.old) (W.seen writer.old))
        (ports (R.seen reader.new) (W.seen writer.new)) result }
{
    normalise_selected(alloc, reader, writer, settings, None, max_turns)
}

/// Writes a log as [`normalise`] does, and leaves out each record that is neither about the session
/// nor about a document's text. So with `squash` all that was done to a document between two saves
/// becomes one message.
///
/// Of the client's messages these stay: `initialize`, `initialized`, `shutdown`, `exit`, `didOpen`,
/// `didChange`, `didClose`, `didSave`, and each that is refused (LSP 3.17, Lifecycle Messages, Text
/// Document Synchronization). Of the server's records the response to the last request that stayed
/// stays. The status is 1 if something was refused, else 0. The counts are those of the records
/// that stay.
///
/// Errors and costs are those of [`normalise`].
pub fn normalise_documents<R: Source, W: Sink>(
    alloc: Global,
    reader: &mut R,
    writer: &mut W,
    settings: Settings,
    max_turns: u64,
) -> Result<Outcome, EngineFault>
    ensures run { IsEngineRun (documents_engine settings) max_turns
        (ports (R.seen reader.old) (W.seen writer.old))
        (ports (R.seen reader.new) (W.seen writer.new)) result }
    // What was written is a log of which `replay` reports the same documents, the same status and
    // as many refusals.
    ensures documents { WritesDocuments settings
        (ports (R.seen reader.old) (W.seen writer.old))
        (ports (R.seen reader.new) (W.seen writer.new)) result }
{
    let selection = Some(Selection::new());
    normalise_selected(alloc, reader, writer, settings, selection, max_turns)
}

/// What [`rewrite`] writes, and when.
#[derive(Clone, Copy, Debug, PartialEq, Eq)]
pub struct Rewriting {
    /// Whether an accepted change is written as one change without a range, the text that it
    /// leaves. Then the settings' `squash` is ignored.
    pub whole: bool,
    /// Whether only the records are written that [`normalise_documents`] writes.
    pub documents: bool,
    /// Whether what is written is flushed before more is read.
    pub live: bool,
}

/// Writes a log as [`normalise`] or [`normalise_documents`] does, or with the whole text after each
/// accepted change (LSP 3.17, TextDocumentContentChangeEvent). If it is live, a reader that waits
/// for what an editor sends next has all records up to there; for that all that the writer took
/// before must be flushed.
///
/// Errors and costs are those of [`normalise`]. A whole text costs its bytes at each change, and
/// its body has to be within the limit.
pub fn rewrite<R: Source, W: Sink>(
    alloc: Global,
    ends: &mut Duplex<'_, R, W>,
    settings: Settings,
    rewriting: Rewriting,
    max_turns: u64,
) -> Result<Outcome, EngineFault>
    ensures run { IsEngineRun (rewriting_engine settings rewriting) max_turns
        (ports (R.seen ends.old.reader.now) (W.seen ends.old.writer.now))
        (ports (R.seen ends.new.reader.now) (W.seen ends.new.writer.now)) result }
    // No read came before all that was written was flushed.
    ensures in_time { rewriting.live ≡ true → (W.seen ends.old.writer.now).flushed ≡ true →
        ends.new.read_early ≡ ends.old.read_early }
    // With whole texts, what was written is a log of which `replay` reports the same, and of which
    // the same is written again.
    ensures whole_log { rewriting.whole ≡ true → rewriting.documents ≡ false →
        WritesLog settings (IsWholeLog settings)
        (ports (R.seen ends.old.reader.now) (W.seen ends.old.writer.now))
        (ports (R.seen ends.new.reader.now) (W.seen ends.new.writer.now)) result }
    ensures same_reader { ends.new.reader.ghost_name ≡ ends.old.reader.ghost_name }
    ensures same_writer { ends.new.writer.ghost_name ≡ ends.old.writer.ghost_name }
{
    let selection = selection_if(rewriting.documents);
    if rewriting.whole {
        return write_whole(alloc, ends, settings, selection, rewriting.live, max_turns);
    }
    normalise_over(alloc, ends, settings, selection, rewriting.live, max_turns)
}

/// Returns what is known before the first record, if some records are left out.
fn selection_if(documents: bool) -> Option<Selection>
    ensures { result ≡ (if documents then Some nothing_selected else None) }
{
    if documents {
        return Some(Selection::new());
    }
    None
}

/// Writes whole texts, of all records or of those that stay.
fn write_whole<R: Source, W: Sink>(
    alloc: Global,
    ends: &mut Duplex<'_, R, W>,
    settings: Settings,
    selection: Option<Selection>,
    flushes: bool,
    max_turns: u64,
) -> Result<Outcome, EngineFault>
    ensures run { IsEngineRun (flushing flushes (log_engine settings
        (piped selection (whole_log settings) (opened (log_config settings))))) max_turns
        (ports (R.seen ends.old.reader.now) (W.seen ends.old.writer.now))
        (ports (R.seen ends.new.reader.now) (W.seen ends.new.writer.now)) result }
    ensures in_range { AreInRange settings.limits }
    ensures in_time { flushes ≡ true → (W.seen ends.old.writer.now).flushed ≡ true →
        ends.new.read_early ≡ ends.old.read_early }
    ensures same_reader { ends.new.reader.ghost_name ≡ ends.old.reader.ghost_name }
    ensures same_writer { ends.new.writer.ghost_name ≡ ends.old.writer.ghost_name }
{
    let rules = settings.rules(false);
    let session = settings.session(alloc);
    let whole = Whole {
        written: Canonical::new(alloc),
    };
    let printer = WriteWhole { session, whole };
    run_over(alloc, ends, printer, selection, rules, flushes, max_turns)
}

/// Runs `normalise` as its settings say, for all records or for those that stay.
fn normalise_over<R: Source, W: Sink>(
    alloc: Global,
    ends: &mut Duplex<'_, R, W>,
    settings: Settings,
    selection: Option<Selection>,
    flushes: bool,
    max_turns: u64,
) -> Result<Outcome, EngineFault>
    ensures run { IsEngineRun (flushing flushes (log_engine settings
        (piped selection (normalised settings) (opened (log_config settings))))) max_turns
        (ports (R.seen ends.old.reader.now) (W.seen ends.old.writer.now))
        (ports (R.seen ends.new.reader.now) (W.seen ends.new.writer.now)) result }
    ensures in_range { AreInRange settings.limits }
    ensures in_time { flushes ≡ true → (W.seen ends.old.writer.now).flushed ≡ true →
        ends.new.read_early ≡ ends.old.read_early }
    ensures same_reader { ends.new.reader.ghost_name ≡ ends.old.reader.ghost_name }
    ensures same_writer { ends.new.writer.ghost_name ≡ ends.old.writer.ghost_name }
{
    let rules = settings.rules(false);
    let session = settings.session(alloc);
    if settings.squash {
        let squashing = Squashing::new(alloc, session);
        return run_over(alloc, ends, squashing, selection, rules, flushes, max_turns);
    }
    let normalise = Normalise {
        session,
        canonical: Canonical::new(alloc),
    };
    run_over(alloc, ends, normalise, selection, rules, flushes, max_turns)
}

/// Runs `normalise` from a reader to a writer, for all records or for those that stay.
fn normalise_selected<R: Source, W: Sink>(
    alloc: Global,
    reader: &mut R,
    writer: &mut W,
    settings: Settings,
    selection: Option<Selection>,
    max_turns: u64,
) -> Result<Outcome, EngineFault>
    ensures run { IsEngineRun (log_engine settings
        (piped selection (normalised settings) (opened (log_config settings)))) max_turns
        (ports (R.seen reader.old) (W.seen writer.old))
        (ports (R.seen reader.new) (W.seen writer.new)) result }
    ensures in_range { AreInRange settings.limits }
{
    let mut ends = Duplex::new(reader, writer);
    normalise_over(alloc, &mut ends, settings, selection, false, max_turns)
}
