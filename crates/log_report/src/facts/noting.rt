//! What is suspicious of a message on the documents before it.

ghost use Rattle.std.specs.Prelude.{◌≡◌, ◌++◌, IfOk, OnOk, if◌then◌else◌, option_map, string_bytes, true};
ghost use Rattle.serde_json.specs.View.{view};
ghost use Rattle.lsp_message.specs.Lengths.{is_save};
ghost use Rattle.lsp_message.specs.Message.{reading};
ghost use Rattle.lsp_message.specs.Seen.{change_view};
ghost use Rattle.lsp_server.specs.Seen.{incoming_view};
ghost use Rattle.lsp_store.specs.Table.{entry_at};
ghost use Rattle.log_report.specs.Growths.{odd_notes};
ghost use Rattle.log_report.specs.Habits.{grown_in, odd_with};
ghost use Rattle.log_report.specs.Lines.{named_in};
ghost use Rattle.log_report.specs.Notes.{changing_notes, notes_if, notes_on, opening_notes};
ghost use Rattle.log_report.specs.Notes.{terms_in};
ghost use Rattle.log_session.specs.inside.Bodies.{body_view};
ghost use Rattle.log_report.specs.inside.Facts.{IsAbout};
ghost use Rattle.log_report.specs.inside.Lacks.{is_broken};
ghost use Rattle.log_session.specs.inside.Reads.{IsNotedOf};
ghost use Rattle.log_session.specs.inside.Verdicts.{verdict_view};

use crate::facts::About;
use crate::facts::asked::uri_of;
use crate::growths::{Grown, Pace, grown_by};
use crate::habits::Documents;
use crate::lacks::{broken_params, lack_in};
use crate::notes::Note;
use crate::notes::changes::{Terms, push_batch_notes};
use crate::notes::returns::{has_feed, has_lone_return};
use crate::notes::saved::{push_saved_note, saved_uri};
use log_session::{RecordBody, Verdict, copied_text};
use lsp_log::Sender;
use lsp_message::{ChangeParams, Noted, OpenParams};
use lsp_server::{Answer, Incoming, Server};
use lsp_text::Encoding;
use serde_json::Value;
use std::alloc::{AllocError, Global};

/// Returns what a record is about that was read. A server's record is about no document.
pub(super) fn about_of(
    alloc: Global,
    server: &Server,
    documents: &Documents,
    ranged: bool,
    body: &[u8],
    read: &RecordBody<'_>,
) -> Result<About, AllocError>
    ensures { IfOk result (λ about. IsNotedOf true body.now read.now
        → IsAbout server.now documents.now.newest.items ranged (reading body.now)
        (body_view read.now) about) }
{
    let RecordBody::Client(_, incoming, noted) = read else {
        return Ok(About {
            uri: None,
            named: None,
            notes: Vec::new(alloc),
            lack: None,
            grown: None,
        });
    };
    let params = broken_params(alloc, body, incoming)?;
    let grown = grown_in(server, documents, incoming);
    let mut notes = notes_on(alloc, server, ranged, incoming, noted)?;
    push_odd_note(&mut notes, documents, incoming, grown)?;
    Ok(About {
        uri: copied_text(alloc, uri_of(Sender::Client, incoming))?,
        named: copied_text(alloc, named_in(incoming, noted, params.as_ref()))?,
        notes,
        lack: lack_in(incoming, params.as_ref()),
        grown,
    })
}

/// Returns whether this is the method of a document that was saved.
fn is_save(method: &str) -> bool
    ensures { result ≡ is_save method.now }
{
    method == "textDocument/didSave"
}

/// Returns the URI of the document whose text was saved, or that these params name, if they can't be
/// read.
fn named_in<'a>(incoming: &Incoming, noted: &'a Noted, params: Option<&'a Value>) -> Option<&'a str>
    ensures { option_map (λ uri. uri.now) result ≡ named_in Sender.Client
        (incoming_view incoming.now) (if is_broken (incoming_view incoming.now)
        then option_map (λ params. view params.now) params.entry
        else option_map view noted.now.params) }
{
    match incoming {
        Incoming::DidOpen(None) | Incoming::DidChange(None) | Incoming::DidClose(None) => {
            saved_uri(params)
        }
        Incoming::OtherNotification { method } if is_save(method) => {
            saved_uri(noted.params.as_ref())
        }
        _ => None,
    }
}

/// Returns the version of a change and the one that was sent before, if that is lower.
fn grown_in(server: &Server, documents: &Documents, incoming: &Incoming) -> Option<Grown>
    ensures { result ≡ grown_in server.now documents.now.newest.items Sender.Client
        (incoming_view incoming.now) }
{
    let Incoming::DidChange(Some(params)) = incoming else {
        return None;
    };
    let document = server.store().get(&params.uri)?;
    let before = documents.sent_after(&params.uri, document.version());
    grown_by(params.version, before, params.changes.len())
}

/// Notes a version that breaks the habit of its document.
fn push_odd_note(
    notes: &mut Vec<Note>,
    documents: &Documents,
    incoming: &Incoming,
    grown: Option<Grown>,
) -> Result<(), AllocError>
    ensures { OnOk result (notes.new.items ≡ notes.old.items
        ++ odd_with documents.now.newest.items (incoming_view incoming.now) grown) }
{
    let Incoming::DidChange(Some(params)) = incoming else {
        return Ok(());
    };
    push_odd(notes, documents.pace(&params.uri), grown)
}

fn push_odd(notes: &mut Vec<Note>, pace: Pace, grown: Option<Grown>) -> Result<(), AllocError>
    ensures { OnOk result (notes.new.items ≡ notes.old.items ++ odd_notes pace grown) }
{
    let Some(grown) = grown else {
        return Ok(());
    };
    if pace.is_odd(grown) {
        notes.push(Note::OddVersion {
            sent: grown.sent,
            before: grown.before,
            changes: grown.changes,
            usual: pace.usual_step(),
        })?;
    }
    Ok(())
}

/// Returns what there is to note of a message, unless it is refused.
fn notes_on(
    alloc: Global,
    server: &Server,
    ranged: bool,
    incoming: &Incoming,
    noted: &Noted,
) -> Result<Vec<Note>, AllocError>
    ensures { IfOk result (λ notes. notes.items ≡ notes_on server.now ranged noted.now.lengths.items
        (option_map view noted.now.params) (incoming_view incoming.now)) }
{
    match incoming {
        Incoming::DidOpen(Some(params)) => opening_notes(alloc, server, params),
        Incoming::DidChange(Some(params)) => {
            changing_notes(alloc, server, ranged, &noted.lengths, params)
        }
        Incoming::OtherNotification { method } => {
            let mut notes = Vec::new(alloc);
            if is_save(method) {
                push_saved_note(alloc, &mut notes, server.store(), noted.params.as_ref())?;
            }
            Ok(notes)
        }
        _ => Ok(Vec::new(alloc)),
    }
}

/// Notes that a document is open that is to be opened, and what is suspicious of its text.
fn opening_notes(
    alloc: Global,
    server: &Server,
    params: &OpenParams,
) -> Result<Vec<Note>, AllocError>
    ensures { IfOk result (λ notes. notes.items
        ≡ opening_notes (entry_at server.now.table (string_bytes params.now.uri))
        (string_bytes params.now.text)) }
{
    let mut notes = Vec::new(alloc);
    if server.store().get(&params.uri).is_some() {
        notes.push(Note::OpenAlready)?;
    }
    let bytes = params.text.as_bytes();
    if has_lone_return(bytes) && has_feed(bytes) {
        notes.push(Note::LoneReturn)?;
    }
    Ok(notes)
}

/// Notes what is suspicious of a change, if its document is open.
#[tactic(auto, using(crate::proofs::Reports::NoteLemmas::edits_read))]
fn changing_notes(
    alloc: Global,
    server: &Server,
    ranged: bool,
    lengths: &[Option<u64>],
    params: &ChangeParams,
) -> Result<Vec<Note>, AllocError>
    ensures { IfOk result (λ notes. notes.items
        ≡ changing_notes (terms_in server.now ranged lengths.now) (change_view params.now)
        (entry_at server.now.table (string_bytes params.now.uri))) }
{
    let mut notes = Vec::new(alloc);
    let Some(document) = server.store().get(&params.uri) else {
        return Ok(notes);
    };
    let terms = Terms {
        encoding: server.encoding().unwrap_or(Encoding::Utf16),
        lengths,
        ranged,
    };
    let sent = params.version;
    let current = document.version();
    if sent <= current {
        notes.push(Note::OldVersion { sent, current })?;
    }
    push_batch_notes(alloc, &mut notes, document.text(), &terms, &params.changes)?;
    Ok(notes)
}

/// Returns the notes of a message that is accepted or ignored; any other has none.
pub(super) fn notes_if(mut notes: Vec<Note>, verdict: &Verdict) -> Vec<Note>
    ensures { result.items ≡ notes_if notes.items (verdict_view verdict.now) }
{
    match verdict {
        Verdict::Answered(Answer::Changed | Answer::Ignored) => notes,
        _ => {
            notes.clear();
            notes
        }
    }
}
