//! What a message lacks whose params can't be read.

ghost use Rattle.std.specs.Prelude.{◌≡◌, IfOk, None, codes, if◌then◌else◌, is_some, option_map};
ghost use Rattle.serde_json.specs.View.{view};
ghost use Rattle.lsp_message.specs.Lengths.{notification_params};
ghost use Rattle.lsp_message.specs.Message.{reading};
ghost use Rattle.lsp_message.specs.Params.{version_in};
ghost use Rattle.lsp_message.specs.Values.{array_in, member_at, text_in};
ghost use Rattle.lsp_server.specs.Seen.{incoming_view};
ghost use Rattle.log_report.specs.Lacks.{change_lack, has_text, has_version, lack_in, lack_words, open_lack};
ghost use Rattle.log_report.specs.inside.Lacks.{is_broken};

use lsp_log::Sender;
use lsp_message::{Message, ReadFault, read};
use lsp_server::Incoming;
use serde_json::Value;
use std::alloc::{AllocError, Global};

/// What the params of a message lack first.
#[derive(Clone, Copy, Debug, PartialEq, Eq)]
pub enum Lack {
    Uri,
    Language,
    Version,
    Text,
    /// `contentChanges` is no array.
    Changes,
    /// One of the changes is none.
    Change,
}

/// Returns whether it is a message about a document whose params can't be read.
fn is_broken(incoming: &Incoming) -> bool
    ensures { result ≡ is_broken (incoming_view incoming.now) }
{
    match incoming {
        Incoming::DidOpen(params) => params.is_none(),
        Incoming::DidChange(params) => params.is_none(),
        Incoming::DidClose(params) => params.is_none(),
        _ => false,
    }
}

/// Returns the params of a message that can't be read; its body is read again.
pub fn broken_params(
    alloc: Global,
    body: &[u8],
    incoming: &Incoming,
) -> Result<Option<Value>, AllocError>
    ensures { IfOk result (λ params. option_map view params
        ≡ (if is_broken (incoming_view incoming.now)
        then notification_params (reading body.now) else None)) }
{
    if !is_broken(incoming) {
        return Ok(None);
    }
    match read(alloc, body) {
        Ok(Message::Notification { params, .. }) => Ok(params),
        Ok(_) => Ok(None),
        Err(ReadFault::NoMemory) => Err(AllocError),
        Err(_) => Ok(None),
    }
}

/// Returns what a message lacks, by its params, if they can't be read.
pub fn lack_in(incoming: &Incoming, params: Option<&Value>) -> Option<Lack>
    ensures { result ≡ lack_in Sender.Client (incoming_view incoming.now)
        (option_map (λ params. view params.now) params.entry) }
{
    match incoming {
        Incoming::DidOpen(None) => Some(open_lack(document_in(params))),
        Incoming::DidChange(None) => Some(change_lack(params, document_in(params))),
        Incoming::DidClose(None) => Some(Lack::Uri),
        _ => None,
    }
}

/// Returns the document of params.
fn document_in(params: Option<&Value>) -> Option<&Value>
    ensures { option_map (λ document. view document.now) result
        ≡ member_at (codes "textDocument") (option_map (λ params. view params.now) params.entry) }
{
    params?.get("textDocument")
}

/// Returns what the document of a `didOpen` lacks first.
fn open_lack(document: Option<&Value>) -> Lack
    ensures { result ≡ open_lack (option_map (λ document. view document.now) document.entry) }
{
    if !has_text("uri", document) {
        Lack::Uri
    } else if !has_text("languageId", document) {
        Lack::Language
    } else if !has_version(document) {
        Lack::Version
    } else {
        Lack::Text
    }
}

/// Returns what the params of a `didChange` lack first.
fn change_lack(params: Option<&Value>, document: Option<&Value>) -> Lack
    ensures { result ≡ change_lack (option_map (λ params. view params.now) params.entry)
        (option_map (λ document. view document.now) document.entry) }
{
    if !has_text("uri", document) {
        Lack::Uri
    } else if !has_version(document) {
        Lack::Version
    } else if !has_changes(params) {
        Lack::Changes
    } else {
        Lack::Change
    }
}

/// Returns whether an object has this member, a text.
fn has_text(name: &str, document: Option<&Value>) -> bool
    ensures { result
        ≡ has_text name.now (option_map (λ document. view document.now) document.entry) }
{
    text_at(name, document).is_some()
}

fn text_at<'a>(name: &str, document: Option<&'a Value>) -> Option<&'a str>
    ensures { option_map (λ text. text.now) result
        ≡ text_in (member_at name.now (option_map (λ document. view document.now) document.entry)) }
{
    document?.get(name)?.as_str()
}

/// Returns whether an object has a version.
fn has_version(document: Option<&Value>) -> bool
    ensures { result
        ≡ has_version (option_map (λ document. view document.now) document.entry) }
{
    version_in(document).is_some()
}

fn version_in(document: Option<&Value>) -> Option<i32>
    ensures { result ≡ version_in (member_at (codes "version")
        (option_map (λ document. view document.now) document.entry)) }
{
    i32::try_from(document?.get("version")?.as_i64()?).ok()
}

/// Returns whether params have an array of changes.
fn has_changes(params: Option<&Value>) -> bool
    ensures { result ≡ is_some (array_in (member_at (codes "contentChanges")
        (option_map (λ params. view params.now) params.entry))) }
{
    let Some(params) = params else {
        return false;
    };
    let Some(changes) = params.get("contentChanges") else {
        return false;
    };
    changes.as_array().is_some()
}

/// Returns what is said of it.
pub fn lack_words(lack: Lack) -> &'static str
    ensures { result.now ≡ lack_words lack }
{
    match lack {
        Lack::Uri => ": `textDocument.uri` is missing, or no string",
        Lack::Language => ": `textDocument.languageId` is missing, or no string",
        Lack::Version => ": `textDocument.version` is missing, or no 32-bit integer",
        Lack::Text => ": `textDocument.text` is missing, or no string",
        Lack::Changes => ": `contentChanges` is missing, or no array",
        Lack::Change => ": a change has no `text`, or a wrong `range`",
    }
}
