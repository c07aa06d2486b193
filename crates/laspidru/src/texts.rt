//! The version of the library, what its codes mean, and the document of a message.

ghost use Rattle.std.specs.Prelude.{◌≡◌, ◌≢◌, ◌⊎◌, map, option_map, slice_get};
ghost use Rattle.lsp_message.specs.Message.{reading};
ghost use Rattle.lsp_message.specs.Incoming.{incoming_of};
ghost use Rattle.lsp_message.specs.Seen.{incoming_view};
ghost use Rattle.laspidru.specs.Codes.{IsAnswer, code_texts, text_asked_of};
ghost use Rattle.laspidru.specs.Objects.{IsCopy, rest_asked};
ghost use Rattle.laspidru.specs.Messages.{document_of, named_document};

use crate::bytes::copy_from;
use crate::codes::{NO_DOCUMENT, OK, OUT_OF_MEMORY, OUT_OF_RANGE};
use lsp_message::Incoming;
use std::alloc::Global;

/// The version, as three numbers of two digits.
pub const VERSION: u32 = 100;

/// The name of each code and what it means, by its number.
const TEXTS: [&str; 36] = [
    "OK: the call is done",
    "NOT_UTF8: the text is not UTF-8",
    "OUT_OF_MEMORY: out of memory",
    "IN_USE: the handle is in use",
    "EMPTY: the handle is empty",
    "TOO_LONG: the text or the message is too long",
    "INSIDE_CHARACTER: a position lies inside a character",
    "REVERSED_RANGE: a range is reversed",
    "BAD_ENCODING: the encoding is unknown, or was not offered",
    "BAD_LENGTH: the lengths of the edits exceed their texts",
    "OTHER_KIND: the handle holds an object of another kind",
    "OUT_OF_RANGE: a number is out of its range",
    "BAD_MAX_BODY: max_body is out of its range, 4,096 to 1,073,741,824 bytes",
    "ENDED: the session has ended",
    "NOT_OPEN: no document of this URI is open",
    "ALREADY_OPEN: a document of this URI is open already",
    "TOO_MANY_DOCUMENTS: too many documents are open",
    "STALE_VERSION: the version is not greater than the current one",
    "TOO_MANY_CHANGES: there are too many changes, or too long ones",
    "INVALID_PARAMS: the params are not those of the notification",
    "CUT: the log ends inside a record",
    "BAD_FRAME: the header of a frame is faulty",
    "BODY_TOO_LONG: a canonical message is too long",
    "BAD_LOG: what is there belongs in no log",
    "TOO_MANY_TURNS: too many reads and writes",
    "OVERLAP: two edits overlap",
    "FAILED: a frame was faulty before",
    "NO_MESSAGE: no whole message is buffered",
    "WRONG_PHASE: not in this phase of the session",
    "NOT_AN_ANSWER: the server sent what can't be read, or a response that nobody waits for",
    "ERROR_ANSWER: the server answered by an error",
    "NO_SYNC: the server doesn't want to be notified of documents or changes",
    "BAD_MAX_TEXT: max_text is out of its range, 0 to 1,073,741,824 bytes",
    "BAD_MAX_DOCS: max_docs is out of its range, 1 to 65,536 documents",
    "BAD_MAX_CHANGES: max_changes is out of its range, 1 to 1,048,576 changes of a message",
    "NO_DOCUMENT: the message opens, changes and closes no document",
];

/// Returns the version of the library, as three numbers of two digits: 100 is 0.1.0.
#[unsafe(no_mangle)]
pub extern "C" fn laspidru_version() -> u32
    ensures { result ≡ VERSION }
{
    VERSION
}

/// Returns a text by its number.
fn text_at(texts: &[&'static str], number: u32) -> Option<&'static str>
    ensures { option_map (λ text. text.now) result
        ≡ slice_get (map (λ text. text.now) texts.now) number }
{
    let text = texts.get(number as usize)?;
    Some(*text)
}

/// Returns the name of a code and what it means.
fn text_of(code: u32) -> Option<&'static str>
    ensures { option_map (λ text. text.now) result ≡ slice_get code_texts code }
{
    text_at(TEXTS.as_slice(), code)
}

/// Copies the name of a code and what it means from `start` on, as many bytes as `out` has room
/// for, and returns how many. Codes: OUT_OF_RANGE. Costs the copy.
#[unsafe(no_mangle)]
pub extern "C" fn laspidru_code_text(
    code: u32,
    start: usize,
    out: &mut [u8],
    copied: &mut usize,
) -> u32
    ensures answer { IsAnswer (rest_asked start (text_asked_of code)) result
        (IsCopy out.old out.new copied.new) }
    ensures unchanged { result ≢ OK → (out.new ≡ out.old) × (copied.new ≡ copied.old) }
{
    let Some(text) = text_of(code) else {
        return OUT_OF_RANGE;
    };
    copy_from(text.as_bytes(), start, out, copied)
}

/// Returns the URI of the document that a message opens, changes or closes.
fn uri_of(incoming: &Incoming) -> Option<&str>
    ensures { option_map (λ uri. uri.now) result ≡ document_of (incoming_view incoming.now) }
{
    match incoming {
        Incoming::DidOpen(Some(params)) => Some(params.uri.as_str()),
        Incoming::DidChange(Some(params)) => Some(params.uri.as_str()),
        Incoming::DidClose(Some(params)) => Some(params.uri.as_str()),
        _ => None,
    }
}

/// Copies the URI of the document that a body opens, changes or closes (LSP 3.17, Text Document
/// Synchronization) from `start` on, as many bytes as `out` has room for, and returns how many.
/// Codes: OUT_OF_MEMORY; NO_DOCUMENT of any other body, OUT_OF_RANGE. Costs a pass over the body.
#[unsafe(no_mangle)]
pub extern "C" fn laspidru_message_uri(
    alloc: Global,
    body: &[u8],
    start: usize,
    out: &mut [u8],
    copied: &mut usize,
) -> u32
    ensures answer { (result ≡ OUT_OF_MEMORY)
        ⊎ IsAnswer (rest_asked start (named_document (incoming_of (reading body.now)))) result
        (IsCopy out.old out.new copied.new) }
    ensures unchanged { result ≢ OK → (out.new ≡ out.old) × (copied.new ≡ copied.old) }
{
    let Ok(incoming) = Incoming::read(alloc, body) else {
        return OUT_OF_MEMORY;
    };
    let Some(uri) = uri_of(&incoming) else {
        return NO_DOCUMENT;
    };
    copy_from(uri.as_bytes(), start, out, copied)
}
