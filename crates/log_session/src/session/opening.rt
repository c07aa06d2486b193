//! The document that a record may open.

ghost use Rattle.std.specs.Prelude.{◌≡◌, IfOk, None, option_map, string_bytes};
ghost use Rattle.log_session.specs.Session.{opened_if, uri_opened};
ghost use Rattle.log_session.specs.inside.Bodies.{body_view, on_client};
ghost use Rattle.log_session.specs.inside.Verdicts.{verdict_view};

use crate::session::counting::has_changed;
use crate::session::{RecordBody, Verdict};
use lsp_log::Sender;
use lsp_server::Incoming;
use std::alloc::{AllocError, Global};

/// Returns a copy of the URI of the document that a record asks to open.
pub fn opened_uri(alloc: Global, read: &RecordBody<'_>) -> Result<Option<String>, AllocError>
    ensures { IfOk result (λ uri. option_map string_bytes uri
        ≡ on_client None (uri_opened Sender.Client) (body_view read.now)) }
{
    match read {
        RecordBody::Client(_, Incoming::DidOpen(Some(params)), _) => {
            copied_text(alloc, Some(params.uri.as_str()))
        }
        _ => Ok(None),
    }
}

/// Returns the URI that a record asked to open, if it was accepted.
pub fn opened_if(verdict: &Verdict, uri: Option<String>) -> Option<String>
    ensures { option_map string_bytes result
        ≡ opened_if (verdict_view verdict.now) (option_map string_bytes uri) }
{
    if has_changed(verdict) { uri } else { None }
}

/// Returns a copy of a text, if there is one.
pub fn copied_text(alloc: Global, text: Option<&str>) -> Result<Option<String>, AllocError>
    ensures { IfOk result
        (λ copy. option_map string_bytes copy ≡ option_map (λ text. text.now) text.entry) }
{
    match text {
        Some(text) => Ok(Some(String::from_str(alloc, text)?)),
        None => Ok(None),
    }
}
