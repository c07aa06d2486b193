//! The text of a document that a record may close.

ghost use Rattle.std.specs.Prelude.{◌≡◌, IfOk, option_map, string_bytes};
ghost use Rattle.log_session.specs.inside.Bodies.{body_view};
ghost use Rattle.log_session.specs.inside.Kept.{closed_by};

use crate::session::{RecordBody, Session};
use lsp_server::Incoming;
use std::alloc::AllocError;

impl Session {
    /// Returns a copy of the text of the document with this URI, if it is open and the record is a
    /// `didClose` of it.
    pub fn closed_text(
        &self,
        read: &RecordBody<'_>,
        uri: Option<&str>,
    ) -> Result<Option<String>, AllocError>
        ensures { IfOk result (λ text. option_map string_bytes text
            ≡ closed_by self.now.server.table (option_map (λ uri. uri.now) uri.entry)
            (body_view read.now)) }
    {
        let Some(uri) = uri else {
            return Ok(None);
        };
        let RecordBody::Client(_, Incoming::DidClose(Some(params)), _) = read else {
            return Ok(None);
        };
        if params.uri.as_str() != uri {
            return Ok(None);
        }
        match self.server.store().get(uri) {
            Some(document) => Ok(Some(document.text().to_string(self.alloc)?)),
            None => Ok(None),
        }
    }
}
