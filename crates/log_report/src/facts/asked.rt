//! Which document a body is about.

ghost use Rattle.std.specs.Prelude.{◌≡◌, option_map};
ghost use Rattle.lsp_server.specs.Seen.{incoming_view};
ghost use Rattle.log_report.specs.Lines.{uri_of};

use lsp_log::Sender;
use lsp_server::Incoming;

/// Returns the URI in valid parameters of an editor's message about a document.
pub fn uri_of(side: Sender, incoming: &Incoming) -> Option<&str>
    ensures { option_map (λ uri. uri.now) result ≡ uri_of side (incoming_view incoming.now) }
{
    match (side, incoming) {
        (Sender::Client, Incoming::DidOpen(Some(params))) => Some(params.uri.as_str()),
        (Sender::Client, Incoming::DidChange(Some(params))) => Some(params.uri.as_str()),
        (Sender::Client, Incoming::DidClose(Some(params))) => Some(params.uri.as_str()),
        _ => None,
    }
}
