//! Which end of a session it is.

use lsp_client::Client;
use lsp_server::Server;

/// The server's end of a session, or the client's.
#[derive(Drop)]
pub enum Party {
    Server(Server),
    Client(Client),
}
