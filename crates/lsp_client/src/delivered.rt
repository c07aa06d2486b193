//! The results of a delivery.

use crate::phase::Reason;

/// What a client does with a body of the server.
#[derive(Debug, PartialEq, Eq, Drop)]
pub enum Delivered {
    /// A frame to send to the server.
    Send(Vec<u8>),
    /// The response to `shutdown`.
    Noted,
    /// A notification, which changes nothing.
    Ignored,
    /// The session can't continue; the phase is now Failed with this reason.
    BadServer(Reason),
}
