//! The phases of a session on the server's end.

/// The phase of a session (LSP 3.17, Lifecycle Messages).
#[derive(Clone, Copy, Debug, PartialEq, Eq, Hash)]
pub enum Phase {
    /// Before an accepted `initialize`. Document messages are dropped, and requests other than
    /// `initialize` refused.
    New,
    /// From an accepted `initialize` on, whether or not `initialized` came.
    Running,
    /// From `shutdown` on. Requests are refused, and only `exit` is awaited.
    Down,
    /// From `exit` on. The server accepts no more bodies.
    Ended,
}
