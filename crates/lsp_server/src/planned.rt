//! What becomes of a change, before anything changes.

use crate::answer::Answer;
use lsp_store::Plan;

/// What becomes of a change, before anything changes
/// ([`Server::plan_change`](crate::Server::plan_change)). It borrows the change's params, and
/// nothing of the server.
#[derive(Debug, Drop)]
pub enum PlannedChange<'a> {
    /// The change is accepted. [`Server::commit_change`](crate::Server::commit_change) makes it.
    Accepted(Plan<'a>),
    /// The change is dropped or refused, with this answer. It changes nothing.
    Answered(Answer),
}
