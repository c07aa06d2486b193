//! `Plan`, a batch that was resolved once on an open document.
//!
//! A plan keeps the index of its document, and no URI and no batch. What is read from it is
//! said of each batch that it is of.

use lsp_edit::Delta;
use std::fmt;

/// A batch of changes that an open document accepts, resolved on its text ([`crate::Store::plan`]).
/// It borrows the changes, and nothing of the store. Calls that take it want the store as it was
/// then: it is applied before anything else changes. They ask for its text alone. So an older plan
/// may be applied to an equal text, and sets the version that it was made with, also a lower one.
#[derive(Drop)]
pub struct Plan<'a> {
    pub(crate) index: usize,
    pub(crate) version: i32,
    pub(crate) delta: Delta<'a>,
}

/// Shows the index of the document and the version that the plan leaves.
impl<'a> fmt::Debug for Plan<'a> {
    fn fmt<W: fmt::Write>(&self, f: &mut fmt::Formatter<W>) -> fmt::Result {
        f.debug_struct("Plan")
            .field("index", &self.index)
            .field("version", &self.version)
            .finish_non_exhaustive()
    }
}
