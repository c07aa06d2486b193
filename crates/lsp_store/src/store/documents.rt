//! The open documents, one after another, for a `for` loop.

ghost use Rattle.std.specs.Prelude.{◌≡◌, map};
ghost use Rattle.std.specs.Iterator.{YieldsFirst, YieldsLast, item_count};
ghost use Rattle.lsp_store.specs.Opened.{entry_of};

use crate::store::document::Document;
use crate::store::stored::Stored;
use ordered_map::Iter;
use std::iter::FusedIterator;
use std::marker::Model;

/// The open documents in order of opening, as [`Store::iter`](crate::Store::iter) returns them. It
/// borrows from the store. Clauses see the list of the remaining documents.
#[derive(Debug, Drop)]
pub struct Documents<'a> {
    entries: Iter<'a, Stored>,
}

impl<'a> Model for Documents<'a> {
    ghost use Rattle.std.specs.Prelude.{List, map};
    ghost use Rattle.lsp_store.specs.Opened.{entry_of};
    ghost use Rattle.lsp_message.specs.Params.{DocumentItem};

    ghost Value = { List DocumentItem };

    ghost view = { λ documents. map entry_of documents.entries };
}

impl<'a> Documents<'a> {
    /// Returns the documents of a store's entries.
    pub(crate) fn new(entries: Iter<'a, Stored>) -> Self
        ensures { result ≡ map entry_of entries.entry }
    {
        Documents { entries }
    }
}

impl<'a> Iterator for Documents<'a> {
    type Item = Document<'a>;

    ghost next_gives = { YieldsFirst (λ rest. rest) };

    ghost remaining = { item_count (λ rest. rest) };

    fn next(&mut self) -> Option<Document<'a>> {
        let (uri, stored) = self.entries.next()?;
        Some(Document::new(uri, stored))
    }

    fn size_hint(&self) -> (usize, Option<usize>) {
        let len = self.len();
        (len, Some(len))
    }
}

impl<'a> DoubleEndedIterator for Documents<'a> {
    ghost next_back_gives = { YieldsLast (λ rest. rest) };

    fn next_back(&mut self) -> Option<Document<'a>> {
        let (uri, stored) = self.entries.next_back()?;
        Some(Document::new(uri, stored))
    }
}

impl<'a> ExactSizeIterator for Documents<'a> {
    fn len(&self) -> usize {
        self.entries.len()
    }
}

impl<'a> FusedIterator for Documents<'a> {}
