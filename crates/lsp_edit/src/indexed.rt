//! `IndexedText`, a text with its lines, under batches of changes.
//!
//! One change of a range is made in place. A longer batch is made in a copy, which shares the
//! blocks, and moved in: so a fault in a later change undoes nothing. One that begins with a
//! whole text copies nothing. It keeps no spans: who wants them composes the delta.

ghost use Rattle.std.specs.Prelude.{◌≡◌, ◌≢◌, ◌≤◌, ◌↔◌, ℕ, List, IsTrue, IfErr, IfOk, IfSome, IsOk, OnErr, OnOk, Err, Ok, None, length, map, string_bytes, string_len, sum_by};
ghost use Rattle.std.specs.Str.{IsUtf8, chars};
ghost use Rattle.lsp_text.specs.Units.{units_in};
ghost use Rattle.lsp_text.specs.declared.position.Range.{Range};
ghost use Rattle.lsp_edit.specs.declared.indexed.fault.BatchFault.TheVariants.{NoMemory, TooLong};
ghost use Rattle.lsp_edit.specs.Batch.{meaning};
ghost use Rattle.lsp_edit.specs.Delta.{IsDeltaOf, IsOn, bytes_after};
ghost use Rattle.lsp_edit.specs.Edited.{content_change};
ghost use Rattle.lsp_edit.specs.Indexed.{BatchMayAllocate, IsBatchFaultOf, alone, one_change, text_within};

mod canonical;
mod draft;
pub(crate) mod fault;

use crate::change::{Change, MAX_NEW_TEXT};
use crate::composed::MAX_OLD_TEXT;
use crate::delta::{Delta, Left, Put};
use crate::ends::ends;
use crate::indexed::fault::BatchFault;
use crate::pieces::MAX_TEXT;
use lsp_buffer::TextBuffer;
use lsp_text::{Encoding, Range};
use std::alloc::{AllocError, Global};
use std::marker::Model;

/// A text in blocks with their lines, so that a change costs its block. Clauses see the bytes of
/// the text.
#[derive(Debug, Drop)]
pub struct IndexedText {
    text: TextBuffer,
}

impl Model for IndexedText {
    ghost use Rattle.std.specs.Prelude.{ℕ, List};

    ghost Value = { List ℕ };

    ghost view = { λ kept. kept.text };
}

impl IndexedText {
    /// Finds the lines of a text, which is moved in. Fails only where memory runs out. Costs a
    /// search through the text. It stays one block until its first change.
    pub fn new(alloc: Global, text: String) -> Result<Self, AllocError>
        requires { string_len text ≤ MAX_TEXT }
        ensures { IfOk result (λ kept. kept ≡ string_bytes text) }
    {
        let text = TextBuffer::new(alloc, text)?;
        Ok(IndexedText { text })
    }

    /// Returns the text.
    pub fn text(&self) -> &TextBuffer
        ensures { result.now ≡ self.now }
    {
        &self.text
    }

    /// Returns how many bytes the text has. In constant time.
    pub fn len(&self) -> usize
        ensures len { result ≡ length self.now }
        ensures utf8 { IsUtf8 self.now }
    {
        self.text.len()
    }

    /// Returns whether the text has no bytes. In constant time.
    pub fn is_empty(&self) -> bool
        ensures { IsTrue result ↔ (length self.now ≡ 0) }
    {
        self.len() == 0
    }

    /// Returns the text's allocator.
    fn allocator(&self) -> &Global {
        self.text.allocator()
    }

    /// Returns a copy, which shares its blocks with this text. Fails only where memory runs out.
    /// Costs a step for each block: a block is copied once one of both changes it.
    pub fn clone_in(&self, alloc: Global) -> Result<Self, AllocError>
        ensures copy { IfOk result (λ copy. copy ≡ self.now) }
        ensures utf8 { OnOk result (IsUtf8 self.now) }
    {
        let text = self.text.clone_in(alloc)?;
        Ok(IndexedText { text })
    }

    /// Applies a batch to the text (LSP 3.17, DidChangeTextDocumentParams), if the result has at
    /// most `max_len` bytes. The texts between its changes may have more.
    ///
    /// An error reports the first change that has no result, a result that is too long, or out of
    /// memory. The text is unchanged then.
    ///
    /// One change with a range costs its two positions, its block, and an addition for each 32
    /// blocks before it. The first one of a text that came whole, by [`IndexedText::new`] or a
    /// change of all, costs the text once: it is cut into blocks then. Any other batch costs that
    /// for each change, and [`IndexedText::clone_in`] if its first change doesn't replace all.
    pub fn change(
        &mut self,
        encoding: Encoding,
        changes: &[Change],
        max_len: usize,
    ) -> Result<(), BatchFault>
        requires size { length self.old ≤ MAX_OLD_TEXT }
        requires fits { sum_by (λ change. string_len change.text) changes.now ≤ MAX_NEW_TEXT }
        ensures changed { OnOk result
            (text_within max_len self.old
            (meaning (units_in encoding) (chars self.old) (map content_change changes.now))
            ≡ Ok self.new) }
        ensures unchanged { OnErr result (self.new ≡ self.old) }
        ensures error { IfErr result (IsBatchFaultOf (units_in encoding) max_len self.old
            (map content_change changes.now)) }
        // For one change, out of memory means that there is a result of that length.
        ensures memory { result ≡ Err NoMemory
            → BatchMayAllocate (units_in encoding) max_len self.old
            (map content_change changes.now) }
    {
        // `?` isn't proved here.
        match self.delta(encoding, changes, max_len) {
            Ok(delta) => {
                self.apply(delta)?;
                Ok(())
            }
            Err(fault) => Err(fault),
        }
    }

    /// Resolves a change of a range on the text, if the result has at most `max_len` bytes. Takes
    /// no memory.
    fn put_delta<'a>(
        &self,
        encoding: Encoding,
        range: Range,
        new: &'a str,
        max_len: usize,
    ) -> Result<Delta<'a>, BatchFault>
        requires size { length self.now ≤ MAX_OLD_TEXT }
        requires fits { length new.now ≤ MAX_NEW_TEXT }
        ensures ok { IfOk result
            (IsDeltaOf (units_in encoding) max_len self.now (alone range new.now)) }
        ensures error { IfErr result (IsBatchFaultOf (units_in encoding) max_len self.now
            (alone range new.now)) }
        ensures memory { result ≢ Err NoMemory }
    {
        // States that the text is UTF-8.
        let _ = self.len();
        let (start, stop) = ends(self.text(), encoding, range, 0)?;
        let put = Put {
            encoding,
            start,
            stop,
            new,
        };
        let len = put.len_on(self);
        if len > max_len {
            return Err(BatchFault::TooLong);
        }
        Ok(Delta::Put(put))
    }

    /// Resolves a batch on the text (LSP 3.17, DidChangeTextDocumentParams), if the result has at
    /// most `max_len` bytes. The delta borrows the changes, and nothing of the text.
    ///
    /// Has the errors of [`IndexedText::change`], and changes nothing. One change with a range
    /// costs its two positions, and takes no memory. Any other batch costs what it costs to apply;
    /// one whole text that is too long is refused before memory is taken.
    pub fn delta<'a>(
        &self,
        encoding: Encoding,
        changes: &'a [Change],
        max_len: usize,
    ) -> Result<Delta<'a>, BatchFault>
        requires size { length self.now ≤ MAX_OLD_TEXT }
        requires fits { sum_by (λ change. string_len change.text) changes.now ≤ MAX_NEW_TEXT }
        ensures ok { IfOk result
            (IsDeltaOf (units_in encoding) max_len self.now (map content_change changes.now)) }
        ensures error { IfErr result (IsBatchFaultOf (units_in encoding) max_len self.now
            (map content_change changes.now)) }
        ensures quiet { result ≡ Err NoMemory → (range : Range) (text : List ℕ)
            → map content_change changes.now ≡ alone range text → ⊥ }
        ensures memory { result ≡ Err NoMemory
            → BatchMayAllocate (units_in encoding) max_len self.now
            (map content_change changes.now) }
    {
        match put_of(changes) {
            Some((range, new)) => self.put_delta(encoding, range, new, max_len),
            None => {
                // States that the text is UTF-8.
                let _ = self.len();
                check_whole(changes, max_len)?;
                let (text, ends) = self.draft(encoding, changes, max_len)?;
                Ok(Delta::Left(Left {
                    encoding,
                    changes,
                    ends,
                    text,
                }))
            }
        }
    }

    /// Applies a delta that was made of this text. Fails only where memory runs out, and then
    /// changes nothing.
    ///
    /// A range costs its block, and an addition for each 32 blocks before it; the first one of a
    /// text that came whole costs the text once, which is cut into blocks then. Any other batch
    /// costs constant time.
    pub fn apply(&mut self, delta: Delta<'_>) -> Result<(), AllocError>
        requires on { IsOn self.old delta }
        ensures changed { OnOk result (self.new ≡ bytes_after self.old delta.entry) }
        ensures unchanged { OnErr result (self.new ≡ self.old) }
    {
        match delta {
            Delta::Put(put) => self.text.replace_range(put.start, put.stop, put.new),
            Delta::Left(batch) => {
                *self = batch.text;
                Ok(())
            }
        }
    }
}

/// Returns the range and the text of a batch of one change with a range.
fn put_of<'a>(changes: &'a [Change]) -> Option<(Range, &'a str)>
    ensures some { IfSome result (λ put. map content_change changes.now ≡ alone put.0 put.1.now) }
    ensures short { IfSome result
        (λ put. length put.1.now ≤ sum_by (λ change. string_len change.text) changes.now) }
    ensures none { result ≡ None → (range : Range) (text : List ℕ)
        → map content_change changes.now ≡ alone range text → ⊥ }
{
    match changes {
        [
            Change {
                range: Some(range),
                text,
            },
        ] => Some((*range, text)),
        _ => None,
    }
}

/// Returns the text of a batch of one whole text.
fn whole_of(changes: &[Change]) -> Option<&str>
    ensures some { IfSome result
        (λ text. map content_change changes.now ≡ one_change None text.now) }
    ensures utf8 { IfSome result (λ text. IsUtf8 text.now) }
    ensures none { result ≡ None → (text : List ℕ)
        → map content_change changes.now ≡ one_change None text → ⊥ }
{
    match changes {
        [Change { range: None, text }] => Some(text.as_str()),
        _ => None,
    }
}

/// Refuses a batch of one whole text of more than `max_len` bytes. Takes no memory.
fn check_whole(changes: &[Change], max_len: usize) -> Result<(), BatchFault>
    ensures ok { OnOk result ((units : ℕ → ℕ) (before text : List ℕ)
        → map content_change changes.now ≡ one_change None text
        → IsOk (text_within max_len before
        (meaning units (chars before) (map content_change changes.now)))) }
    ensures error { IfErr result (λ fault. (fault ≡ TooLong) × ((units : ℕ → ℕ) (before : List ℕ)
        → text_within max_len before
        (meaning units (chars before) (map content_change changes.now)) ≡ Err fault)) }
{
    let Some(text) = whole_of(changes) else {
        return Ok(());
    };
    if text.len() > max_len {
        return Err(BatchFault::TooLong);
    }
    Ok(())
}
