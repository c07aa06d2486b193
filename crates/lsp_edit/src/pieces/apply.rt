//! A change of pieces: its places in the current text, and the spans after it.
//!
//! The current text is built when the second change with a range is resolved. No clause says when
//! it is made anew: that is a cost. Where memory runs out it is dropped, which callers don't see.

ghost use Rattle.std.specs.Prelude.{◌≡◌, ◌≢◌, ◌+◌, ◌≤◌, ℕ, IfErr, IfOk, OnErr, OnOk, Ok, Err, IsOk, MatchOption, MatchResult, Some, None, length, string_len};
ghost use Rattle.std.specs.Str.{chars};
ghost use Rattle.lsp_text.specs.Units.{units_in};
ghost use Rattle.lsp_edit.specs.declared.fault.EditFault.TheVariants.{NoMemory};
ghost use Rattle.lsp_edit.specs.Edited.{Applied, content_change, edited_bytes, edited_text};
ghost use Rattle.lsp_edit.specs.Faults.{IsFaultOfChange, places_at};
ghost use Rattle.lsp_edit.specs.Batch.{ends_of, items_after};
ghost use Rattle.lsp_edit.specs.Delta.{AreEndsIn};
ghost use Rattle.lsp_edit.specs.inside.Faults.{HasRange};
ghost use Rattle.lsp_text.specs.declared.position.Range.{Range};

use crate::change::Change;
use crate::ends::ends;
use crate::fault::EditFault;
use crate::pieces::{MAX_TEXT, Pieces};
use lsp_buffer::TextBuffer;
use lsp_text::Encoding;
use std::alloc::AllocError;

impl<'a> Pieces<'a> {
    /// Returns the current text, if it was made already, or else the text of the spans.
    fn current_or_new(&self, current: Option<TextBuffer>) -> Result<TextBuffer, AllocError>
        requires { MatchOption current (Unit {0}) (λ text. text ≡ edited_bytes self.now.edited) }
        ensures { IfOk result (λ current. current ≡ edited_bytes self.now.edited) }
    {
        match current {
            Some(current) => Ok(current),
            None => TextBuffer::new(self.alloc, self.text()?),
        }
    }

    /// Returns the byte offsets of the two ends of a change's range in the current text, if it has
    /// a range. A fault reports the number of the change: how many came before.
    fn places(&mut self, encoding: Encoding, change: &Change) -> Result<(usize, usize), EditFault>
        ensures unchanged { self.new ≡ self.old }
        ensures memory { result ≡ Err NoMemory → self.old.edited.changes ≢ 0 }
        ensures found { MatchResult result
            (AreEndsIn (units_in encoding) (edited_text self.old.edited)
            (content_change change.now))
            (IsFaultOfChange self.old.edited.changes
            (items_after (units_in encoding) self.old.edited.before self.old.edited.items
            (content_change change.now))) }
    {
        let Some(range) = change.range else {
            return Ok((0, 0));
        };
        if self.changes == 0 {
            return ends(self.before.get(), encoding, range, 0);
        }
        let current = self.current.take();
        let current = self.current_or_new(current)?;
        // States that the text is UTF-8.
        let _ = current.len();
        let places = ends(&current, encoding, range, self.changes);
        self.current = Some(current);
        places
    }

    /// Replaces the whole text. After an error everything is unchanged.
    fn apply_to_all(&mut self, text: &'a str) -> Result<(), AllocError>
        requires { length (edited_bytes self.old.edited) + length text.now ≤ MAX_TEXT }
        ensures applied { OnOk result ((units : ℕ → ℕ) → Applied units self.old.edited
            (record { range = None; text = chars text.now }) self.new.edited) }
        ensures unchanged { OnErr result (self.new ≡ self.old) }
    {
        self.spans.replace_all(text)?;
        self.len = text.len();
        self.current = None;
        self.changes = self.changes.saturating_add(1);
        Ok(())
    }

    /// Replaces the bytes from `start` to `stop` of the current text, which are the ends of a
    /// range. After an error everything is unchanged.
    fn put(&mut self, start: usize, stop: usize, text: &'a str) -> Result<(), AllocError>
        requires room { length (edited_bytes self.old.edited) + length text.now ≤ MAX_TEXT }
        requires ends { HasRange (edited_text self.old.edited) start stop }
        ensures applied { OnOk result ((units : ℕ → ℕ) (range : Range)
            → Ok (start, stop) ≡ places_at 0 (edited_text self.old.edited)
            (ends_of units (edited_text self.old.edited) range)
            → Applied units self.old.edited
            (record { range = Some range; text = chars text.now }) self.new.edited) }
        ensures unchanged { OnErr result (self.new ≡ self.old) }
    {
        let current = match self.current.take() {
            None => None,
            Some(mut current) => {
                current.replace_range(start, stop, text)?;
                Some(current)
            }
        };
        self.spans.replace(start, stop, text)?;
        self.len = self.len - (stop - start) + text.len();
        self.current = current;
        self.changes = self.changes.saturating_add(1);
        Ok(())
    }

    /// Applies a change whose range, if it has one, has these two ends in the current text. After
    /// an error everything is unchanged.
    fn put_change(&mut self, ends: (usize, usize), change: &'a Change) -> Result<(), AllocError>
        requires room { length (edited_bytes self.old.edited) + string_len change.now.text
            ≤ MAX_TEXT }
        requires ends { (units : ℕ → ℕ)
            × AreEndsIn units (edited_text self.old.edited) (content_change change.now) ends }
        ensures applied { OnOk result ((units : ℕ → ℕ)
            → AreEndsIn units (edited_text self.old.edited) (content_change change.now) ends
            → Applied units self.old.edited (content_change change.now) self.new.edited) }
        ensures unchanged { OnErr result (self.new ≡ self.old) }
    {
        match change.range {
            None => self.apply_to_all(&change.text)?,
            Some(_) => self.put(ends.0, ends.1, &change.text)?,
        }
        Ok(())
    }

    /// Applies a change to the current text (LSP 3.17, TextDocumentContentChangeEvent).
    ///
    /// After an error everything is unchanged, and the fault reports how many changes were applied
    /// before. Costs a walk over the spans from the last change to this one, and one move of those
    /// after it. From the second change with a range on, it also costs what
    /// [`lsp_buffer::TextBuffer::replace_range`] costs in the current text. The second of them
    /// makes that text, if it isn't there yet, by two copies.
    pub fn apply(&mut self, encoding: Encoding, change: &'a Change) -> Result<(), EditFault>
        requires { length (edited_bytes self.old.edited) + string_len change.now.text ≤ MAX_TEXT }
        ensures applied { OnOk result (Applied (units_in encoding) self.old.edited
            (content_change change.now) self.new.edited) }
        ensures unchanged { OnErr result (self.new ≡ self.old) }
        ensures error { IfErr result (λ fault. IsFaultOfChange self.old.edited.changes
            (items_after (units_in encoding) self.old.edited.before self.old.edited.items
            (content_change change.now)) fault) }
        // Before the first change a range is resolved without memory.
        ensures memory { result ≡ Err NoMemory → self.old.edited.changes ≡ 0
            → IsOk (items_after (units_in encoding) self.old.edited.before self.old.edited.items
            (content_change change.now)) }
    {
        let ends = self.places(encoding, change)?;
        self.put_change(ends, change)?;
        Ok(())
    }
}
