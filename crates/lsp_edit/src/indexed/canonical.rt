//! The canonical batch of changes, and of text edits.

ghost use Rattle.std.specs.Prelude.{◌≡◌, ◌≤◌, Err, IfErr, IfOk, IsOk, length, map, string_len, sum_by};
ghost use Rattle.std.specs.Str.{chars};
ghost use Rattle.lsp_text.specs.Units.{units_in};
ghost use Rattle.lsp_edit.specs.Edited.{content_change};
ghost use Rattle.lsp_edit.specs.Indexed.{IsCanonicalBatch, IsBatchFaultOf};
ghost use Rattle.lsp_edit.specs.TextEdits.{IsBatchOfEdits, IsEditsFault, located};
ghost use Rattle.lsp_edit.specs.declared.text_edits.TextEditFault.TheVariants as edits_fault;

use crate::change::{Change, MAX_NEW_TEXT};
use crate::composed::MAX_OLD_TEXT;
use crate::indexed::IndexedText;
use crate::indexed::fault::BatchFault;
use crate::pieces::canonical::canonical_of;
use crate::text_edits::{TextEdit, TextEditFault, decided_fault, spans_of_edits};
use lsp_text::Encoding;

impl IndexedText {
    /// Returns the canonical batch of what a batch means on the text. It has one change for each
    /// changed gap between kept characters, from the last gap to the first.
    ///
    /// Has the errors of [`IndexedText::change`], and changes nothing. Costs what
    /// [`IndexedText::delta`] and [`crate::Delta::canonical`] cost.
    pub fn canonical(
        &self,
        encoding: Encoding,
        changes: &[Change],
        max_len: usize,
    ) -> Result<Vec<Change>, BatchFault>
        requires size { length self.now ≤ MAX_OLD_TEXT }
        requires fits { sum_by (λ change. string_len change.text) changes.now ≤ MAX_NEW_TEXT }
        ensures batch { IfOk result
            (λ batch. IsCanonicalBatch (units_in encoding) max_len self.now
            (map content_change changes.now) (map content_change batch.items)) }
        ensures error { IfErr result (IsBatchFaultOf (units_in encoding) max_len self.now
            (map content_change changes.now)) }
    {
        // States that the text is UTF-8.
        let _ = self.len();
        let alloc = *self.allocator();
        // `?` isn't proved here.
        match self.delta(encoding, changes, max_len) {
            Ok(delta) => Ok(delta.canonical(alloc, self)?),
            Err(fault) => Err(fault),
        }
    }

    /// Returns the canonical batch of what text edits mean (LSP 3.17, TextEdit[]). All their ranges
    /// count in the current text, and insertions at one offset come in the order of the list.
    ///
    /// An error reports an edit with a faulty range, two edits that overlap, or out of memory; a
    /// faulty range also where memory runs out. Costs each edit's two positions, a stable sort by
    /// their starts, and one exact position for each end of a changed gap.
    pub fn batch_of_edits(
        &self,
        encoding: Encoding,
        edits: &[TextEdit],
    ) -> Result<Vec<Change>, TextEditFault>
        ensures batch { IfOk result (λ batch.
            IsBatchOfEdits (units_in encoding) self.now edits.now
            (map content_change batch.items)) }
        ensures error { IfErr result (λ fault.
            IsEditsFault (units_in encoding) (chars self.now) edits.now fault) }
        // Where memory runs out, no range is faulty.
        ensures memory { result ≡ Err edits_fault.NoMemory
            → IsOk (located (units_in encoding) (chars self.now) 0 edits.now) }
    {
        let alloc = *self.allocator();
        let text = self.text();
        let spans = match spans_of_edits(alloc, text, encoding, edits) {
            Ok(spans) => spans,
            Err(fault) => return Err(decided_fault(text, encoding, edits, fault)),
        };
        Ok(canonical_of(alloc, text, &spans, encoding)?)
    }
}
