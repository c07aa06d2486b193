//! `Joined`, batches of changes on a text, one after another, as one.
//!
//! Batches are joined before a new one is added, so a join that fails leaves all as it was.

ghost use Rattle.std.specs.Prelude.{ℕ, ◌≡◌, List, IfOk, Ok, OnErr, OnOk, map};
ghost use Rattle.std.specs.Str.{chars};
ghost use Rattle.lsp_text.specs.Units.{units_in};
ghost use Rattle.lsp_edit.specs.Batch.{ContentChange, meaning};
ghost use Rattle.lsp_edit.specs.Canonical.{canonical};
ghost use Rattle.lsp_edit.specs.Edited.{content_change};
ghost use Rattle.lsp_edit.specs.Indexed.{text_within};
ghost use Rattle.lsp_edit.specs.Items.{plain};
ghost use Rattle.lsp_edit.specs.Joined.{IsJoined, IsReached};
ghost use Rattle.lsp_edit.specs.Delta.{IsOn, bytes_after, meant_by};

pub(crate) mod layer;

use crate::change::Change;
use crate::delta::Delta;
use crate::indexed::IndexedText;
use crate::joined::layer::Layer;
use crate::pieces::canonical::canonical_of;
use crate::pieces::span::whole;
use crate::pieces::through::spans_through;
use lsp_text::Encoding;
use std::alloc::{AllocError, Global};
use std::marker::Model;

/// Batches of changes on a text, one after another, and their result as one.
///
/// It keeps the text before them, and layers, each over the text that the one before it leaves. Two
/// neighbours of the same rank are joined, as a binary counter carries its digits. So each of k
/// batches takes part in some log k joins.
#[derive(Debug, Drop)]
pub struct Joined {
    before: IndexedText,
    layers: Vec<Layer>,
}

impl Model for Joined {
    ghost use Rattle.std.specs.Prelude.{map};
    ghost use Rattle.std.specs.Str.{chars};
    ghost use Rattle.lsp_edit.specs.Layers.{AllOver, layer_parts, items_over};
    ghost use Rattle.lsp_edit.specs.Items.{plain};
    ghost use Rattle.lsp_edit.specs.Joined.{JoinedData};

    ghost Value = { JoinedData };

    ghost view = { λ joined. record {
      before = joined.before;
      items = items_over (chars joined.before) (plain (chars joined.before))
          (map layer_parts joined.layers.items);
    } };

    ghost invariant = { λ joined.
        AllOver (chars joined.before) (plain (chars joined.before))
        (map layer_parts joined.layers.items) };
}

impl Joined {
    /// Makes a text before any batch, as a copy of this one. Fails only where memory runs out.
    /// Costs what [`IndexedText::clone_in`] costs.
    pub fn over(alloc: Global, text: &IndexedText) -> Result<Self, AllocError>
        ensures joined { IfOk result (λ joined.
            joined ≡ record { before = text.now; items = plain (chars text.now) }) }
        ensures reached { IfOk result (λ joined. IsReached joined text.now) }
    {
        let before = text.clone_in(alloc)?;
        Ok(Self::begin(alloc, before))
    }

    /// Makes a text before any batch, with its lines.
    fn begin(alloc: Global, before: IndexedText) -> Self
        ensures { result ≡ record { before = before; items = plain (chars before) } }
    {
        Joined {
            before,
            layers: Vec::new(alloc),
        }
    }

    /// Joins the last two layers, if they have the same rank. Returns whether they had.
    fn join_last(&mut self) -> Result<bool, AllocError>
        ensures { self.new ≡ self.old }
    {
        let len = self.layers.len();
        if len < 2 {
            return Ok(false);
        }
        let first = &self.layers[len - 2];
        let second = &self.layers[len - 1];
        if first.rank != second.rank {
            return Ok(false);
        }
        let both = first.then(*self.layers.allocator(), second)?;
        self.layers.truncate(len - 2);
        self.layers.push_reserved(both);
        Ok(true)
    }

    /// Joins the last two layers again and again, while they have the same rank.
    fn join(&mut self) -> Result<(), AllocError>
        ensures { self.new ≡ self.old }
    {
        for _ in 0..self.layers.len() {
            if !self.join_last()? {
                return Ok(());
            }
        }
        Ok(())
    }

    /// Adds a batch that was resolved on `reached`, the text after the batches before it.
    ///
    /// Fails only where memory runs out, and then nothing changes. Costs the delta's spans, and a
    /// copy of its new texts. Now and then there is a walk over the spans of earlier batches.
    pub fn add_delta(&mut self, reached: &IndexedText, delta: &Delta<'_>) -> Result<(), AllocError>
        requires reached { IsReached self.old reached.now }
        requires on { IsOn reached.now delta.now }
        ensures ok { OnOk result ((units : ℕ → ℕ) (batch : List ContentChange)
            → meaning units (chars reached.now) batch ≡ meant_by reached.now delta.now
            → IsJoined units self.old batch self.new) }
        ensures reached { OnOk result ((max_len : ℕ) (left : List ℕ)
            → text_within max_len reached.now (meant_by reached.now delta.now) ≡ Ok left
            → IsReached self.new left) }
        ensures unchanged { OnErr result (self.new ≡ self.old) }
    {
        self.join()?;
        let layer = delta.layer(*self.layers.allocator(), reached)?;
        self.layers.reserve(1)?;
        self.layers.push_reserved(layer);
        Ok(())
    }

    /// Adds a batch that was resolved on `reached`, as [`Joined::add_delta`] does, and applies it to
    /// `reached` too ([`IndexedText::apply`]).
    ///
    /// Fails only where memory runs out, and then nothing changes. Costs what both calls cost.
    pub fn change(&mut self, reached: &mut IndexedText, delta: Delta<'_>) -> Result<(), AllocError>
        requires reached { IsReached self.old reached.old }
        requires on { IsOn reached.old delta }
        ensures ok { OnOk result ((units : ℕ → ℕ) (batch : List ContentChange)
            → meaning units (chars reached.old) batch ≡ meant_by reached.old delta.entry
            → IsJoined units self.old batch self.new) }
        ensures reached { OnOk result ((max_len : ℕ) (left : List ℕ)
            → text_within max_len reached.old (meant_by reached.old delta.entry) ≡ Ok left
            → IsReached self.new left) }
        ensures changed { OnOk result (reached.new ≡ bytes_after reached.old delta.entry) }
        ensures unchanged { OnErr result (self.new ≡ self.old) }
        ensures reached_unchanged { OnErr result (reached.new ≡ reached.old) }
    {
        self.join()?;
        let next = delta.layer(*self.layers.allocator(), reached)?;
        self.layers.reserve(1)?;
        reached.apply(delta)?;
        self.layers.push_reserved(next);
        Ok(())
    }

    /// Returns the canonical batch of all batches. It has one change for each changed gap between
    /// kept characters of the text before them, from the last gap to the first.
    ///
    /// Fails only where memory runs out. Costs a walk over the spans for some log k layers of k
    /// batches, and one exact position for each end of a changed gap.
    pub fn canonical(&self, encoding: Encoding) -> Result<Vec<Change>, AllocError>
        ensures { IfOk result (λ changes. map content_change changes.items
            ≡ canonical (units_in encoding) (chars self.now.before) self.now.items) }
    {
        let alloc = *self.layers.allocator();
        let text = self.before.text();
        let mut spans = whole(alloc, text)?;
        for layer in &self.layers {
            let next = layer.borrowed(alloc)?;
            spans = spans_through(alloc, &spans, &next)?;
        }
        canonical_of(alloc, text, &spans, encoding)
    }
}
