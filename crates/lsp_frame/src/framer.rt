//! `Framer`, which reads the frames of a stream that comes in pieces.

ghost use Rattle.std.specs.Prelude.{◌≡◌, ◌+◌, ◌<◌, ◌≤◌, ◌↔◌, ℕ, List, true, false, [], ◌++◌, length, take, Ok, Err, IfOk, IfErr, OnOk, IsTrue, IsErrOf, MatchOption};
ghost use Rattle.lsp_frame.specs.Frame.{IsFrameOf, HasNoFrame, IsHopeless};
ghost use Rattle.lsp_frame.specs.Faults.{IsDecided, place_after};
ghost use Rattle.lsp_frame.specs.Stream.{IsFrame, IsPart, HoldsOne, IsFeedFault, released};

pub(crate) mod header;
pub(crate) mod notes;
pub(crate) mod shape;
pub(crate) mod stage;
pub(crate) mod words;

use crate::fault::FrameFault;
use crate::framer::header::Header;
use crate::framer::stage::{Stage, take_piece};
use crate::limits::Limits;
use std::alloc::Global;
use std::marker::Model;

/// Takes a stream apart into its frames, in whatever pieces it comes (LSP 3.17, Base Protocol,
/// Header Part).
///
/// It buffers at most one frame: no more than 8,192 bytes and those of `max_body`. The memory that
/// it takes for them may be twice that. Clauses see how many bytes were released or skipped, the
/// buffered bytes, whether a fault was found, and the limits.
#[derive(Debug, Drop)]
pub struct Framer {
    limits: Limits,
    place: u64,
    buffered: Vec<u8>,
    stage: Stage,
}

impl Model for Framer {
    ghost use Rattle.lsp_frame.specs.Stream.{FramerData, has_failed};

    ghost Value = { FramerData };

    ghost use Rattle.std.specs.Prelude.{◌≤◌};
    ghost use Rattle.lsp_frame.specs.inside.Stage.{IsAtStage};

    ghost view = { λ f.
        record {
          place = f.place;
          buffered = f.buffered.items;
          failed = has_failed f.stage;
          limits = f.limits;
        } };

    ghost invariant = { λ f. IsAtStage f.limits.max_body f.buffered.items f.stage };
}

impl Framer {
    /// Makes a framer at the start of a stream, with no byte buffered.
    pub fn new(alloc: Global, limits: Limits) -> Framer
        ensures { result ≡ record { place = 0; buffered = []; failed = false; limits = limits } }
    {
        Framer {
            limits,
            place: 0,
            buffered: Vec::new(alloc),
            stage: Stage::Header(Header::new()),
        }
    }

    /// Takes bytes of the next piece of the stream: all of them, or those up to the end of one
    /// frame. Returns how many. While a whole frame is buffered it takes none.
    ///
    /// A fault of F1 to F7 ends the stream, and every later call returns `Failed`. Out of memory
    /// changes nothing. Linear in the bytes taken, however the stream is cut.
    pub fn feed(&mut self, piece: &[u8]) -> Result<usize, FrameFault>
        // The buffered bytes are those of before and then the first bytes of the piece.
        ensures taken { IfOk result (λ k. k ≤ length piece.now) }
        ensures buffered { IfOk result
            (λ k. self.new ≡ record self.old { buffered = self.old.buffered ++ take k piece.now }) }

        // Bytes of the piece are left only after a whole frame, and no more than one frame is
        // buffered.
        ensures stops { IfOk result (λ k. k < length piece.now →
            IsFrame self.new.limits.max_body self.new.buffered) }
        ensures part { OnOk result (IsPart self.new.limits.max_body self.new.buffered) }
        ensures one { OnOk result (HoldsOne self.new.limits.max_body self.new.buffered) }
        ensures bound { length self.new.buffered ≤ 8192 + self.new.limits.max_body }

        // Which fault it is, the byte on which it was decided, and that no frame can come any more.
        ensures error { IfErr result (IsFeedFault self.old self.new piece.now) }
        ensures failed { IsErrOf result FrameFault.Failed ↔ (self.old.failed ≡ true) }

        // Two cases that take no memory: a whole frame is buffered, or the piece is empty.
        ensures whole { self.old.failed ≡ false →
            IsFrame self.old.limits.max_body self.old.buffered → result ≡ Ok 0 }
        ensures empty { self.old.failed ≡ false → length piece.now ≡ 0 → result ≡ Ok 0 }
    {
        if let Stage::Failed = self.stage {
            return Err(FrameFault::Failed);
        }
        let max_body = self.limits.max_body();
        let taken = match take_piece(&mut self.buffered, &mut self.stage, piece, max_body) {
            Ok(taken) => taken,
            Err(stop) => return Err(stop.in_stream(self.place)),
        };
        Ok(taken)
    }

    /// Returns the body of the buffered frame, once the frame is whole.
    pub fn body(&self) -> Option<&[u8]>
        ensures { MatchOption result
            (self.now.failed ≡ false → (body : List ℕ) →
            IsFrameOf self.now.limits.max_body self.now.buffered body → ⊥)
            (λ body. (self.now.failed ≡ false)
            × IsFrameOf self.now.limits.max_body self.now.buffered body.now) }
    {
        match self.stage {
            Stage::Body { start, end } if self.buffered.len() == end => Some(
                &self.buffered[start..],
            ),
            _ => None,
        }
    }

    /// Returns all bytes of the buffered frame, header and body, once the frame is whole.
    pub fn spelling(&self) -> Option<&[u8]>
        ensures { MatchOption result
            (self.now.failed ≡ false → IsFrame self.now.limits.max_body self.now.buffered → ⊥)
            (λ bytes. (self.now.failed ≡ false) × IsFrame self.now.limits.max_body self.now.buffered
            × (bytes.now ≡ self.now.buffered)) }
    {
        match self.stage {
            Stage::Body { end, .. } if self.buffered.len() == end => Some(&self.buffered),
            _ => None,
        }
    }

    /// Releases the buffered frame, so that `feed` takes the next one. Does nothing if no whole
    /// frame is buffered.
    pub fn next(&mut self)
        ensures given { self.old.failed ≡ false →
            IsFrame self.old.limits.max_body self.old.buffered → self.new ≡ released self.old }
        ensures none { (self.old.failed ≡ false →
            IsFrame self.old.limits.max_body self.old.buffered → ⊥) → self.new ≡ self.old }
    {
        if self.is_whole() {
            self.place = self.place.saturating_add(self.buffered.len() as u64);
            self.buffered.clear();
            self.stage = Stage::Header(Header::new());
        }
    }

    fn is_whole(&self) -> bool
        ensures { IsTrue result
            ↔ ((self.now.failed ≡ false) × IsFrame self.now.limits.max_body self.now.buffered) }
    {
        self.spelling().is_some()
    }

    /// Returns whether no byte of a frame is buffered and no fault was found.
    ///
    /// Its clauses also say what is true of every framer: it buffers at most one frame, and no byte
    /// after it.
    pub fn at_rest(&self) -> bool
        ensures bound { length self.now.buffered ≤ 8192 + self.now.limits.max_body }
        ensures one { self.now.failed ≡ false →
            HoldsOne self.now.limits.max_body self.now.buffered }
        ensures part { self.now.failed ≡ false → IsPart self.now.limits.max_body self.now.buffered }
        ensures rest { IsTrue result ↔ ((self.now.buffered ≡ []) × (self.now.failed ≡ false)) }
    {
        self.buffered.is_empty() && !matches!(self.stage, Stage::Failed)
    }

    /// Skips `n` bytes of the stream that belong to no frame, so that later offsets include them.
    /// The framer is at rest ([`Framer::at_rest`]).
    pub fn skip(&mut self, n: u64)
        requires nothing_buffered { self.old.buffered ≡ [] }
        requires sound { self.old.failed ≡ false }
        ensures { self.new ≡ record self.old { place = place_after self.old.place n } }
    {
        self.place = self.place.saturating_add(n);
    }
}
