//! The stream that a server or a client takes its messages from.

ghost use Rattle.std.specs.Prelude.{◌≡◌, ◌≢◌, MatchOption, false, true};
ghost use Rattle.laspidru.specs.Framers.{HasNoBody, IsBodyAnswer, IsBodyOf, IsFedTo, IsNext};
ghost use Rattle.laspidru.specs.Streams.{stream_of};

use crate::codes::OK;
use crate::framer::copy_body;
use crate::taken::{Taken, feed, nothing};
use lsp_frame::{Framer, Limits};
use std::alloc::Global;

/// The stream that an end takes its messages from: a framer, and whether the message that it has
/// buffered was handled.
#[derive(Drop)]
pub struct Stream {
    framing: Framer,
    is_handled: bool,
}

impl Stream {
    /// Returns a stream at its start.
    pub(crate) fn new(alloc: Global, limits: Limits) -> Stream
        ensures { result ≡ stream_of limits }
    {
        Stream {
            framing: Framer::new(alloc, limits),
            is_handled: false,
        }
    }

    /// Releases the message that was handled.
    #[tactic(auto, using(crate::proofs::Pieces::released_next, crate::proofs::Pieces::kept_next))]
    fn release(&mut self)
        ensures next { IsNext self.old.is_handled self.old.framing self.new.framing }
        ensures unhandled { self.new.is_handled ≡ false }
    {
        if self.is_handled {
            self.framing.next();
            self.is_handled = false;
        }
    }

    /// Feeds a piece, after the message that was handled.
    #[tactic(auto, using(crate::proofs::Pieces::fed_to))]
    pub(crate) fn feed(&mut self, piece: &[u8], out: &mut Taken) -> u32
        ensures { IsFedTo self.old piece.now result self.new out.new }
    {
        *out = nothing();
        self.release();
        feed(&mut self.framing, piece, out)
    }

    /// Returns the body of the buffered message, once it is whole.
    pub(crate) fn body(&self) -> Option<&[u8]>
        ensures { MatchOption result (HasNoBody self.now.framing)
            (λ body. IsBodyOf self.now.framing body.now) }
    {
        self.framing.body()
    }

    /// Copies the body of the buffered message.
    pub(crate) fn copy_body(&self, start: usize, out: &mut [u8], copied: &mut usize) -> u32
        ensures answer { IsBodyAnswer self.now.framing start result out.old out.new copied.new }
        ensures unchanged { result ≢ OK → (out.new ≡ out.old) × (copied.new ≡ copied.old) }
    {
        copy_body(&self.framing, start, out, copied)
    }

    /// Notes that the buffered message was handled, so that the next piece comes after it.
    pub(crate) fn note_handled(&mut self)
        ensures { self.new ≡ record self.old { is_handled = true } }
    {
        self.is_handled = true;
    }
}
