//! The client, and the calls of its lifecycle.
//!
//! The definitions count in UTF-16 where nothing is agreed on. No call reaches that.

ghost use Rattle.std.specs.Prelude.{◌≡◌, IfErr, IfOk, OnErr, option_map};
ghost use Rattle.lsp_client.specs.Step.{new_client, call_result, starts, shuts_down, exits};
ghost use Rattle.lsp_client.specs.Seen.{IsSent, IsFaultOf};

use crate::agreed::Agreed;
use crate::fault::ClientFault;
use crate::phase::Phase;
use lsp_frame::Limits;
use lsp_message::{Offers, Outgoing, message_frame};
use lsp_store::Store;
use lsp_text::Encoding;
use std::alloc::Global;
use std::fmt;
use std::marker::Model;

/// The id of a client's request `initialize`.
pub const INITIALIZE_ID: i64 = 1;

/// The id of a client's request `shutdown`.
pub const SHUTDOWN_ID: i64 = 2;

/// The client's end of one session (LSP 3.17, Lifecycle Messages, Text Document Synchronization).
/// Clauses see its limits, the encodings that it offers, its phase, what was agreed on, and the
/// open documents.
#[derive(Drop)]
pub struct Client {
    pub(crate) alloc: Global,
    pub(crate) offers: Offers,
    pub(crate) phase: Phase,
    pub(crate) agreed: Option<Agreed>,
    pub(crate) store: Store,
}

impl Model for Client {
    ghost use Rattle.lsp_client.specs.Step.{ClientData};

    ghost Value = { ClientData };

    ghost view = { λ s. record {
      limits = s.store.limits;
      offers = s.offers;
      phase = s.phase;
      agreed = s.agreed;
      table = s.store.table;
    } };
}

/// Shows all that clauses see.
impl fmt::Debug for Client {
    fn fmt<W: fmt::Write>(&self, f: &mut fmt::Formatter<W>) -> fmt::Result {
        f.debug_struct("Client")
            .field("offers", &self.offers)
            .field("phase", &self.phase)
            .field("agreed", &self.agreed)
            .field("store", &self.store)
            .finish_non_exhaustive()
    }
}

impl Client {
    /// Returns a client in phase New, with no open document. Takes no memory.
    pub fn new(alloc: Global, limits: Limits, offers: Offers) -> Client
        ensures { result ≡ new_client limits offers }
    {
        Client {
            alloc,
            offers,
            phase: Phase::New,
            agreed: None,
            store: Store::new(alloc, limits),
        }
    }

    /// Returns the phase of the session.
    pub fn phase(&self) -> Phase
        ensures { result ≡ self.now.phase }
    {
        self.phase
    }

    /// Returns a reference to the open documents.
    pub fn store(&self) -> &Store
        ensures { result.now ≡ record { limits = self.now.limits; table = self.now.table } }
    {
        &self.store
    }

    /// Returns the encoding of positions (LSP 3.17, PositionEncodingKind). There is none before
    /// phase Ready.
    pub fn encoding(&self) -> Option<Encoding>
        ensures { result ≡ option_map (λ agreed. agreed.encoding) self.now.agreed }
    {
        self.agreed.map(|agreed| agreed.encoding)
    }

    /// Begins the session, and returns the frame of `initialize` (LSP 3.17, Initialize Request).
    /// Its id is [`INITIALIZE_ID`], and it names the encodings that the client offers.
    ///
    /// In phase New, which becomes Asked; else [`ClientFault::WrongPhase`]. Costs the message's
    /// bytes.
    pub fn start(&mut self) -> Result<Vec<u8>, ClientFault>
        ensures ok { IfOk result (λ frame.
            IsSent (call_result self.old starts) frame.items self.new) }
        ensures unchanged { OnErr result (self.new ≡ self.old) }
        ensures error { IfErr result (IsFaultOf (call_result self.old starts)) }
    {
        match self.phase {
            Phase::New => {
                let frame = message_frame(self.alloc, &Outgoing::Initialize(self.offers))?;
                self.phase = Phase::Asked;
                Ok(frame)
            }
            phase => Err(ClientFault::WrongPhase { phase }),
        }
    }

    /// Asks the server to shut down, and returns the frame of `shutdown` (LSP 3.17, Shutdown
    /// Request). Its id is [`SHUTDOWN_ID`].
    ///
    /// In phase Ready, which becomes Closing; else [`ClientFault::WrongPhase`]. The documents stay
    /// open. Costs the message's bytes.
    pub fn shutdown(&mut self) -> Result<Vec<u8>, ClientFault>
        ensures ok { IfOk result (λ frame.
            IsSent (call_result self.old shuts_down) frame.items self.new) }
        ensures unchanged { OnErr result (self.new ≡ self.old) }
        ensures error { IfErr result (IsFaultOf (call_result self.old shuts_down)) }
    {
        match self.phase {
            Phase::Ready => {
                let frame = message_frame(self.alloc, &Outgoing::Shutdown)?;
                self.phase = Phase::Closing;
                Ok(frame)
            }
            phase => Err(ClientFault::WrongPhase { phase }),
        }
    }

    /// Ends the session, and returns the frame of `exit` (LSP 3.17, Exit Notification).
    ///
    /// In phase Closed, which becomes Done; else [`ClientFault::WrongPhase`]. Costs the message's
    /// bytes.
    pub fn exit(&mut self) -> Result<Vec<u8>, ClientFault>
        ensures ok { IfOk result (λ frame.
            IsSent (call_result self.old exits) frame.items self.new) }
        ensures unchanged { OnErr result (self.new ≡ self.old) }
        ensures error { IfErr result (IsFaultOf (call_result self.old exits)) }
    {
        match self.phase {
            Phase::Closed => {
                let frame = message_frame(self.alloc, &Outgoing::Exit)?;
                self.phase = Phase::Done;
                Ok(frame)
            }
            phase => Err(ClientFault::WrongPhase { phase }),
        }
    }
}
