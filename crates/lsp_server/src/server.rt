//! The server's end of a session: one body in, one answer out.
//!
//! The definitions count in UTF-16 where nothing is agreed on. No call reaches that.

ghost use Rattle.std.specs.Prelude.{◌≡◌, ◌≢◌, ◌↔◌, IfOk, OnOk, OnErr, IsOk, IsSome, IsErrOf, IsUtf8};
ghost use Rattle.lsp_message.specs.Message.{reading};
ghost use Rattle.lsp_server.specs.declared.phase.Phase.TheVariants.{Running, Ended};
ghost use Rattle.lsp_server.specs.Step.{new_server, with_encoding, step, step_on};
ghost use Rattle.lsp_server.specs.Answer.{NeverAllocates, as_sent};
ghost use Rattle.lsp_server.specs.Seen.{answer_view, IsRefusing};
ghost use Rattle.lsp_server.specs.Calls.{IsQuietStepOf};
ghost use Rattle.lsp_message.specs.Incoming.{incoming_of};
ghost use Rattle.lsp_message.specs.Seen.{incoming_view};

mod documents;
mod lifecycle;

use crate::answer::{Answer, ServerFault};
use crate::config::{ChangeForm, Config, EncodingChoice};
use crate::phase::Phase;
use lsp_message::{ErrorCode, Incoming, Scratch};
use lsp_store::Store;
use lsp_text::Encoding;
use std::alloc::{AllocError, Global};
use std::fmt;
use std::marker::Model;

/// The server's end of one session (LSP 3.17, Lifecycle Messages, Text Document Synchronization).
/// Clauses see its configuration, its phase, the chosen encoding, and the open documents.
#[derive(Drop)]
pub struct Server {
    alloc: Global,
    choice: EncodingChoice,
    sync: ChangeForm,
    phase: Phase,
    encoding: Option<Encoding>,
    store: Store,
    // Bodies are read with it; clauses don't see it.
    scratch: Scratch,
}

impl Model for Server {
    ghost use Rattle.std.specs.Prelude.{◌≡◌, IsSome};
    ghost use Rattle.lsp_server.specs.declared.phase.Phase.TheVariants.{Running};
    ghost use Rattle.lsp_server.specs.Step.{ServerData};

    ghost Value = { ServerData };

    ghost view = { λ s. record {
      config = record { limits = s.store.limits; choice = s.choice; sync = s.sync };
      phase = s.phase;
      encoding = s.encoding;
      table = s.store.table;
    } };

    ghost invariant = { λ s. s.phase ≡ Running → IsSome s.encoding };
}

/// Shows all that clauses see.
impl fmt::Debug for Server {
    fn fmt<W: fmt::Write>(&self, f: &mut fmt::Formatter<W>) -> fmt::Result {
        f.debug_struct("Server")
            .field("choice", &self.choice)
            .field("sync", &self.sync)
            .field("phase", &self.phase)
            .field("encoding", &self.encoding)
            .field("store", &self.store)
            .finish_non_exhaustive()
    }
}

impl Server {
    /// Returns a server in phase New, with no open document. Takes no memory.
    pub fn new(alloc: Global, config: Config) -> Server
        ensures { result ≡ new_server config }
    {
        let Config {
            limits,
            choice,
            sync,
        } = config;
        Server {
            alloc,
            choice,
            sync,
            phase: Phase::New,
            encoding: None,
            store: Store::new(alloc, limits),
            scratch: Scratch::new(alloc),
        }
    }

    /// Returns the phase of the session.
    pub fn phase(&self) -> Phase
        ensures { result ≡ self.now.phase }
    {
        self.phase
    }

    /// Returns a reference to the open documents. Only document notifications and plans change
    /// them.
    pub fn store(&self) -> &Store
        ensures { result.now ≡ record { limits = self.now.config.limits; table = self.now.table } }
    {
        &self.store
    }

    /// Returns the encoding of positions (LSP 3.17, PositionEncodingKind). There is none before an
    /// accepted `initialize`; in phase Running there is one.
    pub fn encoding(&self) -> Option<Encoding>
        ensures value { result ≡ self.now.encoding }
        ensures running { self.now.phase ≡ Running → IsSome result }
    {
        self.encoding
    }

    /// Handles the body of one frame, and returns the answer of the table of steps
    /// (`specs/Step.antt`):
    ///
    /// | Phase | Body | Answer |
    /// |---|---|---|
    /// | all but Ended | no JSON | a reply -32700 without an id |
    /// | all but Ended | JSON and no message | a reply -32600, with the id if one is found |
    /// | all but Ended | a response | ignored |
    /// | Down | notification `exit` | exit with status 0; now Ended |
    /// | New, Running | notification `exit` | exit with status 1; now Ended |
    /// | New | request `initialize` with faulty params | a reply -32602 |
    /// | New | request `initialize` | the encoding that is chosen; now Running |
    /// | New | another request | a reply -32002 |
    /// | New | another notification | dropped |
    /// | Running | request `initialize` | a reply -32600 |
    /// | Running | request `shutdown` | a result; now Down |
    /// | Running | another request | a reply -32601 |
    /// | Running | `textDocument/didOpen`, `didChange`, `didClose` | changed, or refused |
    /// | Running | another notification | ignored |
    /// | Down | a request | a reply -32600 |
    /// | Down | another notification | dropped |
    ///
    /// The first row that fits counts. Nothing changes but what the table names. After
    /// [`ServerFault::NoMemory`] the server is unchanged, and a caller can pass the same body
    /// again. [`ServerFault::AlreadyEnded`] comes in phase Ended, and only there.
    ///
    /// Costs one parse of the body, whose texts are moved into the store; then what the command
    /// costs there, or the reply's bytes.
    pub fn handle(&mut self, body: &[u8]) -> Result<Answer, ServerFault>
        ensures answer { IfOk result
            (λ a. answer_view a ≡ as_sent (step self.old (reading body.now)).answer) }
        ensures state { OnOk result (self.new ≡ (step self.old (reading body.now)).state) }
        // A message that isn't obeyed changes nothing.
        ensures refused { IfOk result (λ a. IsRefusing a → self.new ≡ self.old) }
        ensures unchanged { OnErr result (self.new ≡ self.old) }
        ensures ended { IsErrOf result ServerFault.AlreadyEnded ↔ (self.old.phase ≡ Ended) }
    {
        if self.phase == Phase::Ended {
            return Err(ServerFault::AlreadyEnded);
        }
        let incoming = self.read(body)?;
        Ok(self.step(incoming)?)
    }

    /// Reads what a body asks, for a program that reads it before
    /// [`handle_incoming`](Server::handle_incoming). Nothing changes. Fails only where memory runs
    /// out.
    ///
    /// The result is that of [`Incoming::read`]. It is quicker from the second body on. The server
    /// keeps the reader's 16 KB, and the memory for texts of a body of up to 64 KB.
    pub fn read(&mut self, body: &[u8]) -> Result<Incoming, AllocError>
        ensures incoming { IfOk result (λ m. incoming_view m ≡ incoming_of (reading body.now)) }
        ensures unchanged { self.new ≡ self.old }
        ensures memory { OnErr result (IsUtf8 body.now) }
    {
        Incoming::read_with(self.alloc, body, &mut self.scratch)
    }

    /// Handles what a body asks, for a program that read it before, by [`read`](Server::read) or
    /// [`Incoming::read`].
    ///
    /// Returns what [`handle`](Server::handle) returns for that body, with the same faults. It
    /// consumes what was read, so after [`ServerFault::NoMemory`] the body has to be read again.
    /// Nothing is parsed: costs a reply's bytes, or what the command costs in the store.
    pub fn handle_incoming(&mut self, incoming: Incoming) -> Result<Answer, ServerFault>
        ensures answer { IfOk result
            (λ a. answer_view a ≡ as_sent (step_on self.old (incoming_view incoming)).answer) }
        ensures state { OnOk result (self.new ≡ (step_on self.old (incoming_view incoming)).state) }
        ensures refused { IfOk result (λ a. IsRefusing a → self.new ≡ self.old) }
        ensures unchanged { OnErr result (self.new ≡ self.old) }
        // Only a reply, and a document that is opened or changed, take memory.
        ensures quiet { NeverAllocates (step_on self.old (incoming_view incoming)).answer
            → IsOk result }
        ensures ended { IsErrOf result ServerFault.AlreadyEnded ↔ (self.old.phase ≡ Ended) }
    {
        if self.phase == Phase::Ended {
            return Err(ServerFault::AlreadyEnded);
        }
        Ok(self.step(incoming)?)
    }

    fn step(&mut self, incoming: Incoming) -> Result<Answer, AllocError>
        requires { self.old.phase ≢ Ended }
        ensures { IsQuietStepOf (step_on self.old (incoming_view incoming)) result
            self.old self.new }
    {
        match incoming {
            Incoming::NotJson => self.fail(None, ErrorCode::ParseError),
            Incoming::NotAMessage { id } => self.fail(id, ErrorCode::InvalidRequest),
            Incoming::Response { .. } => Ok(Answer::Ignored),
            Incoming::Initialize { id, offers } => self.initialize(id, offers),
            Incoming::Shutdown { id } => self.shutdown(id),
            Incoming::OtherRequest { id, .. } => self.other_request(id),
            Incoming::Exit => Ok(self.exit()),
            Incoming::DidOpen(params) => self.did_open(params),
            Incoming::DidChange(params) => self.did_change(params),
            Incoming::DidClose(params) => self.did_close(params),
            Incoming::OtherNotification { .. } => Ok(self.other_notification()),
        }
    }

    /// Sets the encoding of changes (LSP 3.17, PositionEncodingKind), whichever was chosen: for a
    /// log that names another server's choice.
    ///
    /// Before an accepted `initialize` it does nothing. Takes no memory.
    pub fn settle(&mut self, encoding: Encoding)
        ensures { self.new ≡ with_encoding self.old encoding }
    {
        if self.encoding.is_some() {
            self.encoding = Some(encoding);
        }
    }
}
