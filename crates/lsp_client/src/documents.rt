//! The calls on the open documents.

ghost use Rattle.std.specs.Prelude.{◌≡◌, IfErr, IfOk, OnErr, Some, Err};
ghost use Rattle.lsp_message.specs.declared.outgoing.Outgoing.TheVariants.{DidOpen};
ghost use Rattle.lsp_message.specs.declared.params.OpenParams.{OpenParams};
ghost use Rattle.lsp_store.specs.declared.fault.StoreFault.TheVariants as store_faults;
ghost use Rattle.lsp_client.specs.declared.fault.ClientFault.TheVariants.{NoMemory};
ghost use Rattle.lsp_client.specs.Step.{agreement, call_result, orders, closes};
ghost use Rattle.lsp_client.specs.Seen.{IsLeftToMessage, IsSent, IsFaultOf, OrderMayAllocate, open_order, edit_order};
ghost use Rattle.lsp_client.specs.inside.Orders.{IsOrderFault, order_result};

use crate::agreed::Agreed;
use crate::client::Client;
use crate::fault::ClientFault;
use crate::framed::message_frame_within;
use crate::phase::Phase;
use lsp_edit::Change;
use lsp_message::{CloseParams, OpenParams, Outgoing, SyncKind};
use lsp_store::{StoreFault, change_frame};
use lsp_text::Encoding;

impl Client {
    /// Opens a document, and returns the frame of `textDocument/didOpen` (LSP 3.17,
    /// DidOpenTextDocument).
    ///
    /// In phase Ready; else [`ClientFault::WrongPhase`]. Refuses as
    /// [`Store::open`](lsp_store::Store::open), then with
    /// [`StoreFault::BodyTooLong`](lsp_store::StoreFault::BodyTooLong). The texts are moved in, and
    /// copied into the message and its frame. Costs what `Store::open` costs, and the message's
    /// bytes.
    pub fn open(
        &mut self,
        uri: String,
        language: String,
        version: i32,
        text: String,
    ) -> Result<Vec<u8>, ClientFault>
        ensures ok { IfOk result (λ frame.
            IsSent (call_result self.old (orders (open_order uri language version text)))
            frame.items self.new) }
        ensures unchanged { OnErr result (self.new ≡ self.old) }
        ensures error { IfErr result
            (IsFaultOf (call_result self.old (orders (open_order uri language version text)))) }
        ensures memory { result ≡ Err NoMemory
            → OrderMayAllocate self.old (open_order uri language version text) }
    {
        match self.phase {
            Phase::Ready => Ok(self.send_open(uri, language, version, text)?),
            phase => Err(ClientFault::WrongPhase { phase }),
        }
    }

    fn send_open(
        &mut self,
        uri: String,
        language: String,
        version: i32,
        text: String,
    ) -> Result<Vec<u8>, StoreFault>
        ensures ok { IfOk result (λ frame.
            IsSent (order_result self.old (open_order uri language version text))
            frame.items self.new) }
        ensures unchanged { OnErr result (self.new ≡ self.old) }
        ensures error { IfErr result
            (IsOrderFault self.old (open_order uri language version text)) }
        ensures memory { result ≡ Err store_faults.NoMemory
            → IsLeftToMessage self.old (open_order uri language version text) }
    {
        self.store.check_open(&uri, &text)?;
        let message = Outgoing::DidOpen(OpenParams {
            uri,
            language,
            version,
            text,
        });
        let frame = message_frame_within(self.alloc, &self.store.limits(), &message)?;
        let Some(params) = open_params(message) else {
            unreachable!()
        };
        self.store
            .open(params.uri, params.language, params.version, params.text)?;
        Ok(frame)
    }

    /// Changes a document, and returns the frame of one `textDocument/didChange` (LSP 3.17,
    /// DidChangeTextDocument). It has the canonical batch. Where the server asked for whole texts,
    /// it has one change without a range, with the document's new text. Positions are in the
    /// encoding that was agreed on.
    ///
    /// In phase Ready; else [`ClientFault::WrongPhase`]. Refuses as
    /// [`Store::change`](lsp_store::Store::change), then with
    /// [`StoreFault::BodyTooLong`](lsp_store::StoreFault::BodyTooLong).
    ///
    /// The batch is resolved once. Costs what `Store::change` and
    /// [`Store::planned_message`](lsp_store::Store::planned_message) cost. For whole texts it costs
    /// `Store::change`, one copy of the text, and the message's bytes.
    pub fn edit(
        &mut self,
        uri: &str,
        version: i32,
        changes: &[Change],
    ) -> Result<Vec<u8>, ClientFault>
        ensures ok { IfOk result (λ frame.
            IsSent (call_result self.old (orders (edit_order uri.now version changes.now)))
            frame.items self.new) }
        ensures unchanged { OnErr result (self.new ≡ self.old) }
        ensures error { IfErr result
            (IsFaultOf (call_result self.old (orders (edit_order uri.now version changes.now)))) }
        ensures memory { result ≡ Err NoMemory
            → OrderMayAllocate self.old (edit_order uri.now version changes.now) }
    {
        match self.phase {
            Phase::Ready => Ok(self.send_edit(uri, version, changes)?),
            phase => Err(ClientFault::WrongPhase { phase }),
        }
    }

    fn send_edit(
        &mut self,
        uri: &str,
        version: i32,
        changes: &[Change],
    ) -> Result<Vec<u8>, StoreFault>
        ensures ok { IfOk result (λ frame.
            IsSent (order_result self.old (edit_order uri.now version changes.now))
            frame.items self.new) }
        ensures unchanged { OnErr result (self.new ≡ self.old) }
        ensures error { IfErr result
            (IsOrderFault self.old (edit_order uri.now version changes.now)) }
        ensures memory { result ≡ Err store_faults.NoMemory
            → IsLeftToMessage self.old (edit_order uri.now version changes.now) }
    {
        let agreed = self.agreement();
        let plan = self.store.plan(uri, version, agreed.encoding, changes)?;
        let frame = match agreed.kind {
            SyncKind::Full => {
                let text = self.store.planned_text(&plan)?;
                let changes = vec![in self.alloc; Change { range: None, text }]?;
                change_frame(self.alloc, &self.store.limits(), uri, version, changes)?
            }
            // Off never comes here: a session with such a server has failed.
            SyncKind::Incremental | SyncKind::Off => self.store.planned_message(&plan)?,
        };
        self.store.apply(plan)?;
        Ok(frame)
    }

    /// Closes a document, and returns the frame of `textDocument/didClose` (LSP 3.17,
    /// DidCloseTextDocument).
    ///
    /// In phase Ready; else [`ClientFault::WrongPhase`]. Refuses with
    /// [`StoreFault::NotOpen`](lsp_store::StoreFault::NotOpen), then with
    /// [`StoreFault::BodyTooLong`](lsp_store::StoreFault::BodyTooLong). Costs what
    /// [`Store::close`](lsp_store::Store::close) costs, and the message's bytes.
    pub fn close(&mut self, uri: &str) -> Result<Vec<u8>, ClientFault>
        ensures ok { IfOk result (λ frame.
            IsSent (call_result self.old (orders (closes uri.now))) frame.items self.new) }
        ensures unchanged { OnErr result (self.new ≡ self.old) }
        ensures error { IfErr result (IsFaultOf (call_result self.old (orders (closes uri.now)))) }
        ensures memory { result ≡ Err NoMemory → OrderMayAllocate self.old (closes uri.now) }
    {
        match self.phase {
            Phase::Ready => Ok(self.send_close(uri)?),
            phase => Err(ClientFault::WrongPhase { phase }),
        }
    }

    fn send_close(&mut self, uri: &str) -> Result<Vec<u8>, StoreFault>
        ensures ok { IfOk result (λ frame.
            IsSent (order_result self.old (closes uri.now)) frame.items self.new) }
        ensures unchanged { OnErr result (self.new ≡ self.old) }
        ensures error { IfErr result (IsOrderFault self.old (closes uri.now)) }
        ensures memory { result ≡ Err store_faults.NoMemory
            → IsLeftToMessage self.old (closes uri.now) }
    {
        let Some(_) = self.store.get(uri) else {
            return Err(StoreFault::NotOpen);
        };
        let message = Outgoing::DidClose(CloseParams {
            uri: String::from_str(self.alloc, uri)?,
        });
        let frame = message_frame_within(self.alloc, &self.store.limits(), &message)?;
        self.store.close(uri)?;
        Ok(frame)
    }

    /// Returns what was agreed on; before phase Ready the protocol's default.
    fn agreement(&self) -> Agreed
        ensures { result ≡ agreement self.now }
    {
        self.agreed.unwrap_or(Agreed {
            encoding: Encoding::Utf16,
            kind: SyncKind::Incremental,
        })
    }
}

/// Returns the params of a message that opens a document.
fn open_params(message: Outgoing) -> Option<OpenParams>
    ensures { (params : OpenParams) → message ≡ DidOpen params → result ≡ Some params }
{
    match message {
        Outgoing::DidOpen(params) => Some(params),
        _ => None,
    }
}
