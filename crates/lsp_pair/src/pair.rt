//! Both ends of a session, and the frames on the way to each.
//!
//! A pair's invariant is that it has a history: it is at the world of some events, so `Happened`
//! has no variants for a faulty frame. The world has no tables and no bytes; a queue's frames are
//! described from the server's table on. That a history is a pair's is a token, and so is that it is
//! at a world.

ghost use Rattle.std.specs.Prelude.{◌≡◌, ◌≢◌, ◌⊎◌, ◌↔◌, ◌<◌, ◌++◌, ◌∷◌, [], List, true, false, Ok, Err, IfOk, IfErr, OnOk, OnErr, length};
ghost use Rattle.std.specs.VecDeque.{deque_len, deque_capacity};
ghost use Rattle.lsp_client.specs.declared.fault.ClientFault.TheVariants.{NoMemory};
ghost use Rattle.lsp_client.specs.Seen.{IsSent, IsFaultOf};
ghost use Rattle.lsp_client.specs.Step.{call_result};
ghost use Rattle.lsp_pair.specs.Events.{Setting, EventData};
ghost use Rattle.lsp_pair.specs.Pair.{new_pair, IsFitting, IsStep, StepMayAllocate, can_choose_utf16, are_within};
ghost use Rattle.lsp_pair.specs.laws.World.{IsProperEvent};
ghost use Rattle.lsp_pair.specs.laws.At.{IsAt};
ghost use Rattle.lsp_pair.specs.inside.Ends.{IsCall, HoldsOnCall};
ghost use Rattle.lsp_pair.specs.inside.History.{IsHistory};
ghost use Rattle.lsp_pair.specs.Documents.{History, no_history, history_after, HaveDocuments};
ghost use Rattle.lsp_pair.specs.Seen.{event_view};

use crate::delivery::{hear_first, serve_first};
use crate::event::{Event, Happened};
use crate::setting::{PairFault, are_within, can_choose_utf16};
use lsp_client::{Client, ClientFault};
use lsp_frame::Limits;
use lsp_message::Offers;
use lsp_server::{Config, Server};
use std::alloc::{AllocError, Global};
use std::collections::VecDeque;
use std::fmt;
use std::marker::Model;

/// Both ends of a session, and the frames on the way to each, oldest first. Clauses see the ends
/// and the frames. Each pair is at the world of some list of events, since it comes from a new one
/// by steps.
#[derive(Drop)]
pub struct Pair {
    alloc: Global,
    client: Client,
    server: Server,
    to_server: VecDeque<Vec<u8>>,
    to_client: VecDeque<Vec<u8>>,
}

impl Model for Pair {
    ghost use Rattle.lsp_pair.specs.Pair.{PairData};
    ghost use Rattle.lsp_pair.specs.inside.History.{HasHistory};
    ghost use Rattle.lsp_pair.specs.Seen.{frames};

    ghost Value = { PairData };

    ghost view = { λ p. record {
      client = p.client;
      server = p.server;
      to_server = frames p.to_server.items;
      to_client = frames p.to_client.items;
    } };

    ghost invariant = { λ p. HasHistory (record {
      client = p.client;
      server = p.server;
      to_server = frames p.to_server.items;
      to_client = frames p.to_client.items;
    }) };
}

/// Shows all that clauses see, of the frames how many there are.
impl fmt::Debug for Pair {
    fn fmt<W: fmt::Write>(&self, f: &mut fmt::Formatter<W>) -> fmt::Result {
        f.debug_struct("Pair")
            .field("client", &self.client)
            .field("server", &self.server)
            .field("to_server", &self.to_server.len())
            .field("to_client", &self.to_client.len())
            .finish_non_exhaustive()
    }
}

impl Pair {
    /// Returns two new ends, with no frame on the way.
    ///
    /// Refuses with [`PairFault::NotUtf16`], then with [`PairFault::LimitsTooSmall`]. Takes no
    /// memory.
    pub fn new(
        alloc: Global,
        limits: Limits,
        offers: Offers,
        config: Config,
    ) -> Result<Pair, PairFault>
        ensures new { IfOk result (λ pair.
            pair ≡ new_pair (record { limits = limits; offers = offers; config = config })) }
        // The pair is at the world of no events.
        ensures at { IfOk result (λ pair.
            IsAt (record { limits = limits; offers = offers; config = config }) pair []) }
        // Its history begins: the client has sent nothing.
        ensures history { IfOk result (λ pair. IsHistory no_history pair) }
        ensures sound { OnOk result
            (IsFitting (record { limits = limits; offers = offers; config = config })) }
        ensures encoding { (result ≡ Err PairFault.NotUtf16)
            ↔ (can_choose_utf16 config.choice ≡ false) }
        // Refused where a limit of the server, in `config`, is below the client's, `limits`, or
        // where the server's are strict and the client's lenient.
        ensures limits { (result ≡ Err PairFault.LimitsTooSmall)
            ↔ ((can_choose_utf16 config.choice ≡ true)
            × (are_within limits config.limits ≡ false)) }
    {
        if !can_choose_utf16(config.choice) {
            return Err(PairFault::NotUtf16);
        }
        if !are_within(&limits, &config.limits) {
            return Err(PairFault::LimitsTooSmall);
        }
        Ok(Pair {
            alloc,
            client: Client::new(alloc, limits, offers),
            server: Server::new(alloc, config),
            to_server: VecDeque::new(alloc),
            to_client: VecDeque::new(alloc),
        })
    }

    /// Returns a reference to the client.
    pub fn client(&self) -> &Client
        ensures { result.now ≡ self.now.client }
    {
        &self.client
    }

    /// Returns a reference to the server.
    pub fn server(&self) -> &Server
        ensures { result.now ≡ self.now.server }
    {
        &self.server
    }

    /// Returns the number of messages that wait for the server, and for the client.
    pub fn waiting(&self) -> (usize, usize)
        ensures { result ≡ (length self.now.to_server, length self.now.to_client) }
    {
        (self.to_server.len(), self.to_client.len())
    }

    /// Makes one step: a call of the client, or the delivery of the first frame of a queue. What an
    /// end sends is appended to the other's queue.
    ///
    /// After [`AllocError`] the pair is unchanged, with the frame still first, and a caller can
    /// repeat the same step. Costs what the client's call costs (an open also copies its texts), or
    /// what the message costs the end that handles it, and a copy of its frame. Taking the first
    /// frame of a queue costs constant time.
    pub fn step(&mut self, event: &Event) -> Result<Happened, AllocError>
        ensures step { IfOk result (λ happened.
            IsStep self.old (event_view event.now) happened self.new) }
        ensures unchanged { OnErr result (self.new ≡ self.old) }
        // A refused call changes nothing.
        ensures refused { IfOk result (λ happened. (fault : ClientFault)
            → happened ≡ Happened.Refused fault → self.new ≡ self.old) }
        // A delivery where nothing waits takes no memory.
        ensures memory { OnErr result (StepMayAllocate self.old (event_view event.now)) }
        // A pair at the world of a list of events is afterwards at the world of the list with this
        // one added. `IsAt` need not be opened: `pair_laws` has what holds of such pairs.
        ensures at { OnOk result ((setting : Setting) (events : List EventData)
            → IsFitting setting → IsAt setting self.old events
            → IsAt setting self.new (events ++ event_view event.now ∷ [])) }
        // The server has the documents that the client had when it sent the last message that the
        // server has handled. `IsHistory` need not be opened: each pair has a history.
        ensures history { IfOk result (λ happened. (h : History) → IsHistory h self.old
            → IsHistory (history_after h happened self.new.client.table) self.new
            × HaveDocuments (history_after h happened self.new.client.table) self.new) }
    {
        match event {
            Event::ToServer => serve_first(
                self.alloc,
                &mut self.server,
                &mut self.to_server,
                &mut self.to_client,
            ),
            Event::ToClient => hear_first(
                self.alloc,
                &mut self.client,
                &mut self.to_client,
                &mut self.to_server,
            ),
            _ => {
                self.to_server.reserve(1)?;
                let sent = call(self.alloc, &mut self.client, event);
                push_call(&mut self.to_server, sent)
            }
        }
    }
}

/// Makes the call of an event.
#[tactic(auto, using(crate::proofs::Steps::EventLemmas::proper_event))]
fn call(alloc: Global, client: &mut Client, event: &Event) -> Result<Vec<u8>, ClientFault>
    requires { IsCall (event_view event.now) }
    ensures ok { IfOk result (λ bytes. HoldsOnCall (event_view event.now)
        (λ c. IsSent (call_result client.old c) bytes.items client.new)) }
    ensures unchanged { OnErr result (client.new ≡ client.old) }
    ensures error { IfErr result (λ fault. (fault ≡ NoMemory)
        ⊎ HoldsOnCall (event_view event.now) (λ c. IsFaultOf (call_result client.old c) fault)) }
    // Its numbers are in their ranges, and its texts UTF-8.
    ensures proper { IsProperEvent (event_view event.now) }
{
    match event {
        Event::Start => client.start(),
        Event::Open {
            uri,
            language,
            version,
            text,
        } => {
            let version = *version;
            client.open(uri.clone()?, language.clone()?, version, text.clone()?)
        }
        Event::Edit {
            uri,
            version,
            changes,
        } => client.edit(uri, *version, changes),
        Event::Close { uri } => client.close(uri),
        Event::Shutdown => client.shutdown(),
        Event::Exit => client.exit(),
        Event::ToServer | Event::ToClient => unreachable!(),
    }
}

/// Appends the frame of an accepted call to a queue with room.
fn push_call(
    queue: &mut VecDeque<Vec<u8>>,
    sent: Result<Vec<u8>, ClientFault>,
) -> Result<Happened, AllocError>
    requires { deque_len queue.old < deque_capacity queue.old }
    ensures sent { IfOk sent (λ bytes.
        (result ≡ Ok Happened.Sent) × (queue.new.items ≡ queue.old.items ++ bytes ∷ [])) }
    ensures refused { IfErr sent (λ fault. (queue.new.items ≡ queue.old.items)
        × IfOk result (λ h. (fault ≢ NoMemory) × (h ≡ Happened.Refused fault))) }
    ensures memory { OnErr result (sent ≡ Err ClientFault.NoMemory) }
{
    match sent {
        Ok(frame) => {
            queue.push_back_reserved(frame);
            Ok(Happened::Sent)
        }
        Err(ClientFault::NoMemory) => Err(AllocError),
        Err(fault) => Ok(Happened::Refused(fault)),
    }
}
