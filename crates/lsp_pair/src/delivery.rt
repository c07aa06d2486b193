//! An end handles the first frame of its queue.
//!
//! A frame stays first in its queue until the step is done, and room for what is sent is
//! reserved before it.

ghost use Rattle.std.specs.Prelude.{◌≡◌, ◌≢◌, ◌<◌, ◌++◌, [], true, false, IfOk, OnErr};
ghost use Rattle.std.specs.VecDeque.{deque_len, deque_capacity};
ghost use Rattle.lsp_frame.specs.Stream.{IsFrame};
ghost use Rattle.lsp_client.specs.Seen.{delivered_view};
ghost use Rattle.lsp_client.specs.Step.{ClientData, is_listening};
ghost use Rattle.lsp_server.specs.declared.phase.Phase.TheVariants.{Ended};
ghost use Rattle.lsp_server.specs.Seen.{answer_view};
ghost use Rattle.lsp_server.specs.Step as server;
ghost use Rattle.lsp_pair.specs.Events.{to_server, to_client, heard_of};
ghost use Rattle.lsp_pair.specs.Pair.{IsStep};
ghost use Rattle.lsp_pair.specs.inside.Ends.{HoldsOfFirst, both_ends, did_of_sent, frames_in_answer, frames_in_delivery};
ghost use Rattle.lsp_pair.specs.Seen.{frames};

use crate::event::{Did, Happened, Heard};
use lsp_client::{Client, ClientFault, Delivered};
use lsp_frame::{Framer, Limits};
use lsp_server::{Answer, Server, ServerFault};
use std::alloc::{AllocError, Global};
use std::collections::VecDeque;

/// Returns a framer with these limits, with this whole frame buffered.
fn framer_of(alloc: Global, limits: Limits, bytes: &[u8]) -> Result<Framer, AllocError>
    requires { IsFrame limits.max_body bytes.now }
    ensures { IfOk result (λ framer.
        (framer.buffered ≡ bytes.now) × (framer.failed ≡ false) × (framer.limits ≡ limits)
        × IsFrame framer.limits.max_body framer.buffered) }
{
    let mut framer = Framer::new(alloc, limits);
    match framer.feed(bytes) {
        Ok(_) => Ok(framer),
        // The bytes are a whole frame within the limits, so nothing else can be wrong.
        Err(_) => Err(AllocError),
    }
}

/// Passes the first frame for the server to it. It reserves room for the reply first.
pub(crate) fn serve_first(
    alloc: Global,
    server: &mut Server,
    sent: &mut VecDeque<Vec<u8>>,
    replies: &mut VecDeque<Vec<u8>>,
) -> Result<Happened, AllocError>
    requires { HoldsOfFirst (frames sent.old.items) (λ first.
        IsFrame server.old.config.limits.max_body first × (server.old.phase ≢ Ended)) }
    ensures step { (client : ClientData) → IfOk result (λ happened.
        IsStep
        (both_ends client server.old (frames sent.old.items) (frames replies.old.items))
        to_server happened
        (both_ends client server.new (frames sent.new.items) (frames replies.new.items))) }
    // Where nothing waits no memory is taken.
    ensures memory { OnErr result (frames sent.old.items ≢ []) }
    ensures unchanged { OnErr result ((server.new ≡ server.old)
        × (frames sent.new.items ≡ frames sent.old.items)
        × (frames replies.new.items ≡ frames replies.old.items)) }
{
    let Some(first) = sent.front() else {
        return Ok(Happened::Nothing);
    };
    replies.reserve(1)?;
    let framer = framer_of(alloc, server.store().limits(), first)?;
    let Some(body) = framer.body() else {
        unreachable!()
    };
    let answer = match server.handle(body) {
        Ok(answer) => answer,
        Err(ServerFault::NoMemory) => return Err(AllocError),
        Err(ServerFault::AlreadyEnded) => unreachable!(),
    };
    let _ = sent.pop_front();
    Ok(Happened::Server(push_reply(replies, answer)))
}

/// Appends the frame of a reply to a queue with room.
fn push_reply(replies: &mut VecDeque<Vec<u8>>, answer: Answer) -> Did
    requires { deque_len replies.old < deque_capacity replies.old }
    ensures did { result ≡ did_of_sent (answer_view answer) }
    ensures pushed { frames replies.new.items
        ≡ frames replies.old.items ++ frames_in_answer (answer_view answer) }
{
    match answer {
        Answer::Reply { frame, code } => {
            replies.push_back_reserved(frame);
            Did::Reply(code)
        }
        Answer::Changed => Did::Changed,
        Answer::Dropped => Did::Dropped,
        Answer::Ignored => Did::Ignored,
        Answer::Refused(refusal) => Did::Refused(refusal),
        Answer::Exit(status) => Did::Exit(status),
    }
}

/// Passes the first frame for the client to it. It reserves room for the client's message first.
pub(crate) fn hear_first(
    alloc: Global,
    client: &mut Client,
    replies: &mut VecDeque<Vec<u8>>,
    sent: &mut VecDeque<Vec<u8>>,
) -> Result<Happened, AllocError>
    requires { HoldsOfFirst (frames replies.old.items) (λ first.
        IsFrame client.old.limits.max_body first × (is_listening client.old.phase ≡ true)) }
    ensures step { (other : server.ServerData) → IfOk result (λ happened.
        IsStep
        (both_ends client.old other (frames sent.old.items) (frames replies.old.items))
        to_client happened
        (both_ends client.new other (frames sent.new.items) (frames replies.new.items))) }
    // Where nothing waits no memory is taken.
    ensures memory { OnErr result (frames replies.old.items ≢ []) }
    ensures unchanged { OnErr result ((client.new ≡ client.old)
        × (frames replies.new.items ≡ frames replies.old.items)
        × (frames sent.new.items ≡ frames sent.old.items)) }
{
    let Some(first) = replies.front() else {
        return Ok(Happened::Nothing);
    };
    sent.reserve(1)?;
    let framer = framer_of(alloc, client.store().limits(), first)?;
    let Some(body) = framer.body() else {
        unreachable!()
    };
    let delivered = match client.deliver(body) {
        Ok(delivered) => delivered,
        Err(ClientFault::NoMemory) => return Err(AllocError),
        Err(ClientFault::WrongPhase { .. } | ClientFault::Store(_)) => unreachable!(),
    };
    let _ = replies.pop_front();
    Ok(Happened::Client(push_sent(sent, delivered)))
}

/// Appends the frame that the client sends to a queue with room.
fn push_sent(sent: &mut VecDeque<Vec<u8>>, delivered: Delivered) -> Heard
    requires { deque_len sent.old < deque_capacity sent.old }
    ensures heard { result ≡ heard_of (delivered_view delivered) }
    ensures pushed { frames sent.new.items
        ≡ frames sent.old.items ++ frames_in_delivery (delivered_view delivered) }
{
    match delivered {
        Delivered::Send(frame) => {
            sent.push_back_reserved(frame);
            Heard::Send
        }
        Delivered::Noted => Heard::Noted,
        Delivered::Ignored => Heard::Ignored,
        Delivered::BadServer(reason) => Heard::BadServer(reason),
    }
}
