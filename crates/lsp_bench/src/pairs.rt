//! Keystrokes through both ends of a session, beside the server alone on the same messages.

use crate::text::{changed, keystroke, lines_of, opened};
use crate::timing::{done, time};
use lsp_frame::Limits;
use lsp_message::{ChangeParams, Offers, Outgoing, write};
use lsp_pair::{Did, Event, Happened, Pair};
use lsp_server::{Answer, ChangeForm, Config, EncodingChoice, Server};
use lsp_text::Encoding;
use std::alloc::{AllocError, Global};
use std::io;
use std::rt::Runtime;

/// The bytes of the text that is typed into: 1,000 lines.
const SIZE: usize = 40_000;

const CHANGED: Happened = Happened::Server(Did::Changed);

/// Makes half of so many keystrokes in a round, and then all of them, each delivered at once.
pub fn run<R: Runtime + AllocGlobal>(rt: &R, keystrokes: u32) -> io::Result<()> {
    time_ends(rt, keystrokes / 2)?;
    time_ends(rt, keystrokes)
}

fn time_ends<R: Runtime + AllocGlobal>(rt: &R, repeats: u32) -> io::Result<()> {
    let alloc = rt.alloc();
    let mut pair = done(opened_pair(alloc))?;
    let what = "Pair::step, and its delivery, bytes";
    time(
        rt,
        what,
        SIZE,
        repeats,
        |turn| edited(alloc, &mut pair, turn),
    )?;
    let mut server = done(opened_server(alloc))?;
    let what = "write, and Server::handle, bytes";
    time(
        rt,
        what,
        SIZE,
        repeats,
        |turn| changed_by(alloc, &mut server, turn),
    )
}

fn config() -> Config {
    Config {
        limits: Limits::default(),
        choice: EncodingChoice::Fixed(Encoding::Utf16),
        sync: ChangeForm::Incremental,
    }
}

/// Returns a pair in which both ends have the document.
fn opened_pair(alloc: Global) -> Option<Pair> {
    let offers = Offers::new(false, false);
    let mut pair = Pair::new(alloc, Limits::default(), offers, config()).ok()?;
    step(&mut pair, Event::Start)?;
    step(&mut pair, Event::ToServer)?;
    step(&mut pair, Event::ToClient)?;
    step(&mut pair, Event::ToServer)?;
    step(&mut pair, opening(alloc)?)?;
    step(&mut pair, Event::ToServer)?;
    Some(pair)
}

fn opening(alloc: Global) -> Option<Event> {
    let document = opened(alloc, SIZE).ok()?;
    Some(Event::Open {
        uri: document.uri,
        language: document.language,
        version: document.version,
        text: document.text,
    })
}

fn step(pair: &mut Pair, event: Event) -> Option<Happened> {
    pair.step(&event).ok()
}

/// Returns a server that has the document.
fn opened_server(alloc: Global) -> Option<Server> {
    let mut server = Server::new(alloc, config());
    let initialize = Outgoing::Initialize(Offers::new(false, false));
    handle(alloc, &mut server, initialize)?;
    handle(alloc, &mut server, Outgoing::Initialized)?;
    let open = Outgoing::DidOpen(opened(alloc, SIZE).ok()?);
    handle(alloc, &mut server, open)?;
    Some(server)
}

/// Returns the keystroke of a turn, alone in a batch.
fn change(alloc: Global, turn: u32) -> Result<ChangeParams, AllocError> {
    let version = i32::try_from(turn).unwrap_or(i32::MAX).saturating_add(2);
    let mut changes = Vec::with_capacity(alloc, 1)?;
    changes.push(keystroke(alloc, turn, lines_of(SIZE))?)?;
    changed(alloc, version, changes)
}

/// Makes an edit of the client, and its delivery. Returns 1 if the server's text was changed, else
/// 0.
fn edited(alloc: Global, pair: &mut Pair, turn: u32) -> Option<usize> {
    let change = change(alloc, turn).ok()?;
    let event = Event::Edit {
        uri: change.uri,
        version: change.version,
        changes: change.changes,
    };
    step(pair, event)?;
    Some(usize::from(step(pair, Event::ToServer)? == CHANGED))
}

/// Passes a change to the server. Returns 1 if its text was changed, else 0.
fn changed_by(alloc: Global, server: &mut Server, turn: u32) -> Option<usize> {
    let change = Outgoing::DidChange(change(alloc, turn).ok()?);
    Some(usize::from(handle(alloc, server, change)?))
}

/// Passes a message to the server. Returns whether the server's text was changed.
fn handle(alloc: Global, server: &mut Server, message: Outgoing) -> Option<bool> {
    let body = write(alloc, &message).ok()?;
    let answer = server.handle(&body).ok()?;
    Some(matches!(answer, Answer::Changed))
}
