//! A session: the steps of a pair by lines of events, and the lines of output.

ghost use Rattle.std.specs.Prelude.{◌≡◌, ◌⊎◌, ◌++◌, IfErr, IfOk, OnOk};
ghost use Rattle.lsp_stream.specs.Ports.{ports};
ghost use Rattle.lsp_simulate.specs.Session.{WroteSession, document_lines, end_document};
ghost use Rattle.lsp_simulate.specs.Session.{end_lines, step_line};
ghost use Rattle.lsp_simulate.specs.inside.Session.{IsStepLine, read_fault};

use crate::command_line::Setting;
use crate::lines::InputLines;
use crate::run::RunFault;
use crate::script::event_of;
use crate::word::{push_happened, push_words};
use itoa::Buffer;
use lsp_message::{ParamsFault, push_document};
use lsp_pair::{Happened, Pair};
use lsp_program::MAX_TURNS;
use lsp_store::{Document, Store};
use lsp_stream::{EngineFault, Sink, Source, Turns, write_given};
use std::alloc::{AllocError, Global};

/// Steps a pair by the events of the lines, and writes what happens. At the end it writes how many
/// frames wait, and the documents of both ends. The lines of the steps before a fault stay written.
pub fn simulate<R: Source, W: Sink>(
    alloc: Global,
    setting: Setting,
    input: &mut R,
    output: &mut W,
) -> Result<(), RunFault>
    ensures { WroteSession setting result
        (ports (R.seen input.old) (W.seen output.old))
        (ports (R.seen input.new) (W.seen output.new)) }
{
    let mut pair = Pair::new(alloc, setting.limits, setting.offers, setting.config)?;
    let mut lines = InputLines::new();
    let mut turns = Turns::new(MAX_TURNS);
    let mut number = 0u64;
    'events: loop {
        match lines.next(alloc, input) {
            Ok(Some(line)) => {
                number = number.saturating_add(1);
                let text = step(alloc, &mut pair, number, &line)?;
                write_given(output, &text, false, &mut turns)?;
            }
            Ok(None) => {
                let text = end_text(alloc, &pair)?;
                write_given(output, &text, false, &mut turns)?;
                return Ok(());
            }
            Err(fault) => return Err(read_fault(fault)),
        }
    }
}

/// Makes the step of one line of input, and returns its line of output.
fn step(alloc: Global, pair: &mut Pair, number: u64, line: &[u8]) -> Result<Vec<u8>, RunFault>
    ensures stepped { IfOk result (λ text. IsStepLine pair.old pair.new number text.items) }
    ensures error { IfErr result
        (λ fault. (fault ≡ RunFault.NoMemory) ⊎ (fault ≡ RunFault.BadEvent number)) }
{
    let event = match event_of(alloc, line) {
        Ok(event) => event,
        Err(ParamsFault::InvalidParams) => return Err(RunFault::BadEvent { line: number }),
        Err(ParamsFault::NoMemory) => return Err(RunFault::NoMemory),
    };
    let happened = pair.step(&event)?;
    Ok(step_line(alloc, number, happened)?)
}

/// Returns the line of a step: its number, and the words for what happened.
fn step_line(alloc: Global, number: u64, happened: Happened) -> Result<Vec<u8>, AllocError>
    ensures { IfOk result (λ line. line.items ≡ step_line number happened) }
{
    let mut digits = Buffer::new();
    let mut line = Vec::new(alloc);
    push_words(&mut line, digits.format(number), " ")?;
    push_happened(&mut line, happened)?;
    line.push(b'\n')?;
    Ok(line)
}

/// Returns how many messages wait for the server and for the client, and the documents of both.
fn end_text(alloc: Global, pair: &Pair) -> Result<Vec<u8>, AllocError>
    ensures { IfOk result (λ text. text.items ≡ end_lines pair.now) }
{
    let (to_server, to_client) = pair.waiting();
    let mut text = format!(in alloc; "waiting {to_server} {to_client}\n")?.into_bytes();
    push_documents(&mut text, "client", pair.client().store())?;
    push_documents(&mut text, "server", pair.server().store())?;
    Ok(text)
}

/// Appends a line for each document of an end, in order of opening.
fn push_documents(text: &mut Vec<u8>, end: &str, store: &Store) -> Result<(), AllocError>
    ensures { OnOk result
        (text.new.items ≡ text.old.items ++ document_lines end.now store.now.table) }
{
    for document in store {
        push_end_document(text, end, &document)?;
    }
    Ok(())
}

/// Appends a line with the name of an end, and then a document of it in JSON.
fn push_end_document(
    line: &mut Vec<u8>,
    end: &str,
    document: &Document<'_>,
) -> Result<(), AllocError>
    ensures { OnOk result
        (line.new.items ≡ line.old.items ++ end_document end.now document.now) }
{
    let alloc = *line.allocator();
    line.extend_from_slice(end.as_bytes())?;
    line.push(b' ')?;
    let (uri, language) = (document.uri(), document.language());
    let text = document.text().to_string(alloc)?;
    push_document(line, uri, language, document.version(), &text)?;
    line.push(b'\n')?;
    Ok(())
}

/// Returns the fault of a run whose input has this fault.
fn read_fault(fault: EngineFault) -> RunFault
    ensures { result ≡ read_fault fault }
{
    match fault {
        EngineFault::NoMemory => RunFault::NoMemory,
        _ => RunFault::Read,
    }
}
