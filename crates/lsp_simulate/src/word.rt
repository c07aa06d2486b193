//! The words for what happened in a session.

ghost use Rattle.std.specs.Prelude.{◌≡◌, ◌++◌, OnOk};
ghost use Rattle.lsp_simulate.specs.Words.{did_words, happened_words, heard_words, phase_name};
ghost use Rattle.lsp_simulate.specs.Words.{reason_name, refusal_words, refused_words, reply_words};

use itoa::Buffer;
use lsp_client::{ClientFault, Phase, Reason};
use lsp_message::ErrorCode;
use lsp_pair::{Did, Happened, Heard};
use lsp_server::Refusal;
use std::alloc::AllocError;

/// Appends words, and then others.
pub fn push_words(line: &mut Vec<u8>, words: &str, more: &str) -> Result<(), AllocError>
    ensures { OnOk result (line.new.items ≡ line.old.items ++ (words.now ++ more.now)) }
{
    line.extend_from_slice(words.as_bytes())?;
    line.extend_from_slice(more.as_bytes())
}

/// Appends the words for what happened.
pub fn push_happened(line: &mut Vec<u8>, happened: Happened) -> Result<(), AllocError>
    ensures { OnOk result (line.new.items ≡ line.old.items ++ happened_words happened) }
{
    match happened {
        Happened::Sent => line.extend_from_slice(b"sent"),
        Happened::Refused(fault) => push_refused(line, fault),
        Happened::Server(did) => push_did(line, did),
        Happened::Client(heard) => push_heard(line, heard),
        Happened::Nothing => line.extend_from_slice(b"nothing"),
    }
}

fn push_refused(line: &mut Vec<u8>, fault: ClientFault) -> Result<(), AllocError>
    ensures { OnOk result (line.new.items ≡ line.old.items ++ refused_words fault) }
{
    match fault {
        ClientFault::WrongPhase { phase } => push_words(line, "refused C1 ", phase_word(phase)),
        ClientFault::Store(fault) => push_words(line, "refused ", fault.code()),
        ClientFault::NoMemory => line.extend_from_slice(b"refused C3"),
    }
}

fn push_did(line: &mut Vec<u8>, did: Did) -> Result<(), AllocError>
    ensures { OnOk result (line.new.items ≡ line.old.items ++ did_words did) }
{
    match did {
        Did::Reply(error) => push_reply(line, error),
        Did::Changed => line.extend_from_slice(b"server changed"),
        Did::Dropped => line.extend_from_slice(b"server dropped"),
        Did::Ignored => line.extend_from_slice(b"server ignored"),
        Did::Refused(refusal) => push_refusal(line, refusal),
        Did::Exit(status) => push_words(line, "server exit ", Buffer::new().format(status)),
    }
}

fn push_reply(line: &mut Vec<u8>, error: Option<ErrorCode>) -> Result<(), AllocError>
    ensures { OnOk result (line.new.items ≡ line.old.items ++ reply_words error) }
{
    match error {
        None => line.extend_from_slice(b"server reply"),
        Some(code) => push_words(line, "server error ", Buffer::new().format(code.number())),
    }
}

fn push_refusal(line: &mut Vec<u8>, refusal: Refusal) -> Result<(), AllocError>
    ensures { OnOk result (line.new.items ≡ line.old.items ++ refusal_words refusal) }
{
    match refusal {
        Refusal::InvalidParams => line.extend_from_slice(b"server refused M4"),
        Refusal::Store(fault) => push_words(line, "server refused ", fault.code()),
    }
}

fn push_heard(line: &mut Vec<u8>, heard: Heard) -> Result<(), AllocError>
    ensures { OnOk result (line.new.items ≡ line.old.items ++ heard_words heard) }
{
    match heard {
        Heard::Send => line.extend_from_slice(b"client send"),
        Heard::Noted => line.extend_from_slice(b"client noted"),
        Heard::Ignored => line.extend_from_slice(b"client ignored"),
        Heard::BadServer(reason) => push_words(line, "client bad-server ", reason_word(reason)),
    }
}

fn phase_word(phase: Phase) -> &'static str
    ensures { result.now ≡ phase_name phase }
{
    match phase {
        Phase::New => "new",
        Phase::Asked => "asked",
        Phase::Ready => "ready",
        Phase::Closing => "closing",
        Phase::Closed => "closed",
        Phase::Done => "done",
        Phase::Failed(_) => "failed",
    }
}

fn reason_word(reason: Reason) -> &'static str
    ensures { result.now ≡ reason_name reason }
{
    match reason {
        Reason::NotAnAnswer => "not-an-answer",
        Reason::ErrorAnswer => "error-answer",
        Reason::NoSync => "no-sync",
        Reason::BadEncoding => "bad-encoding",
    }
}
