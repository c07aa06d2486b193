//! The settings that C passes to a server, and what it gets of a server or a client.

ghost use Rattle.std.specs.Prelude.{◌≡◌, Err, IfErr, IfOk, Ok};
ghost use Rattle.lsp_server.specs.Seen.{answer_view};
ghost use Rattle.laspidru.specs.Servers.{answer_out, config_asked, limits_asked, plain_out};
ghost use Rattle.laspidru.specs.Servers.{reply_out, store_code};

use crate::changes::encoding_of;
use crate::codes::{
    ALREADY_OPEN, BAD_MAX_BODY, BAD_MAX_CHANGES, BAD_MAX_DOCS, BAD_MAX_TEXT, CHANGED, DROPPED,
    EXITED, IGNORED, INSIDE_CHARACTER, INVALID_PARAMS, NOT_OPEN, OUT_OF_MEMORY, REFUSED, REPLIED,
    REVERSED_RANGE, STALE_VERSION, TOO_LONG, TOO_MANY_CHANGES, TOO_MANY_DOCUMENTS,
};
use lsp_edit::EditFault;
use lsp_frame::Limits;
use lsp_server::{ChangeForm, Config, EncodingChoice, Refusal};
use lsp_store::StoreFault;
use std::alloc::Global;

/// The set-up of a server: its limits, the number of its encoding, and its kind of synchronisation.
/// With `is_fixed` the server insists on the encoding, else it prefers it. With `whole_texts` it
/// asks for whole texts, else for ranges. With `lenient` its limits are lenient.
#[repr(C)]
#[derive(Clone, Copy, Debug, PartialEq, Eq)]
pub struct Settings {
    pub max_body: usize,
    pub max_text: usize,
    pub max_docs: usize,
    pub max_changes: usize,
    pub encoding: u32,
    pub is_fixed: bool,
    pub whole_texts: bool,
    pub lenient: bool,
}

/// What became of a message: a server's answer, or what a client did. A member that isn't of the
/// kind is 0.
#[repr(C)]
#[derive(Clone, Copy, Debug, PartialEq, Eq)]
pub struct Answer {
    /// REPLIED to EXITED of a server; REPLIED, IGNORED, NOTED or BAD_SERVER of a client.
    pub kind: u32,
    /// REFUSED, BAD_SERVER: the code that says why.
    pub reason: u32,
    /// EXITED: the status with which the process is to end.
    pub status: u32,
    /// REPLIED: the number of an error reply (LSP 3.17, ErrorCodes); 0 of a result.
    pub error: i32,
    /// REPLIED: how many bytes the frame to send has.
    pub reply_len: usize,
}

/// The version of an open document, and how many bytes its text has.
#[repr(C)]
#[derive(Clone, Copy, Debug, PartialEq, Eq)]
pub struct Opened {
    pub version: i32,
    pub bytes: usize,
}

/// The state of an end's session.
#[repr(C)]
#[derive(Clone, Copy, Debug, PartialEq, Eq)]
pub struct State {
    /// The number of the phase, from 0 for New to 6 for Failed.
    pub phase: u32,
    /// The code for why the session failed; 0 if it didn't.
    pub reason: u32,
    /// The number of the encoding that was agreed on; 0 before.
    pub encoding: u32,
    /// How many documents are open.
    pub documents: usize,
}

/// Returns the limits, or the code of the first that is out of its range.
pub(crate) fn limits_of(
    max_body: usize,
    max_text: usize,
    max_docs: usize,
    max_changes: usize,
    lenient: bool,
) -> Result<Limits, u32>
    ensures { result ≡ limits_asked max_body max_text max_docs max_changes lenient }
{
    match Limits::new(max_body, max_text, max_docs, max_changes) {
        Ok(limits) if lenient => Ok(limits.lenient()),
        Ok(limits) => Ok(limits),
        Err(bad) => match bad.which {
            1 => Err(BAD_MAX_BODY),
            2 => Err(BAD_MAX_TEXT),
            3 => Err(BAD_MAX_DOCS),
            _ => Err(BAD_MAX_CHANGES),
        },
    }
}

/// Returns the limits in settings, or the code of the first that is out of its range.
macro_rules! limits_in {
    ($settings:ident) => {
        $crate::answers::limits_of(
            $settings.max_body,
            $settings.max_text,
            $settings.max_docs,
            $settings.max_changes,
            $settings.lenient,
        )
    };
}

pub(crate) use limits_in;

/// Returns the set-up of a server, or the code for why there is none.
pub(crate) fn config_of(settings: &Settings) -> Result<Config, u32>
    ensures ok { IfOk result (λ config. config_asked settings.now ≡ Ok config) }
    ensures error { IfErr result (λ code. config_asked settings.now ≡ Err code) }
{
    let encoding = encoding_of(settings.encoding)?;
    let limits = limits_in!(settings)?;
    let choice = if settings.is_fixed {
        EncodingChoice::Fixed(encoding)
    } else {
        EncodingChoice::Negotiated { prefer: encoding }
    };
    let sync = if settings.whole_texts {
        ChangeForm::Full
    } else {
        ChangeForm::Incremental
    };
    Ok(Config {
        limits,
        choice,
        sync,
    })
}

/// Returns the code for why the store refuses a command.
pub(crate) fn store_code_of(fault: StoreFault) -> u32
    ensures { result ≡ store_code fault }
{
    match fault {
        StoreFault::AlreadyOpen => ALREADY_OPEN,
        StoreFault::TooManyDocuments => TOO_MANY_DOCUMENTS,
        StoreFault::TextTooLong | StoreFault::BodyTooLong { .. } => TOO_LONG,
        StoreFault::NotOpen => NOT_OPEN,
        StoreFault::StaleVersion { .. } => STALE_VERSION,
        StoreFault::TooManyChanges => TOO_MANY_CHANGES,
        StoreFault::Edit(EditFault::InsideCharacter { .. }) => INSIDE_CHARACTER,
        StoreFault::Edit(EditFault::ReversedRange { .. }) => REVERSED_RANGE,
        StoreFault::Edit(EditFault::NoMemory) | StoreFault::NoMemory => OUT_OF_MEMORY,
    }
}

/// Returns an answer with only a kind.
pub(crate) fn plain(kind: u32) -> Answer
    ensures { result ≡ plain_out kind }
{
    Answer {
        kind,
        reason: 0,
        status: 0,
        error: 0,
        reply_len: 0,
    }
}

/// Returns an answer for C.
pub(crate) fn answer_of(answer: &lsp_server::Answer) -> Answer
    ensures { result ≡ answer_out (answer_view answer.now) }
{
    match answer {
        lsp_server::Answer::Reply { frame, code: None } => Answer {
            reply_len: frame.len(),
            ..plain(REPLIED)
        },
        lsp_server::Answer::Reply {
            frame,
            code: Some(code),
        } => Answer {
            error: code.number(),
            reply_len: frame.len(),
            ..plain(REPLIED)
        },
        lsp_server::Answer::Changed => plain(CHANGED),
        lsp_server::Answer::Dropped => plain(DROPPED),
        lsp_server::Answer::Ignored => plain(IGNORED),
        lsp_server::Answer::Refused(Refusal::InvalidParams) => Answer {
            reason: INVALID_PARAMS,
            ..plain(REFUSED)
        },
        lsp_server::Answer::Refused(Refusal::Store(fault)) => Answer {
            reason: store_code_of(*fault),
            ..plain(REFUSED)
        },
        lsp_server::Answer::Exit(status) => Answer {
            status: u32::from(*status),
            ..plain(EXITED)
        },
    }
}

/// Returns the bytes of a reply; none of another answer.
pub(crate) fn reply_of(alloc: Global, answer: lsp_server::Answer) -> Vec<u8>
    ensures { result.items ≡ reply_out (answer_view answer) }
{
    match answer {
        lsp_server::Answer::Reply { frame, .. } => frame,
        _ => Vec::new(alloc),
    }
}
