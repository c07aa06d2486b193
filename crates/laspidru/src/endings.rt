//! The settings that C passes to a command on a log, and the ending that it gets.

ghost use Rattle.std.specs.Prelude.{◌≡◌, Err, IfErr, IfOk, Ok};
ghost use Rattle.laspidru.specs.Logs.{IsUnlessEnded, ending_out, fault_out};
ghost use Rattle.laspidru.specs.Logs.{log_asked, missing_code, outcome_out};

use crate::answers::limits_in;
use crate::changes::encoding_of;
use crate::codes::{
    BAD_FRAME, BAD_LOG, BODY_TOO_LONG, CUT, NOT_OPEN, OK, OUT_OF_MEMORY, OUT_OF_RANGE,
};
use crate::taken::number_and_offset_of;
use lsp_replay::{EngineFault, Missing, Outcome, Settings};

/// How a log is read, and what of it is written: the limits, the number of the encoding of its
/// positions, and what single commands have beside them. A command ignores the members of others.
#[repr(C)]
#[derive(Clone, Copy, Debug, PartialEq, Eq)]
pub struct LogSettings {
    pub max_body: usize,
    pub max_text: usize,
    pub max_docs: usize,
    pub max_changes: usize,
    /// `replay`: the number of the last record that is read, from 1; 0 for all.
    pub at: u64,
    pub encoding: u32,
    /// Whether the limits are lenient.
    pub lenient: bool,
    /// `normalise`: whether changes of one document that follow each other become one message.
    pub squash: bool,
    /// `normalise`: whether records are left out that are neither about the session nor a text.
    pub documents: bool,
    /// `trace`: whether the document's text is written, where it was opened or changed.
    pub texts: bool,
    /// `trace`: whether each body is written.
    pub bodies: bool,
    /// `replay`: whether the text of one document is written, that of the URI.
    pub has_uri: bool,
    /// `explain`: whether only lines with a reason or notes are written.
    pub brief: bool,
    /// `explain`: whether each note is on its line, also if its kind comes often.
    pub all: bool,
}

/// The ending of a command on a log. A member that isn't of the code is 0.
#[repr(C)]
#[derive(Clone, Copy, Debug, PartialEq, Eq)]
pub struct Ending {
    /// OK: 1 if something was refused or is missing, or texts differ; else 0.
    pub status: u32,
    /// BAD_FRAME: the number of the fault, 1 to 7 for F1 to F7.
    pub frame: u32,
    /// OK: OUT_OF_RANGE if the record `at` is missing, NOT_OPEN if the document is; else 0.
    pub missing: u32,
    /// OK: how many messages were handled.
    pub messages: u64,
    /// OK: how many of them were refused.
    pub refused: u64,
    /// CUT, BAD_FRAME, BODY_TOO_LONG and BAD_LOG: the fault's byte offset in the log.
    pub offset: u64,
    /// How many bytes the output has.
    pub output_len: usize,
}

/// Returns how a log is to be read, or the code for why it can't be.
pub(crate) fn log_settings_of(settings: &LogSettings) -> Result<Settings, u32>
    ensures ok { IfOk result (λ taken. log_asked settings.now ≡ Ok taken) }
    ensures error { IfErr result (λ code. log_asked settings.now ≡ Err code) }
{
    let encoding = encoding_of(settings.encoding)?;
    let limits = limits_in!(settings)?;
    Ok(Settings {
        limits,
        encoding,
        squash: settings.squash,
    })
}

/// Returns the code for what the log lacks of what was asked for; 0 if nothing is missing.
fn missing_code_of(missing: Option<Missing>) -> u32
    ensures { result ≡ missing_code missing }
{
    match missing {
        None => 0,
        Some(Missing::Record) => OUT_OF_RANGE,
        Some(Missing::Document) => NOT_OPEN,
    }
}

/// Returns the ending of a command that came to an outcome.
fn outcome_ending(output_len: usize, outcome: Outcome) -> Ending
    ensures { result ≡ outcome_out output_len outcome }
{
    Ending {
        status: u32::from(outcome.status),
        missing: missing_code_of(outcome.missing),
        messages: outcome.messages,
        refused: outcome.refused,
        ..fault_ending(output_len, 0)
    }
}

/// Returns the ending of a command at a fault.
fn fault_ending(output_len: usize, offset: u64) -> Ending
    ensures { result ≡ fault_out output_len offset }
{
    Ending {
        status: 0,
        frame: 0,
        missing: 0,
        messages: 0,
        refused: 0,
        offset,
        output_len,
    }
}

/// Returns the code of a command's result, and its ending. After a fault that isn't the log's it
/// returns only the code: the output isn't kept.
pub(crate) fn ending_of(
    output_len: usize,
    answer: Result<Outcome, EngineFault>,
) -> Result<(u32, Ending), u32>
    ensures ending { result ≡ ending_out output_len answer }
    ensures kept { IfOk result (λ ended. IsUnlessEnded ended.0 ⊥) }
{
    match answer {
        Ok(outcome) => Ok((OK, outcome_ending(output_len, outcome))),
        Err(EngineFault::Frame(fault)) => {
            let (frame, offset) = number_and_offset_of(fault);
            let ending = fault_ending(output_len, offset);
            Ok((BAD_FRAME, Ending { frame, ..ending }))
        }
        Err(EngineFault::Truncated { place }) => Ok((CUT, fault_ending(output_len, place))),
        Err(EngineFault::BodyTooLong { place }) => {
            Ok((BODY_TOO_LONG, fault_ending(output_len, place)))
        }
        Err(EngineFault::BadLog { place }) => Ok((BAD_LOG, fault_ending(output_len, place))),
        // No read fails, a write into memory fails only if out of memory, and turns don't run out.
        Err(
            EngineFault::NoMemory
            | EngineFault::Read
            | EngineFault::Write
            | EngineFault::TooManyTurns,
        ) => Err(OUT_OF_MEMORY),
    }
}
