//! `check`: what a server answers to each record of a log, line by line.

ghost use Rattle.std.specs.Prelude.{◌≡◌, ◌++◌, OnOk, decimal};
ghost use Rattle.lsp_server.specs.Seen.{answer_view};
ghost use Rattle.log_session.specs.Session.{opened};
ghost use Rattle.log_session.specs.Settings.{log_config};
ghost use Rattle.log_report.specs.Check.{checking, check_line, code_word, verdict_word, word_of};
ghost use Rattle.log_session.specs.inside.Printer.{state_in};
ghost use Rattle.log_session.specs.inside.Verdicts.{verdict_view};

use crate::members::push_number;
use itoa::Buffer;
use log_session::{
    Finished, Given, Output, Printed, Printer, RecordBody, Session, Settings, Verdict,
};
use lsp_log::Record;
use lsp_message::ErrorCode;
use lsp_server::Answer;
use std::alloc::{AllocError, Global};

/// Writes a line for each record.
#[derive(Drop)]
pub struct Check {
    pub session: Session,
}

impl Check {
    /// Starts before the first record.
    pub fn new(alloc: Global, settings: Settings) -> Check
        ensures { result.session ≡ opened (log_config settings) }
    {
        Check {
            session: settings.session(alloc),
        }
    }
}

impl Printer for Check {
    ghost state = { λ check. state_in checking tt check.session };

    const NOTES: bool = false;

    fn session(&self) -> &Session {
        &self.session
    }

    fn print(&mut self, item: &Record<'_>, read: RecordBody<'_>, buffer: &mut Vec<u8>) -> Printed {
        let verdict = self.session.accept(item.head, read)?;
        push_verdict_line(buffer, self.session.records(), &verdict)?;
        Ok(Given::more(Output::Bytes))
    }

    fn finish(&mut self, _line_due: bool, _buffer: &mut Vec<u8>) -> Finished {
        Ok(Some(self.session.outcome()))
    }
}

fn push_verdict_line(buffer: &mut Vec<u8>, number: u64, verdict: &Verdict) -> Result<(), AllocError>
    ensures { OnOk result
        (buffer.new.items ≡ buffer.old.items ++ check_line number (verdict_view verdict.now)) }
{
    push_number(buffer, number)?;
    buffer.extend_from_slice(b" ")?;
    push_verdict(buffer, verdict)?;
    buffer.extend_from_slice(b"\n")
}

/// Writes a record's word.
pub fn push_verdict(buffer: &mut Vec<u8>, verdict: &Verdict) -> Result<(), AllocError>
    ensures { OnOk result
        (buffer.new.items ≡ buffer.old.items ++ verdict_word (verdict_view verdict.now)) }
{
    match verdict {
        Verdict::Answered(answer) => push_answer(buffer, answer)?,
        Verdict::Recorded => buffer.extend_from_slice(b"server")?,
        Verdict::Bad => {}
    }
    Ok(())
}

fn push_answer(buffer: &mut Vec<u8>, answer: &Answer) -> Result<(), AllocError>
    ensures { OnOk result
        (buffer.new.items ≡ buffer.old.items ++ word_of (answer_view answer.now)) }
{
    match answer {
        Answer::Reply { code, .. } => buffer.extend_from_slice(code_word(*code).as_bytes())?,
        Answer::Changed => buffer.extend_from_slice(b"changed")?,
        Answer::Dropped => buffer.extend_from_slice(b"dropped")?,
        Answer::Ignored => buffer.extend_from_slice(b"ignored")?,
        Answer::Refused(refusal) => {
            buffer.extend_from_slice(b"refused ")?;
            buffer.extend_from_slice(refusal.code().as_bytes())?;
        }
        Answer::Exit(status) => {
            buffer.extend_from_slice(b"exit ")?;
            let mut digits = Buffer::new();
            buffer.extend_from_slice(digits.format(*status).as_bytes())?;
        }
    }
    Ok(())
}

/// Returns the word of a reply with this error code, if it has one.
pub fn code_word(code: Option<ErrorCode>) -> &'static str
    ensures { result.now ≡ code_word code }
{
    match code {
        None => "reply",
        Some(ErrorCode::ParseError) => "error -32700",
        Some(ErrorCode::InvalidRequest) => "error -32600",
        Some(ErrorCode::MethodNotFound) => "error -32601",
        Some(ErrorCode::InvalidParams) => "error -32602",
        Some(ErrorCode::ServerNotInitialized) => "error -32002",
    }
}
