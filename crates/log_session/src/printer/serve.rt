//! `serve`: runs a server's end between a reader and a writer.

ghost use Rattle.std.specs.Prelude.{◌≡◌};
ghost use Rattle.log_session.specs.Session.{session_outcome};
ghost use Rattle.log_session.specs.Serve.{serving};
ghost use Rattle.log_session.specs.inside.Printer.{state_in};

use crate::outcome::Outcome;
use crate::output::{Finished, Given, Output, Printed};
use crate::printer::Printer;
use crate::session::witness::Nothing;
use crate::session::{RecordBody, Session, Taken, Verdict};
use lsp_log::Record;
use lsp_server::Answer;

/// Writes each reply as it comes, up to `exit`.
#[derive(Drop)]
pub struct Serve {
    pub session: Session,
}

impl Serve {
    fn outcome(&self, status: u8) -> Outcome
        ensures { result ≡ record (session_outcome self.now.session) { status = status } }
    {
        Outcome {
            status,
            ..self.session.outcome()
        }
    }
}

impl Printer for Serve {
    ghost state = { λ serve. state_in serving tt serve.session };

    const NOTES: bool = false;

    fn session(&self) -> &Session {
        &self.session
    }

    fn print(&mut self, _item: &Record<'_>, read: RecordBody<'_>, buffer: &mut Vec<u8>) -> Printed {
        let mut witness = Nothing;
        let Taken { verdict, .. } = self.session.take(read, &mut witness)?;
        match verdict {
            Verdict::Answered(Answer::Exit(status)) => Ok(Given {
                output: Output::Bytes,
                end: Some(self.outcome(status)),
            }),
            Verdict::Answered(Answer::Reply { frame, .. }) => {
                *buffer = frame;
                Ok(Given::more(Output::Bytes))
            }
            _ => Ok(Given::more(Output::Bytes)),
        }
    }

    fn finish(&mut self, _line_due: bool, _buffer: &mut Vec<u8>) -> Finished {
        Ok(Some(self.outcome(1)))
    }
}
