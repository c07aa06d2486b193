//! `convert`: makes a log of version 2, with the server's replies, of a log of version 1.

ghost use Rattle.std.specs.Prelude.{◌≡◌, ◌++◌, OnOk};
ghost use Rattle.log_rewrite.specs.Convert.{converting, line_before, reply_record};
ghost use Rattle.log_session.specs.inside.Printer.{state_in};
ghost use Rattle.log_session.specs.inside.Verdicts.{verdict_view};

use crate::printer::front::push_line;
use log_session::{Finished, Given, Output, Printed, Printer, RecordBody, Session, Verdict};
use lsp_log::Record;
use lsp_server::Answer;
use std::alloc::AllocError;

/// Writes each record with its mark, and after it the reply.
#[derive(Drop)]
pub struct Convert {
    pub session: Session,
}

impl Convert {
    /// Writes the line of version 2: before the first record, or alone if there is none.
    fn push_first_line(&self, buffer: &mut Vec<u8>) -> Result<(), AllocError>
        ensures { OnOk result
            (buffer.new.items ≡ buffer.old.items ++ line_before self.now.session) }
    {
        push_line(buffer, self.session.records() == 0)
    }
}

impl Printer for Convert {
    ghost state = { λ convert. state_in converting tt convert.session };

    const NOTES: bool = false;

    fn session(&self) -> &Session {
        &self.session
    }

    fn print(&mut self, item: &Record<'_>, read: RecordBody<'_>, buffer: &mut Vec<u8>) -> Printed {
        self.push_first_line(buffer)?;
        let verdict = self.session.accept(item.head, read)?;
        buffer.extend_from_slice(b">")?;
        buffer.extend_from_slice(item.raw)?;
        push_reply(buffer, &verdict)?;
        Ok(Given::more(Output::Bytes))
    }

    fn finish(&mut self, _line_due: bool, buffer: &mut Vec<u8>) -> Finished {
        self.push_first_line(buffer)?;
        Ok(Some(self.session.outcome()))
    }
}

fn push_reply(buffer: &mut Vec<u8>, verdict: &Verdict) -> Result<(), AllocError>
    ensures { OnOk result
        (buffer.new.items ≡ buffer.old.items ++ reply_record (verdict_view verdict.now)) }
{
    if let Verdict::Answered(Answer::Reply { frame, .. }) = verdict {
        buffer.extend_from_slice(b"<")?;
        buffer.extend_from_slice(frame)?;
    }
    Ok(())
}
