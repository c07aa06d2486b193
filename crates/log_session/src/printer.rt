//! A command is a printer of records: it takes each record of a log into its session, and writes
//! what it has to say of it.
//!
//! `serve` and `replay` are two of them.

ghost use Rattle.std.specs.Prelude.{◌≡◌, [], ℕ, Bool, false, IfOk, IfErr, OnOk};
ghost use Rattle.lsp_log.specs.Splitting.{record_of};
ghost use Rattle.log_session.specs.inside.Bodies.{judge_at};
ghost use Rattle.log_session.specs.inside.Printer.{PrinterState};
ghost use Rattle.log_session.specs.inside.Reads.{IsNotedOf, IsReadOf};
ghost use Rattle.log_session.specs.inside.RunOutput.{IsFaultAt, IsGiven, IsLastPart};

pub(crate) mod replay;
pub(crate) mod serve;

use crate::output::{Finished, Printed};
use crate::session::{RecordBody, Session};
use lsp_log::Record;
use lsp_stream::EngineFault;

/// What a command writes of each record of a log, and of its end.
pub trait Printer {
    // The output for the records that are still to come, and the session before them.
    ghost state: { Self → PrinterState };

    // How often `finish` may still return without the outcome.
    ghost parts: { Self → ℕ } = { λ _. 0 };

    ghost NOTES: { Bool } = { false };

    /// Whether bodies are read with what notes go by.
    const NOTES: bool;

    /// Returns the session.
    fn session(&self) -> &Session
        ensures { result.now ≡ (state self.now).session };

    /// Takes a record whose body was read. Its output is its frame, or is written into `buffer`,
    /// which is empty before.
    fn print(&mut self, item: &Record<'_>, read: RecordBody<'_>, buffer: &mut Vec<u8>) -> Printed
        requires is_read { IsReadOf item.now.head item.now.body.now read }
        requires noted { IsNotedOf NOTES item.now.body.now read }
        requires empty { buffer.old.items ≡ [] }
        ensures ok { IfOk result (IsGiven (state self.old).run_output (state self.new).run_output
            (record_of item.now) buffer.new.items) }
        ensures session { OnOk result ((state self.new).session
            ≡ (judge_at (state self.old).session item.now.head item.now.body.now).session) }
        ensures error { IfErr result (IsFaultAt (state self.old).run_output (record_of item.now)) };

    /// Writes a part of the output at the end of the input into `buffer`; with the last part it
    /// returns the outcome. `line_due` says whether it is the first part, and the line of version 2
    /// still to be written.
    fn finish(&mut self, line_due: bool, buffer: &mut Vec<u8>) -> Finished
        requires { buffer.old.items ≡ [] }
        ensures ok { IfOk result (IsLastPart ((state self.old).run_output [])
            ((state self.new).run_output []) (parts self.old) (parts self.new) line_due
            buffer.new.items) }
        ensures error { IfErr result (λ fault. fault ≡ EngineFault.NoMemory) };
}
