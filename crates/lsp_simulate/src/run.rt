//! The program over any reader and writers.

ghost use Rattle.std.specs.Prelude.{◌≡◌, ◌≢◌, ◌⊎◌, ◌++◌, Result, codes, map};
ghost use Rattle.clap.specs.Values.{kind_of};
ghost use Rattle.clap.specs.declared.error.kind.ErrorKind.TheVariants.{OutOfMemory};
ghost use Rattle.clap.specs.declared.error.kind.ErrorKind.TheVariants.{DisplayHelp, DisplayVersion};
ghost use Rattle.lsp_program.specs.Output.{IsTextPrinted, digits_of, streams};
ghost use Rattle.lsp_simulate.specs.Run.{EndsWith, IsOutputEnd, IsReported, IsSession, IsSessionEnd};
ghost use Rattle.lsp_simulate.specs.Run.{IsSimulation, pair_text, run_fault};
ghost use Rattle.lsp_simulate.specs.Run.{run_fault_status, run_fault_text};
ghost use Rattle.lsp_simulate.specs.declared.run.RunFault.TheVariants.{NoMemory, Pair};

use crate::command_line::{Setting, parse};
use crate::session::simulate;
use clap::error as clap_error;
use itoa::Buffer;
use lsp_pair::PairFault;
use lsp_program::{
    BAD_INPUT, OUT_OF_MEMORY, STREAM_FAULT, USAGE, digits, flush, print, print_text,
};
use lsp_stream::{EngineFault, Sink, Source};
use std::alloc::{AllocError, Global};
use std::io::ErrorKind;

/// Why a run ended before its input did.
#[derive(Clone, Copy, Debug, PartialEq, Eq)]
pub enum RunFault {
    /// No pair has these settings.
    Pair(PairFault),
    /// A read of the events failed, or too many of them were made.
    Read,
    /// A write or a flush of the output failed, or too many of them were made.
    Write,
    /// Memory ran out.
    NoMemory,
    /// A line, counted from 1, is no event.
    BadEvent { line: u64 },
}

impl From<PairFault> for RunFault {
    ghost from_gives = { λ fault given. given ≡ Pair fault };

    fn from(fault: PairFault) -> RunFault {
        RunFault::Pair(fault)
    }
}

impl From<AllocError> for RunFault {
    ghost from_gives = { λ _ fault. fault ≡ NoMemory };

    fn from(_: AllocError) -> RunFault {
        RunFault::NoMemory
    }
}

impl From<EngineFault> for RunFault {
    ghost from_gives = { λ fault given. given ≡ run_fault fault };

    /// Returns the fault of output: nothing is read there.
    fn from(fault: EngineFault) -> RunFault {
        match fault {
            EngineFault::NoMemory => RunFault::NoMemory,
            _ => RunFault::Write,
        }
    }
}

/// Runs the program, and returns its exit status. `words` is its command line, the program's name
/// first. Words that ask for no session are explained, and nothing is read. A fault's line is
/// written to `errors`.
pub fn run<R: Source, W: Sink, E: Sink>(
    alloc: Global,
    words: &[&str],
    input: &mut R,
    output: &mut W,
    errors: &mut E,
) -> u8
    ensures { IsSimulation (map (λ word. word.now) words.entry.now)
        (streams (R.seen input.old) (W.seen output.old) (E.seen errors.old))
        (streams (R.seen input.new) (W.seen output.new) (E.seen errors.new)) result }
{
    match parse(alloc, words) {
        Ok(Some(setting)) => run_session(alloc, setting, input, output, errors),
        Ok(None) => USAGE,
        Err(error) => print_error(alloc, &error, output, errors),
    }
}

/// Runs a session, and then flushes the output, also after a fault. The first fault is reported.
fn run_session<R: Source, W: Sink, E: Sink>(
    alloc: Global,
    setting: Setting,
    input: &mut R,
    output: &mut W,
    errors: &mut E,
) -> u8
    ensures session { IsSession setting
        (streams (R.seen input.old) (W.seen output.old) (E.seen errors.old))
        (streams (R.seen input.new) (W.seen output.new) (E.seen errors.new)) result }
{
    let ran = simulate(alloc, setting, input, output);
    let flushed = flush(output);
    end_session(ran, flushed, errors)
}

/// Ends with status 0, or reports the first fault.
fn end_session<E: Sink>(
    ran: Result<(), RunFault>,
    flushed: Result<(), EngineFault>,
    errors: &mut E,
) -> u8
    ensures { IsSessionEnd ran flushed (E.seen errors.old) (E.seen errors.new) result }
{
    match ran {
        Ok(()) => end_output(flushed, errors),
        Err(fault) => report(fault, errors),
    }
}

/// Ends with status 0, or reports why the output failed.
fn end_output<E: Sink>(printed: Result<(), EngineFault>, errors: &mut E) -> u8
    ensures { IsOutputEnd printed (E.seen errors.old) (E.seen errors.new) result }
{
    match printed {
        Ok(()) => 0,
        Err(fault) => report(RunFault::from(fault), errors),
    }
}

/// Prints the text of `clap`'s error: help to the output, and a usage fault to the errors. Returns
/// the status.
fn print_error<W: Sink, E: Sink>(
    alloc: Global,
    error: &clap::Error,
    output: &mut W,
    errors: &mut E,
) -> u8
    ensures memory { kind_of error.now ≡ OutOfMemory → (W.seen output.new ≡ W.seen output.old)
        × IsReported NoMemory (E.seen errors.old) (E.seen errors.new) result }
    ensures mistake { kind_of error.now ≢ OutOfMemory → kind_of error.now ≢ DisplayHelp
        → kind_of error.now ≢ DisplayVersion →
        (W.seen output.new ≡ W.seen output.old) × (result ≡ 2)
        × ((printed : Result (Unit {0}) EngineFault)
        × IsTextPrinted (E.seen errors.old) (E.seen errors.new) printed) }
    ensures help { (kind_of error.now ≡ DisplayHelp) ⊎ (kind_of error.now ≡ DisplayVersion)
        → (printed : Result (Unit {0}) EngineFault)
        × IsTextPrinted (W.seen output.old) (W.seen output.new) printed
        × IsOutputEnd printed (E.seen errors.old) (E.seen errors.new) result }
{
    if error.kind() == clap_error::ErrorKind::OutOfMemory {
        return report(RunFault::NoMemory, errors);
    }
    if error.use_stderr() {
        let _ = print_text(alloc, error, errors);
        return USAGE;
    }
    let printed = print_text(alloc, error, output);
    end_output(printed, errors)
}

/// Prints why the program can't start: out of memory, or a word that isn't UTF-8. Returns the
/// status.
pub fn refuse<E: Sink>(kind: ErrorKind, errors: &mut E) -> u8
    ensures memory { kind ≡ ErrorKind.OutOfMemory →
        IsReported NoMemory (E.seen errors.old) (E.seen errors.new) result }
    ensures words { kind ≢ ErrorKind.OutOfMemory →
        EndsWith 2 (codes "the command line is not UTF-8")
        (E.seen errors.old) (E.seen errors.new) result }
{
    if kind == ErrorKind::OutOfMemory {
        return report(RunFault::NoMemory, errors);
    }
    let _ = print(
        errors,
        &["lsp_simulate: ", "the command line is not UTF-8", "\n"],
    );
    USAGE
}

/// Prints the line of a fault, and returns its status.
pub fn report<E: Sink>(fault: RunFault, errors: &mut E) -> u8
    ensures { IsReported fault (E.seen errors.old) (E.seen errors.new) result }
{
    let mut buffer = Buffer::new();
    let (text, line) = text_of(fault);
    let _ = print(
        errors,
        &["lsp_simulate: ", text, digits(line, &mut buffer), "\n"],
    );
    status_of(fault)
}

/// Returns the text of a fault, and the number of a line that comes after it.
fn text_of(fault: RunFault) -> (&'static str, Option<u64>)
    ensures { run_fault_text fault ≡ result.0.now ++ digits_of result.1 }
{
    match fault {
        RunFault::Pair(fault) => (pair_text(fault), None),
        RunFault::Read => ("read fault", None),
        RunFault::Write => ("write fault", None),
        RunFault::NoMemory => ("out of memory", None),
        RunFault::BadEvent { line } => ("bad event at line ", Some(line)),
    }
}

/// Returns why no pair has a setting.
fn pair_text(fault: PairFault) -> &'static str
    ensures { result.now ≡ pair_text fault }
{
    match fault {
        PairFault::NotUtf16 => "the server's encoding is fixed, and is not utf-16",
        PairFault::LimitsTooSmall => {
            "one of the server's limits is below the client's, or only the client is lenient"
        }
    }
}

/// Returns the status of a fault.
fn status_of(fault: RunFault) -> u8
    ensures { result ≡ run_fault_status fault }
{
    match fault {
        RunFault::Pair(_) => USAGE,
        RunFault::Read | RunFault::Write => STREAM_FAULT,
        RunFault::NoMemory => OUT_OF_MEMORY,
        RunFault::BadEvent { .. } => BAD_INPUT,
    }
}
