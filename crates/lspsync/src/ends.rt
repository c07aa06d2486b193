//! How a run ends: its status, and what is printed of it on standard error.

ghost use Rattle.std.specs.Prelude.{◌≡◌, ◌≢◌, ◌++◌, None, Some, codes, false, option_map};
ghost use Rattle.std.specs.Result.{result_and};
ghost use Rattle.lsp_program.specs.Output.{IsPrinted};
ghost use Rattle.lspsync.specs.Run.{Ends, IsEndAfter, IsFaultEnd, IsOutcomeEnd, both_ends};
ghost use Rattle.lspsync.specs.Run.{error_line};
ghost use Rattle.lspsync.specs.Run.{is_write_fault, missing_text, status_of, unlisted_text};

use crate::fault_text::text_of;
use itoa::Buffer;
use lsp_program::{BAD_INPUT, OUT_OF_MEMORY, STREAM_FAULT, USAGE, digits, print};
use lsp_replay::{EngineFault, Missing, Outcome, Sink};
use std::io::ErrorKind;

/// What is said of options that exclude each other.
pub const CONTRARY: &str = "`--squash` goes neither with `--whole` nor with `--live`";

/// What is said of a file whose documents should be listed, and can't be.
const UNLISTED: &str =
    "its documents can't be listed: out of memory, or it can't be read to its end";

/// The end of the program, or of a part of it.
#[derive(Drop)]
pub struct Ending {
    /// The exit status.
    pub status: u8,
    /// Whether all lines on standard error could be printed.
    pub printed: Result<(), EngineFault>,
    /// Whether the output failed. Then nothing more is written.
    pub output_failed: bool,
}

impl Ending {
    /// Makes an end whose output didn't fail.
    pub fn new(status: u8, printed: Result<(), EngineFault>) -> Ending
        ensures { result ≡ record { status = status; printed = printed; output_failed = false } }
    {
        Ending {
            status,
            printed,
            output_failed: false,
        }
    }

    /// Makes the end of what comes after a heading, whose own failure to print is the first.
    pub fn after(self, heading: Result<(), EngineFault>) -> Ending
        ensures { result ≡ record self { printed = result_and heading self.printed } }
    {
        Ending {
            printed: heading.and(self.printed),
            ..self
        }
    }
}

/// Joins the ends of two parts: the greater status, and the first failure to print.
pub fn both(first: Ending, second: Ending) -> Ending
    ensures { result ≡ both_ends first second }
{
    Ending {
        status: first.status.max(second.status),
        printed: first.printed.and(second.printed),
        output_failed: second.output_failed,
    }
}

/// Reports a second fault after an end, if there is one.
pub fn end_after<E: Sink>(first: Ending, second: Option<EngineFault>, errors: &mut E) -> Ending
    ensures { IsEndAfter second first (E.seen errors.old) (E.seen errors.new) result }
{
    match second {
        None => first,
        Some(fault) => both(first, report(fault, errors)),
    }
}

/// Ends with an outcome's status. If something is missing that was asked for, a line says what, with
/// the name of the file.
pub fn end_well<E: Sink>(name: Option<&str>, outcome: Outcome, errors: &mut E) -> Ending
    ensures { IsOutcomeEnd (option_map (λ name. name.now) name.entry) outcome
        (E.seen errors.old) (E.seen errors.new) result }
{
    match outcome.missing {
        None => Ending::new(outcome.status, Ok(())),
        Some(missing) => say(outcome.status, name, missing_text(missing), errors),
    }
}

/// Ends with a status. A line says that the document is missing that was asked for in a file, and
/// words list those that the file has.
pub fn end_missing<E: Sink>(name: &str, status: u8, words: &str, errors: &mut E) -> Ending
    ensures { Ends status
        (error_line (Some name.now) (missing_text Missing.Document) ++ words.now) false
        (E.seen errors.old) (E.seen errors.new) result }
{
    say_list(status, name, missing_text(Missing::Document), words, errors)
}

/// Ends with a status. A line says that the document is missing that was asked for in a file, and
/// another one that those that the file has can't be listed.
pub fn end_unlisted<E: Sink>(name: &str, status: u8, errors: &mut E) -> Ending
    ensures { Ends status (error_line (Some name.now) (missing_text Missing.Document)
        ++ error_line (Some name.now) unlisted_text) false
        (E.seen errors.old) (E.seen errors.new) result }
{
    say_both(
        status,
        name,
        missing_text(Missing::Document),
        UNLISTED,
        errors,
    )
}

/// Ends with a status, and prints two lines about a file.
fn say_both<E: Sink>(status: u8, name: &str, first: &str, second: &str, errors: &mut E) -> Ending
    ensures { Ends status (error_line (Some name.now) first.now
        ++ error_line (Some name.now) second.now) false
        (E.seen errors.old) (E.seen errors.new) result }
{
    let (start, end) = ("lspsync: ", "\n");
    Ending::new(
        status,
        print(
            errors,
            &[
                start, name, ": ", first, end, start, name, ": ", second, end,
            ],
        ),
    )
}

/// Ends with a status, and prints a line about a file, and more words.
fn say_list<E: Sink>(status: u8, name: &str, what: &str, words: &str, errors: &mut E) -> Ending
    ensures { Ends status (error_line (Some name.now) what.now ++ words.now) false
        (E.seen errors.old) (E.seen errors.new) result }
{
    Ending::new(
        status,
        print(errors, &["lspsync: ", name, ": ", what, "\n", words]),
    )
}

/// Returns what a part of a log lacks.
fn missing_text(missing: Missing) -> &'static str
    ensures { result.now ≡ missing_text missing }
{
    match missing {
        Missing::Record => "the log has no record of this number",
        Missing::Document => "no single document was open whose URI ends so",
    }
}

/// Ends with a status, and prints a line, about a file if one is named.
pub fn say<E: Sink>(status: u8, name: Option<&str>, what: &str, errors: &mut E) -> Ending
    ensures { Ends status (error_line (option_map (λ name. name.now) name.entry) what.now) false
        (E.seen errors.old) (E.seen errors.new) result }
{
    match name {
        Some(name) => Ending::new(
            status,
            print(errors, &["lspsync: ", name, ": ", what, "\n"]),
        ),
        None => Ending::new(status, print(errors, &["lspsync: ", what, "\n"])),
    }
}

/// Prints why the words of the command line can't be read: out of memory, or a word that isn't
/// UTF-8.
pub fn refuse<E: Sink>(kind: ErrorKind, errors: &mut E) -> Ending
    ensures memory { kind ≡ ErrorKind.OutOfMemory →
        IsFaultEnd EngineFault.NoMemory (E.seen errors.old) (E.seen errors.new) result }
    ensures words { kind ≢ ErrorKind.OutOfMemory →
        Ends 2 (error_line None (codes "the command line is not UTF-8")) false
        (E.seen errors.old) (E.seen errors.new) result }
{
    if kind == ErrorKind::OutOfMemory {
        return report(EngineFault::NoMemory, errors);
    }
    say(USAGE, None, "the command line is not UTF-8", errors)
}

/// Prints the line of a fault, and ends with its status.
pub fn report<E: Sink>(fault: EngineFault, errors: &mut E) -> Ending
    ensures { IsFaultEnd fault (E.seen errors.old) (E.seen errors.new) result }
{
    let mut buffer = Buffer::new();
    let (text, place) = text_of(fault);
    let place = digits(place, &mut buffer);
    let printed = print(errors, &["lspsync: ", text, place, "\n"]);
    Ending {
        status: status_of(fault),
        printed,
        output_failed: is_write_fault(fault),
    }
}

/// Returns whether a fault is one of writing.
pub fn is_write_fault(fault: EngineFault) -> bool
    ensures { result ≡ is_write_fault fault }
{
    matches!(fault, EngineFault::Write)
}

/// Returns the status of a fault.
pub fn status_of(fault: EngineFault) -> u8
    ensures { result ≡ status_of fault }
{
    match fault {
        EngineFault::Read | EngineFault::Write | EngineFault::TooManyTurns => STREAM_FAULT,
        EngineFault::NoMemory => OUT_OF_MEMORY,
        EngineFault::Frame(_)
        | EngineFault::Truncated { .. }
        | EngineFault::BodyTooLong { .. }
        | EngineFault::BadLog { .. } => BAD_INPUT,
    }
}
