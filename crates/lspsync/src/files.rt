//! Files of logs, by their names.

ghost use Rattle.std.specs.Prelude.{◌≡◌, ◌++◌, Err, IfOk, IfSome, List, None, Ok, Option, Some, false, option_map, string_bytes, ℕ};
ghost use Rattle.std.specs.Io.KnownBytes.{Keeps};
ghost use Rattle.lsp_program.specs.Output.{IsPrinted};
ghost use Rattle.lspsync.specs.FaultText.{fault_cause, fault_text};
ghost use Rattle.lspsync.specs.Reasons.{IsCauseOf};
ghost use Rattle.lspsync.specs.Run.{Ends, IsFileEnding, IsUnreadable, blame_lines};
ghost use Rattle.lspsync.specs.Run.{status_of};

use crate::beginning::hint;
use crate::command_line::Call;
use crate::ends::{Ending, end_missing, end_unlisted, end_well, report, say, status_of};
use crate::fault_text::{cause_of, text_of};
use crate::openings::openings;
use crate::other_settings::{equal_text, setting_for};
use crate::reached::{Front, front_before, settings_of};
use crate::reasons::{reason_for, reason_text};
use crate::wanted::Wanted;
use itoa::Buffer;
use lsp_program::{STREAM_FAULT, digits, print};
use lsp_replay::{EngineFault, Outcome, Settings, Sink};
use std::alloc::Global;
use std::io::{self, ErrorKind, Read};

/// Opens files by name.
pub trait Folder {
    // What is known of the bytes of a file, by its name.
    ghost bytes: { Self → List ℕ → Option (List ℕ) };

    type File: Read + Drop;

    /// Opens a file to be read from its beginning on.
    fn open(&self, name: &str) -> io::Result<Self::File>
        ensures { IfOk result (λ file. Keeps (bytes self.now name.now) (Self.File.remaining file)) };

    /// Returns whether a file has its bytes still once they were read, as a pipe has not.
    fn is_lasting(&self, name: &str) -> bool;
}

/// How many bytes of a log's beginning are kept.
const KEPT: usize = 64;

const SWAPPED: &str = "the file that is named first is a log: compare SAVED LOG";

/// A log that is read from a file. It keeps what is said of a faulty one: the first bytes, the last
/// error of a read, how it is read, and whether the text that it is compared with is a log.
#[derive(Drop)]
pub struct LogFile<T> {
    file: T,
    first: Vec<u8>,
    error: Option<io::Error>,
    settings: Option<Settings>,
    is_swapped: bool,
}

/// The end of a run over a file.
#[derive(Drop)]
pub struct FileEnd {
    pub ending: Ending,
    /// The part of the log before its fault, if that can be shown.
    pub front: Option<Front>,
}

impl FileEnd {
    /// Makes an end without such a part.
    pub fn whole(ending: Ending) -> FileEnd
        ensures { result ≡ record { ending = ending; front = None } }
    {
        FileEnd {
            ending,
            front: None,
        }
    }
}

impl<T> LogFile<T> {
    /// Takes the file of a call, before its first byte is read.
    pub fn new(alloc: Global, file: T, call: &Call) -> LogFile<T>
        ensures { result.file ≡ file }
    {
        LogFile {
            file,
            first: Vec::new(alloc),
            error: None,
            settings: settings_of(call),
            is_swapped: is_swapped(call),
        }
    }
}

impl<T> LogFile<T> {
    /// Returns what a faulty log seems to be: the saved text, or by its first bytes.
    fn seems(&self) -> Option<&'static str> {
        if self.is_swapped {
            return Some(SWAPPED);
        }
        hint(&self.first)
    }
}

impl<T: Read> Read for LogFile<T> {
    ghost remaining = { λ log. T.remaining log.file };

    fn read(&mut self, buf: &mut [u8]) -> io::Result<usize> {
        let answer = self.file.read(buf);
        match &answer {
            Ok(count) => keep(&mut self.first, &buf[..*count]),
            Err(error) => self.error = Some(*error),
        }
        answer
    }
}

/// Keeps bytes that were read, as far as they are among the first. Without memory it keeps none.
fn keep(first: &mut Vec<u8>, bytes: &[u8]) {
    let room = KEPT.saturating_sub(first.len());
    let _ = first.extend_from_slice(&bytes[..room.min(bytes.len())]);
}

/// Ends with the outcome of a run over a file, or reports its fault. `repeats` says whether the call
/// is made once more on the part before the fault.
pub fn end_file<T, F: Folder, E: Sink>(
    alloc: Global,
    name: &str,
    log: &LogFile<T>,
    wanted: Option<Wanted>,
    answer: Result<Outcome, EngineFault>,
    repeats: bool,
    folder: &F,
    errors: &mut E,
) -> FileEnd
    ensures { IsFileEnding name.now wanted (F.bytes folder.now name.now) answer
        (E.seen errors.old) (E.seen errors.new) result.ending }
{
    match answer {
        Ok(outcome) => { FileEnd::whole(end_outcome(alloc, name, wanted, outcome, folder, errors)) }
        Err(fault) => end_fault(alloc, name, log, fault, repeats, folder, errors),
    }
}

/// Ends with an outcome. If the document is missing that the call names, it lists those that the
/// file has, or says that it can't. If texts differ that are equal with another setting, it names
/// that one.
fn end_outcome<F: Folder, E: Sink>(
    alloc: Global,
    name: &str,
    wanted: Option<Wanted>,
    outcome: Outcome,
    folder: &F,
    errors: &mut E,
) -> Ending
    ensures { IsFileEnding name.now wanted (F.bytes folder.now name.now) (Ok outcome)
        (E.seen errors.old) (E.seen errors.new) result }
{
    if let Some(setting) = setting_for(alloc, name, &wanted, outcome, folder) {
        return say(outcome.status, Some(name), equal_text(setting), errors);
    }
    match openings(alloc, name, wanted, outcome, folder) {
        Ok(Some(list)) => end_missing(name, outcome.status, &list, errors),
        Ok(None) => end_well(Some(name), outcome, errors),
        Err(_) => end_unlisted(name, outcome.status, errors),
    }
}

/// Reports the fault of a run over a file.
fn end_fault<T, F: Folder, E: Sink>(
    alloc: Global,
    name: &str,
    log: &LogFile<T>,
    fault: EngineFault,
    repeats: bool,
    folder: &F,
    errors: &mut E,
) -> FileEnd
    ensures { (wanted : Option Wanted) →
        IsFileEnding name.now wanted (F.bytes folder.now name.now) (Err fault)
        (E.seen errors.old) (E.seen errors.new) result.ending }
{
    match (fault, log.error) {
        (EngineFault::Read, Some(error)) => {
            FileEnd::whole(unreadable(alloc, name, error, errors))
        }
        _ => match cause_of(fault) {
            Some(cause) => {
                let cause = cause_in(alloc, name, log, fault, cause, folder);
                let front = front_on(alloc, name, log, fault, folder);
                let hint = hint_on(alloc, log.seems(), front, repeats);
                let ending = blame(name, fault, cause, hint.as_deref(), errors);
                FileEnd { ending, front }
            }
            None => FileEnd::whole(report(fault, errors)),
        },
    }
}

/// Returns what is said of the cause of a fault: of a record that can't come where it is the reason,
/// if it is found.
fn cause_in<T, F: Folder>(
    alloc: Global,
    name: &str,
    log: &LogFile<T>,
    fault: EngineFault,
    cause: &'static str,
    folder: &F,
) -> &'static str
    ensures { fault_cause fault ≡ Some cause.now →
        IsCauseOf (F.bytes folder.now name.now) fault result.now }
{
    let (EngineFault::BadLog { place }, Some(settings)) = (fault, &log.settings) else {
        return cause;
    };
    match reason_for(alloc, name, settings, place, folder) {
        Some(reason) => reason_text(reason),
        None => cause,
    }
}

/// Reads a file's text.
pub fn read_text<F: Folder>(alloc: Global, name: &str, folder: &F) -> io::Result<String>
    ensures { IfOk result (λ text. IfSome (F.bytes folder.now name.now)
        (λ bytes. string_bytes text ≡ bytes)) }
{
    io::read_to_string(alloc, folder.open(name)?)
}

/// Prints why a file can't be opened or read. Out of memory has its own status.
pub fn unreadable<E: Sink>(alloc: Global, name: &str, error: io::Error, errors: &mut E) -> Ending
    ensures { IsUnreadable name.now (E.seen errors.old) (E.seen errors.new) result }
{
    if error.kind() == ErrorKind::OutOfMemory {
        return report(EngineFault::NoMemory, errors);
    }
    match format!(in alloc; "{error}") {
        Ok(reason) => say(STREAM_FAULT, Some(name), reason.as_str(), errors),
        Err(_) => report(EngineFault::NoMemory, errors),
    }
}

/// Returns whether a call compares a log with what should be one.
fn is_swapped(call: &Call) -> bool {
    match call {
        Call::Compare(_, against) => {
            against.text.starts_with("Content-Length:")
                || against.text.starts_with("lsp-session-log 2")
        }
        _ => false,
    }
}

/// Returns the part of a log before its fault, if it can be shown, and if the file seems to be a log.
fn front_on<T, F: Folder>(
    alloc: Global,
    name: &str,
    log: &LogFile<T>,
    fault: EngineFault,
    folder: &F,
) -> Option<Front> {
    if log.seems().is_some() {
        return None;
    }
    front_before(alloc, name, log.settings.as_ref()?, fault, folder)
}

/// Returns what a faulty log seems to be, else what is shown of it, or can be.
fn hint_on(
    alloc: Global,
    seems: Option<&str>,
    front: Option<Front>,
    repeats: bool,
) -> Option<String> {
    if let Some(seems) = seems {
        return String::from_str(alloc, seems).ok();
    }
    let number = front?.records;
    if repeats {
        return format!(in alloc; "the output is of the log up to message {number}").ok();
    }
    format!(in alloc; "`replay --at {number}` shows the texts before it").ok()
}

/// Prints the fault of a log and its cause, and a hint.
fn blame<E: Sink>(
    name: &str,
    fault: EngineFault,
    cause: &str,
    hint: Option<&str>,
    errors: &mut E,
) -> Ending
    ensures { (hint : Option (List ℕ)) × Ends (status_of fault)
        (blame_lines name.now (fault_text fault) cause.now hint) false
        (E.seen errors.old) (E.seen errors.new) result }
{
    let mut buffer = Buffer::new();
    let (text, place) = text_of(fault);
    let place = digits(place, &mut buffer);
    let printed = print_blame(name, text, place, cause, hint, errors);
    Ending::new(status_of(fault), printed)
}

/// Prints a fault's text, its place and its cause, and a hint.
fn print_blame<E: Sink>(
    name: &str,
    text: &str,
    place: &str,
    cause: &str,
    hint: Option<&str>,
    errors: &mut E,
) -> Result<(), EngineFault>
    ensures { IsPrinted (blame_lines name.now (text.now ++ place.now) cause.now
        (option_map (λ hint. hint.now) hint.entry)) (E.seen errors.old) (E.seen errors.new) result }
{
    let (start, page, end) = ("lspsync: ", " (docs/PROTOCOL.md#codes)", "\n");
    match hint {
        Some(hint) => print(
            errors,
            &[
                start, name, ": ", text, place, ": ", cause, page, end, start, name, ": ", hint,
                end,
            ],
        ),
        None => print(
            errors,
            &[start, name, ": ", text, place, ": ", cause, page, end],
        ),
    }
}
