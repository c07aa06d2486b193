//! Why a record can't come where it is in a log.

ghost use Rattle.std.specs.Prelude.{◌≡◌, IfSome, true};
ghost use Rattle.std.specs.Str.{bytes_eq};
ghost use Rattle.lsp_log.specs.Log.{version_line};
ghost use Rattle.lspsync.specs.Reasons.{HasOneSide, IsBadWith, IsCheckRun, IsGoodWith, IsReason};
ghost use Rattle.lspsync.specs.Reasons.{reason_text};

use crate::files::Folder;
use lsp_log::VERSION_LINE;
use lsp_program::MAX_TURNS;
use lsp_replay::{EngineFault, Outcome, Settings, Told, check};
use std::alloc::Global;
use std::io::Read;

/// Why a record can't come where it is.
#[derive(Clone, Copy, Debug, PartialEq, Eq)]
pub enum Reason {
    /// It has no mark.
    NoMark,
    /// It is a message of the editor after `exit`.
    AfterExit,
    /// It is a change before the result of `initialize`.
    EarlyChange,
    /// It is a result of `initialize` that can't be read, or has an unknown encoding.
    BadResult,
    /// It has replies, where none may be.
    HasReplies,
}

/// The mark and the frame of a message that asks nothing.
const NOTHING: &[u8] = b">Content-Length: 32\r\n\r\n{\"jsonrpc\":\"2.0\",\"method\":\"$/x\"}";

/// The frame of a change.
const CHANGE: &[u8] =
    b"Content-Length: 51\r\n\r\n{\"jsonrpc\":\"2.0\",\"method\":\"textDocument/didChange\"}";

/// Returns why the record at this byte offset of a log can't come there: the log is read up to it a
/// few times more, with other bytes in its place. Returns none if it can't be, as a pipe, and
/// without memory.
pub fn reason_for<F: Folder>(
    alloc: Global,
    name: &str,
    settings: &Settings,
    place: u64,
    folder: &F,
) -> Option<Reason>
    ensures { IfSome result (IsReason (F.bytes folder.now name.now) place) }
{
    if place == 0 {
        return Some(Reason::HasReplies);
    }
    if !folder.is_lasting(name) {
        return None;
    }
    if has_one_side(folder.open(name).ok()?) {
        return Some(Reason::AfterExit);
    }
    let next = place.checked_add(1)?;
    if is_bad_with(alloc, folder.open(name).ok()?, settings, next, b"", place) {
        return Some(Reason::NoMark);
    }
    if is_good_with(alloc, folder.open(name).ok()?, settings, next, CHANGE) {
        return Some(Reason::BadResult);
    }
    if is_bad_with(
        alloc,
        folder.open(name).ok()?,
        settings,
        place,
        NOTHING,
        place,
    ) {
        return Some(Reason::AfterExit);
    }
    if is_bad_with(
        alloc,
        folder.open(name).ok()?,
        settings,
        next,
        CHANGE,
        place,
    ) {
        return Some(Reason::EarlyChange);
    }
    None
}

/// Returns whether a log has one side alone: it can be read, and doesn't begin with the line of
/// version 2.
fn has_one_side<T: Read + Drop>(log: T) -> bool
    ensures { result ≡ true → HasOneSide (T.remaining log) }
{
    let mut log = log;
    let mut line = [0u8; 18];
    match log.read_exact(&mut line) {
        Ok(()) => !is_line(&line),
        Err(_) => false,
    }
}

/// Returns whether these bytes are the line of version 2.
fn is_line(bytes: &[u8]) -> bool
    ensures { result ≡ bytes_eq bytes.now version_line }
{
    bytes == VERSION_LINE
}

/// Returns whether so many bytes of a log, and then these, have a record at this byte offset that
/// can't come there.
fn is_bad_with<T: Read + Drop>(
    alloc: Global,
    log: T,
    settings: &Settings,
    len: u64,
    more: &[u8],
    place: u64,
) -> bool
    ensures { result ≡ true → IsBadWith settings.now (T.remaining log) len more.now place }
{
    match checked(alloc, log.take(len).chain(more), settings) {
        Err(EngineFault::BadLog { place: found }) => found == place,
        _ => false,
    }
}

/// Returns whether so many bytes of a log, and then these, are a log.
fn is_good_with<T: Read + Drop>(
    alloc: Global,
    log: T,
    settings: &Settings,
    len: u64,
    more: &[u8],
) -> bool
    ensures { result ≡ true → IsGoodWith settings.now (T.remaining log) len more.now }
{
    checked(alloc, log.take(len).chain(more), settings).is_ok()
}

/// Returns how `check` of a log ends.
fn checked<T: Read + Drop>(
    alloc: Global,
    log: T,
    settings: &Settings,
) -> Result<Outcome, EngineFault>
    ensures { IsCheckRun settings.now (T.remaining log) result }
{
    let mut input = Told::new(log);
    let mut lines = Told::new(Vec::new(alloc));
    check(alloc, &mut input, &mut lines, *settings, MAX_TURNS)
}

/// Returns what is said of a reason.
pub fn reason_text(reason: Reason) -> &'static str
    ensures { result.now ≡ reason_text reason }
{
    match reason {
        Reason::NoMark => "no `>` or `<` is here",
        Reason::AfterExit => "this message comes after `exit`",
        Reason::EarlyChange => "this change comes before the result of `initialize`",
        Reason::BadResult => {
            "this result of `initialize` can't be read, or its encoding is unknown"
        }
        Reason::HasReplies => "the log has its replies already",
    }
}
