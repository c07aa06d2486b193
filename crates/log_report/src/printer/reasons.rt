//! Why a record was refused, in words.

ghost use Rattle.std.specs.Prelude.{◌≡◌, ◌++◌, OnOk, codes, decimal, option_map};
ghost use Rattle.std.specs.Fmt.{signed_decimal};
ghost use Rattle.lsp_edit.specs.declared.fault.Side.TheVariants.{Start, Stop};
ghost use Rattle.lsp_message.specs.Seen.{change_view};
ghost use Rattle.lsp_server.specs.Seen.{answer_view};
ghost use Rattle.log_report.specs.Reasons.{change_words, edit_reason, end_words, error_reason, position_words, range_sent};
ghost use Rattle.log_report.specs.Reasons.{hint_words, idle_words, is_idle, reason_words, store_reason, version_words};

use crate::facts::Hint;
use crate::lacks::lack_words;
use crate::members::{push_if, push_number, push_signed, push_words};
use log_session::one_more;
use lsp_edit::{EditFault, Side};
use lsp_frame::Limits;
use lsp_message::{ChangeParams, ErrorCode};
use lsp_server::{Answer, Refusal};
use lsp_store::StoreFault;
use lsp_text::{Position, Range};
use std::alloc::AllocError;

/// Writes why a message was refused, by the answer and the change that it is the answer to. An
/// answer that doesn't count as refused has no words.
pub fn push_reason(
    buffer: &mut Vec<u8>,
    limits: Limits,
    change: Option<&ChangeParams>,
    answer: &Answer,
) -> Result<(), AllocError>
    ensures { OnOk result (buffer.new.items ≡ buffer.old.items ++ reason_words limits
        (option_map (λ p. change_view p.now) change.entry) (answer_view answer.now)) }
{
    match answer {
        Answer::Reply { code, .. } => push_words(buffer, error_reason(*code)),
        Answer::Refused(Refusal::InvalidParams) => {
            push_words(buffer, "the parameters can't be read")
        }
        Answer::Refused(Refusal::Store(fault)) => push_store_reason(buffer, limits, change, *fault),
        Answer::Exit(_) => push_words(buffer, "`exit` came without `shutdown`"),
        Answer::Changed | Answer::Dropped | Answer::Ignored => Ok(()),
    }
}

fn error_reason(code: Option<ErrorCode>) -> &'static str
    ensures { result.now ≡ error_reason code }
{
    match code {
        None | Some(ErrorCode::MethodNotFound) => "",
        Some(ErrorCode::ParseError) => "the body is no JSON",
        Some(ErrorCode::InvalidRequest) => {
            "this is no message, or a request that may not come now"
        }
        Some(ErrorCode::InvalidParams) => "the parameters of `initialize` can't be read",
        Some(ErrorCode::ServerNotInitialized) => "no request may come before `initialize`",
    }
}

fn push_store_reason(
    buffer: &mut Vec<u8>,
    limits: Limits,
    change: Option<&ChangeParams>,
    fault: StoreFault,
) -> Result<(), AllocError>
    ensures { OnOk result (buffer.new.items ≡ buffer.old.items
        ++ store_reason limits (option_map (λ p. change_view p.now) change.entry) fault) }
{
    match fault {
        StoreFault::AlreadyOpen => push_words(buffer, "the document is open already"),
        StoreFault::TooManyDocuments => push_limit(
            buffer,
            "as many documents are open as --max-docs allows, ",
            limits.max_docs(),
        ),
        StoreFault::TextTooLong => push_limit(
            buffer,
            "the text has more bytes than --max-text allows, ",
            limits.max_text(),
        ),
        StoreFault::NotOpen => push_words(buffer, "the document is not open"),
        StoreFault::StaleVersion { held } => push_stale(buffer, change, held),
        StoreFault::TooManyChanges => push_change_limit(buffer, limits.max_changes()),
        StoreFault::Edit(fault) => push_edit_reason(buffer, change, fault),
        StoreFault::BodyTooLong { .. } | StoreFault::NoMemory => Ok(()),
    }
}

/// Writes words and a limit.
fn push_limit(buffer: &mut Vec<u8>, words: &str, limit: usize) -> Result<(), AllocError>
    ensures { OnOk result (buffer.new.items ≡ buffer.old.items ++ (words.now ++ decimal limit)) }
{
    push_words(buffer, words)?;
    push_number(buffer, limit as u64)
}

/// Writes that there are more changes than the limit, or too long ones.
fn push_change_limit(buffer: &mut Vec<u8>, limit: usize) -> Result<(), AllocError>
    ensures { OnOk result (buffer.new.items ≡ buffer.old.items
        ++ codes "there are more changes than --max-changes allows, " ++ decimal limit
        ++ codes ", or their texts have more than 1 GiB") }
{
    buffer.extend_from_slice(b"there are more changes than --max-changes allows, ")?;
    push_number(buffer, limit as u64)?;
    push_words(buffer, ", or their texts have more than 1 GiB")
}

/// Writes the version that was sent, the current one, and whether nothing else was sent.
fn push_stale(
    buffer: &mut Vec<u8>,
    change: Option<&ChangeParams>,
    held: i32,
) -> Result<(), AllocError>
    ensures { OnOk result (buffer.new.items ≡ buffer.old.items ++ codes "version "
        ++ version_words (option_map (λ p. change_view p.now) change.entry)
        ++ codes " was sent, and the current one is " ++ signed_decimal held
        ++ idle_words (option_map (λ p. change_view p.now) change.entry)) }
{
    buffer.extend_from_slice(b"version ")?;
    push_version(buffer, change)?;
    buffer.extend_from_slice(b" was sent, and the current one is ")?;
    push_signed(buffer, i64::from(held))?;
    push_if(buffer, is_idle(change), ", and it has no changes")
}

/// Returns whether it is a change without changes of the text.
pub fn is_idle(change: Option<&ChangeParams>) -> bool
    ensures { result ≡ is_idle (option_map (λ p. change_view p.now) change.entry) }
{
    match change {
        Some(params) => params.changes.is_empty(),
        None => false,
    }
}

/// Writes what comes after a reason, if something does.
pub fn push_hint(buffer: &mut Vec<u8>, hint: Option<Hint>) -> Result<(), AllocError>
    ensures { OnOk result (buffer.new.items ≡ buffer.old.items ++ hint_words hint) }
{
    push_words(buffer, hint_words(hint))
}

/// Returns what comes after a reason.
fn hint_words(hint: Option<Hint>) -> &'static str
    ensures { result.now ≡ hint_words hint }
{
    match hint {
        None => "",
        Some(Hint::Renamed) => "; its editor may have renamed a document that was open",
        Some(Hint::Swapped) => {
            "; the one that was sent was left out before: messages were swapped"
        }
        Some(Hint::Lacks(lack)) => lack_words(lack),
    }
}

/// Writes the version that a change sends.
fn push_version(buffer: &mut Vec<u8>, change: Option<&ChangeParams>) -> Result<(), AllocError>
    ensures { OnOk result (buffer.new.items ≡ buffer.old.items
        ++ version_words (option_map (λ p. change_view p.now) change.entry)) }
{
    match change {
        Some(params) => push_signed(buffer, i64::from(params.version)),
        None => Ok(()),
    }
}

/// Returns the range of one of the changes that were sent, by its index.
fn range_sent(change: Option<&ChangeParams>, index: usize) -> Option<Range>
    ensures { result ≡ range_sent (option_map (λ p. change_view p.now) change.entry) index }
{
    change?.changes.get(index)?.range
}

fn push_edit_reason(
    buffer: &mut Vec<u8>,
    change: Option<&ChangeParams>,
    fault: EditFault,
) -> Result<(), AllocError>
    ensures { OnOk result (buffer.new.items ≡ buffer.old.items
        ++ edit_reason (option_map (λ p. change_view p.now) change.entry) fault) }
{
    match fault {
        EditFault::InsideCharacter {
            change: index,
            side,
        } => push_inside(buffer, index, side, range_sent(change, index)),
        EditFault::ReversedRange { change: index } => {
            push_reversed(buffer, index, range_sent(change, index))
        }
        EditFault::NoMemory => Ok(()),
    }
}

/// Writes that an end of a change's range is inside a character.
fn push_inside(
    buffer: &mut Vec<u8>,
    index: usize,
    side: Side,
    range: Option<Range>,
) -> Result<(), AllocError>
    ensures { OnOk result (buffer.new.items ≡ buffer.old.items ++ change_words index
        ++ end_words side range ++ codes ", inside a character") }
{
    push_change(buffer, index)?;
    push_side(buffer, side, range)?;
    push_words(buffer, ", inside a character")
}

/// Writes that a change's range starts after its end.
fn push_reversed(buffer: &mut Vec<u8>, index: usize, range: Option<Range>) -> Result<(), AllocError>
    ensures { OnOk result (buffer.new.items ≡ buffer.old.items ++ change_words index
        ++ end_words Start range ++ codes ", after it" ++ end_words Stop range) }
{
    push_change(buffer, index)?;
    push_side(buffer, Side::Start, range)?;
    push_words(buffer, ", after it")?;
    push_side(buffer, Side::Stop, range)
}

/// Writes the number of a change, from 1.
pub fn push_change(buffer: &mut Vec<u8>, index: usize) -> Result<(), AllocError>
    ensures { OnOk result (buffer.new.items ≡ buffer.old.items ++ change_words index) }
{
    buffer.extend_from_slice(b"change ")?;
    push_number(buffer, one_more(index as u64))
}

/// Writes where an end of a range is.
fn push_side(buffer: &mut Vec<u8>, side: Side, range: Option<Range>) -> Result<(), AllocError>
    ensures { OnOk result (buffer.new.items ≡ buffer.old.items ++ end_words side range) }
{
    let Some(range) = range else {
        return Ok(());
    };
    match side {
        Side::Start => {
            buffer.extend_from_slice(b" starts at ")?;
            push_position(buffer, range.start)
        }
        Side::Stop => {
            buffer.extend_from_slice(b" ends at ")?;
            push_position(buffer, range.stop)
        }
    }
}

/// Writes where a position is.
pub fn push_position(buffer: &mut Vec<u8>, position: Position) -> Result<(), AllocError>
    ensures { OnOk result (buffer.new.items ≡ buffer.old.items ++ position_words position) }
{
    buffer.extend_from_slice(b"line ")?;
    push_number(buffer, u64::from(position.line))?;
    buffer.extend_from_slice(b", character ")?;
    push_number(buffer, u64::from(position.character))
}
