//! Why a case has no meaning, as a value of JSON.

use anyhow::{Result, bail};
use lsp_edit::{BatchFault, EditFault, Side, TextEditFault};
use lsp_store::StoreFault;
use serde_json::{Value, json};
use std::alloc::Global;

/// The words for why a message is refused.
pub const INVALID: &str = "invalid-params";

const INSIDE: &str = "inside-character";

const REVERSED: &str = "reversed-range";

const OVERLAP: &str = "overlap";

/// Returns why a message has no result.
pub fn refused(alloc: Global, fault: BatchFault) -> Result<Value> {
    match fault {
        BatchFault::Edit(fault) => edit_refused(alloc, fault),
        BatchFault::TooLong => bail!("a case is too long"),
        BatchFault::NoMemory => bail!("out of memory"),
    }
}

/// Returns which of its changes has no result.
fn edit_refused(alloc: Global, fault: EditFault) -> Result<Value> {
    match fault {
        EditFault::InsideCharacter { change, side } => {
            let end = end_of(side);
            Ok(json!(in alloc; {"refused": INSIDE, "change": change, "end": end})?)
        }
        EditFault::ReversedRange { change } => {
            Ok(json!(in alloc; {"refused": REVERSED, "change": change})?)
        }
        EditFault::NoMemory => bail!("out of memory"),
    }
}

/// Returns why text edits have no result.
pub fn edits_refused(alloc: Global, fault: TextEditFault) -> Result<Value> {
    match fault {
        TextEditFault::InsideCharacter { edit, side } => {
            let end = end_of(side);
            Ok(json!(in alloc; {"refused": INSIDE, "edit": edit, "end": end})?)
        }
        TextEditFault::ReversedRange { edit } => {
            Ok(json!(in alloc; {"refused": REVERSED, "edit": edit})?)
        }
        TextEditFault::Overlap { first, second } => {
            Ok(json!(in alloc; {"refused": OVERLAP, "edit": first, "other": second})?)
        }
        TextEditFault::NoMemory => bail!("out of memory"),
    }
}

/// Returns that the numbers or the shape of a message are wrong.
pub fn invalid(alloc: Global) -> Result<Value> {
    Ok(json!(in alloc; {"refused": INVALID})?)
}

/// Returns the word for why a document's message is refused.
pub fn word_of(fault: StoreFault) -> Result<&'static str> {
    match fault {
        StoreFault::AlreadyOpen => Ok("already-open"),
        StoreFault::NotOpen => Ok("not-open"),
        StoreFault::StaleVersion { .. } => Ok("stale-version"),
        StoreFault::Edit(EditFault::InsideCharacter { .. }) => Ok(INSIDE),
        StoreFault::Edit(EditFault::ReversedRange { .. }) => Ok(REVERSED),
        _ => bail!("a limit, or out of memory"),
    }
}

fn end_of(side: Side) -> &'static str {
    match side {
        Side::Start => "start",
        Side::Stop => "end",
    }
}
