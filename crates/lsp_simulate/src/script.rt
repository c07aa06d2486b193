//! The event of a line of JSON.

use lsp_message::{ParamsFault, params_change, params_close, params_open};
use lsp_pair::Event;
use serde_json::Value;
use std::alloc::Global;

/// Reads the event of a line: an object whose member `event` names it. For `open`, `edit` and
/// `close` it has the members of the protocol's didOpen, didChange and didClose beside that. Other
/// members are ignored.
///
/// # Errors
/// [`ParamsFault::InvalidParams`] if the line is no JSON or no event, [`ParamsFault::NoMemory`].
pub fn event_of(alloc: Global, line: &[u8]) -> Result<Event, ParamsFault> {
    let value = match Value::from_slice(alloc, line) {
        Ok(value) => value,
        Err(error) if error.is_memory() => return Err(ParamsFault::NoMemory),
        Err(_) => return Err(ParamsFault::InvalidParams),
    };
    event_in(alloc, value)
}

fn event_in(alloc: Global, value: Value) -> Result<Event, ParamsFault> {
    match value.get("event").and_then(|kind| kind.as_str()) {
        Some("start") => Ok(Event::Start),
        Some("open") => {
            let params = params_open(alloc, Some(value))?;
            Ok(Event::Open {
                uri: params.uri,
                language: params.language,
                version: params.version,
                text: params.text,
            })
        }
        Some("edit") => {
            let params = params_change(alloc, Some(value))?;
            Ok(Event::Edit {
                uri: params.uri,
                version: params.version,
                changes: params.changes,
            })
        }
        Some("close") => {
            let params = params_close(alloc, Some(value))?;
            Ok(Event::Close { uri: params.uri })
        }
        Some("shutdown") => Ok(Event::Shutdown),
        Some("exit") => Ok(Event::Exit),
        Some("toServer") => Ok(Event::ToServer),
        Some("toClient") => Ok(Event::ToClient),
        _ => Err(ParamsFault::InvalidParams),
    }
}
