//! Which message a body is (LSP 3.17, Base Protocol).

ghost use Rattle.std.specs.Prelude.{◌≡◌, ◌↔◌, Some, IfOk, IfErr, IsTrue, option_map, slice_index, string_bytes};
ghost use Rattle.serde_json.specs.View.{view};
ghost use Rattle.lsp_message.specs.Message.{reading, message, id_in, id_found, message_of, is_version_two};
ghost use Rattle.lsp_message.specs.Seen.{id_view, message_view, IsReadFault};
ghost use Rattle.lsp_message.specs.inside.Message.{call_of, answer_of, outcome_of, reading_by};
ghost use Rattle.lsp_message.specs.inside.Seen.{Answers};

use crate::members::take;
use serde_json::Value;
use std::alloc::Global;
use thiserror::Error;

/// The id of a request, which its response repeats.
#[derive(Debug, PartialEq, Eq, Drop)]
pub enum Id {
    /// A number in the range of `i64`, written without a fraction and an exponent.
    Whole(i64),
    /// A string, which may be empty.
    Text(String),
}

/// The outcome of a request: its response's `result`, or that the response has an `error`.
#[derive(Debug, PartialEq, Drop)]
pub enum Outcome {
    /// The result, which may be null.
    Given(Value),
    /// An error that isn't null. Its code and its text are not kept.
    Failed,
}

/// A message of JSON-RPC 2.0. `params` is the member's value, of any type.
#[derive(Debug, PartialEq, Drop)]
pub enum Message {
    /// A call with an id, which a response answers.
    Request {
        id: Id,
        method: String,
        params: Option<Value>,
    },
    /// A call without an id.
    Notification {
        method: String,
        params: Option<Value>,
    },
    /// A response to a request. The id is `None` where the member is null.
    Response {
        id: Option<Id>,
        outcome: Outcome,
    },
}

/// Why a body was not read as a message.
#[derive(Debug, PartialEq, Eq, Drop, Error)]
pub enum ReadFault {
    /// The bytes are not UTF-8 or not one JSON value, nest deeper than 127 arrays and objects, or
    /// contain a number too large for `f64`.
    #[error("the body is no JSON")]
    NotJson,
    /// The body is JSON and no message. The id is the one that a reply may name, if there is one.
    #[error("the body is no message")]
    NotAMessage { id: Option<Id> },
    /// Out of memory; nothing is known of the body.
    #[error("out of memory")]
    NoMemory,
}

impl From<serde_json::Error> for ReadFault {
    ghost use Rattle.lsp_message.specs.Seen.{IsFaultOfError};

    ghost from_gives = { IsFaultOfError };

    fn from(error: serde_json::Error) -> ReadFault {
        if error.is_memory() {
            ReadFault::NoMemory
        } else {
            ReadFault::NotJson
        }
    }
}

/// Reads a body as a message (LSP 3.17, Base Protocol, Content Part).
///
/// Fails with [`ReadFault::NotJson`] or [`ReadFault::NotAMessage`] as the body is, and with
/// [`ReadFault::NoMemory`] where memory runs out. [`ReadFault::NoMemory`] never comes for an empty
/// body, one with a byte order mark, or one that isn't UTF-8. One parse, linear in the body; texts
/// are moved out of what was parsed.
pub fn read(alloc: Global, body: &[u8]) -> Result<Message, ReadFault>
    ensures ok { IfOk result (λ m. reading body.now ≡ message (message_view m)) }
    ensures error { IfErr result (IsReadFault body.now) }
{
    if begins_with_mark(body) {
        return Err(ReadFault::NotJson);
    }
    let Ok(text) = std::str::from_utf8(body) else {
        return Err(ReadFault::NotJson);
    };
    let value = Value::from_str(alloc, text)?;
    message_of(value)
}

/// Returns whether a body begins with the first byte of a byte order mark. No JSON does.
fn begins_with_mark(body: &[u8]) -> bool
    ensures { IsTrue result ↔ (slice_index body.now 0 ≡ 239) }
{
    body.first() == Some(&0xEF)
}

/// A message, or why a value is none.
type Found = Result<Message, ReadFault>;

/// Reads a parsed value as a message. Takes no memory.
fn message_of(value: Value) -> Found
    ensures { Answers result (message_of (view value)) }
{
    let Value::Object(mut members) = value else {
        return Err(ReadFault::NotAMessage { id: None });
    };
    let version = take(&mut members, "jsonrpc");
    let method = take(&mut members, "method");
    let id = take(&mut members, "id");
    let params = take(&mut members, "params");
    let error = take(&mut members, "error");
    let outcome = take(&mut members, "result");
    message_by(version, method, id, params, error, outcome)
}

fn message_by(
    version: Option<Value>,
    method: Option<Value>,
    id: Option<Value>,
    params: Option<Value>,
    error: Option<Value>,
    outcome: Option<Value>,
) -> Found
    ensures { Answers result
        (reading_by (option_map view version) (option_map view method) (option_map view id)
        (option_map view params) (option_map view error) (option_map view outcome)) }
{
    if !is_version_two(version.as_ref()) {
        return Err(ReadFault::NotAMessage { id: id_found(id) });
    }
    match method {
        Some(Value::String(method)) => call_of(id, method, params),
        Some(_) => Err(ReadFault::NotAMessage { id: id_found(id) }),
        None => answer_of(id, error, outcome),
    }
}

fn is_version_two(version: Option<&Value>) -> bool
    ensures { result ≡ is_version_two (option_map (λ v. view v.now) version.entry) }
{
    match version {
        Some(Value::String(text)) => text.as_str() == "2.0",
        _ => false,
    }
}

fn id_in(id: Value) -> Option<Id>
    ensures { option_map id_view result ≡ id_in (view id) }
{
    match id {
        Value::Number(number) => number.as_i64().map(Id::Whole),
        Value::String(text) => Some(Id::Text(text)),
        _ => None,
    }
}

fn id_found(id: Option<Value>) -> Option<Id>
    ensures { option_map id_view result ≡ id_found (option_map view id) }
{
    id_in(id?)
}

fn call_of(id: Option<Value>, method: String, params: Option<Value>) -> Found
    ensures { Answers result
        (call_of (option_map view id) (string_bytes method) (option_map view params)) }
{
    let Some(id) = id else {
        return Ok(Message::Notification { method, params });
    };
    match id_in(id) {
        Some(id) => Ok(Message::Request { id, method, params }),
        None => Err(ReadFault::NotAMessage { id: None }),
    }
}

fn answer_of(id: Option<Value>, error: Option<Value>, outcome: Option<Value>) -> Found
    ensures { Answers result
        (answer_of (option_map view id) (option_map view error) (option_map view outcome)) }
{
    let Some(id) = id else {
        return Err(ReadFault::NotAMessage { id: None });
    };
    if id.is_null() {
        return outcome_of(None, error, outcome);
    }
    match id_in(id) {
        Some(id) => outcome_of(Some(id), error, outcome),
        None => Err(ReadFault::NotAMessage { id: None }),
    }
}

fn outcome_of(id: Option<Id>, error: Option<Value>, outcome: Option<Value>) -> Found
    ensures { Answers result
        (outcome_of (option_map id_view id) (option_map view error) (option_map view outcome)) }
{
    if error.is_some_and(|error| !error.is_null()) {
        return Ok(Message::Response {
            id,
            outcome: Outcome::Failed,
        });
    }
    match outcome {
        Some(value) => Ok(Message::Response {
            id,
            outcome: Outcome::Given(value),
        }),
        None => Err(ReadFault::NotAMessage { id }),
    }
}
