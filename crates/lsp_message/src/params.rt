//! The typed parameters of the three document messages (LSP 3.17, DidOpen, DidChange and DidClose
//! Text Document Notification).
//!
//! Each change is checked before memory is taken, so each is read twice.

ghost use Rattle.std.specs.Prelude.{◌≡◌, ◌<◌, ◌≤◌, [], None, Some, IfOk, IfErr, IsSome, map, option_map, is_some, codes, Err, vec_len, vec_capacity};
ghost use Rattle.std.specs.List.{list_all};
ghost use Rattle.serde_json.specs.View.{view, items_view, members_view};
ghost use Rattle.serde_json.specs.Find.{get};
ghost use Rattle.lsp_message.specs.declared.params.ParamsFault.TheVariants.{InvalidParams, NoMemory};
ghost use Rattle.lsp_message.specs.Params.{open_of, change_of, close_of, open_by, content_change_in, document_in, document_and_changes, change_by, version_in, coordinate_in, position_in, range_in, range_of, ParamsMayAllocate};
ghost use Rattle.lsp_message.specs.inside.Params.{content_changes_in, MembersMayAllocate};
ghost use Rattle.lsp_message.specs.Values.{text_in};
ghost use Rattle.lsp_message.specs.Seen.{open_view, change_view, close_view, content_change_view};

use crate::members::{array, member, object, take, text};
use lsp_edit::Change;
use lsp_text::{Position, Range};
use serde_json::{Map, Value};
use std::alloc::{AllocError, AllocFailed, Global};
use thiserror::Error;

/// The params of a `textDocument/didOpen`.
#[derive(Debug, PartialEq, Eq, Drop)]
pub struct OpenParams {
    /// The document's URI, as it was sent.
    pub uri: String,
    /// The protocol's `languageId`.
    pub language: String,
    pub version: i32,
    /// The whole text.
    pub text: String,
}

/// The params of a `textDocument/didChange`. The changes apply in order, each to the text after the
/// one before it.
#[derive(Debug, PartialEq, Eq, Drop)]
pub struct ChangeParams {
    /// The document's URI, as it was sent.
    pub uri: String,
    /// The version of the document after the changes.
    pub version: i32,
    pub changes: Vec<Change>,
}

/// The params of a `textDocument/didClose`.
#[derive(Debug, PartialEq, Eq, Drop)]
pub struct CloseParams {
    /// The document's URI, as it was sent.
    pub uri: String,
}

/// Why the params of a call, or a result, are refused.
#[derive(Clone, Copy, Debug, PartialEq, Eq, Error)]
pub enum ParamsFault {
    /// A member is missing, has the wrong type, or is a number out of range.
    #[error("invalid params")]
    InvalidParams,
    /// Out of memory. Only the list of changes takes memory.
    #[error("out of memory")]
    NoMemory,
}

impl From<AllocError> for ParamsFault {
    ghost from_gives = { λ _ e. e ≡ NoMemory };

    fn from(_e: AllocError) -> ParamsFault {
        ParamsFault::NoMemory
    }
}

impl<T: Drop> From<AllocFailed<T>> for ParamsFault {
    ghost from_gives = { λ _ e. e ≡ NoMemory };

    fn from(_e: AllocFailed<T>) -> ParamsFault {
        ParamsFault::NoMemory
    }
}

/// Reads the params of a `textDocument/didOpen` (LSP 3.17, DidOpenTextDocumentParams).
///
/// Fails where a member is missing, has the wrong type or is out of range; members that aren't
/// named are ignored. The texts are moved out of the params. It takes no memory: the allocator is
/// there so that all five calls look alike.
pub fn params_open(_alloc: Global, params: Option<Value>) -> Result<OpenParams, ParamsFault>
    ensures ok { IfOk result (λ p. open_of (option_map view params) ≡ Some (open_view p)) }
    ensures error { IfErr result
        (λ e. (e ≡ InvalidParams) × (open_of (option_map view params) ≡ None)) }
{
    let document = document_in(params).ok_or(ParamsFault::InvalidParams)?;
    open_by(document).ok_or(ParamsFault::InvalidParams)
}

/// Reads the params of a `textDocument/didChange` (LSP 3.17, DidChangeTextDocumentParams).
///
/// Refuses what `params_open` refuses. Memory is taken for the list of changes alone, once all of
/// them are valid. The texts are moved out of the params. Linear in the number of changes.
pub fn params_change(alloc: Global, params: Option<Value>) -> Result<ChangeParams, ParamsFault>
    ensures ok { IfOk result (λ p. change_of (option_map view params) ≡ Some (change_view p)) }
    ensures invalid { result ≡ Err ParamsFault.InvalidParams →
        change_of (option_map view params) ≡ None }
    ensures memory { result ≡ Err ParamsFault.NoMemory →
        ParamsMayAllocate (option_map view params) }
{
    let (document, changes) = document_and_changes(params).ok_or(ParamsFault::InvalidParams)?;
    change_by(alloc, document, changes)
}

/// Reads the params of a `textDocument/didClose` (LSP 3.17, DidCloseTextDocumentParams).
///
/// Refuses what `params_open` refuses. The URI is moved out of the params; it takes no memory.
pub fn params_close(_alloc: Global, params: Option<Value>) -> Result<CloseParams, ParamsFault>
    ensures ok { IfOk result (λ p. close_of (option_map view params) ≡ Some (close_view p)) }
    ensures error { IfErr result
        (λ e. (e ≡ InvalidParams) × (close_of (option_map view params) ≡ None)) }
{
    let mut document = document_in(params).ok_or(ParamsFault::InvalidParams)?;
    let uri = text(take(&mut document, "uri")).ok_or(ParamsFault::InvalidParams)?;
    Ok(CloseParams { uri })
}

/// Returns the members of `textDocument`.
fn document_in(params: Option<Value>) -> Option<Map<String, Value>>
    ensures { option_map (λ m. members_view m.entries) result
        ≡ document_in (option_map view params) }
{
    object(member(params, "textDocument"))
}

fn open_by(mut document: Map<String, Value>) -> Option<OpenParams>
    ensures { option_map open_view result ≡ open_by (members_view document.entries) }
{
    let uri = text(take(&mut document, "uri"))?;
    let language = text(take(&mut document, "languageId"))?;
    let version = version_in(take(&mut document, "version"))?;
    let text = text(take(&mut document, "text"))?;
    Some(OpenParams {
        uri,
        language,
        version,
        text,
    })
}

fn version_in(value: Option<Value>) -> Option<i32>
    ensures { result ≡ version_in (option_map view value) }
{
    i32::try_from(value?.as_i64()?).ok()
}

fn coordinate_in(value: Option<&Value>) -> Option<u32>
    ensures { result ≡ coordinate_in (option_map (λ v. view v.now) value.entry) }
{
    u32::try_from(value?.as_u64()?).ok()
}

fn position_in(value: Option<&Value>) -> Option<Position>
    ensures { result ≡ position_in (option_map (λ v. view v.now) value.entry) }
{
    let value = value?;
    let line = coordinate_in(value.get("line"))?;
    let character = coordinate_in(value.get("character"))?;
    Some(Position { line, character })
}

fn range_in(value: &Value) -> Option<Range>
    ensures { result ≡ range_in (Some (view value.now)) }
{
    let start = position_in(value.get("start"))?;
    let stop = position_in(value.get("end"))?;
    Some(Range { start, stop })
}

/// Reads the range of a change: `Some(None)` where it is missing or null and means the whole text.
fn range_of(value: Option<&Value>) -> Option<Option<Range>>
    ensures { result ≡ range_of (option_map (λ v. view v.now) value.entry) }
{
    let Some(value) = value else {
        return Some(None);
    };
    if value.is_null() {
        return Some(None);
    }
    range_in(value).map(Some)
}

fn content_change_in(value: Value) -> Option<Change>
    ensures { option_map content_change_view result ≡ content_change_in (view value) }
{
    let mut members = object(Some(value))?;
    let text = text(take(&mut members, "text"))?;
    let range = range_of(take(&mut members, "range").as_ref())?;
    Some(Change { range, text })
}

/// Returns whether a value is a change, without moving anything out of it.
fn is_content_change(value: &Value) -> bool
    ensures { result ≡ is_some (content_change_in (view value.now)) }
{
    has_text(value) && range_of(value.get("range")).is_some()
}

fn has_text(value: &Value) -> bool
    ensures { result ≡ is_some (text_in (get (codes "text") (view value.now))) }
{
    value.get("text").is_some_and(Value::is_string)
}

fn are_content_changes(values: &[Value]) -> bool
    ensures { result ≡ list_all (λ v. is_some (content_change_in (view v))) values.now }
{
    values.iter().all(|value| is_content_change(value))
}

fn change_by(
    alloc: Global,
    mut document: Map<String, Value>,
    changes: Vec<Value>,
) -> Result<ChangeParams, ParamsFault>
    ensures ok { IfOk result
        (λ p. change_by (members_view document.entries) (items_view changes.items)
        ≡ Some (change_view p)) }
    ensures invalid { result ≡ Err ParamsFault.InvalidParams
        → change_by (members_view document.entries) (items_view changes.items) ≡ None }
    ensures memory { result ≡ Err ParamsFault.NoMemory
        → MembersMayAllocate (members_view document.entries) (items_view changes.items) }
{
    let uri = text(take(&mut document, "uri")).ok_or(ParamsFault::InvalidParams)?;
    let version = version_in(take(&mut document, "version")).ok_or(ParamsFault::InvalidParams)?;
    let changes = content_changes_in(alloc, changes)?;
    Ok(ChangeParams {
        uri,
        version,
        changes,
    })
}

/// Returns the members of `textDocument` and the items of `contentChanges`.
fn document_and_changes(params: Option<Value>) -> Option<(Map<String, Value>, Vec<Value>)>
    ensures { option_map (λ p. (members_view p.0.entries, items_view p.1.items)) result
        ≡ document_and_changes (option_map view params) }
{
    let mut members = object(params)?;
    let document = object(take(&mut members, "textDocument"))?;
    let changes = array(take(&mut members, "contentChanges"))?;
    Some((document, changes))
}

/// Reads values as changes. It refuses them before it takes memory.
#[tactic(auto, using(crate::proofs::Memory::edits_there))]
fn content_changes_in(alloc: Global, values: Vec<Value>) -> Result<Vec<Change>, ParamsFault>
    ensures ok { IfOk result
        (λ changes. content_changes_in (items_view values.items)
        ≡ Some (map content_change_view changes.items)) }
    ensures invalid { result ≡ Err ParamsFault.InvalidParams →
        content_changes_in (items_view values.items) ≡ None }
    ensures memory { result ≡ Err ParamsFault.NoMemory → 0 < vec_len values }
    ensures good { result ≡ Err ParamsFault.NoMemory →
        IsSome (content_changes_in (items_view values.items)) }
{
    if !are_content_changes(&values) {
        return Err(ParamsFault::InvalidParams);
    }
    let changes = Vec::with_capacity(alloc, values.len())?;
    content_changes_into(changes, values).ok_or(ParamsFault::InvalidParams)
}

/// Appends the changes to an empty list with room for them; `None` where one is not a change. Takes
/// no memory.
fn content_changes_into(mut changes: Vec<Change>, values: Vec<Value>) -> Option<Vec<Change>>
    requires empty { changes.items ≡ [] }
    requires room { vec_len values ≤ vec_capacity changes }
    ensures { option_map (λ edits. map content_change_view edits.items) result
        ≡ content_changes_in (items_view values.items) }
{
    for value in values {
        if changes.push(content_change_in(value)?).is_err() {
            unreachable!();
        }
    }
    Some(changes)
}
