//! What a client offers and what a server announces (LSP 3.17, Initialize Request).

ghost use Rattle.std.specs.Prelude.{◌≡◌, None, Some, IfOk, IfErr, Option, false, option_map};
ghost use Rattle.serde_json.specs.Data.{object};
ghost use Rattle.serde_json.specs.Find.{as_str};
ghost use Rattle.serde_json.specs.View.{view, items_view, members_view};
ghost use Rattle.lsp_text.specs.declared.encoding.Encoding.TheVariants.{Utf16};
ghost use Rattle.lsp_message.specs.declared.agreement.SyncKind.TheVariants.{Off};
ghost use Rattle.lsp_message.specs.declared.params.ParamsFault.TheVariants.{InvalidParams};
ghost use Rattle.lsp_message.specs.Values.{each_of, bool_in, is_missing, optional};
ghost use Rattle.lsp_message.specs.Outgoing.{kind_number};
ghost use Rattle.lsp_message.specs.Agreement.{is_offered, offers_of, offers_named, announced_of, sync_in, kind_in, announced_encoding};
ghost use Rattle.lsp_message.specs.inside.Agreement.{optional_member};

use crate::members::find;
use crate::params::ParamsFault;
use lsp_text::Encoding;
use serde_json::{Map, Value};
use std::alloc::Global;

/// The encodings that a client offers (LSP 3.17, `general.positionEncodings`). UTF-16 is always one
/// of them.
#[derive(Clone, Copy, Debug, Default, PartialEq, Eq, Hash)]
pub struct Offers {
    /// The client names `utf-8`.
    pub utf8: bool,
    /// The client names `utf-32`.
    pub utf32: bool,
}

impl Offers {
    /// Returns the offer of UTF-16 and of the encodings that are chosen here.
    pub const fn new(utf8: bool, utf32: bool) -> Self
        ensures { result ≡ record { utf8 = utf8; utf32 = utf32 } }
    {
        Offers { utf8, utf32 }
    }

    /// Returns whether this encoding is offered. UTF-16 always is.
    pub const fn includes(self, encoding: Encoding) -> bool
        ensures { result ≡ is_offered self encoding }
    {
        match encoding {
            Encoding::Utf8 => self.utf8,
            Encoding::Utf16 => true,
            Encoding::Utf32 => self.utf32,
        }
    }
}

/// How a server wants to be notified of changes (LSP 3.17, `TextDocumentSyncKind`).
#[derive(Clone, Copy, Debug, PartialEq, Eq, Hash)]
pub enum SyncKind {
    /// Not at all; the protocol's `None`.
    Off,
    /// With the whole text.
    Full,
    /// With the changed ranges.
    Incremental,
}

impl SyncKind {
    /// Returns the protocol's number.
    pub const fn number(self) -> u32
        ensures { result ≡ kind_number self }
    {
        match self {
            SyncKind::Off => 0,
            SyncKind::Full => 1,
            SyncKind::Incremental => 2,
        }
    }
}

/// What a server announces in its result of `initialize` (LSP 3.17, `ServerCapabilities`:
/// `positionEncoding`, `textDocumentSync`).
#[derive(Clone, Copy, Debug, PartialEq, Eq, Hash)]
pub struct Announced {
    /// The server wants to be notified of documents that open and close.
    pub open_close: bool,
    pub kind: SyncKind,
    /// UTF-16 where the result names none; `None` where the name is unknown.
    pub encoding: Option<Encoding>,
}

/// Reads the encodings that a client offers, from the params of an `initialize` (LSP 3.17,
/// `InitializeParams`).
///
/// Fails where the params, `capabilities` or `general` are no object, or `positionEncodings` is no
/// list of strings. A member that is missing or null offers UTF-16 alone. Takes no memory: the
/// allocator is there so that all five calls look alike. Linear in the number of names.
pub fn params_initialize(_alloc: Global, params: Option<Value>) -> Result<Offers, ParamsFault>
    ensures ok { IfOk result (λ offers. offers_of (option_map view params) ≡ Some offers) }
    ensures error { IfErr result
        (λ e. (e ≡ InvalidParams) × (offers_of (option_map view params) ≡ None)) }
{
    offers_of(params.as_ref()).ok_or(ParamsFault::InvalidParams)
}

/// Reads what a server announces, from its result of `initialize` (LSP 3.17, `InitializeResult`).
///
/// Fails where `capabilities` is missing, or a member has the wrong type or an unknown number.
/// Takes no memory.
pub fn result_initialize(_alloc: Global, value: Value) -> Result<Announced, ParamsFault>
    ensures ok { IfOk result (λ announced. announced_of (view value) ≡ Some announced) }
    ensures error { IfErr result (λ e. (e ≡ InvalidParams) × (announced_of (view value) ≡ None)) }
{
    announced_of(&value).ok_or(ParamsFault::InvalidParams)
}

fn is_missing(value: Option<&Value>) -> bool
    ensures { result ≡ is_missing (option_map (λ v. view v.now) value.entry) }
{
    match value {
        Some(value) => value.is_null(),
        None => true,
    }
}

fn offers_of(params: Option<&Value>) -> Option<Offers>
    ensures { result ≡ offers_of (option_map (λ v. view v.now) params.entry) }
{
    let members = params?.as_object()?;
    let general = optional_member(find(members, "capabilities"), "general")?;
    let encodings = optional_member(general, "positionEncodings")?;
    if is_missing(encodings) {
        return Some(Offers::new(false, false));
    }
    offers_named(encodings?.as_array()?)
}

/// Returns the member of this name of an object, which may be missing; `None` where it is another
/// value.
fn optional_member<'v>(value: Option<&'v Value>, name: &str) -> Option<Option<&'v Value>>
    ensures { option_map (option_map (λ v. view v.now)) result
        ≡ optional_member name.now (option_map (λ v. view v.now) value.entry) }
{
    if is_missing(value) {
        return Some(None);
    }
    Some(find(value?.as_object()?, name))
}

/// Returns the offers that a list of names makes; `None` if an item is no string. Unknown names are
/// skipped.
fn offers_named(names: &[Value]) -> Option<Offers>
    ensures { result ≡ option_map offers_named (each_of as_str (items_view names.now)) }
{
    let mut offers = Offers::new(false, false);
    for name in names {
        match Encoding::of_name(name.as_str()?) {
            Some(Encoding::Utf8) => offers.utf8 = true,
            Some(Encoding::Utf32) => offers.utf32 = true,
            _ => {}
        }
    }
    Some(offers)
}

fn announced_of(value: &Value) -> Option<Announced>
    ensures { result ≡ announced_of (view value.now) }
{
    let capabilities = value.get("capabilities")?.as_object()?;
    let (open_close, kind) = sync_of(find(capabilities, "textDocumentSync"))?;
    let encoding = encoding_of(find(capabilities, "positionEncoding"))?;
    Some(Announced {
        open_close,
        kind,
        encoding,
    })
}

fn sync_of(value: Option<&Value>) -> Option<(bool, SyncKind)>
    ensures { result
        ≡ optional (false, Off) sync_in (option_map (λ v. view v.now) value.entry) }
{
    match value {
        None | Some(Value::Null) => Some((false, SyncKind::Off)),
        Some(Value::Number(_)) => Some((true, kind_in(value)?)),
        Some(Value::Object(members)) => sync_by(members),
        Some(_) => None,
    }
}

fn sync_by(members: &Map<String, Value>) -> Option<(bool, SyncKind)>
    ensures { result ≡ sync_in (Some (object (members_view members.now.entries))) }
{
    let open_close = open_close_of(find(members, "openClose"))?;
    let kind = kind_of(find(members, "change"))?;
    Some((open_close, kind))
}

fn kind_in(value: Option<&Value>) -> Option<SyncKind>
    ensures { result ≡ kind_in (option_map (λ v. view v.now) value.entry) }
{
    match value?.as_u64()? {
        0 => Some(SyncKind::Off),
        1 => Some(SyncKind::Full),
        2 => Some(SyncKind::Incremental),
        _ => None,
    }
}

fn kind_of(value: Option<&Value>) -> Option<SyncKind>
    ensures { result ≡ optional Off kind_in (option_map (λ v. view v.now) value.entry) }
{
    if is_missing(value) {
        return Some(SyncKind::Off);
    }
    kind_in(value)
}

fn open_close_of(value: Option<&Value>) -> Option<bool>
    ensures { result ≡ optional false bool_in (option_map (λ v. view v.now) value.entry) }
{
    if is_missing(value) {
        return Some(false);
    }
    value?.as_bool()
}

/// Returns the encoding that a server announces: `Some(None)` where its name is unknown.
fn encoding_of(value: Option<&Value>) -> Option<Option<Encoding>>
    ensures { result
        ≡ optional (Some Utf16) announced_encoding (option_map (λ v. view v.now) value.entry) }
{
    if is_missing(value) {
        return Some(Some(Encoding::Utf16));
    }
    value?.as_str().map(Encoding::of_name)
}
