//! The messages of a session's lifecycle, and the replies to requests.

ghost use Rattle.std.specs.Prelude.{◌≡◌, OnOk, Some, option_map};
ghost use Rattle.serde_json.specs.Data.{array};
ghost use Rattle.serde_json.specs.View.{items_of};
ghost use Rattle.lsp_message.specs.Outgoing as spec;
ghost use Rattle.lsp_message.specs.Written as values;
ghost use Rattle.lsp_message.specs.Seen.{id_view};
ghost use Rattle.lsp_message.specs.inside.Tokens.{Appends, tokens_of, offer_tokens};

use crate::agreement::{Offers, SyncKind};
use crate::message::Id;
use crate::outgoing::ErrorCode;
use crate::writer::object::{Member, Object};
use crate::writer::value::WriteValue;
use json::Writer;
use lsp_text::Encoding;
use std::alloc::AllocError;

/// The member that each message has.
pub(crate) const VERSION: Member<'static, &'static str> = Member("jsonrpc", "2.0");

/// Writes a notification, by its method and its params.
#[inline(always)]
pub(crate) fn write_notification<P: WriteValue + Drop>(
    writer: &mut Writer,
    method: &str,
    params: P,
) -> Result<(), AllocError>
    ensures tokens { OnOk result (Appends writer.old writer.new
        (tokens_of (values.notification_value method.now (Some (P.value params))))) }
    ensures before { writer.new.before ≡ writer.old.before }
{
    let call = (Member("method", method), Member("params", params));
    Object((VERSION, call)).write(writer)
}

/// Writes a response, by the id of its request and its result.
#[inline(always)]
pub(crate) fn write_response<R: WriteValue + Drop>(
    writer: &mut Writer,
    id: &Id,
    value: R,
) -> Result<(), AllocError>
    ensures tokens { OnOk result (Appends writer.old writer.new
        (tokens_of (values.result_value (id_view id.now) (R.value value)))) }
    ensures before { writer.new.before ≡ writer.old.before }
{
    let result = (VERSION, Member("result", value));
    Object((Member("id", Some(id)), result)).write(writer)
}

/// Writes `initialize`, with the encodings that the client offers.
pub(crate) fn write_initialize(writer: &mut Writer, offers: Offers) -> Result<(), AllocError>
    ensures tokens { OnOk result
        (Appends writer.old writer.new (tokens_of (values.value_of (spec.initialize offers)))) }
    ensures before { writer.new.before ≡ writer.old.before }
{
    let general = Object(Member("positionEncodings", offers));
    let capabilities = Member("capabilities", Object(Member("general", general)));
    let none = (Member("processId", ()), Member("rootUri", ()));
    let params = Member("params", Object((capabilities, none)));
    let call = (VERSION, (Member("method", "initialize"), params));
    Object((Member("id", 1_u32), call)).write(writer)
}

/// Writes the result of `initialize`.
pub(crate) fn write_initialize_result(
    writer: &mut Writer,
    id: &Id,
    encoding: Encoding,
    kind: SyncKind,
) -> Result<(), AllocError>
    ensures tokens { OnOk result (Appends writer.old writer.new
        (tokens_of (values.value_of (spec.initialize_result (id_view id.now) encoding kind)))) }
    ensures before { writer.new.before ≡ writer.old.before }
{
    let sync = Object((Member("change", kind.number()), Member("openClose", true)));
    let announced = Object((
        Member("positionEncoding", encoding.name()),
        Member("textDocumentSync", sync),
    ));
    write_response(writer, id, Object(Member("capabilities", announced)))
}

/// Writes the reply to a request that is refused, or whose id is not known.
pub(crate) fn write_error_reply(
    writer: &mut Writer,
    id: Option<&Id>,
    error: ErrorCode,
) -> Result<(), AllocError>
    ensures tokens { OnOk result (Appends writer.old writer.new (tokens_of
        (values.value_of (spec.error_reply (option_map (λ id. id_view id.now) id.entry) error)))) }
    ensures before { writer.new.before ≡ writer.old.before }
{
    let error = Object((
        Member("code", error.number()),
        Member("message", error.text()),
    ));
    Object((Member("error", error), (Member("id", id), VERSION))).write(writer)
}

impl WriteValue for Offers {
    ghost value = { λ offers. array (items_of (values.names_of offers)) };

    fn write(&self, writer: &mut Writer) -> Result<(), AllocError> {
        writer.begin_array()?;
        write_offer(writer, *self, Encoding::Utf8)?;
        write_offer(writer, *self, Encoding::Utf16)?;
        write_offer(writer, *self, Encoding::Utf32)?;
        writer.end_array()
    }
}

fn write_offer(writer: &mut Writer, offers: Offers, encoding: Encoding) -> Result<(), AllocError>
    ensures tokens { OnOk result
        (Appends writer.old writer.new (offer_tokens offers encoding)) }
    ensures before { writer.new.before ≡ writer.old.before }
{
    if !offers.includes(encoding) {
        return Ok(());
    }
    writer.string(encoding.name())
}

impl<'a> WriteValue for Option<&'a Id> {
    ghost value = { λ id. values.id_or_null (option_map (λ id. id_view id.now) id) };

    fn write(&self, writer: &mut Writer) -> Result<(), AllocError> {
        match self {
            Some(Id::Whole(number)) => writer.i64(*number),
            Some(Id::Text(text)) => writer.string(text.as_str()),
            None => writer.null(),
        }
    }
}
