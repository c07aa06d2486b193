//! Members of which a text, a whole number or null is kept, and nothing of arrays and objects.

ghost use Rattle.std.specs.Prelude.{◌≡◌, ◌<◌, length, option_map, Some, None, IfOk, OnOk, OnErr};
ghost use Rattle.serde_json.specs.Data.{Data};
ghost use Rattle.lsp_message.specs.Message.{id_in, is_version_two};
ghost use Rattle.lsp_message.specs.Params.{version_in, coordinate_in};
ghost use Rattle.lsp_message.specs.Seen.{id_view};
ghost use Rattle.lsp_message.specs.Values.{is_null, text_in};
ghost use Rattle.lsp_message.specs.inside.Reading.{value_at};
ghost use Rattle.lsp_message.specs.inside.Scalars.{kept, scalar_data};

use crate::message::Id;
use crate::reader::number::Number;
use crate::reader::skip::skip_value_from;
use json::{Invalid, Reader, Token};
use std::alloc::{AllocError, Global};

/// What is kept of a value.
#[derive(Clone, Copy, Drop)]
pub(crate) enum Scalar<'a> {
    Null,
    Text(&'a str),
    Number(Number),
    /// A boolean, an array or an object.
    Other,
}

/// Reads a value whose arrays and objects nest at most `depth` deep.
#[inline(always)]
#[tactic(auto, using(crate::proofs::Openings::first_tokens))]
pub(crate) fn read_scalar<'a>(reader: &mut Reader<'a>, depth: usize) -> Result<Scalar<'a>, Invalid>
    ensures ok { IfOk result (λ s. (d : Data) × (value_at depth reader.old ≡ Some (d, reader.new))
        × (scalar_data s ≡ kept d)) }
    ensures shorter { OnOk result (length reader.new < length reader.old) }
    ensures error { OnErr result (value_at depth reader.old ≡ None) }
{
    let token = reader.next().ok_or(Invalid)?;
    match token {
        Token::String(text) => Ok(Scalar::Text(text)),
        Token::Null => Ok(Scalar::Null),
        Token::Number(text) => match Number::parse(text) {
            Some(number) => Ok(Scalar::Number(number)),
            None => Err(Invalid),
        },
        _ => {
            skip_value_from(reader, token, depth)?;
            Ok(Scalar::Other)
        }
    }
}

impl<'a> Scalar<'a> {
    /// Returns a text; `None` where it is none.
    #[inline(always)]
    pub(crate) fn text(self) -> Option<&'a str>
        ensures { option_map (λ s. s.now) result ≡ text_in (Some (scalar_data self.entry)) }
    {
        match self {
            Scalar::Text(text) => Some(text),
            _ => None,
        }
    }

    /// Returns a version; `None` where it is none.
    #[inline(always)]
    pub(crate) fn version(self) -> Option<i32>
        ensures { result ≡ version_in (Some (scalar_data self.entry)) }
    {
        match self {
            Scalar::Number(number) => number.version(),
            _ => None,
        }
    }

    /// Returns a line or a character; `None` where it is none.
    #[inline(always)]
    pub(crate) fn coordinate(self) -> Option<u32>
        ensures { result ≡ coordinate_in (Some (scalar_data self.entry)) }
    {
        match self {
            Scalar::Number(number) => number.coordinate(),
            _ => None,
        }
    }

    pub(crate) fn id(self, alloc: Global) -> Result<Option<Id>, AllocError>
        ensures { IfOk result (λ r. option_map id_view r ≡ id_in (scalar_data self.entry)) }
    {
        match self {
            Scalar::Text(text) => Ok(Some(Id::Text(String::from_str(alloc, text)?))),
            Scalar::Number(number) => Ok(number.whole().map(Id::Whole)),
            _ => Ok(None),
        }
    }

    /// Returns whether it names version 2.0 of JSON-RPC.
    pub(crate) fn is_two(self) -> bool
        ensures { result ≡ is_version_two (Some (scalar_data self.entry)) }
    {
        match self {
            Scalar::Text(text) => text == "2.0",
            _ => false,
        }
    }

    pub(crate) fn is_null(self) -> bool
        ensures { result ≡ is_null (scalar_data self.entry) }
    {
        matches!(self, Scalar::Null)
    }
}
