//! What is written as a JSON value.

ghost use Rattle.std.specs.Prelude.{◌≡◌, OnOk, map};
ghost use Rattle.serde_json.specs.Data.{Data, null, boolean, number, string, unsigned, array};
ghost use Rattle.serde_json.specs.Find.{of_integer};
ghost use Rattle.serde_json.specs.View.{items_of};
ghost use Rattle.lsp_message.specs.inside.Tokens.{Appends, tokens_of};

use json::Writer;
use std::alloc::AllocError;

/// What is written as a JSON value.
pub(crate) trait WriteValue {
    // The value.
    ghost value: { Self → Data };

    /// Writes the value.
    fn write(&self, writer: &mut Writer) -> Result<(), AllocError>
        ensures tokens { OnOk result
            (Appends writer.old writer.new (tokens_of (value self.now))) }
        ensures before { writer.new.before ≡ writer.old.before };
}

impl<'a> WriteValue for &'a str {
    ghost value = { λ text. string text.now };

    #[inline(always)]
    fn write(&self, writer: &mut Writer) -> Result<(), AllocError> {
        writer.string(*self)
    }
}

impl WriteValue for u32 {
    ghost value = { λ n. number (unsigned n) };

    #[inline(always)]
    fn write(&self, writer: &mut Writer) -> Result<(), AllocError> {
        writer.u64(u64::from(*self))
    }
}

impl WriteValue for i32 {
    ghost value = { λ n. number (of_integer n) };

    #[inline(always)]
    fn write(&self, writer: &mut Writer) -> Result<(), AllocError> {
        writer.i64(i64::from(*self))
    }
}

impl WriteValue for bool {
    ghost value = { boolean };

    #[inline(always)]
    fn write(&self, writer: &mut Writer) -> Result<(), AllocError> {
        writer.boolean(*self)
    }
}

/// Null, as `serde` writes it.
impl WriteValue for () {
    ghost value = { λ _. null };

    #[inline(always)]
    fn write(&self, writer: &mut Writer) -> Result<(), AllocError> {
        writer.null()
    }
}

impl<'a, V: WriteValue> WriteValue for &'a [V] {
    ghost value = { λ values. array (items_of (map V.value values.now)) };

    fn write(&self, writer: &mut Writer) -> Result<(), AllocError> {
        writer.begin_array()?;
        for value in *self {
            value.write(writer)?;
        }
        writer.end_array()
    }
}
