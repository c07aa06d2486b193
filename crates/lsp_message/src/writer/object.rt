//! An object, written a member at a time.

ghost use Rattle.std.specs.Prelude.{◌≡◌, OnOk};
ghost use Rattle.serde_json.specs.Data.{Members, object, member, no_members};
ghost use Rattle.lsp_message.specs.inside.Tokens.{Appends, joined, member_tokens};

use crate::writer::value::WriteValue;
use json::Writer;
use std::alloc::AllocError;

/// What is written as members of an object: none, a member, or some members and then others.
pub(crate) trait WriteMembers {
    // The members.
    ghost members: { Self → Members };

    /// Writes the members.
    fn write_members(&self, writer: &mut Writer) -> Result<(), AllocError>
        ensures tokens { OnOk result
            (Appends writer.old writer.new (member_tokens (members self.now))) }
        ensures before { writer.new.before ≡ writer.old.before };
}

/// An object of these members.
#[derive(Clone, Copy, Drop)]
pub(crate) struct Object<M>(pub(crate) M);

/// A member, by its name and its value.
#[derive(Clone, Copy, Drop)]
pub(crate) struct Member<'a, V>(pub(crate) &'a str, pub(crate) V);

impl<M: WriteMembers> WriteValue for Object<M> {
    ghost value = { λ o. object (M.members o.0) };

    #[inline(always)]
    fn write(&self, writer: &mut Writer) -> Result<(), AllocError> {
        writer.begin_object()?;
        self.0.write_members(writer)?;
        writer.end_object()
    }
}

impl<'a, V: WriteValue> WriteMembers for Member<'a, V> {
    ghost members = { λ m. member m.0.now (V.value m.1) no_members };

    #[inline(always)]
    fn write_members(&self, writer: &mut Writer) -> Result<(), AllocError> {
        writer.key(self.0)?;
        self.1.write(writer)
    }
}

impl WriteMembers for () {
    ghost members = { λ _. no_members };

    #[inline(always)]
    fn write_members(&self, _writer: &mut Writer) -> Result<(), AllocError> {
        Ok(())
    }
}

impl<A: WriteMembers, B: WriteMembers> WriteMembers for (A, B) {
    ghost members = { λ m. joined (A.members m.0) (B.members m.1) };

    #[inline(always)]
    fn write_members(&self, writer: &mut Writer) -> Result<(), AllocError> {
        self.0.write_members(writer)?;
        self.1.write_members(writer)
    }
}
