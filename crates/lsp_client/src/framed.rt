//! The frames of messages under a limit.

ghost use Rattle.std.specs.Prelude.{◌≡◌, IfErr, IfOk, None, OnOk};
ghost use Rattle.lsp_frame.specs.Frame.{frame};
ghost use Rattle.lsp_message.specs.Outgoing.{body_of};
ghost use Rattle.lsp_message.specs.Seen.{outgoing_view};
ghost use Rattle.lsp_store.specs.Faults.{IsRefusal};
ghost use Rattle.lsp_store.specs.Message.{body_refusal};

use lsp_frame::{Limits, encode};
use lsp_message::{Outgoing, write};
use lsp_store::StoreFault;
use std::alloc::Global;

/// Returns the frame of a message, unless its body is too long.
pub(crate) fn message_frame_within(
    alloc: Global,
    limits: &Limits,
    message: &Outgoing,
) -> Result<Vec<u8>, StoreFault>
    ensures ok { IfOk result (λ bytes. bytes.items ≡ frame (body_of (outgoing_view message.now))) }
    ensures within { OnOk result
        (body_refusal limits.now (body_of (outgoing_view message.now)) ≡ None) }
    ensures error { IfErr result
        (IsRefusal (body_refusal limits.now (body_of (outgoing_view message.now)))) }
{
    let body = write(alloc, message)?;
    Ok(encode(alloc, limits, &body)?)
}
