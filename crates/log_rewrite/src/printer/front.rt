//! What comes before a record's frame in an output: the line of version 2, and the record's mark.

ghost use Rattle.std.specs.Prelude.{◌≡◌, ◌≤◌, ◌++◌, length, OnOk};
ghost use Rattle.lsp_log.specs.Log.{mark_of};
ghost use Rattle.log_session.specs.Selection.{line_if};
ghost use Rattle.log_rewrite.specs.Normalise.{front_of};

use lsp_log::{Head, Sender, VERSION_LINE, Version};
use std::alloc::AllocError;

/// Returns the line of version 2, if it is due.
pub fn line_bytes(line_due: bool) -> &'static [u8]
    ensures is { result.now ≡ line_if line_due }
    ensures short { length result.now ≤ 18 }
{
    if line_due { VERSION_LINE } else { b"" }
}

/// Returns the mark of a record.
pub fn mark_bytes(head: Head) -> &'static [u8]
    ensures is { result.now ≡ mark_of head.version head.side }
    ensures short { length result.now ≤ 1 }
{
    match (head.version, head.side) {
        (Version::One, _) => b"",
        (Version::Two, Sender::Client) => b">",
        (Version::Two, Sender::Server) => b"<",
    }
}

/// Writes the line of version 2, if it is due: before the first output of a log that has it.
pub fn push_line(buffer: &mut Vec<u8>, line_due: bool) -> Result<(), AllocError>
    ensures { OnOk result (buffer.new.items ≡ buffer.old.items ++ line_if line_due) }
{
    buffer.extend_from_slice(line_bytes(line_due))
}

/// Writes the bytes before a record's frame: the line of version 2, if it is due, and the mark.
pub fn push_front(output: &mut Vec<u8>, head: Head) -> Result<(), AllocError>
    ensures { OnOk result (output.new.items ≡ output.old.items ++ front_of head) }
{
    push_line(output, head.line_due)?;
    output.extend_from_slice(mark_bytes(head))
}
