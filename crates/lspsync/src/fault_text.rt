//! The text of a fault's line, and its cause. A line is printed piece by piece, since a derived
//! `Display` has no contract, and writing by one doesn't say whether the writer failed.

ghost use Rattle.std.specs.Prelude.{◌≡◌, ◌++◌, option_map};
ghost use Rattle.lsp_program.specs.Output.{digits_of};
ghost use Rattle.lspsync.specs.FaultText.{fault_cause, fault_text, frame_cause, frame_text};

use lsp_frame::FrameFault;
use lsp_replay::EngineFault;

/// Returns the text of a fault, and the byte offset that comes after it.
pub fn text_of(fault: EngineFault) -> (&'static str, Option<u64>)
    ensures { fault_text fault ≡ result.0.now ++ digits_of result.1 }
{
    match fault {
        EngineFault::Read => ("read fault", None),
        EngineFault::Write => ("write fault", None),
        EngineFault::Frame(fault) => frame_text_of(fault),
        EngineFault::Truncated { place } => ("truncated at ", Some(place)),
        EngineFault::BodyTooLong { place } => ("body too long at ", Some(place)),
        EngineFault::NoMemory => ("out of memory", None),
        EngineFault::TooManyTurns => ("too many turns", None),
        EngineFault::BadLog { place } => ("bad log at ", Some(place)),
    }
}

/// Returns the text of a fault of a frame, and the byte offset that comes after it.
fn frame_text_of(fault: FrameFault) -> (&'static str, Option<u64>)
    ensures { frame_text fault ≡ result.0.now ++ digits_of result.1 }
{
    match fault {
        FrameFault::BadHeader { place } => ("frame fault F1 at ", Some(place)),
        FrameFault::HeaderTooLong { place } => ("frame fault F2 at ", Some(place)),
        FrameFault::MissingLength { place } => ("frame fault F3 at ", Some(place)),
        FrameFault::RepeatedHeader { place } => ("frame fault F4 at ", Some(place)),
        FrameFault::BadLength { place } => ("frame fault F5 at ", Some(place)),
        FrameFault::BodyTooLong { place } => ("frame fault F6 at ", Some(place)),
        FrameFault::BadCharset { place } => ("frame fault F7 at ", Some(place)),
        FrameFault::Failed => ("frame fault F8", None),
        FrameFault::NoMemory => ("out of memory", None),
    }
}

/// Returns the cause of a fault of the log, for a reader who doesn't know its code. Other faults
/// have none.
pub fn cause_of(fault: EngineFault) -> Option<&'static str>
    ensures { option_map (λ cause. cause.now) result ≡ fault_cause fault }
{
    match fault {
        EngineFault::Frame(fault) => frame_cause(fault),
        EngineFault::Truncated { .. } => Some("the log ends inside a message"),
        EngineFault::BodyTooLong { .. } => Some("the message to write is over --max-body"),
        EngineFault::BadLog { .. } => Some("this record can't come here"),
        _ => None,
    }
}

/// Returns the cause of a fault of a frame.
fn frame_cause(fault: FrameFault) -> Option<&'static str>
    ensures { option_map (λ cause. cause.now) result ≡ frame_cause fault }
{
    match fault {
        FrameFault::BadHeader { .. } => Some("no header can have this byte here"),
        FrameFault::HeaderTooLong { .. } => Some("the header has over 8192 bytes"),
        FrameFault::MissingLength { .. } => Some("the header has no Content-Length"),
        FrameFault::RepeatedHeader { .. } => Some("a line of the header comes twice"),
        FrameFault::BadLength { .. } => Some("the Content-Length is no number"),
        FrameFault::BodyTooLong { .. } => Some("the Content-Length is over --max-body"),
        FrameFault::BadCharset { .. } => Some("the charset is not utf-8"),
        _ => None,
    }
}
