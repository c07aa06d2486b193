//! The faults of a stream of frames.

ghost use Rattle.std.specs.Prelude.{◌≡◌};
ghost use Rattle.lsp_frame.specs.Faults.{frame_fault_code, header_fault_at};

use thiserror::Error;

/// The faults F1 to F7 of a header, without their offset.
#[derive(Clone, Copy, Debug, PartialEq, Eq)]
pub enum HeaderFault {
    BadHeader,
    HeaderTooLong,
    MissingLength,
    RepeatedHeader,
    BadLength,
    BodyTooLong,
    BadCharset,
}

/// Why no more of a stream can be taken (LSP 3.17, Base Protocol, Header Part).
///
/// F1 to F7 name the byte on which the fault was decided, by its offset from the start of the
/// stream. The offset saturates at `u64::MAX`.
#[derive(Clone, Copy, Debug, PartialEq, Eq, Error)]
pub enum FrameFault {
    /// F1: the first byte with which no header can continue.
    #[error("F1 at byte offset {place}: no header can continue with this byte")]
    BadHeader { place: u64 },
    /// F2: the 8,192nd byte of a header doesn't end it.
    #[error("F2 at byte offset {place}: the 8,192nd byte of the header doesn't end it")]
    HeaderTooLong { place: u64 },
    /// F3: the header has no Content-Length.
    #[error("F3 at byte offset {place}: the header has no Content-Length")]
    MissingLength { place: u64 },
    /// F4: the header has more than one Content-Length or more than one Content-Type.
    #[error("F4 at byte offset {place}: a Content-Length or Content-Type is repeated")]
    RepeatedHeader { place: u64 },
    /// F5: the value of Content-Length is no number.
    #[error("F5 at byte offset {place}: the value of Content-Length is no number")]
    BadLength { place: u64 },
    /// F6: the value of Content-Length is above the limit on bodies.
    #[error("F6 at byte offset {place}: the value of Content-Length is above the limit")]
    BodyTooLong { place: u64 },
    /// F7: Content-Type names a charset other than UTF-8.
    #[error("F7 at byte offset {place}: Content-Type names a charset other than UTF-8")]
    BadCharset { place: u64 },
    /// F8: one of F1 to F7 was returned before.
    #[error("F8: the stream has failed before")]
    Failed,
    /// F9: out of memory. Nothing has changed.
    #[error("out of memory")]
    NoMemory,
}

impl FrameFault {
    /// Returns the code of the fault, F1 to F9.
    pub fn code(self) -> &'static str
        ensures { result.now ≡ frame_fault_code self }
    {
        match self {
            FrameFault::BadHeader { .. } => "F1",
            FrameFault::HeaderTooLong { .. } => "F2",
            FrameFault::MissingLength { .. } => "F3",
            FrameFault::RepeatedHeader { .. } => "F4",
            FrameFault::BadLength { .. } => "F5",
            FrameFault::BodyTooLong { .. } => "F6",
            FrameFault::BadCharset { .. } => "F7",
            FrameFault::Failed => "F8",
            FrameFault::NoMemory => "F9",
        }
    }
}

impl HeaderFault {
    /// Returns this fault as one of the stream, with the offset of its byte.
    pub(crate) fn at(self, place: u64) -> FrameFault
        ensures { result ≡ header_fault_at self place }
    {
        match self {
            HeaderFault::BadHeader => FrameFault::BadHeader { place },
            HeaderFault::HeaderTooLong => FrameFault::HeaderTooLong { place },
            HeaderFault::MissingLength => FrameFault::MissingLength { place },
            HeaderFault::RepeatedHeader => FrameFault::RepeatedHeader { place },
            HeaderFault::BadLength => FrameFault::BadLength { place },
            HeaderFault::BodyTooLong => FrameFault::BodyTooLong { place },
            HeaderFault::BadCharset => FrameFault::BadCharset { place },
        }
    }
}
