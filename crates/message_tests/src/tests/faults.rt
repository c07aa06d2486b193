//! The text of each fault.

use lsp_frame::{BadLimits, EncodeFault, FrameFault};
use lsp_message::{Id, ParamsFault, ReadFault};
use lsp_samples::shown::{is_shown, wrong_text};
use std::alloc::{AllocError, Global};
use std::test::Fail;

static FRAME: [(FrameFault, &str); 9] = [
    (
        FrameFault::BadHeader { place: 14 },
        "F1 at byte offset 14: no header can continue with this byte",
    ),
    (
        FrameFault::HeaderTooLong { place: 8_191 },
        "F2 at byte offset 8191: the 8,192nd byte of the header doesn't end it",
    ),
    (
        FrameFault::MissingLength { place: 1 },
        "F3 at byte offset 1: the header has no Content-Length",
    ),
    (
        FrameFault::RepeatedHeader { place: 39 },
        "F4 at byte offset 39: a Content-Length or Content-Type is repeated",
    ),
    (
        FrameFault::BadLength { place: 19 },
        "F5 at byte offset 19: the value of Content-Length is no number",
    ),
    (
        FrameFault::BodyTooLong { place: 23 },
        "F6 at byte offset 23: the value of Content-Length is above the limit",
    ),
    (
        FrameFault::BadCharset { place: 53 },
        "F7 at byte offset 53: Content-Type names a charset other than UTF-8",
    ),
    (FrameFault::Failed, "F8: the stream has failed before"),
    (FrameFault::NoMemory, "out of memory"),
];

static LIMITS: [(BadLimits, &str); 1] = [(BadLimits { which: 3 }, "limit 3 is out of range")];

static ENCODE: [(EncodeFault, &str); 2] = [
    (
        EncodeFault::BodyTooLong { len: 4_097 },
        "the body has 4097 bytes, more than the limit",
    ),
    (EncodeFault::NoMemory, "out of memory"),
];

static PARAMS: [(ParamsFault, &str); 2] = [
    (ParamsFault::InvalidParams, "invalid params"),
    (ParamsFault::NoMemory, "out of memory"),
];

fn is_read_fault(alloc: Global, fault: ReadFault, text: &str) -> Result<bool, AllocError> {
    is_shown(alloc, &fault, text)
}

fn are_read_faults(alloc: Global) -> Result<bool, AllocError> {
    let no_message = ReadFault::NotAMessage {
        id: Some(Id::Whole(7)),
    };
    Ok(
        is_read_fault(alloc, no_message, "the body is no message")?
            && is_read_fault(alloc, ReadFault::NotJson, "the body is no JSON")?
            && is_read_fault(alloc, ReadFault::NoMemory, "out of memory")?,
    )
}

#[test]
fn each_fault_has_its_text(rt: HostRuntime) -> Result<(), Fail> {
    let alloc = rt.alloc();
    assert_eq!(rt; wrong_text(alloc, &FRAME)?, None);
    assert_eq!(rt; wrong_text(alloc, &LIMITS)?, None);
    assert_eq!(rt; wrong_text(alloc, &ENCODE)?, None);
    assert_eq!(rt; wrong_text(alloc, &PARAMS)?, None);
    assert!(rt; are_read_faults(alloc)?);
    Ok(())
}
