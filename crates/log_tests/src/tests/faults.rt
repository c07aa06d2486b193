//! The text of each fault.

use lsp_frame::FrameFault;
use lsp_samples::shown::wrong_text;
use lsp_stream::EngineFault;
use std::test::Fail;

static FAULTS: [(EngineFault, &str); 8] = [
    (EngineFault::Read, "read fault"),
    (EngineFault::Write, "write fault"),
    (
        EngineFault::Frame(FrameFault::BadLength { place: 19 }),
        "F5 at byte offset 19: the value of Content-Length is no number",
    ),
    (EngineFault::Truncated { place: 21 }, "truncated at 21"),
    (EngineFault::BodyTooLong { place: 0 }, "body too long at 0"),
    (EngineFault::NoMemory, "out of memory"),
    (EngineFault::TooManyTurns, "too many turns"),
    (EngineFault::BadLog { place: 64 }, "bad log at 64"),
];

#[test]
fn each_fault_has_its_text(rt: HostRuntime) -> Result<(), Fail> {
    assert_eq!(rt; wrong_text(rt.alloc(), &FAULTS)?, None);
    Ok(())
}
