//! The line and the status of each fault.

use super::*;
use crate::ends::{refuse, report};
use lsp_frame::FrameFault;
use lsp_replay::EngineFault;
use std::io::ErrorKind;

/// A fault, the status, and the line.
static REPORTS: [(EngineFault, u8, &str); 8] = [
    (EngineFault::Read, 3, "lspsync: read fault\n"),
    (EngineFault::Write, 3, "lspsync: write fault\n"),
    (EngineFault::TooManyTurns, 3, "lspsync: too many turns\n"),
    (EngineFault::NoMemory, 4, "lspsync: out of memory\n"),
    (
        EngineFault::Frame(FrameFault::RepeatedHeader { place: 39 }),
        5,
        "lspsync: frame fault F4 at 39\n",
    ),
    (
        EngineFault::Truncated { place: 23 },
        5,
        "lspsync: truncated at 23\n",
    ),
    (
        EngineFault::BodyTooLong { place: 340 },
        5,
        "lspsync: body too long at 340\n",
    ),
    (
        EngineFault::BadLog { place: 18 },
        5,
        "lspsync: bad log at 18\n",
    ),
];

/// Returns whether a fault is reported with this status, in this line.
fn is_reported(alloc: Global, fault: EngineFault, status: u8, line: &str) -> bool {
    let mut errors = Told::new(Vec::new(alloc));
    let ending = report(fault, &mut errors).status;
    ending == status && errors.into_inner().as_slice() == line.as_bytes()
}

/// Returns whether words that can't be read are refused with this status, in this line.
fn is_refused(alloc: Global, kind: ErrorKind, status: u8, line: &str) -> bool {
    let mut errors = Told::new(Vec::new(alloc));
    let ending = refuse(kind, &mut errors).status;
    ending == status && errors.into_inner().as_slice() == line.as_bytes()
}

#[test]
fn each_fault_has_its_line_and_status(rt: HostRuntime) {
    for (fault, status, line) in &REPORTS {
        assert!(rt; is_reported(rt.alloc(), *fault, *status, line), "{line}");
    }
    let line = "lspsync: out of memory\n";
    assert!(rt; is_refused(rt.alloc(), ErrorKind::OutOfMemory, 4, line));
    let line = "lspsync: the command line is not UTF-8\n";
    assert!(rt; is_refused(rt.alloc(), ErrorKind::InvalidData, 2, line));
}
