//! Readers and writers that fail, are interrupted or take few bytes.

use super::*;
use lsp_replay::CallEnd::{Fail as Fails, Take};
use lsp_samples::bodies::{INITIALIZE, OPEN, WHOLE};
use lsp_samples::logs::log;
use std::test::Fail;

const READ_FAULT: &str = "lspsync: read fault\n";

const WRITE_FAULT: &str = "lspsync: write fault\n";

const BOTH_FAULTS: &str = "lspsync: read fault\nlspsync: write fault\n";

/// A command, its reads and writes, the length of what was written, and the line.
type Failing = (
    &'static str,
    &'static [CallEnd],
    &'static [CallEnd],
    usize,
    &'static str,
);

static FAILING: [Failing; 9] = [
    ("serve", &[Take(172), Fails], &[], 152, READ_FAULT),
    ("serve", &[], &[Take(100), Fails], 100, WRITE_FAULT),
    // the reply is flushed before more is read
    (
        "serve",
        &[Take(172), Fails],
        &[ALL, Fails],
        152,
        WRITE_FAULT,
    ),
    ("check", &[Take(340), Fails], &[], 18, READ_FAULT),
    // the flush after a fault fails too
    (
        "check",
        &[Take(340), Fails],
        &[ALL, ALL, Fails],
        18,
        BOTH_FAULTS,
    ),
    ("check", &[], &[ALL, ALL, Fails], 18, WRITE_FAULT),
    ("check", &[], &[ALL, ALL, ALL, Fails], 28, WRITE_FAULT),
    ("replay", &[Fails], &[], 0, READ_FAULT),
    ("normalise", &[], &[Take(0)], 0, WRITE_FAULT),
];

/// Returns whether a stream that fails has this line and status 3, and so many bytes of the output
/// are written.
fn has_failed(alloc: Global, input: &[u8], row: &Failing) -> Result<bool, AllocError> {
    let (command, reads, writes, len, line) = *row;
    let words = format!(in alloc; "lspsync {command}")?;
    let whole = ran(alloc, &words, input)?;
    let Some(start) = whole.output.get(..len) else {
        return Ok(false);
    };
    Ok(stopped(alloc, &words, input, reads, writes)?.is(3, start, line))
}

#[test]
fn a_stream_that_fails_has_its_line_and_status_3(rt: HostRuntime) -> Result<(), Fail> {
    let input = log(rt.alloc(), &[INITIALIZE, OPEN, WHOLE])?;
    for row in &FAILING {
        assert!(rt;
            has_failed(rt.alloc(), &input, row)?,
            "at {} {}",
            row.0,
            row.3
        );
    }
    Ok(())
}
