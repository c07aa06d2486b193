//! Runs that end in a fault: the status, the output before it, and its line.

use super::{ran, stopped};
use lsp_program::VERSION;
use lsp_stream::CallEnd::{Fail as Fails, Take};
use std::str;
use std::test::Fail;

/// The words, the input, the status, the output, and the line of the fault.
static FAULTS: &[(&[&str], &str, u8, &str, &str)] = &[
    (
        &["lsp_simulate"],
        "{\"event\":\"start\"}\n\n",
        5,
        "1 sent\n",
        "lsp_simulate: bad event at line 2\n",
    ),
    (
        &["lsp_simulate"],
        "{\"event\":\"begin\"}",
        5,
        "",
        "lsp_simulate: bad event at line 1\n",
    ),
    (
        &["lsp_simulate", "--fixed", "utf-8", "--server-max-text", "7"],
        "",
        2,
        "",
        "lsp_simulate: the server's encoding is fixed, and is not utf-16\n",
    ),
    (
        &["lsp_simulate", "--max-text", "8", "--server-max-text", "7"],
        "",
        2,
        "",
        "lsp_simulate: one of the server's limits is below the client's, or only the client is lenient\n",
    ),
];

#[test]
fn what_ends_a_run(rt: HostRuntime) -> Result<(), Fail> {
    for (words, input, status, output, line) in FAULTS {
        let answer = ran(rt.alloc(), words, input);
        assert_eq!(rt; answer.errors.as_slice(), line.as_bytes());
        assert_eq!(rt; answer.output.as_slice(), output.as_bytes());
        assert_eq!(rt; answer.status, *status);
    }
    Ok(())
}

#[test]
fn a_read_that_fails_comes_after_the_lines_before_it(rt: HostRuntime) {
    let input = "{\"event\":\"start\"}\n{\"event\":\"toServer\"}\n";
    let answer = stopped(
        rt.alloc(),
        &["lsp_simulate"],
        input,
        &[Take(7), Take(20), Fails],
    );
    assert_eq!(rt;
        answer.errors.as_slice(),
        "lsp_simulate: read fault\n".as_bytes()
    );
    assert_eq!(rt; answer.output.as_slice(), "1 sent\n".as_bytes());
    assert_eq!(rt; answer.status, 3);
}

#[test]
fn a_word_that_is_unknown(rt: HostRuntime) -> Result<(), Fail> {
    let answer = ran(rt.alloc(), &["lsp_simulate", "--prefer", "utf-7"], "");
    assert_eq!(rt; answer.status, 2);
    assert!(rt; answer.output.is_empty());
    Ok(())
}

/// What help says of each exit status.
static STATUSES: [&str; 5] = [
    "0 all events were made",
    "2 the command line is wrong",
    "3 reading or writing failed",
    "4 out of memory",
    "5 a line is no",
];

/// Returns the first status that a text doesn't name.
fn missing_status(text: &str) -> Option<&'static str> {
    for status in &STATUSES {
        if !text.contains(*status) {
            return Some(*status);
        }
    }
    None
}

#[test]
fn help_names_each_exit_status(rt: HostRuntime) -> Result<(), Fail> {
    let answer = ran(rt.alloc(), &["lsp_simulate", "--help"], "");
    assert_eq!(rt; answer.status, 0);
    let text = str::from_utf8(&answer.output)?;
    assert_eq!(rt; missing_status(text), None);
    // and it fits a terminal
    assert!(rt; text.lines().all(|line| line.len() <= 80));
    Ok(())
}

#[test]
fn the_version_is_printed(rt: HostRuntime) -> Result<(), Fail> {
    let version = format!(in rt.alloc(); "lsp_simulate {VERSION}\n")?;
    for option in ["--version", "-V"] {
        let answer = ran(rt.alloc(), &["lsp_simulate", option], "");
        assert_eq!(rt; answer.status, 0);
        assert_eq!(rt; answer.output.as_slice(), version.as_bytes());
    }
    Ok(())
}
