//! The words of a call: which are accepted, and which are refused.

use super::*;
use crate::command_line::{self, parse};
use lsp_program::VERSION;
use lsp_replay::{Listing, Rewriting, Settings};
use lsp_server::Config;
use std::str;
use std::test::Fail;

static WRONG: [&str; 34] = [
    "lspsync",
    "lspsync rewrite",
    "lspsync --max-body 4096 check",
    "lspsync help rewrite",
    "lspsync serve session.log",
    "lspsync replay one.log two.log",
    "lspsync check --version",
    "lspsync --version=yes",
    "lspsync serve --stdio --stdio",
    "lspsync check --stdio",
    "lspsync check --sync full",
    "lspsync normalise --squash --squash",
    "lspsync normalise --squash=yes",
    "lspsync serve --lenient=yes",
    "lspsync trace --bodies=yes",
    "lspsync serve --squash",
    "lspsync check --squash",
    "lspsync replay --squash",
    "lspsync serve --sync",
    "lspsync replay --encoding utf-7",
    "lspsync replay --encoding UTF-8",
    "lspsync check --max-body",
    "lspsync check --max-text 1073741825",
    "lspsync check --max-docs 0",
    "lspsync check --max-docs 65537",
    "lspsync check --max-changes x",
    "lspsync compare",
    "lspsync compare a b c",
    "lspsync compare --uri=a --uri=b a",
    "lspsync normalise --uri file:///a",
    "lspsync replay --at 0",
    "lspsync replay --at x",
    "lspsync normalise --squash --live",
    "lspsync normalise --whole --documents --squash",
];

/// Words, and what is said of an option that other commands have, or that none has.
static MISPLACED: [(&str, &str); 7] = [
    ("lspsync check --at 3", "'--at' is an option of replay\n"),
    (
        "lspsync check --explain a --sync=full",
        "'--sync' is an option of serve\n",
    ),
    ("lspsync --at 3 replay", "'--at' is an option of replay\n"),
    (
        "lspsync --lenient",
        "of serve, check, trace, replay, compare, normalise, convert\n",
    ),
    ("lspsync check --att", "unexpected argument '--att'"),
    ("lspsync check -x", "unexpected argument '-x'"),
    (
        "lspsync replay a -- --explain",
        "unexpected argument '--explain'",
    ),
];

/// Returns whether a call with these words is refused, by a text on standard error that has this in
/// it.
fn is_wrong(alloc: Global, words: &str, said: &str) -> Result<bool, Fail> {
    let answer = ran(alloc, words, b"")?;
    let text = str::from_utf8(&answer.errors)?;
    Ok(answer.status == 2 && answer.output.is_empty() && text.contains(said))
}

#[test]
fn a_wrong_command_line_has_a_text_and_status_2(rt: HostRuntime) -> Result<(), Fail> {
    for words in &WRONG {
        assert!(rt; is_wrong(rt.alloc(), words, "\n")?, "at {words:?}");
    }
    for (words, said) in &MISPLACED {
        assert!(rt; is_wrong(rt.alloc(), words, said)?, "at {words:?}");
    }
    Ok(())
}

static COMMANDS: [&str; 7] = [
    "serve",
    "check",
    "trace",
    "replay",
    "compare",
    "normalise",
    "convert",
];

/// Returns whether these words are this call.
fn is_call<'a>(alloc: Global, words: &'a [&'a str], wanted: command_line::Call) -> bool {
    let Ok(Some(found)) = parse(alloc, words) else {
        return false;
    };
    found.len() == 1 && found[0].call == wanted && found[0].file.is_none()
}

#[test]
fn a_call_without_options_has_the_defaults(rt: HostRuntime) -> Result<(), Fail> {
    let serve = command_line::Call::Serve(Config::default());
    assert!(rt; is_call(rt.alloc(), &["lspsync", "serve"], serve));
    let serve = command_line::Call::Serve(Config::default());
    assert!(rt; is_call(rt.alloc(), &["lspsync", "serve", "--stdio"], serve));
    let normalise = command_line::Call::Normalise {
        settings: Settings::default(),
        rewriting: Rewriting {
            whole: true,
            documents: true,
            live: true,
        },
    };
    let words = ["lspsync", "normalise", "--documents", "--live", "--whole"];
    assert!(rt; is_call(rt.alloc(), &words, normalise));
    let explain = command_line::Call::Explain {
        settings: Settings::default(),
        listing: Listing::default(),
        live: true,
    };
    let words = ["lspsync", "check", "--live", "--explain"];
    assert!(rt; is_call(rt.alloc(), &words, explain));
    let brief = command_line::Call::Explain {
        settings: Settings::default(),
        listing: Listing {
            brief: true,
            all: false,
        },
        live: false,
    };
    assert!(rt; is_call(rt.alloc(), &["lspsync", "check", "--brief"], brief));
    let check = command_line::Call::Check {
        settings: Settings::default(),
        live: false,
    };
    assert!(rt; is_call(rt.alloc(), &["lspsync", "check"], check));
    Ok(())
}

static HELP: [&str; 3] = ["lspsync --help", "lspsync -h", "lspsync help"];

/// Returns whether all of these are in a text.
fn has_all(text: &str, words: &[&str]) -> bool {
    for word in words {
        if !text.contains(*word) {
            return false;
        }
    }
    true
}

/// Returns the text that a call for help prints.
fn help(alloc: Global, words: &str) -> Result<Vec<u8>, Fail> {
    let answer = ran(alloc, words, b"")?;
    if answer.status != 0 || !answer.errors.is_empty() {
        return Err(Fail::from("help"));
    }
    Ok(answer.output)
}

/// What help says of each exit status.
static STATUSES: [&str; 6] = [
    "0 all is well",
    "1 a record counts as refused",
    "2 the command line",
    "3 reading or writing failed",
    "4 out of memory",
    "5 the log is faulty",
];

fn names_each(alloc: Global, words: &str) -> Result<bool, Fail> {
    let output = help(alloc, words)?;
    let text = str::from_utf8(&output)?;
    Ok(has_all(text, &COMMANDS) && has_all(text, &STATUSES) && is_narrow(text))
}

/// Returns whether a text fits a terminal of 80 columns.
fn is_narrow(text: &str) -> bool {
    text.lines().all(|line| line.len() <= 80)
}

#[test]
fn help_names_each_command_and_status(rt: HostRuntime) -> Result<(), Fail> {
    for words in &HELP {
        assert!(rt; names_each(rt.alloc(), words)?, "at {words:?}");
    }
    Ok(())
}

#[test]
fn the_version_is_printed(rt: HostRuntime) -> Result<(), Fail> {
    let version = format!(in rt.alloc(); "lspsync {VERSION}\n")?;
    for words in ["lspsync --version", "lspsync -V"] {
        assert!(rt;
            answers(rt.alloc(), words, b"", 0, version.as_bytes(), "")?,
            "at {words:?}"
        );
    }
    Ok(())
}

static OPTIONS: [&str; 6] = [
    "--encoding",
    "--max-body",
    "--max-text",
    "--max-docs",
    "--max-changes",
    "--lenient",
];

/// How help shows the defaults of the limits.
static DEFAULTS: [&str; 3] = ["[default: 16777216]", "[default: 1024]", "[default: 65536]"];

/// Returns whether the help of a command has its options with their defaults, and an example of its
/// call.
fn has_options(alloc: Global, command: &str, words: &str) -> Result<bool, Fail> {
    let before = match command {
        "serve" => "< ",
        "compare" => "hello.py ",
        _ => "",
    };
    let example = format!(in alloc; "  lspsync {command} {before}examples/")?;
    let output = help(alloc, words)?;
    let text = str::from_utf8(&output)?;
    if !text.contains(example.as_str()) || !has_all(text, &OPTIONS) || !is_narrow(text) {
        return Ok(false);
    }
    Ok(has_all(text, &DEFAULTS) && text.contains("--sync") == (command == "serve"))
}

#[test]
fn help_of_each_command_has_its_options_and_an_example(rt: HostRuntime) -> Result<(), Fail> {
    for command in &COMMANDS {
        for (before, after) in [("", " --help"), ("", " -h"), ("help ", "")] {
            let words = format!(in rt.alloc(); "lspsync {before}{command}{after}")?;
            assert!(rt; has_options(rt.alloc(), command, &words)?, "at {words:?}");
        }
    }
    Ok(())
}
