//! Times the layers on made input: sums of what was done go to standard output, and the times to
//! standard error. bench/README.md has what was measured.
//!
//! - `lsp_bench MB` frames streams and indexes a text of that many megabytes, 1 where no number is
//!   given, looks up positions, reads and writes messages, and makes a few keystrokes in documents
//!   and through both ends of a session.
//! - `lsp_bench edits` composes batches of changes.
//! - `lsp_bench documents` makes a thousand keystrokes in each document.
//! - `lsp_bench closing` opens and closes 65,536 documents.
//! - `lsp_bench again` types and deletes five million letters, and closes and opens as many
//!   documents.
//! - `lsp_bench pairs` makes a million keystrokes in five rounds through both ends of a session.
//! - `lsp_bench parse` frames and parses what standard input has, and prints how much that was.
//!
//! `timing` times work and prints its row, `text` makes texts and keystrokes. Each other module has
//! the work of one layer.
#![tactic(auto)]

mod closing;
mod comes_and_goes;
mod documents;
mod edits;
mod frames;
mod lines;
mod messages;
mod pairs;
mod text;
mod timing;

use frames::parse_all;
use std::rt::Runtime;
use std::{env, io};

fn main(rt: HostRuntime) -> io::Result<()> {
    let Some(word) = env::args(&rt)?.nth(1) else {
        return run(&rt, 1);
    };
    match word.as_str() {
        "edits" => edits::run(&rt),
        "documents" => documents::run(&rt, 1_000),
        "closing" => closing::run(&rt, 65_536),
        "again" => comes_and_goes::run(&rt, 1_000_000),
        "pairs" => pairs::run(&rt, 200_000),
        "parse" => parse(&rt),
        number => match number.parse() {
            Ok(megabytes) => run(&rt, megabytes),
            Err(_) => Err(io::Error::other("the number of megabytes can't be read")),
        },
    }
}

fn run<R: Runtime + AllocGlobal>(rt: &R, megabytes: u16) -> io::Result<()> {
    frames::run(rt, megabytes)?;
    lines::run(rt, megabytes)?;
    messages::run(rt, megabytes)?;
    documents::run(rt, 10)?;
    closing::run(rt, 1_000)?;
    comes_and_goes::run(rt, 100_000)?;
    pairs::run(rt, 2_000)
}

/// Frames and parses what standard input has.
fn parse(rt: &HostRuntime) -> io::Result<()> {
    let read = parse_all(rt.alloc(), &mut rt.stdin())?;
    println!(rt;
        "{} frames, {} bytes, {} objects",
        read.frames, read.bytes, read.objects
    )
}
