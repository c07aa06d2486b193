//! Writes conformance vectors: cases of text synchronisation with what they mean by the proved
//! programs of `lsp_text`, `lsp_edit`, `lsp_store` and `lsp_frame`.
//!
//! A case is a line of JSON, an object of one of four kinds. Its member `changes` is the content of
//! one `textDocument/didChange`, `edits` a list of text edits, `messages` several messages in a
//! row, and `bytes` a stream of frames. Beside `changes` a list of `positions` asks for their byte
//! offsets in the old text. What it means becomes its last member, `expect`; one that is there
//! already is dropped, and computed anew.
//!
//! Without arguments the cases of standard input are written with their meanings. Each argument
//! names a file of vectors; of those the lines are written that are not as computed, and how many.
//!
//! - `case`: cases of each kind, and what they mean.
//! - `answer`: what changes and text edits mean.
//! - `session`: several messages in a row, and the documents after them.
//! - `frames`: the frames of a stream.
//! - `offsets`: the byte offsets of positions.
//! - `fault`: why a case has no meaning.
//! - `written`: meanings as JSON.
#![tactic(auto)]

mod answer;
mod case;
mod fault;
mod frames;
mod offsets;
mod session;
mod written;

use crate::case::expected;
use anyhow::{Context, Result};
use serde_json::Value;
use std::alloc::Global;
use std::env;
use std::fs::File;
use std::io::{BufRead, BufReader, BufWriter, Write};

/// What is before the meaning of a case. No JSON has it inside a text, where quotes are escaped.
const MARK: &str = ",\"expect\":";

fn main(rt: HostRuntime) -> Result<()> {
    let alloc = rt.alloc();
    let mut output = BufWriter::new(alloc, rt.stdout())?;
    let paths: Vec<String> = env::args(&rt)?.collect(alloc)?;
    if paths.len() < 2 {
        let input = BufReader::new(alloc, rt.stdin())?;
        for line in input.lines(alloc) {
            writeln!(output, "{}", complete(alloc, &line?)?)?;
        }
    }
    for path in paths.iter().skip(1) {
        compare(&rt, path, &mut output)?;
    }
    output.flush()?;
    Ok(())
}

/// Writes the lines of a file that are not as computed, as they should be, and how many there are.
fn compare<W: Write>(rt: &HostRuntime, path: &str, output: &mut W) -> Result<()> {
    let alloc = rt.alloc();
    let input = BufReader::new(alloc, File::open(rt, path)?)?;
    let mut lines = 0u64;
    let mut wrong = 0u64;
    for line in input.lines(alloc) {
        let line = line?;
        let computed = complete(alloc, &line)?;
        lines = lines.saturating_add(1);
        if computed != line {
            wrong = wrong.saturating_add(1);
            writeln!(output, "{computed}")?;
        }
    }
    writeln!(output, "{path}: {lines} cases, {wrong} not as computed")?;
    Ok(())
}

/// Returns the line of a case with what it means.
fn complete(alloc: Global, line: &str) -> Result<String> {
    let input = input_of(line).context("a case is an object")?;
    let case = Value::from_str(alloc, &format!(in alloc; "{input}}}")?)?;
    let expect = expected(alloc, case)?.to_string(alloc)?;
    Ok(format!(in alloc; "{input}{MARK}{expect}}}")?)
}

/// Returns what a line has before the meaning of its case, or before the brace at its end.
fn input_of(line: &str) -> Option<&str> {
    match line.split_once(MARK) {
        Some((input, _)) => Some(input),
        None => line.strip_suffix("}"),
    }
}
