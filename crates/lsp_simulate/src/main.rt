//! `lsp_simulate`: both ends of a session of the Language Server Protocol, driven by lines of JSON.
//!
//! - `run`: the program over any reader and writers.
//! - `session`: the steps of a pair, and the lines of output.
//! - `lines`: the lines of the input.
//! - `script`: the event of a line.
//! - `word`: the words for what happened.
//! - `command_line`: the words that the program is called with.
#![tactic(auto)]

mod command_line;
mod lines;
mod run;
mod script;
mod session;
#[cfg(test)]
mod tests;
mod word;

use crate::run::{refuse, run};
use lsp_program::exit_code;
use lsp_stream::Told;
use std::io::BufWriter;
use std::process::ExitCode;
use std::{env, io};

fn main(rt: HostRuntime) -> ExitCode {
    let status = match answer(&rt) {
        Ok(status) => status,
        Err(error) => refuse(error.kind(), &mut Told::new(rt.stderr())),
    };
    exit_code(status)
}

/// Runs the program over the process's own streams. Fails if the words of the command line can't be
/// read, or where memory runs out.
fn answer(rt: &HostRuntime) -> io::Result<u8> {
    let alloc = rt.alloc();
    let given: Vec<String> = env::args(rt)?.collect(alloc)?;
    let words: Vec<&str> = given.iter().map(|word| word.as_str()).collect(alloc)?;
    let output = BufWriter::new(alloc, rt.stdout())?;
    Ok(run(
        alloc,
        &words,
        &mut Told::new(rt.stdin()),
        &mut Told::new(output),
        &mut Told::new(rt.stderr()),
    ))
}
