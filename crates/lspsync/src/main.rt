//! `lspsync`: a language server's end of a session on standard input and output, and six commands
//! on recorded sessions.
//!
//! - `run`: the program over any reader, folder and writers; the engines are those of `lsp_replay`.
//! - `files`: files of logs, by their names.
//! - `ends`: how a run ends, and what is said of it.
//! - `command_line`: the words that the program is called with.
//! - `fault_text`: the text of a fault's line, and its cause.
//! - `again`: a call that is made once more, on the part of its log before a fault.
//! - `beginning`: what a file that is no log seems to be.
//! - `openings`: which messages opened the documents of a log.
//! - `other_settings`: by which other settings a log gives a saved text.
//! - `reached`: the part of a log before its fault. `reasons`: why a record can't come there.
//! - `wanted`: the document that a call names.
//! - `process`: the process's own files and terminal.
#![tactic(auto)]

mod again;
mod beginning;
mod command_line;
mod ends;
mod fault_text;
mod files;
mod openings;
mod other_settings;
mod process;
mod reached;
mod reasons;
mod run;
#[cfg(test)]
mod tests;
mod wanted;

use crate::ends::{Ending, refuse};
use crate::process::{Announced, Disk};
use crate::run::run;
use lsp_program::exit_code;
use lsp_replay::Told;
use std::env;
use std::io::{self, BufWriter, IsTerminal};
use std::process::ExitCode;

/// Output is buffered up to so many bytes; `serve` flushes each reply at once. What goes to a
/// terminal isn't buffered.
const GATHERED: usize = 65_536;

fn main(rt: HostRuntime) -> ExitCode {
    let ending = match answer(&rt) {
        Ok(ending) => ending,
        Err(error) => refuse(error.kind(), &mut Told::new(rt.stderr())),
    };
    exit_code(ending.status)
}

/// Runs the program over the process's own streams. Fails if the words of the command line can't be
/// read, or where memory runs out.
fn answer(rt: &HostRuntime) -> io::Result<Ending> {
    let alloc = rt.alloc();
    let given: Vec<String> = env::args(rt)?.collect(alloc)?;
    let words: Vec<&str> = given.iter().map(|word| word.as_str()).collect(alloc)?;
    let folder = Disk(rt);
    let mut input = Told::new(Announced {
        input: rt.stdin(),
        errors: rt.stderr(),
        is_due: rt.stdin().is_terminal(),
    });
    let mut errors = Told::new(rt.stderr());
    if rt.stdout().is_terminal() {
        let mut output = Told::new(rt.stdout());
        return Ok(run(alloc, &words, &folder, &mut input, &mut output, &mut errors));
    }
    let mut output = Told::new(BufWriter::with_capacity(alloc, GATHERED, rt.stdout())?);
    Ok(run(alloc, &words, &folder, &mut input, &mut output, &mut errors))
}
