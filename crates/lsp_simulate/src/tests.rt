//! The program on whole inputs: its output, its status, and the line of a fault.

mod events;
mod faults;

use crate::run::run;
use lsp_stream::{CallEnd, StopReader, Told};
use std::alloc::Global;

/// The result of one run of the program.
#[derive(Drop)]
struct Answer {
    status: u8,
    output: Vec<u8>,
    errors: Vec<u8>,
}

fn ran(alloc: Global, words: &[&str], input: &str) -> Answer {
    stopped(alloc, words, input, &[])
}

/// Runs the program over an input whose first reads end as a script says.
fn stopped(alloc: Global, words: &[&str], input: &str, reads: &[CallEnd]) -> Answer {
    let mut output = Told::new(Vec::new(alloc));
    let mut errors = Told::new(Vec::new(alloc));
    let all = CallEnd::Take(usize::MAX);
    let mut input = Told::new(StopReader::new(input.as_bytes(), reads, all));
    let status = run(alloc, words, &mut input, &mut output, &mut errors);
    Answer {
        status,
        output: output.into_inner(),
        errors: errors.into_inner(),
    }
}
