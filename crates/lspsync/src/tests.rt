//! The program on whole inputs: its output, its status, and the line that reports a fault.

mod command_line;
mod faults;
mod files;
mod options;
mod parts;
mod sessions;
mod streams;
mod traces;

use crate::files::Folder;
use crate::run::run;
use lsp_replay::{CallEnd, StopReader, StopWriter, Told};
use std::alloc::{AllocError, Global};
use std::io::{self, ErrorKind};

/// The result of one run of the program.
#[derive(Drop)]
struct Answer {
    status: u8,
    output: Vec<u8>,
    errors: Vec<u8>,
}

impl Answer {
    /// Returns whether these are the status, the output and the lines on standard error.
    fn is(&self, status: u8, output: &[u8], errors: &str) -> bool {
        self.status == status
            && self.output.as_slice() == output
            && self.errors.as_slice() == errors.as_bytes()
    }
}

/// Returns whether a run with these words has this status and output, and these lines on standard
/// error.
fn answers(
    alloc: Global,
    words: &str,
    input: &[u8],
    status: u8,
    output: &[u8],
    errors: &str,
) -> Result<bool, AllocError> {
    Ok(ran(alloc, words, input)?.is(status, output, errors))
}

/// Runs the program over streams that never fail. Blanks part the words.
fn ran(alloc: Global, words: &str, input: &[u8]) -> Result<Answer, AllocError> {
    stopped(alloc, words, input, &[], &[])
}

/// A file in memory: its name, its bytes, and how its first reads end.
type Held<'a> = (&'a str, &'a [u8], &'a [CallEnd]);

/// Files in memory.
#[derive(Drop)]
struct Shelf<'a>(&'a [Held<'a>]);

impl<'a> Folder for Shelf<'a> {
    ghost use Rattle.std.specs.Prelude.{None};

    ghost bytes = { λ _ _. None };

    type File = StopReader<'a>;

    fn open(&self, name: &str) -> io::Result<StopReader<'a>> {
        if name == "heavy" {
            return Err(io::Error::from(ErrorKind::OutOfMemory));
        }
        for (known, bytes, reads) in self.0 {
            if *known == name {
                return Ok(StopReader::new(bytes, reads, ALL));
            }
        }
        Err(io::Error::from(ErrorKind::NotFound))
    }

    fn is_lasting(&self, name: &str) -> bool {
        !name.ends_with("pipe")
    }
}

const ALL: CallEnd = CallEnd::Take(usize::MAX);

/// Runs the program over streams whose first calls end as these scripts say.
fn stopped(
    alloc: Global,
    words: &str,
    input: &[u8],
    reads: &[CallEnd],
    writes: &[CallEnd],
) -> Result<Answer, AllocError> {
    shelved(alloc, words, &[], input, reads, writes)
}

/// Runs the program over such streams, with these files.
fn shelved(
    alloc: Global,
    words: &str,
    files: &[Held<'_>],
    input: &[u8],
    reads: &[CallEnd],
    writes: &[CallEnd],
) -> Result<Answer, AllocError> {
    let mut reader = Told::new(StopReader::new(input, reads, ALL));
    let mut writer = Told::new(StopWriter::new(alloc, writes, ALL));
    let mut errors = Told::new(Vec::new(alloc));
    let folder = Shelf(files);
    let words: Vec<&str> = words.split(' ').collect(alloc)?;
    let status = run(
        alloc,
        &words,
        &folder,
        &mut reader,
        &mut writer,
        &mut errors,
    )
    .status;
    let output = Vec::from_slice(alloc, writer.into_inner().bytes())?;
    Ok(Answer {
        status,
        output,
        errors: errors.into_inner(),
    })
}
