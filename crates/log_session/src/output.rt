//! What is written for a record of a log, and for the log's end.

ghost use Rattle.std.specs.Prelude.{◌≡◌, None};
ghost use Rattle.log_session.specs.inside.RunOutput.{output_of};

use crate::outcome::Outcome;
use lsp_stream::EngineFault;

/// Which bytes are a record's output.
#[derive(Clone, Copy, Debug, PartialEq, Eq)]
pub enum Output {
    /// The record's frame, as it is in the input.
    Frame,
    /// The buffer that was filled for the record.
    Bytes,
    /// The buffer that was filled for the record, from an index on.
    BytesFrom(usize),
}

impl Output {
    /// Returns the bytes of a record's output, of its frame and of the buffer that was filled for
    /// it.
    pub fn bytes<'a>(self, raw: &'a [u8], buffer: &'a [u8]) -> &'a [u8]
        ensures { result.now ≡ output_of self raw.now buffer.now }
    {
        match self {
            Output::Frame => raw,
            Output::Bytes => buffer,
            Output::BytesFrom(start) if start < buffer.len() => &buffer[start..],
            Output::BytesFrom(_) => b"",
        }
    }
}

/// The output of a record, and whether it ends the run.
#[derive(Clone, Copy, Debug, PartialEq, Eq)]
pub struct Given {
    pub output: Output,
    /// The outcome, if this record is the last that is read.
    pub end: Option<Outcome>,
}

impl Given {
    /// Returns the output of a record that doesn't end the run.
    pub fn more(output: Output) -> Self
        ensures { result ≡ record { output = output; end = None } }
    {
        Given { output, end: None }
    }
}

/// The output of a record, or the fault that ends the run.
pub type Printed = Result<Given, EngineFault>;

/// The outcome after the last part of the output at the end of the input, and `None` after others.
pub type Finished = Result<Option<Outcome>, EngineFault>;
