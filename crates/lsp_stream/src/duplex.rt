//! Both ends of a connection, and whether a read came before a flush.
//!
//! A reader alone can't say that it reads in time, since it doesn't see the writer. Borrowing
//! the reader counts as a read.

ghost use Rattle.std.specs.Prelude.{◌≡◌, ◌||◌, [], not, false};
ghost use Rattle.std.specs.Borrow.{Lends, sem};
ghost use mir.Syntax.{named};
ghost use Rattle.lsp_stream.specs.contracts.duplex.Duplex.{the_row};

use crate::port::{Sink, Source};

/// Both ends of a connection. It notes whether a read came too early: before all that was written
/// was flushed. A peer that waits for the rest sends nothing then, and both ends wait.
///
/// While one end is borrowed the other can't be used. So nothing is written between
/// [`reader`](Duplex::reader) and the reads that are made through its result.
#[derive(Debug, Drop)]
pub struct Duplex<'a, R, W> {
    reader: &'a mut R,
    writer: &'a mut W,
    read_early: bool,
}

impl<'a, R: Source, W: Sink> Duplex<'a, R, W> {
    /// Joins a reader and a writer. No read came too early yet.
    pub fn new(reader: &'a mut R, writer: &'a mut W) -> Duplex<'a, R, W>
        ensures reader { result.reader.now ≡ reader.old }
        ensures writer { result.writer.now ≡ writer.old }
        ensures same_reader { result.reader.ghost_name ≡ reader.entry.ghost_name }
        ensures same_writer { result.writer.ghost_name ≡ writer.entry.ghost_name }
        ensures read_early { result.read_early ≡ false }
    {
        Duplex {
            reader,
            writer,
            read_early: false,
        }
    }

    /// Returns the reader, to read from. Notes whether something that was written is not flushed
    /// yet.
    pub fn reader(&mut self) -> &mut R
        ensures value { result.now ≡ self.old.reader.now }
        // Once the reader's borrow ends, the reader is the only end that may have changed.
        ensures* lends { sem 𝓛
            (Lends (the_row (record { mir = named 1; lft = [] }) R.row W.row) R.row
            self.entry result (λ r. record self.old {
              reader = record self.old.reader { now = r };
              read_early = self.old.read_early || not (W.seen self.old.writer.now).flushed;
            })) }
    {
        self.read_early = self.read_early || !self.writer.flushed();
        &mut *self.reader
    }

    /// Returns the writer, to write to and to flush.
    pub fn writer(&mut self) -> &mut W
        ensures value { result.now ≡ self.old.writer.now }
        ensures* lends { sem 𝓛
            (Lends (the_row (record { mir = named 1; lft = [] }) R.row W.row) W.row
            self.entry result
            (λ w. record self.old { writer = record self.old.writer { now = w } })) }
    {
        &mut *self.writer
    }

    /// Returns whether a read came too early: the reader was borrowed while something that was
    /// written was not flushed.
    pub fn read_early(&self) -> bool
        ensures { result ≡ self.now.read_early }
    {
        self.read_early
    }
}
