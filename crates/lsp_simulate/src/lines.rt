//! The lines of the input. They are taken from a `Source`, since std's `split` doesn't say whether a
//! read failed.

ghost use Rattle.std.specs.Prelude.{◌≡◌, ◌≤◌, ◌<◌, ◌⊎◌, ◌+◌, ◌-◌, ◌++◌, [], ℕ, List, Ok, IfErr, IfOk};
ghost use Rattle.std.specs.Prelude.{false, is_some, true};
ghost use Rattle.std.specs.Io.KnownBytes.{IsAtEnd};
ghost use Rattle.lsp_stream.specs.Ports.{Rose};
ghost use Rattle.lsp_stream.specs.Turns.{Spends};
ghost use Rattle.lsp_program.specs.Output.{allowed_turns};
ghost use Rattle.lsp_simulate.specs.Session.{lines_from};
ghost use Rattle.lsp_simulate.specs.inside.Lines.{Passed, is_begun, lines_in, rest, size, unused};

mod piece;

use crate::lines::piece::{PIECE, Piece};
use lsp_program::MAX_TURNS;
use lsp_stream::{EngineFault, Source, Turns, read_piece};
use memchr::memchr;
use std::alloc::{AllocError, Global};

/// What was read and isn't taken yet, and how many reads are left.
#[derive(Drop)]
pub struct InputLines {
    piece: Piece,
    turns: Turns,
}

impl InputLines {
    /// Nothing is read yet.
    pub fn new() -> InputLines
        ensures unused { unused result ≡ [] }
        ensures turns { result.turns.left ≡ allowed_turns }
    {
        InputLines {
            piece: Piece {
                bytes: [0; PIECE],
                from: 0,
                to: 0,
            },
            turns: Turns::new(MAX_TURNS),
        }
    }

    /// Takes the next line, without its line end, which the last may lack. At the end of the input
    /// there is none.
    ///
    /// # Errors
    /// A read that failed, too many reads, or out of memory.
    pub fn next<R: Source>(
        &mut self,
        alloc: Global,
        input: &mut R,
    ) -> Result<Option<Vec<u8>>, EngineFault>
        ensures taken { IfOk result (λ line. Passed (rest self.old (R.seen input.old))
            (lines_in line) false (rest self.new (R.seen input.new))) }
        ensures end { IfOk result
            (λ line. is_some line ≡ false → ((R.seen input.new).ended ≡ true)
            × IsAtEnd (rest self.new (R.seen input.new))) }
        ensures less { IfOk result (λ line. is_some line ≡ true → size self.new < size self.old) }
        ensures error { IfErr result (λ fault. (fault ≡ EngineFault.NoMemory)
            ⊎ ((fault ≡ EngineFault.Read) ⊎ (fault ≡ EngineFault.TooManyTurns))) }
        ensures failed { IfErr result (λ fault. fault ≡ EngineFault.Read →
            ((R.seen input.new).failed ≡ true)
            × Rose (R.seen input.old).calls (R.seen input.new).calls) }
        ensures none_left { IfErr result
            (λ fault. fault ≡ EngineFault.TooManyTurns → self.new.turns.left ≡ 0) }
        ensures spent { Spends (R.seen input.old).calls (R.seen input.new).calls
            self.old.turns.left self.new.turns.left }
    {
        let mut line = Vec::new(alloc);
        'pieces: loop {
            if self.take_into(&mut line)? {
                return Ok(Some(line));
            }
            self.piece.from = 0;
            self.piece.to = 0;
            self.piece.to = read_piece(input, &mut self.piece.bytes, &mut self.turns)?;
            if self.piece.to == 0 {
                return Ok(last(line));
            }
        }
    }

    /// Moves the bytes up to the next line end into a line, or all if there is none. Returns whether
    /// there is one.
    fn take_into(&mut self, line: &mut Vec<u8>) -> Result<bool, AllocError>
        ensures whole { result ≡ Ok true → (more : List ℕ) →
            lines_from (is_begun line.old.items) (unused self.old ++ more)
            ≡ 1 + lines_from false (unused self.new ++ more) }
        ensures part { result ≡ Ok false → (more : List ℕ) →
            lines_from (is_begun line.old.items) (unused self.old ++ more)
            ≡ lines_from (is_begun line.new.items) more }
        ensures less { result ≡ Ok true →
            self.new.piece.to - self.new.piece.from
            < self.old.piece.to - self.old.piece.from }
        ensures turns { self.new.turns.left ≡ self.old.turns.left }
    {
        let unused = &self.piece.bytes[self.piece.from..self.piece.to];
        match memchr(b'\n', unused) {
            Some(len) => {
                line.extend_from_slice(&unused[..len])?;
                self.piece.from += len + 1;
                Ok(true)
            }
            None => {
                line.extend_from_slice(unused)?;
                self.piece.from = self.piece.to;
                Ok(false)
            }
        }
    }
}

/// Returns the last line, which has no line end, if there is one.
fn last(line: Vec<u8>) -> Option<Vec<u8>>
    ensures { is_some result ≡ is_begun line.items }
{
    if line.is_empty() {
        return None;
    }
    Some(line)
}
