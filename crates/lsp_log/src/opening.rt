//! The first bytes of an input, as many as decide its version.

ghost use Rattle.std.specs.Prelude.{◌≡◌, ◌<◌, ◌≤◌, ◌^◌, ◌++◌, ◌↔◌, [], ℕ, List, true, false, IfOk, IfErr, length, take, drop};
ghost use Rattle.std.specs.Io.KnownBytes.{Consumes, IsAtEnd};
ghost use Rattle.lsp_stream.specs.Ports.{FewReads};
ghost use Rattle.lsp_stream.specs.Turns.{ReadsWithin};
ghost use Rattle.lsp_log.specs.Log.{IsVersion, line_of, version_line};
ghost use Rattle.lsp_log.specs.Opening.{IsLineFront, IsBelowLine};

use crate::record::{VERSION_LINE, Version};
use lsp_stream::{EngineFault, Source, Turns, read_piece};

/// The first bytes of an input: its version, how many bytes were read, and whether the end came.
#[derive(Clone, Copy, Debug)]
pub struct Opening {
    pub version: Version,
    pub len: usize,
    pub ended: bool,
}

/// Reads into `buf` until the version is known. Without `versions` each input is of version 1, and
/// that is one read.
///
/// # Errors
/// [`EngineFault::Read`] if a read fails, [`EngineFault::TooManyTurns`] if no turn is left for one.
pub fn read_opening<R: Source>(
    reader: &mut R,
    buf: &mut [u8],
    versions: bool,
    turns: &mut Turns,
) -> Result<Opening, EngineFault>
    requires { 18 ≤ length buf.old }
    ensures bound { IfOk result (λ opening. opening.len ≤ length buf.new) }
    ensures fits { IfOk result (λ opening. opening.len < 2 ^ 64) }
    ensures read { IfOk result
        (λ opening. Consumes (R.seen reader.old).left (R.seen reader.new).left
        (take opening.len buf.new)) }
    ensures known { IfOk result (λ opening. (more : List ℕ) → (opening.ended ≡ true → more ≡ []) →
        IsVersion versions opening.version (take opening.len buf.new ++ more)) }
    ensures line { IfOk result (λ opening. length (line_of opening.version) ≤ opening.len) }
    ensures front { IfOk result (λ opening. take opening.len buf.new ≡
        line_of opening.version
        ++ drop (length (line_of opening.version)) (take opening.len buf.new)) }
    ensures ended { IfOk result
        (λ opening. (R.seen reader.new).ended ≡ true ↔ opening.ended ≡ true) }
    ensures at_end { IfOk result (λ opening. opening.ended ≡ true →
        IsAtEnd (R.seen reader.new).left) }
    ensures below { IfErr result
        (λ _. IsBelowLine versions (R.seen reader.old).left (R.seen reader.new).left) }
    ensures calls { ReadsWithin turns.old.left turns.new.left
        (R.seen reader.old) (R.seen reader.new) result }
    ensures few { FewReads (R.seen reader.old) (R.seen reader.new) }
{
    let mut len = 0;
    'opening: loop {
        let n = read_piece(reader, &mut buf[len..], turns)?;
        len += n;
        let ended = n == 0;
        let bytes = &buf[..len];
        if !is_undecided(bytes, versions, ended) {
            let version = version_of(bytes, versions);
            return Ok(Opening {
                version,
                len,
                ended,
            });
        }
    }
}

/// Returns whether an input that begins with these bytes may be of either version.
fn is_undecided(bytes: &[u8], versions: bool, ended: bool) -> bool
    ensures yes { result ≡ true → IsLineFront bytes.now }
    ensures no { result ≡ false → versions ≡ true → IsLineFront bytes.now → ended ≡ true }
    ensures not_ended { result ≡ true → ended ≡ false }
    ensures looked_for { result ≡ true → versions ≡ true }
{
    versions && !ended && may_be_line(bytes)
}

/// Returns whether these are some first bytes of the line of version 2, and not all.
fn may_be_line(bytes: &[u8]) -> bool
    ensures { result ≡ true ↔ IsLineFront bytes.now }
{
    bytes.len() < VERSION_LINE.len() && VERSION_LINE.starts_with(bytes)
}

/// Returns the version of an input that begins with these bytes, as far as they decide it.
fn version_of(bytes: &[u8], versions: bool) -> Version
    ensures { IsVersion versions result bytes.now }
{
    if versions && bytes.starts_with(VERSION_LINE) {
        Version::Two
    } else {
        Version::One
    }
}
