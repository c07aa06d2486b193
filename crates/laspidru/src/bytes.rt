//! Bytes that C passes, and bytes that are copied to it.

ghost use Rattle.std.specs.Prelude.{◌≡◌, ◌≢◌, Err, IfErr, IfNone, IfOk, IfSome, Ok, false, true};
ghost use Rattle.std.specs.Str.{is_utf8};
ghost use Rattle.laspidru.specs.Codes.{IsAnswer};
ghost use Rattle.laspidru.specs.Objects.{IsCopy, rest_asked, uri_asked};

use crate::codes::{NOT_UTF8, OK, OUT_OF_RANGE};
use lsp_buffer::TextBuffer;

/// Returns the text of bytes that are UTF-8.
#[tactic(auto, using(crate::proofs::Utf8::utf8_yes, crate::proofs::Utf8::utf8_no))]
pub(crate) fn utf8_text(bytes: &[u8]) -> Option<&str>
    ensures text { IfSome result (λ text. (text.now ≡ bytes.now) × (is_utf8 bytes.now ≡ true)) }
    ensures none { IfNone result (is_utf8 bytes.now ≡ false) }
{
    match std::str::from_utf8(bytes) {
        Ok(text) => Some(text),
        Err(_) => None,
    }
}

/// Returns a URI or another text, or the code for why it is none.
pub(crate) fn checked_text(bytes: &[u8]) -> Result<&str, u32>
    ensures ok { IfOk result (λ text. uri_asked bytes.now ≡ Ok text.now) }
    ensures error { IfErr result (λ code. uri_asked bytes.now ≡ Err code) }
{
    match utf8_text(bytes) {
        Some(text) => Ok(text),
        None => Err(NOT_UTF8),
    }
}

/// Copies as many bytes as `out` has room for, and returns how many.
pub(crate) fn copy_bytes(bytes: &[u8], out: &mut [u8]) -> usize
    ensures { IsCopy out.old out.new result bytes.now }
{
    let count = out.len().min(bytes.len());
    out[..count].copy_from_slice(&bytes[..count]);
    count
}

/// Copies bytes from `start` on, as many as `out` has room for. Writes how many to `copied`.
pub(crate) fn copy_from(bytes: &[u8], start: usize, out: &mut [u8], copied: &mut usize) -> u32
    ensures answer { IsAnswer (rest_asked start (Ok bytes.now)) result
        (IsCopy out.old out.new copied.new) }
    ensures unchanged { result ≢ OK → (out.new ≡ out.old) × (copied.new ≡ copied.old) }
{
    let Some((_, rest)) = bytes.split_at_checked(start) else {
        return OUT_OF_RANGE;
    };
    *copied = copy_bytes(rest, out);
    OK
}

/// Copies the bytes of a text from `start` on, as many as `out` has room for. Writes how many to
/// `copied`.
pub(crate) fn copy_text(text: &TextBuffer, start: usize, out: &mut [u8], copied: &mut usize) -> u32
    ensures answer { IsAnswer (rest_asked start (Ok text.now)) result
        (IsCopy out.old out.new copied.new) }
    ensures unchanged { result ≢ OK → (out.new ≡ out.old) × (copied.new ≡ copied.old) }
{
    if start > text.len() {
        return OUT_OF_RANGE;
    }
    *copied = text.copy_to(start, out);
    OK
}
