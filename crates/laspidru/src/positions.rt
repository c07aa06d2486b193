//! Positions, byte offsets and lines of a text: of a document's, and of an open document's of a
//! session.

ghost use Rattle.std.specs.Prelude.{◌≡◌, ◌≢◌, Ok};
ghost use Rattle.laspidru.specs.Codes.{IsAnswer, IsRefusedOr, both};
ghost use Rattle.laspidru.specs.Ends.{as_end, asked_of_open};
ghost use Rattle.laspidru.specs.Objects.{IsLineExtent, IsPositionAt, as_document, encoding_at};
ghost use Rattle.laspidru.specs.Objects.{in_handle, line_asked, offset_asked, position_at};

use crate::bytes::checked_text;
use crate::changes::{encoding_of, position_of};
use crate::codes::{INSIDE_CHARACTER, OK, OUT_OF_RANGE, or_return};
use crate::ends::with_open;
use crate::handle::{Handle, with_object};
use crate::object::Object;
use crate::structs::{CPosition, Line};
use lsp_buffer::TextBuffer;
use lsp_text::Encoding;
use std::alloc::Global;

/// Writes the byte offset that a position denotes in a text to `out`.
fn text_offset(text: &TextBuffer, encoding: Encoding, position: CPosition, out: &mut usize) -> u32
    ensures answer { IsAnswer (offset_asked (position_at position) (Ok encoding) (Ok text.now))
        result (λ offset. out.new ≡ offset) }
    ensures unchanged { result ≢ OK → out.new ≡ out.old }
{
    match text.resolve(encoding, position_of(position)) {
        Ok(offset) => {
            *out = offset;
            OK
        }
        Err(_) => INSIDE_CHARACTER,
    }
}

/// Returns the byte offset that a position denotes (LSP 3.17, Position). After the last line that
/// is the end of the text, after a line's last character the end of the line. Codes, in this order:
/// BAD_ENCODING, EMPTY, OTHER_KIND, INSIDE_CHARACTER. Costs a search among the text's blocks, and
/// the line's text in its block up to the character; in UTF-8 the search alone.
#[unsafe(no_mangle)]
pub extern "C" fn laspidru_document_offset(
    alloc: Global,
    handle: &mut Handle,
    encoding: u32,
    position: CPosition,
    out: &mut usize,
) -> u32
    ensures answer { let document = in_handle as_document handle.old.value in IsAnswer
        (offset_asked (position_at position) (encoding_at encoding) document) result
        (λ offset. out.new ≡ offset) }
    ensures handle { handle.new.value ≡ handle.old.value }
    ensures unchanged { result ≢ OK → out.new ≡ out.old }
{
    let encoding = or_return!(encoding_of(encoding));
    with_object!(handle, alloc, Object::Document(document) => {
        text_offset(document.text(), encoding, position, out)
    })
}

/// Returns the byte offset that a position denotes in an open document, as
/// `laspidru_document_offset` does. URIs are compared byte for byte. Codes, in this order: NOT_UTF8
/// of the URI, BAD_ENCODING, EMPTY, OTHER_KIND, NOT_OPEN, INSIDE_CHARACTER. Costs a hash look-up,
/// and then the same.
#[unsafe(no_mangle)]
pub extern "C" fn laspidru_session_document_offset(
    alloc: Global,
    handle: &mut Handle,
    uri: &[u8],
    encoding: u32,
    position: CPosition,
    out: &mut usize,
) -> u32
    ensures answer { let asked = offset_asked (position_at position) (encoding_at encoding) in
        IsAnswer (asked_of_open uri.now (in_handle as_end handle.old.value) asked) result
        (λ offset. out.new ≡ offset) }
    ensures handle { handle.new.value ≡ handle.old.value }
    ensures unchanged { result ≢ OK → out.new ≡ out.old }
{
    let uri = or_return!(checked_text(uri));
    let encoding = or_return!(encoding_of(encoding));
    with_open!(handle, alloc, uri, |opened| {
        text_offset(opened.text(), encoding, position, out)
    })
}

/// Writes the exact position of a byte offset of a text to `out`.
fn text_position(text: &TextBuffer, encoding: Encoding, offset: usize, out: &mut CPosition) -> u32
    ensures answer { IsPositionAt offset encoding text.now result out.new }
    ensures unchanged { result ≢ OK → out.new ≡ out.old }
{
    if !text.is_place(offset) {
        return INSIDE_CHARACTER;
    }
    *out = CPosition::from(text.position(encoding, offset));
    OK
}

/// Returns the exact position of a byte offset. Codes, in this order: BAD_ENCODING, EMPTY,
/// OTHER_KIND; INSIDE_CHARACTER, also for an offset between CR and LF or past the end. Costs a
/// search among the text's blocks and one among a block's lines, and the line's text in the block
/// up to the offset.
#[unsafe(no_mangle)]
pub extern "C" fn laspidru_document_position(
    alloc: Global,
    handle: &mut Handle,
    encoding: u32,
    offset: usize,
    out: &mut CPosition,
) -> u32
    ensures answer { IsRefusedOr
        (both (encoding_at encoding) (in_handle as_document handle.old.value)) result
        (λ asked. IsPositionAt offset asked.0 asked.1 result out.new) }
    ensures handle { handle.new.value ≡ handle.old.value }
    ensures unchanged { result ≢ OK → out.new ≡ out.old }
{
    let encoding = or_return!(encoding_of(encoding));
    with_object!(handle, alloc, Object::Document(document) => {
        text_position(document.text(), encoding, offset, out)
    })
}

/// Returns the exact position of a byte offset in an open document, as `laspidru_document_position`
/// does. URIs are compared byte for byte. Codes, in this order: NOT_UTF8 of the URI, BAD_ENCODING,
/// EMPTY, OTHER_KIND, NOT_OPEN; INSIDE_CHARACTER, also for an offset between CR and LF or past the
/// end. Costs a hash look-up, and then the same.
#[unsafe(no_mangle)]
pub extern "C" fn laspidru_session_document_position(
    alloc: Global,
    handle: &mut Handle,
    uri: &[u8],
    encoding: u32,
    offset: usize,
    out: &mut CPosition,
) -> u32
    ensures answer { let held = in_handle as_end handle.old.value in
        IsRefusedOr (asked_of_open uri.now held (both (encoding_at encoding))) result
        (λ asked. IsPositionAt offset asked.0 asked.1 result out.new) }
    ensures handle { handle.new.value ≡ handle.old.value }
    ensures unchanged { result ≢ OK → out.new ≡ out.old }
{
    let uri = or_return!(checked_text(uri));
    let encoding = or_return!(encoding_of(encoding));
    with_open!(handle, alloc, uri, |opened| {
        text_position(opened.text(), encoding, offset, out)
    })
}

/// Writes the byte offsets at which a line of a text starts and ends to `out`.
fn text_line(text: &TextBuffer, line: u32, out: &mut Line) -> u32
    ensures answer { IsAnswer (line_asked line (Ok text.now)) result (IsLineExtent line out.new) }
    ensures unchanged { result ≢ OK → out.new ≡ out.old }
{
    let Some(found) = text.line(line) else {
        return OUT_OF_RANGE;
    };
    *out = Line {
        start: found.start,
        end: found.end,
    };
    OK
}

/// Returns the byte offsets at which a line starts, and at which it ends without its line end.
/// Codes, in this order: EMPTY, OTHER_KIND, OUT_OF_RANGE. Costs three searches for blocks.
#[unsafe(no_mangle)]
pub extern "C" fn laspidru_document_line(
    alloc: Global,
    handle: &mut Handle,
    line: u32,
    out: &mut Line,
) -> u32
    ensures answer { IsAnswer (line_asked line (in_handle as_document handle.old.value)) result
        (IsLineExtent line out.new) }
    ensures handle { handle.new.value ≡ handle.old.value }
    ensures unchanged { result ≢ OK → out.new ≡ out.old }
{
    with_object!(handle, alloc, Object::Document(document) => {
        text_line(document.text(), line, out)
    })
}

/// Returns the byte offsets at which a line of an open document starts, and at which it ends
/// without its line end. URIs are compared byte for byte. Codes, in this order: NOT_UTF8 of the
/// URI, EMPTY, OTHER_KIND, NOT_OPEN, OUT_OF_RANGE. Costs a hash look-up and three searches.
#[unsafe(no_mangle)]
pub extern "C" fn laspidru_session_document_line(
    alloc: Global,
    handle: &mut Handle,
    uri: &[u8],
    line: u32,
    out: &mut Line,
) -> u32
    ensures answer { let held = in_handle as_end handle.old.value in
        IsAnswer (asked_of_open uri.now held (line_asked line)) result (IsLineExtent line out.new) }
    ensures handle { handle.new.value ≡ handle.old.value }
    ensures unchanged { result ≢ OK → out.new ≡ out.old }
{
    let uri = or_return!(checked_text(uri));
    with_open!(handle, alloc, uri, |opened| {
        text_line(opened.text(), line, out)
    })
}
