//! Changes and reads of a text in blocks that run out of memory.

mod refused;

use lsp_buffer::TextBuffer;

/// More bytes than any text of these tests.
const MOST: usize = 1_000_000;

/// Returns whether the chunks are the text, one after another.
fn same_chunks(buffer: &TextBuffer, plain: &str) -> bool {
    let mut offset = 0;
    for _ in 0..plain.len() {
        if offset == plain.len() {
            break;
        }
        if !buffer.is_char_boundary(offset) {
            return false;
        }
        let chunk = buffer.chunk_from(offset);
        let end = offset.saturating_add(chunk.len());
        if chunk.is_empty() || plain.as_bytes().get(offset..end) != Some(chunk.as_bytes()) {
            return false;
        }
        offset = end;
    }
    offset == plain.len() && buffer.len() == offset && buffer.is_text(plain)
}
