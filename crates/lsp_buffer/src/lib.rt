//! `TextBuffer`, a text in blocks, in which a change costs what its block costs. Copies share
//! blocks.
//!
//! ```text
//! let mut buffer = TextBuffer::from_str(alloc, "one\ntwo\n")?;
//! let position = Position { line: 1, character: 0 };
//! let start = buffer.resolve(Encoding::Utf16, position)?;
//! // the text is "one\n2 two\n" then; out of memory changes nothing
//! buffer.replace_range(start, start, "2 ")?;
//! let line = buffer.line(1);
//! ```
//!
//! [`TextBuffer::line`] returns the byte offsets of a line's content, here `Some(4..9)`.
//!
//! - `text_buffer`: `TextBuffer`, the blocks with what their groups count. `reading` has its lines,
//!   chunks and copies. `change` replaces bytes: inside a block, or across blocks, which are cut
//!   again.
//! - `block`: `Block`, a few kilobytes of the text with their lines, which copies of the text share.
//!   A change copies a block first that is shared. `SharedText` is what is shared: a string and its
//!   lines. It changes without a copy of the rest.
//! - `cut`: a text is cut into blocks, after line feeds or inside a long line.
//! - `counts`: `Counts`, what a text counts. What comes before a block is the sum of earlier counts.
//! - `groups`: what 32 blocks count together, so that a search passes them at one step.
//! - `find`: the search for the block that a byte offset or a position is in.
//! - `seams`: positions as they are counted from a block on.
#![tactic(auto)]

mod block;
mod counts;
mod cut;
mod find;
mod groups;
mod seams;
mod text_buffer;

pub use text_buffer::TextBuffer;
