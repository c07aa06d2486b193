//! Reads and writes the frames of the base protocol of LSP 3.17: a header that states a length, and
//! a body of so many bytes.
//!
//! ```text
//! let mut framer = Framer::new(alloc, Limits::default());
//! // for each piece of the stream, until `feed` has taken all of it:
//! let taken = framer.feed(&piece[at..])?;
//! at += taken;
//! if let Some(body) = framer.body() {
//!     // `answer` is yours, and returns a body; `frame` puts a header before it
//!     output.write_all(&frame(alloc, &answer(body)?)?)?;
//!     framer.next();
//! }
//! ```
//!
//! - `framer`: `Framer` takes a stream apart into its frames, in whatever pieces the stream comes.
//!   It is built on `stage`, `written`, `header`, `shape`, `notes` and `words`.
//! - `written`: the one form in which frames are written. A header in this form is read at once.
//! - `limits`: how long a body, a text and a list may be, in this crate and all that use it.
//! - `fault`: what can be wrong with a stream of frames.
//! - `stream`: all frames of a whole stream, which don't depend on how it was cut.
//! - `laws`: what follows from the definitions of frames, streams and faults alone.
#![tactic(auto)]

mod fault;
mod framer;
mod laws;
mod limits;
mod stream;
mod written;

pub use fault::FrameFault;
pub use framer::Framer;
pub use laws::frame_laws;
pub use limits::{BadLimits, Limits};
pub use stream::{Frames, read_frames};
pub use written::{EncodeFault, MOST_HEADER, encode, frame, put_before, put_header};
