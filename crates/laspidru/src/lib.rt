//! Laspidru for C: documents, canonical batches, framers, servers, clients and the output of
//! commands on logs in handles, with `include/laspidru.h`.
//!
//! Each function but `laspidru_handle_free` and `laspidru_version` checks the bytes, numbers and
//! handles that C passes, and returns a code. Pointers, lengths and bools are the caller's
//! (`include/CODES.md`). If the code isn't [`OK`], nothing has changed, with the exceptions that
//! are listed there.
//!
//! - `document`: the functions on documents in handles; `batch`: those on canonical batches;
//!   `edits`: those on text edits; `framer`: those on framers; `log`: those on logs, with the one
//!   that compares (`compare`); `texts`: the version, what codes mean, and the document of a
//!   message.
//! - `positions`: the functions on positions and lines of a document, and of an open document of an
//!   end.
//! - `server`, `client`: the functions on one end alone, of a client with its lifecycle
//!   (`lifecycle`), its calls on documents (`editing`), and what both are over (`call`).
//! - `ends`: the functions on either end; `documents`: those on its open documents, with those on
//!   text edits (`edits`) and canonical messages (`message`).
//! - `handle`: a handle that C holds, over the pointer of a box (`raw_box`); `object`: the object
//!   in it; `end`: an end in it, with its last frame and its `stream`; `party`: which end it is.
//! - `codes`: the codes that the functions return, and `laws` their numbers; `structs`: the plain
//!   structs that C passes and gets.
//! - `changes`: edits that C passes, and the report of a change's fault; `bytes`: bytes that C
//!   passes or gets.
//! - `answers`: a server's settings, and what C gets of an end; `reports`: a client's; `taken`:
//!   what is taken of a stream; `endings`: the settings of a command on a log, and its ending.
//! - `command`: the commands over bytes; `log_reader`: a log in memory, as a command reads it;
//!   `log_writer`: a command's output.
#![tactic(auto)]

mod answers;
mod batch;
mod bytes;
mod changes;
mod client;
mod codes;
mod command;
mod document;
mod documents;
mod edits;
mod end;
mod endings;
mod ends;
mod framer;
mod handle;
mod laws;
mod log;
mod log_reader;
mod log_writer;
mod object;
mod party;
mod positions;
mod raw_box;
mod reports;
mod server;
mod stream;
mod structs;
mod taken;
mod texts;

pub use answers::{Answer, Opened, Settings, State};
pub use changes::Passed;
pub use client::Call;
pub use codes::{
    ALREADY_OPEN, BAD_ENCODING, BAD_FRAME, BAD_LENGTH, BAD_LOG, BAD_MAX_BODY, BAD_MAX_CHANGES,
    BAD_MAX_DOCS, BAD_MAX_TEXT, BAD_SERVER, BODY_TOO_LONG, CHANGED, CUT, DROPPED, EMPTY, ENDED,
    ERROR_ANSWER, EXITED, FAILED, IGNORED, IN_USE, INSIDE_CHARACTER, INVALID_PARAMS, NO_DOCUMENT,
    NO_MESSAGE, NO_SYNC, NOT_AN_ANSWER, NOT_OPEN, NOT_UTF8, NOTED, OK, OTHER_KIND, OUT_OF_MEMORY,
    OUT_OF_RANGE, OVERLAP, REFUSED, REPLIED, REVERSED_RANGE, STALE_VERSION, TOO_LONG,
    TOO_MANY_CHANGES, TOO_MANY_DOCUMENTS, TOO_MANY_TURNS, WRONG_PHASE,
};
pub use command::{Command, CommandName, CommandRun};
pub use end::End;
pub use endings::{Ending, LogSettings};
pub use handle::Handle;
pub use laws::number_laws;
pub use object::Object;
pub use party::Party;
pub use reports::ClientSettings;
pub use structs::{CPosition, Edit, EditsFault, FaultAt, Line, Size};
pub use taken::Taken;
pub use texts::VERSION;
