//! The codes that the functions return, and the kinds of a server's and of a client's answers.

/// The call is done.
pub const OK: u32 = 0;
/// A text is not UTF-8.
pub const NOT_UTF8: u32 = 1;
/// Out of memory.
pub const OUT_OF_MEMORY: u32 = 2;
/// The handle isn't empty.
pub const IN_USE: u32 = 3;
/// The handle is empty.
pub const EMPTY: u32 = 4;
/// A text has more than 1,073,741,824 bytes or `max_text`, or a message to send more than
/// `max_body`.
pub const TOO_LONG: u32 = 5;
/// A position or an offset is inside a character, or an offset is between CR and LF or past the
/// end.
pub const INSIDE_CHARACTER: u32 = 6;
/// A range starts after its end.
pub const REVERSED_RANGE: u32 = 7;
/// The number of an encoding is none of 8, 16 and 32. As the reason of [`BAD_SERVER`]: the server
/// announces an encoding that is unknown or wasn't offered.
pub const BAD_ENCODING: u32 = 8;
/// The lengths of the edits exceed their texts.
pub const BAD_LENGTH: u32 = 9;
/// The handle holds an object of another kind.
pub const OTHER_KIND: u32 = 10;
/// There is no such line, offset, edit, record, command or code.
pub const OUT_OF_RANGE: u32 = 11;
/// `max_body` is out of its range.
pub const BAD_MAX_BODY: u32 = 12;
/// The session has ended.
pub const ENDED: u32 = 13;
/// No document of this URI is open.
pub const NOT_OPEN: u32 = 14;
/// A document of this URI is open already.
pub const ALREADY_OPEN: u32 = 15;
/// As many documents are open as may be.
pub const TOO_MANY_DOCUMENTS: u32 = 16;
/// The version is not greater than the current one.
pub const STALE_VERSION: u32 = 17;
/// There are too many changes, or too long ones.
pub const TOO_MANY_CHANGES: u32 = 18;
/// The params are not those of the notification. Only as a reason.
pub const INVALID_PARAMS: u32 = 19;
/// The log ends inside a record.
pub const CUT: u32 = 20;
/// The header of a frame is faulty: of a log, or of a stream that a framer, a server or a client
/// takes.
pub const BAD_FRAME: u32 = 21;
/// The canonical message of a change has a longer body than `max_body`.
pub const BODY_TOO_LONG: u32 = 22;
/// What is there belongs in no log, or for the command `convert` in none of version 1.
pub const BAD_LOG: u32 = 23;
/// No call returns it: no log needs as many reads and writes.
pub const TOO_MANY_TURNS: u32 = 24;
/// Two text edits overlap.
pub const OVERLAP: u32 = 25;
/// [`BAD_FRAME`] was returned of this stream before.
pub const FAILED: u32 = 26;
/// No whole message is buffered.
pub const NO_MESSAGE: u32 = 27;
/// A client's call isn't allowed in this phase.
pub const WRONG_PHASE: u32 = 28;
/// The server sent no message, a response to no request of the client, or one that can't be read.
/// Only as a reason.
pub const NOT_AN_ANSWER: u32 = 29;
/// The server sent an error response to `initialize` or `shutdown`. Only as a reason.
pub const ERROR_ANSWER: u32 = 30;
/// The server doesn't want to be notified of documents, or of changes. Only as a reason.
pub const NO_SYNC: u32 = 31;
/// `max_text` is out of its range.
pub const BAD_MAX_TEXT: u32 = 32;
/// `max_docs` is out of its range.
pub const BAD_MAX_DOCS: u32 = 33;
/// `max_changes` is out of its range.
pub const BAD_MAX_CHANGES: u32 = 34;
/// A message opens, changes and closes no document.
pub const NO_DOCUMENT: u32 = 35;

/// There is a frame to send.
pub const REPLIED: u32 = 0;
/// The open documents changed.
pub const CHANGED: u32 = 1;
/// A notification before `initialize` or after `shutdown`.
pub const DROPPED: u32 = 2;
/// A response, or a notification that is the caller's to handle.
pub const IGNORED: u32 = 3;
/// A document notification that changed nothing.
pub const REFUSED: u32 = 4;
/// The session ends, and the process is to end with a status.
pub const EXITED: u32 = 5;
/// The response to `shutdown`.
pub const NOTED: u32 = 6;
/// The client's session can't continue. The documents stay.
pub const BAD_SERVER: u32 = 7;

/// Returns what a result has; of an error, its code is what the function returns.
macro_rules! or_return {
    ($result:expr) => {
        match $result {
            Ok(value) => value,
            Err(code) => return code,
        }
    };
}

pub(crate) use or_return;
