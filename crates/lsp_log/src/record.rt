//! The versions of a log, and its records.

ghost use Rattle.std.specs.Prelude.{◌≡◌, ◌≢◌, ◌∷◌, [], MatchOption};
ghost use Rattle.lsp_log.specs.Log.{line_of, mark_of, is_line_due};

/// The two versions of a log: frames one after another, or a line and then frames with marks.
#[derive(Clone, Copy, Debug, PartialEq, Eq)]
pub enum Version {
    One,
    Two,
}

/// The line that a log of version 2 begins with.
pub const VERSION_LINE: &[u8] = b"lsp-session-log 2\n";

impl Version {
    /// Returns the bytes before the first record in a log of this version.
    pub fn line(self) -> &'static [u8]
        ensures { result.now ≡ line_of self }
    {
        match self {
            Version::One => b"",
            Version::Two => VERSION_LINE,
        }
    }

    /// Returns whether a log of this version begins with a line.
    pub fn has_line(self) -> bool
        ensures { result ≡ is_line_due self [] }
    {
        matches!(self, Version::Two)
    }
}

/// The end that wrote a record.
#[derive(Clone, Copy, Debug, PartialEq, Eq)]
pub enum Sender {
    Client,
    Server,
}

impl Sender {
    /// Returns who wrote a record with this mark of version 2. `None` if no record has it.
    pub fn of_mark(mark: u8) -> Option<Sender>
        ensures { MatchOption result ((mark ≢ 62) × (mark ≢ 60))
            (λ side. mark_of Version.Two side ≡ mark ∷ []) }
    {
        match mark {
            b'>' => Some(Sender::Client),
            b'<' => Some(Sender::Server),
            _ => None,
        }
    }
}

/// What is known of a record beside its frame.
#[derive(Clone, Copy, Debug, PartialEq, Eq)]
pub struct Head {
    /// Who wrote it. In version 1 all records are the client's.
    pub side: Sender,
    /// The version of the log that it is in.
    pub version: Version,
    /// The byte offset of the record in the input: of its mark in version 2, else of its frame. It
    /// saturates at `u64::MAX`.
    pub place: u64,
    /// Whether it is the first record of a version 2 log, to whose output the log's line belongs.
    pub line_due: bool,
}

/// A complete record.
#[derive(Clone, Copy, Debug)]
pub struct Record<'a> {
    pub head: Head,
    /// The bytes of its frame.
    pub raw: &'a [u8],
    /// The body of its frame.
    pub body: &'a [u8],
}
