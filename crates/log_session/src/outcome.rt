//! The outcome of a run.

/// What the log lacks of the part that was asked for.
#[derive(Clone, Copy, Debug, PartialEq, Eq)]
pub enum Missing {
    /// The record that is to be the part's last one.
    Record,
    /// The document: it was open at none of the part's records.
    Document,
}

/// The status and the counts of a run that came to the end of its input, or to a record after which
/// nothing is read.
#[derive(Clone, Copy, Debug, PartialEq, Eq)]
pub struct Outcome {
    /// The exit status of the program: 0 or 1.
    pub status: u8,
    /// How many bodies were handled. It saturates at `u64::MAX`.
    pub messages: u64,
    /// How many of the handled bodies were refused. It saturates at `u64::MAX`.
    pub refused: u64,
    /// What is missing, where a part of a log is replayed. Then the status is 1.
    pub missing: Option<Missing>,
}
