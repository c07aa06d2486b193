//! Which configurations of the two ends fit together.

ghost use Rattle.std.specs.Prelude.{◌≡◌};
ghost use Rattle.lsp_frame.specs.Limits.{AreInRange};
ghost use Rattle.lsp_pair.specs.Codes.{pair_fault_code};
ghost use Rattle.lsp_pair.specs.Pair.{can_choose_utf16, are_within};

use lsp_frame::Limits;
use lsp_server::EncodingChoice;
use lsp_text::Encoding;
use thiserror::Error;

/// Why the configurations of two ends don't fit together.
#[derive(Clone, Copy, Debug, PartialEq, Eq, Error)]
pub enum PairFault {
    /// Q1: the server's encoding is fixed, and is not UTF-16.
    #[error("the server's encoding is fixed, and is not utf-16")]
    NotUtf16,
    /// Q2: one of the server's limits is below the client's, or the server is strict and the client
    /// lenient.
    #[error("one of the server's limits is below the client's, or only the client is lenient")]
    LimitsTooSmall,
}

impl PairFault {
    /// Returns the code that users see: Q1 or Q2.
    pub fn code(self) -> &'static str
        ensures { result.now ≡ pair_fault_code self }
    {
        match self {
            PairFault::NotUtf16 => "Q1",
            PairFault::LimitsTooSmall => "Q2",
        }
    }
}

/// Returns whether a server of this choice can choose UTF-16.
pub(crate) fn can_choose_utf16(choice: EncodingChoice) -> bool
    ensures { result ≡ can_choose_utf16 choice }
{
    match choice {
        EncodingChoice::Fixed(Encoding::Utf16) | EncodingChoice::Negotiated { .. } => true,
        EncodingChoice::Fixed(_) => false,
    }
}

/// Returns whether each of the limits is at most the other's, and they are lenient only if the
/// others are.
pub(crate) fn are_within(small: &Limits, great: &Limits) -> bool
    ensures value { result ≡ are_within small.now great.now }
    ensures in_range { AreInRange small.now × AreInRange great.now }
{
    small.max_body() <= great.max_body()
        && small.max_text() <= great.max_text()
        && small.max_docs() <= great.max_docs()
        && small.max_changes() <= great.max_changes()
        && (!small.is_lenient() || great.is_lenient())
}
