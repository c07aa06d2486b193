//! The configuration of a server.

ghost use Rattle.std.specs.Prelude.{◌≡◌};
ghost use Rattle.lsp_server.specs.Choice.{encoding_chosen, announced_kind};

use lsp_frame::Limits;
use lsp_message::{Offers, SyncKind};
use lsp_text::Encoding;

/// The configuration of a server: its limits, how it chooses the encoding of positions, and how it
/// wants to be notified of changes. For editors that repeat versions or open an open document,
/// choose [lenient](Limits::lenient) limits.
#[derive(Clone, Copy, Debug, PartialEq, Eq)]
pub struct Config {
    /// What the server refuses as too much.
    pub limits: Limits,
    /// How it chooses the encoding of positions.
    pub choice: EncodingChoice,
    /// How it wants to be notified of changes.
    pub sync: ChangeForm,
}

impl Default for Config {
    ghost use Rattle.lsp_server.specs.Choice.{default_config};

    ghost is_default = { λ config. config ≡ default_config };

    /// Returns the default limits, UTF-16 whatever the client offers, and changed ranges.
    fn default() -> Config {
        Config {
            limits: Limits::default(),
            choice: EncodingChoice::Negotiated {
                prefer: Encoding::Utf16,
            },
            sync: ChangeForm::Incremental,
        }
    }
}

/// How the encoding of positions is chosen (LSP 3.17, PositionEncodingKind).
#[derive(Clone, Copy, Debug, PartialEq, Eq, Hash)]
pub enum EncodingChoice {
    /// This one, whatever the client offers: for logs, whose encoding is known, and for
    /// sessions in UTF-16. LSP 3.17 allows one that was offered, or UTF-16: fix another only
    /// where you write the editor too.
    Fixed(Encoding),
    /// The preferred one if the client offers it, else UTF-16, which every client accepts.
    Negotiated { prefer: Encoding },
}

impl EncodingChoice {
    /// Returns the encoding for a client that offers these.
    pub fn choose(self, offers: Offers) -> Encoding
        ensures { result ≡ encoding_chosen self offers }
    {
        match self {
            EncodingChoice::Fixed(encoding) => encoding,
            EncodingChoice::Negotiated { prefer } if offers.includes(prefer) => prefer,
            EncodingChoice::Negotiated { .. } => Encoding::Utf16,
        }
    }
}

/// How the server wants to be notified of changes (LSP 3.17, TextDocumentSyncKind). It accepts both
/// forms, whichever it announces.
#[derive(Clone, Copy, Debug, PartialEq, Eq, Hash)]
pub enum ChangeForm {
    /// With the changed ranges.
    Incremental,
    /// With the whole text.
    Full,
}

impl ChangeForm {
    /// Returns the kind that the server announces.
    pub fn kind(self) -> SyncKind
        ensures { result ≡ announced_kind self }
    {
        match self {
            ChangeForm::Incremental => SyncKind::Incremental,
            ChangeForm::Full => SyncKind::Full,
        }
    }
}
