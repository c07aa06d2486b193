//! Laws of the table of documents, which no call states.

ghost use Rattle.lsp_store.specs.laws.Tables.{GreaterLimitsLaw, CanonicalBatchLaw, WholeTextLaw, WithinLaw, UniqueLaw, TableLaw, LastLaw};

/// Does nothing: its contract states what holds of the table of documents.
///
/// - Greater limits refuse no command that smaller ones accept; lenient ones are greater than
///   strict.
/// - The canonical batch of an accepted batch is accepted too and has the same result. So is the
///   batch of one change that is the whole text. Both hold within greater limits.
/// - After any list of accepted commands there are at most `max_docs` documents, each text within
///   `max_text`, and no URI twice. One more accepted command keeps that.
/// - The table of a list of commands is the result of one command after another.
pub fn store_laws()
    ensures greater { GreaterLimitsLaw }
    ensures canonical { CanonicalBatchLaw }
    ensures whole { WholeTextLaw }
    ensures within { WithinLaw }
    ensures unique { UniqueLaw }
    ensures table { TableLaw }
    ensures last { LastLaw }
{}
