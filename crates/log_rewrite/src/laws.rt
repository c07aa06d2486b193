//! A law over the definitions alone, which no single call has in its contract.

ghost use Rattle.log_rewrite.specs.laws.Documents.{DocumentsLaw, DocumentsStopAlike};

/// States what holds where records are left out that are neither about the session nor about a
/// document's text. It does nothing; its contract says:
///
/// - The log ends as it does where no record is left out: at the same record, for the same cause.
/// - What is written is a log of which `replay` reports the same documents, with the same status
///   and as many refusals.
pub fn documents_laws()
    ensures stops { DocumentsStopAlike }
    ensures documents { DocumentsLaw }
{}
