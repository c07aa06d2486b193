//! Laws that follow from the definitions alone, for proofs over batches.
//!
//! `CanonicalLaw` ranges over every function by which a character has at least one unit,
//! `ThenLaw` over all functions.

ghost use Rattle.lsp_edit.specs.laws.Examples.{HoldsOnExamples};
ghost use Rattle.lsp_edit.specs.laws.Batches.{CanonicalLaw, ThenLaw, AssociativeLaw};

/// Promises what is true of every batch of changes that has a meaning (LSP 3.17,
/// DidChangeTextDocumentParams). The call itself does nothing.
///
/// - A meaning keeps both characters of an old CRLF or neither.
/// - Its canonical batch has the same meaning, item by item, and no more changes.
/// - The canonical batches of two meanings are equal exactly if both keep the same old characters
///   and insert the same texts between them.
/// - Two batches, one after the other, mean what their meanings composed are. Composition is
///   associative.
/// - `examples`: what the definitions say of a table of examples.
///
/// The laws are for any units, if each character has at least one.
pub fn batch_laws()
    ensures canonical { CanonicalLaw }
    ensures then { ThenLaw }
    ensures associative { AssociativeLaw }
    ensures examples { HoldsOnExamples }
{}
