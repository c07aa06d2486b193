//! Laws of the definitions alone, which no call of this crate states.

ghost use Rattle.lsp_message.specs.laws.Examples.{HoldsOnExamples};
ghost use Rattle.lsp_message.specs.laws.Messages.{RefusedRows, MessageRows, IdLaw, NotificationLaw, RefusalLaw, NamedLaw};

/// Does nothing: its contract states what holds of every body (LSP 3.17, Base Protocol, Abstract
/// Message).
///
/// - `refused`, `rows`: which values are no message, and which objects are a notification, a
///   request or a response, whatever else they contain.
/// - `ids`: which values are an id.
/// - `notification`: a notification has no member `id`.
/// - `refusal`: the id of a refused object is its own.
/// - `named`: members that aren't named are ignored.
/// - `examples`: what the definitions read on a table of bodies.
pub fn message_laws()
    ensures refused { RefusedRows }
    ensures rows { MessageRows }
    ensures ids { IdLaw }
    ensures notification { NotificationLaw }
    ensures refusal { RefusalLaw }
    ensures named { NamedLaw }
    ensures examples { HoldsOnExamples }
{}
