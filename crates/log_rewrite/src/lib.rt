//! Another log is made of a log: each accepted change as its canonical message, several as one, some
//! records alone, or the server's replies in it. A part of a log can be replayed, too.
//!
//! - `commands`: `normalise` and `normalise_documents`, `rewrite` with all options, `convert`, and
//!   `replay_part`.
//! - `printer`: what each command writes of a record and at the end.
//! - `joining`: the open series of accepted changes.
//! - `laws`: what holds where records are left out.
#![tactic(auto)]

mod commands;
mod joining;
mod laws;
mod printer;

pub use commands::convert::convert;
pub use commands::normalise::{Rewriting, normalise, normalise_documents, rewrite};
pub use commands::part::{Part, replay_part};
pub use laws::documents_laws;
