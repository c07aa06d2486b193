//! What is wrong with a log: what a server answers to each record, why a record was refused, what is
//! suspicious of one that wasn't, and which record made a text so.
//!
//! - `commands`: `check` and `explain`, `trace`, `compare` and `list_openings`; `check_live`,
//!   `explain_live` and `trace_live` of a session as it goes on.
//! - `printer`: what each command writes of a record and at the end.
//! - `facts`: what `trace` and `check --explain` say of a record.
//! - `notes`: what is suspicious of a message that wasn't refused.
//! - `counts`: how often what came.
//! - `growths`: how the versions of a document grow.
//! - `habits`: what is known of a document by its records.
//! - `lacks`: what a message lacks whose params can't be read.
//! - `mentions`: which record opened, closed or refused a document last.
//! - `openings`: which message opened each document first.
//! - `members`: what a line of JSON is put together from.
//! - `laws`: what is written as JSON is JSON.
#![tactic(auto)]

mod commands;
mod counts;
mod facts;
mod growths;
mod habits;
mod lacks;
mod laws;
mod members;
mod mentions;
mod notes;
mod openings;
mod printer;

pub use commands::check::check;
pub use commands::compare::compare;
pub use commands::explain::{Listing, explain};
pub use commands::live::{check_live, explain_live, trace_live};
pub use commands::openings::list_openings;
pub use commands::trace::{Details, trace};
pub use laws::json_laws;
