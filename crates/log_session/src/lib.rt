//! A log is read: a server's session over records, from a reader to a writer.
//!
//! - `engine`: the one loop from a reader to a writer, which hands each record to a pipeline.
//! - `pipeline`: reads a record's body once, leaves out what doesn't stay, and hands the rest to a
//!   command's printer.
//! - `printer`: what a command writes of a record and at the end; `output` is what it returns.
//! - `session`: a server over the records of a log, and what is counted.
//! - `settings`: how a log is read.
//! - `outcome`: the status and the counts at the end of a run, and what a part of a log lacks.
//! - `commands`: `serve` and `serve_on`, which read no log but a client's messages, and `replay`.
#![tactic(auto)]

mod commands;
mod engine;
mod outcome;
mod output;
mod pipeline;
mod printer;
mod session;
mod settings;

pub use commands::replay::replay;
pub use commands::serve::{serve, serve_on};
pub use engine::{InputRules, run, run_on, run_over};
pub use outcome::{Missing, Outcome};
pub use output::{Finished, Given, Output, Printed};
pub use pipeline::Pipeline;
pub use printer::Printer;
pub use printer::replay::push_document_line;
pub use session::canonical::{Appended, Canonical, Whole, unless_refused};
pub use session::counting::{has_changed, is_refused, one_more, refuses};
pub use session::opening::{copied_text, opened_if, opened_uri};
pub use session::selecting::Selection;
pub use session::witness::{Nothing, Witness};
pub use session::{RecordBody, Session, Taken, Verdict, in_log};
pub use settings::Settings;
