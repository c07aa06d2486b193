//! The engines of the log commands and of a server: each runs from a reader to a writer, over a
//! server's end.
//!
//! - `log_session` reads a log: `serve`, `serve_on` and `replay`.
//! - `log_report` says what is wrong with it: `check`, `explain`, `trace`, `compare` and
//!   `list_openings`, and three of them of a session as it goes on.
//! - `log_rewrite` makes another log of it: `normalise`, `normalise_documents` and `convert`; and
//!   `replay_part`.
//! - `laws`: what holds of the logs that are written.
#![tactic(auto)]

mod laws;

pub use laws::log_laws;
pub use line_diff::Comparison;
pub use log_report::{
    Details, Listing, check, check_live, compare, explain, explain_live, json_laws, list_openings,
    trace, trace_live,
};
pub use log_rewrite::{
    Part, Rewriting, convert, documents_laws, normalise, normalise_documents, replay_part, rewrite,
};
pub use log_session::{Missing, Outcome, Settings, replay, serve, serve_on};
pub use lsp_stream::{CallEnd, Duplex, EngineFault, Sink, Source, StopReader, StopWriter, Told};
