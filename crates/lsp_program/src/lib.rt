//! What the programs `lspsync` and `lsp_simulate` have in common.
//!
//! - `arguments`: options and files of a command line, as tables.
//! - `found`: the limits, and numbers, that `clap` found.
//! - `names`: the version, and the names that options take.
//! - `output`: the text of help, lines on standard error, the output's last flush, and how many calls
//!   may be made.
//! - `status`: the exit statuses, and the exit code of one.
#![tactic(auto)]

mod arguments;
mod found;
mod names;
mod output;
mod status;

pub use arguments::{
    Argument, BODY, CHANGES, DOCS, OptionNames, Range, TEXT, Value, with_arguments,
};
pub use found::{limits_of, number_of};
pub use names::{VERSION, change_forms, encodings};
pub use output::{MAX_TURNS, digits, flush, print, print_text};
pub use status::{BAD_INPUT, OUT_OF_MEMORY, STREAM_FAULT, USAGE, exit_code};
