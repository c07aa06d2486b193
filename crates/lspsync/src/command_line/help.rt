//! The pages of help. Their tables are in functions, so that proofs don't unfold them.

ghost use Rattle.std.specs.Prelude.{◌≡◌, map};
ghost use Rattle.lsp_program.specs.Arguments.{rule_by};
ghost use Rattle.lsp_program.specs.declared.arguments.OptionNames.{OptionNames};
ghost use Rattle.lspsync.specs.CommandLine.{common_rules, program_app};
ghost use Rattle.lspsync.specs.inside.Options.{shape_by};

use crate::command_line::texts::{
    ALL, AT, BODIES, BRIEF, CHECK, CHECK_EXAMPLE, COMPARE, COMPARE_EXAMPLE, CONVERT,
    CONVERT_EXAMPLE, DOCUMENTS, ENCODING, ENDING, EXPLAIN, LIVE, LOG, LOGS, NORMALISE,
    NORMALISE_EXAMPLE, PREFERRED_ENCODING, REPLAY, REPLAY_EXAMPLE, SAVED, SERVE, SERVE_EXAMPLE,
    SQUASH, STDIO, SYNC, TEXTS, TRACE, TRACE_EXAMPLE, URI, WHOLE,
};
use lsp_program::Value::{ChangeForm, Encoding, File, Flag, Log, Logs, Number, Text};
use lsp_program::{Argument, BODY, CHANGES, DOCS, Range, TEXT};

/// The help of a command.
#[derive(Clone, Copy, Debug)]
pub struct Page {
    pub name: &'static str,
    pub about: &'static str,
    /// A note on the command, and an example to paste.
    pub example: &'static str,
    /// The options and files that the command has beside the limits.
    pub arguments: &'static [Argument],
}

/// Returns the pages of all commands.
pub fn pages() -> &'static [Page]
    ensures { (names : OptionNames) → map (shape_by names) result.now
        ≡ (program_app names.encodings names.change_forms).subs }
{
    PAGES.as_slice()
}

/// Returns the options that all commands have. Their defaults are those of `Limits::default()`.
pub fn limits() -> &'static [Argument]
    ensures { (names : OptionNames) → map (rule_by names) result.now ≡ common_rules }
{
    LIMITS.as_slice()
}

/// A page, with its options and files after the texts.
macro_rules! page {
    ($name:literal, $about:ident, $example:ident => $arguments:expr) => {
        Page {
            name: $name,
            about: $about,
            example: $example,
            arguments: &$arguments,
        }
    };
}

static PAGES: [Page; 7] = [
    page!("serve", SERVE, SERVE_EXAMPLE => [
        ("encoding", Encoding(Some("utf-16")), PREFERRED_ENCODING),
        ("sync", ChangeForm, SYNC),
        ("stdio", Flag, STDIO),
    ]),
    page!("check", CHECK, CHECK_EXAMPLE => [
        ("encoding", Encoding(Some("utf-16")), ENCODING),
        ("explain", Flag, EXPLAIN),
        ("brief", Flag, BRIEF),
        ("all", Flag, ALL),
        ("live", Flag, LIVE),
        ("FILE", Logs, LOGS),
    ]),
    page!("trace", TRACE, TRACE_EXAMPLE => [
        ("encoding", Encoding(Some("utf-16")), ENCODING),
        ("texts", Flag, TEXTS),
        ("bodies", Flag, BODIES),
        ("live", Flag, LIVE),
        ("FILE", Logs, LOGS),
    ]),
    page!("replay", REPLAY, REPLAY_EXAMPLE => [
        ("encoding", Encoding(Some("utf-16")), ENCODING),
        ("at", Number(RECORDS, None), AT),
        ("uri", Text("URI"), URI),
        ("FILE", Log, LOG),
    ]),
    page!("compare", COMPARE, COMPARE_EXAMPLE => [
        ("encoding", Encoding(Some("utf-16")), ENCODING),
        ("SAVED", File, SAVED),
        ("uri", Text("URI"), ENDING),
        ("FILE", Log, LOG),
    ]),
    page!("normalise", NORMALISE, NORMALISE_EXAMPLE => [
        ("encoding", Encoding(Some("utf-16")), ENCODING),
        ("documents", Flag, DOCUMENTS),
        ("squash", Flag, SQUASH),
        ("whole", Flag, WHOLE),
        ("live", Flag, LIVE),
        ("FILE", Log, LOG),
    ]),
    page!("convert", CONVERT, CONVERT_EXAMPLE => [
        ("encoding", Encoding(Some("utf-16")), ENCODING),
        ("FILE", Log, LOG),
    ]),
];

static LIMITS: [Argument; 5] = [
    ("max-body", Number(BODY, Some("16777216")), MAX_BODY),
    ("max-text", Number(TEXT, Some("16777216")), MAX_TEXT),
    ("max-docs", Number(DOCS, Some("1024")), MAX_DOCS),
    ("max-changes", Number(CHANGES, Some("65536")), MAX_CHANGES),
    ("lenient", Flag, LENIENT),
];

/// The numbers that a record may have.
const RECORDS: Range = Range {
    least: 1,
    greatest: u64::MAX,
};

/// The text above the list of commands.
pub static ABOUT: &str = "Applies an editor's change messages to a copy of each open text (Language
Server Protocol 3.17), and reads recorded sessions";

/// The text below the list of commands.
pub static NOTES: &str = "A log is what an editor sent to its language server, byte for byte; one of
version 2 has both directions. Where the editor starts `some-server`, let it
start a script with this line, and it is recorded:
  umask 077; tee \"$HOME/session-$$.log\" | some-server \"$@\"

The commands on logs read a file, or standard input, and write standard output.
`serve` reads standard input.

Exit status: 0 all is well, 1 a record counts as refused (`lspsync check -h`)
or `compare` found other texts, 2 the command line is wrong,
3 reading or writing failed, 4 out of memory, 5 the log is faulty. From 3 on a
line on standard error says what, and for 5 where: `lspsync: truncated at 505`
is byte 505 of the input. Of a file it has the name and the cause too.

`lspsync COMMAND --help` has the options of a command and an example to paste.
The logs to try are in examples/, or in /usr/share/doc/laspidru/examples.

lspsync 0.1.0, for rattle-kit-13b";

const MAX_BODY: &str = "Greatest length of a message, in bytes,
from 4096 to 1073741824";

const MAX_TEXT: &str = "Greatest length of a document, in bytes,
up to 1073741824";

const MAX_DOCS: &str = "Greatest number of open documents,
from 1 to 65536";

const MAX_CHANGES: &str = "Greatest number of changes in one message,
from 1 to 1048576";

const LENIENT: &str = "Take each change whatever its version, and let a
`didOpen` of an open document replace it";
