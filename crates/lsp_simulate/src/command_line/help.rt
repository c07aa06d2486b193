//! The texts of help. The table is in a function, so that proofs don't unfold it.

ghost use Rattle.std.specs.Prelude.{◌≡◌, map};
ghost use Rattle.lsp_program.specs.Arguments.{rule_by};
ghost use Rattle.lsp_program.specs.declared.arguments.OptionNames.{OptionNames};
ghost use Rattle.lsp_simulate.specs.CommandLine.{program_rules};

use lsp_program::Value::{ChangeForm, Encoding, Flag, Number};
use lsp_program::{Argument, BODY, CHANGES, DOCS, TEXT};

/// Returns the options. The defaults of the client's limits are those of `Limits::default()`, and the
/// server's have none.
pub fn options() -> &'static [Argument]
    ensures { (names : OptionNames) → map (rule_by names) result.now
        ≡ program_rules names.encodings names.change_forms }
{
    OPTIONS.as_slice()
}

static OPTIONS: [Argument; 14] = [
    ("prefer", Encoding(Some("utf-16")), PREFER),
    ("fixed", Encoding(None), FIXED),
    ("sync", ChangeForm, SYNC),
    ("utf-8", Flag, UTF8),
    ("utf-32", Flag, UTF32),
    ("lenient", Flag, LENIENT),
    ("max-body", Number(BODY, Some("16777216")), MAX_BODY),
    ("max-text", Number(TEXT, Some("16777216")), MAX_TEXT),
    ("max-docs", Number(DOCS, Some("1024")), MAX_DOCS),
    ("max-changes", Number(CHANGES, Some("65536")), MAX_CHANGES),
    ("server-max-body", Number(BODY, None), SAME),
    ("server-max-text", Number(TEXT, None), SAME),
    ("server-max-docs", Number(DOCS, None), SAME),
    ("server-max-changes", Number(CHANGES, None), SAME),
];

// Lines of help have at most 80 columns. `clap` writes 32 before the text of an option, and its default
// after it.

/// The text above the list of options.
pub static ABOUT: &str =
    "Runs both ends of a session of the Language Server Protocol 3.17, by events from
standard input";

/// The text below the list of options.
pub static NOTES: &str = "Each line of standard input is an event, a JSON object:
  {\"event\":\"start\"}, \"shutdown\", \"exit\"   a call of the client
  {\"event\":\"open\",\"textDocument\":{..}}    with the members of didOpen
  {\"event\":\"edit\",\"textDocument\":{..},\"contentChanges\":[..]}
  {\"event\":\"close\",\"textDocument\":{..}}
  {\"event\":\"toServer\"}, \"toClient\"       the first message that waits arrives

For each a line is written, with its number and what happened. At the end come
the number of messages that wait for the server and for the client, and the
documents of both ends.

Exit status: 0 all events were made, 2 the command line is wrong or the ends
don't fit together, 3 reading or writing failed, 4 out of memory, 5 a line is no
event.

Example, messages that arrive late; examples/ may be
/usr/share/doc/laspidru/examples:
  lsp_simulate < examples/late-delivery.events";

const UTF8: &str = "The client offers to count characters in UTF-8";

const UTF32: &str = "The client offers to count characters in UTF-32";

const LENIENT: &str = "Both ends take an edit of any version, and open
an open document again";

const PREFER: &str = "What the server prefers to count in, if the
client offers it; else utf-16
(utf-8, utf-16, utf-32)";

const FIXED: &str = "What the server counts in, whatever the client
offers (utf-8, utf-16, utf-32)";

const SYNC: &str = "How the client is asked to send changes: as
whole texts or as ranges
(full, incremental)";

const MAX_BODY: &str = "Greatest length of a message of the client,
in bytes";

const MAX_TEXT: &str = "Greatest length of a document of the client,
in bytes";

const MAX_DOCS: &str = "Greatest number of open documents of the
client";

const MAX_CHANGES: &str = "Greatest number of changes in one edit of the
client";

const SAME: &str = "The same of the server; without it the client's";
