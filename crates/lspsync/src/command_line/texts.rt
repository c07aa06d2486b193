//! The texts of help of the commands and their options. Lines have at most 80 columns, with what
//! `clap` writes before an option's text, 25 columns, and after it, its default.

pub const SERVE: &str = "Be a language server that keeps the editor's documents, and no more";

pub const SERVE_EXAMPLE: &str =
    "It answers `initialize` and `shutdown`, takes the documents' messages, answers
every other request with the error `method not found`, and ends at `exit`. Put
it where an editor wants a server's command. The status is 0 where the editor
asked for `shutdown` before `exit`, else 1.

Example, which answers a recorded session; it ends before `exit`, so the status
is 1:
  lspsync serve < examples/whole-text.log";

pub const CHECK: &str = "Print what a server answers to each message of a log, a line each";

pub const CHECK_EXAMPLE: &str =
    "A line has the record's number and a word: `reply` or `error CODE` for a
request, `changed`, `dropped`, `ignored` or `refused CAUSE` for a notification,
`exit 0` or `exit 1`, and `server` for what the server sent. A record counts as
refused where its word is `refused CAUSE`, `exit 1`, or an `error` other than
-32601. Then the status is 1.

With `--explain` the line of an error, a refusal or `exit 1` also has the
document, the reason and the message to see; that of a suspicious message has
notes. The last lines count messages, refusals and notes, each with the first
message, and say what to do next. Of a kind of note that comes often few are on
a line; with `--all` each is. With `--brief` only lines with a reason or notes
are printed.

Input that is faulty (F1 or F2) at its beginning is no such log:
`lspsync-log-from` makes one of what an editor wrote.

Example, a session with two changes that Laspidru refuses:
  lspsync check examples/stale-version.log
  lspsync check --explain examples/stale-version.log

Example, a session that goes on, as the editor types:
  tail -c +1 -f session.log | lspsync check --brief --live";

pub const TRACE: &str = "Print each message of a log as JSON, with the answer and the reason";

pub const TRACE_EXAMPLE: &str =
    "A line has the record's `number` and `offset`, who it is `from`, its `method`
and `id`, the document's `uri`, the `word` of `check`, the `reason` if it was
refused and the `last` record that opened, closed or refused the document,
`notes` on what is suspicious of an accepted one, the document's `version` after
it, and the `canonical` message of an accepted change. The status is that of
`check`.

Example, and the refused messages alone where `jq` is there:
  lspsync trace examples/stale-version.log
  lspsync trace examples/stale-version.log | jq -c 'select(.reason)'";

pub const REPLAY: &str = "Print the documents that are open at the end of a log, a line each";

pub const REPLAY_EXAMPLE: &str =
    "A line of JSON has the document's `languageId`, `text`, `uri` and `version`, in
order of opening. The status is that of `check`. Where a log in a file is
faulty, it is the documents before the fault; on standard input nothing is
printed then.

With `--at N` it is the documents after the Nth record, as `check` counts; what
comes after it isn't read. With `--uri URI` it is the last text of one document
alone, byte for byte, also after its `didClose`: of that with this URI or path,
else of the one whose URI ends so. Where there is no such record or document, a
line on standard error says so, and the status is 1; of a file it also says then
which messages opened its documents.

Example, and a document's text alone, then and after the third record:
  lspsync replay examples/typing.log
  lspsync replay --uri file:///home/ada/hello.py examples/typing.log
  lspsync replay --uri file:///home/ada/hello.py --at 3 examples/typing.log";

pub const COMPARE: &str = "Say which message made a document's text other than a saved one";

pub const COMPARE_EXAMPLE: &str =
    "SAVED is the editor's own text, as it saved it. It is compared with the last
text of the document whose URI ends so, or as `--uri` says, also after its
`didClose`. Where both differ in line ends, the last line end or a byte order
mark alone, a line says so. Else the lines that differ are printed, with the
messages that made what differs: one is wrong, a later one is missing or
wrong, or an earlier mistake led it to the wrong line. Messages about the
document that were refused come last. `\\u{a0}` and the like are characters
that can't be seen. Of a faulty log in a file it is the text before the fault.

The status is 0 where the texts are equal, byte for byte, else 1. Where no
document's URI ends so, a line on standard error says so, and the status is 1;
of a log in a file it also says then which messages opened its documents.

Example, of a text that is the same:
  lspsync replay --uri file:///home/ada/hello.py examples/typing.log > hello.py
  lspsync compare hello.py examples/typing.log";

pub const SAVED: &str = "The file of the saved text";

pub const ENDING: &str = "Compare the document whose URI ends so";

pub const NORMALISE: &str = "Write a log with each accepted change as its canonical message";

pub const NORMALISE_EXAMPLE: &str =
    "The canonical message is the one that means the same. All other messages, and
the refused ones, stay byte for byte. Two changes of one text of one document
(its URI), under one version and in one encoding, get the same bytes exactly if
they keep the same old characters and insert the same texts between them, so
such logs can be compared. The status is that of `check`.

Example, a change of the whole text, which becomes one with a range:
  lspsync normalise examples/whole-text.log

With `--documents` all messages are left out that are neither about the session
nor about a document's text: requests for features and their answers, and most
notifications. `didSave` stays, and so does what was refused. `replay` reports
the same documents and the same status.

With `--whole` each accepted change is one change without a range, which holds
the text after it. A server reads that as it is, however it counts.

Example, what a person typed, as one change:
  lspsync normalise --squash examples/typing.log

Example, what was done between two saves, of a log with a request after each
key:
  lspsync normalise --documents --squash examples/two-saves-with-requests.log";

pub const CONVERT: &str = "Write a log in the format of version 2, with the server's replies";

pub const CONVERT_EXAMPLE: &str =
    "The output begins with the line `lsp-session-log 2`. Then come the messages,
each after a mark: `>` for the editor's, byte for byte, and `<` for the server's
reply. The other commands on logs read both versions, `convert` reads version 1
alone. The status is that of `check`.

Example, and what its output says:
  lspsync convert examples/whole-text.log
  lspsync convert examples/whole-text.log | lspsync check";

pub const LOG: &str = "The log; `-` is standard input";

pub const LOGS: &str = "The logs; of several each has a heading on standard error,
and the status is the greatest. `-` is standard input";

pub const ENCODING: &str = "What a position's character counts in this log; one
of version 2 says it itself
(utf-8, utf-16, utf-32)";

pub const PREFERRED_ENCODING: &str = "What a position's character is to count, if the editor
offers it; else utf-16
(utf-8, utf-16, utf-32)";

pub const SYNC: &str = "How the editor is asked to send changes: as whole texts
or as ranges (full, incremental)";

pub const STDIO: &str = "Changes nothing: it talks by standard input and output";

pub const DOCUMENTS: &str = "Leave out each message that is neither about the
session nor about a document's text";

pub const SQUASH: &str = "Write changes of one document that follow each other as
one message, as between two saves";

pub const WHOLE: &str = "Write each accepted change as one that holds the whole
text after it; not with --squash";

pub const AT: &str = "Replay up to the Nth record alone, from 1";

pub const URI: &str = "Print one document's last text alone, as it is, also
if it was closed: with this URI, or ending so";

pub const EXPLAIN: &str = "Print why a message was refused or what is suspicious
too, and at the end what to do next";

pub const BRIEF: &str = "Print reasons and notes, and only the lines that have
them";

pub const ALL: &str = "Print reasons and notes, and each note on its line,
also where its kind comes often";

pub const LIVE: &str = "Flush what is printed before more is read: for a
session that goes on";

pub const TEXTS: &str = "Print the document's text too, where a message opened
or changed it";

pub const BODIES: &str = "Print each message too, where it is JSON";
