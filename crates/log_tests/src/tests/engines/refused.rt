//! Runs that are once out of memory, and are then repeated.

use super::*;

/// The first body of a session, with few parts.
const SHORT: &str = r#"{"id":1,"jsonrpc":"2.0","method":"initialize","params":{}}"#;

const HEADER_OF_SHORT: &str = "Content-Length: 58\r\n\r\n";

const HEADER_OF_REPLY: &str = "Content-Length: 129\r\n\r\n";

/// An empty document.
const EMPTY: &str =
    r#"{"jsonrpc":"2.0","method":"textDocument/didOpen","params":{"textDocument":{"languageId":"plaintext","text":"","uri":"file:///a","version":1}}}"#;

/// Its text is removed, and it had none.
const NOTHING: &str =
    r#"{"jsonrpc":"2.0","method":"textDocument/didChange","params":{"contentChanges":[{"text":""}],"textDocument":{"uri":"file:///a","version":2}}}"#;

const NO_CHANGE: &str =
    r#"{"jsonrpc":"2.0","method":"textDocument/didChange","params":{"contentChanges":[],"textDocument":{"uri":"file:///a","version":2}}}"#;

/// Two changes, each with a note.
const TWO_CHANGES: &str =
    r#"{"jsonrpc":"2.0","method":"textDocument/didChange","params":{"contentChanges":[{"text":"abc"},{"range":{"start":{"line":1,"character":0},"end":{"line":1,"character":0}},"text":"d"}],"textDocument":{"uri":"file:///a","version":2}}}"#;

/// A letter in an empty text.
const PUT_X: &str =
    r#"{"jsonrpc":"2.0","method":"textDocument/didChange","params":{"contentChanges":[{"range":{"end":{"character":0,"line":0},"start":{"character":0,"line":0}},"text":"x"}],"textDocument":{"uri":"file:///a","version":2}}}"#;

/// A letter after it.
const PUT_Y: &str =
    r#"{"jsonrpc":"2.0","method":"textDocument/didChange","params":{"contentChanges":[{"range":{"end":{"character":1,"line":0},"start":{"character":1,"line":0}},"text":"y"}],"textDocument":{"uri":"file:///a","version":3}}}"#;

/// Both letters, as one.
const PUT_BOTH: &str =
    r#"{"jsonrpc":"2.0","method":"textDocument/didChange","params":{"contentChanges":[{"range":{"end":{"character":0,"line":0},"start":{"character":0,"line":0}},"text":"xy"}],"textDocument":{"uri":"file:///a","version":3}}}"#;

/// A run: its output, in parts, and how many bytes that is after each record.
struct Wanted {
    command: Command,
    input: Bytes,
    parts: &'static [&'static str],
    lengths: &'static [usize],
    end: End,
}

impl Wanted {
    /// Returns whether this is the output of some first records.
    fn begins_with(&self, output: &[u8]) -> bool {
        let mut rest = output;
        for part in self.parts {
            rest = rest.strip_prefix(part.as_bytes()).unwrap_or(rest);
        }
        rest.is_empty() && (output.is_empty() || self.lengths.contains(&output.len()))
    }

    fn is_met(&self, run: &Report) -> bool {
        run.answer == self.end.answer()
            && self.begins_with(&run.output)
            && self.lengths.last() == Some(&run.output.len())
    }

    /// Returns whether the run was out of memory after some records. The writer takes memory too,
    /// and its write fails if there is none.
    fn ran_out(&self, run: &Report) -> bool {
        let fault = run.answer.err();
        (fault == Some(EngineFault::NoMemory) || fault == Some(EngineFault::Write))
            && self.begins_with(&run.output)
    }

    /// Returns the input, and how often the heap refused memory until it was built.
    fn input(&self, alloc: Global) -> Result<(Vec<u8>, u32), AllocError> {
        match self.input.get(alloc) {
            Ok(input) => Ok((input, 0)),
            Err(_) => Ok((self.input.get(alloc)?, 1)),
        }
    }

    /// Runs the engine, and again if it was out of memory. Returns how often that was, or `None` if
    /// a run was wrong.
    fn runs_again(&self, alloc: Global) -> Result<Option<u32>, Fail> {
        let (input, refused) = self.input(alloc)?;
        let settings = settings()?;
        if let Ok(run) = run_with(alloc, self.command, &input, settings, SMOOTH) {
            if self.is_met(&run) {
                return Ok(Some(refused));
            }
            if !self.ran_out(&run) {
                return Ok(None);
            }
        }
        let run = run_with(alloc, self.command, &input, settings, SMOOTH)?;
        Ok(if self.is_met(&run) {
            Some(refused.saturating_add(1))
        } else {
            None
        })
    }
}

static RUNS: [Wanted; 17] = [
    Wanted {
        command: Command::Serve,
        input: Bytes::Frames(&[SHORT]),
        parts: &[HEADER_OF_REPLY, REPLY],
        lengths: &[152],
        end: Ended(1, 1, 0),
    },
    Wanted {
        command: Command::Check,
        input: Bytes::Frames(&[SHORT]),
        parts: &["1 reply\n"],
        lengths: &[8],
        end: Ended(0, 1, 0),
    },
    Wanted {
        command: Command::Convert,
        input: Bytes::Frames(&[SHORT]),
        parts: &[
            "lsp-session-log 2\n>",
            HEADER_OF_SHORT,
            SHORT,
            "<",
            HEADER_OF_REPLY,
            REPLY,
        ],
        lengths: &[252],
        end: Ended(0, 1, 0),
    },
    Wanted {
        command: Command::Replay,
        input: Bytes::Frames(&[SHORT, OPEN]),
        parts: &[
            "{\"languageId\":\"plaintext\",\"text\":\"abc\",\"uri\":\"file:///a\",\"version\":1}\n",
        ],
        lengths: &[70],
        end: Ended(0, 2, 0),
    },
    // The document is closed, and its text is kept until then; it is still open after the second
    // record, and its text is written.
    Wanted {
        command: Command::Text(None),
        input: Bytes::Frames(&[SHORT, OPEN, CLOSE]),
        parts: &["abc"],
        lengths: &[3],
        end: Ended(0, 3, 0),
    },
    Wanted {
        command: Command::Text(Some(2)),
        input: Bytes::Frames(&[SHORT, OPEN, CLOSE]),
        parts: &["abc"],
        lengths: &[3],
        end: Ended(0, 2, 0),
    },
    Wanted {
        command: Command::Openings,
        input: Bytes::Frames(&[SHORT, OPEN, CLOSE]),
        parts: &["  message 2 opened \"file:///a\"\n"],
        lengths: &[31],
        end: Ended(0, 3, 0),
    },
    // The document is opened, and opened again.
    Wanted {
        command: Command::Trace,
        input: Bytes::Frames(&[SHORT, OPEN, OPEN]),
        parts: &[
            "{\"number\":1,\"offset\":0,\"from\":\"editor\",\"method\":\"initialize\",\"id\":1,\"word\":\"reply\"}\n",
            "{\"number\":2,\"offset\":80,\"from\":\"editor\",\"method\":\"textDocument/didOpen\",\"uri\":\"file:///a\",\"word\":\"changed\",\"version\":1,\"text\":\"abc\"}\n",
            "{\"number\":3,\"offset\":248,\"from\":\"editor\",\"method\":\"textDocument/didOpen\",\"uri\":\"file:///a\",\"word\":\"refused S1\",\"reason\":\"the document is open already\",\"last\":2,\"version\":1}\n",
        ],
        lengths: &[84, 217, 390],
        end: Ended(1, 3, 1),
    },
    // The same, explained.
    Wanted {
        command: Command::Explain,
        input: Bytes::Frames(&[SHORT, OPEN, OPEN]),
        parts: &[
            "1 reply\n",
            "2 changed\n",
            "3 refused S1 of \"file:///a\": the document is open already; see message 2\n",
            "messages of the editor: 3, changed documents: 1\nrefused by S1: 1, first message 3\nRefused messages change nothing. `lspsync replay --at N`: the texts after message N.\nMany servers don't refuse what is S1 or S5 here. `--lenient` doesn't either.\n",
        ],
        lengths: &[8, 18, 91, 335],
        end: Ended(1, 3, 1),
    },
    // Several changes are noted on a copy of the text.
    Wanted {
        command: Command::Explain,
        input: Bytes::Frames(&[SHORT, OPEN, TWO_CHANGES]),
        parts: &[
            "1 reply\n",
            "2 changed\n",
            "3 changed of \"file:///a\": change 2 starts at line 1, character 0, past the last line (taken as line 0, character 3)\n",
            "messages of the editor: 3, changed documents: 2\nnoted changes nothing: 1, first message 3\nnoted past the last line: 1, first message 3\nNothing was refused; see the notes. `lspsync replay --at N`: the texts after message N.\nMessages with notes that are on no line: 1, from 3 to 3; `--all` has them.\n",
        ],
        lengths: &[8, 18, 134, 432],
        end: Ended(0, 3, 0),
    },
    // A text is saved that isn't the document's.
    Wanted {
        command: Command::Explain,
        input: Bytes::Frames(&[SHORT, OPEN, SAVE_OTHER]),
        parts: &[
            "1 reply\n",
            "2 changed\n",
            "3 ignored of \"file:///a\": the saved text is not the document's: they differ in line 1 first\n",
            "messages of the editor: 3, changed documents: 1\nnoted another text saved: 1, first message 3\nNothing was refused; see the notes. `lspsync replay --at N`: the texts after message N.\n",
        ],
        lengths: &[8, 18, 110, 291],
        end: Ended(0, 3, 0),
    },
    // The whole of an empty text is replaced by nothing, which is no change.
    Wanted {
        command: Command::Normalise,
        input: Bytes::Frames(&[SHORT, EMPTY, NOTHING]),
        parts: &[
            HEADER_OF_SHORT,
            SHORT,
            "Content-Length: 142\r\n\r\n",
            EMPTY,
            "Content-Length: 129\r\n\r\n",
            NO_CHANGE,
        ],
        lengths: &[80, 245, 397],
        end: Ended(0, 3, 0),
    },
    Wanted {
        command: Command::Squash,
        input: Bytes::Frames(&[SHORT, EMPTY, PUT_X, PUT_Y]),
        parts: &[
            HEADER_OF_SHORT,
            SHORT,
            "Content-Length: 142\r\n\r\n",
            EMPTY,
            "Content-Length: 216\r\n\r\n",
            PUT_BOTH,
        ],
        lengths: &[80, 245, 484],
        end: Ended(0, 4, 0),
    },
    // A request between both letters is left out.
    Wanted {
        command: Command::SquashDocuments,
        input: Bytes::Frames(&[SHORT, EMPTY, PUT_X, HOVER, PUT_Y]),
        parts: &[
            HEADER_OF_SHORT,
            SHORT,
            "Content-Length: 142\r\n\r\n",
            EMPTY,
            "Content-Length: 216\r\n\r\n",
            PUT_BOTH,
        ],
        lengths: &[80, 245, 484],
        end: Ended(0, 4, 0),
    },
    // The text is compared with a file, by its lines.
    Wanted {
        command: Command::Compare("aYc\n"),
        input: Bytes::Frames(&[SHORT, OPEN]),
        parts: &[
            "\"file:///a\" after message 2: the text is not the file's:\nline 1 (made by message 2): \"abc\"\n  the file, which differs from character 2 on, has: \"aYc\\n\"\nFor each line, a message named is wrong, a later one is missing or wrong, or an earlier mistake led it to the wrong line. Look at the lowest numbers after the opening first.\n",
        ],
        lengths: &[325],
        end: Ended(1, 2, 0),
    },
    // Two frames, and two records of version 2.
    Wanted {
        command: Command::Normalise,
        input: Bytes::Plain(b"Content-Length: 2\r\n\r\n[]content-length:3\r\n\r\n[1]"),
        parts: &["Content-Length: 2\r\n\r\n[]", "content-length:3\r\n\r\n[1]"],
        lengths: &[23, 46],
        end: Ended(1, 2, 2),
    },
    Wanted {
        command: Command::Normalise,
        input: Bytes::Plain(
            b"lsp-session-log 2\n>Content-Length: 2\r\n\r\n[]<Content-Length: 2\r\n\r\n{}",
        ),
        parts: &[
            "lsp-session-log 2\n>Content-Length: 2\r\n\r\n[]",
            "<Content-Length: 2\r\n\r\n{}",
        ],
        lengths: &[42, 66],
        end: Ended(1, 1, 1),
    },
];

/// Returns how often all the runs were out of memory, or `None` if one was wrong.
fn run_all_again(alloc: Global, runs: &[Wanted]) -> Result<Option<u32>, Fail> {
    let mut refused: u32 = 0;
    for wanted in runs {
        match wanted.runs_again(alloc)? {
            Some(more) => refused = refused.saturating_add(more),
            None => return Ok(None),
        }
    }
    Ok(Some(refused))
}

#[test]
fn refused_runs(rt: HostRuntime) -> Result<(), Fail> {
    let refused = run_all_again(rt.alloc(), &RUNS)?;
    assert!(rt; refused.is_some());
    println!(rt; "refused {}", refused.unwrap_or(0))?;
    Ok(())
}
