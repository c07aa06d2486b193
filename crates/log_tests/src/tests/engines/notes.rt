//! What is suspicious of accepted messages, as `check` with reasons writes it.

use super::*;

/// Opens a document of two lines, the second with an emoji, and of an empty third one.
const TWO_LINES: &str =
    r#"{"jsonrpc":"2.0","method":"textDocument/didOpen","params":{"textDocument":{"languageId":"c","text":"one\ntwo😀\n","uri":"file:///a","version":1}}}"#;

/// The changes of a message on this text, and its notes.
static ROWS: [(&str, &[&str]); 10] = [
    (
        r#"{"range":{"start":{"line":0,"character":3},"end":{"line":1,"character":0}},"text":" "}"#,
        &[],
    ),
    (
        r#"{"range":{"start":{"line":2,"character":0},"end":{"line":2,"character":0}},"text":"x"}"#,
        &[],
    ),
    (
        r#"{"range":{"start":{"line":0,"character":9},"end":{"line":0,"character":9}},"text":"x"}"#,
        &[
            "change 1 starts at line 0, character 9, past the line's end (taken as line 0, character 3)",
        ],
    ),
    (
        r#"{"range":{"start":{"line":1,"character":0},"end":{"line":1,"character":6}},"text":"x"}"#,
        &[
            "change 1 ends at line 1, character 6, past the line's end (taken as line 1, character 5)",
        ],
    ),
    (
        r#"{"range":{"start":{"line":0,"character":0},"end":{"line":3,"character":0}},"text":"x"}"#,
        &[
            "change 1 ends at line 3, character 0, past the last line (taken as line 2, character 0)",
        ],
    ),
    // The third line is there for the first change alone.
    (
        r#"{"range":{"start":{"line":1,"character":0},"end":{"line":2,"character":0}},"text":""},{"range":{"start":{"line":2,"character":0},"end":{"line":2,"character":0}},"text":"x"}"#,
        &[
            "change 2 starts at line 2, character 0, past the last line (taken as line 1, character 0)",
        ],
    ),
    (
        r#"{"range":{"start":{"line":0,"character":7},"end":{"line":0,"character":9}},"text":""}"#,
        &[
            "change 1 starts at line 0, character 7, past the line's end (taken as line 0, character 3)",
            "change 1 ends at line 0, character 9, past the line's end (taken as line 0, character 3)",
            "change 1 changes nothing",
        ],
    ),
    (
        r#"{"range":{"start":{"line":1,"character":3},"end":{"line":1,"character":5}},"rangeLength":1,"text":""}"#,
        &["change 1 has the rangeLength 1, and replaces 2 UTF-16 units"],
    ),
    (r#"{"text":"one\ntwo😀\n"}"#, &["change 1 changes nothing"]),
    ("", &["it has no changes"]),
];

/// The same in other encodings: the emoji has four units of UTF-8, two of UTF-16 and one of UTF-32.
/// A `rangeLength` may be in the session's units or in UTF-16.
static ENCODED: [(Encoding, &str, &[&str]); 3] = [
    (
        Encoding::Utf8,
        r#"{"range":{"start":{"line":1,"character":3},"end":{"line":1,"character":7}},"rangeLength":2,"text":""}"#,
        &[],
    ),
    (
        Encoding::Utf8,
        r#"{"range":{"start":{"line":1,"character":3},"end":{"line":1,"character":9}},"rangeLength":3,"text":""}"#,
        &[
            "change 1 ends at line 1, character 9, past the line's end (taken as line 1, character 7)",
            "change 1 has the rangeLength 3, and replaces 2 UTF-16 units",
        ],
    ),
    (
        Encoding::Utf32,
        r#"{"range":{"start":{"line":1,"character":3},"end":{"line":1,"character":4}},"rangeLength":4,"text":""}"#,
        &["change 1 has the rangeLength 4, and replaces 2 UTF-16 units"],
    ),
];

const SEE: &str =
    "Nothing was refused; see the notes. `lspsync replay --at N`: the texts after message N.\n";

/// How many messages there are, and how many changed documents, where a document is opened and
/// changed.
const THREE: &str = "messages of the editor: 3, changed documents: 2\n";

const COMPARE: &str =
    "Nothing was refused. `lspsync compare SAVED LOG` says where a saved file differs, and by which messages.\n";

/// Some notes, with `between` between two of them.
fn joined(alloc: Global, notes: &[&str], between: &str) -> Result<String, AllocError> {
    let mut words = String::new(alloc);
    for (index, note) in notes.iter().enumerate() {
        words.push_str(if index == 0 { "" } else { between })?;
        words.push_str(note)?;
    }
    Ok(words)
}

/// Returns what `check --all` writes up to a third message with these notes.
fn explained(alloc: Global, notes: &[&str]) -> Result<String, AllocError> {
    if notes.is_empty() {
        return format!(in alloc; "1 reply\n2 changed\n3 changed\n{THREE}{COMPARE}");
    }
    let words = joined(alloc, notes, "; ")?;
    format!(in alloc; "1 reply\n2 changed\n3 changed of \"file:///a\": {words}\n{THREE}noted ")
}

/// Returns whether a change has these notes, in a session of this encoding.
fn is_noted(
    alloc: Global,
    encoding: Encoding,
    changes: &str,
    notes: &[&str],
) -> Result<bool, Fail> {
    let settings = Settings {
        encoding,
        ..settings()?
    };
    let changed = change(alloc, 2, changes)?;
    let input = log(alloc, &[INITIALIZE, TWO_LINES, changed.as_str()])?;
    let run = run_with(alloc, Command::All, &input, settings, SMOOTH)?;
    Ok(run.output.starts_with(explained(alloc, notes)?.as_bytes()))
}

#[test]
fn what_is_suspicious_is_noted(rt: HostRuntime) -> Result<(), Fail> {
    for (changes, notes) in &ROWS {
        assert!(rt;
            is_noted(rt.alloc(), Encoding::Utf16, changes, notes)?,
            "at {changes}"
        );
    }
    for (encoding, changes, notes) in &ENCODED {
        assert!(rt;
            is_noted(rt.alloc(), *encoding, changes, notes)?,
            "at {changes} in {encoding:?}"
        );
    }
    Ok(())
}

/// Whole texts, where the server's result of `initialize` is in the log and asks for ranges.
const RANGES_ASKED: &str =
    "1 reply\n2 server\n3 changed\n4 changed of \"file:///a\": change 1 is the whole text, and the server asked for ranges\nmessages of the editor: 3, changed documents: 2\nnoted a whole text: 1, first message 4\n";

/// Returns whether a whole text is noted in a log of version 2.
fn is_asked(alloc: Global) -> Result<bool, Fail> {
    let input = marked(alloc, CONVERTED)?;
    let run = run_with(alloc, Command::Explain, &input, settings()?, SMOOTH)?;
    let output = format!(in alloc; "{RANGES_ASKED}{SEE}")?;
    Ok(run.answer == Ended(0, 3, 0).answer() && run.output.as_slice() == output.as_bytes())
}

#[test]
fn whole_texts_are_noted_where_ranges_were_asked_for(rt: HostRuntime) -> Result<(), Fail> {
    assert!(rt; is_asked(rt.alloc())?);
    Ok(())
}

const LENIENT: &str =
    "1 reply\n2 changed\n3 changed of \"file:///a\": the document was open already\n4 changed\n5 changed of \"file:///a\": version 2 was sent, and the current one was 2\nmessages of the editor: 5, changed documents: 4\nnoted open already: 1, first message 3\nnoted an old version: 1, first message 5\nnoted changes nothing: 1, first message 5\n";

const LENIENT_HIDDEN: &str =
    "Messages with notes that are on no line: 1, from 5 to 5; `--all` has them.\n";

/// Returns whether what lenient limits accept is noted.
fn is_accepted(alloc: Global) -> Result<bool, Fail> {
    let settings = settings()?;
    let settings = Settings {
        limits: settings.limits.lenient(),
        ..settings
    };
    let input = log(alloc, &[INITIALIZE, OPEN, OPEN, WHOLE, WHOLE])?;
    let run = run_with(alloc, Command::Explain, &input, settings, SMOOTH)?;
    let output = format!(in alloc; "{LENIENT}{SEE}{LENIENT_HIDDEN}")?;
    Ok(run.answer == Ended(0, 5, 0).answer() && run.output.as_slice() == output.as_bytes())
}

#[test]
fn what_lenient_limits_accept_is_noted(rt: HostRuntime) -> Result<(), Fail> {
    assert!(rt; is_accepted(rt.alloc())?);
    Ok(())
}

/// A document is opened with a CR that ends a line and an LF that ends another, another with a CR
/// alone; then three changes change nothing.
static SAME: [&str; 6] = [
    INITIALIZE,
    r#"{"jsonrpc":"2.0","method":"textDocument/didOpen","params":{"textDocument":{"languageId":"c","text":"a\rb\n","uri":"file:///a","version":1}}}"#,
    r#"{"jsonrpc":"2.0","method":"textDocument/didOpen","params":{"textDocument":{"languageId":"c","text":"a\rb\r","uri":"file:///b","version":1}}}"#,
    r#"{"jsonrpc":"2.0","method":"textDocument/didChange","params":{"contentChanges":[{"text":"a\rb\n"}],"textDocument":{"uri":"file:///a","version":2}}}"#,
    r#"{"jsonrpc":"2.0","method":"textDocument/didChange","params":{"contentChanges":[{"text":"a\rb\n"}],"textDocument":{"uri":"file:///a","version":3}}}"#,
    r#"{"jsonrpc":"2.0","method":"textDocument/didChange","params":{"contentChanges":[{"text":"a\rb\n"}],"textDocument":{"uri":"file:///a","version":4}}}"#,
];

/// What comes at the end of all three.
const SAME_COUNTED: &str =
    "messages of the editor: 6, changed documents: 5\nnoted a CR alone: 1, first message 2\nnoted changes nothing: 3, first message 4\nNothing was refused; see the notes. `lspsync replay --at N`: the texts after message N.\n";

const HIDDEN: &str = "Messages with notes that are on no line: 3, from 4 to 6; `--all` has them.\n";

/// What `check` with reasons writes of this session: without the notes that changes change nothing,
/// with each note, and only lines with a reason or notes.
static LISTED: [(Command, &str, &str); 3] = [
    (
        Command::Explain,
        "1 reply\n2 changed of \"file:///a\": a CR alone ends a line, and an LF another\n3 changed\n4 changed\n5 changed\n6 changed\n",
        HIDDEN,
    ),
    (
        Command::All,
        "1 reply\n2 changed of \"file:///a\": a CR alone ends a line, and an LF another\n3 changed\n4 changed of \"file:///a\": change 1 changes nothing\n5 changed of \"file:///a\": change 1 changes nothing\n6 changed of \"file:///a\": change 1 changes nothing\n",
        "",
    ),
    (
        Command::Brief,
        "2 changed of \"file:///a\": a CR alone ends a line, and an LF another\n",
        HIDDEN,
    ),
];

/// Returns whether a command writes these lines of that session, and this last one.
fn is_listed(alloc: Global, command: Command, lines: &str, last: &str) -> Result<bool, Fail> {
    let input = log(alloc, &SAME)?;
    let run = run_with(alloc, command, &input, settings()?, SMOOTH)?;
    let output = format!(in alloc; "{lines}{SAME_COUNTED}{last}")?;
    Ok(run.answer == Ended(0, 6, 0).answer() && run.output.as_slice() == output.as_bytes())
}

#[test]
fn that_changes_change_nothing_is_on_a_line_with_all_alone(rt: HostRuntime) -> Result<(), Fail> {
    for (command, lines, last) in &LISTED {
        assert!(rt;
            is_listed(rt.alloc(), *command, lines, last)?,
            "at {command:?}"
        );
    }
    Ok(())
}

/// Members of a `didSave` after [`TWO_LINES`], beside its document, and the line that is noted: 0
/// where a part of the document was saved. A member that comes again counts.
static SAVES: [(&str, Option<u8>); 12] = [
    (r#""text":"one\ntwo😀\n""#, None),
    (r#""version":2"#, None),
    (r#""text":["one"]"#, None),
    (r#""text":"one","textDocument":{"uri":"file:///b"}"#, None),
    (r#""text":"one","textDocument":"file:///a""#, None),
    (r#""text":"""#, Some(1)),
    // A carriage return before a line feed ends no line.
    (r#""text":"one\r\ntwo😀\n""#, Some(1)),
    (r#""text":"one""#, Some(0)),
    (r#""text":"two😀\n""#, Some(0)),
    (r#""text":"one\ntwo😁\n""#, Some(2)),
    (r#""text":"one\ntwo😀""#, Some(0)),
    (r#""text":"one\ntwo😀\n\n""#, Some(3)),
];

const OTHER_SAVED: &str =
    "ignored of \"file:///a\": the saved text is not the document's: they differ in line";

const PART_SAVED: &str = "ignored of \"file:///a\": a part of the document was saved";

/// Returns what `check --brief` writes of a third message with a note of this line, if it has one.
fn brief(alloc: Global, line: Option<u8>) -> Result<String, AllocError> {
    let counted = "messages of the editor: 3, changed documents: 1\n";
    match line {
        None => format!(in alloc; "{counted}{COMPARE}"),
        Some(0) => {
            let noted = "noted a part saved: 1, first message 3\n";
            format!(in alloc; "3 {PART_SAVED}\n{counted}{noted}{SEE}")
        }
        Some(line) => {
            let noted = "noted another text saved: 1, first message 3\n";
            format!(in alloc; "3 {OTHER_SAVED} {line} first\n{counted}{noted}{SEE}")
        }
    }
}

/// Returns whether a `didSave` with these members has a note of this line.
fn is_saved(alloc: Global, members: &str, line: Option<u8>) -> Result<bool, Fail> {
    let front =
        r#"{"jsonrpc":"2.0","method":"textDocument/didSave","params":{"textDocument":{"uri":"file:///a"},"#;
    let save = format!(in alloc; "{front}{members}}}}}")?;
    let input = log(alloc, &[INITIALIZE, TWO_LINES, save.as_str()])?;
    let run = run_with(alloc, Command::Brief, &input, settings()?, SMOOTH)?;
    Ok(run.output.as_slice() == brief(alloc, line)?.as_bytes())
}

/// Returns whether another text that is saved before `initialize` has no note, and one that is saved
/// again has it on its line each time.
fn is_saved_often(alloc: Global) -> Result<bool, Fail> {
    let input = log(
        alloc,
        &[SAVE_OTHER, INITIALIZE, OPEN, SAVE_OTHER, SAVE_OTHER],
    )?;
    let run = run_with(alloc, Command::Explain, &input, settings()?, SMOOTH)?;
    let lines =
        "messages of the editor: 5, changed documents: 1\ndropped: 1, first message 1\nnoted another text saved: 2, first message 4\n";
    let output = format!(in alloc;
        "1 dropped\n2 reply\n3 changed\n4 {OTHER_SAVED} 1 first\n5 {OTHER_SAVED} 1 first\n{lines}{SEE}"
    )?;
    Ok(run.output.as_slice() == output.as_bytes())
}

#[test]
fn a_saved_text_that_is_not_the_documents_is_noted(rt: HostRuntime) -> Result<(), Fail> {
    for (members, line) in &SAVES {
        assert!(rt; is_saved(rt.alloc(), members, *line)?, "at {members}");
    }
    assert!(rt; is_saved_often(rt.alloc())?);
    Ok(())
}

/// A document is opened and changed, and a version comes again without changes; then another name is
/// changed and closed, and changed once more.
static LOST: [&str; 7] = [
    INITIALIZE,
    OPEN,
    WHOLE,
    r#"{"jsonrpc":"2.0","method":"textDocument/didChange","params":{"contentChanges":[],"textDocument":{"uri":"file:///a","version":2}}}"#,
    r#"{"jsonrpc":"2.0","method":"textDocument/didChange","params":{"contentChanges":[{"text":"b"}],"textDocument":{"uri":"file:///b","version":3}}}"#,
    r#"{"jsonrpc":"2.0","method":"textDocument/didClose","params":{"textDocument":{"uri":"file:///b"}}}"#,
    r#"{"jsonrpc":"2.0","method":"textDocument/didChange","params":{"contentChanges":[{"text":"b"}],"textDocument":{"uri":"file:///b","version":4}}}"#,
];

const LOST_BRIEF: &str =
    "4 refused S5 of \"file:///a\": version 2 was sent, and the current one is 2, and it has no changes; see message 3\n5 refused S4 of \"file:///b\": the document is not open; its editor may have renamed a document that was open\n6 refused S4 of \"file:///b\": the document is not open; its editor may have renamed a document that was open; see message 5\n7 refused S4 of \"file:///b\": the document is not open; its editor may have renamed a document that was open; see message 5\nmessages of the editor: 7, changed documents: 2\nrefused by S5: 1, first message 4\nrefused by S4: 3, first message 5\nRefused messages change nothing. `lspsync replay --at N`: the texts after message N.\n";

/// Returns whether hooks that are lost, and a document that was renamed, are named.
fn is_named(alloc: Global) -> Result<bool, Fail> {
    let input = log(alloc, &LOST)?;
    let run = run_with(alloc, Command::Brief, &input, settings()?, SMOOTH)?;
    Ok(run.answer == Ended(1, 7, 4).answer() && run.output.as_slice() == LOST_BRIEF.as_bytes())
}

/// Returns whether an empty log is called that.
fn has_no_messages(alloc: Global) -> Result<bool, Fail> {
    let run = run_with(alloc, Command::Explain, b"", settings()?, SMOOTH)?;
    Ok(run.output.as_slice() == "The log has no messages.\n".as_bytes())
}

/// Returns whether a log that lacks its beginning is called that, also where its documents are asked
/// for.
fn lacks_beginning(alloc: Global) -> Result<bool, Fail> {
    let input = log(alloc, &[OPEN, WHOLE])?;
    let check = run_with(alloc, Command::Brief, &input, settings()?, SMOOTH)?;
    let list = run_with(alloc, Command::Openings, &input, settings()?, SMOOTH)?;
    Ok(check.output.as_slice() == LATE.as_bytes() && list.output.as_slice() == LATE_LIST.as_bytes())
}

const LATE: &str =
    "messages of the editor: 2, changed documents: 0\ndropped: 2, first message 1\nThe log lacks its beginning: no `initialize` started the server, so no message changes a text (LOGS.md).\n";

const LATE_LIST: &str =
    "  the log lacks its beginning: no `initialize` started the server (LOGS.md)\n";

#[test]
fn lost_hooks_new_names_and_logs_without_a_beginning_are_named(
    rt: HostRuntime,
) -> Result<(), Fail> {
    assert!(rt; is_named(rt.alloc())?);
    assert!(rt; has_no_messages(rt.alloc())?);
    assert!(rt; lacks_beginning(rt.alloc())?);
    Ok(())
}

/// Five changes that end past the line's end: a line has three such notes.
const PAST: &str =
    r#"{"range":{"start":{"line":0,"character":3},"end":{"line":0,"character":9}},"text":""}"#;

/// Returns whether a line has three notes of a kind, and says how many more there are.
fn has_few_notes(alloc: Global) -> Result<bool, Fail> {
    let changes = format!(in alloc; "{PAST},{PAST},{PAST},{PAST},{PAST}")?;
    let changed = change(alloc, 2, changes.as_str())?;
    let input = log(alloc, &[INITIALIZE, TWO_LINES, changed.as_str()])?;
    let run = run_with(alloc, Command::Explain, &input, settings()?, SMOOTH)?;
    let past = "ends at line 0, character 9, past the line's end (taken as line 0, character 3)";
    let line = format!(in alloc;
        "3 changed of \"file:///a\": change 1 {past}; change 2 {past}; change 3 {past}; and 2 more\n"
    )?;
    let output = format!(in alloc;
        "1 reply\n2 changed\n{line}{THREE}noted past the line's end: 5"
    )?;
    Ok(run.output.starts_with(output.as_bytes()))
}

#[test]
fn a_line_has_few_notes_of_a_kind(rt: HostRuntime) -> Result<(), Fail> {
    assert!(rt; has_few_notes(rt.alloc())?);
    Ok(())
}

/// The whole text is a character of two units; then a change is inside of it.
const EMOJI: &str = r#"{"text":"😀"}"#;

const INSIDE: &str =
    r#"{"range":{"start":{"line":0,"character":1},"end":{"line":0,"character":1}},"text":""}"#;

const TWICE: &str = r#"{"text":""},{"text":"😀"}"#;

/// The versions of changes after an opening with version 1, and the first lines of what
/// `check --brief` writes. Where 5 comes after 2, versions 3 and 4 were left out. A version that was
/// refused was not.
static VERSIONS: [(&[(i32, &str)], &str); 7] = [
    (
        &[(2, EMOJI), (5, EMOJI), (3, EMOJI), (4, EMOJI)],
        "5 refused S5 of \"file:///a\": version 3 was sent, and the current one is 5; the one that was sent was left out before: messages were swapped; see message 4\n6 refused S5 of \"file:///a\": version 4 was sent, and the current one is 5; the one that was sent was left out before: messages were swapped; see message 4\nmessages of the editor: 6, changed documents: 3\nrefused by S5: 2, first message 5\nnoted changes nothing: 1, first message 4\nRefused messages change nothing. `lspsync replay --at N`: the texts after message N.\nMessages with notes",
    ),
    (
        &[(2, EMOJI), (5, EMOJI), (2, EMOJI)],
        "5 refused S5 of \"file:///a\": version 2 was sent, and the current one is 5; see message 4\n",
    ),
    (
        &[(6, EMOJI), (7, INSIDE), (8, EMOJI), (7, EMOJI)],
        "4 refused E1 of \"file:///a\": change 1 starts at line 0, character 1, inside a character; see message 2\n6 refused S5 of \"file:///a\": version 7 was sent, and the current one is 8; see message 5\n",
    ),
    // Versions grow by one, and 9 after 6 breaks that: so short a habit is over. They grow by the number
    // of changes, and 11 after 9 breaks that.
    (
        &[
            (2, EMOJI),
            (3, EMOJI),
            (4, EMOJI),
            (5, EMOJI),
            (6, EMOJI),
            (9, EMOJI),
            (12, EMOJI),
        ],
        "8 changed of \"file:///a\": version 9 came after 6, with 1 change, and until here it grew by 1\nmessages of the editor: 9, changed documents: 8\nnoted changes nothing: 6, first message 4\nnoted an odd version: 1, first message 8\n",
    ),
    (
        &[
            (3, TWICE),
            (5, TWICE),
            (6, EMOJI),
            (8, TWICE),
            (9, EMOJI),
            (11, EMOJI),
        ],
        "8 changed of \"file:///a\": version 11 came after 9, with 1 change, and until here it grew by the number of changes\n",
    ),
    // The first four changes have no habit, and a refused version is one that was sent.
    (
        &[(2, EMOJI), (3, EMOJI), (4, EMOJI), (6, EMOJI)],
        "messages of the editor: 6, changed documents: 5\n",
    ),
    (
        &[
            (2, EMOJI),
            (3, EMOJI),
            (4, EMOJI),
            (5, EMOJI),
            (6, INSIDE),
            (7, EMOJI),
        ],
        "7 refused E1 of \"file:///a\": change 1 starts at line 0, character 1, inside a character; see message 2\nmessages of the editor: 8,",
    ),
];

/// Returns whether `check --brief` writes these lines of changes with these versions.
fn has_versions(alloc: Global, versions: &[(i32, &str)], lines: &str) -> Result<bool, Fail> {
    let mut input = log(alloc, &[INITIALIZE, OPEN])?;
    for (version, changes) in versions {
        let changed = change(alloc, *version, changes)?;
        input.extend_from_slice(&frame(alloc, changed.as_bytes())?)?;
    }
    let run = run_with(alloc, Command::Brief, &input, settings()?, SMOOTH)?;
    Ok(run.output.starts_with(lines.as_bytes()))
}

#[test]
fn versions_that_were_left_out_or_break_a_habit_are_called_that(
    rt: HostRuntime,
) -> Result<(), Fail> {
    for (versions, lines) in &VERSIONS {
        assert!(rt; has_versions(rt.alloc(), versions, lines)?, "at {lines}");
    }
    Ok(())
}

/// Appends changes of the document with this name, one for each version.
fn push_versions(
    alloc: Global,
    input: &mut Vec<u8>,
    name: &str,
    versions: &[i32],
) -> Result<(), Fail> {
    for version in versions {
        let body = format!(in alloc;
            r#"{{"jsonrpc":"2.0","method":"textDocument/didChange","params":{{"contentChanges":[{{"text":"x"}}],"textDocument":{{"uri":"file:///{name}","version":{version}}}}}}}"#
        )?;
        input.extend_from_slice(&frame(alloc, body.as_bytes())?)?;
    }
    Ok(())
}

/// What `check --brief` writes first where `b` sends version 3 again, `a` one that was left out, and
/// once `a` was opened anew one that wasn't.
const LATE_VERSIONS: &str =
    "9 refused S5 of \"file:///b\": version 3 was sent, and the current one is 4; see message 8\n10 refused S5 of \"file:///a\": version 3 was sent, and the current one is 5; the one that was sent was left out before: messages were swapped; see message 5\n16 refused S5 of \"file:///a\": version 3 was sent, and the current one is 4; see message 15\n";

/// Returns whether versions are left out of one document, until it is closed.
fn are_left_out_of_one(alloc: Global) -> Result<bool, Fail> {
    let mut input = log(alloc, &[INITIALIZE, OPEN, OTHER[0]])?;
    push_versions(alloc, &mut input, "a", &[2, 5])?;
    push_versions(alloc, &mut input, "b", &[2, 3, 4, 3])?;
    push_versions(alloc, &mut input, "a", &[3])?;
    input.extend_from_slice(&log(alloc, &[CLOSE, OPEN])?)?;
    push_versions(alloc, &mut input, "a", &[2, 3, 4, 3])?;
    let run = run_with(alloc, Command::Brief, &input, settings()?, SMOOTH)?;
    Ok(run.output.starts_with(LATE_VERSIONS.as_bytes()))
}

/// Versions after 1 that grow by one, but for two.
static BROKEN: [i32; 19] = [
    2, 3, 4, 5, 6, 7, 8, 9, 10, 11, 12, 13, 14, 15, 16, 17, 20, 21, 25,
];

const BROKEN_TWICE: &str =
    "19 changed of \"file:///a\": version 20 came after 17, with 1 change, and until here it grew by 1\n21 changed of \"file:///a\": version 25 came after 21, with 1 change, and until here it grew by 1\nmessages of the editor: 21,";

/// Returns whether a habit of sixteen changes that one breaks is still a habit.
fn outlives_a_break(alloc: Global) -> Result<bool, Fail> {
    let mut input = log(alloc, &[INITIALIZE, OPEN])?;
    push_versions(alloc, &mut input, "a", &BROKEN)?;
    let run = run_with(alloc, Command::Brief, &input, settings()?, SMOOTH)?;
    Ok(run.output.starts_with(BROKEN_TWICE.as_bytes()))
}

#[test]
fn versions_are_those_of_one_document_and_a_long_habit_outlives_a_break(
    rt: HostRuntime,
) -> Result<(), Fail> {
    assert!(rt; are_left_out_of_one(rt.alloc())?);
    assert!(rt; outlives_a_break(rt.alloc())?);
    Ok(())
}

/// Five changes of a document have a note, and then one of another document.
const HABIT: &str =
    "3 changed of \"file:///a\": it has no changes\n4 changed of \"file:///a\": it has no changes\n5 changed of \"file:///a\": it has no changes\n9 changed of \"file:///b\": it has no changes\nmessages of the editor: 9, changed documents: 8\nnoted no changes: 6, first message 3\nNothing was refused; see the notes. `lspsync replay --at N`: the texts after message N.\nMessages with notes that are on no line: 2, from 6 to 7; `--all` has them.\n";

/// Returns whether what often comes of one document is still on a line of another.
fn has_habits(alloc: Global) -> Result<bool, Fail> {
    let mut input = log(alloc, &[INITIALIZE, OPEN])?;
    for version in [2, 3, 4, 5, 6] {
        let changed = change(alloc, version, "")?;
        input.extend_from_slice(&frame(alloc, changed.as_bytes())?)?;
    }
    input.extend_from_slice(&log(alloc, &OTHER)?)?;
    let run = run_with(alloc, Command::Brief, &input, settings()?, SMOOTH)?;
    Ok(run.output.as_slice() == HABIT.as_bytes())
}

/// The other document.
static OTHER: [&str; 2] = [
    r#"{"jsonrpc":"2.0","method":"textDocument/didOpen","params":{"textDocument":{"languageId":"c","text":"","uri":"file:///b","version":1}}}"#,
    r#"{"jsonrpc":"2.0","method":"textDocument/didChange","params":{"contentChanges":[],"textDocument":{"uri":"file:///b","version":2}}}"#,
];

#[test]
fn a_habit_is_one_of_a_document(rt: HostRuntime) -> Result<(), Fail> {
    assert!(rt; has_habits(rt.alloc())?);
    Ok(())
}
