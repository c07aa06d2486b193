//! A language server that marks each line of more than 100 characters: an example of a server over
//! these crates.
//!
//! A `Framer` splits the bytes of standard input into the bodies of messages. A `Server` reads each
//! body, keeps the open documents by it, and replies if the protocol's lifecycle wants a reply.
//! What is left is this server's own: `answer` publishes the diagnostics of each document that was
//! opened, changed or closed, and `long_lines` finds them.
//!
//! README.md says how an editor starts it.
#![tactic(auto)]

mod long_lines;

use anyhow::Result;
use lsp_frame::{Framer, frame};
use lsp_server::{Answer, Config, EncodingChoice, Incoming, Server};
use lsp_text::{Encoding, Range};
use serde_json::{Value, json};
use std::alloc::{AllocError, Global};
use std::io::{BufRead, BufReader, Write};
use std::process::ExitCode;

/// Serves one session. The status of the process is the one that `exit` asks for, and 1 if the
/// input ends without it.
fn main(rt: HostRuntime) -> Result<ExitCode> {
    // In UTF-32 a unit is a character. An editor that doesn't offer it uses UTF-16, which each of
    // them supports.
    let prefer = Encoding::Utf32;
    let config = Config {
        choice: EncodingChoice::Negotiated { prefer },
        ..Config::default()
    };
    let mut framer = Framer::new(rt.alloc(), config.limits);
    let mut server = Server::new(rt.alloc(), config);
    let mut input = BufReader::new(rt.alloc(), rt.stdin())?;
    // Each loop must be shown to end, hence the bound; the input ends first.
    for _ in 0..u64::MAX {
        let taken = framer.feed(input.fill_buf()?)?;
        // Nothing is taken only if nothing is left.
        if taken == 0 {
            break;
        }
        input.consume(taken);
        if let Some(body) = framer.body() {
            if let Some(status) = answer(rt.alloc(), &mut server, body, &mut rt.stdout())? {
                return Ok(ExitCode::from(status));
            }
            framer.next();
        }
    }
    Ok(ExitCode::FAILURE)
}

/// Answers one message. Returns the status of the process if it is to end.
fn answer<W: Write>(
    alloc: Global,
    server: &mut Server,
    body: &[u8],
    output: &mut W,
) -> Result<Option<u8>> {
    let incoming = server.read(body)?;
    let uri = String::from_str(alloc, document_of(&incoming))?;
    match server.handle_incoming(incoming)? {
        Answer::Reply { frame, .. } => output.write_all(&frame)?,
        Answer::Changed => output.write_all(&diagnostics(alloc, server, &uri)?)?,
        Answer::Exit(status) => return Ok(Some(status)),
        Answer::Dropped | Answer::Ignored | Answer::Refused(_) => {}
    }
    output.flush()?;
    Ok(None)
}

/// Returns the URI of the document that a notification opens, changes or closes; empty for another
/// message.
fn document_of(incoming: &Incoming) -> &str {
    match incoming {
        Incoming::DidOpen(Some(params)) => &params.uri,
        Incoming::DidChange(Some(params)) => &params.uri,
        Incoming::DidClose(Some(params)) => &params.uri,
        _ => "",
    }
}

/// Returns the frame that publishes a document's diagnostics (LSP 3.17, PublishDiagnostics
/// Notification). There are none if the document is closed.
fn diagnostics(alloc: Global, server: &Server, uri: &str) -> Result<Vec<u8>, AllocError> {
    let mut found = Vec::new(alloc);
    if let (Some(document), Some(encoding)) = (server.store().get(uri), server.encoding()) {
        for range in long_lines::long_lines(alloc, &document, encoding)? {
            found.push(diagnostic(alloc, range)?)?;
        }
    }
    let notification = json!(in alloc; {
        "jsonrpc": "2.0",
        "method": "textDocument/publishDiagnostics",
        "params": {"uri": uri, "diagnostics": found},
    })?;
    frame(alloc, &notification.to_vec(alloc)?)
}

/// Returns a warning over a range.
fn diagnostic(alloc: Global, range: Range) -> Result<Value, AllocError> {
    let start = json!(in alloc; {"line": range.start.line, "character": range.start.character})?;
    let end = json!(in alloc; {"line": range.stop.line, "character": range.stop.character})?;
    let message = "a line of more than 100 characters";
    json!(in alloc; {"range": {"start": start, "end": end}, "severity": 2, "message": message})
}
