//! `serve`: its replies, and its status.

use super::*;
use lsp_samples::logs::log;
use std::test::Fail;

/// An editor that counts in UTF-8 or UTF-16.
const OFFERS: &str =
    r#"{"id":1,"jsonrpc":"2.0","method":"initialize","params":{"capabilities":{"general":{"positionEncodings":["utf-8","utf-16"]}},"processId":null,"rootUri":null}}"#;

/// The words of a call, and the encoding and the kind of synchronisation that are announced.
static AGREED: [(&str, &str, u8); 4] = [
    ("lspsync serve", "utf-16", 2),
    ("lspsync serve --encoding=utf-8", "utf-8", 2),
    ("lspsync serve --sync full", "utf-16", 1),
    ("lspsync serve --sync=full --encoding=utf-8", "utf-8", 1),
];

fn is_agreed(alloc: Global, words: &str, encoding: &str, kind: u8) -> Result<bool, AllocError> {
    let reply = format!(in alloc;
        r#"{{"id":1,"jsonrpc":"2.0","result":{{"capabilities":{{"positionEncoding":"{encoding}","textDocumentSync":{{"change":{kind},"openClose":true}}}}}}}}"#
    )?;
    let output = log(alloc, &[reply.as_str()])?;
    answers(alloc, words, &log(alloc, &[OFFERS])?, 1, &output, "")
}

#[test]
fn what_is_agreed_goes_by_the_options(rt: HostRuntime) -> Result<(), Fail> {
    for (words, encoding, kind) in &AGREED {
        assert!(rt; is_agreed(rt.alloc(), words, encoding, *kind)?, "{words:?}");
    }
    Ok(())
}
