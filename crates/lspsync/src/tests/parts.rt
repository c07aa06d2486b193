//! What `replay --at` and `replay --uri` write, and what they report as missing.

use super::*;
use lsp_samples::bodies::{CHANGE, CLOSE, EXIT, INITIALIZE, INITIALIZED, OPEN, SHUTDOWN};
use lsp_samples::logs::log;
use std::test::Fail;

static SESSION: [&str; 7] = [INITIALIZE, INITIALIZED, OPEN, CHANGE, CLOSE, SHUTDOWN, EXIT];

const NO_RECORD: &str = "lspsync: the log has no record of this number\n";

const NOT_ONE: &str = "lspsync: no single document was open whose URI ends so\n";

const OPENED: &str =
    "{\"languageId\":\"plaintext\",\"text\":\"abc\",\"uri\":\"file:///a\",\"version\":1}\n";

/// The words of a call, and the status, the output and the line on standard error.
static ROWS: [(&str, u8, &str, &str); 5] = [
    ("lspsync replay --uri file:///a", 0, "aXc", ""),
    ("lspsync replay --uri file:///b", 1, "", NOT_ONE),
    ("lspsync replay --at 3", 0, OPENED, ""),
    ("lspsync replay --at 8", 1, "", NO_RECORD),
    ("lspsync replay --at=5 --uri=file:///a", 0, "aXc", ""),
];

#[test]
fn a_part_of_a_log_is_replayed(rt: HostRuntime) -> Result<(), Fail> {
    let input = log(rt.alloc(), &SESSION)?;
    for (words, status, output, errors) in &ROWS {
        assert!(rt;
            answers(
                rt.alloc(),
                words,
                &input,
                *status,
                output.as_bytes(),
                errors
            )?,
            "at {words:?}"
        );
    }
    Ok(())
}
