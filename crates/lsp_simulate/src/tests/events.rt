//! Lines of events, and the line of output for each.

use super::ran;
use std::test::Fail;

/// A session whose messages arrive late: the events and the output.
const LATE: &str = r#"{"event":"toClient"}
{"event":"start"}
{"event":"edit","textDocument":{"uri":"file:///a","version":2},"contentChanges":[]}
{"event":"toServer"}
{"event":"toClient"}
{"event":"open","textDocument":{"uri":"file:///a","languageId":"plaintext","version":1,"text":"abc"}}
{"event":"edit","textDocument":{"uri":"file:///a","version":2},"contentChanges":[{"range":{"start":{"line":0,"character":1},"end":{"line":0,"character":2}},"text":"X"}]}
{"event":"close","textDocument":{"uri":"file:///a"}}
{"event":"shutdown"}
{"event":"toServer"}
{"event":"toServer"}
{"event":"toServer"}
{"event":"toServer"}
{"event":"toServer"}
{"event":"toClient"}
{"event":"exit"}
{"event":"toServer"}
{"event":"toServer"}
"#;

const LATE_OUTPUT: &str = "1 nothing
2 sent
3 refused C1 asked
4 server reply
5 client send
6 sent
7 sent
8 sent
9 sent
10 server ignored
11 server changed
12 server changed
13 server changed
14 server reply
15 client noted
16 sent
17 server exit 0
18 nothing
waiting 0 0
";

/// A document of one character, which has four bytes, and edits in and after it. The last line has
/// no line end.
const FACE: &str = "{\"event\":\"start\"}
{\"event\":\"toServer\"}
{\"event\":\"toClient\"}
{\"event\":\"open\",\"textDocument\":{\"uri\":\"file:///a\",\"languageId\":\"plaintext\",\"version\":1,\"text\":\"\u{1F600}\"}}
{\"event\":\"open\",\"textDocument\":{\"uri\":\"file:///a\",\"languageId\":\"plaintext\",\"version\":1,\"text\":\"\"}}
{\"event\":\"edit\",\"textDocument\":{\"uri\":\"file:///a\",\"version\":2},\"contentChanges\":[{\"range\":{\"start\":{\"line\":0,\"character\":1},\"end\":{\"line\":0,\"character\":1}},\"text\":\"b\"}]}
{\"event\":\"edit\",\"textDocument\":{\"uri\":\"file:///a\",\"version\":1},\"contentChanges\":[]}
{\"event\":\"close\",\"textDocument\":{\"uri\":\"file:///b\"}}";

const FACE_IN_UTF8: &str = "1 sent
2 server reply
3 client send
4 sent
5 refused S1
6 refused E1
7 refused S5
8 refused S4
waiting 2 0
client {\"languageId\":\"plaintext\",\"text\":\"\u{1F600}\",\"uri\":\"file:///a\",\"version\":1}
";

const FACE_WHERE_LENIENT: &str = "1 sent
2 server reply
3 client send
4 sent
5 sent
6 sent
7 sent
8 refused S4
waiting 5 0
client {\"languageId\":\"plaintext\",\"text\":\"b\",\"uri\":\"file:///a\",\"version\":1}
";

/// The words, the input and the output.
static RUNS: &[(&[&str], &str, &str)] = &[
    (&["lsp_simulate"], "", "waiting 0 0\n"),
    (&["lsp_simulate"], LATE, LATE_OUTPUT),
    (&["lsp_simulate", "--sync", "full"], LATE, LATE_OUTPUT),
    (&["lsp_simulate", "--fixed", "utf-16"], LATE, LATE_OUTPUT),
    (
        &["lsp_simulate", "--utf-8", "--prefer", "utf-8"],
        FACE,
        FACE_IN_UTF8,
    ),
    (&["lsp_simulate", "--lenient"], FACE, FACE_WHERE_LENIENT),
];

#[test]
fn what_is_written(rt: HostRuntime) -> Result<(), Fail> {
    for (words, input, output) in RUNS {
        let answer = ran(rt.alloc(), words, input);
        assert_eq!(rt; answer.output.as_slice(), output.as_bytes());
        assert!(rt; answer.errors.is_empty());
        assert_eq!(rt; answer.status, 0);
    }
    Ok(())
}
