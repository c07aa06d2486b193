//! What a file that is no log seems to be, by its first bytes.

/// Returns what is said of a faulty log that begins with these bytes, if they show a known form.
pub fn hint(first: &[u8]) -> Option<&'static str> {
    if first.starts_with(b"lsp-session-log 2\n") {
        return None;
    }
    if has_bare_lines(first) {
        return Some("its lines end in LF alone, where those of a header end in CR LF");
    }
    for (bytes, hint) in &ALL {
        if first.starts_with(*bytes) {
            return Some(*hint);
        }
    }
    None
}

/// Returns whether these are lines of a header that end in a line feed alone.
fn has_bare_lines(first: &[u8]) -> bool {
    first.starts_with(b"Content-") && first.contains(&b'\n') && !first.contains(&b'\r')
}

/// How a file begins, and what is said of it. Of several that fit the first counts.
type Row = (&'static [u8], &'static str);

const NEOVIM: &str = "a log of Neovim; bin/log-from makes a session of it";

const EGLOT: &str = "an events buffer of eglot; bin/log-from makes a session of it";

const TRACE: &str = "a trace of VS Code, lsp-mode or gopls; bin/log-from makes a session of it";

const CLANGD: &str = "a log of clangd; bin/log-from makes a session of it";

static ALL: [Row; 25] = [
    (b"[START][", NEOVIM),
    (b"[TRACE][", NEOVIM),
    (b"[DEBUG][", NEOVIM),
    (b"[INFO][", NEOVIM),
    (b"[WARN][", NEOVIM),
    (b"[ERROR][", NEOVIM),
    (b"[client-", EGLOT),
    (b"[server-", EGLOT),
    (b"[internal]", EGLOT),
    (b"[stderr]", EGLOT),
    (b"[jsonrpc]", EGLOT),
    (b"[Trace - ", TRACE),
    (b"[LSP   - ", TRACE),
    (b"[Info  - ", TRACE),
    (b"[Warn  - ", TRACE),
    (b"[Error - ", TRACE),
    (b"I[", CLANGD),
    (b"V[", CLANGD),
    (b"E[", CLANGD),
    (
        b"==== start log session",
        "a channel log of Vim; bin/log-from makes a session of it",
    ),
    (
        b"{",
        "lines of JSON; bin/log-from makes a session of those it knows",
    ),
    (
        b"lsp-session-log ",
        "its first line is not `lsp-session-log 2` and LF",
    ),
    (b"\x1f\x8b", "it is compressed by gzip"),
    (
        b"\xef\xbb\xbf",
        "it has a byte order mark, which no editor sends",
    ),
    (b"\xff\xfe", "it is UTF-16, which some shells write"),
];
