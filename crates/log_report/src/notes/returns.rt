//! Carriage returns that end lines by themselves, which some editors don't count as line ends.

ghost use Rattle.std.specs.Prelude.{◌≡◌, false};
ghost use Rattle.log_report.specs.Notes.{has_feed, has_lone_return};

/// Returns whether a carriage return ends a line by itself.
pub fn has_lone_return(bytes: &[u8]) -> bool
    ensures { result ≡ has_lone_return false bytes.now }
{
    let mut after = false;
    let mut next = 0;
    'bytes: while next < bytes.len() {
        let byte = bytes[next];
        if after && byte != b'\n' {
            return true;
        }
        after = byte == b'\r';
        next += 1;
    }
    after
}

/// Returns whether there is a line feed.
pub fn has_feed(bytes: &[u8]) -> bool
    ensures { result ≡ has_feed bytes.now }
{
    bytes.contains(&b'\n')
}
