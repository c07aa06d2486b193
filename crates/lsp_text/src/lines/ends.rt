//! The search for line ends in bytes.
ghost use Rattle.std.specs.Prelude.{◌≡◌, ◌++◌, ◌≤◌, ◌<◌, suc, length, OnOk};
ghost use Rattle.lsp_text.specs.TextLines.{starts_line, splits_crlf};
ghost use Rattle.lsp_text.specs.LineStarts.{starts_between};

use memchr::memchr2_iter;
use std::alloc::AllocError;

/// Returns whether a line ends right after the byte at `at`.
fn ends_line_after(bytes: &[u8], at: usize) -> bool
    requires { at < length bytes.now }
    ensures { result ≡ starts_line bytes.now (suc at) }
{
    match bytes[at] {
        b'\n' => true,
        b'\r' => at + 1 == bytes.len() || bytes[at + 1] != b'\n',
        _ => false,
    }
}

/// Returns whether the byte offset is between the bytes of a CRLF.
pub fn is_inside_crlf(bytes: &[u8], place: usize) -> bool
    requires { place ≤ length bytes.now }
    ensures { result ≡ splits_crlf bytes.now place }
{
    place > 0 && place < bytes.len() && bytes[place - 1] == b'\r' && bytes[place] == b'\n'
}

/// Appends to `starts` the byte offsets after `low`, up to `high`, at which a line ends. Linear in
/// `high - low`.
pub fn push_ends(
    starts: &mut Vec<u32>,
    bytes: &[u8],
    low: usize,
    high: usize,
) -> Result<(), AllocError>
    requires order { low ≤ high }
    requires within { high ≤ length bytes.now }
    requires size { length bytes.now ≤ 2147483648 }
    ensures ok { OnOk result
        (starts.new.items ≡ starts.old.items ++ starts_between bytes.now low high) }
{
    for at in memchr2_iter(b'\n', b'\r', &bytes[low..high]) {
        if ends_line_after(bytes, low + at) {
            starts.push((low + at + 1) as u32)?;
        }
    }
    Ok(())
}
