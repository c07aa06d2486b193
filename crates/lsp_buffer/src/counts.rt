//! `Counts`, what a text counts. What comes before a block is the sum of earlier counts.
ghost use Rattle.std.specs.Prelude.{◌≡◌, ◌+◌, ◌<◌, ◌^◌, []};
ghost use Rattle.lsp_buffer.specs.Blocks.{carried, counts_of};
ghost use Rattle.lsp_buffer.specs.inside.Counts.{HaveRoom, counts_sum, head_in};

use lsp_text::Encoding;

/// What a text counts: its bytes, its line ends, and the units of its last line in each encoding.
#[derive(Clone, Copy, Debug)]
pub struct Counts {
    pub len: u32,
    pub ends: u32,
    pub utf8: u32,
    pub utf16: u32,
    pub utf32: u32,
}

/// Returns the units of the last line of two texts, if `before` are those of the first one's last
/// line, and the second has so many line ends and units of its last line.
fn head_after(before: u32, ends: u32, head: u32) -> u32
    requires { before + head < 2 ^ 32 }
    ensures { result ≡ carried ends before + head }
{
    if ends == 0 { before + head } else { head }
}

impl Counts {
    /// Returns what an empty text counts.
    pub fn none() -> Self
        ensures { result ≡ counts_of [] }
    {
        Counts {
            len: 0,
            ends: 0,
            utf8: 0,
            utf16: 0,
            utf32: 0,
        }
    }

    /// Returns the units of the last line in one encoding.
    pub fn head(&self, encoding: Encoding) -> u32
        ensures { result ≡ head_in self.now encoding }
    {
        match encoding {
            Encoding::Utf8 => self.utf8,
            Encoding::Utf16 => self.utf16,
            Encoding::Utf32 => self.utf32,
        }
    }

    /// Returns what a text counts that is followed by another one.
    pub fn plus(self, next: Counts) -> Self
        requires { HaveRoom self next }
        ensures { result ≡ counts_sum self next }
    {
        Counts {
            len: self.len + next.len,
            ends: self.ends + next.ends,
            utf8: head_after(self.utf8, next.ends, next.utf8),
            utf16: head_after(self.utf16, next.ends, next.utf16),
            utf32: head_after(self.utf32, next.ends, next.utf32),
        }
    }
}
