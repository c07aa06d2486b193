//! The units of a text.

ghost use Rattle.std.specs.Prelude.{◌≡◌, sum_by};
ghost use Rattle.std.specs.Str.{chars};
ghost use Rattle.lsp_text.specs.Units.{units_in};

use lsp_text::Encoding;

/// Returns how many units the characters of a text have.
pub fn units_of(encoding: Encoding, text: &str) -> usize
    ensures { result ≡ sum_by (units_in encoding) (chars text.now) }
{
    let mut count = 0;
    for c in text.chars() {
        count += encoding.units(c) as usize;
    }
    count
}
