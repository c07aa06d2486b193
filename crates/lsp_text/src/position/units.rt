//! The units that a position's character counts, in the three encodings (LSP 3.17,
//! PositionEncodingKind).
ghost use Rattle.std.specs.Prelude.{◌≡◌, ◌≤◌, ℕ};
ghost use Rattle.std.specs.Char.{len_utf8};
ghost use Rattle.lsp_text.specs.Units.{units_in};
ghost use Rattle.lsp_text.specs.declared.encoding.Encoding.TheVariants as encoding;
ghost use Rattle.lsp_text.specs.laws.Units.{utf8_bounds, utf16_bounds, utf32_bounds};

/// The units that a character has in an encoding.
pub trait Units {
    /// The units of a character.
    ghost units_of: { ℕ → ℕ };

    /// Returns the units of a character: 1 to 4, and no more than its bytes of UTF-8. In constant
    /// time.
    fn units(c: char) -> u32
        ensures { result ≡ units_of c };

    /// A character has at least one unit, and no more units than bytes of UTF-8. So it has 1 to 4
    /// units, and a text whose bytes fit a `u32` has units that fit one.
    ghost bounds: { (c : ℕ) → (1 ≤ units_of c) × (units_of c ≤ len_utf8 c) };
}

/// Bytes of UTF-8.
#[derive(Clone, Copy, Debug, PartialEq, Eq)]
pub struct Utf8;

/// 16-bit code units of UTF-16.
#[derive(Clone, Copy, Debug, PartialEq, Eq)]
pub struct Utf16;

/// Scalar values.
#[derive(Clone, Copy, Debug, PartialEq, Eq)]
pub struct Utf32;

impl Units for Utf8 {
    ghost units_of = { units_in encoding.Utf8 };

    fn units(c: char) -> u32 {
        c.len_utf8() as u32
    }

    ghost bounds = { utf8_bounds };
}

impl Units for Utf16 {
    ghost units_of = { units_in encoding.Utf16 };

    fn units(c: char) -> u32 {
        if u32::from(c) < 0x1_0000 { 1 } else { 2 }
    }

    ghost bounds = { utf16_bounds };
}

impl Units for Utf32 {
    ghost units_of = { units_in encoding.Utf32 };

    fn units(_c: char) -> u32 {
        1
    }

    ghost bounds = { utf32_bounds };
}
