//! The encodings in which a position's character is counted.

ghost use Rattle.std.specs.Prelude.{◌≡◌, Some};
ghost use Rattle.std.specs.Result.{result_ok};
ghost use Rattle.lsp_text.specs.Units.{name_of, encoding_named, units_in};

use crate::position::units::{Units, Utf8, Utf16, Utf32};
use std::fmt;
use std::str::FromStr;
use thiserror::Error;

/// The unit that a position's character counts (LSP 3.17, PositionEncodingKind). `Display` shows
/// the protocol's name for it.
#[derive(Clone, Copy, Debug, Default, PartialEq, Eq, Hash)]
pub enum Encoding {
    /// Bytes of UTF-8.
    Utf8,
    /// 16-bit code units of UTF-16, the protocol's default.
    #[default]
    Utf16,
    /// Scalar values, that is code points.
    Utf32,
}

impl Encoding {
    /// Returns the protocol's name for it, as `utf-16`.
    pub fn name(self) -> &'static str
        ensures { result.now ≡ name_of self }
    {
        match self {
            Encoding::Utf8 => "utf-8",
            Encoding::Utf16 => "utf-16",
            Encoding::Utf32 => "utf-32",
        }
    }

    /// Returns the encoding with this name, which is compared byte for byte, or `None` for any
    /// other name.
    pub fn of_name(name: &str) -> Option<Self>
        ensures { result ≡ encoding_named name.now }
    {
        match name {
            "utf-8" => Some(Encoding::Utf8),
            "utf-16" => Some(Encoding::Utf16),
            "utf-32" => Some(Encoding::Utf32),
            _ => None,
        }
    }

    /// Returns how many units a character has. In constant time.
    pub fn units(self, c: char) -> u32
        ensures { result ≡ units_in self c }
    {
        match self {
            Encoding::Utf8 => Utf8::units(c),
            Encoding::Utf16 => Utf16::units(c),
            Encoding::Utf32 => Utf32::units(c),
        }
    }
}

/// No encoding has such a name.
#[derive(Clone, Copy, Debug, PartialEq, Eq, Error)]
#[error("no encoding has this name")]
pub struct UnknownEncoding;

impl fmt::Display for Encoding {
    ghost output = { λ encoding. Some (name_of encoding) };

    fn fmt<W: fmt::Write>(&self, f: &mut fmt::Formatter<W>) -> fmt::Result {
        f.write_str(self.name())
    }
}

impl FromStr for Encoding {
    type Err = UnknownEncoding;

    ghost from_str_gives = { λ name result. result_ok result ≡ encoding_named name };

    fn from_str(name: &str) -> Result<Self, UnknownEncoding> {
        Self::of_name(name).ok_or(UnknownEncoding)
    }
}
