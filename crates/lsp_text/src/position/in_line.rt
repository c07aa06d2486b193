//! Units and byte offsets inside one line, counted over its bytes.
//!
//! Bodies are generic over the private `InLine`, and proved once from it. Units are counted by
//! bytes: a character's first byte has its units, the others none. So a line's units fit 32
//! bits.
ghost use Rattle.std.specs.Prelude.{◌≡◌, ◌+◌, ◌*◌, ◌≤◌, ◌<◌, ℕ, IfSome, length, take, drop, sum_by, option_map};
ghost use Rattle.std.specs.Str.{IsUtf8, chars};
ghost use Rattle.lsp_text.specs.Leads.{lead_units_utf16, lead_units_utf32};
ghost use Rattle.lsp_text.specs.inside.Leads.{line_place, byte_place};
ghost use Rattle.lsp_text.specs.laws.Leads.{utf16_few, utf32_few};

use crate::position::units::{Units, Utf8, Utf16, Utf32};

/// Units that can be counted in the bytes of a line's content.
pub trait InLine: Units {
    /// Returns how many units the content has.
    fn units_in(line: &[u8]) -> usize
        requires utf8 { IsUtf8 line.now }
        requires size { length line.now ≤ 2147483648 }
        ensures { result ≡ sum_by Self.units_of (chars line.now) };

    /// Returns the byte offset in the content with so many units before it: the content's end if it
    /// has no more, `None` inside a character.
    fn place_in(line: &[u8], character: u32) -> Option<usize>
        requires { IsUtf8 line.now }
        ensures { result ≡ line_place Self.units_of (chars line.now) character };
}

/// Units of a character, by its first byte.
trait LeadUnits {
    /// The units that a byte counts for.
    ghost lead_units: { ℕ → ℕ };

    /// Returns the units of the character whose UTF-8 begins with this byte, or 0 for a byte inside
    /// a character.
    fn lead_units(byte: u8) -> u8
        ensures { result ≡ lead_units byte };

    /// No byte counts for more than four units.
    ghost few: { (byte : ℕ) → lead_units byte ≤ 4 };
}

impl LeadUnits for Utf16 {
    ghost lead_units = { lead_units_utf16 };

    fn lead_units(byte: u8) -> u8 {
        if byte < 128 {
            1
        } else if byte < 192 {
            0
        } else if byte < 240 {
            1
        } else {
            2
        }
    }

    ghost few = { utf16_few };
}

impl LeadUnits for Utf32 {
    ghost lead_units = { lead_units_utf32 };

    fn lead_units(byte: u8) -> u8 {
        if byte < 128 {
            1
        } else if byte < 192 {
            0
        } else {
            1
        }
    }

    ghost few = { utf32_few };
}

/// Returns the units of `N` bytes from an offset on. `N` is small and fixed, so that the compiler
/// can leave out branches.
#[inline]
fn units_of_block<L: LeadUnits, const N: usize>(bytes: &[u8], place: usize) -> u8
    requires small { N ≤ 32 }
    requires within { place + N ≤ length bytes.now }
    ensures { result ≡ sum_by L.lead_units (take N (drop place bytes.now)) }
{
    let mut units = 0;
    for index in 0..N {
        units += L::lead_units(bytes[place + index]);
    }
    units
}

/// Returns the units of these bytes, counted byte by byte.
fn units_one_by_one<L: LeadUnits>(bytes: &[u8]) -> usize
    requires { length bytes.now ≤ 2147483648 }
    ensures units { result ≡ sum_by L.lead_units bytes.now }
    ensures few { result ≤ 4 * length bytes.now }
{
    let mut units = 0;
    for byte in bytes {
        units += L::lead_units(*byte) as usize;
    }
    units
}

/// Returns the units of these bytes, counted in blocks.
fn units_of_bytes<L: LeadUnits>(bytes: &[u8]) -> usize
    requires { length bytes.now ≤ 2147483648 }
    ensures { result ≡ sum_by L.lead_units bytes.now }
{
    let blocks = bytes.len() / 32;
    let mut units = 0;
    for block in 0..blocks {
        units += units_of_block::<L, 32>(bytes, 32 * block) as usize;
    }
    units + units_one_by_one::<L>(&bytes[32 * blocks..])
}

/// Skips blocks of `N` bytes while they have no more units than `character`. Returns the offset
/// after them, and the units left there.
#[inline]
fn pass_blocks<L: LeadUnits, const N: usize>(bytes: &[u8], character: u32) -> (usize, u32)
    requires some { 0 < N }
    requires small { N ≤ 32 }
    ensures within { result.0 ≤ length bytes.now }
    ensures rest { option_map (λ n. result.0 + n)
        (byte_place L.lead_units (drop result.0 bytes.now) result.1)
        ≡ byte_place L.lead_units bytes.now character }
{
    let mut place = 0;
    let mut left = character;
    while bytes.len() - place >= N {
        let units = u32::from(units_of_block::<L, N>(bytes, place));
        if left < units {
            break;
        }
        left -= units;
        place += N;
    }
    (place, left)
}

/// Returns the offset with so many units before it, found byte by byte: the end if there are no
/// more, `None` inside a character.
fn place_one_by_one<L: LeadUnits>(bytes: &[u8], character: u32) -> Option<usize>
    ensures place { result ≡ byte_place L.lead_units bytes.now character }
    ensures within { IfSome result (λ place. place ≤ length bytes.now) }
{
    let mut left = character;
    for (place, byte) in bytes.iter().enumerate() {
        let units = u32::from(L::lead_units(*byte));
        if left < units {
            return if left == 0 { Some(place) } else { None };
        }
        left -= units;
    }
    Some(bytes.len())
}

/// Returns the offset with so many units before it, found by long blocks first, then by short ones
/// and at last byte by byte: the end if there are no more units, `None` inside a character.
fn place_by_leads<L: LeadUnits>(bytes: &[u8], character: u32) -> Option<usize>
    ensures { result ≡ byte_place L.lead_units bytes.now character }
{
    let (long, after_long) = pass_blocks::<L, 32>(bytes, character);
    let rest = &bytes[long..];
    let (short, after_short) = pass_blocks::<L, 8>(rest, after_long);
    let place = place_one_by_one::<L>(&rest[short..], after_short)?;
    Some(long + short + place)
}

impl InLine for Utf16 {
    fn units_in(line: &[u8]) -> usize {
        units_of_bytes::<Utf16>(line)
    }

    fn place_in(line: &[u8], character: u32) -> Option<usize> {
        place_by_leads::<Utf16>(line, character)
    }
}

impl InLine for Utf32 {
    fn units_in(line: &[u8]) -> usize {
        units_of_bytes::<Utf32>(line)
    }

    fn place_in(line: &[u8], character: u32) -> Option<usize> {
        place_by_leads::<Utf32>(line, character)
    }
}

impl InLine for Utf8 {
    fn units_in(line: &[u8]) -> usize {
        line.len()
    }

    fn place_in(line: &[u8], character: u32) -> Option<usize> {
        let place = character as usize;
        if place >= line.len() {
            Some(line.len())
        } else if Utf32::lead_units(line[place]) == 0 {
            None
        } else {
            Some(place)
        }
    }
}
