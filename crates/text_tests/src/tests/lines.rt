//! Positions of small texts in the three encodings, as they are worked out by hand.

ghost use Rattle.std.specs.Prelude.{◌≤◌, length};

mod refused;

use lsp_text::{Encoding, Lines, Position, Units, UnknownEncoding, Utf8, Utf16, Utf32};
use std::alloc::{AllocError, Global};
use std::test::Fail;

const UTF8: Encoding = Encoding::Utf8;

const UTF16: Encoding = Encoding::Utf16;

const UTF32: Encoding = Encoding::Utf32;

fn resolved(
    alloc: Global,
    text: &str,
    encoding: Encoding,
    line: u32,
    character: u32,
) -> Result<Option<usize>, AllocError>
    requires { length text.now ≤ 1000 }
{
    let lines = Lines::new(alloc, text)?;
    Ok(
        lines
            .resolve(text, encoding, Position { line, character })
            .ok(),
    )
}

fn positioned(
    alloc: Global,
    text: &str,
    encoding: Encoding,
    place: usize,
) -> Result<Option<(u32, u32)>, AllocError>
    requires { length text.now ≤ 1000 }
{
    let lines = Lines::new(alloc, text)?;
    if !lines.is_place(text, place) {
        return Ok(None);
    }
    let position = lines.position(text, encoding, place);
    Ok(Some((position.line, position.character)))
}

/// A CRLF, a lone CR and an LF: four lines.
const ENDS: &str = "a\r\nb\rc\n";

/// A line, a character, and the byte offset that they denote.
static ENDS_PLACES: [(u32, u32, usize); 13] = [
    (0, 0, 0),
    (0, 1, 1),
    (0, 2, 1),
    (0, 9, 1),
    (1, 0, 3),
    (1, 1, 4),
    (1, 2, 4),
    (2, 0, 5),
    (2, 1, 6),
    (3, 0, 7),
    (3, 5, 7),
    (4, 0, 7),
    (9, 9, 7),
];

/// A byte offset, and its exact position if it has one.
static ENDS_POSITIONS: [(usize, Option<(u32, u32)>); 8] = [
    (0, Some((0, 0))),
    (1, Some((0, 1))),
    (2, None),
    (3, Some((1, 0))),
    (4, Some((1, 1))),
    (5, Some((2, 0))),
    (6, Some((2, 1))),
    (7, Some((3, 0))),
];

/// Returns whether the lines and characters denote these byte offsets, and the offsets have these
/// positions.
fn has_places(alloc: Global, encoding: Encoding) -> Result<bool, AllocError> {
    for (line, character, place) in &ENDS_PLACES {
        if resolved(alloc, ENDS, encoding, *line, *character)? != Some(*place) {
            return Ok(false);
        }
    }
    for (place, position) in &ENDS_POSITIONS {
        if positioned(alloc, ENDS, encoding, *place)? != *position {
            return Ok(false);
        }
    }
    Ok(true)
}

#[test]
fn line_ends_of_three_kinds(rt: HostRuntime) -> Result<(), Fail> {
    for encoding in [UTF8, UTF16, UTF32] {
        assert!(rt; has_places(rt.alloc(), encoding)?, "{encoding:?}");
    }
    Ok(())
}

/// The last characters of one, two, three and four bytes, and the first of the next length: the
/// bytes of each, and its units in UTF-16.
static UNITS: [(char, u32, u32); 7] = [
    ('\u{7F}', 1, 1),
    ('\u{80}', 2, 1),
    ('\u{7FF}', 2, 1),
    ('\u{800}', 3, 1),
    ('\u{FFFF}', 3, 1),
    ('\u{10000}', 4, 2),
    ('\u{10FFFF}', 4, 2),
];

#[test]
fn characters_have_units(rt: HostRuntime) {
    for (c, bytes, code_units) in &UNITS {
        assert!(rt;
            Utf8::units(*c) == *bytes && Utf16::units(*c) == *code_units,
            "{c}"
        );
        assert_eq!(rt; Utf32::units(*c), 1);
    }
}

#[test]
fn positions_are_in_the_order_of_the_text(rt: HostRuntime) {
    let places = [(0, 7), (1, 0), (1, 3), (2, 0)].map(|(line, character)| Position {
        line,
        character,
    });
    assert!(rt; places.is_sorted() && Position::default() < places[0]);
    assert_eq!(rt; Encoding::default(), UTF16);
}

#[test]
fn an_encoding_is_read_by_its_name(rt: HostRuntime) {
    let parsed: Result<Encoding, UnknownEncoding> = "utf-8".parse();
    assert!(rt; parsed == Ok(Encoding::Utf8));
}
