//! A line, with what can't be seen in it.

ghost use Rattle.std.specs.Prelude.{◌≡◌, ◌≤◌, ◌++◌, IfOk, OnOk, drop, flat_map, length, option_map, take};
ghost use Rattle.std.specs.Char.{encode_utf8};
ghost use Rattle.std.specs.Char.Escape.{escape_unicode};
ghost use Rattle.std.specs.Str.{chars, encode_utf8_all};
ghost use Rattle.line_diff.specs.Common.{common_front};
ghost use Rattle.line_diff.specs.Shown.{dots, is_ignorable, is_unseen, quoted, shown, shown_around, shown_char, shown_part, sign_of};

use std::alloc::{AllocError, Global};

/// A line with more characters is cut.
const LONGEST: usize = 200;

/// Of a line that is cut, so many characters before an index are shown, and so many at most.
const BEFORE: usize = 40;

const SHOWN: usize = 160;

/// Returns the short escape of a character in a string, if it has one.
#[tactic(auto, unfolding(crate::specs::Shown::sign_of))]
fn sign_of(character: char) -> Option<&'static str>
    ensures { option_map (λ sign. sign.now) result ≡ sign_of character }
{
    match character {
        '\n' => Some("\\n"),
        '\r' => Some("\\r"),
        '\t' => Some("\\t"),
        '"' => Some("\\\""),
        '\\' => Some("\\\\"),
        '\0' => Some("\\0"),
        _ => None,
    }
}

/// Returns whether a character that is neither a control nor white space shows nothing by itself.
#[tactic(auto, unfolding(crate::specs::Shown::is_ignorable))]
fn is_ignorable(character: char) -> bool
    ensures { result ≡ is_ignorable character }
{
    matches!(
        character,
        '\u{ad}'
            | '\u{34f}'
            | '\u{61c}'
            | '\u{115f}'..='\u{1160}'
            | '\u{17b4}'..='\u{17b5}'
            | '\u{180b}'..='\u{180f}'
            | '\u{200b}'..='\u{200f}'
            | '\u{202a}'..='\u{202e}'
            | '\u{2060}'..='\u{206f}'
            | '\u{2800}'
            | '\u{3164}'
            | '\u{fe00}'..='\u{fe0f}'
            | '\u{feff}'
            | '\u{ffa0}'
            | '\u{fff0}'..='\u{fffb}'
            | '\u{13430}'..='\u{1343f}'
            | '\u{1bca0}'..='\u{1bca3}'
            | '\u{1d173}'..='\u{1d17a}'
            | '\u{e0000}'..='\u{e0fff}'
    )
}

/// Returns whether a character shows nothing but a gap, turns text around or controls a terminal.
#[tactic(auto, unfolding(crate::specs::Shown::is_unseen))]
fn is_unseen(character: char) -> bool
    ensures { result ≡ is_unseen character }
{
    character != ' '
        && (character.is_control() || character.is_whitespace() || is_ignorable(character))
}

/// Writes a character itself.
fn push_plain(buffer: &mut Vec<u8>, character: char) -> Result<(), AllocError>
    ensures { OnOk result (buffer.new.items ≡ buffer.old.items ++ encode_utf8 character) }
{
    let mut units = [0; 4];
    buffer.extend_from_slice(character.encode_utf8(&mut units).as_bytes())
}

/// Writes the number of a character, as in `\u{a0}`.
fn push_number_escape(buffer: &mut Vec<u8>, character: char) -> Result<(), AllocError>
    ensures { OnOk result
        (buffer.new.items ≡ buffer.old.items ++ encode_utf8_all (escape_unicode character)) }
{
    for each in character.escape_unicode() {
        push_plain(buffer, each)?;
    }
    Ok(())
}

/// Writes a character, or the escape that stands for it.
fn push_character(buffer: &mut Vec<u8>, character: char) -> Result<(), AllocError>
    ensures { OnOk result (buffer.new.items ≡ buffer.old.items ++ shown_char character) }
{
    match sign_of(character) {
        Some(sign) => buffer.extend_from_slice(sign.as_bytes()),
        None if is_unseen(character) => push_number_escape(buffer, character),
        None => push_plain(buffer, character),
    }
}

/// Writes a line in quotes, with what can't be seen in it as in a string of Rust. Fails only where
/// memory runs out.
pub fn push_shown(buffer: &mut Vec<u8>, line: &str) -> Result<(), AllocError>
    ensures { OnOk result (buffer.new.items ≡ buffer.old.items ++ shown line.now) }
{
    buffer.push(b'"')?;
    for character in line.chars() {
        push_character(buffer, character)?;
    }
    buffer.push(b'"')?;
    Ok(())
}

/// Returns the characters of a line. Fails only where memory runs out.
pub fn chars_of(alloc: Global, line: &str) -> Result<Vec<char>, AllocError>
    ensures { IfOk result (λ characters. characters.items ≡ chars line.now) }
{
    let mut characters = Vec::new(alloc);
    for character in line.chars() {
        characters.push(character)?;
    }
    Ok(characters)
}

/// Returns how many characters are equal from the first on.
pub fn equal_front(characters: &[char], others: &[char]) -> usize
    ensures value { result ≡ common_front characters.now others.now }
    ensures within { result ≤ length characters.now }
{
    let most = characters.len().min(others.len());
    for count in 0..most {
        if characters[count] != others[count] {
            return count;
        }
    }
    most
}

/// Writes characters, with what stands for some.
fn push_characters(buffer: &mut Vec<u8>, characters: &[char]) -> Result<(), AllocError>
    ensures { OnOk result
        (buffer.new.items ≡ buffer.old.items ++ flat_map shown_char characters.now) }
{
    for character in characters {
        push_character(buffer, *character)?;
    }
    Ok(())
}

/// Writes characters in quotes.
fn push_quoted(buffer: &mut Vec<u8>, characters: &[char]) -> Result<(), AllocError>
    ensures { OnOk result (buffer.new.items ≡ buffer.old.items ++ quoted characters.now) }
{
    buffer.extend_from_slice(b"\"")?;
    push_characters(buffer, characters)?;
    buffer.extend_from_slice(b"\"")
}

/// Writes dots where characters are left out.
fn push_dots(buffer: &mut Vec<u8>, are_left_out: bool) -> Result<(), AllocError>
    ensures { OnOk result (buffer.new.items ≡ buffer.old.items ++ dots are_left_out) }
{
    if are_left_out {
        return buffer.extend_from_slice(b"..");
    }
    Ok(())
}

/// Returns the characters from an index on.
fn from_index(characters: &[char], start: usize) -> &[char]
    ensures { result.now ≡ drop start characters.now }
{
    if start < characters.len() {
        &characters[start..]
    } else {
        &[]
    }
}

/// Returns the first characters, so many or all.
fn first_of(characters: &[char], count: usize) -> &[char]
    ensures { result.now ≡ take count characters.now }
{
    if count < characters.len() {
        &characters[..count]
    } else {
        characters
    }
}

/// Writes some characters of a line in quotes, from an index on.
fn push_part(buffer: &mut Vec<u8>, start: usize, characters: &[char]) -> Result<(), AllocError>
    ensures { OnOk result
        (buffer.new.items ≡ buffer.old.items ++ shown_part start characters.now) }
{
    let rest = from_index(characters, start);
    push_dots(buffer, start > 0)?;
    push_quoted(buffer, first_of(rest, SHOWN))?;
    push_dots(buffer, rest.len() > SHOWN)
}

/// Writes the characters of a line in quotes; of a long one those around an index.
#[tactic(auto, unfolding(crate::specs::Shown::shown_around))]
pub fn push_around(
    buffer: &mut Vec<u8>,
    index: usize,
    characters: &[char],
) -> Result<(), AllocError>
    ensures { OnOk result
        (buffer.new.items ≡ buffer.old.items ++ shown_around index characters.now) }
{
    if characters.len() > LONGEST {
        push_part(buffer, index.saturating_sub(BEFORE), characters)
    } else {
        push_quoted(buffer, characters)
    }
}
