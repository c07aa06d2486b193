//! What a line of JSON is put together from.

ghost use Rattle.std.specs.Prelude.{◌≡◌, ◌++◌, [], if◌then◌else◌, OnOk, decimal, option_map};
ghost use Rattle.std.specs.Fmt.{signed_decimal};
ghost use Rattle.log_report.specs.Trace.{json_string, member};

use itoa::Buffer;
use json::Writer;
use std::alloc::{AllocError, Global};
use std::mem::replace;

/// Writes a member with a text, if there is one. `front` is the comma and the name.
pub fn push_text(
    alloc: Global,
    buffer: &mut Vec<u8>,
    front: &str,
    text: Option<&str>,
) -> Result<(), AllocError>
    ensures { OnOk result (buffer.new.items ≡ buffer.old.items
        ++ member front.now (option_map json_string (option_map (λ text. text.now) text.entry))) }
{
    let Some(text) = text else {
        return Ok(());
    };
    buffer.extend_from_slice(front.as_bytes())?;
    push_json_string(alloc, buffer, text)
}

/// Writes a text as a JSON string.
pub fn push_json_string(alloc: Global, buffer: &mut Vec<u8>, text: &str) -> Result<(), AllocError>
    ensures { OnOk result (buffer.new.items ≡ buffer.old.items ++ json_string text.now) }
{
    let mut writer = Writer::new(replace(buffer, Vec::new(alloc)));
    writer.string(text)?;
    *buffer = writer.into_inner();
    Ok(())
}

/// Writes a number in decimal.
pub fn push_number(buffer: &mut Vec<u8>, number: u64) -> Result<(), AllocError>
    ensures { OnOk result (buffer.new.items ≡ buffer.old.items ++ decimal number) }
{
    let mut digits = Buffer::new();
    buffer.extend_from_slice(digits.format(number).as_bytes())
}

/// Writes a whole number in decimal, with its sign if it is negative.
pub fn push_signed(buffer: &mut Vec<u8>, number: i64) -> Result<(), AllocError>
    ensures { OnOk result (buffer.new.items ≡ buffer.old.items ++ signed_decimal number) }
{
    let mut digits = Buffer::new();
    buffer.extend_from_slice(digits.format(number).as_bytes())
}

/// Writes words as they are.
pub fn push_words(buffer: &mut Vec<u8>, words: &str) -> Result<(), AllocError>
    ensures { OnOk result (buffer.new.items ≡ buffer.old.items ++ words.now) }
{
    buffer.extend_from_slice(words.as_bytes())
}

/// Writes words, if something holds.
pub fn push_if(buffer: &mut Vec<u8>, holds: bool, words: &str) -> Result<(), AllocError>
    ensures { OnOk result
        (buffer.new.items ≡ buffer.old.items ++ (if holds then words.now else [])) }
{
    if holds {
        push_words(buffer, words)?;
    }
    Ok(())
}
