//! Values as `Display` shows them.

use std::alloc::{AllocError, Global};
use std::fmt::Display;

/// Returns whether a value is shown as this text.
pub fn is_shown<T: Display>(alloc: Global, value: &T, text: &str) -> Result<bool, AllocError> {
    let shown = format!(in alloc; "{value}")?;
    Ok(shown.as_str() == text)
}

/// Returns the first of these texts that isn't how its value is shown.
pub fn wrong_text<T: Display>(
    alloc: Global,
    rows: &[(T, &'static str)],
) -> Result<Option<&'static str>, AllocError> {
    for (value, text) in rows {
        if !is_shown(alloc, value, text)? {
            return Ok(Some(*text));
        }
    }
    Ok(None)
}
