//! Calls that run out of memory once, and are called again.
ghost use Rattle.std.specs.Prelude.{◌≤◌, ◌+◌, IfOk, length, string_bytes};
ghost use Rattle.lsp_text.specs.LineStarts.{AreLinesOf};
ghost use Rattle.lsp_text.specs.Splice.{IsReplaced};

use lsp_samples::again;
use lsp_text::{Lines, Starts};
use std::alloc::{AllocError, Global};
use std::test::Fail;

/// An edit, with the line starts before and after it.
struct Edit {
    text: &'static str,
    starts: &'static [usize],
    from: usize,
    to: usize,
    inserted: &'static str,
    then: &'static [usize],
}

static EDITS: [Edit; 3] = [
    Edit {
        text: "a\nb\r\nc\rd\n\n\r\n\u{1F600}\n\r",
        starts: &[0, 2, 5, 7, 9, 10, 12, 17, 18],
        from: 1,
        to: 1,
        inserted: "\r\n\n\r",
        then: &[0, 3, 4, 6, 9, 11, 13, 14, 16, 21, 22],
    },
    Edit {
        text: "a\nb\nc",
        starts: &[0, 2, 4],
        from: 2,
        to: 3,
        inserted: "",
        then: &[0, 2, 3],
    },
    Edit {
        text: "\n\n\n",
        starts: &[0, 1, 2, 3],
        from: 3,
        to: 3,
        inserted: "\n\n",
        then: &[0, 1, 2, 3, 4, 5],
    },
];

/// Returns the text after an edit.
fn edited(
    alloc: Global,
    old: &str,
    from: usize,
    to: usize,
    inserted: &str,
) -> Result<String, AllocError>
    ensures replaced { IfOk result
        (λ text. IsReplaced old.now (string_bytes text) from to (length inserted.now)) }
    ensures size { IfOk result
        (λ text. length (string_bytes text) ≤ length old.now + length inserted.now) }
{
    if from > to || !old.is_char_boundary(from) || !old.is_char_boundary(to) {
        return Err(AllocError);
    }
    let mut text = String::new(alloc);
    text.push_str(&old[..from])?;
    text.push_str(inserted)?;
    text.push_str(&old[to..])?;
    Ok(text)
}

/// Returns whether these are the line starts.
fn starts_are(lines: &Lines, starts: &[usize]) -> bool {
    let mut looks = lines.looks();
    if looks.len() != starts.len() {
        return false;
    }
    for (line, start) in starts.iter().enumerate() {
        if line >= looks.len() || looks.at(line) != *start {
            return false;
        }
    }
    true
}

/// Finds the lines of a text. Out of memory is counted, and the call made again.
fn lines_again(alloc: Global, text: &str, refused: &mut usize) -> Result<Lines, AllocError>
    requires { length text.now ≤ 1000 }
    ensures { IfOk result (λ lines. AreLinesOf lines text.now) }
{
    again!(refused, AllocError, Lines::new(alloc, text))
}

/// Returns whether `splice` leaves the line starts of an edit. Out of memory changes nothing, and
/// the call is made again.
fn is_spliced(alloc: Global, edit: &Edit, refused: &mut usize) -> Result<bool, AllocError> {
    let (old, from, to, len) = (edit.text, edit.from, edit.to, edit.inserted.len());
    if old.len() > 1000 || len > 1000 {
        return Ok(false);
    }
    let text = again!(
        refused,
        AllocError,
        edited(alloc, old, from, to, edit.inserted)
    )?;
    let mut lines = lines_again(alloc, old, refused)?;
    if !starts_are(&lines, edit.starts) {
        return Ok(false);
    }
    if lines.splice(&text, from, to, len).is_err() {
        *refused = refused.saturating_add(1);
        if !starts_are(&lines, edit.starts) {
            return Ok(false);
        }
        lines.splice(&text, from, to, len)?;
    }
    Ok(starts_are(&lines, edit.then))
}

#[test]
fn refused_new_and_splice(rt: HostRuntime) -> Result<(), Fail> {
    let mut refused: usize = 0;
    for edit in &EDITS {
        assert!(rt;
            is_spliced(rt.alloc(), edit, &mut refused)?,
            "{:?}",
            edit.text
        );
    }
    println!(rt; "refused {refused}")?;
    Ok(())
}
