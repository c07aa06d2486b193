//! Calls that run out of memory once and are called again, on texts in three blocks or in one. Each
//! test prints how many requests for memory were refused.

use super::{MOST, same_chunks};
use lsp_buffer::TextBuffer;
use lsp_samples::again;
use std::alloc::{AllocError, Global};
use std::test::Fail;

/// Where a change begins and ends, and what it inserts.
type Change = (usize, usize, &'static str);

/// Changes inside the first block, inside the last, in several, and one that joins two. The last
/// two are at the ends of the text.
static CHANGES: [Change; 8] = [
    (16, 16, "a"),
    (24, 40, ""),
    (9_600, 9_632, "\n\n\n"),
    (4_000, 9_000, "\u{1F600}"),
    (0, 11_200, "b\r\n"),
    (0, 4_000, ""),
    (0, 0, "b\r\n"),
    (11_200, 11_200, "b\r\n"),
];

/// What the text that is changed shares with another.
#[derive(Clone, Copy)]
enum Kind {
    /// It is a copy, so all its blocks.
    Copy,
    /// Nothing.
    Own,
    /// Nothing, and it is one block: the change cuts it.
    Moved,
}

/// Two equal texts with their bytes. One is in three blocks, the other is changed.
#[derive(Drop)]
struct Texts {
    buffer: TextBuffer,
    changed: TextBuffer,
    plain: String,
}

/// Makes the text that is changed.
fn to_change(
    alloc: Global,
    buffer: &TextBuffer,
    plain: &str,
    kind: Kind,
) -> Result<TextBuffer, AllocError> {
    if plain.len() > MOST {
        return Err(AllocError);
    }
    match kind {
        Kind::Copy => buffer.clone_in(alloc),
        Kind::Own => TextBuffer::from_str(alloc, plain),
        Kind::Moved => TextBuffer::new(alloc, String::from_str(alloc, plain)?),
    }
}

/// Makes two texts of 700 lines of sixteen bytes.
fn two_texts(alloc: Global, kind: Kind) -> Result<Texts, AllocError> {
    let plain = "0123456789\u{E9}ab\r\n".repeat(alloc, 700)?;
    if plain.len() > MOST {
        return Err(AllocError);
    }
    let buffer = TextBuffer::from_str(alloc, &plain)?;
    let changed = to_change(alloc, &buffer, &plain, kind)?;
    Ok(Texts {
        buffer,
        changed,
        plain,
    })
}

/// Changes a text.
fn put(text: &mut TextBuffer, (start, end, new): Change) -> Result<bool, AllocError> {
    let within = start <= end && text.len() <= MOST && new.len() <= MOST;
    if !within || !text.is_char_boundary(start) || !text.is_char_boundary(end) {
        return Ok(false);
    }
    text.replace_range(start, end, new)?;
    Ok(true)
}

/// Changes the one text, and again if it is out of memory. It is as it was then.
fn put_again(texts: &mut Texts, change: Change, refused: &mut usize) -> Result<bool, AllocError> {
    match put(&mut texts.changed, change) {
        Ok(is_put) => Ok(is_put),
        Err(_) => {
            *refused = refused.saturating_add(1);
            Ok(same_chunks(&texts.changed, &texts.plain) && put(&mut texts.changed, change)?)
        }
    }
}

/// Returns whether the one text is what a string is after a change, and the other is as it was.
fn is_put(alloc: Global, texts: &Texts, (start, end, new): Change) -> Result<bool, AllocError> {
    let mut wanted = String::from_str(alloc, &texts.plain)?;
    if start > end || !wanted.is_char_boundary(start) || !wanted.is_char_boundary(end) {
        return Ok(false);
    }
    wanted.replace_range(start..end, new)?;
    Ok(same_chunks(&texts.changed, &wanted) && same_chunks(&texts.buffer, &texts.plain))
}

/// Returns whether a change of the one text does what it does to a string, and leaves the other.
fn is_put_apart(
    alloc: Global,
    kind: Kind,
    change: Change,
    refused: &mut usize,
) -> Result<bool, AllocError> {
    let mut texts = again!(refused, AllocError, two_texts(alloc, kind))?;
    Ok(
        put_again(&mut texts, change, refused)?
            && again!(refused, AllocError, is_put(alloc, &texts, change))?,
    )
}

/// Returns the number of the first change of a text that goes wrong.
fn first_wrong(
    alloc: Global,
    kind: Kind,
    refused: &mut usize,
) -> Result<Option<usize>, AllocError> {
    for (number, change) in CHANGES.iter().enumerate() {
        if !is_put_apart(alloc, kind, *change, refused)? {
            return Ok(Some(number));
        }
    }
    Ok(None)
}

static KINDS: [Kind; 3] = [Kind::Copy, Kind::Own, Kind::Moved];

#[test]
fn refused_change_of_a_text(rt: HostRuntime) -> Result<(), Fail> {
    let mut refused: usize = 0;
    for kind in &KINDS {
        assert_eq!(rt; first_wrong(rt.alloc(), *kind, &mut refused)?, None);
    }
    println!(rt; "refused {refused}")?;
    Ok(())
}

/// How a part of a text is read.
#[derive(Clone, Copy)]
enum Read {
    /// By `to_string`.
    Whole,
    /// By `slice`.
    Slice,
    /// By `push_range`, after what comes before byte 4,000, which is in the first block.
    Appended,
    /// By `Display`.
    Shown,
}

/// A read, and where the part that it reads begins and ends.
type Row = (Read, usize, usize);

static READS: [Row; 7] = [
    (Read::Whole, 0, 11_200),
    (Read::Slice, 4_090, 4_106),
    (Read::Slice, 0, 11_200),
    (Read::Slice, 11_200, 11_200),
    (Read::Appended, 0, 4_106),
    (Read::Appended, 0, 11_200),
    (Read::Shown, 0, 11_200),
];

/// Copies the bytes from `start` to `end`.
fn sliced(
    alloc: Global,
    text: &TextBuffer,
    start: usize,
    end: usize,
) -> Result<Option<String>, AllocError> {
    if start > end || !text.is_char_boundary(start) || !text.is_char_boundary(end) {
        return Ok(None);
    }
    Ok(Some(text.slice(alloc, start, end)?))
}

/// Appends the bytes up to `end` to those before byte 4,000.
fn appended(alloc: Global, text: &TextBuffer, end: usize) -> Result<Option<String>, AllocError> {
    let Some(mut out) = sliced(alloc, text, 0, 4_000)? else {
        return Ok(None);
    };
    if end < 4_000 || !text.is_char_boundary(4_000) || !text.is_char_boundary(end) {
        return Ok(None);
    }
    text.push_range(&mut out, 4_000, end)?;
    Ok(Some(out))
}

/// Reads a part of a text.
fn part_of(
    alloc: Global,
    text: &TextBuffer,
    (read, start, end): Row,
) -> Result<Option<String>, AllocError> {
    match read {
        Read::Whole => Ok(Some(text.to_string(alloc)?)),
        Read::Slice => sliced(alloc, text, start, end),
        Read::Appended => appended(alloc, text, end),
        Read::Shown => Ok(Some(format!(in alloc; "{text}")?)),
    }
}

/// Reads a part of a text, and again if it is out of memory. Returns whether it is the string's.
fn is_read(
    alloc: Global,
    texts: &Texts,
    row: Row,
    refused: &mut usize,
) -> Result<bool, AllocError> {
    let Some(part) = again!(refused, AllocError, part_of(alloc, &texts.changed, row))? else {
        return Ok(false);
    };
    Ok(texts.plain.as_bytes().get(row.1..row.2) == Some(part.as_bytes()))
}

/// Returns the number of the first read that goes wrong.
fn first_misread(alloc: Global, refused: &mut usize) -> Result<Option<usize>, AllocError> {
    let texts = again!(refused, AllocError, two_texts(alloc, Kind::Own))?;
    for (number, row) in READS.iter().enumerate() {
        if !is_read(alloc, &texts, *row, refused)? {
            return Ok(Some(number));
        }
    }
    Ok(None)
}

#[test]
fn refused_reads_of_a_text(rt: HostRuntime) -> Result<(), Fail> {
    let mut refused: usize = 0;
    assert_eq!(rt; first_misread(rt.alloc(), &mut refused)?, None);
    println!(rt; "refused {refused}")?;
    Ok(())
}
