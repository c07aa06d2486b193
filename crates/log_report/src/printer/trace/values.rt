//! The values of a line of `trace`, after its number.

ghost use Rattle.std.specs.Prelude.{◌≡◌, ◌&&◌, ◌++◌, OnOk, codes};
ghost use Rattle.std.specs.Fmt.{signed_decimal};
ghost use Rattle.log_report.specs.Check.{verdict_word};
ghost use Rattle.log_report.specs.Trace.{body_json, member, text_json};
ghost use Rattle.log_session.specs.OneLine.{one_line};
ghost use Rattle.log_report.specs.Trace.{version_json};
ghost use Rattle.log_report.specs.inside.Facts.{canonical_json};
ghost use Rattle.log_session.specs.inside.Verdicts.{verdict_view};

use crate::members::{push_json_string, push_signed};
use crate::printer::check::push_verdict;
use log_session::{Appended, Verdict};
use lsp_store::Document;
use std::alloc::{AllocError, Global};

/// Writes the word of `check`.
pub(crate) fn push_word(buffer: &mut Vec<u8>, verdict: &Verdict) -> Result<(), AllocError>
    ensures { OnOk result (buffer.new.items ≡ buffer.old.items ++ codes ",\"word\":\""
        ++ verdict_word (verdict_view verdict.now) ++ codes "\"") }
{
    buffer.extend_from_slice(b",\"word\":\"")?;
    push_verdict(buffer, verdict)?;
    buffer.extend_from_slice(b"\"")
}

/// Writes the version of an open document.
pub(crate) fn push_version(
    buffer: &mut Vec<u8>,
    document: &Option<Document<'_>>,
) -> Result<(), AllocError>
    ensures { OnOk result (buffer.new.items ≡ buffer.old.items
        ++ member (codes ",\"version\":") (version_json document.now)) }
{
    match document {
        Some(document) => push_current(buffer, document.version()),
        None => Ok(()),
    }
}

/// Writes the member `version`.
fn push_current(buffer: &mut Vec<u8>, version: i32) -> Result<(), AllocError>
    ensures { OnOk result (buffer.new.items ≡ buffer.old.items
        ++ codes ",\"version\":" ++ signed_decimal version) }
{
    buffer.extend_from_slice(b",\"version\":")?;
    push_signed(buffer, i64::from(version))
}

/// Writes the canonical message, if its body was appended.
pub(crate) fn push_canonical(
    buffer: &mut Vec<u8>,
    appended: Option<Appended>,
    canonical: &[u8],
) -> Result<(), AllocError>
    ensures { OnOk result (buffer.new.items ≡ buffer.old.items
        ++ member (codes ",\"canonical\":") (canonical_json appended canonical.now)) }
{
    match appended {
        Some(Appended::Body) => push_message(buffer, canonical),
        Some(Appended::TooLong) | None => Ok(()),
    }
}

/// Writes the member `canonical`.
fn push_message(buffer: &mut Vec<u8>, canonical: &[u8]) -> Result<(), AllocError>
    ensures { OnOk result (buffer.new.items ≡ buffer.old.items
        ++ codes ",\"canonical\":" ++ canonical.now) }
{
    buffer.extend_from_slice(b",\"canonical\":")?;
    buffer.extend_from_slice(canonical)
}

/// Writes the text of an open document, if it is asked for.
pub(crate) fn push_text(
    alloc: Global,
    buffer: &mut Vec<u8>,
    is_asked: bool,
    document: &Option<Document<'_>>,
) -> Result<(), AllocError>
    ensures { OnOk result (buffer.new.items ≡ buffer.old.items
        ++ member (codes ",\"text\":") (text_json is_asked document.now)) }
{
    if !is_asked {
        return Ok(());
    }
    let Some(document) = document else {
        return Ok(());
    };
    buffer.extend_from_slice(b",\"text\":")?;
    let text = document.text();
    match text.as_str() {
        Some(text) => push_json_string(alloc, buffer, text),
        None => push_json_string(alloc, buffer, &text.to_string(alloc)?),
    }
}

/// Writes a body, if it is asked for.
pub(crate) fn push_body(buffer: &mut Vec<u8>, is_asked: bool, body: &[u8]) -> Result<(), AllocError>
    ensures { OnOk result (buffer.new.items ≡ buffer.old.items
        ++ member (codes ",\"body\":") (body_json is_asked body.now)) }
{
    if !is_asked {
        return Ok(());
    }
    buffer.extend_from_slice(b",\"body\":")?;
    push_one_line(buffer, body)
}

/// Writes bytes without their line feeds and carriage returns.
fn push_one_line(buffer: &mut Vec<u8>, bytes: &[u8]) -> Result<(), AllocError>
    ensures { OnOk result (buffer.new.items ≡ buffer.old.items ++ one_line bytes.now) }
{
    let mut next = 0;
    'bytes: while next < bytes.len() {
        let byte = bytes[next];
        if byte != b'\n' && byte != b'\r' {
            buffer.push(byte)?;
        }
        next += 1;
    }
    Ok(())
}
