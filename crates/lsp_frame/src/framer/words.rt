//! The words of a header's values: blanks, and the parameters of a Content-Type.

ghost use Rattle.std.specs.Prelude.{◌≡◌};
ghost use Rattle.std.specs.List.{list_all, slice_split};
ghost use Rattle.lsp_frame.specs.Charset.{trimmed, trimmed_start, trimmed_end, is_text, unquoted, is_utf8_name, is_good_parameter, is_semicolon, has_good_charset};

use memchr::memchr;

/// Removes the spaces and tabs at both ends.
pub(crate) fn trim(bytes: &[u8]) -> &[u8]
    ensures { result.now ≡ trimmed bytes.now }
{
    trim_end(trim_start(bytes))
}

fn trim_start(mut bytes: &[u8]) -> &[u8]
    ensures { result.now ≡ trimmed_start bytes.entry.now }
{
    while let [b' ' | b'\t', rest @ ..] = bytes {
        bytes = rest;
    }
    bytes
}

fn trim_end(mut bytes: &[u8]) -> &[u8]
    ensures { result.now ≡ trimmed_end bytes.entry.now }
{
    while let [rest @ .., b' ' | b'\t'] = bytes {
        bytes = rest;
    }
    bytes
}

/// Returns whether the bytes are this text, without regard to ASCII case.
pub(crate) fn is_text(text: &[u8], bytes: &[u8]) -> bool
    ensures { result ≡ is_text text.now bytes.now }
{
    bytes.eq_ignore_ascii_case(text)
}

fn unquote(bytes: &[u8]) -> &[u8]
    ensures { result.now ≡ unquoted bytes.now }
{
    match bytes {
        [b'"', inner @ .., b'"'] => inner,
        _ => bytes,
    }
}

fn is_utf8_name(bytes: &[u8]) -> bool
    ensures { result ≡ is_utf8_name bytes.now }
{
    is_text(b"utf-8", bytes) || is_text(b"utf8", bytes)
}

/// Returns whether a parameter of a Content-Type names no charset other than UTF-8.
fn is_good_parameter(part: &[u8]) -> bool
    ensures { result ≡ is_good_parameter part.now }
{
    let part = trim(part);
    let Some(at) = memchr(b'=', part) else {
        return true;
    };
    !is_text(b"charset", trim(&part[..at])) || is_utf8_name(unquote(trim(&part[at + 1..])))
}

/// Returns whether each part of these bytes, cut at each `;`, is such a parameter.
fn are_good_parameters(bytes: &[u8]) -> bool
    ensures { result ≡ list_all is_good_parameter (slice_split is_semicolon bytes.now) }
{
    let mut rest = bytes;
    while let Some(at) = memchr(b';', rest) {
        if !is_good_parameter(&rest[..at]) {
            return false;
        }
        rest = &rest[at + 1..];
    }
    is_good_parameter(rest)
}

/// Returns whether a Content-Type names no charset other than UTF-8.
pub(crate) fn has_good_charset(value: &[u8]) -> bool
    ensures { result ≡ has_good_charset value.now }
{
    match memchr(b';', value) {
        Some(at) => are_good_parameters(&value[at + 1..]),
        None => true,
    }
}
