//! Names of files as a person types them, and URIs that end so.

ghost use Rattle.std.specs.Prelude.{◌≡◌, ◌||◌, ◌&&◌, codes, drop, length, take};
ghost use Rattle.std.specs.Str.{bytes_eq};
ghost use Rattle.percent_encoding.specs.Percent.{percent_decode};
ghost use Rattle.line_diff.specs.Names.{bare, ends_in, ends_so, is_exactly, is_file};

use percent_encoding::percent_decode;

/// How the URI of a file begins.
const FILE: &[u8] = b"file://";

/// Returns whether a name begins with `./`.
fn has_dot(name: &[u8]) -> bool
    ensures { result ≡ bytes_eq (take 2 name.now) (codes "./") }
{
    name.starts_with(b"./")
}

/// Returns a name without each `./` at its front.
fn bare(name: &[u8]) -> &[u8]
    ensures { result.now ≡ bare name.now }
{
    let mut rest = name;
    'dots: while has_dot(rest) {
        rest = &rest[2..];
    }
    rest
}

/// Returns how many bytes a URI has, with each escape read.
fn decoded_len(uri: &[u8]) -> usize
    ensures { result ≡ length (percent_decode uri.now) }
{
    let mut count = 0;
    for _byte in percent_decode(uri) {
        count += 1;
    }
    count
}

/// Returns whether a name comes after so many bytes of a URI with each escape read, and nothing after
/// it.
fn decodes_after(uri: &[u8], skipped: usize, name: &[u8]) -> bool
    ensures { result ≡ bytes_eq (drop skipped (percent_decode uri.now)) name.now }
{
    let mut before = skipped;
    let mut rest = name;
    for byte in percent_decode(uri) {
        if before > 0 {
            before -= 1;
            continue;
        }
        match rest.split_first() {
            Some((first, later)) if *first == byte => rest = later,
            _ => return false,
        }
    }
    rest.is_empty()
}

/// Returns whether a text ends in another one.
fn ends_in(text: &[u8], ending: &[u8]) -> bool
    ensures { result ≡ ends_in text.now ending.now }
{
    text.ends_with(ending)
}

/// Returns whether a URI ends in a name, with each escape read.
fn decodes_to(uri: &[u8], name: &[u8]) -> bool
    ensures { result ≡ ends_in (percent_decode uri.now) name.now }
{
    decodes_after(uri, decoded_len(uri).saturating_sub(name.len()), name)
}

/// Returns whether a URI ends in a name, or would with each escape read. Allocates nothing; linear
/// in both.
#[tactic(auto, unfolding(crate::specs::Names::ends_so))]
pub fn ends_so(uri: &str, name: &str) -> bool
    ensures { result ≡ ends_so uri.now name.now }
{
    let name = bare(name.as_bytes());
    ends_in(uri.as_bytes(), name) || decodes_to(uri.as_bytes(), name)
}

/// Returns whether a URI is that of a file.
fn is_file(uri: &[u8]) -> bool
    ensures { result ≡ is_file uri.now }
{
    uri.starts_with(FILE)
}

/// Returns whether a URI is this one, or that of the file with this path, or would be with each
/// escape read. Allocates nothing; linear in both.
#[tactic(auto, unfolding(crate::specs::Names::is_exactly))]
pub fn is_exactly(uri: &str, name: &str) -> bool
    ensures { result ≡ is_exactly uri.now name.now }
{
    let (uri, name) = (uri.as_bytes(), name.as_bytes());
    uri == name
        || decodes_after(uri, 0, name)
        || (is_file(uri) && decodes_after(uri, FILE.len(), name))
}
