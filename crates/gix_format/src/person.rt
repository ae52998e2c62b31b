//! Who wrote a commit, and who committed it: a name, an address between `<` and `>`, seconds, and how far the clock was ahead of UTC.
ghost use Rattle.std.specs.Prelude.{◌≡◌, ◌==◌, codes};
ghost use Rattle.std.specs.List.{after_first};
ghost use Rattle.gix_statement.specs.Formats.{header, name_in, address_in, lines_in, offset};

use crate::subject::{first_line, trimmed, up_to};
use memchr::memchr;

/// What the first line of a header says that begins with a word, and nothing where there is none. The first empty line ends the header.
fn header<'t>(text: &'t [u8], word: &[u8]) -> &'t [u8]
    ensures { result.now ≡ header word.now (lines_in text.now) }
{
    let mut left = text;
    while !left.is_empty() {
        let (first, rest) = first_line(left);
        if first.is_empty() {
            break;
        }
        if first.starts_with(word) {
            return &first[word.len()..];
        }
        left = rest;
    }
    &[]
}

/// What the text of a commit says of its author.
pub(crate) fn author(text: &[u8]) -> &[u8]
    ensures { result.now ≡ header (codes "author ") (lines_in text.now) }
{
    header(text, b"author ")
}

/// What the text of a commit says of its committer.
pub(crate) fn committer(text: &[u8]) -> &[u8]
    ensures { result.now ≡ header (codes "committer ") (lines_in text.now) }
{
    header(text, b"committer ")
}

/// What is behind the first such byte, or nothing.
fn behind(text: &[u8], byte: u8) -> &[u8]
    ensures { result.now ≡ after_first (λ b. b == byte) text.now }
{
    match memchr(byte, text) {
        None => &[],
        Some(end) => &text[end + 1..],
    }
}

/// The name: what is before the first `<`, without white space at its end.
pub(crate) fn name_in(person: &[u8]) -> &[u8]
    ensures { result.now ≡ name_in person.now }
{
    trimmed(up_to(person, b'<'))
}

/// The address: what is between the first `<` and the next `>`.
pub(crate) fn address_in(person: &[u8]) -> &[u8]
    ensures { result.now ≡ address_in person.now }
{
    up_to(behind(person, b'<'), b'>')
}

/// What should be how far the clock was ahead of UTC: the last five bytes behind the `>`, without white space at the end. For `-0000` it is
/// `+0000`.
pub(crate) fn offset(person: &[u8]) -> &[u8]
    ensures { result.now ≡ offset person.now }
{
    let rest = trimmed(behind(person, b'>'));
    let last = &rest[rest.len().saturating_sub(5)..];
    if last == b"-0000".as_slice() {
        b"+0000"
    } else {
        last
    }
}
