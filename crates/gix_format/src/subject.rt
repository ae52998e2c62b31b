//! The subject of a commit, as `git log` writes it for `%s`.
ghost use Rattle.std.specs.Prelude.{◌≡◌, ◌≢◌, ◌<◌, ◌⊎◌, ◌==◌, ◌||◌, ℕ, List, [], ◌∷◌, ◌++◌, length, true, OnOk, IsOk};
ghost use Rattle.std.specs.List.{before_first};
ghost use Rattle.gix_statement.specs.Formats.{message, lines_in, trimmed};
ghost use Rattle.gix_format.specs.Pieces.{subject_text};

use memchr::{memchr, memchr2};
use std::alloc::AllocError;

/// What is before the first such byte, or the whole text.
pub(crate) fn up_to(text: &[u8], byte: u8) -> &[u8]
    ensures { result.now ≡ before_first (λ b. b == byte) text.now }
{
    match memchr(byte, text) {
        None => text,
        Some(end) => &text[..end],
    }
}

/// The message of a commit that has this text: from the end of the first empty line on, up to a byte 0. A newline or a byte 0 ends a line.
fn message(text: &[u8]) -> &[u8]
    ensures { result.now ≡ message true text.now }
{
    let mut left = text;
    while let Some(end) = memchr2(b'\n', 0, left) {
        if end == 0 {
            return up_to(left, 0);
        }
        left = &left[end..][1..];
    }
    &[]
}

/// The first line of a text, and what is behind the newline or the byte 0 that ends it.
pub(crate) fn first_line(text: &[u8]) -> (&[u8], &[u8])
    ensures lines { (lines_in text.now ≡ result.0.now ∷ lines_in result.1.now)
        ⊎ ((lines_in text.now ≡ result.0.now ∷ []) × (result.1.now ≡ [])) }
    ensures shorter { text.now ≢ [] → length result.1.now < length text.now }
{
    match memchr2(b'\n', 0, text) {
        None => (text, &[]),
        Some(end) => (&text[..end], &text[end + 1..]),
    }
}

/// Whether a byte is a space, a tab or a carriage return.
fn is_white(byte: u8) -> bool
    ensures { result ≡ (byte == 32 || byte == 9 || byte == 13) }
{
    matches!(byte, b' ' | b'\t' | b'\r')
}

/// A line without the white space at its end.
pub(crate) fn trimmed(line: &[u8]) -> &[u8]
    ensures { result.now ≡ trimmed line.now }
{
    let mut left = line;
    while let [front @ .., last] = left {
        if !is_white(*last) {
            break;
        }
        left = front;
    }
    left
}

/// Adds the subject of a commit that has this text: the lines of its message from the first that isn't blank up to a blank one, each without
/// the spaces, tabs and carriage returns at its end, and with a space before each but the first.
///
/// # Errors
///
/// Where memory runs out. What was added then is a beginning of the subject, or nothing.
pub(crate) fn add_subject(line: &mut Vec<u8>, text: &[u8]) -> Result<(), AllocError>
    ensures whole { OnOk result (line.new.items ≡ line.old.items ++ subject_text text.now) }
    ensures begun { (added more : List ℕ) × (line.new.items ≡ line.old.items ++ added) × (added ++ more ≡ subject_text text.now) }
    ensures succeeds { subject_text text.now ≡ [] → IsOk result }
{
    let mut left = message(text);
    let mut has_begun = false;
    while !left.is_empty() {
        let (first, rest) = first_line(left);
        let shown = trimmed(first);
        if !shown.is_empty() {
            if has_begun {
                line.push(b' ')?;
            }
            line.extend_from_slice(shown)?;
            has_begun = true;
        } else if has_begun {
            return Ok(());
        }
        left = rest;
    }
    Ok(())
}

#[cfg(test)]
mod tests {
    use super::*;
    use std::test::Fail;

    /// What is behind the lines for the tree, the author and the committer, and what git writes as its subject.
    const CASES: &[(&[u8], &[u8])] = &[
        (b"\nhello\n", b"hello"),
        (
            b"\n\n  \n\t\nhello  \n world \r\nthird\n\nbody\n",
            b"hello  world third",
        ),
        (b"\n  lead\n", b"  lead"),
        (b"", b""),
        (b"\n", b""),
        (b"\n\n\n", b""),
        (b"\nx\n \ny\n", b"x"),
        (b"\nabc\x0bd\x0b\nz\n", b"abc\x0bd\x0b z"),
        (b"\nabc\x0c\nz", b"abc\x0c z"),
        (b"\n\r\nabc\r\ndef", b"abc def"),
        (b"gpgsig a\n b\n \n c\n\nsubj\n", b"subj"),
        (b"\nab\0cd\nef\n", b"ab"),
        (b"x\0y\n\nsubj\n", b"subj"),
        (b"x\0\nsubj\n", b"subj"),
        (b"\0\nsubj\n", b""),
        (b"\0\n\nsubj\n", b""),
        (b"\n\0\nsubj\n", b""),
        (b"\n\n\0", b""),
    ];

    #[test]
    fn subjects(rt: HostRuntime) -> Result<(), Fail> {
        let mut text = Vec::new(rt.alloc());
        let mut line = Vec::new(rt.alloc());
        for (behind, subject) in CASES {
            text.clear();
            text.extend_from_slice(b"tree abab\nauthor A <a> 0\ncommitter A <a> 0\n")?;
            text.extend_from_slice(*behind)?;
            line.clear();
            add_subject(&mut line, &text)?;
            assert_eq!(rt; line.as_slice(), *subject, "{behind:?}");
        }
        Ok(())
    }
}
