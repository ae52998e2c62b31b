//! The format that a text is, or what is wrong with it.
ghost use Rattle.std.specs.Prelude.{◌≡◌, IfOk, Some};
ghost use Rattle.gix_words.specs.Formats.{format_of};

use crate::Misuse;
use gix_words::Format;
use std::alloc::Global;

/// The format that a text is.
///
/// # Errors
/// Why it is none that a line may have: it is empty, or too long, or has a field that isn't known, of which the first is named. `Memory`.
pub(crate) fn format_of(alloc: Global, text: &str) -> Result<Format, Misuse>
    ensures { IfOk result (λ format. format_of text.now ≡ Some format) }
{
    if text.is_empty() {
        return Err(Misuse::NoFormat);
    }
    if let Some(format) = Format::read(text.as_bytes()) {
        return Ok(format);
    }
    match unknown_field(text) {
        Some(field) => Err(Misuse::Field(String::from_str(alloc, field)?)),
        None => Err(Misuse::LongFormat(text.len())),
    }
}

/// The first `%` of a text with what follows it, where that is no field.
fn unknown_field(text: &str) -> Option<&str> {
    let mut left = text;
    for _ in 0..text.len() {
        let (_, behind) = left.split_once('%')?;
        left = match behind.as_bytes() {
            [b'%' | b'n' | b'H' | b'h' | b'T' | b'P' | b's', ..] => behind.get(1..)?,
            [b'a', b'n' | b'e', ..] | [b'c', b't' | b'i', ..] => behind.get(2..)?,
            _ => return Some(field_at(left, behind)),
        };
    }
    None
}

/// The `%` before the end of a text, and one letter behind it, or two where git's fields have two.
fn field_at<'a>(text: &'a str, behind: &str) -> &'a str {
    let begin = text.len().saturating_sub(behind.len()).saturating_sub(1);
    let field = text.get(begin..).unwrap_or_default();
    let mut letters = behind.chars();
    let mut len = 1usize;
    if let Some(first) = letters.next() {
        len = len.saturating_add(first.len_utf8());
        if let 'a' | 'c' | 'g' | 'G' | 'C' | 'x' = first {
            if let Some(second) = letters.next() {
                len = len.saturating_add(second.len_utf8());
            }
        }
    }
    field.get(..len).unwrap_or(field)
}
