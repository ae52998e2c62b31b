//! The words in a text.
ghost use Rattle.std.specs.Prelude.{◌≡◌, IfOk, map, string_bytes};
ghost use Rattle.std.specs.Str.Lossy.{utf8_lossy};
ghost use Rattle.gix_memory_commands.specs.WordsOf.{words_of};

use memchr::memchr2;
use std::alloc::{AllocError, Global};

/// The words between the spaces and newlines of a text: one more than there are of these, so that two of them side by side have an empty
/// word between them. Bytes that aren't UTF-8 are replaced.
pub fn words_of(alloc: Global, text: &[u8]) -> Result<Vec<String>, AllocError>
    ensures { IfOk result (λ words. map string_bytes words.items ≡ map utf8_lossy (words_of text.now)) }
{
    let mut words = Vec::new(alloc);
    let mut rest = text;
    while let Some(end) = memchr2(b' ', b'\n', rest) {
        words.push(String::from_utf8_lossy(alloc, &rest[..end])?)?;
        rest = &rest[end + 1..];
    }
    words.push(String::from_utf8_lossy(alloc, rest)?)?;
    Ok(words)
}
