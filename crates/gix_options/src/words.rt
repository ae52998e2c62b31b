//! Arguments and lines, which may hold any bytes, as words.
use crate::Misuse;
use crate::arguments::{names_place, needs_value};
use gix_refs::{Quoted, text_of_name};
use std::alloc::{AllocError, Global};
use std::str;

/// The words of arguments. One that isn't UTF-8 can be a revision that begins with the name of a ref, which is written as a text.
///
/// # Errors
///
/// `Arguments` with the first other that isn't UTF-8: an option or the value of one, a revision with a path, the file of a certificate, or
/// any where no repository is named. `Memory`.
pub fn words_of(alloc: Global, arguments: &[Vec<u8>]) -> Result<Vec<String>, Misuse> {
    let mut words = Vec::new(alloc);
    let mut odd = None;
    let mut is_value = false;
    for argument in arguments {
        let bytes = argument.as_slice();
        let Some(word) = word_of(alloc, bytes)? else {
            return Err(Misuse::Arguments(Quoted::new(alloc, bytes)?));
        };
        if str::from_utf8(bytes).is_err() {
            if is_value {
                return Err(Misuse::Arguments(Quoted::new(alloc, bytes)?));
            }
            odd = Some(bytes);
        }
        is_value = !is_value && needs_value(word.as_str());
        words.push(word)?;
    }
    match odd {
        Some(bytes) if !takes_refs(words.as_slice()) => {
            Err(Misuse::Arguments(Quoted::new(alloc, bytes)?))
        }
        _ => Ok(words),
    }
}

/// Whether the words ask a repository for refs.
fn takes_refs(words: &[String]) -> bool {
    let mut has_place = false;
    for word in words {
        if word.as_str() == "verify-certificate" {
            return false;
        }
        has_place = has_place || names_place(word.as_str());
    }
    has_place
}

/// The word of an argument or a line. None where it isn't UTF-8, and is an option or has a path.
pub(crate) fn word_of(alloc: Global, bytes: &[u8]) -> Result<Option<String>, AllocError> {
    match str::from_utf8(bytes) {
        Ok(text) => Ok(Some(String::from_str(alloc, text)?)),
        Err(_) => if bytes.starts_with(b"-") || bytes.contains(&b':') {
            Ok(None)
        } else {
            Ok(Some(text_of_name(alloc, bytes)?))
        },
    }
}
