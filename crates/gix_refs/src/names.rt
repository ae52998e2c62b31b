//! Names of refs.
use std::alloc::{AllocError, Global};
use std::str;

/// A name as a text, which no other name has: as it is where it is UTF-8 without a backslash. Else a backslash and three octal digits are in
/// place of each backslash and of each byte that isn't ASCII, as where git writes a name in quotes. No name of a ref has a backslash.
///
/// # Errors
///
/// `AllocError` when out of memory.
pub fn text_of_name(alloc: Global, name: &[u8]) -> Result<String, AllocError> {
    if !name.contains(&b'\\') {
        if let Ok(text) = str::from_utf8(name) {
            return String::from_str(alloc, text);
        }
    }
    let mut text = String::new(alloc);
    for byte in name {
        let byte = *byte;
        if byte < 128 && byte != b'\\' {
            text.push(char::from(byte))?;
        } else {
            text.push('\\')?;
            text.push(digit(byte >> 6))?;
            text.push(digit(byte >> 3))?;
            text.push(digit(byte))?;
        }
    }
    Ok(text)
}

/// The octal digit of the three lowest bits of a number.
fn digit(number: u8) -> char {
    char::from(b'0' | number & 7)
}

/// The name that a text stands for: a backslash and three octal digits are in place of a byte, as [`text_of_name`] writes them, and all else is
/// as it is.
///
/// # Errors
///
/// `AllocError` when out of memory.
pub fn name_of_text(alloc: Global, text: &str) -> Result<Vec<u8>, AllocError> {
    let mut name = Vec::new(alloc);
    let mut rest = text.as_bytes();
    for _ in 0..text.len() {
        let (byte, behind) = match rest {
            [b'\\', b'1', b'3', b'4', behind @ ..] => (b'\\', behind),
            [
                b'\\',
                high @ b'2'..=b'3',
                middle @ b'0'..=b'7',
                low @ b'0'..=b'7',
                behind @ ..,
            ] => ((*high & 3) << 6 | (*middle & 7) << 3 | *low & 7, behind),
            [byte, behind @ ..] => (*byte, behind),
            [] => break,
        };
        name.push(byte)?;
        rest = behind;
    }
    Ok(name)
}

/// Whether `git check-ref-format` takes a name: as [`is_name_of_any_level`] does, and there is a `/` in it, as in `refs/heads/main`.
pub fn is_ref_name(name: &[u8]) -> bool {
    is_name_of_any_level(name) && name.contains(&b'/')
}

/// Whether `git check-ref-format --allow-onelevel` takes a name, as `HEAD` or `refs/heads/main`: parts with a `/` between them, none of
/// them empty. No part begins with `.` or ends with `.lock`. In the name are no `..`, no `@{`, none of the characters ` ~^:?*[\`, and no
/// control character. It doesn't end with `.`, and isn't `@`.
pub fn is_name_of_any_level(name: &[u8]) -> bool {
    if name == b"@".as_slice() || name.ends_with(b".") {
        return false;
    }
    let mut before = b'/';
    for byte in name {
        if !may_follow(before, *byte) {
            return false;
        }
        before = *byte;
    }
    before != b'/' && !has_lock(name)
}

/// Whether a byte may be in a name behind another one. A `/` is before the first.
fn may_follow(before: u8, byte: u8) -> bool {
    match byte {
        b'/' => before != b'/',
        b'.' => before != b'/' && before != b'.',
        b'{' => before != b'@',
        0..=b' ' | 127 | b'~' | b'^' | b':' | b'?' | b'*' | b'[' | b'\\' => false,
        _ => true,
    }
}

/// Whether a part of a name ends with `.lock`.
fn has_lock(name: &[u8]) -> bool {
    for part in name.split(|byte| *byte == b'/') {
        if part.ends_with(b".lock") {
            return true;
        }
    }
    false
}
