//! Paths that may hold any bytes.
use crate::damage::{Damage, absent};
use crate::folders::Entry;
use std::fs::Files;
use std::io::{self, ErrorKind};

/// The most bytes of the text of a symbolic link.
const MOST_LINK: usize = 4096;

/// What there is at a path.
#[derive(Clone, Copy, PartialEq, Eq, Debug)]
pub struct About {
    /// What it is.
    pub entry: Entry,
    /// How many bytes it has, if it is a file.
    pub len: u64,
}

/// Files by paths that may hold any bytes. Std's [`Files`] takes a path as a text.
pub trait ByteFiles: Files {
    /// What there is at a path. A symbolic link at its end is followed if that is said.
    fn look(&self, path: &[u8], follows: bool) -> io::Result<About>;

    /// Puts the first bytes of a file at the front of `buffer`. How many.
    fn read_start(&self, path: &[u8], buffer: &mut [u8]) -> io::Result<usize>;

    /// Puts the text of a symbolic link at the front of `buffer`, as much as there is room for. How many bytes.
    fn read_link_bytes(&self, path: &[u8], buffer: &mut [u8]) -> io::Result<usize>;

    /// Adds the names in a folder, each with a byte 0 behind it, in the order in which the system says them. The path ends in `/`.
    fn add_names(&self, path: &[u8], names: &mut Vec<u8>) -> io::Result<()>;
}

/// What there is at a path, where a symbolic link is followed if that is said. None where there is nothing.
///
/// # Errors
///
/// `Unreadable`, `Memory`.
pub fn found_at<R: ByteFiles>(rt: &R, path: &[u8], follows: bool) -> Result<Option<About>, Damage> {
    match rt.look(path, follows) {
        Ok(about) => Ok(Some(about)),
        Err(error) => absent(error.kind()),
    }
}

/// The text of a symbolic link. None where there is none.
///
/// # Errors
///
/// `NotText` where it isn't UTF-8, and the files take a path as a text. `Memory`.
pub fn link_bytes<R: ByteFiles + AllocGlobal>(
    rt: &R,
    path: &[u8],
) -> Result<Option<Vec<u8>>, Damage> {
    let mut text = vec![in rt.alloc(); 0u8; MOST_LINK]?;
    match rt.read_link_bytes(path, text.as_mut_slice()) {
        Ok(len) => {
            text.truncate(len);
            Ok(Some(text))
        }
        Err(error) => match error.kind() {
            ErrorKind::OutOfMemory => Err(Damage::Memory),
            ErrorKind::InvalidFilename => Err(Damage::NotText),
            _ => Ok(None),
        },
    }
}

/// Puts the first bytes of a file into `out` in place of what was there, `most` at the most. How many bytes the file has, and None where
/// there is none.
///
/// # Errors
///
/// `NotAFile`, `Unreadable`, `Memory`. `out` may then hold anything.
pub fn read_start<R: ByteFiles>(
    rt: &R,
    path: &[u8],
    most: u64,
    out: &mut Vec<u8>,
) -> Result<Option<u64>, Damage> {
    out.clear();
    let Some(found) = found_at(rt, path, true)? else {
        return Ok(None);
    };
    if found.entry != Entry::File {
        return Err(Damage::NotAFile);
    }
    *out = vec![in *out.allocator(); 0u8; found.len.min(most) as usize]?;
    match rt.read_start(path, out.as_mut_slice()) {
        Ok(count) => {
            out.truncate(count);
            Ok(Some(found.len))
        }
        Err(error) => absent(error.kind()),
    }
}

/// The names of a folder's entries, by rising bytes. None where there is no folder. The path ends in `/`.
///
/// # Errors
///
/// `NotText` where a name isn't UTF-8, and the files take a path as a text. `TooManyEntries` where there are more than `most`. `Unreadable`,
/// `Memory`.
pub fn names<R: ByteFiles + AllocGlobal>(
    rt: &R,
    path: &[u8],
    most: usize,
) -> Result<Option<Vec<Vec<u8>>>, Damage> {
    let mut text = Vec::new(rt.alloc());
    if let Err(error) = rt.add_names(path, &mut text) {
        return match error.kind() {
            ErrorKind::InvalidFilename => Err(Damage::NotText),
            kind => absent(kind),
        };
    }
    let mut names = Vec::new(rt.alloc());
    for name in text.as_slice().split(|byte| *byte == 0) {
        if name.is_empty() || name == b".".as_slice() || name == b"..".as_slice() {
            continue;
        }
        if names.len() >= most {
            return Err(Damage::TooManyEntries);
        }
        names.push(Vec::from_slice(rt.alloc(), name)?)?;
    }
    names.as_mut_slice().sort(rt.alloc())?;
    Ok(Some(names))
}
