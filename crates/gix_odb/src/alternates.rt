//! The folders whose objects a folder of objects borrows.
ghost use Rattle.std.specs.Prelude.{◌≡◌, ◌+◌, ◌≤◌, ◌<◌, length};

use crate::fault::{Damage, Fault, fault_of};
use gix_files::{is_there, read, real_folder};
use std::alloc::Global;
use std::fs::Files;
use std::os::unix::fs::FileExt;
use std::str;

/// How many folders are read at the most.
const MOST_FOLDERS: usize = 1024;
/// How many folders lead from the first to one that is read, at the most, as in git.
const MOST_LEVELS: u32 = 6;
/// The most bytes of a file of alternates.
const MOST_BYTES: u64 = 1 << 24;

/// A folder of objects.
pub(crate) struct Folder {
    /// Its path.
    pub path: String,
    /// How many folders lead to it.
    level: u32,
}

impl Drop for Folder {
    fn drop(self) {
        let Folder { path: _, level: _ } = self;
    }
}

/// Folders whose objects are read.
pub(crate) struct Borrowed {
    /// The folders, in the order in which they were met.
    pub all: Vec<Folder>,
    /// The files of alternates that nothing was read of, since they are too many levels away.
    pub too_deep: Vec<String>,
}

impl Drop for Borrowed {
    fn drop(self) {
        let Borrowed {
            all: _,
            too_deep: _,
        } = self;
    }
}

/// The folder and those whose objects it borrows, each once. One that isn't there, or is too many levels away, is passed over, as in git.
pub(crate) fn folders<R: Files + AllocGlobal>(rt: &R, objects: &str) -> Result<Borrowed, Fault>
where
    R::File: FileExt,
{
    let alloc = rt.alloc();
    let mut folders = Vec::new(alloc);
    let mut too_deep = Vec::new(alloc);
    let path = match real_folder(rt, objects) {
        Ok(Some(path)) => path,
        Ok(None) => return Err(fault_of(String::from_str(alloc, objects)?, Damage::NotAFolder)),
        Err(damage) => return Err(fault_of(String::from_str(alloc, objects)?, damage.into())),
    };
    folders.push(Folder { path, level: 0 })?;
    for number in 0..MOST_FOLDERS {
        if number >= folders.len() {
            break;
        }
        add_alternates(rt, &mut folders, number, &mut too_deep)?;
    }
    Ok(Borrowed {
        all: folders,
        too_deep,
    })
}

/// Adds the folders that the folder of this number borrows from, or to `too_deep` its file that names them.
fn add_alternates<R: Files + AllocGlobal>(
    rt: &R,
    folders: &mut Vec<Folder>,
    number: usize,
    too_deep: &mut Vec<String>,
) -> Result<(), Fault>
where
    R::File: FileExt,
{
    let Some(folder) = folders.get(number) else {
        return Ok(());
    };
    let level = folder.level;
    let from = folder.path.clone()?;
    let mut file = from.clone()?;
    file.push_str("/info/alternates")?;
    if level >= MOST_LEVELS {
        return match is_there(rt, file.as_str()) {
            Ok(true) => Ok(too_deep.push(file)?),
            Ok(false) => Ok(()),
            Err(damage) => Err(fault_of(file, Damage::from(damage))),
        };
    }
    let mut text = Vec::new(rt.alloc());
    match read(rt, file.as_str(), MOST_BYTES, &mut text) {
        Ok(_) => {}
        Err(damage) => return Err(fault_of(file, damage.into())),
    }
    match add_lines(rt, folders, from.as_str(), level, text.as_slice()) {
        Ok(()) => Ok(()),
        Err(damage) => Err(fault_of(file, damage)),
    }
}

/// Adds the folders that the lines of a file name.
fn add_lines<R: Files + AllocGlobal>(
    rt: &R,
    folders: &mut Vec<Folder>,
    from: &str,
    level: u32,
    text: &[u8],
) -> Result<(), Damage> {
    let mut rest = text;
    for _ in 0..=text.len() {
        let Some(line) = take_line(rt.alloc(), &mut rest)? else {
            break;
        };
        let Ok(line) = str::from_utf8(line.as_slice()) else {
            return Err(Damage::NotText);
        };
        if line.is_empty() {
            continue;
        }
        let mut path = String::new(rt.alloc());
        if !line.starts_with("/") {
            path.push_str(from)?;
            path.push_str("/")?;
        }
        path.push_str(line)?;
        add_folder(rt, folders, path.as_str(), level)?;
    }
    Ok(())
}

/// Adds a folder, where there is one of this path and it isn't there yet.
fn add_folder<R: Files + AllocGlobal>(
    rt: &R,
    folders: &mut Vec<Folder>,
    path: &str,
    level: u32,
) -> Result<(), Damage> {
    let Some(path) = real_folder(rt, path)? else {
        return Ok(());
    };
    for folder in folders.iter() {
        if folder.path.as_str() == path.as_str() {
            return Ok(());
        }
    }
    if folders.len() >= MOST_FOLDERS {
        return Err(Damage::ManyAlternates);
    }
    let level = level.saturating_add(1);
    folders.push(Folder { path, level })?;
    Ok(())
}

/// Takes the path in the first line, which is empty where the line names none. None at the end.
fn take_line(alloc: Global, rest: &mut &[u8]) -> Result<Option<Vec<u8>>, Damage> {
    let text = *rest;
    match text {
        [] => Ok(None),
        [b'"', quoted @ ..] => {
            let mut path = Vec::new(alloc);
            match unquoted(quoted, &mut path)? {
                Some(behind) => {
                    *rest = behind.get(1..).unwrap_or_default();
                    Ok(Some(path))
                }
                None => plain_line(alloc, rest),
            }
        }
        [b'#', ..] => {
            let _ = plain_line(alloc, rest)?;
            Ok(Some(Vec::new(alloc)))
        }
        _ => plain_line(alloc, rest),
    }
}

/// Takes the first line as it is.
fn plain_line(alloc: Global, rest: &mut &[u8]) -> Result<Option<Vec<u8>>, Damage> {
    let text = *rest;
    let end = text
        .iter()
        .position(|byte| *byte == b'\n')
        .unwrap_or(text.len());
    let (line, behind) = match text.split_at_checked(end) {
        Some(parts) => parts,
        None => (text, text),
    };
    *rest = behind.get(1..).unwrap_or_default();
    let mut path = Vec::new(alloc);
    path.extend_from_slice(line)?;
    Ok(Some(path))
}

/// Puts what is in C's quotes into `path`, and lends what is behind the second quote. None where the text isn't quoted so.
fn unquoted<'a>(text: &'a [u8], path: &mut Vec<u8>) -> Result<Option<&'a [u8]>, Damage> {
    let mut rest = text;
    for _ in 0..=text.len() {
        match rest {
            [b'"', behind @ ..] => return Ok(Some(behind)),
            [
                b'\\',
                a @ b'0'..=b'3',
                b @ b'0'..=b'7',
                c @ b'0'..=b'7',
                behind @ ..,
            ] => {
                path.push((*a - b'0') * 64 + (*b - b'0') * 8 + (*c - b'0'))?;
                rest = behind;
            }
            [b'\\', letter, behind @ ..] => {
                let Some(byte) = named(*letter) else {
                    return Ok(None);
                };
                path.push(byte)?;
                rest = behind;
            }
            [byte, behind @ ..] => {
                path.push(*byte)?;
                rest = behind;
            }
            [] => return Ok(None),
        }
    }
    Ok(None)
}

/// The byte that a letter behind a backslash stands for.
fn named(letter: u8) -> Option<u8> {
    match letter {
        b'a' => Some(7),
        b'b' => Some(8),
        b't' => Some(9),
        b'n' => Some(10),
        b'v' => Some(11),
        b'f' => Some(12),
        b'r' => Some(13),
        b'"' | b'\\' => Some(letter),
        _ => None,
    }
}
