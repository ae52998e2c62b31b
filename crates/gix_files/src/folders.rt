//! What there is of a name, and what a folder has.
use crate::damage::{Damage, absent};
use std::fs::{self, Files};
use std::io::ErrorKind;

/// Whether there is something of this name, or whether it can't be said that there is nothing.
///
/// # Errors
///
/// `Memory`.
pub fn is_there<R: Files>(rt: &R, path: &str) -> Result<bool, Damage> {
    match fs::metadata(rt, path) {
        Ok(_) => Ok(true),
        Err(error) => match error.kind() {
            ErrorKind::OutOfMemory => Err(Damage::Memory),
            kind => Ok(kind != ErrorKind::NotFound),
        },
    }
}

/// Whether there is a folder of this name.
///
/// # Errors
///
/// `Memory`.
pub fn is_folder<R: Files>(rt: &R, path: &str) -> Result<bool, Damage> {
    match fs::metadata(rt, path) {
        Ok(about) => Ok(about.is_dir()),
        Err(error) => match error.kind() {
            ErrorKind::OutOfMemory => Err(Damage::Memory),
            _ => Ok(false),
        },
    }
}

/// What there is of a name.
#[derive(Clone, Copy, PartialEq, Eq, Debug)]
pub enum Entry {
    /// A file.
    File,
    /// A folder.
    Folder,
    /// A symbolic link, to whatever.
    Link,
    /// A device, or something else.
    Other,
}

/// What there is of a name, where a symbolic link isn't followed. None where there is nothing.
///
/// # Errors
///
/// `Unreadable`, `Memory`.
pub fn entry_of<R: Files>(rt: &R, path: &str) -> Result<Option<Entry>, Damage> {
    let about = match fs::symlink_metadata(rt, path) {
        Ok(about) => about,
        Err(error) => return absent(error.kind()),
    };
    if about.is_symlink() {
        return Ok(Some(Entry::Link));
    }
    if about.is_dir() {
        return Ok(Some(Entry::Folder));
    }
    Ok(Some(if about.is_file() {
        Entry::File
    } else {
        Entry::Other
    }))
}

/// The text of a symbolic link. None where there is none, or where it is no text.
///
/// # Errors
///
/// `Memory`.
pub fn link_text<R: Files + AllocGlobal>(rt: &R, path: &str) -> Result<Option<String>, Damage> {
    match fs::read_link(rt, path) {
        Ok(link) => match link.as_path().to_str() {
            Some(text) => Ok(Some(String::from_str(rt.alloc(), text)?)),
            None => Ok(None),
        },
        Err(error) => match error.kind() {
            ErrorKind::OutOfMemory => Err(Damage::Memory),
            _ => Ok(None),
        },
    }
}

/// The one path of a folder, which begins with `/` and goes through no symbolic link. None where there is no folder.
///
/// # Errors
///
/// `NotText` where that path isn't UTF-8. `Memory`.
pub fn real_folder<R: Files + AllocGlobal>(rt: &R, path: &str) -> Result<Option<String>, Damage> {
    if !is_folder(rt, path)? {
        return Ok(None);
    }
    let real = match fs::canonicalize(rt, path) {
        Ok(real) => real,
        Err(error) => {
            return match error.kind() {
                ErrorKind::OutOfMemory => Err(Damage::Memory),
                // A path that the system refuses has the number of an error.
                ErrorKind::InvalidFilename if error.raw_os_error().is_none() => {
                    Err(Damage::NotText)
                }
                _ => Ok(None),
            };
        }
    };
    match real.as_path().to_str() {
        Some(text) => Ok(Some(String::from_str(rt.alloc(), text)?)),
        None => Err(Damage::NotText),
    }
}
