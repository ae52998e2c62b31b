//! Paths, and which files are in a folder.
use crate::NamedFile;
use std::cmp::Ordering;

/// A path without the slashes at its ends. The folder itself has none left.
pub(crate) fn trimmed(path: &[u8]) -> &[u8] {
    let mut left = path;
    for _ in 0..path.len() {
        match left {
            [b'/', inner @ ..] | [inner @ .., b'/'] => left = inner,
            _ => break,
        }
    }
    left
}

/// The file of a path, the first where there are several.
pub(crate) fn file_of<'a>(files: &'a [NamedFile<'a>], path: &[u8]) -> Option<NamedFile<'a>> {
    let place = files.partition_point(|file| file.name.cmp(path) == Ordering::Less);
    match files.get(place) {
        Some(file) if file.name == path => Some(*file),
        _ => None,
    }
}

/// The files in a folder, and in the folders below it.
pub(crate) fn files_in<'a>(files: &'a [NamedFile<'a>], folder: &[u8]) -> &'a [NamedFile<'a>] {
    if folder.is_empty() {
        return files;
    }
    let begin = files.partition_point(|file| is_before(file.name, folder));
    let behind = files.get(begin..).unwrap_or_default();
    let count = behind.partition_point(|file| is_in(file.name, folder));
    behind.get(..count).unwrap_or_default()
}

/// Whether a path is before those of the files in a folder, in the order of paths.
fn is_before(name: &[u8], folder: &[u8]) -> bool {
    let Some((front, behind)) = name.split_at_checked(folder.len()) else {
        return name.cmp(folder) != Ordering::Greater;
    };
    match front.cmp(folder) {
        Ordering::Less => true,
        Ordering::Greater => false,
        Ordering::Equal => match behind.first() {
            Some(byte) => *byte < b'/',
            None => true,
        },
    }
}

/// Whether a path is that of a file in a folder.
fn is_in(name: &[u8], folder: &[u8]) -> bool {
    match name.strip_prefix(folder) {
        Some([b'/', ..]) => true,
        _ => false,
    }
}

/// The first part of the path behind so many bytes: what a folder calls the file, or the folder that the file is in.
pub(crate) fn part_behind(name: &[u8], len: usize) -> &[u8] {
    let behind = name.get(len..).unwrap_or_default();
    match behind.iter().position(|byte| *byte == b'/') {
        Some(end) => behind.get(..end).unwrap_or_default(),
        None => behind,
    }
}
