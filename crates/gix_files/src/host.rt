//! Files of the system. It opens paths that are UTF-8 alone, since std's [`Files`](std::fs::Files) takes a path as a text.
use crate::bytes::{About, ByteFiles};
use crate::fill;
use crate::folders::Entry;
use std::fs::{self, Metadata};
use std::io::{self, Error, ErrorKind};
use std::str;

impl ByteFiles for HostRuntime {
    fn look(&self, path: &[u8], follows: bool) -> io::Result<About> {
        let path = text_of(self, path)?;
        let about = if follows {
            fs::metadata(self, path)?
        } else {
            fs::symlink_metadata(self, path)?
        };
        Ok(About {
            entry: entry_of(&about),
            len: about.len(),
        })
    }

    fn read_start(&self, path: &[u8], buffer: &mut [u8]) -> io::Result<usize> {
        let file = fs::open(self, text_of(self, path)?)?;
        match fill(&file, buffer, 0) {
            Ok(count) => Ok(count),
            Err(_) => Err(Error::from(ErrorKind::Other)),
        }
    }

    fn read_link_bytes(&self, path: &[u8], buffer: &mut [u8]) -> io::Result<usize> {
        let link = fs::read_link(self, text_of(self, path)?)?;
        let text = link.as_path().to_str().unwrap_or_default().as_bytes();
        let mut count = 0usize;
        for (to, from) in buffer.iter_mut().zip(text) {
            *to = *from;
            count = count.saturating_add(1);
        }
        Ok(count)
    }

    fn add_names(&self, path: &[u8], names: &mut Vec<u8>) -> io::Result<()> {
        for entry in fs::read_dir(self, text_of(self, path)?)? {
            let entry = entry?;
            names.extend_from_slice(entry.file_name().as_bytes())?;
            names.push(0)?;
        }
        Ok(())
    }
}

/// A path as a text. One that isn't UTF-8 leads to nothing if all names are UTF-8 in the folder in which it has the first name that isn't.
/// Else there may be something, and the error is `InvalidData`.
fn text_of<'a>(rt: &HostRuntime, path: &'a [u8]) -> io::Result<&'a str> {
    let end = match str::from_utf8(path) {
        Ok(text) => return Ok(text),
        Err(error) => error.valid_up_to(),
    };
    let front = str::from_utf8(path.get(..end).unwrap_or_default()).unwrap_or_default();
    let (folder, _) = front.rsplit_once('/').unwrap_or((".", ""));
    for entry in fs::read_dir(rt, folder)? {
        match entry {
            Ok(_) => {}
            Err(error) if error.kind() == ErrorKind::InvalidFilename => {
                return Err(Error::from(ErrorKind::InvalidData));
            }
            Err(error) => return Err(error),
        }
    }
    Err(Error::from(ErrorKind::NotFound))
}

/// What the system says that there is.
fn entry_of(about: &Metadata) -> Entry {
    if about.is_symlink() {
        Entry::Link
    } else if about.is_dir() {
        Entry::Folder
    } else if about.is_file() {
        Entry::File
    } else {
        Entry::Other
    }
}
