//! The names in a folder.
use crate::NamedFile;
use crate::paths::part_behind;
use std::io::{self, Error, ErrorKind, Read};

/// The names in a folder. It is read as they are, each ended by a byte 0, and no read ends within a name.
#[derive(Clone, Copy)]
pub struct Names<'a> {
    /// The files in the folder that are left, in the order of their paths.
    pub(crate) files: &'a [NamedFile<'a>],
    /// How many bytes their paths have before the name in the folder.
    pub(crate) front: usize,
    /// The name that was given last.
    pub(crate) last: &'a [u8],
}

impl Read for Names<'_> {
    /// # Errors
    ///
    /// `InvalidFilename` where the next name is longer than there is room for.
    fn read(&mut self, buf: &mut [u8]) -> io::Result<usize> {
        let mut filled = 0;
        for _ in 0..self.files.len() {
            let [file, behind @ ..] = self.files else {
                break;
            };
            let name = part_behind(file.name, self.front);
            if !name.is_empty() && name != self.last {
                let Some(room) = buf.get_mut(filled..) else {
                    break;
                };
                if !put(name, room) {
                    break;
                }
                filled = filled.saturating_add(name.len()).saturating_add(1);
                self.last = name;
            }
            self.files = behind;
        }
        if filled == 0 && !self.files.is_empty() {
            return Err(Error::from(ErrorKind::InvalidFilename));
        }
        Ok(filled.min(buf.len()))
    }
}

/// Puts a name and a byte 0 at the front of the room, where they fit. Whether they fit.
fn put(name: &[u8], room: &mut [u8]) -> bool {
    if room.len() <= name.len() {
        return false;
    }
    room[..name.len()].copy_from_slice(name);
    room[name.len()] = 0;
    true
}
