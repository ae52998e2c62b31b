//! A file that is open.
ghost use Rattle.std.specs.Prelude.{◌≡◌, ◌≤◌, length};

use std::fs::{Metadata, OpenFile};
use std::io::{self, Error, ErrorKind, Read, Seek, SeekFrom, Write};
use std::os::unix::fs::FileExt;

/// An open file in memory. It is only read.
#[derive(Clone, Copy)]
pub struct Opened<'a> {
    /// All of its bytes.
    pub(crate) bytes: &'a [u8],
    /// How many of them were read.
    pub(crate) at: usize,
}

/// Nothing is written.
pub(crate) fn unsupported() -> Error {
    Error::from(ErrorKind::Unsupported)
}

/// Puts bytes at the front of a room, as many as it has room for. How many.
pub(crate) fn put(bytes: &[u8], room: &mut [u8]) -> usize
    ensures length { length room.new ≡ length room.old }
    ensures bound { result ≤ length room.old }
{
    let count = bytes.len().min(room.len());
    room[..count].copy_from_slice(&bytes[..count]);
    count
}

impl Read for Opened<'_> {
    fn read(&mut self, buf: &mut [u8]) -> io::Result<usize> {
        let left = self.bytes.get(self.at..).unwrap_or_default();
        let count = put(left, buf);
        self.at = self.at.saturating_add(count);
        Ok(count)
    }
}

impl Write for Opened<'_> {
    fn write(&mut self, _buf: &[u8]) -> io::Result<usize> {
        Err(unsupported())
    }

    fn flush(&mut self) -> io::Result<()> {
        Ok(())
    }
}

impl Seek for Opened<'_> {
    fn seek(&mut self, _to: SeekFrom) -> io::Result<u64> {
        Err(unsupported())
    }
}

impl OpenFile for Opened<'_> {
    fn metadata(&self) -> io::Result<Metadata> {
        Ok(Metadata::of_file(self.bytes.len() as u64))
    }

    fn set_len(&self, _size: u64) -> io::Result<()> {
        Err(unsupported())
    }

    fn sync_all(&self) -> io::Result<()> {
        Ok(())
    }

    fn sync_data(&self) -> io::Result<()> {
        Ok(())
    }
}

impl FileExt for Opened<'_> {
    fn read_at(&self, buf: &mut [u8], offset: u64) -> io::Result<usize> {
        let left = self.bytes.get(offset as usize..).unwrap_or_default();
        Ok(put(left, buf))
    }

    fn write_at(&self, _buf: &[u8], _offset: u64) -> io::Result<usize> {
        Err(unsupported())
    }
}
