//! Files by their paths.
use crate::NamedFile;
use crate::names::Names;
use crate::opened::{Opened, put, unsupported};
use crate::paths::{file_of, files_in, part_behind, trimmed};
use gix_files::{About, ByteFiles, Entry};
use std::alloc::{Alloc, Allocator, Global};
use std::fs::{Files, Metadata, OpenOptions};
use std::io::{self, Error, ErrorKind};
use std::path::PathBuf;

/// A folder in memory. Its own path is `/`.
#[derive(Clone, Copy)]
pub struct Mapped<'a> {
    alloc: Global,
    /// In the order of their paths.
    files: &'a [NamedFile<'a>],
}

impl<'a> Mapped<'a> {
    /// The folder of these files, which are in the order of [`by_path`](crate::by_path). Of others some aren't found.
    pub fn new(alloc: Global, files: &'a [NamedFile<'a>]) -> Mapped<'a> {
        Mapped { alloc, files }
    }

    /// Whether there is a folder of this path.
    fn has_folder(&self, path: &[u8]) -> bool {
        path.is_empty() || !files_in(self.files, path).is_empty()
    }
}

impl Alloc for Mapped<'_> {
    type A = Global;

    fn alloc(&self) -> Global {
        self.alloc
    }
}

/// There is nothing of this name.
fn not_found() -> Error {
    Error::from(ErrorKind::NotFound)
}

impl<'a> Files for Mapped<'a> {
    type File = Opened<'a>;

    type Dir = Names<'a>;

    fn open_file(&self, how: &OpenOptions, path: &str) -> io::Result<Opened<'a>> {
        how.check()?;
        let path = trimmed(path.as_bytes());
        match file_of(self.files, path) {
            Some(file) => Ok(Opened {
                bytes: file.bytes,
                at: 0,
            }),
            None if self.has_folder(path) => Err(Error::from(ErrorKind::IsADirectory)),
            None => Err(not_found()),
        }
    }

    fn open_dir(&self, path: &str) -> io::Result<Names<'a>> {
        let path = trimmed(path.as_bytes());
        if !self.has_folder(path) {
            return Err(not_found());
        }
        Ok(Names {
            files: files_in(self.files, path),
            front: if path.is_empty() { 0 } else { path.len() + 1 },
            last: &[],
        })
    }

    fn metadata(&self, path: &str) -> io::Result<Metadata> {
        let path = trimmed(path.as_bytes());
        match file_of(self.files, path) {
            Some(file) => Ok(Metadata::of_file(file.bytes.len() as u64)),
            None if self.has_folder(path) => Ok(Metadata::of_dir()),
            None => Err(not_found()),
        }
    }

    fn symlink_metadata(&self, path: &str) -> io::Result<Metadata> {
        self.metadata(path)
    }

    fn copy(&self, _from: &str, _to: &str) -> io::Result<u64> {
        Err(unsupported())
    }

    fn rename(&self, _from: &str, _to: &str) -> io::Result<()> {
        Err(unsupported())
    }

    fn remove_file(&self, _path: &str) -> io::Result<()> {
        Err(unsupported())
    }

    fn create_dir(&self, _path: &str) -> io::Result<()> {
        Err(unsupported())
    }

    fn remove_dir(&self, _path: &str) -> io::Result<()> {
        Err(unsupported())
    }

    fn remove_dir_all<B: Allocator>(&self, _alloc: B, _path: &str) -> io::Result<()> {
        Err(unsupported())
    }

    /// The path of what there is, which begins with `/` and ends with none. No file is a link.
    fn canonicalize<B: Allocator>(&self, alloc: B, path: &str) -> io::Result<PathBuf<B>> {
        self.metadata(path)?;
        let mut real = String::from_str(alloc, "/")?;
        real.push_str(path.trim_matches('/'))?;
        Ok(PathBuf::from(real))
    }
}

impl<'a> ByteFiles for Mapped<'a> {
    fn look(&self, path: &[u8], _follows: bool) -> io::Result<About> {
        let path = trimmed(path);
        match file_of(self.files, path) {
            Some(file) => Ok(About {
                entry: Entry::File,
                len: file.bytes.len() as u64,
            }),
            None if self.has_folder(path) => Ok(About {
                entry: Entry::Folder,
                len: 0,
            }),
            None => Err(not_found()),
        }
    }

    fn read_start(&self, path: &[u8], buffer: &mut [u8]) -> io::Result<usize> {
        match file_of(self.files, trimmed(path)) {
            Some(file) => Ok(put(file.bytes, buffer)),
            None => Err(not_found()),
        }
    }

    /// No file is a link.
    fn read_link_bytes(&self, _path: &[u8], _buffer: &mut [u8]) -> io::Result<usize> {
        Err(unsupported())
    }

    fn add_names(&self, path: &[u8], names: &mut Vec<u8>) -> io::Result<()> {
        let path = trimmed(path);
        if !self.has_folder(path) {
            return Err(not_found());
        }
        let front = if path.is_empty() {
            0
        } else {
            path.len().saturating_add(1)
        };
        let mut last: &[u8] = &[];
        for file in files_in(self.files, path) {
            let name = part_behind(file.name, front);
            if !name.is_empty() && name != last {
                names.extend_from_slice(name)?;
                names.push(0)?;
                last = name;
            }
        }
        Ok(())
    }
}
