//! The files of a commit-graph, read for a run.
ghost use Rattle.std.specs.Prelude.{◌≡◌, length, not, position, unwrap_or};

use crate::kept::is_kept;
use std::alloc::{AllocError, AllocFailed, Global};
use std::fs::{self, Files, OpenFile};
use std::io::ErrorKind;
use std::os::unix::fs::FileExt;
use thiserror::Error;

/// How many bytes of all files are read at the most.
const MOST_BYTES: u64 = 1 << 32;

/// A file that was read.
#[derive(Drop)]
pub struct Layer {
    /// Its path.
    pub path: String,
    /// All its bytes.
    pub bytes: Vec<u8>,
    /// Whether it has passed [`verify`](crate::verify) alone, above the files that it names as below it, and wasn't written to since.
    pub has_passed: bool,
}

/// Why a file isn't read. Its path is written in quotes, so that the text is one line.
#[derive(Debug, Error)]
pub enum LayerFault {
    /// There is no file of this path, or the system didn't open or read it.
    #[error("{0:?}: it can't be read")]
    Unreadable(String),
    /// With it the files have more than 2^32 bytes.
    #[error("{0:?}: it is too large")]
    TooLarge(String),
    /// Memory ran out.
    #[error("out of memory")]
    Memory,
}

impl Drop for LayerFault {
    fn drop(self) {
        match self {
            LayerFault::Unreadable(_) => {}
            LayerFault::TooLarge(_) => {}
            LayerFault::Memory => {}
        }
    }
}

impl From<AllocError> for LayerFault {
    fn from(_error: AllocError) -> LayerFault {
        LayerFault::Memory
    }
}

impl<T: Drop> From<AllocFailed<T>> for LayerFault {
    fn from(_error: AllocFailed<T>) -> LayerFault {
        LayerFault::Memory
    }
}

/// Why the bytes of a file aren't read.
enum Trouble {
    Unreadable,
    TooLarge,
    Memory,
}

impl From<AllocError> for Trouble {
    fn from(_error: AllocError) -> Trouble {
        Trouble::Memory
    }
}

/// Opens a file. What is no file, as a device, isn't opened.
pub(crate) fn open<R: Files>(rt: &R, path: &str) -> Option<R::File> {
    let about = fs::metadata(rt, path).ok()?;
    if !about.is_file() {
        return None;
    }
    fs::open(rt, path).ok()
}

/// Puts the bytes of a file from a place on into `buffer`. How many there are, up to the file's end; None where it can't be read.
pub(crate) fn fill<F: FileExt>(file: &F, buffer: &mut [u8], at: u64) -> Option<usize> {
    let mut filled = 0usize;
    for _ in 0..u64::MAX {
        if filled >= buffer.len() {
            return Some(filled);
        }
        match file.read_at(&mut buffer[filled..], at.wrapping_add(filled as u64)) {
            Ok(0) => return Some(filled),
            Ok(count) => filled = filled.saturating_add(count),
            Err(error) => {
                if error.kind() != ErrorKind::Interrupted {
                    return None;
                }
            }
        }
    }
    None
}

/// All bytes of a file, if these are at most so many.
fn read_whole<F: FileExt + OpenFile>(
    alloc: Global,
    file: &F,
    most: u64,
) -> Result<Vec<u8>, Trouble> {
    let Ok(about) = file.metadata() else {
        return Err(Trouble::Unreadable);
    };
    if !about.is_file() {
        return Err(Trouble::Unreadable);
    }
    if about.len() > most {
        return Err(Trouble::TooLarge);
    }
    let mut bytes = vec![in alloc; 0u8; about.len() as usize]?;
    match fill(file, bytes.as_mut_slice(), 0) {
        Some(filled) => bytes.truncate(filled),
        None => return Err(Trouble::Unreadable),
    }
    Ok(bytes)
}

/// Reads a file of at most so many bytes, and says whether it has passed.
fn read_layer<R>(rt: &R, cache: Option<&str>, path: &str, most: u64) -> Result<Layer, LayerFault>
where
    R: Files + AllocGlobal + Clone + Drop,
    R::File: FileExt,
{
    let path = String::from_str(rt.alloc(), path)?;
    let Some(file) = open(rt, path.as_str()) else {
        return Err(LayerFault::Unreadable(path));
    };
    let bytes = match read_whole(rt.alloc(), &file, most) {
        Ok(bytes) => bytes,
        Err(Trouble::Unreadable) => return Err(LayerFault::Unreadable(path)),
        Err(Trouble::TooLarge) => return Err(LayerFault::TooLarge(path)),
        Err(Trouble::Memory) => return Err(LayerFault::Memory),
    };
    // The system is asked behind the last read, so what was written before that changes its answer.
    let has_passed = match cache {
        Some(cache) => is_kept(rt, cache, &file, bytes.as_slice()),
        None => false,
    };
    Ok(Layer {
        path,
        bytes,
        has_passed,
    })
}

/// Reads the files of a commit-graph, lowest first. Each is opened once, and read whole: whatever happens to the files later, these bytes
/// are those that `has_passed` is said of.
///
/// `cache` is the folder that [`keep`](crate::keep) writes to; without one, no file has passed.
///
/// # Errors
///
/// The first file that can't be read, or with which they have more than 2^32 bytes. `Memory`.
pub fn read_layers<R>(
    rt: &R,
    cache: Option<&str>,
    paths: &[String],
) -> Result<Vec<Layer>, LayerFault>
where
    R: Files + AllocGlobal + Clone + Drop,
    R::File: FileExt,
{
    let mut layers = Vec::new(rt.alloc());
    let mut left = MOST_BYTES;
    for path in paths {
        let layer = read_layer(rt, cache, path.as_str(), left)?;
        left = left.saturating_sub(layer.bytes.len() as u64);
        layers.push(layer)?;
    }
    Ok(layers)
}

/// The place of the first file that hasn't passed.
fn first_unchecked(layers: &[Layer]) -> Option<usize>
    ensures { result ≡ position (λ layer. not layer.has_passed) layers.now }
{
    layers.iter().position(|layer| !layer.has_passed)
}

/// How many of the files have passed, from the lowest up to the first that hasn't.
pub fn count_passed(layers: &[Layer]) -> usize
    ensures { result ≡ unwrap_or (position (λ layer. not layer.has_passed) layers.now) (length layers.now) }
{
    first_unchecked(layers).unwrap_or(layers.len())
}
