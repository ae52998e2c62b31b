//! Where it is kept that a file has passed.
ghost use Rattle.std.specs.Prelude.{◌≡◌, ◌+◌, ◌-◌, ◌≤◌, ◌<◌, length};

use crate::layers::{fill, open};
use gix_hash::ObjectId;
use std::alloc::{AllocError, Global};
use std::fs::{self, Files, Metadata, OpenFile};
use std::os::unix::fs::{FileExt, MetadataExt};
use thiserror::Error;

/// The most bytes of a kept text.
const MOST_TEXT: usize = 1024;
/// How many bytes of a file are compared at a time.
const PART: usize = 1 << 16;
/// How many nanoseconds may pass before the system's clock of files goes on.
const TICK: i64 = 20_000_000;
/// The same where that clock counts no parts of seconds.
const LONG_TICK: i64 = 3_000_000_000;
/// How often a file is written at the most until that clock has gone on.
const MOST_TRIES: u32 = 1 << 14;

/// Why it isn't kept that a file has passed.
#[derive(Clone, Copy, PartialEq, Eq, Debug, Error)]
pub enum KeepFault {
    /// The folder or a file in it can't be written.
    #[error("the cache can't be written")]
    Unwritable,
    /// The file can't be read again, or has other bytes now.
    #[error("the file has changed")]
    Changed,
    /// The file was changed a moment ago, so that a further change of this moment couldn't be seen.
    #[error("the file is too new")]
    TooNew,
    /// Memory ran out.
    #[error("out of memory")]
    Memory,
}

impl From<AllocError> for KeepFault {
    fn from(_error: AllocError) -> KeepFault {
        KeepFault::Memory
    }
}

/// The last bytes of a file, as the head of the file says their number.
fn hash_at_end(version: u8, end: &[u8]) -> Option<ObjectId> {
    let len = match version {
        1 => 20,
        2 => 32,
        _ => return None,
    };
    let from = end.len().checked_sub(len)?;
    ObjectId::from_bytes(end.get(from..)?)
}

/// The hash at the end of a file's bytes.
fn hash_of(bytes: &[u8]) -> Option<ObjectId> {
    hash_at_end(*bytes.get(5)?, bytes)
}

/// The hash at the end of a file that is open.
fn hash_of_file<F: FileExt>(file: &F, len: u64) -> Option<ObjectId> {
    let mut head = [0u8; 8];
    if fill(file, &mut head, 0)? < head.len() {
        return None;
    }
    let mut end = [0u8; 32];
    if fill(file, &mut end, len.checked_sub(32)?)? < end.len() {
        return None;
    }
    hash_at_end(head[5], &end)
}

/// What the system says of a file that ends with this hash.
fn text_of(alloc: Global, about: &Metadata, hash: ObjectId) -> Result<String, AllocError> {
    format!(in alloc;
        "kestrelrack commit-graph 1\ndevice {}\ninode {}\nsize {}\nmodified {} {}\nchanged {} {}\nhash {hash}\n",
        about.dev(),
        about.ino(),
        about.len(),
        about.mtime(),
        about.mtime_nsec(),
        about.ctime(),
        about.ctime_nsec()
    )
}

/// Where the text of a hash is kept.
fn path_of(alloc: Global, cache: &str, hash: ObjectId) -> Result<String, AllocError> {
    format!(in alloc; "{cache}/{hash}")
}

/// Whether the text that is kept for this hash is what the system says of the file.
fn is_kept_as<R>(rt: &R, cache: &str, about: &Metadata, hash: ObjectId) -> Option<bool>
where
    R: Files + AllocGlobal + Clone + Drop,
    R::File: FileExt,
{
    let text = text_of(rt.alloc(), about, hash).ok()?;
    let path = path_of(rt.alloc(), cache, hash).ok()?;
    let file = open(rt, path.as_str())?;
    let mut kept = [0u8; MOST_TEXT];
    let len = fill(&file, &mut kept, 0)?;
    Some(kept.get(..len)? == text.as_bytes())
}

/// Whether an open file has passed, whose bytes were read before.
pub(crate) fn is_kept<R>(rt: &R, cache: &str, file: &R::File, bytes: &[u8]) -> bool
where
    R: Files + AllocGlobal + Clone + Drop,
    R::File: FileExt,
{
    let Some(hash) = hash_of(bytes) else {
        return false;
    };
    match file.metadata() {
        Ok(about) => {
            about.len() == bytes.len() as u64
                && is_kept_as(rt, cache, &about, hash).unwrap_or(false)
        }
        Err(_) => false,
    }
}

/// Whether a file that is open has passed.
fn look_up<R>(rt: &R, cache: &str, file: &R::File) -> Option<bool>
where
    R: Files + AllocGlobal + Clone + Drop,
    R::File: FileExt,
{
    let about = file.metadata().ok()?;
    let hash = hash_of_file(file, about.len())?;
    is_kept_as(rt, cache, &about, hash)
}

/// The same as [`has_passed`] of a file that is open.
pub fn has_passed_open<R>(rt: &R, cache: &str, file: &R::File) -> bool
where
    R: Files + AllocGlobal + Clone + Drop,
    R::File: FileExt,
{
    look_up(rt, cache, file).unwrap_or(false)
}

/// Whether it is kept in the folder `cache` that the commit-graph file of a path has passed, and the file hasn't changed since: its
/// device, inode, size, times and the hash at its end are those that [`keep`] wrote. Its other bytes aren't read. Any error is `false`.
///
/// Who can write to the folder can make any file pass: it is the user's own, as the repository's objects are.
pub fn has_passed<R>(rt: &R, cache: &str, path: &str) -> bool
where
    R: Files + AllocGlobal + Clone + Drop,
    R::File: FileExt,
{
    match open(rt, path) {
        Some(file) => has_passed_open(rt, cache, &file),
        None => false,
    }
}

/// How many nanoseconds `later` was written after `about` was last changed.
fn nanoseconds_since(about: &Metadata, later: &Metadata) -> i64 {
    let seconds = later.mtime().saturating_sub(about.ctime());
    let parts = later.mtime_nsec().saturating_sub(about.ctime_nsec());
    seconds.saturating_mul(1_000_000_000).saturating_add(parts)
}

/// Writes a file of this path until the system says a time for it by which a further change of the other file would be seen.
fn wait_for_tick<R: Files>(rt: &R, path: &str, about: &Metadata) -> Result<(), KeepFault> {
    let tick = if about.ctime_nsec() == 0 {
        LONG_TICK
    } else {
        TICK
    };
    for _ in 0..MOST_TRIES {
        if fs::write(rt, path, b"").is_err() {
            return Err(KeepFault::Unwritable);
        }
        let Ok(now) = fs::metadata(rt, path) else {
            return Err(KeepFault::Unwritable);
        };
        if nanoseconds_since(about, &now) >= tick {
            return Ok(());
        }
    }
    Err(KeepFault::TooNew)
}

/// Whether the bytes of an open file are these.
fn has_bytes<F: FileExt>(alloc: Global, file: &F, bytes: &[u8]) -> Result<bool, AllocError> {
    let mut part = vec![in alloc; 0u8; PART]?;
    let mut left = bytes;
    let mut at = 0u64;
    for _ in 0..u64::MAX {
        let Some(filled) = fill(file, part.as_mut_slice(), at) else {
            return Ok(false);
        };
        if filled == 0 {
            return Ok(left.is_empty());
        }
        let read = part.as_slice().get(..filled).unwrap_or_default();
        match left.strip_prefix(read) {
            Some(rest) => left = rest,
            None => return Ok(false),
        }
        at = at.saturating_add(filled as u64);
    }
    Ok(false)
}

/// Keeps in the folder `cache`, which is made where there is none, that the commit-graph file of a path has passed: that [`verify`]
/// named nothing of these bytes, which were read of it.
///
/// What the system says of the file is taken first. Then its clock goes on, and the file is read again: only where it has these bytes
/// still, the text is written, under another name, and gets its own by one step. So each later change of the file changes what the
/// system says of it, and `has_passed` is false, as long as the clocks of both folders are one. The clock goes on in some milliseconds,
/// or in seconds where it has no parts of seconds: then a file that is new isn't kept.
///
/// # Errors
///
/// `Unwritable`, `Changed`, `TooNew` and `Memory`. Nothing is kept that wasn't before.
///
/// [`verify`]: crate::verify
pub fn keep<R>(rt: &R, cache: &str, path: &str, bytes: &[u8]) -> Result<(), KeepFault>
where
    R: Files + AllocGlobal + Clone + Drop,
    R::File: FileExt,
{
    let (Some(hash), Some(file)) = (hash_of(bytes), open(rt, path)) else {
        return Err(KeepFault::Changed);
    };
    let Ok(about) = file.metadata() else {
        return Err(KeepFault::Changed);
    };
    if fs::create_dir_all(rt, cache).is_err() {
        return Err(KeepFault::Unwritable);
    }
    let kept = path_of(rt.alloc(), cache, hash)?;
    let new = format!(in rt.alloc(); "{kept}.new")?;
    wait_for_tick(rt, new.as_str(), &about)?;
    if !has_bytes(rt.alloc(), &file, bytes)? {
        return Err(KeepFault::Changed);
    }
    let text = text_of(rt.alloc(), &about, hash)?;
    if fs::write(rt, new.as_str(), text.as_str()).is_err()
        || fs::rename(rt, new.as_str(), kept.as_str()).is_err()
    {
        return Err(KeepFault::Unwritable);
    }
    Ok(())
}
