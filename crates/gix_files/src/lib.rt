//! Reading of files and folders that anybody may have written: no more bytes than a bound, and nothing of a device, which might never end.
#![tactic(auto)]

ghost use Rattle.std.specs.Prelude.{◌≡◌, ◌+◌, ◌≤◌, ◌<◌, length, IfOk};

mod bytes;
mod damage;
mod folders;
mod host;

pub use bytes::{About, ByteFiles, found_at, link_bytes, names, read_start};
pub use damage::Damage;
use damage::absent;
pub use folders::{Entry, entry_of, is_folder, is_there, link_text, real_folder};
use std::fs::{self, Files};
use std::io::ErrorKind;
use std::os::unix::fs::FileExt;

/// A file that is open.
#[derive(Drop)]
pub struct Opened<F: Drop> {
    /// The file.
    pub file: F,
    /// How many bytes it had when it was opened.
    pub len: u64,
}

/// Opens a file, and None where there is none. What is no file, as a device, isn't opened.
///
/// # Errors
///
/// `NotAFile`, `Unreadable`, `Memory`.
pub fn open<R: Files>(rt: &R, path: &str) -> Result<Option<Opened<R::File>>, Damage> {
    let about = match fs::metadata(rt, path) {
        Ok(about) => about,
        Err(error) => return absent(error.kind()),
    };
    if !about.is_file() {
        return Err(Damage::NotAFile);
    }
    match fs::open(rt, path) {
        Ok(file) => Ok(Some(Opened {
            file,
            len: about.len(),
        })),
        Err(error) => absent(error.kind()),
    }
}

/// Puts the bytes of a file from a place on into `buffer`, as many as there is room for, or all up to the file's end. How many.
///
/// # Errors
///
/// `Unreadable`. The buffer may then hold anything.
pub fn fill<F: FileExt>(file: &F, buffer: &mut [u8], at: u64) -> Result<usize, Damage>
    ensures len { length buffer.new ≡ length buffer.old }
    ensures within { IfOk result (λ filled. filled ≤ length buffer.old) }
{
    let mut filled = 0usize;
    for _ in 0..u64::MAX {
        if filled >= buffer.len() {
            return Ok(buffer.len());
        }
        match file.read_at(&mut buffer[filled..], at.wrapping_add(filled as u64)) {
            Ok(0) => return Ok(filled),
            Ok(count) => filled = filled.saturating_add(count),
            Err(error) => {
                if error.kind() != ErrorKind::Interrupted {
                    return Err(Damage::Unreadable);
                }
            }
        }
    }
    Err(Damage::Unreadable)
}

/// Puts the bytes of a file into `out` in place of what was there, where these are `most` at the most. Whether there is such a file.
///
/// # Errors
///
/// `FileTooLarge`, and those of [`open`]. `out` may then hold anything.
pub fn read<R: Files>(rt: &R, path: &str, most: u64, out: &mut Vec<u8>) -> Result<bool, Damage>
where
    R::File: FileExt,
{
    out.clear();
    let Some(opened) = open(rt, path)? else {
        return Ok(false);
    };
    if opened.len > most {
        return Err(Damage::FileTooLarge(opened.len));
    }
    read_all(&opened.file, opened.len, out)?;
    Ok(true)
}

/// As [`read`], but of a longer file it puts the first `most` bytes into `out`. How many bytes the file has, and None where there is none.
///
/// # Errors
///
/// Those of [`open`]. `out` may then hold anything.
pub fn read_front<R: Files>(
    rt: &R,
    path: &str,
    most: u64,
    out: &mut Vec<u8>,
) -> Result<Option<u64>, Damage>
where
    R::File: FileExt,
{
    out.clear();
    let Some(opened) = open(rt, path)? else {
        return Ok(None);
    };
    read_all(&opened.file, opened.len.min(most), out)?;
    Ok(Some(opened.len))
}

/// Puts the first bytes of a file into `out`, so many, or all where these are fewer.
fn read_all<F: FileExt>(file: &F, len: u64, out: &mut Vec<u8>) -> Result<(), Damage> {
    *out = vec![in *out.allocator(); 0u8; len as usize]?;
    let filled = fill(file, out.as_mut_slice(), 0)?;
    out.truncate(filled);
    Ok(())
}
