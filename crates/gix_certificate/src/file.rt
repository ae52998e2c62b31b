//! The files of certificates, and that of the program.
use crate::digest::Digest;
use crate::fault::Fault;
use crate::read::read_certificate;
use crate::record::{Certificate, Program};
use gix_files::{Damage, read};
use std::fs::{self, File, Files, OpenFile};
use std::io::{self, ErrorKind, Write};
use std::os::unix::fs::FileExt;

/// How many bytes of a certificate are read at the most.
const MOST_BYTES: u64 = 1 << 26;
/// How many bytes of the program are read at the most.
const MOST_OF_PROGRAM: u64 = 1 << 30;
/// The file of the program that runs.
const RUNNING: &str = "/proc/self/exe";

/// Whether a new file can have this name: there is nothing of it yet.
///
/// # Errors
///
/// `Exists`, also of a link that leads nowhere. `Memory`.
pub fn check_new<R: Files + AllocGlobal>(rt: &R, path: &str) -> Result<(), Fault> {
    match fs::symlink_metadata(rt, path) {
        Ok(_) => Err(Fault::Exists(String::from_str(rt.alloc(), path)?)),
        Err(_) => Ok(()),
    }
}

/// Writes a text into a new file.
///
/// # Errors
///
/// `Exists`, and nothing is changed. `Unwritten`, and there is no such file. `Cut`, and there is one with a beginning of the text. `Memory`,
/// with one of these.
pub fn save<R: Files + AllocGlobal>(rt: &R, path: &str, text: &str) -> Result<(), Fault> {
    let name = String::from_str(rt.alloc(), path)?;
    let mut file = match File::create_new(rt, path) {
        Ok(file) => file,
        Err(error) if error.kind() == ErrorKind::AlreadyExists => return Err(Fault::Exists(name)),
        Err(_) => return Err(Fault::Unwritten(name)),
    };
    let written = write_whole(&mut file, text);
    drop(file);
    if written.is_ok() {
        return Ok(());
    }
    match fs::remove_file(rt, path) {
        Ok(()) => Err(Fault::Unwritten(name)),
        Err(_) => Err(Fault::Cut(name)),
    }
}

/// Writes a text, and waits until the system has it on its disk.
fn write_whole<F: Write + OpenFile>(file: &mut F, text: &str) -> io::Result<()> {
    file.write_all(text.as_bytes())?;
    file.sync_all()
}

/// Reads the certificate of a file.
///
/// # Errors
///
/// `Absent`, `Unread`, and those of [`read_certificate`].
pub fn load<R: Files + AllocGlobal>(rt: &R, path: &str) -> Result<Certificate, Fault>
where
    R::File: FileExt,
{
    let mut bytes = Vec::new(rt.alloc());
    match read(rt, path, MOST_BYTES, &mut bytes) {
        Ok(true) => read_certificate(rt.alloc(), bytes.as_slice()),
        Ok(false) => Err(Fault::Absent(String::from_str(rt.alloc(), path)?)),
        Err(Damage::Memory) => Err(Fault::Memory),
        Err(damage) => Err(Fault::Unread(String::from_str(rt.alloc(), path)?, damage)),
    }
}

/// The program that runs, of this version, of which what built it has left a line. Its file is the one that the system names, or else the
/// one that the program was called by.
///
/// # Errors
///
/// `Program`, `Memory`.
pub fn running_program<R: Files + AllocGlobal>(
    rt: &R,
    version: &str,
    about: Option<&String>,
    called: Option<&String>,
) -> Result<Program, Fault>
where
    R::File: FileExt,
{
    let about = match about {
        Some(about) => about.as_str(),
        None => "",
    };
    if let Some(sha256) = digest_of_file(rt, RUNNING)? {
        return Ok(Program::new(rt.alloc(), version, about, sha256)?);
    }
    let called = match called {
        Some(called) => digest_of_file(rt, called.as_str())?,
        None => None,
    };
    match called {
        Some(sha256) => Ok(Program::new(rt.alloc(), version, about, sha256)?),
        None => Err(Fault::Program(Damage::Unreadable)),
    }
}

/// The digest of a file of the program, and None where there is none.
fn digest_of_file<R: Files + AllocGlobal>(rt: &R, path: &str) -> Result<Option<Digest>, Fault>
where
    R::File: FileExt,
{
    let mut bytes = Vec::new(rt.alloc());
    match read(rt, path, MOST_OF_PROGRAM, &mut bytes) {
        Ok(true) => Ok(Some(Digest::of(bytes.as_slice()))),
        Ok(false) => Ok(None),
        Err(Damage::Memory) => Err(Fault::Memory),
        Err(damage) => Err(Fault::Program(damage)),
    }
}
