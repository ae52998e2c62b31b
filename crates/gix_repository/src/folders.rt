//! Which folders a repository has.
use crate::fault::{Damage, Fault, fault_of};
use gix_files::{Entry, entry_of, is_folder, link_text, read, read_front, real_folder};
use gix_refs::{common_dir, git_file, is_head};
use std::alloc::{AllocError, Global};
use std::fs::Files;
use std::os::unix::fs::FileExt;

/// The most bytes of a file that says one path or one ref.
pub(crate) const MOST_SMALL: u64 = 4096;
/// How many bytes of HEAD show whether a folder is a repository.
const MOST_HEAD: u64 = 255;

/// The folders of a repository.
pub(crate) struct Folders {
    /// The one of this worktree.
    pub git: String,
    /// The one that all worktrees have in common.
    pub common: String,
    /// Whether it was met as a folder that isn't `.git`, on the way upwards.
    pub is_bare: bool,
}

impl Drop for Folders {
    fn drop(self) {
        let Folders {
            git: _,
            common: _,
            is_bare: _,
        } = self;
    }
}

/// The path of a name in a folder, or the name alone where it is a path from the root.
pub(crate) fn joined(alloc: Global, folder: &str, name: &str) -> Result<String, AllocError> {
    let mut path = String::new(alloc);
    if !name.starts_with("/") {
        path.push_str(folder)?;
        if !folder.ends_with("/") {
            path.push('/')?;
        }
    }
    path.push_str(name)?;
    Ok(path)
}

/// The path of a name in a folder, where they may hold any bytes.
pub(crate) fn joined_bytes(
    alloc: Global,
    folder: &[u8],
    name: &[u8],
) -> Result<Vec<u8>, AllocError> {
    let mut path = Vec::from_slice(alloc, folder)?;
    if !folder.ends_with(b"/") {
        path.push(b'/')?;
    }
    path.extend_from_slice(name)?;
    Ok(path)
}

/// The folders of the repository that a folder is in, as git finds it: of this folder and those above it, the first that has a `.git`, or
/// is a repository itself.
pub(crate) fn discover<R: Files + AllocGlobal>(rt: &R, folder: &str) -> Result<Folders, Fault>
where
    R::File: FileExt,
{
    let mut place = match real_folder(rt, folder) {
        Ok(Some(start)) => start,
        Ok(None) => return Err(Fault::NoRepository(String::from_str(rt.alloc(), folder)?)),
        Err(damage) => return Err(damaged(rt, folder, Damage::File(damage))?),
    };
    for _ in 0..=place.len() {
        if let Some(folders) = look_at(rt, place.as_str())? {
            return Ok(folders);
        }
        match above(rt.alloc(), place.as_str())? {
            Some(above) => place = above,
            None => break,
        }
    }
    Err(Fault::NoRepository(String::from_str(rt.alloc(), folder)?))
}

/// The path of the folder above one whose path begins with `/`. None of the root.
fn above(alloc: Global, place: &str) -> Result<Option<String>, AllocError> {
    Ok(match place.rsplit_once('/') {
        Some(("", "")) | None => None,
        Some(("", _)) => Some(String::from_str(alloc, "/")?),
        Some((above, _)) => Some(String::from_str(alloc, above)?),
    })
}

/// The repository of a folder, where it has a `.git` or is one itself.
fn look_at<R: Files + AllocGlobal>(rt: &R, place: &str) -> Result<Option<Folders>, Fault>
where
    R::File: FileExt,
{
    let path = joined(rt.alloc(), place, ".git")?;
    if let Some(folders) = at_path(rt, path.as_str())? {
        return Ok(Some(folders));
    }
    match at_folder(rt, place)? {
        Some(mut folders) => {
            folders.is_bare = true;
            Ok(Some(folders))
        }
        None => Ok(None),
    }
}

/// The repository of a path: a folder that is one, or a file that leads to one. None where it is a folder that isn't one, or nothing.
pub(crate) fn at_path<R: Files + AllocGlobal>(rt: &R, path: &str) -> Result<Option<Folders>, Fault>
where
    R::File: FileExt,
{
    match is_folder(rt, path) {
        Ok(true) => return at_folder(rt, path),
        Ok(false) => {}
        Err(damage) => return Err(damaged(rt, path, Damage::File(damage))?),
    }
    let mut text = Vec::new(rt.alloc());
    match read(rt, path, MOST_SMALL, &mut text) {
        Ok(true) => {}
        Ok(false) => return Ok(None),
        Err(damage) => return Err(damaged(rt, path, Damage::File(damage))?),
    }
    let name = match git_file(text.as_slice()) {
        Ok(name) => name,
        Err(fault) => return Err(damaged(rt, path, Damage::Ref(fault))?),
    };
    let folder = path.rsplit_once('/').map_or(".", |(folder, _)| folder);
    let leads = joined(rt.alloc(), folder, name)?;
    match at_folder(rt, leads.as_str())? {
        Some(folders) => Ok(Some(folders)),
        None => Err(damaged(rt, path, Damage::LeadsNowhere(leads))?),
    }
}

/// The fault of a file.
fn damaged<R: AllocGlobal>(rt: &R, file: &str, damage: Damage) -> Result<Fault, AllocError> {
    Ok(fault_of(String::from_str(rt.alloc(), file)?, damage))
}

/// The folders of the repository that a folder is. None where it is none: a repository has a HEAD, objects and refs.
fn at_folder<R: Files + AllocGlobal>(rt: &R, path: &str) -> Result<Option<Folders>, Fault>
where
    R::File: FileExt,
{
    let git = match real_folder(rt, path) {
        Ok(Some(git)) => git,
        Ok(None) => return Ok(None),
        Err(damage) => return Err(damaged(rt, path, Damage::File(damage))?),
    };
    if !has_head(rt, git.as_str())? {
        return Ok(None);
    }
    let common = common_of(rt, git.as_str())?;
    for name in ["objects", "refs"] {
        let path = joined(rt.alloc(), common.as_str(), name)?;
        match is_folder(rt, path.as_str()) {
            Ok(true) => {}
            Ok(false) => return Ok(None),
            Err(damage) => return Err(fault_of(path, Damage::File(damage))),
        }
    }
    Ok(Some(Folders {
        git,
        common,
        is_bare: false,
    }))
}

/// Whether a folder has a HEAD that could be a repository's. A symbolic link has to lead below `refs/`.
fn has_head<R: Files + AllocGlobal>(rt: &R, git: &str) -> Result<bool, Fault>
where
    R::File: FileExt,
{
    let path = joined(rt.alloc(), git, "HEAD")?;
    match looks_like_head(rt, path.as_str()) {
        Ok(answer) => Ok(answer),
        Err(gix_files::Damage::Memory) => Err(Fault::Memory),
        Err(_) => Ok(false),
    }
}

/// The same of its path.
fn looks_like_head<R: Files + AllocGlobal>(rt: &R, path: &str) -> Result<bool, gix_files::Damage>
where
    R::File: FileExt,
{
    if let Some(Entry::Link) = entry_of(rt, path)? {
        return Ok(match link_text(rt, path)? {
            Some(text) => text.as_str().starts_with("refs/"),
            None => false,
        });
    }
    let mut text = Vec::new(rt.alloc());
    let about = read_front(rt, path, MOST_HEAD, &mut text)?;
    Ok(about.is_some() && is_head(text.as_slice()))
}

/// The folder that a repository's worktrees have in common.
fn common_of<R: Files + AllocGlobal>(rt: &R, git: &str) -> Result<String, Fault>
where
    R::File: FileExt,
{
    let path = joined(rt.alloc(), git, "commondir")?;
    match common_by(rt, git, path.as_str()) {
        Ok(Some(common)) => Ok(common),
        Ok(None) => Ok(String::from_str(rt.alloc(), git)?),
        Err(damage) => Err(fault_of(path, damage)),
    }
}

/// The folder that a file leads to, and None where there is no such file.
fn common_by<R: Files + AllocGlobal>(
    rt: &R,
    git: &str,
    path: &str,
) -> Result<Option<String>, Damage>
where
    R::File: FileExt,
{
    let mut text = Vec::new(rt.alloc());
    if !read(rt, path, MOST_SMALL, &mut text)? {
        return Ok(None);
    }
    let name = match common_dir(text.as_slice()) {
        Ok(name) => name,
        Err(fault) => return Err(Damage::Ref(fault)),
    };
    let leads = joined(rt.alloc(), git, name)?;
    match real_folder(rt, leads.as_str())? {
        Some(common) => Ok(Some(common)),
        None => Err(Damage::LeadsNowhere(leads)),
    }
}
