//! The upstream of a branch.
use crate::config::Keys;
use crate::fault::ConfigFault;
use std::alloc::{AllocError, Global};

/// What a branch follows.
struct Followed {
    /// The name of the remote, or `.` for the repository itself.
    remote: Vec<u8>,
    /// The whole name that the ref has there.
    name: Vec<u8>,
}

impl Drop for Followed {
    fn drop(self) {
        let Followed { remote: _, name: _ } = self;
    }
}

/// The whole name of the ref that is the upstream of a branch: of `main`, often `refs/remotes/origin/main`. It is where the first `fetch` of
/// the branch's remote that fits puts the ref of its first `merge`, or this ref itself where the remote is `.`. None where a config doesn't
/// say it. Other files that it includes aren't read.
///
/// # Errors
///
/// `Line` where the text is no config. `Memory`.
pub fn upstream_of(
    alloc: Global,
    config: &[u8],
    branch: &[u8],
) -> Result<Option<Vec<u8>>, ConfigFault> {
    match followed_by(alloc, config, branch)? {
        Some(followed) => {
            if followed.remote.as_slice() == b".".as_slice() {
                Ok(Some(followed.name.clone()?))
            } else {
                fetched(alloc, config, &followed)
            }
        }
        None => Ok(None),
    }
}

/// What a branch follows: of several remotes the last counts, and of several refs the first.
fn followed_by(
    alloc: Global,
    config: &[u8],
    branch: &[u8],
) -> Result<Option<Followed>, ConfigFault> {
    let remote_key = key_of(alloc, b"branch.", branch, b".remote")?;
    let merge_key = key_of(alloc, b"branch.", branch, b".merge")?;
    let mut remote = None;
    let mut name = None;
    let mut keys = Keys::new(alloc, config);
    for _ in 0..u64::MAX {
        let Some(has_value) = keys.next()? else {
            break;
        };
        if !has_value {
            continue;
        }
        if keys.name.as_slice() == remote_key.as_slice() {
            remote = Some(keys.value.clone()?);
        } else if keys.name.as_slice() == merge_key.as_slice() && name.is_none() {
            name = Some(keys.value.clone()?);
        }
    }
    Ok(match (remote, name) {
        (Some(remote), Some(name)) => Some(Followed { remote, name }),
        _ => None,
    })
}

/// Where the first `fetch` of a remote that fits puts a ref.
fn fetched(
    alloc: Global,
    config: &[u8],
    followed: &Followed,
) -> Result<Option<Vec<u8>>, ConfigFault> {
    let key = key_of(alloc, b"remote.", followed.remote.as_slice(), b".fetch")?;
    let mut keys = Keys::new(alloc, config);
    for _ in 0..u64::MAX {
        let Some(has_value) = keys.next()? else {
            break;
        };
        if has_value && keys.name.as_slice() == key.as_slice() {
            if let Some(name) = mapped(alloc, keys.value.as_slice(), followed.name.as_slice())? {
                return Ok(Some(name));
            }
        }
    }
    Ok(None)
}

/// The name of a key.
fn key_of(
    alloc: Global,
    section: &[u8],
    subsection: &[u8],
    key: &[u8],
) -> Result<Vec<u8>, AllocError> {
    let mut name = Vec::from_slice(alloc, section)?;
    name.extend_from_slice(subsection)?;
    name.extend_from_slice(key)?;
    Ok(name)
}

/// What a rule as `+refs/heads/*:refs/remotes/origin/*` makes of a name, where it fits.
fn mapped(alloc: Global, rule: &[u8], name: &[u8]) -> Result<Option<Vec<u8>>, AllocError> {
    let Some((from, to)) = cut(rule.strip_prefix(b"+").unwrap_or(rule), b':') else {
        return Ok(None);
    };
    let (Some((front, back)), Some((before, behind))) = (cut(from, b'*'), cut(to, b'*')) else {
        return if from == name && !to.is_empty() {
            Ok(Some(Vec::from_slice(alloc, to)?))
        } else {
            Ok(None)
        };
    };
    match name
        .strip_prefix(front)
        .and_then(|rest| rest.strip_suffix(back))
    {
        Some(part) => Ok(Some(key_of(alloc, before, part, behind)?)),
        None => Ok(None),
    }
}

/// What is before the first such byte, and what is behind it. None where there is none.
fn cut(text: &[u8], byte: u8) -> Option<(&[u8], &[u8])> {
    let end = text.iter().position(|other| *other == byte)?;
    match text.split_at_checked(end) {
        Some((before, [_, behind @ ..])) => Some((before, behind)),
        _ => None,
    }
}
