//! Files that say one thing: a ref, or a path.
use crate::fault::RefFault;
use crate::names::is_name_of_any_level;
use gix_hash::{Kind, ObjectId};
use std::str;

/// What the file of a ref says.
#[derive(Clone, Copy, PartialEq, Eq, Debug)]
pub enum Ref<'a> {
    /// It is this id.
    Id(ObjectId),
    /// It is what the ref of this name is, which is a name of any level.
    Symbolic(&'a [u8]),
}

/// Reads the file of a ref: an id of this kind and white space, behind which may be anything, or `ref:`, white space and a name, and
/// white space at the end.
///
/// # Errors
///
/// `NoRef`, and `Name` where it names what can't be the name of a ref.
pub fn read_ref(kind: Kind, text: &[u8]) -> Result<Ref<'_>, RefFault> {
    if let [b'r', b'e', b'f', b':', name @ ..] = text {
        let name = trimmed(name);
        return if is_name_of_any_level(name) {
            Ok(Ref::Symbolic(name))
        } else {
            Err(RefFault::Name)
        };
    }
    let Some((digits, behind)) = text.split_at_checked(kind.len_in_hex()) else {
        return Err(RefFault::NoRef);
    };
    match behind {
        [] | [b' ' | b'\t' | b'\n' | b'\r', ..] => match ObjectId::from_digits(digits, kind) {
            Some(id) => Ok(Ref::Id(id)),
            None => Err(RefFault::NoRef),
        },
        _ => Err(RefFault::NoRef),
    }
}

/// Whether the front of a text makes its file the HEAD of a repository, before the kind of the repository's ids is known: `ref:` and a
/// name below `refs/`, be it a name of a ref or not, or an id of either kind, behind which may be anything.
pub fn is_head(text: &[u8]) -> bool {
    if let [b'r', b'e', b'f', b':', name @ ..] = text {
        if without_space(name).starts_with(b"refs/") {
            return true;
        }
    }
    match text.get(..Kind::Sha1.len_in_hex()) {
        Some(digits) => ObjectId::from_digits(digits, Kind::Sha1).is_some(),
        None => false,
    }
}

/// The path behind `gitdir: ` in a file of the name `.git`, which leads to the folder of a repository. Ends of lines at its end don't
/// count.
///
/// # Errors
///
/// `NoRepository`, `NotText`.
pub fn git_file(text: &[u8]) -> Result<&str, RefFault> {
    let [b'g', b'i', b't', b'd', b'i', b'r', b':', b' ', path @ ..] = text else {
        return Err(RefFault::NoRepository);
    };
    match without_line_end(path) {
        [] => Err(RefFault::NoRepository),
        path => text_of(path),
    }
}

/// The path in the file `commondir` of a worktree, which leads to the folder that all worktrees of the repository have in common. Ends of
/// lines at its end don't count.
///
/// # Errors
///
/// `NoFolder`, `NotText`.
pub fn common_dir(text: &[u8]) -> Result<&str, RefFault> {
    match without_line_end(text) {
        [] => Err(RefFault::NoFolder),
        path => text_of(path),
    }
}

/// Bytes as text.
fn text_of(bytes: &[u8]) -> Result<&str, RefFault> {
    match str::from_utf8(bytes) {
        Ok(text) => Ok(text),
        Err(_) => Err(RefFault::NotText),
    }
}

/// A text without the ends of lines at its end.
fn without_line_end(text: &[u8]) -> &[u8] {
    let mut rest = text;
    for _ in 0..text.len() {
        match rest {
            [front @ .., b'\n' | b'\r'] => rest = front,
            _ => break,
        }
    }
    rest
}

/// A text without white space at its front.
fn without_space(text: &[u8]) -> &[u8] {
    let mut rest = text;
    for _ in 0..text.len() {
        match rest {
            [b' ' | b'\t' | b'\n' | b'\r', behind @ ..] => rest = behind,
            _ => break,
        }
    }
    rest
}

/// A text without white space at both ends.
fn trimmed(text: &[u8]) -> &[u8] {
    let mut rest = without_space(text);
    for _ in 0..text.len() {
        match rest {
            [front @ .., b' ' | b'\t' | b'\n' | b'\r'] => rest = front,
            _ => break,
        }
    }
    rest
}
