//! The ref of a name.
use crate::Repository;
use crate::fault::{Damage, Fault, broken_ref, fault_of};
use crate::folders::{MOST_SMALL, joined, joined_bytes};
use gix_files::{ByteFiles, Entry, found_at, link_bytes, read_start};
use gix_hash::ObjectId;
use gix_refs::{Quoted, Ref, is_name_of_any_level, is_ref_name, read_ref};
use std::alloc::AllocError;
use std::collections::BTreeMap;
use std::fs::Files;
use std::os::unix::fs::FileExt;

/// How many files are read for one name at the most, as in git.
pub(crate) const MOST_READS: u32 = 5;
/// The most bytes of a name.
pub(crate) const MOST_NAME: usize = 4096;
/// The most bytes of packed refs.
const MOST_PACKED: u64 = 1 << 32;

/// What is before the name of a ref that is the main worktree's own.
const MAIN: &[u8] = b"main-worktree/";
/// What may be before and behind a short name.
const PLACES: [(&[u8], &[u8]); 6] = [
    (b"", b""),
    (b"refs/", b""),
    (b"refs/tags/", b""),
    (b"refs/heads/", b""),
    (b"refs/remotes/", b""),
    (b"refs/remotes/", b"/HEAD"),
];

/// What a short name means.
#[derive(Debug)]
#[derive(Drop)]
pub struct ShortRef {
    /// The whole name.
    pub name: Vec<u8>,
    /// The id of the ref, where symbolic refs are followed.
    pub id: ObjectId,
    /// Whether the short name means another ref as well, which git takes only where the first isn't there.
    pub is_ambiguous: bool,
}

/// A short name that several refs have.
#[derive(Debug)]
pub struct Ambiguous {
    /// The short name.
    pub word: Quoted,
    /// The whole name of the ref that is taken for it.
    pub name: Quoted,
}

impl Drop for Ambiguous {
    fn drop(self) {
        let Ambiguous { word: _, name: _ } = self;
    }
}

/// What the file of a ref, or its line among the packed refs, says.
#[derive(Drop)]
pub(crate) enum Target {
    /// This id.
    Id(ObjectId),
    /// It is what the ref of this name is.
    Name(Vec<u8>),
    /// There is no such ref.
    Nothing,
    /// It is damaged.
    Broken,
}

/// The packed refs of a repository, by their names.
pub(crate) type Packed = BTreeMap<Vec<u8>, ObjectId>;

impl<R: ByteFiles + AllocGlobal + Clone + Drop> Repository<R>
where
    R::File: FileExt,
{
    /// The id of the ref of this whole name, as `HEAD` or `refs/heads/main`, where symbolic refs are followed. None where there is no such
    /// ref, or where the last of the symbolic refs leads to none. Nothing is known of the object.
    ///
    /// # Errors
    ///
    /// `BrokenRef` and `RefLoop` where this ref, or one on the way, is damaged. `Damaged` where it would be among the packed refs, and their
    /// file is damaged. `Memory`.
    pub fn find_ref(&mut self, name: &[u8]) -> Result<Option<ObjectId>, Fault> {
        if !is_name_of_any_level(name) || name.len() > MOST_NAME {
            return Ok(None);
        }
        let name = Vec::from_slice(self.rt.alloc(), name)?;
        self.follow(Target::Name(name), MOST_READS, None)
    }

    /// The first ref that a short name means, in git's order: `N` itself where it is below `refs/`, or `HEAD` or the like of this worktree or,
    /// as `main-worktree/HEAD` and `worktrees/NAME/HEAD`, of another one, and then `refs/N`, `refs/tags/N`, `refs/heads/N`, `refs/remotes/N`
    /// and `refs/remotes/N/HEAD`. A ref that is damaged is passed over, as in git.
    ///
    /// # Errors
    ///
    /// Those of [`find_ref`](Repository::find_ref). `BrokenRef` and `RefLoop` come where no other ref is meant, for the first that is damaged.
    pub fn find_short(&mut self, name: &[u8]) -> Result<Option<ShortRef>, Fault> {
        let mut found: Option<ShortRef> = None;
        let mut first = None;
        for (before, behind) in PLACES {
            if before.is_empty() && !is_whole(name) {
                continue;
            }
            let mut whole = Vec::from_slice(self.rt.alloc(), before)?;
            whole.extend_from_slice(name)?;
            whole.extend_from_slice(behind)?;
            match self.find_ref(whole.as_slice()) {
                Ok(Some(id)) => match &mut found {
                    Some(found) => found.is_ambiguous = true,
                    None => {
                        found = Some(ShortRef {
                            name: whole,
                            id,
                            is_ambiguous: false,
                        });
                    }
                },
                Ok(None) => {}
                Err(fault) => keep_broken(&mut first, fault)?,
            }
        }
        match (found, first) {
            (Some(found), _) => {
                if found.is_ambiguous {
                    self.ambiguous.push(Ambiguous {
                        word: Quoted::new(self.rt.alloc(), name)?,
                        name: Quoted::new(self.rt.alloc(), found.name.as_slice())?,
                    })?;
                }
                Ok(Some(found))
            }
            (None, Some(fault)) => Err(fault),
            (None, None) => Ok(None),
        }
    }

    /// The id that a target leads to, where so many files may still be read.
    pub(crate) fn follow(
        &mut self,
        target: Target,
        reads: u32,
        packed: Option<&Packed>,
    ) -> Result<Option<ObjectId>, Fault> {
        let mut target = target;
        let mut left = reads;
        for _ in 0..=MOST_READS {
            let name = match target {
                Target::Id(id) => return Ok(Some(id)),
                Target::Name(name) => name,
                _ => return Ok(None),
            };
            if left == 0 {
                return Err(Fault::RefLoop(Quoted::of(name)));
            }
            left -= 1;
            target = self.target_of(name.as_slice(), packed)?;
        }
        Ok(None)
    }

    /// What the ref of a name says: its file, or else its line among the packed refs, which are read where they aren't given.
    fn target_of(&mut self, name: &[u8], packed: Option<&Packed>) -> Result<Target, Fault> {
        if let Some(target) = self.read_loose(name)? {
            return Ok(target);
        }
        let id = match packed {
            Some(packed) => packed.get(name).copied(),
            None => self.find_packed(name)?,
        };
        Ok(match id {
            Some(id) => Target::Id(id),
            None => Target::Nothing,
        })
    }

    /// What the file of a ref says, and None where there is no such file.
    pub(crate) fn read_loose(&self, name: &[u8]) -> Result<Option<Target>, Fault> {
        let path = self.path_of(name)?;
        match self.read_file(path.as_slice()) {
            Ok(target) => Ok(target),
            Err(damage) => Err(broken_ref(Quoted::of(path), damage)),
        }
    }

    /// The same of its path.
    pub(crate) fn read_file(&self, path: &[u8]) -> Result<Option<Target>, Damage> {
        let Some(found) = found_at(&self.rt, path, false)? else {
            return Ok(None);
        };
        let is_link = found.entry == Entry::Link;
        if found.entry == Entry::Folder {
            return Ok(None);
        }
        if is_link {
            if let Some(name) = link_bytes(&self.rt, path)? {
                if name.starts_with(b"refs/") && is_ref_name(name.as_slice()) {
                    return Ok(Some(Target::Name(name)));
                }
            }
        }
        let mut text = Vec::new(self.rt.alloc());
        let Some(len) = read_start(&self.rt, path, MOST_SMALL, &mut text)? else {
            return Ok(if is_link { Some(Target::Nothing) } else { None });
        };
        match read_ref(self.settings.kind, text.as_slice()) {
            Ok(Ref::Id(id)) => Ok(Some(Target::Id(id))),
            Ok(Ref::Symbolic(name)) => {
                if len > MOST_SMALL {
                    return Err(Damage::File(gix_files::Damage::FileTooLarge(len)));
                }
                Ok(Some(Target::Name(Vec::from_slice(self.rt.alloc(), name)?)))
            }
            Err(fault) => Err(Damage::Ref(fault)),
        }
    }

    /// The path of the file of a ref, or of a folder of refs. Some refs are this worktree's own, and such refs of the main worktree are in
    /// the folder that all have in common.
    pub(crate) fn path_of(&self, name: &[u8]) -> Result<Vec<u8>, AllocError> {
        let common = self.folders.common.as_str();
        let (folder, file) = match name.strip_prefix(MAIN) {
            Some(own) if is_own(own) => (common, own),
            _ if is_own(name) => (self.folders.git.as_str(), name),
            _ => (common, name),
        };
        joined_bytes(self.rt.alloc(), folder.as_bytes(), file)
    }

    /// The id that the packed refs give to a name. Their file is read once, when a name that has no file of its own is asked for first.
    fn find_packed(&mut self, name: &[u8]) -> Result<Option<ObjectId>, Fault> {
        if self.packed.is_none() {
            let packed = self.all_packed(true)?;
            self.packed = Some(packed);
        }
        Ok(match &self.packed {
            Some(packed) => packed.get(name).copied(),
            None => None,
        })
    }

    /// The path of the file of the packed refs.
    pub(crate) fn path_of_packed(&self) -> Result<String, AllocError> {
        joined(self.rt.alloc(), self.folders.common.as_str(), "packed-refs")
    }

    /// The bytes of the packed refs, which are none where there is no such file.
    pub(crate) fn read_packed(&self) -> Result<Vec<u8>, Fault> {
        let path = self.path_of_packed()?;
        let mut text = Vec::new(self.rt.alloc());
        match gix_files::read(&self.rt, path.as_str(), MOST_PACKED, &mut text) {
            Ok(_) => Ok(text),
            Err(damage) => Err(fault_of(path, Damage::File(damage))),
        }
    }
}

/// Keeps the fault of a broken ref where there is none yet. Others are returned.
fn keep_broken(first: &mut Option<Fault>, fault: Fault) -> Result<(), Fault> {
    if !fault.is_broken_ref() {
        return Err(fault);
    }
    if first.is_none() {
        *first = Some(fault);
    }
    Ok(())
}

/// Whether a name can be a whole one: it is below `refs/`, or has capitals and underscores alone, or is a worktree's own ref of any worktree:
/// `main-worktree/HEAD`, `worktrees/NAME/HEAD` and the like.
fn is_whole(name: &[u8]) -> bool {
    if let Some(own) = name.strip_prefix(MAIN) {
        return is_own(own);
    }
    if let Some(rest) = name.strip_prefix(b"worktrees/") {
        let end = rest.iter().position(|byte| *byte == b'/');
        if let Some((_, [_, own @ ..])) = rest.split_at_checked(end.unwrap_or(rest.len())) {
            return is_own(own);
        }
    }
    name.starts_with(b"refs/") || (is_upper(name) && !name.contains(&b'-'))
}

/// Whether a name is that of a worktree's own ref.
fn is_own(name: &[u8]) -> bool {
    is_of_worktree(name) || is_upper(name)
}

/// Whether a name has no other bytes than capitals, underscores and hyphens.
fn is_upper(name: &[u8]) -> bool {
    for byte in name {
        if !byte.is_ascii_uppercase() && *byte != b'_' && *byte != b'-' {
            return false;
        }
    }
    true
}

/// Whether a ref or a folder of refs below `refs/` is a worktree's own.
fn is_of_worktree(name: &[u8]) -> bool {
    name.starts_with(b"refs/bisect/")
        || name.starts_with(b"refs/worktree/")
        || name.starts_with(b"refs/rewritten/")
}
