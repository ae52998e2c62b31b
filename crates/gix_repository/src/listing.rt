//! Lists of refs.
use crate::Repository;
use crate::fault::{Damage, Fault, fault_at, fault_of};
use crate::finding::{MOST_NAME, MOST_READS, Packed, Target};
use crate::folders::joined_bytes;
use gix_files::{About, ByteFiles, Entry, found_at, names, real_folder};
use gix_hash::ObjectId;
use gix_refs::{Quoted, RefFault, is_name_of_any_level, packed_refs};
use std::collections::BTreeMap;
use std::os::unix::fs::FileExt;
use std::str;

/// How many folders of refs may be within one another.
const MOST_DEPTH: usize = 64;
/// How many folders are listed at the most, and how many that a symbolic link leads to.
const MOST_FOLDERS: usize = 1 << 20;

const MOST_LINKS: usize = 256;
/// How many entries of one folder are listed at the most.
const MOST_ENTRIES: usize = 1 << 24;
/// The folders of refs that a worktree has for itself.
const OWN_FOLDERS: [&[u8]; 3] = [b"refs/bisect/", b"refs/rewritten/", b"refs/worktree/"];

/// A ref with its id.
#[derive(Debug)]
pub struct NamedRef {
    /// The whole name.
    pub name: Vec<u8>,
    /// The id, where symbolic refs are followed.
    pub id: ObjectId,
}

impl Drop for NamedRef {
    fn drop(self) {
        let NamedRef { name: _, id: _ } = self;
    }
}

/// A list of refs.
#[derive(Debug)]
pub struct Listed {
    /// The refs, by rising names.
    pub refs: Vec<NamedRef>,
    /// The names of those that were passed over, since they are damaged.
    pub broken: Vec<Vec<u8>>,
}

impl Drop for Listed {
    fn drop(self) {
        let Listed { refs: _, broken: _ } = self;
    }
}

impl Listed {
    /// The refs alone.
    fn into_refs(self) -> Vec<NamedRef> {
        let Listed { refs, broken: _ } = self;
        refs
    }
}

/// What is known of the files of refs.
struct Loose {
    /// What they say, by their names.
    targets: BTreeMap<Vec<u8>, Target>,
    /// The folders that are still to be listed, each with a `/` at its end.
    folders: Vec<Vec<u8>>,
    /// How many symbolic links have led to a folder.
    links: usize,
}

impl Drop for Loose {
    fn drop(self) {
        let Loose {
            targets: _,
            folders: _,
            links: _,
        } = self;
    }
}

impl Loose {
    /// What the files that were read say.
    fn into_targets(self) -> BTreeMap<Vec<u8>, Target> {
        let Loose {
            targets,
            folders: _,
            links: _,
        } = self;
        targets
    }
}

impl<R: ByteFiles + AllocGlobal + Clone + Drop> Repository<R>
where
    R::File: FileExt,
{
    /// The refs whose names begin with this, which is a folder as `refs/` or `refs/heads/`, by rising names. For `refs/` these are all packed
    /// refs, whatever their names begin with, as in git. Symbolic refs are followed, and those that lead to none aren't in the list. Refs that
    /// are damaged are passed over, as in git.
    ///
    /// # Errors
    ///
    /// `Damaged` where a folder can't be listed, has too many entries, or is too deep, or where the packed refs are damaged. `Memory`.
    pub fn refs_below(&mut self, prefix: &[u8]) -> Result<Vec<NamedRef>, Fault> {
        Ok(self.list_below(prefix)?.into_refs())
    }

    /// As [`refs_below`](Repository::refs_below), and which refs were passed over.
    ///
    /// # Errors
    ///
    /// Those of [`refs_below`](Repository::refs_below).
    pub fn list_below(&mut self, prefix: &[u8]) -> Result<Listed, Fault> {
        self.list(prefix, false)
    }

    /// The same, where a packed ref of a name that can't be one may be passed over, or is a fault.
    pub(crate) fn list(&mut self, prefix: &[u8], passes_over: bool) -> Result<Listed, Fault> {
        let alloc = self.rt.alloc();
        let mut listed = Listed {
            refs: Vec::new(alloc),
            broken: Vec::new(alloc),
        };
        match prefix.strip_suffix(b"/") {
            Some(folder) if is_name_of_any_level(folder) => {}
            _ => return Ok(listed),
        }
        // A ref that git packs meanwhile is among the packed ones, which are read behind the files.
        let mut targets = self.read_below(prefix)?;
        let packed = self.all_packed(passes_over)?;
        // Git's `--all` takes each packed ref, whatever its name begins with.
        let takes_each = prefix == b"refs/".as_slice();
        for (name, id) in packed.iter() {
            let is_below = takes_each || name.starts_with(prefix);
            if is_below && !targets.contains_key(name.as_slice()) {
                targets.insert(name.clone()?, Target::Id(*id))?;
            }
        }
        for (name, target) in targets.iter() {
            self.add_ref(&mut listed, name.as_slice(), target, &packed)?;
        }
        Ok(listed)
    }

    /// The HEAD of this worktree, as `HEAD`, and those of the others, as `main-worktree/HEAD` and `worktrees/NAME/HEAD`, by which git's
    /// `--all` names them, by rising names. Those that are damaged, or lead to no ref, are left out.
    ///
    /// # Errors
    ///
    /// `Damaged` where the folder of the worktrees can't be listed, or where the packed refs are damaged. `Memory`.
    pub fn heads(&mut self) -> Result<Vec<NamedRef>, Fault> {
        let alloc = self.rt.alloc();
        let mut heads = Vec::new(alloc);
        let git = self.folders.git.clone()?;
        let common = self.folders.common.clone()?;
        self.add_head(&mut heads, b"HEAD", git.as_bytes())?;
        if git.as_str() != common.as_str() {
            self.add_head(&mut heads, b"main-worktree/HEAD", common.as_bytes())?;
        }
        let folder = joined_bytes(alloc, common.as_bytes(), b"worktrees/")?;
        let found = match names(&self.rt, folder.as_slice(), MOST_ENTRIES) {
            Ok(found) => found.unwrap_or(Vec::new(alloc)),
            Err(damage) => return Err(fault_at(Quoted::of(folder), Damage::File(damage))),
        };
        for name in found.iter() {
            self.add_other_head(&mut heads, folder.as_slice(), name.as_slice())?;
        }
        Ok(heads)
    }

    /// Adds the HEAD of another worktree, unless its folder is this one's or isn't a worktree's any longer.
    fn add_other_head(
        &mut self,
        heads: &mut Vec<NamedRef>,
        folder: &[u8],
        name: &[u8],
    ) -> Result<(), Fault> {
        let path = joined_bytes(self.rt.alloc(), folder, name)?;
        let real = match self.real_path(path.as_slice()) {
            Ok(Some(real)) => real,
            Ok(None) => return Ok(()),
            Err(damage) => return Err(fault_at(Quoted::of(path), Damage::File(damage))),
        };
        let mark = joined_bytes(self.rt.alloc(), real.as_slice(), b"gitdir")?;
        let is_worktree = match found_at(&self.rt, mark.as_slice(), true) {
            Ok(Some(about)) => about.len > 0,
            Err(gix_files::Damage::Memory) => return Err(Fault::Memory),
            _ => false,
        };
        if !is_worktree || real.as_slice() == self.folders.git.as_bytes() {
            return Ok(());
        }
        let mut whole = Vec::from_slice(self.rt.alloc(), b"worktrees/")?;
        whole.extend_from_slice(name)?;
        whole.extend_from_slice(b"/HEAD")?;
        self.add_head(heads, whole.as_slice(), real.as_slice())
    }

    /// The one path of a folder, or the given one if it isn't UTF-8: then it isn't this worktree's. None where there is no folder.
    fn real_path(&self, path: &[u8]) -> Result<Option<Vec<u8>>, gix_files::Damage> {
        if let Ok(text) = str::from_utf8(path) {
            return Ok(match real_folder(&self.rt, text)? {
                Some(real) => Some(real.into_bytes()),
                None => None,
            });
        }
        match found_at(&self.rt, path, true) {
            Ok(
                Some(
                    About {
                        entry: Entry::Folder,
                        ..
                    },
                ),
            ) => Ok(Some(Vec::from_slice(self.rt.alloc(), path)?)),
            Err(gix_files::Damage::Memory) => Err(gix_files::Damage::Memory),
            _ => Ok(None),
        }
    }

    /// Adds the HEAD of a folder under this name.
    fn add_head(
        &mut self,
        heads: &mut Vec<NamedRef>,
        name: &[u8],
        folder: &[u8],
    ) -> Result<(), Fault> {
        let path = joined_bytes(self.rt.alloc(), folder, b"HEAD")?;
        let target = match self.read_file(path.as_slice()) {
            Ok(Some(target)) => target,
            Ok(None) => return Ok(()),
            Err(Damage::File(gix_files::Damage::Memory)) => return Err(Fault::Memory),
            Err(_) => return Ok(()),
        };
        match self.follow(target, MOST_READS - 1, None) {
            Ok(Some(id)) => {
                let name = Vec::from_slice(self.rt.alloc(), name)?;
                heads.push(NamedRef { name, id })?;
            }
            Ok(None) => {}
            Err(fault) => {
                if !fault.is_broken_ref() {
                    return Err(fault);
                }
            }
        }
        Ok(())
    }

    /// Adds a ref to a list, unless it is damaged or leads to none.
    fn add_ref(
        &mut self,
        listed: &mut Listed,
        name: &[u8],
        target: &Target,
        packed: &Packed,
    ) -> Result<(), Fault> {
        let found = match target {
            Target::Id(id) => Ok(Some(*id)),
            Target::Name(next) => {
                let next = next.clone()?;
                self.follow(Target::Name(next), MOST_READS - 1, Some(packed))
            }
            Target::Nothing => Ok(None),
            Target::Broken => {
                listed.broken.push(Vec::from_slice(self.rt.alloc(), name)?)?;
                Ok(None)
            }
        };
        match found {
            Ok(Some(id)) => {
                if is_null(&id) {
                    listed.broken.push(Vec::from_slice(self.rt.alloc(), name)?)?;
                } else {
                    let name = Vec::from_slice(self.rt.alloc(), name)?;
                    listed.refs.push(NamedRef { name, id })?;
                }
            }
            Ok(None) => {}
            Err(fault) => {
                if !fault.is_broken_ref() {
                    return Err(fault);
                }
                listed.broken.push(Vec::from_slice(self.rt.alloc(), name)?)?;
            }
        }
        Ok(())
    }

    /// The packed refs. A name that can't be that of a ref is passed over where that is said, and else a fault.
    pub(crate) fn all_packed(&self, passes_over: bool) -> Result<Packed, Fault> {
        let alloc = self.rt.alloc();
        let text = self.read_packed()?;
        let mut all = BTreeMap::new(alloc);
        for line in packed_refs(self.settings.kind, text.as_slice()) {
            match line {
                Ok(packed) => {
                    all.insert(Vec::from_slice(alloc, packed.name)?, packed.id)?;
                }
                Err(RefFault::Name) if passes_over => {}
                Err(fault) => {
                    return Err(fault_of(self.path_of_packed()?, Damage::Ref(fault)));
                }
            }
        }
        Ok(all)
    }

    /// What the files of refs in a folder, and in the folders in it, say.
    fn read_below(&self, prefix: &[u8]) -> Result<BTreeMap<Vec<u8>, Target>, Fault> {
        let alloc = self.rt.alloc();
        let mut loose = Loose {
            targets: BTreeMap::new(alloc),
            folders: Vec::new(alloc),
            links: 0,
        };
        loose.folders.push(Vec::from_slice(alloc, prefix)?)?;
        for _ in 0..MOST_FOLDERS {
            let Some(folder) = loose.folders.pop() else {
                return Ok(loose.into_targets());
            };
            self.list_folder(&mut loose, folder.as_slice())?;
        }
        Err(fault_at(Quoted::of(self.path_of(prefix)?), Damage::TooMany))
    }

    /// Reads the files of a folder, and keeps the folders in it.
    fn list_folder(&self, loose: &mut Loose, folder: &[u8]) -> Result<(), Fault> {
        let path = self.path_of(folder)?;
        let found = match names(&self.rt, path.as_slice(), MOST_ENTRIES) {
            Ok(Some(found)) => found,
            Ok(None) => Vec::new(self.rt.alloc()),
            Err(gix_files::Damage::NotText) => {
                return Err(fault_at(Quoted::of(path), Damage::Unpacked));
            }
            Err(damage) => return Err(fault_at(Quoted::of(path), Damage::File(damage))),
        };
        for name in found.iter() {
            let name = name.as_slice();
            if !name.starts_with(b".") && !name.ends_with(b".lock") {
                self.add_entry(loose, folder, name)?;
            }
        }
        if folder == b"refs/".as_slice() {
            for own in OWN_FOLDERS {
                loose.folders.push(Vec::from_slice(self.rt.alloc(), own)?)?;
            }
        }
        Ok(())
    }

    /// Reads an entry of a folder where it is a file, and keeps it where it is a folder.
    fn add_entry(&self, loose: &mut Loose, folder: &[u8], entry: &[u8]) -> Result<(), Fault> {
        let mut name = Vec::from_slice(self.rt.alloc(), folder)?;
        name.extend_from_slice(entry)?;
        if name.len() > MOST_NAME {
            return Ok(());
        }
        let path = self.path_of(name.as_slice())?;
        match self.is_folder_of_refs(loose, path.as_slice()) {
            Ok(Some(true)) => self.keep_folder(loose, name, path),
            Ok(Some(false)) => {
                let target = self.target_in_list(name.as_slice())?;
                loose.targets.insert(name, target)?;
                Ok(())
            }
            Ok(None) => Ok(()),
            Err(damage) => Err(fault_at(Quoted::of(path), damage)),
        }
    }

    /// Whether a path is a folder. What is neither a folder nor a file, as a pipe, is listed as a file is, and is damaged. A symbolic link is
    /// what it leads to, as in git: one that leads to nothing isn't listed, even if it can be read as a symbolic ref. None of such a link. If
    /// the system doesn't say what it leads to, it is listed as a file is.
    fn is_folder_of_refs(&self, loose: &mut Loose, path: &[u8]) -> Result<Option<bool>, Damage> {
        match found_at(&self.rt, path, false)? {
            Some(found) if found.entry != Entry::Link => {
                return Ok(Some(found.entry == Entry::Folder));
            }
            Some(_) => {}
            None => return Ok(None),
        }
        match found_at(&self.rt, path, true) {
            Ok(Some(found)) => {
                if found.entry != Entry::Folder {
                    return Ok(Some(false));
                }
                if loose.links >= MOST_LINKS {
                    return Err(Damage::TooMany);
                }
                loose.links += 1;
                Ok(Some(true))
            }
            Ok(None) => Ok(None),
            Err(gix_files::Damage::Memory) => Err(Damage::File(gix_files::Damage::Memory)),
            Err(_) => Ok(Some(false)),
        }
    }

    /// Keeps a folder, to be listed later. The folders of refs that are a worktree's own are kept already.
    fn keep_folder(&self, loose: &mut Loose, name: Vec<u8>, path: Vec<u8>) -> Result<(), Fault> {
        let mut name = name;
        name.push(b'/')?;
        if depth_of(name.as_slice()) > MOST_DEPTH {
            return Err(fault_at(Quoted::of(path), Damage::Deep));
        }
        let is_own = OWN_FOLDERS.contains(&name.as_slice());
        if !is_own {
            loose.folders.push(name)?;
        }
        Ok(())
    }

    /// What the file of a ref says, where damage is no fault.
    fn target_in_list(&self, name: &[u8]) -> Result<Target, Fault> {
        if !is_name_of_any_level(name) {
            return Ok(Target::Broken);
        }
        match self.read_loose(name) {
            Ok(Some(target)) => Ok(target),
            Ok(None) => Ok(Target::Nothing),
            Err(fault) => {
                if !fault.is_broken_ref() {
                    return Err(fault);
                }
                Ok(Target::Broken)
            }
        }
    }
}

/// How many folders a name is in.
fn depth_of(name: &[u8]) -> usize {
    let mut depth = 0usize;
    for byte in name {
        if *byte == b'/' {
            depth = depth.saturating_add(1);
        }
    }
    depth
}

/// Whether all bytes of an id are 0, as of no object.
fn is_null(id: &ObjectId) -> bool {
    for byte in id.as_bytes() {
        if *byte != 0 {
            return false;
        }
    }
    true
}
