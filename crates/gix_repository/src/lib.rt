//! A repository of git, opened without git: which folders it has, its format, its refs, and where its commit-graph is.
//!
//! Files are only read. Nothing that a repository names is run or fetched, and each of its files may hold any bytes.
#![tactic(auto)]

mod fault;
mod finding;
mod folders;
mod graph;
mod listing;
mod upstream;

use fault::fault_of;
pub use fault::{Damage, Fault};
use finding::Packed;
pub use finding::{Ambiguous, ShortRef};
use folders::{Folders, joined};
pub use gix_files::ByteFiles;
use gix_hash::ObjectId;
use gix_odb::Odb;
use gix_refs::{ConfigFault, Settings, settings_of, shallow_ids};
pub use gix_refs::{Quoted, name_of_text, text_of_name};
pub use listing::{Listed, NamedRef};
use std::fs::{self, Files};
use std::os::unix::fs::FileExt;

/// The most bytes of a config, and of a border of a shallow clone.
const MOST_TEXT: u64 = 1 << 24;

/// A repository.
pub struct Repository<R: Files> {
    /// Its objects.
    pub odb: Odb<R>,
    rt: R,
    folders: Folders,
    settings: Settings,
    /// The ids of the file `shallow`, and None where there is no such file.
    shallow: Option<Vec<ObjectId>>,
    has_grafts: bool,
    /// The packed refs, once they were read to find one.
    packed: Option<Packed>,
    /// The short names that were asked for and that several refs have.
    ambiguous: Vec<Ambiguous>,
}

impl<R: Files + Drop> Drop for Repository<R> {
    fn drop(self) {
        let Repository {
            odb: _,
            rt: _,
            folders: _,
            settings: _,
            shallow: _,
            has_grafts: _,
            packed: _,
            ambiguous: _,
        } = self;
    }
}

impl<R: ByteFiles + AllocGlobal + Clone + Drop> Repository<R>
where
    R::File: FileExt,
{
    /// Opens the repository that a folder is in. As git does, it looks at this folder and then at those above it, for the first that has
    /// a `.git`, which is a repository or a file that leads to one, or that is a repository itself.
    ///
    /// # Errors
    ///
    /// `NoRepository`; `Damaged` with the first file or folder that isn't what it is to be; `Odb`; `Memory`.
    pub fn discover(rt: &R, folder: &str) -> Result<Repository<R>, Fault> {
        Repository::with_folders(rt, folders::discover(rt, folder)?)
    }

    /// Opens the repository of a folder such as `.git`, or of a file that leads to one. No other folder is tried.
    ///
    /// # Errors
    ///
    /// Those of [`discover`](Repository::discover).
    pub fn open(rt: &R, git_dir: &str) -> Result<Repository<R>, Fault> {
        match folders::at_path(rt, git_dir)? {
            Some(folders) => Repository::with_folders(rt, folders),
            None => Err(Fault::NoRepository(String::from_str(rt.alloc(), git_dir)?)),
        }
    }

    /// Opens the repository of these folders.
    fn with_folders(rt: &R, folders: Folders) -> Result<Repository<R>, Fault> {
        let settings = read_settings(rt, &folders)?;
        let objects = joined(rt.alloc(), folders.common.as_str(), "objects")?;
        let shallow = read_shallow(rt, &folders, settings.kind)?;
        let grafts = joined(rt.alloc(), folders.common.as_str(), "info/grafts")?;
        let has_grafts = match fs::metadata(rt, grafts.as_str()) {
            Ok(about) => about.len() > 0,
            Err(_) => false,
        };
        Ok(Repository {
            odb: Odb::open(rt, objects.as_str(), settings.kind)?,
            rt: rt.clone()?,
            folders,
            settings,
            shallow,
            has_grafts,
            packed: None,
            ambiguous: Vec::new(rt.alloc()),
        })
    }

    /// The kind of the repository's ids.
    pub fn kind(&self) -> gix_hash::Kind {
        self.settings.kind
    }

    /// The path of the folder of this worktree, which has its HEAD.
    pub fn git_dir(&self) -> &str {
        self.folders.git.as_str()
    }

    /// The path of the folder that all worktrees of the repository have in common. With one worktree it is the same folder.
    pub fn common_dir(&self) -> &str {
        self.folders.common.as_str()
    }

    /// Whether the repository was met as a folder that isn't called `.git`, on the way upwards from another folder. It may have come with
    /// what somebody cloned.
    pub fn is_bare(&self) -> bool {
        self.folders.is_bare
    }

    /// The border of a shallow clone, which is empty where the clone isn't shallow. The parents of these commits aren't there.
    pub fn shallow(&self) -> &[ObjectId] {
        match &self.shallow {
            Some(ids) => ids.as_slice(),
            None => &[],
        }
    }

    /// The short names that [`find_short`](Repository::find_short) was asked for and that several refs have, in the order in which it was.
    pub fn ambiguous(&self) -> &[Ambiguous] {
        self.ambiguous.as_slice()
    }

    /// Whether it is a partial clone: other objects may be missing too.
    pub fn is_partial(&self) -> bool {
        self.settings.is_partial
    }

    /// Whether `info/grafts` isn't empty, by which git would give commits other parents.
    pub fn has_grafts(&self) -> bool {
        self.has_grafts
    }

    /// How many objects git would replace by others: the refs below `refs/replace/` whose name ends with an id.
    ///
    /// # Errors
    ///
    /// Those of [`refs_below`](Repository::refs_below).
    pub fn count_replacements(&mut self) -> Result<usize, Fault> {
        let mut count = 0usize;
        let listed = self.list(b"refs/replace/", true)?;
        for replacement in listed.refs.iter() {
            let mut parts = replacement.name.as_slice().rsplit(|byte| *byte == b'/');
            let hex = parts.next().unwrap_or_default();
            if ObjectId::from_digits(hex, self.settings.kind).is_some() {
                count = count.saturating_add(1);
            }
        }
        Ok(count.saturating_add(listed.broken.len()))
    }
}

/// What the config says of a repository.
fn read_settings<R: Files + AllocGlobal>(rt: &R, folders: &Folders) -> Result<Settings, Fault>
where
    R::File: FileExt,
{
    let config = read_config(rt, folders)?;
    match settings_of(rt.alloc(), config.text.as_slice()) {
        Ok(settings) => {
            if has_reftable(rt, folders)? {
                return Err(fault_of(config.into_path(), Damage::Config(ConfigFault::Reftable)));
            }
            Ok(settings)
        }
        Err(fault) => Err(fault_of(config.into_path(), Damage::Config(fault))),
    }
}

/// The file that says a repository's config.
pub(crate) struct Config {
    /// Its path.
    pub path: String,
    /// Its bytes, which are none where there is no such file.
    pub text: Vec<u8>,
}

impl Drop for Config {
    fn drop(self) {
        let Config { path: _, text: _ } = self;
    }
}

impl Config {
    /// Its path alone.
    pub(crate) fn into_path(self) -> String {
        let Config { path, text: _ } = self;
        path
    }
}

/// Reads the config of a repository.
pub(crate) fn read_config<R: Files + AllocGlobal>(
    rt: &R,
    folders: &Folders,
) -> Result<Config, Fault>
where
    R::File: FileExt,
{
    let path = joined(rt.alloc(), folders.common.as_str(), "config")?;
    let mut text = Vec::new(rt.alloc());
    match gix_files::read(rt, path.as_str(), MOST_TEXT, &mut text) {
        Ok(_) => Ok(Config { path, text }),
        Err(damage) => Err(fault_of(path, Damage::File(damage))),
    }
}

/// Whether the refs are in a reftable, whatever the config says: then HEAD names what can't be a ref.
fn has_reftable<R: Files + AllocGlobal>(rt: &R, folders: &Folders) -> Result<bool, Fault>
where
    R::File: FileExt,
{
    let table = joined(rt.alloc(), folders.common.as_str(), "reftable")?;
    let head = joined(rt.alloc(), folders.git.as_str(), "HEAD")?;
    let mut text = Vec::new(rt.alloc());
    match gix_files::read_front(rt, head.as_str(), folders::MOST_SMALL, &mut text) {
        Ok(_) => {}
        Err(damage) => return Err(fault_of(head, Damage::File(damage))),
    }
    if !text.as_slice().starts_with(b"ref: refs/heads/.invalid") {
        return Ok(false);
    }
    match gix_files::is_folder(rt, table.as_str()) {
        Ok(answer) => Ok(answer),
        Err(damage) => Err(fault_of(table, Damage::File(damage))),
    }
}

/// The ids of the file `shallow`, and None where there is no such file.
fn read_shallow<R: Files + AllocGlobal>(
    rt: &R,
    folders: &Folders,
    kind: gix_hash::Kind,
) -> Result<Option<Vec<ObjectId>>, Fault>
where
    R::File: FileExt,
{
    let path = joined(rt.alloc(), folders.common.as_str(), "shallow")?;
    let mut text = Vec::new(rt.alloc());
    match gix_files::read(rt, path.as_str(), MOST_TEXT, &mut text) {
        Ok(true) => {}
        Ok(false) => return Ok(None),
        Err(damage) => return Err(fault_of(path, Damage::File(damage))),
    }
    match shallow_ids(rt.alloc(), kind, text.as_slice()) {
        Ok(ids) => Ok(Some(ids)),
        Err(fault) => Err(fault_of(path, Damage::Ref(fault))),
    }
}
