//! The upstream of a branch.
use crate::fault::{Damage, Fault, fault_of};
use crate::finding::{MOST_READS, Target};
use crate::{Repository, read_config};
use gix_files::ByteFiles;
use gix_refs::upstream_of;
use std::fs::Files;
use std::os::unix::fs::FileExt;

impl<R: ByteFiles + AllocGlobal + Clone + Drop> Repository<R>
where
    R::File: FileExt,
{
    /// The whole name of the ref that is the upstream of a branch, or of the one that HEAD leads to where none is named: as
    /// `refs/remotes/origin/main`. None where the repository's config doesn't say it, or HEAD leads to no branch. Whether there is such a ref isn't
    /// tested.
    ///
    /// # Errors
    ///
    /// `BrokenRef` where HEAD is damaged, `Damaged` where the config is. `Memory`.
    pub fn upstream(&self, branch: Option<&[u8]>) -> Result<Option<Vec<u8>>, Fault> {
        match branch {
            Some(branch) => self.upstream_by_config(branch),
            None => self.upstream_of_head(),
        }
    }

    /// The upstream of the branch that HEAD is, where symbolic refs are followed.
    fn upstream_of_head(&self) -> Result<Option<Vec<u8>>, Fault> {
        let mut name = Vec::from_slice(self.rt.alloc(), b"HEAD")?;
        for _ in 0..MOST_READS {
            let Some(Target::Name(next)) = self.read_loose(name.as_slice())? else {
                break;
            };
            name = next;
        }
        match name.as_slice().strip_prefix(b"refs/heads/") {
            Some(branch) => self.upstream_by_config(branch),
            None => Ok(None),
        }
    }

    /// The upstream that the config says.
    fn upstream_by_config(&self, branch: &[u8]) -> Result<Option<Vec<u8>>, Fault> {
        let config = read_config(&self.rt, &self.folders)?;
        match upstream_of(self.rt.alloc(), config.text.as_slice(), branch) {
            Ok(upstream) => Ok(upstream),
            Err(fault) => Err(fault_of(config.into_path(), Damage::Config(fault))),
        }
    }
}
