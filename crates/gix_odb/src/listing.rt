//! Which packs a folder has.
use crate::fault::{Damage, Fault, fault_of};
use crate::packs::Pack;
use std::alloc::Global;
use std::collections::BTreeSet;
use std::fs::{self, Files};
use std::io::{self, ErrorKind};
use std::os::unix::fs::FileExt;

/// The packs of all folders, in the order in which they were met.
pub(crate) struct Packs<F: Drop> {
    /// The packs.
    pub all: Vec<Pack<F>>,
    /// The paths of their files, up to the dot.
    stems: BTreeSet<String>,
}

impl<F: Drop> Drop for Packs<F> {
    fn drop(self) {
        let Packs { all: _, stems: _ } = self;
    }
}

impl<F: FileExt + Drop> Packs<F> {
    /// No packs.
    pub fn new(alloc: Global) -> Packs<F> {
        Packs {
            all: Vec::new(alloc),
            stems: BTreeSet::new(alloc),
        }
    }

    /// Adds the packs of a folder of objects that aren't there yet. A folder without packs has none.
    pub fn list<R>(&mut self, rt: &R, objects: &str) -> Result<(), Fault>
    where
        R: Files<File = F> + AllocGlobal + Clone + Drop,
    {
        let mut folder = String::from_str(rt.alloc(), objects)?;
        folder.push_str("/pack")?;
        let entries = match fs::read_dir(rt, folder.as_str()) {
            Ok(entries) => entries,
            Err(error) => {
                return match error.kind() {
                    ErrorKind::NotFound => Ok(()),
                    kind => Err(fault_of(folder, damage_of(kind))),
                };
            }
        };
        for entry in entries {
            match entry {
                Ok(entry) => self.add(rt.alloc(), folder.as_str(), entry.file_name())?,
                Err(error) => {
                    if error.kind() != ErrorKind::InvalidFilename {
                        return Err(fault_of(folder, damage_of(error.kind())));
                    }
                }
            }
        }
        Ok(())
    }

    /// Adds the pack whose index has this name, where it is one and isn't there yet.
    fn add(&mut self, alloc: Global, folder: &str, name: &str) -> Result<(), Fault> {
        let Some(name) = name.strip_suffix(".idx") else {
            return Ok(());
        };
        let mut stem = String::from_str(alloc, folder)?;
        stem.push_str("/")?;
        stem.push_str(name)?;
        if self.stems.contains(stem.as_str()) {
            return Ok(());
        }
        self.stems.insert(stem.clone()?)?;
        self.all.push(Pack::new(stem))?;
        Ok(())
    }

    /// Closes the files of all packs.
    pub fn close_all(&mut self) {
        for pack in self.all.iter_mut() {
            pack.close();
        }
    }
}

/// What an error of the system says of a folder.
pub(crate) fn damage_of(kind: ErrorKind) -> Damage {
    match kind {
        ErrorKind::OutOfMemory => Damage::Memory,
        _ => Damage::Unreadable,
    }
}
