//! Where git's commit-graph is.
use crate::Repository;
use crate::fault::{Damage, Fault, fault_of};
use crate::folders::joined;
use gix_files::ByteFiles;
use gix_hash::ObjectId;
use std::fs::Files;
use std::os::unix::fs::FileExt;
use std::str;

/// The most bytes of the list of the layers.
const MOST_CHAIN: u64 = 1 << 16;

impl<R: ByteFiles + AllocGlobal + Clone + Drop> Repository<R>
where
    R::File: FileExt,
{
    /// The paths of the layers of git's commit-graph, the lowest first, each of which is a file that can be opened. None are there where git
    /// would take none: where the clone is shallow, has grafts or replacements, or `core.commitGraph` is off. A commit-graph of an alternate
    /// isn't taken, and neither is one of which a layer is missing.
    ///
    /// # Errors
    ///
    /// Those of [`count_replacements`](Repository::count_replacements).
    pub fn graph_layers(&mut self) -> Result<Vec<String>, Fault> {
        let alloc = self.rt.alloc();
        let mut layers = Vec::new(alloc);
        if !self.settings.has_commit_graph || self.shallow.is_some() || self.has_grafts {
            return Ok(layers);
        }
        if self.count_replacements()? > 0 {
            return Ok(layers);
        }
        let info = joined(alloc, self.folders.common.as_str(), "objects/info")?;
        let single = joined(alloc, info.as_str(), "commit-graph")?;
        match gix_files::is_there(&self.rt, single.as_str()) {
            Ok(true) => {
                if self.can_open(single.as_str())? {
                    layers.push(single)?;
                }
                Ok(layers)
            }
            Ok(false) => self.chain_in(info.as_str()),
            Err(damage) => Err(fault_of(single, Damage::File(damage))),
        }
    }

    /// The layers that a list names. None where one of them is missing, or the list is no list.
    fn chain_in(&self, info: &str) -> Result<Vec<String>, Fault> {
        let alloc = self.rt.alloc();
        let mut layers = Vec::new(alloc);
        let folder = joined(alloc, info, "commit-graphs")?;
        let list = joined(alloc, folder.as_str(), "commit-graph-chain")?;
        let mut text = Vec::new(alloc);
        match gix_files::read(&self.rt, list.as_str(), MOST_CHAIN, &mut text) {
            Ok(true) => {}
            Ok(false) => return Ok(layers),
            Err(gix_files::Damage::Memory) => return Err(Fault::Memory),
            Err(_) => return Ok(layers),
        }
        let text = match text.as_slice() {
            [front @ .., b'\n'] => front,
            text => text,
        };
        for line in text.split(|byte| *byte == b'\n') {
            let Some(layer) = self.layer_of(folder.as_str(), line)? else {
                return Ok(Vec::new(alloc));
            };
            layers.push(layer)?;
        }
        Ok(layers)
    }

    /// The layer that a line of a list names, where it can be opened.
    fn layer_of(&self, folder: &str, line: &[u8]) -> Result<Option<String>, Fault> {
        if ObjectId::from_digits(line, self.settings.kind).is_none() {
            return Ok(None);
        }
        let Ok(hex) = str::from_utf8(line) else {
            return Ok(None);
        };
        let mut path = joined(self.rt.alloc(), folder, "graph-")?;
        path.push_str(hex)?;
        path.push_str(".graph")?;
        Ok(if self.can_open(path.as_str())? {
            Some(path)
        } else {
            None
        })
    }

    /// Whether a path is that of a file that can be opened.
    fn can_open(&self, path: &str) -> Result<bool, Fault> {
        match gix_files::open(&self.rt, path) {
            Ok(opened) => Ok(opened.is_some()),
            Err(gix_files::Damage::Memory) => Err(Fault::Memory),
            Err(_) => Ok(false),
        }
    }
}
