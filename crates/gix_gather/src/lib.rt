//! The objects of a folder of objects that some ids lead to, in a store in memory.
//!
//! Each object is compared with its id before anything in it is used, so the store holds no other object under an id than the id's, or two
//! texts of one hash are at hand. What the folder lacks is left out: a walk over the store then names it.
#![tactic(auto)]

ghost use Rattle.std.specs.Prelude.{IfOk};
ghost use Rattle.gix_records.specs.NamedRecords.{AreNamed};

mod gathering;
mod waiting;

pub use gathering::{Gathering, read_named};
use gix_commitgraph::Graph;
use gix_hash::hashtable::IdSet;
use gix_hash::{Keys, ObjectId};
use gix_odb::Odb;
use gix_records::NamedObjects;
use std::alloc::{AllocError, Global};
use std::fs::Files;
use std::os::unix::fs::FileExt;
use thiserror::Error;
pub use waiting::Order;

/// Why objects weren't gathered.
#[derive(Drop, Debug, Error)]
pub enum Fault {
    /// A file is damaged that has an object, or may have it, and no other has it undamaged.
    #[error("{0}")]
    Files(gix_odb::Fault),
    /// The object that is stored for this id isn't the id's: its hash is another.
    #[error("{0} is the id of another object than is stored for it")]
    Name(ObjectId),
    /// Memory ran out.
    #[error("out of memory")]
    Memory,
}

impl From<AllocError> for Fault {
    fn from(_error: AllocError) -> Fault {
        Fault::Memory
    }
}

impl From<gix_odb::Fault> for Fault {
    fn from(fault: gix_odb::Fault) -> Fault {
        match fault {
            gix_odb::Fault::Memory => Fault::Memory,
            fault => Fault::Files(fault),
        }
    }
}

/// All commits that these ids reach by the parents that commits name, but those that have a row of the graph and what is reached by way of
/// them alone. An id of another object is read too, and leads no further. Of a commit that isn't well-formed the parents before the fault
/// count.
///
/// # Errors
///
/// The first [`Fault`] that is met. There are no objects then.
pub fn commits<R>(
    alloc: Global,
    keys: Keys,
    odb: &mut Odb<R>,
    ids: &[ObjectId],
    graph: Option<&Graph>,
) -> Result<NamedObjects, Fault>
where
    R: Files + AllocGlobal + Clone + Drop,
    R::File: FileExt,
    ensures named { IfOk result (λ objects. AreNamed objects) }
{
    let border = IdSet::new(alloc, keys);
    let mut gathering = Gathering::commits(alloc, ids, Order::Met, border)?;
    gathering.read_more(odb, graph, usize::MAX)?;
    Ok(gathering.into_objects())
}

/// A tree and all trees in it. An id of another object is read too, and leads no further. Of a tree that isn't well-formed the entries
/// before the fault count.
///
/// # Errors
///
/// The first [`Fault`] that is met. There are no objects then.
pub fn trees<R>(
    alloc: Global,
    keys: Keys,
    odb: &mut Odb<R>,
    root: &ObjectId,
) -> Result<NamedObjects, Fault>
where
    R: Files + AllocGlobal + Clone + Drop,
    R::File: FileExt,
    ensures named { IfOk result (λ objects. AreNamed objects) }
{
    let mut gathering = Gathering::trees(alloc, keys, root)?;
    gathering.read_more(odb, None, usize::MAX)?;
    Ok(gathering.into_objects())
}
