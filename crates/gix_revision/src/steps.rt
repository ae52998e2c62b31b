//! What the steps of a revision lead to.
ghost use Rattle.std.specs.Prelude.{◌≡◌, ◌≢◌, ◌+◌, ◌≤◌, ◌<◌, length, IfOk, OnOk};
ghost use Rattle.gix_revision.specs.declared.parse.Target.TheVariants as target;
ghost use Rattle.gix_names.specs.Named.{IsNamed};
ghost use Rattle.gix_revision.specs.Leads.{HasLinks, Untags, UntagsTo, IsFirstParent, Peels, IsParent, IsAncestor, HasEntry, Takes, Leads};

use crate::parse::{Step, Target};
use crate::texts::{Links, entry_of, links_of, tagged};
use gix_gather::read_named;
use gix_hash::ObjectId;
use gix_object::Kind;
use gix_odb::Odb;
use std::alloc::{AllocError, Global};
use std::fs::Files;
use std::os::unix::fs::FileExt;
use thiserror::Error;

/// How many tags are followed, one after the other, at the most.
const MOST_TAGS: u32 = 1000;

/// Why steps lead to no object.
#[derive(Drop, Debug, Error)]
pub enum StepFault {
    /// No object of this id is there.
    #[error("there is no object {0}")]
    Missing(ObjectId),
    /// The object of this id is of another kind than is wanted.
    #[error("object {0} is a {1}, and a {2} is wanted")]
    Kind(ObjectId, &'static str, &'static str),
    /// The commit of this id has no parent of this number.
    #[error("commit {0} has no parent {1}")]
    NoParent(ObjectId, u32),
    /// The tree of this id has no entry of the name.
    #[error("tree {0} has no such entry")]
    NoEntry(ObjectId),
    /// The text of the object of this id isn't that of its kind.
    #[error("object {0} isn't well-formed")]
    Malformed(ObjectId),
    /// More than 1,000 tags lead from one to the next.
    #[error("more than 1000 tags lead to one another")]
    ManyTags,
    /// The object can't be read, or isn't that of its id.
    #[error("{0}")]
    Read(gix_gather::Fault),
    /// Memory ran out.
    #[error("out of memory")]
    Memory,
}

impl From<AllocError> for StepFault {
    fn from(_error: AllocError) -> StepFault {
        StepFault::Memory
    }
}

impl From<gix_gather::Fault> for StepFault {
    fn from(fault: gix_gather::Fault) -> StepFault {
        match fault {
            gix_gather::Fault::Memory => StepFault::Memory,
            fault => StepFault::Read(fault),
        }
    }
}

/// An object that was read.
#[derive(Clone, Copy)]
struct Met {
    /// Its id.
    id: ObjectId,
    /// What it is.
    kind: Kind,
}

/// The id that these steps lead to, from this one. Each object on the way is compared with its id before its text is used. Whether there is
/// an object of the id that the last step leads to isn't tested, where this is a parent or an entry of a tree, or where there is no step.
///
/// # Errors
///
/// The first [`StepFault`] that is met. The folder can be used further.
pub fn follow<R>(
    alloc: Global,
    odb: &mut Odb<R>,
    base: &ObjectId,
    steps: &[Step<'_>],
) -> Result<ObjectId, StepFault>
where
    R: Files + AllocGlobal + Clone + Drop,
    R::File: FileExt,
    ensures { IfOk result (λ found. Leads base.now steps.now found) }
{
    let mut id = *base;
    for step in steps {
        id = take_step(alloc, odb, &id, *step)?;
    }
    Ok(id)
}

/// The id that one step leads to.
fn take_step<R>(
    alloc: Global,
    odb: &mut Odb<R>,
    from: &ObjectId,
    step: Step<'_>,
) -> Result<ObjectId, StepFault>
where
    R: Files + AllocGlobal + Clone + Drop,
    R::File: FileExt,
    ensures { IfOk result (λ found. Takes step.entry from.now found) }
{
    match step {
        Step::Parent(number) => parent_of(alloc, odb, from, number),
        Step::Ancestor(count) => ancestor_of(alloc, odb, from, count),
        Step::Peel(target) => peel(alloc, odb, from, target),
        Step::Entry(name) => entry_in(alloc, odb, from, name),
    }
}

/// The parent of this number of the commit that tags lead to, and this commit where the number is 0.
fn parent_of<R>(
    alloc: Global,
    odb: &mut Odb<R>,
    from: &ObjectId,
    number: u32,
) -> Result<ObjectId, StepFault>
where
    R: Files + AllocGlobal + Clone + Drop,
    R::File: FileExt,
    ensures { IfOk result (λ found. IsParent number from.now found) }
{
    let mut object = Vec::new(alloc);
    let met = untag(odb, from, &mut object)?;
    let links = read_links(alloc, odb, &met.id)?;
    if number == 0 {
        return Ok(met.id);
    }
    match links.parents.as_slice().get(number as usize - 1) {
        Some(parent) => Ok(*parent),
        None => Err(StepFault::NoParent(met.id, number)),
    }
}

/// The first parent, so many times, of the commit that tags lead to.
fn ancestor_of<R>(
    alloc: Global,
    odb: &mut Odb<R>,
    from: &ObjectId,
    count: u32,
) -> Result<ObjectId, StepFault>
where
    R: Files + AllocGlobal + Clone + Drop,
    R::File: FileExt,
    ensures { IfOk result (λ found. IsAncestor count from.now found) }
{
    let mut id = peel(alloc, odb, from, Target::Commit)?;
    for done in 0..count {
        let parent = first_parent_of(alloc, odb, &id)?;
        id = parent;
    }
    Ok(id)
}

/// The first parent of a commit.
fn first_parent_of<R>(alloc: Global, odb: &mut Odb<R>, id: &ObjectId) -> Result<ObjectId, StepFault>
where
    R: Files + AllocGlobal + Clone + Drop,
    R::File: FileExt,
    ensures { IfOk result (λ found. IsFirstParent id.now found) }
{
    let links = read_links(alloc, odb, id)?;
    match links.parents.as_slice().get(0) {
        Some(parent) => Ok(*parent),
        None => Err(StepFault::NoParent(*id, 1)),
    }
}

/// What tags, and the tree of a commit where a tree is wanted, lead to.
pub(crate) fn peel<R>(
    alloc: Global,
    odb: &mut Odb<R>,
    from: &ObjectId,
    target: Target,
) -> Result<ObjectId, StepFault>
where
    R: Files + AllocGlobal + Clone + Drop,
    R::File: FileExt,
    ensures { IfOk result (λ found. Peels target from.now found) }
{
    let mut object = Vec::new(alloc);
    match target {
        Target::Commit => untag_to(odb, from, Kind::Commit, &mut object),
        Target::Blob => untag_to(odb, from, Kind::Blob, &mut object),
        Target::Tree => tree_of(alloc, odb, from, &mut object),
        Target::Tag => {
            read_as(odb, from, Kind::Tag, &mut object)?;
            Ok(*from)
        }
        Target::Object => {
            read(odb, from, &mut object)?;
            Ok(*from)
        }
        Target::Untagged => Ok(untag(odb, from, &mut object)?.id),
    }
}

/// The tree that tags lead to, or that of the commit that they lead to.
fn tree_of<R>(
    alloc: Global,
    odb: &mut Odb<R>,
    from: &ObjectId,
    object: &mut Vec<u8>,
) -> Result<ObjectId, StepFault>
where
    R: Files + AllocGlobal + Clone + Drop,
    R::File: FileExt,
    ensures { IfOk result (λ found. Peels target.Tree from.now found) }
{
    let met = untag(odb, from, object)?;
    match met.kind {
        Kind::Tree => Ok(met.id),
        Kind::Commit => {
            let links = read_links(alloc, odb, &met.id)?;
            read_as(odb, &links.tree, Kind::Tree, object)?;
            Ok(links.tree)
        }
        kind => Err(StepFault::Kind(met.id, word_of(kind), word_of(Kind::Tree))),
    }
}

/// The object of this kind that tags lead to.
fn untag_to<R>(
    odb: &mut Odb<R>,
    from: &ObjectId,
    wanted: Kind,
    object: &mut Vec<u8>,
) -> Result<ObjectId, StepFault>
where
    R: Files + AllocGlobal + Clone + Drop,
    R::File: FileExt,
    ensures { IfOk result (λ found. UntagsTo wanted from.now found) }
{
    let met = untag(odb, from, object)?;
    if met.kind != wanted {
        return Err(StepFault::Kind(met.id, word_of(met.kind), word_of(wanted)));
    }
    Ok(met.id)
}

/// The object that tags lead to and that is no tag. Its bytes are in `object`.
fn untag<R>(odb: &mut Odb<R>, from: &ObjectId, object: &mut Vec<u8>) -> Result<Met, StepFault>
where
    R: Files + AllocGlobal + Clone + Drop,
    R::File: FileExt,
    ensures { IfOk result (λ met. Untags from.now met.id × IsNamed met.id met.kind object.new.items × (met.kind ≢ Kind.Tag)) }
{
    let mut id = *from;
    for _ in 0..=MOST_TAGS {
        let kind = read(odb, &id, object)?;
        if kind != Kind::Tag {
            return Ok(Met { id, kind });
        }
        let Some(next) = tagged(id.kind(), object.as_slice()) else {
            return Err(StepFault::Malformed(id));
        };
        id = next;
    }
    Err(StepFault::ManyTags)
}

/// The entry of this name in a tree.
fn entry_in<R>(
    alloc: Global,
    odb: &mut Odb<R>,
    tree: &ObjectId,
    name: &str,
) -> Result<ObjectId, StepFault>
where
    R: Files + AllocGlobal + Clone + Drop,
    R::File: FileExt,
    ensures { IfOk result (λ found. HasEntry name.now tree.now found) }
{
    let mut object = Vec::new(alloc);
    read_as(odb, tree, Kind::Tree, &mut object)?;
    match entry_of(tree.kind(), object.as_slice(), name) {
        Some(id) => Ok(id),
        None => Err(StepFault::NoEntry(*tree)),
    }
}

/// What a commit names.
pub(crate) fn read_links<R>(
    alloc: Global,
    odb: &mut Odb<R>,
    id: &ObjectId,
) -> Result<Links, StepFault>
where
    R: Files + AllocGlobal + Clone + Drop,
    R::File: FileExt,
    ensures { IfOk result (λ links. HasLinks id.now links.tree links.parents.items) }
{
    let mut object = Vec::new(alloc);
    read_as(odb, id, Kind::Commit, &mut object)?;
    match links_of(alloc, id.kind(), object.as_slice())? {
        Some(links) => Ok(links),
        None => Err(StepFault::Malformed(*id)),
    }
}

/// Puts the bytes of an object of this kind into `object`.
fn read_as<R>(
    odb: &mut Odb<R>,
    id: &ObjectId,
    wanted: Kind,
    object: &mut Vec<u8>,
) -> Result<(), StepFault>
where
    R: Files + AllocGlobal + Clone + Drop,
    R::File: FileExt,
    ensures { OnOk result (IsNamed id.now wanted object.new.items) }
{
    let kind = read(odb, id, object)?;
    if kind != wanted {
        return Err(StepFault::Kind(*id, word_of(kind), word_of(wanted)));
    }
    Ok(())
}

/// Puts the bytes of an object into `object`, and returns its kind.
fn read<R>(odb: &mut Odb<R>, id: &ObjectId, object: &mut Vec<u8>) -> Result<Kind, StepFault>
where
    R: Files + AllocGlobal + Clone + Drop,
    R::File: FileExt,
    ensures { IfOk result (λ kind. IsNamed id.now kind object.new.items) }
{
    match read_named(odb, id, object)? {
        Some(kind) => Ok(kind),
        None => Err(StepFault::Missing(*id)),
    }
}

/// The word for a kind of object.
fn word_of(kind: Kind) -> &'static str {
    match kind {
        Kind::Commit => "commit",
        Kind::Tree => "tree",
        Kind::Blob => "blob",
        Kind::Tag => "tag",
    }
}
