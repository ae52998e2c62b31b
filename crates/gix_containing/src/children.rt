//! The children of commits that a walk gave, and the search from a commit to all that is above it.
ghost use Rattle.std.specs.Prelude.{◌≡◌, ◌≢◌, ◌∷◌, ◌++◌, [], IfOk, IfErr};
ghost use Rattle.std.specs.FinSet as set;
ghost use Rattle.std.specs.Iterator.{IsFinite};
ghost use Rattle.gix_hash.specs.Reach.{Reaches, Tells};
ghost use Rattle.gix_containing.specs.Inside.Steps.{GathersChildren, AddsChild, AddsTo, MarksNew, children_in};
ghost use Rattle.gix_contained.specs.declared.Error.TheVariants as error;
ghost use Rattle.gix_merge_base.specs.Inside.Steps.{GatherFails};

use gix_contained::Error;
use gix_hash::hashtable::{IdMap, IdSet};
use gix_hash::{Keys, ObjectId};
use gix_merge_base::error_of_walk;
use gix_revwalk::Info;
use std::alloc::{AllocError, Global};

/// The children that were found of each commit.
pub(super) type Children = IdMap<Vec<ObjectId>>;

/// The commits of a walk that is drawn to its end, as children of their parents.
pub(super) fn children_of<I>(alloc: Global, keys: Keys, walk: I) -> Result<Children, Error>
where
    I: Iterator<Item = Result<Info, gix_simple::Error>> + Drop,
    requires can { I.can_next walk }
    requires finite { IsFinite (I.remaining walk) }
    ensures ok { IfOk result (GathersChildren I.next_gives walk) }
    ensures err { IfErr result (λ e. e ≢ error.Memory → GatherFails I.next_gives walk e) }
{
    let mut children = Children::new(alloc, keys);
    for answer in walk {
        let info = match answer {
            Ok(info) => info,
            Err(e) => return Err(error_of_walk(e)),
        };
        add_to_each(alloc, info.id, info.parent_ids.as_slice(), &mut children)?;
    }
    Ok(children)
}

/// Adds a commit to the children of each of its parents.
fn add_to_each(
    alloc: Global,
    child: ObjectId,
    parent_ids: &[ObjectId],
    children: &mut Children,
) -> Result<(), AllocError>
    ensures { IfOk result (λ _. AddsChild child parent_ids.now children.old children.new) }
{
    for parent in parent_ids {
        add_to(alloc, child, *parent, children)?;
    }
    Ok(())
}

/// Adds a commit to the children of another.
fn add_to(
    alloc: Global,
    child: ObjectId,
    parent: ObjectId,
    children: &mut Children,
) -> Result<(), AllocError>
    ensures { IfOk result (λ _. AddsTo child parent children.old children.new) }
{
    let mut ids = match children.remove(&parent) {
        Some(ids) => ids,
        None => Vec::new(alloc),
    };
    ids.push(child)?;
    children.insert(parent, ids)?;
    Ok(())
}

/// The commit, and all that is above it: its children, their children, and so on.
pub(super) fn descendants(
    alloc: Global,
    id: ObjectId,
    children: &Children,
) -> Result<IdSet, AllocError>
    ensures { IfOk result (λ marks. Tells (set.contains marks) (Reaches (children_in children.now) (id ∷ []))) }
{
    let mut marks = IdSet::new(alloc, children.keys());
    let mut waiting = Vec::new(alloc);
    mark_all(&[id], &mut marks, &mut waiting)?;
    while let Some(next) = waiting.pop() {
        mark_all(children_at(children, &next), &mut marks, &mut waiting)?;
    }
    Ok(marks)
}

/// The children that were found of a commit.
fn children_at<'a>(children: &'a Children, id: &ObjectId) -> &'a [ObjectId]
    ensures { result.now ≡ children_in children.now id.now }
{
    match children.get(id) {
        Some(ids) => ids.as_slice(),
        None => &[],
    }
}

/// Marks the ids. Those that weren't marked before wait.
fn mark_all(
    ids: &[ObjectId],
    marks: &mut IdSet,
    waiting: &mut Vec<ObjectId>,
) -> Result<(), AllocError>
    ensures { IfOk result (λ _. MarksNew ids.now marks.old waiting.old.items marks.new waiting.new.items) }
{
    for id in ids {
        if marks.insert(*id)? {
            waiting.push(*id)?;
        }
    }
    Ok(())
}
