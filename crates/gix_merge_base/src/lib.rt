//! The best common ancestors of commits.
#![tactic(auto)]

ghost use Rattle.std.specs.Prelude.{◌≡◌, ◌≢◌, IfOk, IfErr, IsPermutation};
ghost use Rattle.std.specs.Borrow.{Bor};
ghost use Rattle.std.specs.Iterator.{IsFinite};
ghost use Rattle.std.specs.FinSet as set;
ghost use Rattle.std.specs.List.Sorted.{IsSorted};
ghost use Rattle.gix_hash.specs.Id.{id_cmp};
ghost use Rattle.gix_contained.specs.declared.Error.TheVariants as error;
ghost use Rattle.gix_merge_base.specs.Bases.{FindsBases, FailsBy};
ghost use Rattle.gix_merge_base.specs.Errors.{error_of_walk};
ghost use Rattle.gix_revwalk.specs.Asking.{accepts_all};
ghost use Rattle.gix_merge_base.specs.Inside.Steps.{StartsFrom, Gathers, GatherFails, MeetsFirst, OthersOf, ReadsOthers, ReadFailsAmong, Collects};
ghost use Rattle.gix_revwalk.specs.Agreeing.{rows_in};
ghost use Rattle.gix_revwalk.specs.Ids.{new_ids};

pub mod laws;

use gix_commitgraph::Graph;
pub use gix_contained::Error;
use gix_contained::contained;
use gix_hash::hashtable::IdSet;
use gix_hash::{Keys, ObjectId};
use gix_object::find::Find;
use gix_paint::source::{Named, parents};
use gix_revwalk::row::{NOWHERE, copy_of};
use gix_revwalk::source::Source;
use gix_revwalk::{Info, Unfiltered};
use gix_simple::Simple;
use std::alloc::{AllocError, Global};

/// The error of a call that draws a walk, by that of the walk.
pub fn error_of_walk(e: gix_simple::Error) -> Error
    ensures { result ≡ error_of_walk e }
{
    match e {
        gix_simple::Error::Find(e) => Error::from(e),
        gix_simple::Error::ObjectDecode(e) => Error::ObjectDecode(e),
        gix_simple::Error::HiddenGraph(e) => Error::from(e),
        gix_simple::Error::Memory => Error::Memory,
    }
}

/// The best common ancestors of a commit and of some others: the commits that `one` reaches and any of `others` reaches, through all
/// parents, and that no other such commit reaches. A commit reaches itself. Each comes once.
///
/// They are what `git merge-base --all ONE OTHER..` prints, which puts the newest first. Here they come in rising order of their ids.
/// Without others there is none.
///
/// All that `one` and the others reach is read, as far as a commit-graph doesn't decide before.
/// Behind a corrupt row commits are read from the store.
///
/// ```text
/// 1----2----4 <- one
///  \    \  /
///   \    \/
///    \   /\
///     3----5  <- other
///
/// merge_bases(alloc, id(4), &[id(5)], &store, None)?    gives 2 and 3, since each of 4 and 5 has both as parents
/// ```
///
/// # Errors
///
/// No answer is given where it isn't known which parents a commit has that has to be read, be it `one`, one of the others, or one that
/// these reach:
/// - `Find` if the store hasn't the commit, has an object of another kind, or can't read it,
/// - `ObjectDecode` if the commit's bytes are broken before its committer ends,
/// - `Memory` when out of memory.
pub fn merge_bases<F: Find>(
    alloc: Global,
    one: ObjectId,
    others: &[ObjectId],
    objects: &F,
    graph: Option<&Graph>,
) -> Result<Vec<ObjectId>, Error>
    ensures ok { IfOk result (λ bases. FindsBases (F.objects objects.now) (rows_in graph.entry) one others.now bases.items) }
    ensures err { IfErr result (λ e. e ≢ error.Memory
        → FailsBy (F.objects objects.now) (F.faulty objects.now) (rows_in graph.entry) one others.now e) }
{
    let common = first_common(alloc, one, others, objects, graph)?;
    let parents = other_parents(alloc, &common, objects, graph)?;
    let reached = contained(alloc, &parents, &common, objects, graph)?;
    let marks = set_of(alloc, objects.keys(), &reached)?;
    let found = new_among(alloc, marks, &common)?;
    let bases = sorted(found)?;
    Ok(bases)
}

/// Common ancestors that reach all others: each of the others that `one` reaches, and each parent that it reaches of a commit that it
/// doesn't reach and the others do.
fn first_common<F: Find>(
    alloc: Global,
    one: ObjectId,
    others: &[ObjectId],
    objects: &F,
    graph: Option<&Graph>,
) -> Result<Vec<ObjectId>, Error>
    ensures ok { IfOk result (λ common. MeetsFirst (F.objects objects.now) (rows_in graph.entry) one others.now common.items) }
    ensures err { IfErr result (λ e. e ≢ error.Memory
        → FailsBy (F.objects objects.now) (F.faulty objects.now) (rows_in graph.entry) one others.now e) }
{
    let walk = walk_from(alloc, one, others, objects, graph)?;
    let Gathered { only, named } = gather(alloc, objects.keys(), others, walk)?;
    let common = new_among(alloc, only, &named)?;
    Ok(common)
}

/// A walk over what the others reach and `one` doesn't, through all parents and breadth first. Its first step reads all that `one` and the
/// others reach, as far as rows don't decide before.
///
/// # Errors
///
/// `Memory` when out of memory.
pub fn walk_from<'a, F: Find>(
    alloc: Global,
    one: ObjectId,
    others: &[ObjectId],
    objects: &'a F,
    graph: Option<&Graph>,
) -> Result<Simple<&'a F, Unfiltered>, Error>
    ensures ok { IfOk result (λ walk. StartsFrom (λ (f : Bor F). F.objects f.now) (λ (f : Bor F). F.faulty f.now) accepts_all objects.entry
        (record {}) (rows_in graph.entry) one others.now walk) }
    ensures err { IfErr result (λ e. e ≡ error.Memory) }
{
    let rows = copy_of(graph)?;
    let tips = Vec::from_slice(alloc, others)?;
    let hidden = Vec::from_slice(alloc, &[one])?;
    let made = Simple::new(alloc, tips, objects)?;
    match made.hide(hidden) {
        Ok(walk) => Ok(walk.commit_graph(rows)),
        Err(e) => Err(error_of_walk(e)),
    }
}

/// What a walk gave and named.
#[derive(Drop)]
struct Gathered {
    /// The commits that it gave.
    only: IdSet,
    /// The tips, and the parents of these commits.
    named: Vec<ObjectId>,
}

/// The commits of a walk that is drawn to its end, and the tips with the parents of these commits.
fn gather<I>(alloc: Global, keys: Keys, tips: &[ObjectId], walk: I) -> Result<Gathered, Error>
where
    I: Iterator<Item = Result<Info, gix_simple::Error>> + Drop,
    requires can { I.can_next walk }
    requires finite { IsFinite (I.remaining walk) }
    ensures ok { IfOk result (λ all. Gathers I.next_gives tips.now walk all.only all.named.items) }
    ensures err { IfErr result (λ e. e ≢ error.Memory → GatherFails I.next_gives walk e) }
{
    let mut only = IdSet::new(alloc, keys);
    let mut named = Vec::from_slice(alloc, tips)?;
    for answer in walk {
        let info = match answer {
            Ok(info) => info,
            Err(e) => return Err(error_of_walk(e)),
        };
        only.insert(info.id)?;
        named.extend_from_slice(info.parent_ids.as_slice())?;
    }
    Ok(Gathered { only, named })
}

/// The ids that aren't in the set, each once, in order.
fn new_among(alloc: Global, mut old: IdSet, ids: &[ObjectId]) -> Result<Vec<ObjectId>, AllocError>
    ensures { IfOk result (λ those. those.items ≡ new_ids (set.contains old) ids.now) }
{
    let mut those = Vec::new(alloc);
    for id in ids {
        if old.insert(*id)? {
            those.push(*id)?;
        }
    }
    Ok(those)
}

/// The ids in rising order.
fn sorted(mut ids: Vec<ObjectId>) -> Result<Vec<ObjectId>, AllocError>
    ensures same { IfOk result (λ those. IsPermutation ids.items those.items) }
    ensures rising { IfOk result (λ those. IsSorted id_cmp those.items) }
{
    ids.sort()?;
    Ok(ids)
}

/// The ids as a set.
fn set_of(alloc: Global, keys: Keys, ids: &[ObjectId]) -> Result<IdSet, AllocError>
    ensures { IfOk result (Collects ids.now) }
{
    let mut those = IdSet::new(alloc, keys);
    for id in ids {
        those.insert(*id)?;
    }
    Ok(those)
}

/// The parents of commits, where a commit that is its own parent doesn't count.
fn other_parents<F: Find>(
    alloc: Global,
    ids: &[ObjectId],
    objects: &F,
    graph: Option<&Graph>,
) -> Result<Vec<ObjectId>, Error>
    ensures ok { IfOk result (λ those. ReadsOthers (F.objects objects.now) (rows_in graph.entry) ids.now those.items) }
    ensures err { IfErr result (λ e. e ≢ error.Memory → ReadFailsAmong (F.objects objects.now) (F.faulty objects.now) ids.now e) }
{
    let graph = copy_of(graph)?;
    let mut source = Source::new(alloc, objects, graph);
    let mut those = Vec::new(alloc);
    for id in ids {
        let Named { parent_ids, .. } = parents(&mut source, id, NOWHERE)?;
        push_others(id, parent_ids.as_slice(), &mut those)?;
    }
    Ok(those)
}

/// Appends the ids that are others than this one.
fn push_others(id: &ObjectId, ids: &[ObjectId], those: &mut Vec<ObjectId>) -> Result<(), AllocError>
    ensures { IfOk result (λ _. OthersOf id.now ids.now those.old.items those.new.items) }
{
    for other in ids {
        if *other != *id {
            those.push(*other)?;
        }
    }
    Ok(())
}
