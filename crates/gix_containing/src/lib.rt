//! Which commits contain another one: those that reach it.
#![tactic(auto)]

ghost use Rattle.std.specs.Prelude.{◌≡◌, ◌≢◌, ◌∷◌, [], filter, not, true, IfOk, IfErr};
ghost use Rattle.std.specs.FinSet as set;
ghost use Rattle.gix_containing.specs.Containing.{FindsContaining, FailsBy};
ghost use Rattle.gix_containing.specs.Inside.Steps.{TellsReach, MarksOnly, SelectsTips};
ghost use Rattle.gix_contained.specs.declared.Error.TheVariants as error;
ghost use Rattle.gix_revwalk.specs.Agreeing.{rows_in};

mod children;
pub mod laws;

use children::{children_of, descendants};
use gix_commitgraph::Graph;
pub use gix_contained::Error;
use gix_contained::contained;
use gix_hash::ObjectId;
use gix_hash::hashtable::IdSet;
use gix_merge_base::walk_from;
use gix_object::find::Find;
use std::alloc::{AllocError, Global};

/// Of the tips, in the order given and with repeats, those that reach the target through all parents: the commits, branches or tags that
/// contain it, as `git tag --contains` has it. A tip reaches itself.
///
/// What the tips reach and the target doesn't is walked once. From the target the search goes back to children, through the parents that
/// the walk gave. A tip that it doesn't meet is looked at by a search of all of these at once, which ends below the target's generation
/// where a commit-graph has that. So many tips cost no more than a few. Only in a history with a cycle through the target, which ids that
/// are hashes never have, may such a tip reach it: then each tip is looked at alone.
///
/// All that the target and the tips reach is read, as far as a commit-graph doesn't decide before.
/// Without tips nothing is read.
///
/// ```text
/// 1----2----4 <- release
///  \
///   3----5    <- main
///
/// containing(alloc, id(3), &[id(4), id(5), id(3), id(1)], &store, None)?    gives 5 3
/// ```
///
/// # Errors
///
/// No answer is given where it isn't known which parents a commit has that has to be read, be it the target, a tip, or one that these
/// reach:
/// - `Find` if the store hasn't the commit, has an object of another kind, or can't read it,
/// - `ObjectDecode` if the commit's bytes are broken before its committer ends,
/// - `Memory` when out of memory.
pub fn containing<F: Find>(
    alloc: Global,
    target: ObjectId,
    tips: &[ObjectId],
    objects: &F,
    graph: Option<&Graph>,
) -> Result<Vec<ObjectId>, Error>
    ensures ok { IfOk result (λ those. FindsContaining (F.objects objects.now) (rows_in graph.entry) target tips.now those.items) }
    ensures err { IfErr result (λ e. e ≢ error.Memory
        → FailsBy (F.objects objects.now) (F.faulty objects.now) (rows_in graph.entry) target tips.now e) }
{
    let marks = marked(alloc, target, tips, objects, graph)?;
    let others = others_among(alloc, tips, &marks)?;
    if reaches(alloc, &others, target, objects, graph)? {
        let those = each_alone(alloc, target, tips, objects, graph)?;
        return Ok(those);
    }
    let those = marked_among(alloc, tips, &marks)?;
    Ok(those)
}

/// The target, and of what the tips reach and the target doesn't all that reaches the target by such commits alone.
fn marked<F: Find>(
    alloc: Global,
    target: ObjectId,
    tips: &[ObjectId],
    objects: &F,
    graph: Option<&Graph>,
) -> Result<IdSet, Error>
    ensures ok { IfOk result (MarksOnly (F.objects objects.now) (rows_in graph.entry) target tips.now) }
    ensures err { IfErr result (λ e. e ≢ error.Memory
        → FailsBy (F.objects objects.now) (F.faulty objects.now) (rows_in graph.entry) target tips.now e) }
{
    let walk = walk_from(alloc, target, tips, objects, graph)?;
    let children = children_of(alloc, objects.keys(), walk)?;
    let marks = descendants(alloc, target, &children)?;
    Ok(marks)
}

/// Whether any of the tips reaches the target.
fn reaches<F: Find>(
    alloc: Global,
    tips: &[ObjectId],
    target: ObjectId,
    objects: &F,
    graph: Option<&Graph>,
) -> Result<bool, Error>
    ensures ok { IfOk result (λ any. TellsReach (F.objects objects.now) (rows_in graph.entry) tips.now target any) }
    ensures err { IfErr result (λ e. e ≢ error.Memory
        → FailsBy (F.objects objects.now) (F.faulty objects.now) (rows_in graph.entry) target tips.now e) }
{
    let met = contained(alloc, tips, &[target], objects, graph)?;
    Ok(!met.is_empty())
}

/// The tips that reach the target, each looked at alone.
fn each_alone<F: Find>(
    alloc: Global,
    target: ObjectId,
    tips: &[ObjectId],
    objects: &F,
    graph: Option<&Graph>,
) -> Result<Vec<ObjectId>, Error>
    ensures ok { IfOk result (λ those. SelectsTips (F.objects objects.now) (rows_in graph.entry) target tips.now those.items) }
    ensures err { IfErr result (λ e. e ≢ error.Memory
        → FailsBy (F.objects objects.now) (F.faulty objects.now) (rows_in graph.entry) target tips.now e) }
{
    let mut those = Vec::new(alloc);
    for tip in tips {
        if reaches(alloc, &[*tip], target, objects, graph)? {
            those.extend_from_slice(&[*tip])?;
        }
    }
    Ok(those)
}

/// The ids that are marked, in order.
fn marked_among(alloc: Global, ids: &[ObjectId], marks: &IdSet) -> Result<Vec<ObjectId>, AllocError>
    ensures { IfOk result (λ those. those.items ≡ filter (set.contains marks.now) ids.now) }
{
    let mut those = Vec::new(alloc);
    for id in ids {
        if marks.contains(id) {
            those.push(*id)?;
        }
    }
    Ok(those)
}

/// The ids that aren't marked, in order.
fn others_among(alloc: Global, ids: &[ObjectId], marks: &IdSet) -> Result<Vec<ObjectId>, AllocError>
    ensures { IfOk result (λ those. those.items ≡ filter (λ i. not (set.contains marks.now i)) ids.now) }
{
    let mut those = Vec::new(alloc);
    for id in ids {
        if !marks.contains(id) {
            those.push(*id)?;
        }
    }
    Ok(those)
}
