//! How many commits one commit reaches and another doesn't, and how many the other way round.
#![tactic(auto)]

ghost use Rattle.std.specs.Prelude.{◌≢◌, ◌∷◌, [], IfOk, IfErr};
ghost use Rattle.gix_ahead.specs.Ahead.{FindsAhead, FailsBy};
ghost use Rattle.gix_contained.specs.declared.Error.TheVariants as error;
ghost use Rattle.gix_revwalk.specs.Agreeing.{rows_in};

pub mod laws;
mod search;
mod walks;

use gix_commitgraph::Graph;
pub use gix_contained::Error;
use gix_hash::ObjectId;
use gix_object::find::Find;
use search::{marked, tally};
use std::alloc::Global;
use walks::number_reached;

/// How far two commits are apart.
#[derive(Clone, Copy, Debug, PartialEq, Eq)]
pub struct AheadBehind {
    /// How many commits the first one reaches and the second doesn't.
    pub ahead: usize,
    /// How many commits the second one reaches and the first doesn't.
    pub behind: usize,
}

/// How many commits `one` reaches and `other` doesn't, and how many `other` reaches and `one` doesn't, through all parents. A commit reaches
/// itself.
///
/// They are the two numbers of `git rev-list --left-right --count ONE...OTHER`.
///
/// Without a commit-graph one search from both, the newest commits first, marks by which of them each commit is reached. A commit is
/// read when it is met, and once more where it is found later that the other one reaches it too. With a commit-graph each number is that
/// of a walk, which reads no more than the rows leave open. A corrupt row drops the commit-graph for the rest of a walk.
///
/// ```text
/// 1----2----4 <- one
///  \
///   3----5----6 <- other
///
/// ahead_behind(alloc, id(4), id(6), &store, None)?    gives 2 ahead, 3 behind
/// ```
///
/// # Errors
///
/// No answer is given where it isn't known which parents a commit has that has to be read, be it one of the two, or one that they reach:
/// - `Find` if the store hasn't the commit, has an object of another kind, or can't read it,
/// - `ObjectDecode` if the commit's bytes are broken before its committer ends,
/// - `Memory` when out of memory.
pub fn ahead_behind<F: Find>(
    alloc: Global,
    one: ObjectId,
    other: ObjectId,
    objects: &F,
    graph: Option<&Graph>,
) -> Result<AheadBehind, Error>
    ensures ok { IfOk result (λ n. FindsAhead (F.objects objects.now) (rows_in graph.entry) one other n.ahead n.behind) }
    ensures err { IfErr result (λ e. e ≢ error.Memory
        → FailsBy (F.objects objects.now) (F.faulty objects.now) (rows_in graph.entry) one (other ∷ []) e) }
{
    if let None = graph {
        let marks = marked(alloc, one, other, objects)?;
        let numbers = tally(alloc, &marks)?;
        return Ok(numbers);
    }
    let ahead = number_reached(alloc, one, other, objects, graph)?;
    let behind = number_reached(alloc, other, one, objects, graph)?;
    Ok(AheadBehind { ahead, behind })
}
