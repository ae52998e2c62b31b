//! Which commits are contained in others: those that these reach.
#![tactic(auto)]

ghost use Rattle.std.specs.Prelude.{◌≡◌, ◌≢◌, filter, IfOk, IfErr};
ghost use Rattle.std.specs.FinSet as set;
ghost use Rattle.gix_contained.specs.declared.Error.TheVariants as error;
ghost use Rattle.gix_contained.specs.Contained.{Selects, FailsBy};
ghost use Rattle.gix_revwalk.specs.Agreeing.{rows_in};

pub mod laws;
mod search;
mod waiting;

use gix_commitgraph::Graph;
use gix_hash::ObjectId;
use gix_hash::hashtable::IdSet;
use gix_object::decode;
use gix_object::find::{Find, existing_iter};
use gix_paint::Hidden;
use search::{look_up_all, reached};
use std::alloc::{AllocError, Global};
use thiserror::Error;

/// Why it isn't known what commits reach.
#[derive(Clone, Copy, Debug, PartialEq, Eq, Error)]
pub enum Error {
    /// A commit could not be looked up.
    #[error(transparent)]
    Find(existing_iter::Error),
    /// A commit's bytes are broken before its committer ends.
    #[error(transparent)]
    ObjectDecode(decode::Error),
    /// Out of memory.
    #[error("out of memory")]
    Memory,
}

impl From<existing_iter::Error> for Error {
    ghost use Rattle.gix_contained.specs.Contained.{error_of_find};

    ghost from_gives = { λ e r. r ≡ error_of_find e };

    fn from(e: existing_iter::Error) -> Error {
        match e {
            existing_iter::Error::Memory => Error::Memory,
            e => Error::Find(e),
        }
    }
}

impl From<Hidden> for Error {
    ghost use Rattle.gix_contained.specs.Contained.{error_of};

    ghost from_gives = { λ e r. r ≡ error_of e };

    fn from(e: Hidden) -> Error {
        match e {
            Hidden::Find(e) => Error::from(e),
            Hidden::ObjectDecode(e) => Error::ObjectDecode(e),
        }
    }
}

impl From<AllocError> for Error {
    ghost use Rattle.gix_contained.specs.declared.Error.TheVariants as error;

    ghost from_gives = { λ _ r. r ≡ error.Memory };

    fn from(_e: AllocError) -> Error {
        Error::Memory
    }
}

/// Of the ids, in the order given and with repeats, those that the tips reach through all parents. A tip reaches itself.
///
/// All ids are asked about at once. Each id and each tip is looked up. Then the search goes from the tips through parents, the newest first,
/// or those of the greatest generation where they have rows of a commit-graph, and each commit is read once. It ends as soon as all ids were
/// met, or all that waits is of a lower generation than each id that wasn't. So an id just below a tip is found at once; and where one isn't
/// contained, all that the tips reach is read, but for what rows decide. Without tips or ids nothing is read. A corrupt row drops the
/// commit-graph for the rest of the call.
///
/// ```text
/// 1----2----4 <- release
///  \
///   3----5    <- main
///
/// contained(alloc, &[id(4)], &[id(3), id(2), id(1), id(5), id(4)], &store, None)?    gives 2 1 4
/// ```
///
/// # Errors
///
/// No answer is given where it isn't known which parents a commit has that has to be read, be it a tip, an id that is asked about, or one
/// that the tips reach:
/// - `Find` if the store hasn't the commit, has an object of another kind, or can't read it,
/// - `ObjectDecode` if the commit's bytes are broken before its committer ends,
/// - `Memory` when out of memory.
pub fn contained<F: Find>(
    alloc: Global,
    tips: &[ObjectId],
    ids: &[ObjectId],
    objects: &F,
    graph: Option<&Graph>,
) -> Result<Vec<ObjectId>, Error>
    ensures ok { IfOk result (λ those. Selects (F.objects objects.now) (rows_in graph.entry) tips.now ids.now those.items) }
    ensures err { IfErr result (λ e. e ≢ error.Memory
        → FailsBy (F.objects objects.now) (F.faulty objects.now) (rows_in graph.entry) tips.now ids.now e) }
{
    if tips.is_empty() || ids.is_empty() {
        return Ok(Vec::new(alloc));
    }
    let asked = look_up_all(alloc, objects, graph, ids)?;
    let met = reached(alloc, objects, graph, tips, asked)?;
    let those = met_among(alloc, ids, &met)?;
    Ok(those)
}

/// The ids that were met, in order.
fn met_among(alloc: Global, ids: &[ObjectId], met: &IdSet) -> Result<Vec<ObjectId>, AllocError>
    ensures { IfOk result (λ those. those.items ≡ filter (set.contains met.now) ids.now) }
{
    let mut those = Vec::new(alloc);
    for id in ids {
        if met.contains(id) {
            those.push(*id)?;
        }
    }
    Ok(those)
}
