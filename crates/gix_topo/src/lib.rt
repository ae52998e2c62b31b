//! Walks in which no commit comes before its children.
#![tactic(auto)]

mod counting;
mod init;
pub mod laws;
mod reader;
mod ready;
mod walk;

use gix_commitgraph::Graph;
use gix_object::decode;
use gix_object::find::{Find, existing_iter};
use gix_revwalk::{Info, Predicate};
pub use init::Builder;
use std::alloc::{AllocError, AllocFailed};
use std::marker::Model;
use thiserror::Error;
use walk::Walk;

/// The order of a topological walk. In both every child comes before its parents.
#[derive(Clone, Copy, Debug, PartialEq, Eq)]
pub enum Sorting {
    /// Of the commits whose children were all taken, the first of greatest commit time comes next, as in `git rev-list --date-order`.
    DateOrder,
    /// Lines of history aren't intermixed: of the commits whose children were all taken, the one comes next that became so last, as in
    /// `git rev-list --topo-order`. Of tips of one time it begins with the last given, and git with the first.
    TopoOrder,
}

impl Default for Sorting {
    ghost use Rattle.std.specs.Prelude.{◌≡◌};
    ghost use Rattle.gix_topo.specs.declared.Sorting.TheVariants.{DateOrder};

    ghost is_default = { λ sorting. sorting ≡ DateOrder };

    fn default() -> Sorting {
        Sorting::DateOrder
    }
}

/// Why a topological walk can't be built, or gives no commit. After such a fault it gives nothing more.
#[derive(Clone, Copy, Debug, PartialEq, Eq, Error)]
pub enum Error {
    /// The rows of the commit-graph disagree, with each other or with the store: a commit had more children than its indegree said.
    /// Only `next` gives it.
    #[error("Indegree information is missing")]
    MissingIndegreeUnexpected,
    /// Never given: a commit that wasn't explored has no indegree, which is `MissingIndegreeUnexpected`.
    #[error("Internal state (bitflags) not found")]
    MissingStateUnexpected,
    /// The commit's bytes are broken before its committer.
    #[error(transparent)]
    ObjectDecode(decode::Error),
    /// The commit could not be looked up.
    #[error(transparent)]
    Find(existing_iter::Error),
    /// Memory ran out.
    #[error("out of memory")]
    Memory,
}

impl From<decode::Error> for Error {
    ghost use Rattle.std.specs.Prelude.{◌≡◌};
    ghost use Rattle.gix_topo.specs.declared.Error.TheVariants as error;

    ghost from_gives = { λ e r. r ≡ error.ObjectDecode e };

    fn from(e: decode::Error) -> Error {
        Error::ObjectDecode(e)
    }
}

impl From<existing_iter::Error> for Error {
    ghost use Rattle.std.specs.Prelude.{◌≡◌};
    ghost use Rattle.gix_topo.specs.Errors.{error_of_find};

    ghost from_gives = { λ e r. r ≡ error_of_find e };

    fn from(e: existing_iter::Error) -> Error {
        match e {
            existing_iter::Error::Memory => Error::Memory,
            e => Error::Find(e),
        }
    }
}

impl From<AllocError> for Error {
    ghost use Rattle.std.specs.Prelude.{◌≡◌};
    ghost use Rattle.gix_topo.specs.declared.Error.TheVariants as error;

    ghost from_gives = { λ _ r. r ≡ error.Memory };

    fn from(_e: AllocError) -> Error {
        Error::Memory
    }
}

// So that `list.push(id)?` is this error. The value is dropped.
impl<T: Drop> From<AllocFailed<T>> for Error {
    ghost use Rattle.std.specs.Prelude.{◌≡◌};
    ghost use Rattle.gix_topo.specs.declared.Error.TheVariants as error;

    ghost from_gives = { λ _ r. r ≡ error.Memory };

    fn from(_e: AllocFailed<T>) -> Error {
        Error::Memory
    }
}

/// A walk of what tips reach and no end reaches, no commit before its children, from [`Builder::build`].
///
/// # Errors
///
/// `next` answers `Find` or `ObjectDecode` where it can't read an object: tips or ends reach it, or it is a parent, walked or not, of
/// a commit that becomes ready. Where a commit-graph disagrees with the store, it may be another object. It has no row, unless a
/// corrupt row has dropped the graph, or its row says generation 4294967295. Without a commit-graph it is a parent that isn't walked,
/// unless the store failed. `MissingIndegreeUnexpected` comes only where rows disagree, and `Memory` when out of memory. After an error
/// no commit is given.
///
/// After None and after an error `next` may be called again, whatever the predicate: it gives None, and doesn't ask the predicate.
#[derive(Drop)]
pub struct Topo<F: Find, P> {
    walk: Walk<F>,
    predicate: P,
}

impl<F: Find, P> Model for Topo<F, P> {
    ghost use Rattle.std.specs.Coded.{codes};
    ghost use Rattle.gix_hash.specs.Id.{id_set_code};
    ghost use Rattle.gix_topo.specs.Inside.Releasing.{walk_of};
    ghost use Rattle.gix_topo.specs.Inside.Steady.{IsOpen};
    ghost use Rattle.gix_topo.specs.Walk.{TopoWalk};

    ghost Value = { TopoWalk F P };

    ghost coded = { Prim.hlevel (codes, id_set_code) };

    ghost view = { λ t. walk_of t.walk t.predicate };

    ghost invariant = { λ t. IsOpen F.objects F.faulty t.walk };
}

impl<F: Find + Drop, P: Predicate + Drop> Topo<F, P> {
    ghost use Rattle.std.specs.Prelude.{◌≡◌, [], if◌then◌else◌};
    ghost use Rattle.gix_revwalk.specs.Agreeing.{rows_in};

    /// The commit-graph, as long as its rows are read: none where the builder had none, and after a corrupt row.
    pub fn graph(&self) -> Option<&Graph>
        ensures { rows_in result ≡ if self.now.counted.in_use then self.now.plan.rows else [] }
    {
        self.walk.counting.reader.graph()
    }

    /// The number of different commits whose parents were read to count indegrees, from their rows or from the store.
    ///
    /// Where the rows agree or there are none, and no fault was given, these are all that tips reach by the walked parents and all
    /// that ends reach, by the parents that texts name, without a commit-graph and once it was dropped. As long as it is in use, they
    /// are those of these commits that aren't below the least generation of tips, ends and the walked parents of the commits taken.
    pub fn expanded(&self) -> usize
        ensures { result ≡ self.now.counted.expanded }
    {
        self.walk.counting.expanded
    }
}

impl<F: Find + Drop, P: Predicate + Drop> Iterator for Topo<F, P> {
    ghost use Rattle.std.specs.Iterator.{at_most};
    ghost use Rattle.std.specs.Prelude.{◌≡◌, ◌⊎◌, []};
    ghost use Rattle.gix_topo.specs.Laws.{answers_left};
    ghost use Rattle.gix_topo.specs.Walk.{Next};

    type Item = Result<Info, Error>;

    // Where nothing is ready, as after None and after an error, the predicate isn't asked.
    ghost can_next = { λ walk. P.can_accept walk.predicate ⊎ (walk.ready ≡ []) };

    ghost next_gives = { Next F.objects F.faulty P.answers };

    ghost remaining = { λ walk. at_most (answers_left F.objects walk) };

    fn next(&mut self) -> Option<Result<Info, Error>> {
        loop {
            let info = match self.walk.take_next()? {
                Ok(info) => info,
                Err(fault) => return Some(Err(fault)),
            };
            if self.predicate.accepts(&info.id) {
                return Some(Ok(info));
            }
        }
    }
}
