//! Why a run failed.
ghost use Rattle.std.specs.Prelude.{◌≡◌};

use gix_graph_check::Disagreement;
use gix_graph_file::ChainError;
use gix_hash::ObjectId;
use gix_object::find::existing_iter;
use gix_paint::Hidden;
use gix_tree::depthfirst;
use std::alloc::AllocError;
use thiserror::Error;

/// Why a run failed. The program writes a line with its name and this text.
#[derive(Clone, Copy, PartialEq, Eq, Debug, Error)]
pub enum Fault {
    /// The words are no command.
    #[error("usage")]
    Usage,
    /// The word of this number is no id. The command is word 1.
    #[error("bad id in word {0}")]
    Id(usize),
    /// The record of this number isn't one, or is cut. The first record is record 1.
    #[error("bad record {0}")]
    Record(usize),
    /// The input has no object of this id.
    #[error("missing {0}")]
    Missing(ObjectId),
    /// The object of this id is no commit where the walk needs a commit, or no tree where it needs a tree.
    #[error("wrong kind {0}")]
    WrongKind(ObjectId),
    /// An object's bytes are broken.
    #[error("broken object")]
    Broken,
    /// The tree of this id is under itself.
    #[error("cycle {0}")]
    Cycle(ObjectId),
    /// The tree of this id has an entry whose name is empty or holds a `/`, which can be no part of a path. It is the tree of the first such
    /// entry, in the order in which `files` lists entries. Nothing is written.
    #[error("bad name in tree {0}")]
    Name(ObjectId),
    /// The tree has this many entries, with those of the trees in it, each as often as it is met: more than 268,435,456, and no limit was
    /// asked for. `u64::MAX` stands for more, too. Nothing is written.
    #[error("too many entries: {0}")]
    Entries(u64),
    /// The layers are no commit-graph that can be read. Nothing is written, and of the input nothing is read.
    #[error("bad commit-graph: {0}")]
    Graph(ChainError),
    /// The row of this id can't be used without a store: it is the first, in rising order of ids, that has a parent without a row or
    /// of no lesser generation, or that has the generation 4294967295. Nothing is written, and of the input nothing is read.
    #[error("bad row {0} in the commit-graph")]
    Row(ObjectId),
    /// The input has an object of this id that isn't the commit that the row of the id says: it is no commit that can be read to its
    /// committer, or has another tree, time or list of parents. It is the first such row, in rising order of ids. Nothing is written.
    #[error("commit-graph disagrees with {0}")]
    Disagrees(ObjectId),
    /// Memory ran out.
    #[error("out of memory")]
    Memory,
    /// The input could not be read to its end.
    #[error("read failed")]
    Read,
    /// The output could not be written.
    #[error("write failed")]
    Write,
    /// A store in memory failed, a recorder broke a walk off, or a walk without a commit-graph missed what it counted. None of these
    /// happens.
    #[error("internal fault")]
    Internal,
}

impl From<AllocError> for Fault {
    ghost use Rattle.gix_words.specs.declared.fault.Fault.TheVariants as fault;

    ghost from_gives = { λ _ r. r ≡ fault.Memory };

    fn from(_error: AllocError) -> Fault {
        Fault::Memory
    }
}

impl From<gix_records::Error> for Fault {
    ghost use Rattle.gix_words.specs.Faults.{fault_of_records};

    ghost from_gives = { λ e r. r ≡ fault_of_records e };

    fn from(error: gix_records::Error) -> Fault {
        match error {
            gix_records::Error::Read => Fault::Read,
            gix_records::Error::Record(number) => Fault::Record(number),
            gix_records::Error::Name { .. } => Fault::Internal,
            gix_records::Error::Memory => Fault::Memory,
        }
    }
}

impl From<Disagreement> for Fault {
    ghost use Rattle.gix_words.specs.Faults.{fault_of_disagreement};

    ghost from_gives = { λ e r. r ≡ fault_of_disagreement e };

    fn from(error: Disagreement) -> Fault {
        match error {
            Disagreement::Row(id) => Fault::Disagrees(id),
            Disagreement::Store(_) => Fault::Internal,
            Disagreement::Memory => Fault::Memory,
        }
    }
}

impl From<existing_iter::Error> for Fault {
    ghost use Rattle.gix_words.specs.Faults.{fault_of_find};

    ghost from_gives = { λ e r. r ≡ fault_of_find e };

    fn from(error: existing_iter::Error) -> Fault {
        match error {
            existing_iter::Error::Store => Fault::Internal,
            existing_iter::Error::NotFound { oid } => Fault::Missing(oid),
            existing_iter::Error::ObjectKind { oid, .. } => Fault::WrongKind(oid),
            existing_iter::Error::Memory => Fault::Memory,
        }
    }
}

impl From<gix_simple::Error> for Fault {
    ghost use Rattle.gix_words.specs.Faults.{fault_of_walk};

    ghost from_gives = { λ e r. r ≡ fault_of_walk e };

    fn from(error: gix_simple::Error) -> Fault {
        match error {
            gix_simple::Error::Find(fault) => Fault::from(fault),
            gix_simple::Error::ObjectDecode(_) => Fault::Broken,
            gix_simple::Error::HiddenGraph(Hidden::Find(fault)) => Fault::from(fault),
            gix_simple::Error::HiddenGraph(Hidden::ObjectDecode(_)) => Fault::Broken,
            gix_simple::Error::Memory => Fault::Memory,
        }
    }
}

impl From<gix_topo::Error> for Fault {
    ghost use Rattle.gix_words.specs.Faults.{fault_of_topo_walk};

    ghost from_gives = { λ e r. r ≡ fault_of_topo_walk e };

    fn from(error: gix_topo::Error) -> Fault {
        match error {
            gix_topo::Error::MissingIndegreeUnexpected | gix_topo::Error::MissingStateUnexpected =>
                { Fault::Internal }
            gix_topo::Error::ObjectDecode(_) => Fault::Broken,
            gix_topo::Error::Find(fault) => Fault::from(fault),
            gix_topo::Error::Memory => Fault::Memory,
        }
    }
}

impl From<gix_contained::Error> for Fault {
    ghost use Rattle.gix_words.specs.Faults.{fault_of_search};

    ghost from_gives = { λ e r. r ≡ fault_of_search e };

    fn from(error: gix_contained::Error) -> Fault {
        match error {
            gix_contained::Error::Find(fault) => Fault::from(fault),
            gix_contained::Error::ObjectDecode(_) => Fault::Broken,
            gix_contained::Error::Memory => Fault::Memory,
        }
    }
}

impl From<gix_lines::Error> for Fault {
    ghost use Rattle.gix_words.specs.Faults.{fault_of_lines};

    ghost from_gives = { λ e r. r ≡ fault_of_lines e };

    fn from(error: gix_lines::Error) -> Fault {
        match error {
            gix_lines::Error::Memory => Fault::Memory,
            gix_lines::Error::Write => Fault::Write,
        }
    }
}

impl From<depthfirst::Error> for Fault {
    ghost use Rattle.gix_words.specs.Faults.{fault_of_tree_walk};

    ghost from_gives = { λ e r. r ≡ fault_of_tree_walk e };

    fn from(error: depthfirst::Error) -> Fault {
        match error {
            depthfirst::Error::Find(fault) => Fault::from(fault),
            depthfirst::Error::Cancelled => Fault::Internal,
            depthfirst::Error::ObjectDecode(_) => Fault::Broken,
            depthfirst::Error::Cycle { oid } => Fault::Cycle(oid),
            depthfirst::Error::Memory => Fault::Memory,
        }
    }
}
