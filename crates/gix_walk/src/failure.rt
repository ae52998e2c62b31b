//! Why the program fails.
use gix_commands::Fault;
use gix_hash::ObjectId;
use gix_options::Misuse;
use std::alloc::{AllocError, AllocFailed};
use std::io;
use thiserror::Error;

/// Why the program failed.
#[derive(Debug, Error)]
pub(crate) enum Failure {
    /// The arguments ask nothing of a repository.
    #[error(transparent)]
    Misuse(Misuse),
    /// The command failed.
    #[error(transparent)]
    Command(Fault),
    /// The system gives no random bytes. Without them whoever chose the ids could make the run slow.
    #[error("the system gives no random bytes: {0}")]
    Random(io::Error),
    /// The file of this name, which is to be a layer of the commit-graph, can't be read.
    #[error("commit-graph unreadable: {0}")]
    Unreadable(String),
    /// The folder of objects can't be opened.
    #[error(transparent)]
    Folder(gix_odb::Fault),
    /// An object can't be read from its folder.
    #[error(transparent)]
    Object(gix_gather::Fault),
    /// The input can't be read, or a record of it has another id than its object.
    #[error(transparent)]
    Records(gix_records::Error),
    /// The repository can't be opened, or a file of it is damaged.
    #[error(transparent)]
    Repository(gix_repository::Fault),
    /// A revision stands for nothing.
    #[error(transparent)]
    Revision(gix_revision::Fault),
    /// A revision stands for an object that a clone doesn't have, for this reason.
    #[error("{0}: {1}")]
    Lacking(String, &'static str),
    /// The commit-graph can't be compared with the commits.
    #[error(transparent)]
    Graph(gix_graph_verify::Fault<gix_gather::Fault>),
    /// A file of the commit-graph can't be read.
    #[error(transparent)]
    Layer(gix_graph_verify::LayerFault),
    /// A certificate isn't written, or isn't read.
    #[error(transparent)]
    Certificate(gix_certificate::Fault),
    /// The repository has no commit.
    #[error("no commit yet")]
    NoCommit,
    /// A shallow clone doesn't have this object. Behind it is what `--border` does, where it may be given.
    #[error("missing {0}: the clone is shallow, and its history ends here. {1}git fetch --unshallow fetches the rest")]
    Shallow(ObjectId, &'static str),
    /// A partial clone doesn't have this object.
    #[error("missing {0}: the clone is partial, and nothing is fetched here. git fetch --refetch --no-filter fetches what is missing")]
    Partial(ObjectId),
    /// The commit-graph differs from the commits, at so many places, which were named.
    #[error("the commit-graph isn't right; git commit-graph write --reachable writes it anew, but it can't keep times before 1970 or from 2^34 seconds on")]
    Differs,
    /// There is no commit-graph that git would use.
    #[error("git takes no commit-graph here: there is no file, or one of a chain isn't there, or core.commitGraph is false, or the clone is shallow")]
    NoGraph,
}

/// A call drops a failure. Else each function that may drop one would go through all of them itself, and so would its proof.
impl Drop for Failure {
    fn drop(self) {
        match self {
            Failure::Misuse(_)
            | Failure::Command(_)
            | Failure::Random(_)
            | Failure::Unreadable(_) => {}
            Failure::Folder(_) | Failure::Object(_) | Failure::Records(_) => {}
            Failure::Repository(_) | Failure::Revision(_) => {}
            Failure::Lacking(_, _) => {}
            Failure::Graph(_) | Failure::Layer(_) | Failure::Certificate(_) => {}
            Failure::NoCommit | Failure::Shallow(_, _) | Failure::Partial(_) => {}
            Failure::Differs | Failure::NoGraph => {}
        }
    }
}

impl From<Misuse> for Failure {
    fn from(misuse: Misuse) -> Failure {
        match misuse {
            Misuse::Memory => Failure::Command(Fault::Memory),
            misuse => Failure::Misuse(misuse),
        }
    }
}

impl From<Fault> for Failure {
    fn from(fault: Fault) -> Failure {
        Failure::Command(fault)
    }
}

impl From<AllocError> for Failure {
    fn from(_error: AllocError) -> Failure {
        Failure::Command(Fault::Memory)
    }
}

impl<T: Drop> From<AllocFailed<T>> for Failure {
    fn from(_error: AllocFailed<T>) -> Failure {
        Failure::Command(Fault::Memory)
    }
}

impl From<gix_odb::Fault> for Failure {
    fn from(fault: gix_odb::Fault) -> Failure {
        Failure::Folder(fault)
    }
}

impl From<gix_gather::Fault> for Failure {
    fn from(fault: gix_gather::Fault) -> Failure {
        Failure::Object(fault)
    }
}

impl From<gix_records::Error> for Failure {
    fn from(error: gix_records::Error) -> Failure {
        Failure::Records(error)
    }
}

impl From<gix_repository::Fault> for Failure {
    fn from(fault: gix_repository::Fault) -> Failure {
        Failure::Repository(fault)
    }
}

impl From<gix_questions::Fault> for Failure {
    fn from(fault: gix_questions::Fault) -> Failure {
        match fault {
            gix_questions::Fault::Misuse(misuse) => Failure::from(misuse),
            gix_questions::Fault::Command(fault) => Failure::Command(fault),
            gix_questions::Fault::Object(fault) => Failure::Object(fault),
            gix_questions::Fault::Repository(fault) => Failure::Repository(fault),
            gix_questions::Fault::Revision(_, fault) => Failure::Revision(fault),
            gix_questions::Fault::NoCommit => Failure::NoCommit,
            gix_questions::Fault::Memory => Failure::Command(Fault::Memory),
        }
    }
}

impl From<gix_graph_verify::Fault<gix_gather::Fault>> for Failure {
    fn from(fault: gix_graph_verify::Fault<gix_gather::Fault>) -> Failure {
        Failure::Graph(fault)
    }
}

impl From<gix_certificate::Fault> for Failure {
    fn from(fault: gix_certificate::Fault) -> Failure {
        match fault {
            gix_certificate::Fault::Memory => Failure::Command(Fault::Memory),
            fault => Failure::Certificate(fault),
        }
    }
}

impl From<gix_graph_verify::LayerFault> for Failure {
    fn from(fault: gix_graph_verify::LayerFault) -> Failure {
        Failure::Layer(fault)
    }
}
