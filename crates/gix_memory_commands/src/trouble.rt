//! Why a call over a repository fails.
use gix_commands::Fault;
use gix_hash::ObjectId;
use gix_options::Misuse;
use gix_refs::{ConfigFault, RefFault};
use gix_repository::Damage;
use gix_revision::steps::StepFault;
use std::alloc::{AllocError, AllocFailed};

/// Why a call over a repository fails.
#[derive(Drop, Debug)]
pub enum Trouble {
    /// The command fails, or the words are none.
    Command(Fault),
    /// The files aren't those of a repository.
    Repository,
    /// The revision of this number, from 1 on, stands for nothing: no ref and no object is called so.
    Revision(usize),
    /// A file of objects is damaged.
    Objects,
    /// The object that is stored for this id is another's.
    Hash(ObjectId),
    /// The repository has no ref, and so no commit.
    NoCommit,
    /// The revision of this number is none, or has a form that isn't taken.
    Form(usize),
    /// The ids of several objects begin as the revision of this number says.
    Ambiguous(usize),
    /// The branch of the revision of this number has no upstream that is known.
    Upstream(usize),
    /// The revision of this number asks for a parent that the commit of this id doesn't have.
    Parent(usize, ObjectId),
    /// The revision of this number asks for an entry that the tree of this id doesn't have.
    Entry(usize, ObjectId),
    /// More tags lead to one another than are followed, from the revision of this number on.
    Tags(usize),
    /// The steps of the revision of this number meet this fault: an object that is missing, of another kind or broken.
    Steps(usize, Fault),
    /// A ref is damaged that the revision of this number needs.
    Ref(usize),
    /// This line of the config is no line of one.
    Config(usize),
    /// The config says a format that isn't known.
    Format,
    /// The config names an extension that isn't known.
    Extension,
    /// The refs are in a reftable.
    Reftable,
    /// This line of the packed refs is no ref, or at 0 a name in them can't be that of one.
    PackedRef(usize),
    /// This line of the border of a shallow clone is no id.
    Shallow(usize),
    /// Another file or folder of the repository is damaged.
    File,
}

impl From<Fault> for Trouble {
    fn from(fault: Fault) -> Trouble {
        Trouble::Command(fault)
    }
}

impl From<AllocError> for Trouble {
    fn from(_error: AllocError) -> Trouble {
        Trouble::Command(Fault::Memory)
    }
}

impl<T: Drop> From<AllocFailed<T>> for Trouble {
    fn from(_error: AllocFailed<T>) -> Trouble {
        Trouble::Command(Fault::Memory)
    }
}

impl From<Misuse> for Trouble {
    fn from(misuse: Misuse) -> Trouble {
        match misuse {
            Misuse::Memory => Trouble::Command(Fault::Memory),
            _ => Trouble::Command(Fault::Usage),
        }
    }
}

impl From<gix_gather::Fault> for Trouble {
    fn from(fault: gix_gather::Fault) -> Trouble {
        match fault {
            gix_gather::Fault::Files(_) => Trouble::Objects,
            gix_gather::Fault::Name(id) => Trouble::Hash(id),
            gix_gather::Fault::Memory => Trouble::Command(Fault::Memory),
        }
    }
}

impl From<gix_repository::Fault> for Trouble {
    fn from(fault: gix_repository::Fault) -> Trouble {
        of_repository(0, &fault)
    }
}

impl From<gix_questions::Fault> for Trouble {
    fn from(fault: gix_questions::Fault) -> Trouble {
        match fault {
            gix_questions::Fault::Misuse(misuse) => Trouble::from(misuse),
            gix_questions::Fault::Command(fault) => Trouble::Command(fault),
            gix_questions::Fault::Object(fault) => Trouble::from(fault),
            gix_questions::Fault::Repository(fault) => Trouble::from(fault),
            gix_questions::Fault::Revision(number, fault) => of_revision(number, fault),
            gix_questions::Fault::NoCommit => Trouble::NoCommit,
            gix_questions::Fault::Memory => Trouble::Command(Fault::Memory),
        }
    }
}

/// The trouble of the revision of this number.
fn of_revision(number: usize, fault: gix_revision::Fault) -> Trouble {
    match fault {
        gix_revision::Fault::Word { .. } => Trouble::Form(number),
        gix_revision::Fault::Unknown(_) => Trouble::Revision(number),
        gix_revision::Fault::NoUpstream(_) => Trouble::Upstream(number),
        gix_revision::Fault::BrokenRef(_) => Trouble::Ref(number),
        gix_revision::Fault::Ambiguous { .. } => Trouble::Ambiguous(number),
        gix_revision::Fault::Steps { fault, .. } => of_steps(number, fault),
        gix_revision::Fault::Repository(fault) => of_repository(number, &fault),
        gix_revision::Fault::Odb(_) => Trouble::Objects,
        gix_revision::Fault::Memory => Trouble::Command(Fault::Memory),
    }
}

/// The trouble of the steps of the revision of this number.
fn of_steps(number: usize, fault: StepFault) -> Trouble {
    match fault {
        StepFault::Missing(id) => Trouble::Steps(number, Fault::Missing(id)),
        StepFault::Kind(id, _, _) => Trouble::Steps(number, Fault::WrongKind(id)),
        StepFault::Malformed(_) => Trouble::Steps(number, Fault::Broken),
        StepFault::NoParent(id, _) => Trouble::Parent(number, id),
        StepFault::NoEntry(id) => Trouble::Entry(number, id),
        StepFault::ManyTags => Trouble::Tags(number),
        StepFault::Read(fault) => Trouble::from(fault),
        StepFault::Memory => Trouble::Command(Fault::Memory),
    }
}

/// The trouble of a repository, where the revision of this number is looked for, or at 0 before that.
fn of_repository(number: usize, fault: &gix_repository::Fault) -> Trouble {
    match fault {
        gix_repository::Fault::NoRepository(_) => Trouble::Repository,
        gix_repository::Fault::Damaged { damage, .. } => of_damage(damage),
        gix_repository::Fault::BrokenRef { .. } => Trouble::Ref(number),
        gix_repository::Fault::RefLoop(_) => Trouble::Ref(number),
        gix_repository::Fault::Odb(_) => Trouble::Objects,
        gix_repository::Fault::Memory => Trouble::Command(Fault::Memory),
    }
}

/// The trouble of a file that isn't that of a ref.
fn of_damage(damage: &Damage) -> Trouble {
    match damage {
        Damage::Config(fault) => of_config(fault),
        Damage::Ref(RefFault::Line(line)) => Trouble::PackedRef(*line as usize),
        Damage::Ref(RefFault::Border(line)) => Trouble::Shallow(*line as usize),
        Damage::Ref(RefFault::NoRepository) => Trouble::File,
        Damage::Ref(RefFault::NoFolder) => Trouble::File,
        Damage::Ref(_) => Trouble::PackedRef(0),
        _ => Trouble::File,
    }
}

/// The trouble of a config.
fn of_config(fault: &ConfigFault) -> Trouble {
    match fault {
        ConfigFault::Line(line) => Trouble::Config(*line as usize),
        ConfigFault::Extension(_) => Trouble::Extension,
        ConfigFault::Reftable => Trouble::Reftable,
        ConfigFault::Memory => Trouble::Command(Fault::Memory),
        _ => Trouble::Format,
    }
}
