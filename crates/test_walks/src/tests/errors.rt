//! The text of each error of the library: those of parts, those that walks hold, and those of walks.
use crate::tests::check_print;
use gix_parts::graph::{GraphError, ParentFault, Place};
use gix_parts::hash::{HexError, ObjectId};
use gix_parts::object::find::{self, existing_iter};
use gix_parts::object::{Kind, decode};
use gix_parts::records;
use gix_traverse::commit::simple::Hidden;
use gix_traverse::commit::{contained, simple, topo};
use gix_traverse::tree::breadthfirst;
use std::alloc::Global;
use std::fmt::Display;
use std::test::Fail;

const ID: ObjectId = ObjectId::Sha1([0x1a; 20]);

fn check_texts<E: Display>(alloc: Global, texts: &[(E, &str)]) -> Result<(), Fail> {
    for (error, text) in texts {
        check_print(alloc, error, text)?;
    }
    Ok(())
}

const OF_IDS: [(HexError, &str); 2] = [
    (HexError::Length, "an id has 40 or 64 hex digits"),
    (HexError::Digit, "a character of an id is no hex digit"),
];

const OF_GRAPHS: [(GraphError, &str); 10] = [
    (
        GraphError::TooMany,
        "a commit-graph has at most 2147483646 rows and as many overflow words",
    ),
    (
        GraphError::MixedKinds,
        "the ids of a commit-graph are of more than one kind",
    ),
    (
        GraphError::DuplicateId,
        "two rows of a commit-graph have one id",
    ),
    (
        GraphError::PositionOutOfRange,
        "a parent's place in a commit-graph is out of range",
    ),
    (
        GraphError::Packed(Place::Head),
        "not a packed commit-graph: Head",
    ),
    (
        GraphError::Packed(Place::Size),
        "not a packed commit-graph: Size",
    ),
    (
        GraphError::Packed(Place::Order(3)),
        "not a packed commit-graph: Order(3)",
    ),
    (
        GraphError::Packed(Place::Parents(4)),
        "not a packed commit-graph: Parents(4)",
    ),
    (
        GraphError::Packed(Place::Overflow),
        "not a packed commit-graph: Overflow",
    ),
    (GraphError::Memory, "out of memory"),
];

const OF_PLACES: [(ParentFault, &str); 1] = [(
    ParentFault,
    "a parent's place in a commit-graph is corrupt",
)];

const OF_RECORDS: [(records::Error, &str); 3] = [
    (records::Error::Read, "read failed"),
    (records::Error::Record(12), "bad record 12"),
    (records::Error::Memory, "out of memory"),
];

const OF_TEXTS: [(decode::Error, &str); 8] = [
    (decode::Error::Tree, "no tree line at the front of a commit"),
    (
        decode::Error::Parent,
        "a parent line of a commit holds no id",
    ),
    (
        decode::Error::Author,
        "no author line behind the parents of a commit",
    ),
    (
        decode::Error::Committer,
        "no committer line behind the author of a commit",
    ),
    (
        decode::Error::Missing,
        "the item that was asked for is missing",
    ),
    (
        decode::Error::EntryMode,
        "the mode of a tree entry is malformed",
    ),
    (
        decode::Error::EntryName,
        "the name of a tree entry does not end",
    ),
    (
        decode::Error::EntryId,
        "the id of a tree entry is cut short",
    ),
];

const OF_STORES: [(find::Error, &str); 2] = [
    (find::Error::Store, "the store could not be read"),
    (find::Error::Memory, "out of memory"),
];

const OF_OBJECTS: [(existing_iter::Error, &str); 4] = [
    (existing_iter::Error::Store, "the store could not be read"),
    (
        existing_iter::Error::NotFound { oid: ID },
        "an object with id 1a1a1a1a1a1a1a1a1a1a1a1a1a1a1a1a1a1a1a1a could not be found",
    ),
    (
        existing_iter::Error::ObjectKind {
            oid: ID,
            expected: Kind::Commit,
            actual: Kind::Tag,
        },
        "expected an object of kind Commit at 1a1a1a1a1a1a1a1a1a1a1a1a1a1a1a1a1a1a1a1a, but it is of kind Tag",
    ),
    (existing_iter::Error::Memory, "out of memory"),
];

#[test]
fn of_parts(rt: HostRuntime) -> Result<(), Fail> {
    check_texts(rt.alloc(), &OF_IDS)?;
    check_texts(rt.alloc(), &OF_GRAPHS)?;
    check_texts(rt.alloc(), &OF_PLACES)?;
    check_texts(rt.alloc(), &OF_RECORDS)?;
    check_texts(rt.alloc(), &OF_TEXTS)?;
    check_texts(rt.alloc(), &OF_STORES)?;
    check_texts(rt.alloc(), &OF_OBJECTS)
}

/// The errors that walks hold print what is held.
const FAILED: existing_iter::Error = existing_iter::Error::Store;

const BROKEN: decode::Error = decode::Error::Parent;

const OF_PAINTING: [(Hidden, &str); 2] = [
    (Hidden::Find(FAILED), "the store could not be read"),
    (
        Hidden::ObjectDecode(BROKEN),
        "a parent line of a commit holds no id",
    ),
];

const OF_SIMPLE: [(simple::Error, &str); 4] = [
    (simple::Error::Find(FAILED), "the store could not be read"),
    (
        simple::Error::ObjectDecode(BROKEN),
        "a parent line of a commit holds no id",
    ),
    (
        simple::Error::HiddenGraph(Hidden::Find(FAILED)),
        "the store could not be read",
    ),
    (simple::Error::Memory, "out of memory"),
];

const OF_CONTAINED: [(contained::Error, &str); 3] = [
    (
        contained::Error::Find(FAILED),
        "the store could not be read",
    ),
    (
        contained::Error::ObjectDecode(BROKEN),
        "a parent line of a commit holds no id",
    ),
    (contained::Error::Memory, "out of memory"),
];

const OF_TOPO: [(topo::Error, &str); 5] = [
    (
        topo::Error::MissingIndegreeUnexpected,
        "Indegree information is missing",
    ),
    (
        topo::Error::MissingStateUnexpected,
        "Internal state (bitflags) not found",
    ),
    (
        topo::Error::ObjectDecode(BROKEN),
        "a parent line of a commit holds no id",
    ),
    (topo::Error::Find(FAILED), "the store could not be read"),
    (topo::Error::Memory, "out of memory"),
];

const OF_TREES: [(breadthfirst::Error, &str); 5] = [
    (
        breadthfirst::Error::Find(FAILED),
        "the store could not be read",
    ),
    (
        breadthfirst::Error::Cancelled,
        "The delegate cancelled the operation",
    ),
    (
        breadthfirst::Error::ObjectDecode(BROKEN),
        "a parent line of a commit holds no id",
    ),
    (
        breadthfirst::Error::Cycle { oid: ID },
        "the tree 1a1a1a1a1a1a1a1a1a1a1a1a1a1a1a1a1a1a1a1a stands under itself",
    ),
    (breadthfirst::Error::Memory, "out of memory"),
];

#[test]
fn of_walks(rt: HostRuntime) -> Result<(), Fail> {
    check_texts(rt.alloc(), &OF_PAINTING)?;
    check_texts(rt.alloc(), &OF_SIMPLE)?;
    check_texts(rt.alloc(), &OF_CONTAINED)?;
    check_texts(rt.alloc(), &OF_TOPO)?;
    check_texts(rt.alloc(), &OF_TREES)
}
