//! What a call answers.
ghost use Rattle.std.specs.Prelude.{◌≡◌};
ghost use Rattle.gix_memory_commands.specs.Answers.{of_fault, of_id, of_place, text_of};
ghost use Rattle.gix_memory_commands.specs.BatchSlices.{of_batch, of_full};
ghost use Rattle.gix_memory_commands.specs.FolderAnswers.{of_both, of_trouble};
ghost use Rattle.gix_memory_commands.specs.Room.{of_length, too_small, well};

use crate::trouble::Trouble;
use gix_batches::{Batch, Ending};
use gix_commands::Fault;
use gix_hash::ObjectId;

/// What a call answers, in numbers: which fault, what it names, and how many bytes or commits there are.
#[repr(C)]
#[derive(Clone, Copy, PartialEq, Eq, Debug)]
pub struct Answer {
    /// 0 where all went well, 1 where the room was too small, or the number of the fault: 2 `Usage`, 3 `Id`, 4 `Record`, 5 `Missing`,
    /// 6 `WrongKind`, 7 `Broken`, 8 `Cycle`, 9 `Memory`, 10 `Read`, 11 `Write`, 12 `Internal`, 13 `Graph`, 14 `Row`, 15 `Disagrees`,
    /// 16 `Name`, 22 `Entries`. Those from 10 to 15 never come. 17 where a batch of commits is full, and there may be more. Those of a
    /// [`Trouble`] are 18 `Repository`, 19 `Revision`, 20 `Objects`, 21 `Hash`, 23 `NoCommit`, 24 `Form`, 25 `Ambiguous`, 26 `Upstream`,
    /// 27 `Parent`, 28 `Entry`, 29 `Tags`, 30 `Ref`, 31 `Config`, 32 `Format`, 33 `Extension`, 34 `Reftable`, 35 `PackedRef`, 36 `Shallow`
    /// and 37 `File`; `Steps` has that of its fault.
    pub number: u32,
    /// How many bytes of `id` are an id: 20 or 32 where the fault names an object, otherwise 0.
    pub id_length: u32,
    /// How many bytes were put into the room, or, where it was too small, how many there are. 0 at a fault. Of a batch, how many commits.
    pub length: usize,
    /// The number of the word, of the record, of the revision or of the line that the fault names, from 1; or of a batch in which not one commit
    /// fits the room for parents that the next one needs; otherwise 0.
    pub place: usize,
    /// The id of the object that the fault names, and zeros behind it.
    pub id: [u8; 32],
}

impl Answer {
    /// All went well, and so many bytes were put into the room.
    pub(crate) fn well(length: usize) -> Answer
        ensures { result ≡ well length }
    {
        Answer::of_length(0, length)
    }

    /// The room was too small for so many bytes.
    pub(crate) fn too_small(length: usize) -> Answer
        ensures { result ≡ too_small length }
    {
        Answer::of_length(1, length)
    }

    /// The fault of a run.
    pub(crate) fn of_fault(fault: Fault) -> Answer
        ensures { result ≡ of_fault fault }
    {
        match fault {
            Fault::Usage => Answer::of_length(2, 0),
            Fault::Id(place) => Answer::of_place(3, place),
            Fault::Record(place) => Answer::of_place(4, place),
            Fault::Missing(id) => Answer::of_id(5, id),
            Fault::WrongKind(id) => Answer::of_id(6, id),
            Fault::Broken => Answer::of_length(7, 0),
            Fault::Cycle(id) => Answer::of_id(8, id),
            Fault::Memory => Answer::of_length(9, 0),
            Fault::Read => Answer::of_length(10, 0),
            Fault::Write => Answer::of_length(11, 0),
            Fault::Internal => Answer::of_length(12, 0),
            Fault::Graph(_) => Answer::of_length(13, 0),
            Fault::Row(id) => Answer::of_id(14, id),
            Fault::Disagrees(id) => Answer::of_id(15, id),
            Fault::Name(id) => Answer::of_id(16, id),
            Fault::Entries(number) => Answer::of_place(22, number as usize),
        }
    }

    /// The trouble of a call over a repository.
    pub(crate) fn of_trouble(trouble: Trouble) -> Answer
        ensures { result ≡ of_trouble trouble }
    {
        match trouble {
            Trouble::Command(fault) => Answer::of_fault(fault),
            Trouble::Repository => Answer::of_length(18, 0),
            Trouble::Revision(place) => Answer::of_place(19, place),
            Trouble::Objects => Answer::of_length(20, 0),
            Trouble::Hash(id) => Answer::of_id(21, id),
            Trouble::NoCommit => Answer::of_length(23, 0),
            Trouble::Form(place) => Answer::of_place(24, place),
            Trouble::Ambiguous(place) => Answer::of_place(25, place),
            Trouble::Upstream(place) => Answer::of_place(26, place),
            Trouble::Parent(place, id) => Answer::of_both(27, place, id),
            Trouble::Entry(place, id) => Answer::of_both(28, place, id),
            Trouble::Tags(place) => Answer::of_place(29, place),
            Trouble::Steps(place, fault) => Answer {
                place,
                ..Answer::of_fault(fault)
            },
            Trouble::Ref(place) => Answer::of_place(30, place),
            Trouble::Config(line) => Answer::of_place(31, line),
            Trouble::Format => Answer::of_length(32, 0),
            Trouble::Extension => Answer::of_length(33, 0),
            Trouble::Reftable => Answer::of_length(34, 0),
            Trouble::PackedRef(line) => Answer::of_place(35, line),
            Trouble::Shallow(line) => Answer::of_place(36, line),
            Trouble::File => Answer::of_length(37, 0),
        }
    }

    /// The answer to a batch.
    pub(crate) fn of_batch(batch: Batch) -> Answer
        ensures { result ≡ of_batch batch }
    {
        match batch.ending {
            Ending::Ended => Answer::of_length(0, batch.commits),
            Ending::More => Answer::of_full(batch.commits, 0),
            Ending::Small(needed) => Answer::of_full(batch.commits, needed),
            Ending::Failed(fault) => Answer {
                length: batch.commits,
                ..Answer::of_fault(fault)
            },
        }
    }

    /// The answer to a batch of so many commits behind which there is no room: for none, with the room for parents that is needed.
    fn of_full(commits: usize, needed: usize) -> Answer
        ensures { result ≡ of_full commits needed }
    {
        if commits == 0 {
            Answer::of_place(1, needed)
        } else {
            Answer::of_length(17, commits)
        }
    }

    /// An answer that names nothing.
    fn of_length(number: u32, length: usize) -> Answer
        ensures { result ≡ of_length number length }
    {
        Answer {
            number,
            id_length: 0,
            length,
            place: 0,
            id: [0; 32],
        }
    }

    /// An answer that names a word, a record, a revision or a line, or a room.
    fn of_place(number: u32, place: usize) -> Answer
        ensures { result ≡ of_place number place }
    {
        Answer {
            number,
            id_length: 0,
            length: 0,
            place,
            id: [0; 32],
        }
    }

    /// The answer of a fault that names a revision and an object.
    fn of_both(number: u32, place: usize, named: ObjectId) -> Answer
        ensures { result ≡ of_both number place named }
    {
        Answer {
            place,
            ..Answer::of_id(number, named)
        }
    }

    /// The answer of a fault that names an object.
    fn of_id(number: u32, named: ObjectId) -> Answer
        ensures { result ≡ of_id number named }
    {
        match named {
            ObjectId::Sha1(bytes) => {
                let mut id = [0; 32];
                id[..20].copy_from_slice(&bytes);
                Answer {
                    number,
                    id_length: 20,
                    length: 0,
                    place: 0,
                    id,
                }
            }
            ObjectId::Sha256(id) => Answer {
                number,
                id_length: 32,
                length: 0,
                place: 0,
                id,
            },
        }
    }
}

/// The text of an answer of this number.
pub fn text_of(number: u32) -> &'static str
    ensures { result.now ≡ text_of number }
{
    match number {
        0 => "well",
        1 => "room too small",
        2 => "usage",
        3 => "bad id in word",
        4 => "bad record",
        5 => "missing",
        6 => "wrong kind",
        7 => "broken object",
        8 => "cycle",
        9 => "out of memory",
        10 => "read failed",
        11 => "write failed",
        12 => "internal fault",
        13 => "bad commit-graph",
        14 => "bad row in the commit-graph",
        15 => "commit-graph disagrees",
        16 => "bad name in tree",
        17 => "more commits",
        18 => "no repository",
        19 => "unknown revision",
        20 => "damaged files of objects",
        21 => "another object than the id's",
        22 => "too many entries",
        23 => "no commit yet",
        24 => "revision of a form not taken",
        25 => "ambiguous revision",
        26 => "no upstream",
        27 => "no such parent",
        28 => "no such entry",
        29 => "too many tags",
        30 => "broken ref",
        31 => "bad config line",
        32 => "unknown format of repository",
        33 => "unknown extension",
        34 => "refs in a reftable",
        35 => "bad packed ref",
        36 => "bad line of shallow",
        37 => "damaged file of repository",
        _ => "unknown fault",
    }
}
