//! A commit as a caller's slices hold it, and what is said of a batch.
ghost use Rattle.std.specs.Prelude.{◌≡◌, ◌≤◌, ◌+◌, ◌++◌, map, take, drop, length};
ghost use Rattle.gix_batches.specs.Slices.{commit_of, id_of, known_of, told_of};
ghost use Rattle.gix_hash.specs.Id.{id_len, kind_of};

use gix_hash::ObjectId;
use gix_revwalk::Info;
use gix_words::Fault;

/// The bytes of an id, and zeros behind one of 20 bytes.
#[repr(C)]
#[derive(Clone, Copy, PartialEq, Eq, Debug)]
pub struct CommitId {
    pub bytes: [u8; 32],
}

/// A commit that a walk gives. It has 64 bytes, none of them padding.
#[repr(C)]
#[derive(Clone, Copy, PartialEq, Eq, Debug)]
pub struct Commit {
    /// Its id.
    pub id: CommitId,
    /// The committer's seconds since 1970-01-01 00:00 UTC where `known` has the bit 1, otherwise 0.
    pub time: i64,
    /// Where the ids of its parents begin in the slice for parents.
    pub parents_at: usize,
    /// How many parents it has, repeats counted.
    pub parents: usize,
    /// The generation in its row of a commit-graph where `known` has the bit 2, otherwise 0.
    pub generation: u32,
    /// How many bytes its id has, and the ids of its parents: 20 or 32.
    pub id_length: u16,
    /// 1 where the time is known, and 2 where the generation is, added.
    pub known: u16,
}

/// Why a batch has no more commits.
#[derive(Drop, Debug)]
pub enum Ending {
    /// The list has no more.
    Ended,
    /// The slice for commits is full, and the list may have more.
    More,
    /// The slice for parents has no room for those of the next commit, which has so many.
    Small(usize),
    /// The fault that comes behind these commits.
    Failed(Fault),
}

/// How many commits and ids of parents were put into the slices of a caller, and why no more were.
#[derive(Drop, Debug)]
pub struct Batch {
    pub commits: usize,
    pub parents: usize,
    pub ending: Ending,
}

impl CommitId {
    /// The bytes of this id.
    pub fn of(id: &ObjectId) -> CommitId
        ensures { result ≡ id_of id.now }
    {
        match id {
            ObjectId::Sha1(these) => {
                let mut bytes = [0; 32];
                bytes[..20].copy_from_slice(these);
                CommitId { bytes }
            }
            ObjectId::Sha256(bytes) => CommitId { bytes: *bytes },
        }
    }
}

impl Commit {
    /// This commit, the ids of whose parents begin there.
    pub fn of(info: &Info, parents_at: usize) -> Commit
        ensures { result ≡ commit_of parents_at (told_of info.now) }
    {
        Commit {
            id: CommitId::of(&info.id),
            time: info.commit_time.unwrap_or(0),
            parents_at,
            parents: info.parent_ids.len(),
            generation: info.generation.unwrap_or(0),
            id_length: length_of(&info.id),
            known: known_of(info),
        }
    }
}

/// How many bytes this id has.
fn length_of(id: &ObjectId) -> u16
    ensures { result ≡ id_len (kind_of id.now) }
{
    match id {
        ObjectId::Sha1(_) => 20,
        ObjectId::Sha256(_) => 32,
    }
}

/// What is known of this commit.
fn known_of(info: &Info) -> u16
    ensures { result ≡ known_of info.now.commit_time info.now.generation }
{
    match (info.commit_time, info.generation) {
        (None, None) => 0,
        (Some(_), None) => 1,
        (None, Some(_)) => 2,
        (Some(_), Some(_)) => 3,
    }
}

/// Puts these ids into a room, from this place on.
pub(crate) fn put_ids(ids: &[ObjectId], room: &mut [CommitId], at: usize)
    requires { at + length ids.now ≤ length room.old }
    ensures { room.new ≡ (take at room.old ++ map id_of ids.now) ++ drop (at + length ids.now) room.old }
{
    let mut next = at;
    for id in ids {
        room[next] = CommitId::of(id);
        next += 1;
    }
}
