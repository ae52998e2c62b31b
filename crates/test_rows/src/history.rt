//! Histories to walk. Commit n has the id of forty digits n, and mostly time n.
use crate::words::Stop;
use gix_parts::graph::{Graph, ParentPlace, ParentPlaces, Row};
use gix_parts::hash::{Keys, ObjectId};
use gix_parts::object::Kind;
use gix_parts::object::find::{self, Find};
use gix_parts::object::memory::MemoryStore;
use std::alloc::{AllocError, Global};
use std::fmt;

/// The empty tree, as Git names it.
pub const TREE: &str = "4b825dc642cb6eb9a060e54bf8d69288fbee4904";

/// The bytes of its id.
pub const EMPTY_TREE: [u8; 20] = [
    0x4b, 0x82, 0x5d, 0xc6, 0x42, 0xcb, 0x6e, 0xb9, 0xa0, 0x60, 0xe5, 0x4b, 0xf8, 0xd6, 0x92, 0x88,
    0xfb, 0xee, 0x49, 0x04,
];

/// The commits of the sample with their parents.
pub const SAMPLE: [(u8, &[u8]); 8] = [
    (8, &[6, 7]),
    (7, &[4]),
    (6, &[5]),
    (5, &[3]),
    (4, &[2]),
    (3, &[1]),
    (2, &[1]),
    (1, &[]),
];

/// The id of this hex digit, forty times.
pub fn id(digit: u8) -> ObjectId {
    ObjectId::Sha1([digit.wrapping_mul(17); 20])
}

/// The id of this hex digit, sixty-four times.
pub fn long_id(digit: u8) -> ObjectId {
    ObjectId::Sha256([digit.wrapping_mul(17); 32])
}

/// The digit of an id that one of the two above gave.
pub fn digit(id: &ObjectId) -> u8 {
    match id {
        ObjectId::Sha1(bytes) => bytes[0] / 17,
        ObjectId::Sha256(bytes) => bytes[0] / 17,
    }
}

/// The text of a commit at this time with parents of these names.
pub fn text<N: fmt::Display>(
    alloc: Global,
    tree: &str,
    time: i64,
    parents: &[N],
) -> Result<String, AllocError> {
    let mut text = format!(in alloc; "tree {tree}\n")?;
    for parent in parents {
        writeln!(text, "parent {parent}")?;
    }
    write!(
        text,
        "author A <a@b> {time} +0000\ncommitter A <a@b> {time} +0000\n\n"
    )?;
    Ok(text)
}

/// The ids of these digits.
pub fn ids(alloc: Global, digits: &[u8]) -> Result<Vec<ObjectId>, AllocError> {
    let mut ids = Vec::new(alloc);
    for digit in digits {
        ids.push(id(*digit))?;
    }
    Ok(ids)
}

/// Stores commit n of this time with these parents.
pub fn insert_at(
    alloc: Global,
    store: &mut MemoryStore<'_>,
    n: u8,
    time: i64,
    parents: &[u8],
) -> Result<(), AllocError> {
    let text = text(alloc, TREE, time, &ids(alloc, parents)?)?;
    store.insert(id(n), Kind::Commit, text.as_str().as_bytes())
}

/// Stores commit n, whose text ends behind its author line.
pub fn insert_without_committer(
    alloc: Global,
    store: &mut MemoryStore<'_>,
    n: u8,
) -> Result<(), AllocError> {
    let text = format!(in alloc; "tree {TREE}\nauthor A <a@b> {n} +0000\n")?;
    store.insert(id(n), Kind::Commit, text.as_str().as_bytes())
}

/// Stores commit n, whose first parent is 6, and whose second parent is named by a digit less.
pub fn insert_with_broken_parent(
    alloc: Global,
    store: &mut MemoryStore<'_>,
    n: u8,
) -> Result<(), AllocError> {
    let six = format!(in alloc; "{}", id(6))?;
    let short = String::from_str(alloc, "777777777777777777777777777777777777777")?;
    let text = text(alloc, TREE, i64::from(n), &[six, short])?;
    store.insert(id(n), Kind::Commit, text.as_str().as_bytes())
}

/// A commit whose text is of no use, or an object that is no commit.
#[derive(Clone, Copy)]
pub enum Odd {
    None,
    /// Commit 9 ends behind its author line.
    WithoutCommitter,
    /// Commit 9 has the first parent 6, and a second one whose name is a digit short.
    BrokenParent,
    /// The long commit 3 has a parent whose name has forty digits.
    ShortParent,
    /// The object of this digit is a tag.
    Tag(u8),
}

/// What a store holds.
#[derive(Clone, Copy)]
pub struct History<'a> {
    /// Commits with their parents.
    pub commits: &'a [(u8, &'a [u8])],
    /// Commit n has this many times n for its time.
    pub scale: i64,
    /// Commits with times of their own, in place of those before.
    pub more: &'a [(u8, i64, &'a [u8])],
    /// Commits of 32-byte ids.
    pub long: &'a [(u8, &'a [u8])],
    pub odd: Odd,
}

/// No commits.
pub const EMPTY: History<'static> = History {
    commits: &[],
    scale: 1,
    more: &[],
    long: &[],
    odd: Odd::None,
};

/// The sample.
pub const PLAIN: History<'static> = History {
    commits: &SAMPLE,
    ..EMPTY
};

impl Odd {
    fn insert(self, alloc: Global, store: &mut MemoryStore<'_>) -> Result<(), AllocError> {
        match self {
            Odd::None => Ok(()),
            Odd::WithoutCommitter => insert_without_committer(alloc, store, 9),
            Odd::BrokenParent => insert_with_broken_parent(alloc, store, 9),
            Odd::ShortParent => {
                let tree = format!(in alloc; "{}", long_id(14))?;
                let text = text(alloc, tree.as_str(), 3, &[id(2)])?;
                store.insert(long_id(3), Kind::Commit, text.as_str().as_bytes())
            }
            Odd::Tag(n) => store.insert(id(n), Kind::Tag, b"tag"),
        }
    }
}

impl History<'_> {
    /// A store of all this.
    pub fn store(&self, alloc: Global) -> Result<MemoryStore<'static>, AllocError> {
        let mut store = MemoryStore::new(alloc, Keys::KNOWN);
        self.insert(alloc, &mut store)?;
        Ok(store)
    }

    fn insert(&self, alloc: Global, store: &mut MemoryStore<'_>) -> Result<(), AllocError> {
        for (n, parents) in self.commits {
            let time = i64::from(*n).wrapping_mul(self.scale);
            insert_at(alloc, store, *n, time, parents)?;
        }
        for (n, time, parents) in self.more {
            insert_at(alloc, store, *n, *time, parents)?;
        }
        for (n, parents) in self.long {
            insert_long(alloc, store, *n, parents)?;
        }
        self.odd.insert(alloc, store)
    }
}

/// A store, and the id at which it fails, if at any.
#[derive(Clone, Copy)]
pub struct Failing<'a>(pub &'a MemoryStore<'a>, pub Option<ObjectId>);

impl Find for Failing<'_> {
    ghost use Rattle.std.specs.Prelude.{◌≡◌, Some};

    ghost objects = { λ s. s.0.now };

    ghost faulty = { λ s i. s.1 ≡ Some i };

    fn find_into(&self, id: &ObjectId, buf: &mut Vec<u8>) -> Result<Option<Kind>, find::Error> {
        if self.1 == Some(*id) {
            return Err(find::Error::Store);
        }
        self.0.find_into(id, buf)
    }
}

/// What a commit-graph is to say: commits with their parents and their generations, and whether the place of a parent in a
/// commit's row is corrupt.
#[derive(Clone, Copy)]
pub struct Rows<'a> {
    pub commits: &'a [(u8, &'a [u8])],
    pub generations: &'a [u32],
    pub fault: Option<(u8, u8)>,
}

/// Commits that reach younger ones.
pub const SKEWED_COMMITS: [(u8, &[u8]); 6] = [
    (9, &[8, 6]),
    (8, &[7]),
    (7, &[6]),
    (6, &[]),
    (2, &[1]),
    (1, &[8]),
];

/// A history with a commit, 1, that is older than its parent, 8.
pub const SKEWED: Rows<'static> = Rows {
    commits: &SKEWED_COMMITS,
    generations: &[4, 3, 2, 1, 5, 4],
    fault: None,
};

/// The rows of the whole sample.
pub const FULL: Rows<'static> = Rows {
    commits: &SAMPLE,
    generations: &[5, 4, 4, 3, 3, 2, 2, 1],
    fault: None,
};

impl Rows<'_> {
    /// The place of a commit's row, if there is one.
    fn place(&self, n: u8) -> ParentPlace {
        for (place, commit) in self.commits.iter().enumerate() {
            if commit.0 == n {
                return match u32::try_from(place) {
                    Ok(place) => ParentPlace::At(place),
                    Err(_) => ParentPlace::Fault,
                };
            }
        }
        ParentPlace::Fault
    }

    fn places(&self, alloc: Global, n: u8, parents: &[u8]) -> Result<ParentPlaces, AllocError> {
        let mut places = ParentPlaces::new(alloc);
        for parent in parents {
            if self.fault == Some((n, *parent)) {
                places.push(ParentPlace::Fault)?;
            } else {
                places.push(self.place(*parent))?;
            }
        }
        Ok(places)
    }

    /// The graph of these rows.
    pub fn graph(&self, alloc: Global) -> Result<Graph, Stop> {
        let rows = self.rows(alloc)?;
        Ok(Graph::new(alloc, rows)?)
    }

    fn rows(&self, alloc: Global) -> Result<Vec<Row>, AllocError> {
        let mut rows = Vec::new(alloc);
        for ((n, parents), generation) in self.commits.iter().zip(self.generations) {
            rows.push(Row {
                id: id(*n),
                tree: ObjectId::Sha1(EMPTY_TREE),
                parents: self.places(alloc, *n, parents)?,
                generation: *generation,
                time: i64::from(*n),
            })?;
        }
        Ok(rows)
    }

    /// A graph that was read from the bytes of another.
    pub fn packed(&self, alloc: Global) -> Result<Graph, Stop> {
        let graph = self.graph(alloc)?;
        let bytes = Vec::from_slice(alloc, graph.packed())?;
        Ok(Graph::from_packed(bytes)?)
    }
}

/// How a walk reads commits: from the store alone, by rows, or by the bytes of these rows.
#[derive(Clone, Copy, Debug)]
pub enum By {
    Store,
    Rows,
    Packed,
}

/// From the store alone.
pub const BY_STORE: &[By] = &[By::Store];

/// By rows and by their bytes.
pub const BY_ROWS: &[By] = &[By::Rows, By::Packed];

/// In each way.
pub const BY_ALL: &[By] = &[By::Store, By::Rows, By::Packed];

impl By {
    /// The graph of these rows, where one is used.
    pub fn graph(self, alloc: Global, rows: &Rows<'_>) -> Result<Option<Graph>, Stop> {
        match self {
            By::Store => Ok(None),
            By::Rows => Ok(Some(rows.graph(alloc)?)),
            By::Packed => Ok(Some(rows.packed(alloc)?)),
        }
    }
}

/// How many bytes a row's answers have at most.
pub const ROOM: usize = 1024;

/// Stores the commit of a 32-byte id.
pub fn insert_long(
    alloc: Global,
    store: &mut MemoryStore<'_>,
    n: u8,
    parents: &[u8],
) -> Result<(), AllocError> {
    let mut ids = Vec::new(alloc);
    for parent in parents {
        ids.push(long_id(*parent))?;
    }
    let tree = format!(in alloc; "{}", long_id(14))?;
    let text = text(alloc, tree.as_str(), i64::from(n), &ids)?;
    store.insert(long_id(n), Kind::Commit, text.as_str().as_bytes())
}
