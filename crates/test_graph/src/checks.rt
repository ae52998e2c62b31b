//! Each call on a small graph.
use ParentPlace::{At, Fault};
use gix_commitgraph::{GENERATION_NUMBER_INFINITY, Graph, ParentPlace, ParentPlaces, Row};
use gix_graph_check::{Disagreement, check, first_unsound, heads};
use gix_hash::{Keys, ObjectId};
use gix_object::Kind;
use gix_object::memory::MemoryStore;
use std::alloc::Global;
use std::fmt::Write;
use std::test::Fail;
use test_rows::history::Failing;

/// A row: the byte of its id, its generation, and its parents.
type Line<'a> = (u8, u32, &'a [ParentPlace]);

fn id(byte: u8) -> ObjectId {
    ObjectId::Sha1([byte; 20])
}

fn graph_of(alloc: Global, lines: &[Line]) -> Result<Graph, Fail> {
    let mut rows = Vec::new(alloc);
    for (byte, generation, parents) in lines {
        rows.push(Row {
            id: id(*byte),
            tree: id(0x4b),
            parents: ParentPlaces::from_slice(alloc, parents)?,
            generation: *generation,
            time: 1,
        })?;
    }
    Ok(Graph::new(alloc, rows)?)
}

/// The first bytes of the ids of heads.
fn head_bytes(alloc: Global, lines: &[Line]) -> Result<Vec<u8>, Fail> {
    let graph = graph_of(alloc, lines)?;
    let mut bytes = Vec::new(alloc);
    for id in heads(alloc, &graph)?.as_slice() {
        bytes.push(id.as_bytes().first().copied().unwrap_or(0))?;
    }
    Ok(bytes)
}

/// The first byte of the id of the first row that isn't sound.
fn unsound_byte(alloc: Global, lines: &[Line]) -> Result<Option<u8>, Fail> {
    let graph = graph_of(alloc, lines)?;
    match first_unsound(&graph) {
        Some(id) => Ok(id.as_bytes().first().copied()),
        None => Ok(None),
    }
}

/// Rows in another order than that of their ids: 8 merges 6 and 7, 9 has four parents.
const SOUND: [Line; 5] = [
    (8, 3, &[At(1), At(2)]),
    (6, 1, &[]),
    (7, 2, &[At(1)]),
    (5, 1, &[]),
    (9, 4, &[At(0), At(1), At(2), At(3)]),
];

#[test]
fn sound_rows_have_no_unsound_one(rt: HostRuntime) -> Result<(), Fail> {
    assert_eq!(rt; unsound_byte(rt.alloc(), &[])?, None);
    assert_eq!(rt; unsound_byte(rt.alloc(), &SOUND)?, None);
    let greatest = [(1, GENERATION_NUMBER_INFINITY - 1, [].as_slice())];
    assert_eq!(rt; unsound_byte(rt.alloc(), &greatest)?, None);
    Ok(())
}

/// Rows, and the first that isn't sound.
const UNSOUND: [(&[Line], u8); 5] = [
    (&[(2, 1, &[]), (1, 1, &[At(0)])], 1),
    (&[(1, 1, &[]), (2, 5, &[Fault]), (3, 5, &[At(1)])], 2),
    (
        &[(3, 1, &[At(0)]), (2, 2, &[At(2)]), (1, 4_294_967_295, &[])],
        1,
    ),
    (&[(1, 1, &[]), (2, 9, &[At(0), At(0), At(0), Fault])], 2),
    (&[(1, 1, &[]), (2, 9, &[]), (3, 9, &[At(0), At(1)])], 3),
];

#[test]
fn the_first_unsound_row_is_named(rt: HostRuntime) -> Result<(), Fail> {
    for (lines, byte) in UNSOUND {
        assert_eq!(rt; unsound_byte(rt.alloc(), lines)?, Some(byte));
    }
    Ok(())
}

/// Rows, and the bytes of their heads.
const HEADS: [(&[Line], &[u8]); 4] = [
    (&[], &[]),
    (&SOUND, &[9]),
    (
        &[(2, 1, &[At(1)]), (1, 1, &[At(0)]), (3, 1, &[Fault])],
        &[3],
    ),
    (&[(3, 1, &[]), (1, 1, &[]), (2, 2, &[At(1)])], &[2, 3]),
];

#[test]
fn heads_are_in_rising_order(rt: HostRuntime) -> Result<(), Fail> {
    for (lines, bytes) in HEADS {
        assert_eq!(rt; head_bytes(rt.alloc(), lines)?.as_slice(), bytes);
    }
    Ok(())
}

/// A stored commit: the byte of its id, the byte of its tree's, its committer's seconds, and the bytes of its parents.
type Stored<'a> = (u8, u8, i64, &'a [u8]);

fn store_of(alloc: Global, commits: &[Stored]) -> Result<MemoryStore<'static>, Fail> {
    let mut store = MemoryStore::new(alloc, Keys::KNOWN);
    for (byte, tree, time, parents) in commits {
        let mut text = format!(in alloc; "tree {}\n", id(*tree))?;
        for parent in *parents {
            writeln!(text, "parent {}", id(*parent))?;
        }
        write!(text, "author <> 0 +0000\ncommitter <> {time} +0000\n\n")?;
        store.insert(id(*byte), Kind::Commit, text.as_str().as_bytes())?;
    }
    Ok(store)
}

/// What the check of these rows says of a store of these commits.
fn checked(
    alloc: Global,
    lines: &[Line],
    commits: &[Stored],
) -> Result<Option<Disagreement>, Fail> {
    let graph = graph_of(alloc, lines)?;
    let store = store_of(alloc, commits)?;
    Ok(check(alloc, &graph, &store).err())
}

/// The commits of the rows `SOUND`, and one more.
const COMMITS: [Stored; 6] = [
    (5, 0x4b, 1, &[]),
    (6, 0x4b, 1, &[]),
    (7, 0x4b, 1, &[6]),
    (8, 0x4b, 1, &[6, 7]),
    (9, 0x4b, 1, &[8, 6, 7, 5]),
    (3, 0x4b, 1, &[]),
];

#[test]
fn rows_of_stored_commits_agree(rt: HostRuntime) -> Result<(), Fail> {
    assert_eq!(rt; checked(rt.alloc(), &[], &[])?, None);
    assert_eq!(rt; checked(rt.alloc(), &SOUND, &COMMITS)?, None);
    let corrupt: [Line; 2] = [(7, 2, &[Fault]), (6, 1, &[])];
    assert_eq!(rt; checked(rt.alloc(), &corrupt, &COMMITS)?, None);
    Ok(())
}

/// Rows that say something else than `COMMITS`, and the byte of the first that does.
const OTHERS: [(&[Line], u8); 8] = [
    (&[(9, 1, &[]), (4, 1, &[])], 4),
    (&[(5, 4_294_967_295, &[])], 5),
    (&[(7, 2, &[])], 7),
    (&[(6, 1, &[]), (7, 2, &[At(0), At(0)])], 7),
    (&[(6, 1, &[]), (7, 1, &[At(0)])], 7),
    (&[(7, 2, &[Fault])], 7),
    (&[(6, 3, &[]), (7, 3, &[Fault])], 7),
    (&[(6, 1, &[]), (7, 2, &[At(0)]), (8, 3, &[At(1), At(0)])], 8),
];

#[test]
fn rows_that_say_something_else_are_named(rt: HostRuntime) -> Result<(), Fail> {
    for (lines, byte) in OTHERS {
        let found = checked(rt.alloc(), lines, &COMMITS)?;
        assert_eq!(rt; found, Some(Disagreement::Row(id(byte))));
    }
    Ok(())
}

/// Commits of which the row of 5 doesn't say the tree, the time or the parents.
const OTHER_COMMITS: [Stored; 3] = [(5, 0x4c, 1, &[]), (5, 0x4b, 2, &[]), (5, 0x4b, 1, &[6])];

#[test]
fn commits_that_say_something_else_are_named(rt: HostRuntime) -> Result<(), Fail> {
    for commit in OTHER_COMMITS {
        let found = checked(rt.alloc(), &[(5, 1, &[])], &[commit])?;
        assert_eq!(rt; found, Some(Disagreement::Row(id(5))));
    }
    Ok(())
}

/// Which row the check of the rows `SOUND` names, where the store fails at this id.
fn checked_failing(alloc: Global, byte: u8) -> Result<Option<Disagreement>, Fail> {
    let graph = graph_of(alloc, &SOUND)?;
    let store = store_of(alloc, &COMMITS)?;
    let failing = Failing(&store, Some(id(byte)));
    Ok(check(alloc, &graph, &failing).err())
}

#[test]
fn a_store_that_fails_at_a_row_is_named(rt: HostRuntime) -> Result<(), Fail> {
    for byte in [5, 6, 7, 8, 9] {
        let failed = Some(Disagreement::Store(id(byte)));
        assert_eq!(rt; checked_failing(rt.alloc(), byte)?, failed);
    }
    assert_eq!(rt; checked_failing(rt.alloc(), 3)?, None);
    Ok(())
}
