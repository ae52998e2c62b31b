//! The rows of ids in graphs of many rows, and copies of these graphs.
use gix_parts::graph::{Graph, ParentPlaces, Row};
use gix_parts::hash::ObjectId;
use std::alloc::{AllocError, Global};
use std::process::Abort;
use std::test::Fail;

const TREE: ObjectId = ObjectId::Sha1([0xaa; 20]);

/// How the ids of a graph are spread.
#[derive(Clone, Copy, Debug)]
enum Spread {
    Evenly,
    /// All begin with the same bytes.
    OneFront,
    /// The first four bytes rise by 1.
    Rising,
    /// The first half is at the low end, the other at the high end.
    BothEnds,
}

const SPREADS: [Spread; 4] = [
    Spread::Evenly,
    Spread::OneFront,
    Spread::Rising,
    Spread::BothEnds,
];

/// The id that begins with a number and ends with another.
fn id_of(front: u32, end: u64) -> ObjectId {
    let mut bytes = [0u8; 20];
    bytes[..4].copy_from_slice(&front.to_be_bytes());
    bytes[12..].copy_from_slice(&end.to_be_bytes());
    ObjectId::Sha1(bytes)
}

/// How the id of a number begins and ends.
fn ends_of(spread: Spread, number: u32) -> (u32, u64) {
    let end = u64::from(number);
    let mixed = end.wrapping_mul(0x9e37_79b9_7f4a_7c15);
    let mixed = (mixed ^ (mixed >> 30)).wrapping_mul(0xbf58_476d_1ce4_e5b9);
    match spread {
        Spread::Evenly => ((mixed >> 32) as u32, mixed),
        Spread::OneFront => (0x8000_0000, mixed),
        Spread::Rising => (number, 7),
        Spread::BothEnds if number % 2 == 0 => (0, end),
        Spread::BothEnds => (u32::MAX, u64::MAX - end),
    }
}

/// The rows of so many numbers. Their times are the numbers.
fn rows_of(alloc: Global, spread: Spread, count: u32) -> Result<Vec<Row>, AllocError> {
    let mut rows = Vec::new(alloc);
    for number in 0..count {
        let (front, end) = ends_of(spread, number);
        rows.push(Row {
            id: id_of(front, end),
            tree: TREE,
            parents: ParentPlaces::new(alloc),
            generation: 1,
            time: i64::from(number),
        })?;
    }
    Ok(rows)
}

fn all_ends(alloc: Global, spread: Spread, count: u32) -> Result<Vec<(u32, u64)>, AllocError> {
    let mut all = Vec::new(alloc);
    for number in 0..count {
        all.push(ends_of(spread, number))?;
    }
    Ok(all)
}

/// The time of the row whose id begins and ends so, by going through all ids.
fn time_among(all: &[(u32, u64)], front: u32, end: u64) -> Option<i64> {
    let mut time = 0i64;
    for other in all {
        if other.0 == front && other.1 == end {
            return Some(time);
        }
        time = time.wrapping_add(1);
    }
    None
}

fn time_in(graph: &Graph, id: &ObjectId) -> Option<i64> {
    let commit = graph.commit_by_id(id)?;
    Some(commit.committer_timestamp())
}

/// Each id and its two neighbours have the row that they should have, or none.
fn check_times(graph: &Graph, all: &[(u32, u64)], spread: Spread) -> Result<(), Fail> {
    for (front, end) in all {
        for step in [0, 1, u64::MAX] {
            let end = end.wrapping_add(step);
            let id = id_of(*front, end);
            let found = time_in(graph, &id);
            let want = time_among(all, *front, end);
            if found != want {
                return Err(Fail::new(format_args!(
                    "{spread:?}, {} rows: {id} has {found:?}, and not {want:?}",
                    all.len()
                )));
            }
        }
    }
    Ok(())
}

fn check_graph(rt: &(impl Abort + AllocGlobal), spread: Spread, count: u32) -> Result<(), Fail> {
    let rows = rows_of(rt.alloc(), spread, count)?;
    let all = all_ends(rt.alloc(), spread, count)?;
    let graph = Graph::new(rt.alloc(), rows)?;
    let copy = graph.copy()?;
    assert_eq!(rt; copy.packed(), graph.packed());
    check_times(&copy, all.as_slice(), spread)
}

#[test]
fn finds_rows(rt: HostRuntime) -> Result<(), Fail> {
    for spread in SPREADS {
        for count in [0, 1, 2, 255, 1_000] {
            check_graph(&rt, spread, count)?;
        }
    }
    Ok(())
}
