//! Rows of a commit-graph: made of rows, and read from bytes.
use ParentPlace::{At, Fault};
use gix_parts::graph::{Graph, GraphError, ParentFault, ParentPlace, ParentPlaces, Place, Row};
use gix_parts::hash::ObjectId;
use std::alloc::Global;
use std::process::Abort;
use std::test::Fail;

/// The id of this hex digit, forty times.
fn id(digit: u8) -> ObjectId {
    ObjectId::Sha1([digit.wrapping_mul(17); 20])
}

/// The id of this hex digit, sixty-four times.
fn long_id(digit: u8) -> ObjectId {
    ObjectId::Sha256([digit.wrapping_mul(17); 32])
}

/// A row: the digit of its id, its generation, which is its time, and its parents.
type Line<'a> = (u8, u32, &'a [ParentPlace]);

/// A row of these ids, whose time is its generation.
fn row(
    alloc: Global,
    id: ObjectId,
    tree: ObjectId,
    generation: u32,
    parents: &[ParentPlace],
) -> Result<Row, Fail> {
    Ok(Row {
        id,
        tree,
        parents: ParentPlaces::from_slice(alloc, parents)?,
        generation,
        time: i64::from(generation),
    })
}

fn push_rows(alloc: Global, rows: &mut Vec<Row>, lines: &[Line]) -> Result<(), Fail> {
    for (digit, generation, parents) in lines {
        rows.push(row(alloc, id(*digit), id(10), *generation, parents)?)?;
    }
    Ok(())
}

fn rows_of(alloc: Global, lines: &[Line]) -> Result<Vec<Row>, Fail> {
    let mut rows = Vec::new(alloc);
    push_rows(alloc, &mut rows, lines)?;
    Ok(rows)
}

fn graph_of(alloc: Global, lines: &[Line]) -> Result<Graph, Fail> {
    Ok(Graph::new(alloc, rows_of(alloc, lines)?)?)
}

fn bytes(alloc: Global, text: &str) -> Result<Vec<u8>, Fail> {
    Ok(hex::decode(alloc, text)?)
}

/// The bytes of a graph, which are taken again.
fn text(rt: &(impl Abort + AllocGlobal), graph: &Graph) -> Result<String, Fail> {
    let copy = Graph::from_packed(Vec::from_slice(rt.alloc(), graph.packed())?)?;
    assert_eq!(rt; copy.packed(), graph.packed());
    assert_eq!(rt; copy.num_commits(), graph.num_commits());
    Ok(hex::encode(rt.alloc(), graph.packed())?)
}

/// The commit of a digit has these fields, and these parents by their digits, where 0 is a fault.
fn has(
    rt: &(impl Abort + AllocGlobal),
    graph: &Graph,
    digit: u8,
    generation: u32,
    parents: &[u8],
) -> Result<(), Fail> {
    let commit = graph
        .commit_by_id(&id(digit))
        .ok_or("the graph has the row")?;
    assert_eq!(rt; commit.id(), id(digit));
    assert_eq!(rt; commit.root_tree_id(), id(10));
    assert_eq!(rt; commit.generation(), generation);
    assert_eq!(rt; commit.committer_timestamp(), i64::from(generation));
    let mut places = commit.iter_parents();
    for parent in parents {
        match places.next() {
            Some(Ok(position)) => {
                assert!(rt; position.0 < graph.num_commits());
                assert_eq!(rt; graph.commit_at(position).id(), id(*parent));
            }
            Some(Err(ParentFault)) => assert_eq!(rt; *parent, 0),
            None => panic!(rt; "a parent of {digit} is missing"),
        }
    }
    assert!(rt; places.next().is_none());
    Ok(())
}

const TWO_ROWS: &str = "475452310000000200000000\
    1111111111111111111111111111111111111111\
    aaaaaaaaaaaaaaaaaaaaaaaaaaaaaaaaaaaaaaaa\
    7fffffff7fffffff000000010000000000000001\
    2222222222222222222222222222222222222222\
    aaaaaaaaaaaaaaaaaaaaaaaaaaaaaaaaaaaaaaaa\
    000000007fffffff000000020000000000000002";

#[test]
fn packs_two_rows(rt: HostRuntime) -> Result<(), Fail> {
    let graph = graph_of(rt.alloc(), &[(2, 2, &[At(1)]), (1, 1, &[])])?;
    assert_eq!(rt; text(&rt, &graph)?.as_str(), TWO_ROWS);
    has(&rt, &graph, 2, 2, &[1])?;
    has(&rt, &graph, 1, 1, &[])?;
    assert!(rt; graph.commit_by_id(&id(3)).is_none());
    assert!(rt; graph.commit_by_id(&long_id(1)).is_none());
    Ok(())
}

#[test]
fn packs_a_fault(rt: HostRuntime) -> Result<(), Fail> {
    let graph = graph_of(rt.alloc(), &[(2, 2, &[Fault]), (1, 1, &[])])?;
    let packed = text(&rt, &graph)?;
    assert_eq!(rt; packed.as_str().get(224..240), Some("7ffffffe7fffffff"));
    has(&rt, &graph, 2, 2, &[0])
}

/// The rows of the sample history, where a row stands before them.
const SAMPLE: [Line; 8] = [
    (8, 5, &[At(3), At(2)]),
    (7, 4, &[At(5)]),
    (6, 4, &[At(4)]),
    (5, 3, &[At(6)]),
    (4, 3, &[At(7)]),
    (3, 2, &[At(8)]),
    (2, 2, &[At(8)]),
    (1, 1, &[]),
];

/// Each commit of it, its generation and its parents.
const PARENTS: [(u8, u32, &[u8]); 8] = [
    (8, 5, &[6, 7]),
    (7, 4, &[4]),
    (6, 4, &[5]),
    (5, 3, &[3]),
    (4, 3, &[2]),
    (3, 2, &[1]),
    (2, 2, &[1]),
    (1, 1, &[]),
];

/// A graph of the sample history and of a commit 9 with three parents, the last of them as given, 9 first.
fn graph_of_nine(alloc: Global, last: ParentPlace) -> Result<Graph, Fail> {
    let mut rows = rows_of(alloc, &[(9, 5, &[At(3), At(2), last])])?;
    push_rows(alloc, &mut rows, &SAMPLE)?;
    Ok(Graph::new(alloc, rows)?)
}

fn check_nine(
    rt: &(impl Abort + AllocGlobal),
    graph: &Graph,
    word: &str,
    parents: &[u8],
) -> Result<(), Fail> {
    let packed = text(rt, graph)?;
    assert_eq!(rt; packed.as_str().get(..24), Some("475452310000000900000002"));
    assert_eq!(rt; packed.as_str().get(1064..1080), Some("0000000580000000"));
    assert_eq!(rt; packed.as_str().get(1104..1112), Some("00000006"));
    assert_eq!(rt; packed.as_str().get(1112..), Some(word));
    has(rt, graph, 9, 5, parents)?;
    for (digit, generation, parents) in PARENTS {
        has(rt, graph, digit, generation, parents)?;
    }
    Ok(())
}

#[test]
fn packs_three_parents(rt: HostRuntime) -> Result<(), Fail> {
    let graph = graph_of_nine(rt.alloc(), At(3))?;
    check_nine(&rt, &graph, "80000005", &[6, 7, 6])?;
    let graph = graph_of_nine(rt.alloc(), Fault)?;
    check_nine(&rt, &graph, "fffffffe", &[6, 7, 0])
}

/// The first place that is not as it should be, if there is one.
fn place(packed: Vec<u8>) -> Result<Option<Place>, Fail> {
    match Graph::from_packed(packed) {
        Err(GraphError::Packed(place)) => Ok(Some(place)),
        Err(_) => Err("from_packed answers with a place".into()),
        Ok(_) => Ok(None),
    }
}

/// Bytes in hex, and their first place that is not as it should be.
const PACKED: [(&str, Option<Place>); 9] = [
    ("", Some(Place::Head)),
    ("4754523100000000000000", Some(Place::Head)),
    ("475452330000000000000000", Some(Place::Head)),
    ("475452310000000000000000", None),
    ("47545231000000000000000000", Some(Place::Size)),
    ("475452320000000000000000", Some(Place::Size)),
    ("475452317fffffff00000000", Some(Place::Size)),
    ("47545231000000007fffffff", Some(Place::Size)),
    (TWO_ROWS, None),
];

#[test]
fn refuses_packed_bytes(rt: HostRuntime) -> Result<(), Fail> {
    for (text, want) in PACKED {
        assert_eq!(rt; place(bytes(rt.alloc(), text)?)?, want, "{text}");
    }
    Ok(())
}

/// Replaces bytes from a place on.
fn overwrite(packed: &mut [u8], at: usize, new: &[u8]) -> Result<(), Fail> {
    for (i, byte) in new.iter().enumerate() {
        *packed
            .get_mut(at.checked_add(i).ok_or("a place")?)
            .ok_or("the bytes are there")? = *byte;
    }
    Ok(())
}

fn changed(alloc: Global, text: &str, at: usize, new: &str) -> Result<Option<Place>, Fail> {
    let mut packed = bytes(alloc, text)?;
    overwrite(&mut packed, at, &bytes(alloc, new)?)?;
    place(packed)
}

/// A place, what is written there, and what is wrong then.
type Change<'a> = (usize, &'a str, Place);

fn check_changes(alloc: Global, text: &str, changes: &[Change]) -> Result<(), Fail> {
    for (at, new, want) in changes {
        let found = changed(alloc, text, *at, new)?;
        if found != Some(*want) {
            return Err(Fail::new(format_args!("{new} at {at}: {found:?}, and not {want:?}")));
        }
    }
    Ok(())
}

#[test]
fn refuses_changed_rows(rt: HostRuntime) -> Result<(), Fail> {
    check_changes(
        rt.alloc(),
        TWO_ROWS,
        &[
            (
                12,
                "3333333333333333333333333333333333333333",
                Place::Order(1),
            ),
            (
                72,
                "1111111111111111111111111111111111111111",
                Place::Order(1),
            ),
            (112, "00000002", Place::Parents(1)),
            (112, "7fffffff00000000", Place::Parents(1)),
            (116, "80000000", Place::Parents(1)),
            (8, "00000001", Place::Size),
            (
                12,
                "3333333333333333333333333333333333333333333333333333333333333333333333333333333300000007",
                Place::Parents(0),
            ),
        ],
    )
}

#[test]
fn refuses_changed_lists(rt: HostRuntime) -> Result<(), Fail> {
    let graph = graph_of_nine(rt.alloc(), At(3))?;
    let packed = text(&rt, &graph)?;
    check_changes(
        rt.alloc(),
        packed.as_str(),
        &[
            (536, "80000001", Place::Parents(8)),
            (552, "80000006", Place::Parents(8)),
            (556, "00000005", Place::Parents(8)),
            (556, "80000009", Place::Parents(8)),
            (476, "80000000", Place::Parents(8)),
            (476, "80000001", Place::Parents(7)),
        ],
    )
}

#[test]
fn refuses_lists_of_another_length(rt: HostRuntime) -> Result<(), Fail> {
    let graph = graph_of_nine(rt.alloc(), At(3))?;
    let mut packed = text(&rt, &graph)?;
    packed.push_str("80000000")?;
    check_changes(
        rt.alloc(),
        packed.as_str(),
        &[
            (8, "00000003", Place::Overflow),
            (8, "00000004", Place::Size),
        ],
    )
}

/// A graph of one row of long ids at this time.
fn long_graph(alloc: Global, time: i64) -> Result<Graph, Fail> {
    let mut row = row(alloc, long_id(1), long_id(10), 1, &[])?;
    row.time = time;
    let mut rows = Vec::new(alloc);
    rows.push(row)?;
    Ok(Graph::new(alloc, rows)?)
}

const LONG_ROW: &str = "475452320000000100000000\
    1111111111111111111111111111111111111111111111111111111111111111\
    aaaaaaaaaaaaaaaaaaaaaaaaaaaaaaaaaaaaaaaaaaaaaaaaaaaaaaaaaaaaaaaa\
    7fffffff7fffffff00000001";

fn check_long(rt: &(impl Abort + AllocGlobal), time: i64, end: &str) -> Result<(), Fail> {
    let graph = long_graph(rt.alloc(), time)?;
    let packed = text(rt, &graph)?;
    assert_eq!(rt; packed.as_str().strip_prefix(LONG_ROW), Some(end));
    let commit = graph
        .commit_by_id(&long_id(1))
        .ok_or("the graph has the row")?;
    assert_eq!(rt; commit.committer_timestamp(), time);
    assert_eq!(rt; commit.root_tree_id(), long_id(10));
    Ok(())
}

#[test]
fn packs_long_ids(rt: HostRuntime) -> Result<(), Fail> {
    check_long(&rt, -1, "ffffffffffffffff")?;
    check_long(&rt, 1, "0000000000000001")
}

fn refused(alloc: Global, lines: &[Line]) -> Result<Option<GraphError>, Fail> {
    Ok(Graph::new(alloc, rows_of(alloc, lines)?).err())
}

#[test]
fn refuses_rows(rt: HostRuntime) -> Result<(), Fail> {
    let alloc = rt.alloc();
    assert_eq!(rt; refused(alloc, &[])?, None);
    assert_eq!(rt;
        refused(alloc, &[(1, 1, &[]), (1, 2, &[])])?,
        Some(GraphError::DuplicateId)
    );
    assert_eq!(rt;
        refused(alloc, &[(1, 1, &[At(2)]), (1, 2, &[])])?,
        Some(GraphError::DuplicateId)
    );
    assert_eq!(rt;
        refused(alloc, &[(1, 1, &[]), (2, 2, &[At(1), Fault, At(2)])])?,
        Some(GraphError::PositionOutOfRange)
    );
    Ok(())
}

#[test]
fn packs_no_rows(rt: HostRuntime) -> Result<(), Fail> {
    let graph = graph_of(rt.alloc(), &[])?;
    assert_eq!(rt; text(&rt, &graph)?.as_str(), "475452310000000000000000");
    Ok(())
}

/// Why there is no graph of these rows and of one whose tree has a long id.
fn mixed(
    alloc: Global,
    lines: &[Line],
    id: ObjectId,
    parents: &[ParentPlace],
) -> Result<Option<GraphError>, Fail> {
    let mut rows = rows_of(alloc, lines)?;
    rows.push(row(alloc, id, long_id(10), 1, parents)?)?;
    Ok(Graph::new(alloc, rows).err())
}

#[test]
fn refuses_a_long_tree(rt: HostRuntime) -> Result<(), Fail> {
    let alloc = rt.alloc();
    let one = &[(1, 1, [].as_slice())];
    assert_eq!(rt;
        mixed(alloc, &[], id(1), &[])?,
        Some(GraphError::MixedKinds)
    );
    assert_eq!(rt;
        mixed(alloc, one, id(1), &[At(7)])?,
        Some(GraphError::MixedKinds)
    );
    assert_eq!(rt;
        mixed(alloc, one, long_id(2), &[])?,
        Some(GraphError::MixedKinds)
    );
    Ok(())
}
