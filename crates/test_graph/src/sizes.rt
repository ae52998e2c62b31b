//! More rows than any bound that a call could have by mistake: a line of commits, each with the one before it as its parent.
use gix_commitgraph::{Graph, ParentPlace, ParentPlaces, Row};
use gix_graph_check::{check, first_unsound, heads};
use gix_graph_store::check_stored;
use gix_hash::{Keys, ObjectId};
use gix_object::Kind;
use gix_object::memory::MemoryStore;
use std::alloc::{AllocError, Global};
use std::fmt::Write;
use std::test::Fail;

const MANY: u32 = 1_000_001;

const LAST: u32 = 1_000_000;

/// The id that begins with this number. Ids rise with their numbers.
fn id(n: u32) -> ObjectId {
    let mut bytes = [0; 20];
    let [a, b, c, d] = n.to_be_bytes();
    bytes[0] = a;
    bytes[1] = b;
    bytes[2] = c;
    bytes[3] = d;
    ObjectId::Sha1(bytes)
}

fn row(alloc: Global, n: u32) -> Result<Row, AllocError> {
    let mut parents = ParentPlaces::new(alloc);
    if let Some(parent) = n.checked_sub(1) {
        parents.push(ParentPlace::At(parent))?;
    }
    Ok(Row {
        id: id(n),
        tree: id(0),
        parents,
        generation: n.saturating_add(1),
        time: i64::from(n),
    })
}

fn rows(alloc: Global) -> Result<Vec<Row>, AllocError> {
    let mut rows = Vec::new(alloc);
    for n in 0..MANY {
        rows.push(row(alloc, n)?)?;
    }
    Ok(rows)
}

fn graph(alloc: Global) -> Result<Graph, Fail> {
    Ok(Graph::new(alloc, rows(alloc)?)?)
}

/// A graph that was read from the bytes of another.
fn packed(alloc: Global) -> Result<Graph, Fail> {
    let graph = graph(alloc)?;
    let bytes = Vec::from_slice(alloc, graph.packed())?;
    Ok(Graph::from_packed(bytes)?)
}

#[test]
fn rows_are_packed_and_read(rt: HostRuntime) -> Result<(), Fail> {
    let graph = packed(rt.alloc())?;
    assert_eq!(rt; graph.num_commits(), MANY);
    assert!(rt; graph.commit_by_id(&id(LAST)).is_some());
    Ok(())
}

#[test]
fn rows_are_sound(rt: HostRuntime) -> Result<(), Fail> {
    let graph = graph(rt.alloc())?;
    assert_eq!(rt; first_unsound(&graph), None);
    let heads = heads(rt.alloc(), &graph)?;
    assert_eq!(rt; heads.as_slice(), [id(LAST)].as_slice());
    Ok(())
}

fn text(alloc: Global, n: u32) -> Result<String, AllocError> {
    let mut text = format!(in alloc; "tree {}\n", id(0))?;
    if let Some(parent) = n.checked_sub(1) {
        writeln!(text, "parent {}", id(parent))?;
    }
    write!(text, "author <> 0 +0000\ncommitter <> {n} +0000\n\n")?;
    Ok(text)
}

/// The commits of the rows.
fn store(alloc: Global) -> Result<MemoryStore<'static>, AllocError> {
    let mut store = MemoryStore::new(alloc, Keys::KNOWN);
    for n in 0..MANY {
        let text = text(alloc, n)?;
        store.insert(id(n), Kind::Commit, text.as_str().as_bytes())?;
    }
    Ok(store)
}

#[test]
fn rows_agree_with_their_commits(rt: HostRuntime) -> Result<(), Fail> {
    let graph = graph(rt.alloc())?;
    let store = store(rt.alloc())?;
    assert_eq!(rt; check(rt.alloc(), &graph, &store).err(), None);
    assert_eq!(rt; check_stored(rt.alloc(), &graph, &store).err(), None);
    Ok(())
}
