//! Walks of trees.
use crate::tests::check;
use gix_parts::hash::ObjectId;
use gix_parts::object::find::{Find, existing_iter};
use gix_parts::object::memory::MemoryStore;
use gix_parts::object::{Kind, decode};
use gix_traverse::tree::Recorder;
use gix_traverse::tree::breadthfirst::Error;
use gix_traverse::tree::depthfirst::{State, depthfirst};
use gix_traverse::tree::recorder::Location;
use std::alloc::{AllocError, Global};
use std::test::Fail;
use test_rows::history::{id, long_id};
use test_tree_rows::{Order, SAMPLE, calls, recorded, store, walk, write_end, write_paths};

#[test]
fn rows(rt: HostRuntime) -> Result<(), Fail> {
    check(rt.alloc(), "calls", calls::tables())?;
    check(rt.alloc(), "recorded", recorded::tables())
}

#[test]
fn faults_become_faults_of_the_walk(rt: HostRuntime) -> Result<(), Fail> {
    let missing = existing_iter::Error::NotFound { oid: id(6) };
    assert_eq!(rt; Error::from(missing), Error::Find(missing));
    let broken = decode::Error::EntryId;
    assert_eq!(rt; Error::from(broken), Error::ObjectDecode(broken));
    assert_eq!(rt; Error::from(existing_iter::Error::Memory), Error::Memory);
    assert_eq!(rt; Error::from(AllocError), Error::Memory);
    Ok(())
}

/// What a recorder tells behind a walk of the sample.
fn told(alloc: Global, order: Order, recorder: &mut Recorder) -> Result<String, AllocError> {
    let store = store(alloc, &SAMPLE)?;
    let answer = walk(alloc, order, &store, id(10), recorder);
    let mut told = String::new(alloc);
    write_paths(&mut told, &recorder.records)?;
    told.push(' ')?;
    write_end(&mut told, answer)?;
    Ok(told)
}

/// The current path behind a walk in depth that tracks names alone, and a copy of it.
fn path(alloc: Global) -> Result<String, AllocError> {
    let mut recorder = Recorder::new(alloc).track_location(Some(Location::FileName));
    told(alloc, Order::Depth, &mut recorder)?;
    let copy = recorder.path_clone()?;
    format!(in alloc; "{} {copy}", recorder.path())
}

#[test]
fn the_current_path(rt: HostRuntime) -> Result<(), Fail> {
    let path = path(rt.alloc())?;
    assert_eq!(rt; path.as_str(), "e e");
    Ok(())
}

#[test]
fn a_recorder_used_again(rt: HostRuntime) -> Result<(), Fail> {
    let mut recorder = Recorder::new(rt.alloc());
    let first = told(rt.alloc(), Order::Levels, &mut recorder)?;
    let second = told(rt.alloc(), Order::Levels, &mut recorder)?;
    assert_eq!(rt; first.as_str(), " a d e d/x done");
    assert_eq!(rt; second.as_str(), " a d e d/x d/a d/d d/e d/d/x done");
    Ok(())
}

/// The sample, and the tree of a 32-byte id that holds a file `x`, cut to this many bytes.
fn both_kinds(alloc: Global, len: usize) -> Result<MemoryStore<'static>, AllocError> {
    let mut store = store(alloc, &SAMPLE)?;
    let mut bytes = Vec::new(alloc);
    bytes.extend_from_slice(b"100644 x\0")?;
    bytes.extend_from_slice(long_id(2).as_bytes())?;
    bytes.truncate(len);
    store.insert(long_id(12), Kind::Tree, &bytes)?;
    Ok(store)
}

/// What is written of the trees of these ids, in depth with one state, and the id of the last entry.
fn written_of<F: Find + Drop>(
    alloc: Global,
    store: &F,
    roots: &[ObjectId],
) -> Result<(String, Option<ObjectId>), AllocError> {
    let mut recorder = Recorder::new(alloc);
    let mut state = State::new(alloc);
    let mut ends = String::new(alloc);
    for root in roots {
        ends.push(' ')?;
        write_end(
            &mut ends,
            depthfirst(alloc, *root, &mut state, store, &mut recorder),
        )?;
    }
    let mut told = String::new(alloc);
    write_paths(&mut told, &recorder.records)?;
    told.push_str(ends.as_str())?;
    Ok((told, recorder.records.last().map(|entry| entry.oid)))
}

#[test]
fn ids_of_both_kinds(rt: HostRuntime) -> Result<(), Fail> {
    let store = both_kinds(rt.alloc(), 41)?;
    let (told, last) = written_of(rt.alloc(), &store, &[id(10), long_id(12)])?;
    assert_eq!(rt; told.as_str(), " a d d/x e x done done");
    assert_eq!(rt; last, Some(long_id(2)));
    Ok(())
}

#[test]
fn a_long_id_cut(rt: HostRuntime) -> Result<(), Fail> {
    let store = both_kinds(rt.alloc(), 40)?;
    let (told, _) = written_of(rt.alloc(), &store, &[long_id(12)])?;
    assert_eq!(rt; told.as_str(), " broken-EntryId");
    Ok(())
}

/// A tree that has the tree `d` of the sample so many times, under names of so many bytes.
fn large(alloc: Global, times: usize, len: usize) -> Result<MemoryStore<'static>, AllocError> {
    let mut store = store(alloc, &SAMPLE)?;
    let mut bytes = Vec::new(alloc);
    for _ in 0..times {
        bytes.extend_from_slice(b"40000 ")?;
        for _ in 0..len {
            bytes.push(b'd')?;
        }
        bytes.push(0)?;
        bytes.extend_from_slice(id(13).as_bytes())?;
    }
    store.insert(id(10), Kind::Tree, &bytes)?;
    Ok(store)
}

/// How many paths a walk of such a tree records, how many bytes the last of them has, and how the walk ends.
fn recorded_of<F: Find + Drop>(
    alloc: Global,
    order: Order,
    store: &F,
) -> Result<String, AllocError> {
    let mut recorder = Recorder::new(alloc);
    let answer = walk(alloc, order, store, id(10), &mut recorder);
    let len = match recorder.records.last() {
        Some(entry) => entry.filepath.len(),
        None => 0,
    };
    let mut told = format!(in alloc; "{} {len} ", recorder.records.len())?;
    write_end(&mut told, answer)?;
    Ok(told)
}

/// Longer names and more entries than any bound that a walk could have by mistake.
#[test]
fn large_trees(rt: HostRuntime) -> Result<(), Fail> {
    for (times, len, want) in [(1, 70_000, "2 70002 done"), (70_000, 1, "140000 3 done")] {
        let store = large(rt.alloc(), times, len)?;
        for order in [Order::Levels, Order::Depth] {
            let told = recorded_of(rt.alloc(), order, &store)?;
            assert_eq!(rt; told.as_str(), want);
        }
    }
    Ok(())
}
