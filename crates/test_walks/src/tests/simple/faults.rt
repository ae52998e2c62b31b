//! Texts cut at each length, and the faults of a walk.
use gix_parts::object::find::existing_iter;
use gix_parts::object::memory::MemoryStore;
use gix_parts::object::{Kind, decode};
use gix_traverse::commit::Parents;
use gix_traverse::commit::simple::{CommitTimeOrder, Error, Hidden, Sorting};
use std::alloc::Global;
use std::test::Fail;
use test_rows::history::{EMPTY, History, TREE, id, text};
use test_simple_rows::{ALL, Detail, Wish};

/// Commit 1 alone.
const ROOT: History<'static> = History {
    commits: &[(1, &[])],
    ..EMPTY
};

/// All of what 2 reaches.
const FROM_2: Wish<'static> = Wish {
    tips: &[2],
    detail: Detail::All,
    ..ALL
};

/// Stores commit 2, whose text ends after `length` bytes.
fn insert_cut(alloc: Global, store: &mut MemoryStore<'_>, length: usize) -> Result<(), Fail> {
    let whole = text(alloc, TREE, 2, &[id(1)])?;
    let front = whole.as_str().as_bytes().get(..length).ok_or("too long")?;
    Ok(store.insert(id(2), Kind::Commit, front)?)
}

/// What a walk from commit 2 gives where its text ends after `length` bytes.
fn cut(alloc: Global, length: usize, told: &mut String) -> Result<(), Fail> {
    let mut store = ROOT.store(alloc)?;
    insert_cut(alloc, &mut store, length)?;
    Ok(FROM_2.tell(alloc, &store, None, &[], told)?)
}

#[test]
fn a_text_cut_at_each_length(rt: HostRuntime) -> Result<(), Fail> {
    for length in 0..145usize {
        let want = match length {
            0 | 46 => "2()",
            1..46 => "broken-Tree",
            47..53 => "broken-Author",
            53..94 => "broken-Parent",
            95..117 => "broken-Author 1()",
            _ => "2(1,) 1()",
        };
        let mut told = String::new(rt.alloc());
        cut(rt.alloc(), length, &mut told)?;
        assert_eq!(rt; told.as_str(), want, "after {length} bytes");
    }
    Ok(())
}

#[test]
fn faults_become_faults_of_the_walk(rt: HostRuntime) {
    let missing = existing_iter::Error::NotFound { oid: id(6) };
    assert_eq!(rt; Error::from(missing), Error::Find(missing));
    let hidden = Hidden::Find(missing);
    assert_eq!(rt; Error::from(hidden), Error::HiddenGraph(hidden));
    let broken = decode::Error::Parent;
    assert_eq!(rt; Error::from(broken), Error::ObjectDecode(broken));
}

#[test]
fn out_of_memory_is_memory(rt: HostRuntime) {
    let wanting = existing_iter::Error::Memory;
    assert_eq!(rt; Error::from(wanting), Error::Memory);
    assert_eq!(rt; Error::from(Hidden::Find(wanting)), Error::Memory);
}

#[test]
fn defaults(rt: HostRuntime) {
    assert_eq!(rt; Parents::default(), Parents::All);
    assert_eq!(rt; CommitTimeOrder::default(), CommitTimeOrder::NewestFirst);
    assert_eq!(rt; Sorting::default(), Sorting::BreadthFirst);
}
