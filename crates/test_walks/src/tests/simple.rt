//! Walks by parent links.
mod faults;
mod graphs;

use crate::tests::check;
use gix_traverse::commit::{Info, ParentIds};
use std::alloc::{AllocError, Global};
use std::test::Fail;
use test_rows::history::{EMPTY, History, id, ids};
use test_simple_rows::{ALL, BY_TIME, Wish, breadth, hiding, times};

#[test]
fn rows(rt: HostRuntime) -> Result<(), Fail> {
    check(rt.alloc(), "breadth", breadth::tables())?;
    check(rt.alloc(), "faults", test_simple_rows::faults::tables())?;
    check(rt.alloc(), "times", times::tables())?;
    check(rt.alloc(), "hiding", hiding::tables())?;
    check(rt.alloc(), "graphs", test_simple_rows::graphs::tables())
}

/// Commit n with these parents, as it is given.
fn info(alloc: Global, n: u8, parents: &[u8]) -> Result<Info, AllocError> {
    Ok(Info {
        id: id(n),
        parent_ids: ParentIds::from_slice(alloc, ids(alloc, parents)?.as_slice())?,
        generation: None,
        commit_time: None,
    })
}

#[test]
fn commits_are_ordered_by_their_ids(rt: HostRuntime) -> Result<(), Fail> {
    assert!(rt; info(rt.alloc(), 6, &[5])? < info(rt.alloc(), 8, &[6, 7])?);
    Ok(())
}

/// What a walk gives, newest first, where no parent of 8 is stored.
fn without_parents(alloc: Global) -> Result<String, Fail> {
    let history = History {
        commits: &[(8, &[6, 7])],
        ..EMPTY
    };
    let wish = Wish {
        sortings: BY_TIME,
        ..ALL
    };
    let mut told = String::new(alloc);
    wish.tell(alloc, &history.store(alloc)?, None, &[], &mut told)?;
    Ok(told)
}

/// Which of them comes first is open.
#[test]
fn parents_that_are_not_stored(rt: HostRuntime) -> Result<(), Fail> {
    let told = without_parents(rt.alloc())?;
    let told = told.as_str();
    assert!(rt; told == "8 missing-6 missing-7" || told == "8 missing-7 missing-6");
    Ok(())
}
