//! Topological walks.
mod counts;

use crate::tests::{check, check_rows};
use gix_parts::object::find::existing_iter;
use gix_traverse::commit::topo::{Error, Sorting};
use std::alloc::{AllocError, Global};
use std::test::Fail;
use test_rows::history::PLAIN;
use test_topo_rows::{OF_SAMPLE, Table, orders};

#[test]
fn rows(rt: HostRuntime) -> Result<(), Fail> {
    check(rt.alloc(), "orders", orders::tables())?;
    check(rt.alloc(), "counts", test_topo_rows::counts::tables())
}

#[test]
fn out_of_memory_is_memory(rt: HostRuntime) {
    assert_eq!(rt; Error::from(existing_iter::Error::Memory), Error::Memory);
    assert_eq!(rt; Error::from(AllocError), Error::Memory);
    assert_eq!(rt; Sorting::default(), Sorting::DateOrder);
}

fn check_failing(alloc: Global, n: u8) -> Result<(), Fail> {
    let table = Table {
        history: PLAIN,
        fails: Some(n),
        cases: &[(&[8], &[], "no walk: store")],
        ..OF_SAMPLE
    };
    check_rows(alloc, &table, "failing", usize::from(n))
}

#[test]
fn a_store_that_fails(rt: HostRuntime) -> Result<(), Fail> {
    for n in 1..9u8 {
        check_failing(rt.alloc(), n)?;
    }
    Ok(())
}
