//! Each call that asks for memory, and builders that are given their choices in parts.
use gix_parts::object::find::Find;
use gix_traverse::commit::Parents;
use gix_traverse::commit::topo::{Builder, Sorting};
use std::alloc::Global;
use std::test::Fail;
use test_calls::calls::{CALLS, Call};
use test_rows::history::{PLAIN, id};
use test_rows::words::Stop;
use test_topo_rows::{Telling, tell_walk};

fn check(alloc: Global, calls: &[(Call, &str)]) -> Result<(), Fail> {
    for (call, want) in calls {
        let mut told = String::new(alloc);
        call.tell(alloc, &mut told)?;
        if told.as_str() != *want {
            return Err(Fail::new(format_args!("{call:?} tells {told}, not {want}")));
        }
    }
    Ok(())
}

#[test]
fn answers(rt: HostRuntime) -> Result<(), Fail> {
    check(rt.alloc(), &CALLS)
}

/// What a walk tells whose tips and ends were given in two parts.
fn added<F: Find + Drop>(alloc: Global, find: F, told: &mut String) -> Result<(), Stop> {
    let walk = Builder::from_iters(alloc, find, [id(6)], Some([id(3)]))?
        .with_tips([id(7)])?
        .with_ends([id(2)])?
        .build()?;
    tell_walk(walk, Telling::Short, told)
}

/// What a walk gives from 8 whose builder was given other choices before.
fn replaced<F: Find + Drop>(alloc: Global, find: F, told: &mut String) -> Result<(), Stop> {
    let walk = Builder::from_iters(alloc, find, [id(8)], None::<[_; 1]>)?
        .parents(Parents::First)
        .sorting(Sorting::DateOrder)
        .parents(Parents::All)
        .sorting(Sorting::TopoOrder)
        .build()?;
    tell_walk(walk, Telling::Short, told)
}

#[test]
fn builders(rt: HostRuntime) -> Result<(), Fail> {
    let store = PLAIN.store(rt.alloc())?;
    let mut told = String::new(rt.alloc());
    added(rt.alloc(), &store, &mut told)?;
    told.push(';')?;
    replaced(rt.alloc(), &store, &mut told)?;
    assert_eq!(rt; told.as_str(), "7 6 5 4; 8 7 4 2 6 5 3 1");
    Ok(())
}
