//! Walks by rows with a fault in each place, and by rows that don't agree with the store.
use crate::tests::check_rows;
use gix_parts::graph::Graph;
use gix_parts::object::find::Find;
use gix_traverse::commit::Simple;
use std::alloc::Global;
use std::test::Fail;
use test_rows::history::{BY_ROWS, By, FULL, PLAIN, Rows, id};
use test_rows::table::Table as _;
use test_rows::words::Stop;
use test_simple_rows::graphs::{PLACES, WRONG};
use test_simple_rows::{AS_MET, BY_TIME, Detail, OF_SAMPLE, Table, tell_walk};

/// Rows don't change what is given, whatever place is corrupt.
fn check_place(alloc: Global, place: (u8, u8)) -> Result<(), Fail> {
    let table = Table {
        rows: Rows {
            fault: Some(place),
            ..FULL
        },
        by: BY_ROWS,
        cases: &[
            (&[8], AS_MET, &[], "8 6 7 5 4 3 2 1"),
            (&[8], BY_TIME, &[], "8 7 6 5 4 3 2 1"),
            (&[8], AS_MET, &[7], "8 6 5 3"),
            (&[8], BY_TIME, &[7], "8 6 5 3"),
        ],
        ..OF_SAMPLE
    };
    check_rows(alloc, &table, "corrupt", usize::from(place.0))
}

#[test]
fn a_fault_in_each_place(rt: HostRuntime) -> Result<(), Fail> {
    for place in PLACES {
        check_place(rt.alloc(), place)?;
    }
    Ok(())
}

/// Whether these are at most eight commits, each of one digit, and no fault.
fn are_at_most_eight(told: &str) -> bool {
    told.len() <= 15
        && told
            .as_bytes()
            .iter()
            .all(|b: &u8| *b == b' ' || b.is_ascii_digit())
}

/// By these rows walks from 8 end behind at most eight commits, and meet no fault.
fn check_end(alloc: Global, rows: &Rows<'_>, by: By) -> Result<(), Fail> {
    let table = Table {
        rows: *rows,
        ..OF_SAMPLE
    };
    for sortings in [AS_MET, BY_TIME] {
        for hidden in [[].as_slice(), &[7], &[8]] {
            let mut told = String::new(alloc);
            table.tell(alloc, by, &(&[8], sortings, hidden, ""), &mut told)?;
            if !are_at_most_eight(told.as_str()) {
                return Err(format!(in alloc; "without {hidden:?}: {told}")?.into());
            }
        }
    }
    Ok(())
}

#[test]
fn walks_by_wrong_rows_end(rt: HostRuntime) -> Result<(), Fail> {
    for rows in &WRONG {
        check_end(rt.alloc(), rows, By::Rows)?;
        check_end(rt.alloc(), rows, By::Packed)?;
    }
    Ok(())
}

/// What a walk from 1 gives whose graph is taken away again.
fn without_graph<F: Find + Drop>(
    alloc: Global,
    find: F,
    graph: Graph,
    told: &mut String,
) -> Result<(), Stop> {
    let walk = Simple::new(alloc, [id(1)], find)?
        .commit_graph(Some(graph))
        .commit_graph(None);
    tell_walk(walk, Detail::Generation, told)
}

#[test]
fn the_last_graph_counts(rt: HostRuntime) -> Result<(), Fail> {
    let graph = FULL.graph(rt.alloc())?;
    let store = PLAIN.store(rt.alloc())?;
    let mut told = String::new(rt.alloc());
    without_graph(rt.alloc(), &store, graph, &mut told)?;
    assert_eq!(rt; told.as_str(), "1");
    Ok(())
}
