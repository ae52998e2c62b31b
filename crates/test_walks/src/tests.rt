//! The walks by their tables, compared with what is wanted; and the calls and examples, each made once.
mod calls;
mod contained;
mod errors;
mod examples;
mod lookups;
mod names;
mod simple;
mod topo;
mod trees;

use std::alloc::Global;
use std::fmt::Display;
use std::test::Fail;
use test_rows::table::Table;

/// Compares what walks tell with what is wanted.
pub fn check<T: Table>(alloc: Global, name: &str, tables: &[T]) -> Result<(), Fail> {
    for (place, table) in tables.iter().enumerate() {
        check_rows(alloc, table, name, place)?;
    }
    Ok(())
}

/// The same of the table of this name and place.
pub fn check_rows<T: Table>(
    alloc: Global,
    table: &T,
    name: &str,
    place: usize,
) -> Result<(), Fail> {
    let (cases, ways) = table.rows();
    for (row, case) in cases.iter().enumerate() {
        for by in ways {
            let mut told = String::new(alloc);
            table.tell(alloc, *by, case, &mut told)?;
            let want = T::want(case);
            if told.as_str() != want {
                return Err(Fail::new(format_args!(
                    "{name} {place}.{row} by {by:?} tells {told}, not {want}"
                )));
            }
        }
    }
    Ok(())
}

/// Compares what a fault prints with what is wanted, or with what it holds.
pub fn check_print<F: Display, W: Display>(alloc: Global, fault: &F, want: &W) -> Result<(), Fail> {
    let printed = format!(in alloc; "{fault}")?;
    let want = format!(in alloc; "{want}")?;
    if printed.as_str() != want.as_str() {
        return Err(Fail::new(format_args!("{printed}, not {want}")));
    }
    Ok(())
}
