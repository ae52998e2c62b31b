//! Walks by the tables of `test_rows`, and writes a line for each walk and each call. A line that meets a refused request for memory
//! has the answers so far and `out of memory`. Writing itself asks for none.
#![tactic(auto)]

#[cfg(test)]
mod tests;

use std::io;
use test_calls::calls;
use test_rows::history::By;
use test_rows::table::Table;
use test_rows::words::Stop;

fn main(rt: HostRuntime) -> io::Result<()> {
    write_all(&rt)
}

fn write_all(rt: &HostRuntime) -> io::Result<()> {
    write_all_simple(rt)?;
    write_walks(rt, "contained", "ids", test_contained_rows::tables())?;
    write_walks(rt, "Topo", "orders", test_topo_rows::orders::tables())?;
    write_walks(rt, "Topo", "counts", test_topo_rows::counts::tables())?;
    write_trees(rt, "calls", test_tree_rows::calls::tables())?;
    write_trees(rt, "recorded", test_tree_rows::recorded::tables())?;
    write_calls(rt, &calls::CALLS)
}

fn write_all_simple(rt: &HostRuntime) -> io::Result<()> {
    write_walks(rt, "Simple", "breadth", test_simple_rows::breadth::tables())?;
    write_walks(rt, "Simple", "faults", test_simple_rows::faults::tables())?;
    write_walks(rt, "Simple", "times", test_simple_rows::times::tables())?;
    write_walks(rt, "Simple", "hiding", test_simple_rows::hiding::tables())?;
    write_walks(rt, "Simple", "graphs", test_simple_rows::graphs::tables())
}

/// Ends a line: the answers, each line of them behind `|`, and why it ends too early.
fn end_line(rt: &HostRuntime, told: &str, end: Result<(), Stop>) -> io::Result<()> {
    let mut parts = told.split('\n');
    if let Some(first) = parts.next() {
        print!(rt; " {first}")?;
    }
    for part in parts {
        print!(rt; " | {part}")?;
    }
    match end {
        Ok(()) => println!(rt; ""),
        Err(stop) => println!(rt; " {stop}"),
    }
}

fn write_walks<T: Table>(
    rt: &HostRuntime,
    walks: &str,
    name: &str,
    tables: &[T],
) -> io::Result<()> {
    for (place, table) in tables.iter().enumerate() {
        let (cases, ways) = table.rows();
        for (case, row) in cases.iter().enumerate() {
            for by in ways {
                let mut told = String::new(rt.alloc());
                let end = table.tell(rt.alloc(), *by, row, &mut told);
                print!(rt; "{walks} {name} {place}.{case} {by:?}:")?;
                end_line(rt, told.as_str(), end)?;
            }
        }
    }
    Ok(())
}

fn write_trees(
    rt: &HostRuntime,
    name: &str,
    tables: &[test_tree_rows::Table<'_>],
) -> io::Result<()> {
    for (place, table) in tables.iter().enumerate() {
        for (case, row) in table.cases.iter().enumerate() {
            let mut told = String::new(rt.alloc());
            let end = table.tell(rt.alloc(), By::Store, row, &mut told);
            print!(rt; "trees {name} {place}.{case}:")?;
            end_line(rt, told.as_str(), end)?;
        }
    }
    Ok(())
}

fn write_calls(rt: &HostRuntime, calls: &[(calls::Call, &str)]) -> io::Result<()> {
    for (call, _) in calls {
        let mut told = String::new(rt.alloc());
        let end = call.tell(rt.alloc(), &mut told);
        print!(rt; "call {call:?}:")?;
        end_line(rt, told.as_str(), end)?;
    }
    Ok(())
}
