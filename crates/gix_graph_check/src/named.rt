//! The rows that no row names as a parent.
ghost use Rattle.std.specs.Prelude.{◌≡◌, ◌<◌, length, IfOk};
ghost use Rattle.gix_commitgraph.specs.GraphCommit.{rows_of_commit, row_of_commit};
ghost use Rattle.gix_graph_check.specs.Heads.{names, is_named, heads_of};
ghost use Rattle.gix_graph_check.specs.Marks.{names_answer, Marks, IsMarked};

use gix_commitgraph::{Commit, Graph, ParentFault, Position};
use gix_hash::ObjectId;
use std::alloc::{AllocError, Global};

/// Marks the row that a place names.
fn mark(place: Result<Position, ParentFault>, named: &mut [bool])
    requires { IfOk place (λ position. position.0 < length named.old) }
    ensures { Marks (λ n. names_answer n place) named.old named.new }
{
    if let Ok(position) = place {
        named[position.0 as usize] = true;
    }
}

/// Marks the rows that the commit names as its parents.
fn mark_parents(commit: Commit<'_>, named: &mut [bool])
    requires { length named.old ≡ length (rows_of_commit commit) }
    ensures { Marks (λ n. names n (row_of_commit commit.entry)) named.old named.new }
{
    let mut places = commit.iter_parents();
    while let Some(place) = places.next() {
        mark(place, named);
    }
}

/// Marks the rows that a row names as a parent.
fn mark_all(graph: &Graph, named: &mut [bool])
    requires { length named.old ≡ length graph.now }
    ensures { Marks (is_named graph.now) named.old named.new }
{
    for number in 0..graph.num_commits() {
        mark_parents(graph.commit_at(Position(number)), named);
    }
}

/// The ids of the rows without a mark.
fn unmarked(alloc: Global, graph: &Graph, named: &[bool]) -> Result<Vec<ObjectId>, AllocError>
    requires { IsMarked graph.now named.now }
    ensures { IfOk result (λ ids. ids.items ≡ heads_of graph.now) }
{
    let mut ids = Vec::new(alloc);
    for number in 0..graph.num_commits() {
        if !named[number as usize] {
            ids.push(graph.commit_at(Position(number)).id())?;
        }
    }
    Ok(ids)
}

/// The ids of the rows that no row names as a parent, in rising order. A corrupt place names no row.
///
/// Each place is looked at once, and the memory is a byte for each row and what the ids need.
///
/// # Errors
///
/// `AllocError` when out of memory.
pub fn heads(alloc: Global, graph: &Graph) -> Result<Vec<ObjectId>, AllocError>
    ensures { IfOk result (λ ids. ids.items ≡ heads_of graph.now) }
{
    let mut named = vec![in alloc; false; graph.num_commits() as usize]?;
    mark_all(graph, named.as_mut_slice());
    unmarked(alloc, graph, named.as_slice())
}
