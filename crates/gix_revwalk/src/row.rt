//! What a commit's row says, as long as the rows of the commit-graph are in use.
ghost use Rattle.std.specs.Prelude.{◌≡◌, ◌≤◌, ◌<◌, true, Some, IfOk, IfSome, IsOk, OnErr, length};
ghost use Rattle.std.specs.Option.{option_map};
ghost use Rattle.gix_commitgraph.specs.GraphCommit.{rows_of_commit, row_of_commit};
ghost use Rattle.gix_commitgraph.specs.Rows.{GraphRow, row_of};
ghost use Rattle.gix_revwalk.specs.Agreeing.{rows_in, rows_of};
ghost use Rattle.gix_revwalk.specs.Reading.{ReadsRow};
ghost use Rattle.gix_revwalk.specs.RowParents.{ids_at};

use super::ParentIds;
use gix_commitgraph::{Commit, Graph, Position};
use gix_hash::ObjectId;
use std::alloc::{AllocError, Global};

/// A place where no row is: there are fewer rows.
pub const NOWHERE: u32 = u32::MAX;

/// Where to look first for the rows of a commit's parents: of the first two of them, since few commits have more. Contracts say nothing
/// of the places: a wrong one costs time alone.
#[derive(Clone, Copy)]
pub struct Near {
    first: u32,
    second: u32,
}

impl Near {
    /// No place is known.
    pub fn nowhere() -> Near {
        Near {
            first: NOWHERE,
            second: NOWHERE,
        }
    }

    /// Sets the place of the parent of this number, from 0.
    fn set(&mut self, parent: usize, position: Position) {
        match parent {
            0 => self.first = position.0,
            1 => self.second = position.0,
            _ => {}
        }
    }

    /// The place of the first parent. What is left are those of the parents after it.
    pub fn next(&mut self) -> u32 {
        let first = self.first;
        *self = Near {
            first: self.second,
            second: NOWHERE,
        };
        first
    }
}

/// The rows again, for a walk to hold.
///
/// # Errors
///
/// `AllocError` when out of memory.
pub fn copy_of(graph: Option<&Graph>) -> Result<Option<Graph>, AllocError>
    ensures { IfOk result (λ copy. rows_of copy ≡ rows_in graph.entry) }
{
    match graph {
        Some(graph) => Ok(Some(graph.copy()?)),
        None => Ok(None),
    }
}

/// The row of an id, and None where the id has none. Where it is at the position `near`, there is no search.
pub fn find_row<'a>(graph: &'a Graph, id: &ObjectId, near: u32) -> Option<Commit<'a>>
    ensures row { option_map row_of_commit result ≡ row_of graph.now id.now }
    ensures rows { IfSome result (λ commit. rows_of_commit commit ≡ graph.now) }
{
    if near < graph.num_commits() {
        let commit = graph.commit_at(Position(near));
        if commit.id() == *id {
            return Some(commit);
        }
    }
    graph.commit_by_id(id)
}

/// The ids at a row's places, and None where one of them is corrupt. At most one place takes no memory.
fn row_parents(
    alloc: Global,
    graph: &Graph,
    commit: Commit<'_>,
    near: &mut Near,
) -> Result<Option<ParentIds>, AllocError>
    requires { rows_of_commit commit ≡ graph.now }
    ensures ok { IfOk result (λ ids. option_map (λ ids. ids.items) ids ≡ ids_at graph.now (row_of_commit commit.entry).parents) }
    ensures succeeds { length (row_of_commit commit.entry).parents ≤ 1 → IsOk result }
{
    let mut parent_ids = ParentIds::new(alloc);
    let mut places = commit.iter_parents();
    while let Some(place) = places.next() {
        let Ok(position) = place else {
            return Ok(None);
        };
        near.set(parent_ids.len(), position);
        parent_ids.push(graph.commit_at(position).id())?;
    }
    Ok(Some(parent_ids))
}

/// What a row says of its commit.
#[derive(Drop)]
pub struct RowRead {
    /// The ids of the parents, in their order.
    pub parent_ids: ParentIds,
    /// Where to look first for the rows of the parents.
    pub near: Near,
    /// The generation, where 4294967295 says that none is known.
    pub generation: u32,
    /// The committer's seconds since 1970-01-01 00:00 UTC.
    pub time: i64,
}

/// What the row of an id says, where there is one and rows are in use. A row with a corrupt place drops the rows for good: they aren't
/// in use from then on, and the answer is None. `near` is where to look first for the row. A row of at most one parent takes no memory.
///
/// # Errors
///
/// `AllocError` when out of memory. The rows are in use if they were.
#[inline(always)]
pub fn read_row(
    alloc: Global,
    graph: Option<&Graph>,
    in_use: &mut bool,
    id: &ObjectId,
    near: u32,
) -> Result<Option<RowRead>, AllocError>
    ensures reads { IfOk result (λ read. ReadsRow (rows_in graph.entry) in_use.old id.now read in_use.new) }
    ensures err { OnErr result (in_use.new ≡ in_use.old) }
    ensures fails { OnErr result ((row : GraphRow) × (row_of (rows_in graph.entry) id.now ≡ Some row) × (1 < length row.parents)) }
{
    if !*in_use {
        return Ok(None);
    }
    match graph {
        Some(graph) => read_row_of(alloc, graph, in_use, id, near),
        None => Ok(None),
    }
}

/// The same of rows in use. It is a call of its own, so that where there are none the test is inlined.
#[inline(never)]
fn read_row_of(
    alloc: Global,
    graph: &Graph,
    in_use: &mut bool,
    id: &ObjectId,
    near: u32,
) -> Result<Option<RowRead>, AllocError>
    requires { in_use.old ≡ true }
    ensures reads { IfOk result (λ read. ReadsRow graph.now in_use.old id.now read in_use.new) }
    ensures err { OnErr result (in_use.new ≡ in_use.old) }
    ensures fails { OnErr result ((row : GraphRow) × (row_of graph.now id.now ≡ Some row) × (1 < length row.parents)) }
{
    let Some(commit) = find_row(graph, id, near) else {
        return Ok(None);
    };
    let generation = commit.generation();
    let time = commit.committer_timestamp();
    let mut near = Near::nowhere();
    let Some(parent_ids) = row_parents(alloc, graph, commit, &mut near)? else {
        *in_use = false;
        return Ok(None);
    };
    Ok(Some(RowRead {
        parent_ids,
        near,
        generation,
        time,
    }))
}
