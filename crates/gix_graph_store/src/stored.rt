//! Whether what is stored at the ids of rows is what the rows say.
ghost use Rattle.std.specs.Prelude.{◌≡◌, ◌≢◌, ◌<◌, IsTrue, true, is_some, length, Some, IfOk, IfErr, OnOk, MatchBool, MatchResult};
ghost use Rattle.std.specs.FinMap.{get};
ghost use Rattle.gix_hash.specs.Id.{is_same, is_among};
ghost use Rattle.gix_commitgraph.specs.Packed.{AreGraphRows};
ghost use Rattle.gix_commitgraph.specs.Rows.{row_at};
ghost use Rattle.gix_commitgraph.specs.GraphCommit.{rows_of_commit, row_of_commit};
ghost use Rattle.gix_revwalk.specs.RowParents.{ids_at};
ghost use Rattle.gix_graph_check.specs.StoredCommits.{commit_shown};
ghost use Rattle.gix_graph_store.specs.Laws.{StoredAgree};
ghost use Rattle.gix_graph_store.specs.Saying.{Says, IsSaid};
ghost use Rattle.gix_graph_store.specs.StoredRows.{IsStoredSo, IsStoredAt, IsNotStoredSo, StoredDisagrees, of_look_up};

use gix_commitgraph::{Commit, Graph, Position};
use gix_graph_check::{Disagreement, StoredCommit, read_whole};
use gix_hash::ObjectId;
use gix_object::Kind;
use gix_object::commit::CommitRefIter;
use gix_object::find::{Error, Find};
use std::alloc::{AllocError, Global};

/// Whether two ids are one.
fn is_id(id: ObjectId, other: &ObjectId) -> bool
    ensures { result ≡ is_same id other.now }
{
    id.cmp(other).is_eq()
}

/// Whether the places of the commit are rows of these ids, in their order.
fn are_parents(graph: &Graph, commit: Commit<'_>, ids: &[ObjectId]) -> bool
    requires { rows_of_commit commit ≡ graph.now }
    ensures { MatchBool result (ids_at graph.now (row_of_commit commit.entry).parents ≡ Some ids.now)
        (ids_at graph.now (row_of_commit commit.entry).parents ≢ Some ids.now) }
{
    let mut places = commit.iter_parents();
    for id in ids {
        let Some(place) = places.next() else {
            return false;
        };
        let Ok(position) = place else {
            return false;
        };
        if !is_id(graph.commit_at(position).id(), id) {
            return false;
        }
    }
    places.next().is_none()
}

/// Whether the row of the commit says what its text says.
fn says(graph: &Graph, commit: Commit<'_>, stored: &StoredCommit) -> bool
    requires { rows_of_commit commit ≡ graph.now }
    ensures { MatchBool result (Says graph.now (row_of_commit commit.entry) (commit_shown stored.now))
        (¬ Says graph.now (row_of_commit commit.entry) (commit_shown stored.now)) }
{
    if stored.time != commit.committer_timestamp() {
        return false;
    }
    if !is_id(stored.tree, &commit.root_tree_id()) {
        return false;
    }
    are_parents(graph, commit, stored.parent_ids.as_slice())
}

/// Whether an object of the commit's id is the commit that the row says.
fn is_said(
    alloc: Global,
    graph: &Graph,
    commit: Commit<'_>,
    id: ObjectId,
    kind: Kind,
    text: &[u8],
) -> Result<bool, AllocError>
    requires { rows_of_commit commit ≡ graph.now }
    ensures { IfOk result (λ said. MatchBool said (IsSaid graph.now (row_of_commit commit.entry) id kind text.now)
        (¬ IsSaid graph.now (row_of_commit commit.entry) id kind text.now)) }
{
    match kind {
        Kind::Commit => {}
        Kind::Tree | Kind::Blob | Kind::Tag => return Ok(false),
    }
    match read_whole(alloc, CommitRefIter::from_bytes(text, id.kind()))? {
        Some(stored) => Ok(says(graph, commit, &stored)),
        None => Ok(false),
    }
}

/// What a look-up at the id of this row that failed says of the row.
fn of_look_up(fault: Error, id: ObjectId) -> Disagreement
    ensures { result ≡ of_look_up fault id }
{
    match fault {
        Error::Store => Disagreement::Store(id),
        Error::Memory => Disagreement::Memory,
    }
}

/// Tests what is stored at the id of the row of this number.
fn check_row<F: Find>(
    alloc: Global,
    graph: &Graph,
    store: &F,
    number: u32,
    text: &mut Vec<u8>,
) -> Result<(), Disagreement>
    requires { number < length graph.now }
    ensures { MatchResult result (λ _. IsStoredSo graph.now (F.objects store.now) (row_at graph.now number))
        (IsNotStoredSo (F.objects store.now) (F.faulty store.now) graph.now (row_at graph.now number)) }
{
    let commit = graph.commit_at(Position(number));
    check_commit(alloc, graph, commit, store, text)
}

/// Tests what is stored at the id of a commit with a row.
fn check_commit<F: Find>(
    alloc: Global,
    graph: &Graph,
    commit: Commit<'_>,
    store: &F,
    text: &mut Vec<u8>,
) -> Result<(), Disagreement>
    requires { rows_of_commit commit ≡ graph.now }
    ensures { MatchResult result (λ _. IsStoredSo graph.now (F.objects store.now) (row_of_commit commit.entry))
        (IsNotStoredSo (F.objects store.now) (F.faulty store.now) graph.now (row_of_commit commit.entry)) }
{
    let id = commit.id();
    let kind = match store.find_into(&id, text) {
        Ok(Some(kind)) => kind,
        Ok(None) => return Ok(()),
        Err(fault) => return Err(of_look_up(fault, id)),
    };
    if is_said(alloc, graph, commit, id, kind, text.as_slice())? {
        Ok(())
    } else {
        Err(Disagreement::Row(id))
    }
}

/// Tests that each object that is stored at the id of a row is the commit that the row says: its bytes can be read to the committer,
/// and have the row's tree, the ids at the row's places and the row's seconds. So Ok is what `told_rows_agree` of [`laws`](crate::laws)
/// asks for.
///
/// Each id is looked up once, in rising order. Where nothing is stored, nothing is read.
///
/// # Errors
///
/// Of the first row, in this order, of which this isn't known:
/// - `Row` with its id, where another object is stored there, or the row has a corrupt place and so says no commit,
/// - `Store` with its id, where the store failed,
/// - `Memory` when out of memory.
pub fn check_stored<F: Find>(alloc: Global, graph: &Graph, store: &F) -> Result<(), Disagreement>
    ensures agrees { OnOk result (StoredAgree graph.now (F.objects store.now)) }
    ensures disagrees { IfErr result (StoredDisagrees (F.objects store.now) (F.faulty store.now) graph.now) }
{
    let mut text = Vec::new(alloc);
    for number in 0..graph.num_commits() {
        check_row(alloc, graph, store, number, &mut text)?;
    }
    Ok(())
}

/// Whether it is known that each object of a store that is at the id of a row is the commit that the row says, from the ids of all objects
/// of the store. It isn't known where the store fails or memory runs out.
///
/// Each id is looked up once, so of a small store this takes less than [`check_stored`], which goes through all rows and says which is the
/// first that doesn't agree.
pub fn agree_at<F: Find>(alloc: Global, graph: &Graph, store: &F, ids: &[ObjectId]) -> bool
    // Each graph has such rows, as `num_commits` says.
    requires rows { AreGraphRows graph.now }
    requires all { (i : ObjectId) → is_some (get (F.objects store.now) i) ≡ true → is_among i ids.now ≡ true }
    ensures { IsTrue result → StoredAgree graph.now (F.objects store.now) }
{
    let mut text = Vec::new(alloc);
    for id in ids {
        if !agrees_at(alloc, graph, store, id, &mut text) {
            return false;
        }
    }
    true
}

/// The same of the object of one id.
fn agrees_at<F: Find>(
    alloc: Global,
    graph: &Graph,
    store: &F,
    id: &ObjectId,
    text: &mut Vec<u8>,
) -> bool
    ensures { IsTrue result → IsStoredAt graph.now (F.objects store.now) id.now }
{
    match graph.commit_by_id(id) {
        Some(commit) => check_commit(alloc, graph, commit, store, text).is_ok(),
        None => true,
    }
}
