//! Whether rows say what a store says.
ghost use Rattle.std.specs.Prelude.{◌≡◌, ◌<◌, length, Some, IfOk, IfErr, OnOk, MatchBool, MatchResult};
ghost use Rattle.gix_hash.specs.Id.{is_same};
ghost use Rattle.gix_commitgraph.specs.Packed.{AreGraphRows};
ghost use Rattle.gix_commitgraph.specs.Rows.{row_at};
ghost use Rattle.gix_commitgraph.specs.GraphCommit.{rows_of_commit, row_of_commit};
ghost use Rattle.gix_revwalk.specs.Commits.{commit_at};
ghost use Rattle.gix_revwalk.specs.Agreeing.{IsAgreeing, RowAgrees};
ghost use Rattle.gix_graph_check.specs.StoredCommits.{commit_shown, AnswerAgrees, PlacesAgree, AgreesWith};
ghost use Rattle.gix_graph_check.specs.Disagreeing.{IsUnread, RowDisagrees, Disagrees, of_look_up};

use crate::Disagreement;
use crate::stored::{StoredCommit, read_whole};
use gix_commitgraph::{Commit, GENERATION_NUMBER_INFINITY, Graph, ParentFault, Position};
use gix_hash::ObjectId;
use gix_object::find::{Find, existing_iter};
use std::alloc::Global;

/// Whether two ids are one.
fn is_id(id: ObjectId, other: &ObjectId) -> bool
    ensures { result ≡ is_same id other.now }
{
    id.cmp(other).is_eq()
}

/// Whether a place is the row of this parent, or corrupt, and the parent has a row of a generation below this one.
fn place_agrees(
    graph: &Graph,
    generation: u32,
    place: Result<Position, ParentFault>,
    id: &ObjectId,
) -> bool
    requires rows { AreGraphRows graph.now }
    requires within { IfOk place (λ position. position.0 < length graph.now) }
    ensures { MatchBool result (AnswerAgrees graph.now generation id.now place) (¬ AnswerAgrees graph.now generation id.now place) }
{
    match place {
        Ok(position) => {
            let parent = graph.commit_at(position);
            let is_below = parent.generation() < generation;
            is_below && is_id(parent.id(), id)
        }
        Err(_) => match graph.commit_by_id(id) {
            Some(parent) => parent.generation() < generation,
            None => false,
        },
    }
}

/// Whether the places of the commit are those of these parents.
fn places_agree(graph: &Graph, generation: u32, commit: Commit<'_>, ids: &[ObjectId]) -> bool
    requires rows { AreGraphRows graph.now }
    requires same { rows_of_commit commit ≡ graph.now }
    ensures { MatchBool result (PlacesAgree graph.now generation ids.now (row_of_commit commit.entry).parents)
        (¬ PlacesAgree graph.now generation ids.now (row_of_commit commit.entry).parents) }
{
    let mut places = commit.iter_parents();
    for id in ids {
        let Some(place) = places.next() else {
            return false;
        };
        if !place_agrees(graph, generation, place, id) {
            return false;
        }
    }
    places.next().is_none()
}

/// Whether the row of a commit says what its text says: the tree, the time, and the parents, in their order; a corrupt place agrees
/// with any parent that has a row. Each parent's row has a lesser generation, and the generation isn't 4294967295.
pub fn row_agrees(graph: &Graph, commit: Commit<'_>, stored: &StoredCommit) -> bool
    requires rows { AreGraphRows graph.now }
    requires same { rows_of_commit commit ≡ graph.now }
    ensures { MatchBool result (AgreesWith graph.now (row_of_commit commit.entry) (commit_shown stored.now))
        (¬ AgreesWith graph.now (row_of_commit commit.entry) (commit_shown stored.now)) }
{
    let generation = commit.generation();
    if generation == GENERATION_NUMBER_INFINITY {
        return false;
    }
    if stored.time != commit.committer_timestamp() {
        return false;
    }
    if !is_id(stored.tree, &commit.root_tree_id()) {
        return false;
    }
    places_agree(graph, generation, commit, stored.parent_ids.as_slice())
}

/// What a look-up of the commit of this row that failed says of the row.
fn of_look_up(fault: existing_iter::Error, id: ObjectId) -> Disagreement
    ensures { result ≡ of_look_up fault id }
{
    match fault {
        existing_iter::Error::Store => Disagreement::Store(id),
        existing_iter::Error::Memory => Disagreement::Memory,
        existing_iter::Error::NotFound { .. } | existing_iter::Error::ObjectKind { .. } => {
            Disagreement::Row(id)
        }
    }
}

/// The commit of this id, where the store has one and its text can be read to the committer.
fn read_stored<F: Find>(
    alloc: Global,
    store: &F,
    id: ObjectId,
    text: &mut Vec<u8>,
) -> Result<StoredCommit, Disagreement>
    ensures { MatchResult result (λ stored. commit_at (F.objects store.now) id ≡ Some (commit_shown stored))
        (IsUnread (F.objects store.now) (F.faulty store.now) id) }
{
    let items = match store.find_commit_iter(&id, text) {
        Ok(items) => items,
        Err(fault) => return Err(of_look_up(fault, id)),
    };
    match read_whole(alloc, items) {
        Ok(Some(stored)) => Ok(stored),
        Ok(None) => Err(Disagreement::Row(id)),
        Err(_) => Err(Disagreement::Memory),
    }
}

/// Tests the row of this number.
fn check_row<F: Find>(
    alloc: Global,
    graph: &Graph,
    store: &F,
    number: u32,
    text: &mut Vec<u8>,
) -> Result<(), Disagreement>
    requires rows { AreGraphRows graph.now }
    requires within { number < length graph.now }
    ensures { MatchResult result (λ _. RowAgrees (F.objects store.now) graph.now (row_at graph.now number))
        (RowDisagrees (F.objects store.now) (F.faulty store.now) graph.now number) }
{
    let commit = graph.commit_at(Position(number));
    let id = commit.id();
    let stored = read_stored(alloc, store, id, text)?;
    if row_agrees(graph, commit, &stored) {
        Ok(())
    } else {
        Err(Disagreement::Row(id))
    }
}

/// Tests that each row says what the store says of its commit: the store has a commit of this id that can be read to its
/// committer, with the row's tree, time and number of parents; each place names the row of the parent, or is corrupt where
/// the parent has a row; the parent's generation is the lesser; and no generation is 4294967295. So Ok is what the laws of walks
/// with rows ask for.
///
/// Each commit is looked up once, in rising order of ids, and its text read to the committer. A corrupt place costs a
/// search by id.
///
/// # Errors
///
/// Of the first row, in this order, that isn't known to agree:
/// - `Row` with its id, where it doesn't agree,
/// - `Store` with its id, where the store failed,
/// - `Memory` when out of memory.
pub fn check<F: Find>(alloc: Global, graph: &Graph, store: &F) -> Result<(), Disagreement>
    ensures agrees { OnOk result (IsAgreeing (F.objects store.now) graph.now) }
    ensures disagrees { IfErr result (Disagrees (F.objects store.now) (F.faulty store.now) graph.now) }
{
    let mut text = Vec::new(alloc);
    for number in 0..graph.num_commits() {
        check_row(alloc, graph, store, number, &mut text)?;
    }
    Ok(())
}
