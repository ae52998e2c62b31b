//! Rows that can be used without a store.
ghost use Rattle.std.specs.Prelude.{◌≡◌, ◌<◌, length, All, IfOk, MatchBool, MatchOption};
ghost use Rattle.std.specs.List.{AllByRecursion};
ghost use Rattle.gix_commitgraph.specs.Rows.{row_at};
ghost use Rattle.gix_commitgraph.specs.GraphCommit.{rows_of_commit, row_of_commit};
ghost use Rattle.gix_graph_check.specs.Sound.{IsSoundPlace, IsSound, AreSound, IsFirstUnsound};
ghost use Rattle.gix_graph_check.specs.SoundAnswers.{IsSoundAnswer};

use gix_commitgraph::{Commit, GENERATION_NUMBER_INFINITY, Graph, ParentFault, Position};
use gix_hash::ObjectId;

/// Whether a place is the row of a generation below this one.
fn is_sound_place(graph: &Graph, generation: u32, place: Result<Position, ParentFault>) -> bool
    requires { IfOk place (λ position. position.0 < length graph.now) }
    ensures { MatchBool result (IsSoundAnswer graph.now generation place) (¬ IsSoundAnswer graph.now generation place) }
{
    match place {
        Ok(position) => graph.commit_at(position).generation() < generation,
        Err(_) => false,
    }
}

/// Whether each place of the commit is the row of a generation below this one.
fn has_sound_places(graph: &Graph, generation: u32, commit: Commit<'_>) -> bool
    requires { rows_of_commit commit ≡ graph.now }
    ensures { MatchBool result (AllByRecursion (IsSoundPlace graph.now generation) (row_of_commit commit.entry).parents)
        (¬ AllByRecursion (IsSoundPlace graph.now generation) (row_of_commit commit.entry).parents) }
{
    let mut places = commit.iter_parents();
    while let Some(place) = places.next() {
        if !is_sound_place(graph, generation, place) {
            return false;
        }
    }
    true
}

/// Whether the row of this number, which must be below `num_commits`, is sound, as [`first_unsound`] says.
pub fn is_sound(graph: &Graph, number: u32) -> bool
    requires { number < length graph.now }
    ensures { MatchBool result (IsSound graph.now (row_at graph.now number)) (¬ IsSound graph.now (row_at graph.now number)) }
{
    let commit = graph.commit_at(Position(number));
    let generation = commit.generation();
    generation < GENERATION_NUMBER_INFINITY && has_sound_places(graph, generation, commit)
}

/// The id of the first row, in rising order of ids, that isn't sound, and None where all rows are.
///
/// A row is sound where each of its parents is a row of a lesser generation, so that no place is corrupt, and its own generation
/// isn't 4294967295, which says that none is known. No memory is taken, and each place is looked at once.
pub fn first_unsound(graph: &Graph) -> Option<ObjectId>
    ensures { MatchOption result (AreSound graph.now) (λ id. IsFirstUnsound graph.now id) }
{
    for number in 0..graph.num_commits() {
        if !is_sound(graph, number) {
            return Some(graph.commit_at(Position(number)).id());
        }
    }
    None
}
