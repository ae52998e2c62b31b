//! Whether the row of a commit says what the commit says.
ghost use Rattle.std.specs.Prelude.{◌≡◌, ◌≢◌, ◌<◌, ◌^◌, ◌-◌, length, IfOk, OnOk};
ghost use Rattle.std.specs.Option.{option_map};
ghost use Rattle.gix_hash.specs.Id.{is_same};
ghost use Rattle.gix_commitgraph.specs.Packed.{AreGraphRows};
ghost use Rattle.gix_commitgraph.specs.Rows.{row_at};
ghost use Rattle.gix_commitgraph.specs.GraphCommit.{rows_of_commit, row_of_commit};
ghost use Rattle.gix_revwalk.specs.Commits.{commit_of_kind};
ghost use Rattle.gix_graph_check.specs.Sound.{IsSound};
ghost use Rattle.gix_graph_check.specs.StoredCommits.{commit_shown};
ghost use Rattle.gix_graph_verify.specs.Differences.{IsBacked, IsSaid, IsAnswer, Differs};
ghost use Rattle.gix_graph_verify.specs.Reporting.{Tells, AllRowsTold, IsOfRow};

use crate::difference::{Difference, Fault, add};
use crate::objects::{Found, Objects};
use gix_commitgraph::{Commit, Graph, Position};
use gix_graph_check::{StoredCommit, is_sound, read_whole, row_agrees};
use gix_hash::ObjectId;
use gix_object::Kind;
use gix_object::commit::CommitRefIter;
use std::alloc::{AllocError, Global};

/// The commit that the bytes of an object say, where it is one that can be read to its committer.
fn read_commit(
    alloc: Global,
    id: ObjectId,
    kind: Kind,
    bytes: &[u8],
) -> Result<Option<StoredCommit>, AllocError>
    ensures { IfOk result (λ stored. option_map commit_shown stored ≡ commit_of_kind id kind bytes.now) }
{
    match kind {
        Kind::Commit => read_whole(alloc, CommitRefIter::from_bytes(bytes, id.kind())),
        Kind::Tree | Kind::Blob | Kind::Tag => Ok(None),
    }
}

/// Whether two ids are one.
fn is_id(id: ObjectId, other: &ObjectId) -> bool
    ensures { result ≡ is_same id other.now }
{
    id.cmp(other).is_eq()
}

/// What differs between a row and its commit, of which it is known that they don't agree.
fn difference_of(id: ObjectId, commit: Commit<'_>, stored: &StoredCommit) -> Difference
    ensures { Differs id (row_of_commit commit.entry) (commit_shown stored.now) result }
{
    if !is_id(stored.tree, &commit.root_tree_id()) {
        return Difference::Tree(id);
    }
    if stored.time != commit.committer_timestamp() {
        return Difference::Time(id);
    }
    Difference::Parents(id)
}

/// Compares a row with the object of its id.
fn compare<O: Objects>(
    alloc: Global,
    graph: &Graph,
    commit: Commit<'_>,
    objects: &mut O,
    text: &mut Vec<u8>,
) -> Result<Option<Difference>, Fault<O::Fault>>
    requires rows { AreGraphRows graph.now }
    requires same { rows_of_commit commit ≡ graph.now }
    requires finite { (row_of_commit commit).generation < 2 ^ 32 - 1 }
    ensures { IfOk result (λ difference. IsAnswer graph.now (row_of_commit commit.entry) difference) }
{
    let id = commit.id();
    let kind = match objects.read(&id, text) {
        Ok(Found::Named(kind)) => kind,
        Ok(Found::Misnamed) => return Ok(Some(Difference::Misnamed(id))),
        Ok(Found::Missing) => return Ok(Some(Difference::Missing(id))),
        Err(fault) => return Err(Fault::Objects(fault)),
    };
    let Some(stored) = read_commit(alloc, id, kind, text.as_slice())? else {
        return Ok(Some(Difference::NotACommit(id)));
    };
    if row_agrees(graph, commit, &stored) {
        Ok(None)
    } else {
        Ok(Some(difference_of(id, commit, &stored)))
    }
}

/// What is wrong with the row of this number: whether it is sound, and, where the lower files haven't a row of its id, whether it says
/// what the object says.
fn check_row<O: Objects>(
    alloc: Global,
    graph: &Graph,
    lower: &Graph,
    objects: &mut O,
    number: u32,
    text: &mut Vec<u8>,
) -> Result<Option<Difference>, Fault<O::Fault>>
    requires rows { AreGraphRows graph.now }
    requires within { number < length graph.now }
    ensures { IfOk result (λ difference. IsSaid graph.now lower.now (row_at graph.now number) difference) }
{
    let commit = graph.commit_at(Position(number));
    let id = commit.id();
    if !is_sound(graph, number) {
        return Ok(Some(Difference::Unsound(id)));
    }
    if lower.commit_by_id(&id).is_some() {
        return Ok(None);
    }
    compare(alloc, graph, commit, objects, text)
}

/// Adds what is wrong with the rows, one difference for a row.
pub(crate) fn add_rows<O: Objects>(
    alloc: Global,
    graph: &Graph,
    lower: &Graph,
    objects: &mut O,
    differences: &mut Vec<Difference>,
) -> Result<(), Fault<O::Fault>>
    requires rows { AreGraphRows graph.now }
    ensures tells { OnOk result (Tells (IsOfRow graph.now) differences.old.items differences.new.items) }
    ensures each { OnOk result (AllRowsTold graph.now lower.now (length graph.now) differences.new.items) }
{
    let mut text = Vec::new(alloc);
    for number in 0..graph.num_commits() {
        if let Some(difference) = check_row(alloc, graph, lower, objects, number, &mut text)? {
            add(differences, difference)?;
        }
    }
    Ok(())
}
