//! Slices that are filled from a walk.
ghost use Rattle.std.specs.Prelude.{◌≡◌, ◌-◌, OnOk};
ghost use Rattle.std.specs.Iterator.{IsFinite};
ghost use Rattle.std.specs.Option.{option_map};
ghost use Rattle.gix_batches.specs.Draws.{Fills, FillsFront, Passes, ending_at, least_of, most_of};

use crate::commit::{Batch, Commit, CommitId, Ending, put_ids};
use gix_revwalk::Info;
use gix_words::Fault;

/// Fills the slices with the commits that a walk gives behind those that are skipped, as far as both have room, up to the walk's end, its
/// first fault, or the limit, which counts those that are skipped. Nothing is drawn behind a full slice and behind the limit.
pub fn fill_from<I, E>(
    mut walk: I,
    limit: Option<u64>,
    skip: u64,
    commits: &mut [Commit],
    parents: &mut [CommitId],
) -> Batch
where
    I: Iterator<Item = Result<Info, E>> + Drop,
    E: Into<Fault> + Drop,
    requires can { I.can_next walk }
    requires finite { IsFinite (I.remaining walk) }
    ensures { Fills I.next_gives E.converts limit skip walk commits.old commits.new parents.old parents.new result }
{
    if let Err(ending) = pass(&mut walk, least_of(limit, skip)) {
        return Batch {
            commits: 0,
            parents: 0,
            ending,
        };
    }
    fill(walk, left_of(limit, skip), commits, parents)
}

/// How many commits are passed: those that are skipped, or as many as the limit says.
fn least_of(limit: Option<u64>, skip: u64) -> u64
    ensures { result ≡ least_of limit skip }
{
    match limit {
        Some(limit) if limit < skip => limit,
        _ => skip,
    }
}

/// What is left of a limit behind those that are skipped.
fn left_of(limit: Option<u64>, skip: u64) -> Option<u64>
    ensures { result ≡ option_map (λ n. n - skip) limit }
{
    match limit {
        Some(limit) => Some(limit.saturating_sub(skip)),
        None => None,
    }
}

/// Draws so many commits.
///
/// # Errors
/// The walk ended before, or a fault came.
fn pass<I, E>(walk: &mut I, number: u64) -> Result<(), Ending>
where
    I: Iterator<Item = Result<Info, E>> + Drop,
    E: Into<Fault> + Drop,
    requires can { I.can_next walk.old }
    requires finite { IsFinite (I.remaining walk.old) }
    ensures passes { Passes I.next_gives E.converts number walk.old result walk.new }
    ensures can { OnOk result (I.can_next walk.new) }
    ensures finite { OnOk result (IsFinite (I.remaining walk.new)) }
{
    let mut left = number;
    while left > 0 {
        let Some(answer) = walk.next() else {
            return Err(Ending::Ended);
        };
        if let Err(fault) = answer {
            return Err(Ending::Failed(fault.into()));
        }
        left -= 1;
    }
    Ok(())
}

/// Fills the slices with the commits that a walk gives, up to the limit.
fn fill<I, E>(
    mut walk: I,
    limit: Option<u64>,
    commits: &mut [Commit],
    parents: &mut [CommitId],
) -> Batch
where
    I: Iterator<Item = Result<Info, E>> + Drop,
    E: Into<Fault> + Drop,
    requires can { I.can_next walk }
    requires finite { IsFinite (I.remaining walk) }
    ensures { FillsFront I.next_gives E.converts limit walk commits.old commits.new parents.old parents.new result }
{
    let most = most_of(limit, commits.len());
    let mut at = 0;
    let mut used = 0;
    while at < most {
        let Some(answer) = walk.next() else {
            return so_far(at, used, Ending::Ended);
        };
        let info = match answer {
            Ok(info) => info,
            Err(fault) => return so_far(at, used, Ending::Failed(fault.into())),
        };
        let ids = info.parent_ids.as_slice();
        if parents.len() - used < ids.len() {
            return so_far(at, used, Ending::Small(ids.len()));
        }
        put_ids(ids, parents, used);
        commits[at] = Commit::of(&info, used);
        used += ids.len();
        at += 1;
    }
    so_far(at, used, ending_at(limit, at))
}

/// A batch.
fn so_far(commits: usize, parents: usize, ending: Ending) -> Batch
    ensures { result ≡ record { commits = commits; parents = parents; ending = ending } }
{
    Batch {
        commits,
        parents,
        ending,
    }
}

/// How many commits are put at most: as many as there is room for, or as the limit says.
fn most_of(limit: Option<u64>, room: usize) -> usize
    ensures { result ≡ most_of limit room }
{
    match limit {
        Some(limit) if limit < room as u64 => limit as usize,
        _ => room,
    }
}

/// Why no more commits are put than these: the limit is reached, or the slice is full.
fn ending_at(limit: Option<u64>, at: usize) -> Ending
    ensures { result ≡ ending_at limit at }
{
    match limit {
        Some(limit) if limit == at as u64 => Ending::Ended,
        _ => Ending::More,
    }
}
