//! Commits of a repository in batches.
ghost use Rattle.std.specs.Prelude.{◌≡◌, ℕ, List, Ok, IfOk, IfErr};
ghost use Rattle.gix_statement.specs.WholeStatement.{AreNamed};
ghost use Rattle.gix_words.specs.Words.{request_of, request_of_command};
ghost use Rattle.gix_batches.specs.Batches.{Promises};

use gix_batches::{Batch, Commit, CommitId, Ending, batch_named};
use gix_hash::ObjectId;
use gix_odb::Odb;
use gix_repository_commands::{Part, Silent};
use gix_words::{Command, Fault};
use std::fs::Files;
use std::os::unix::fs::FileExt;

/// How often more is read, at the most: each time four times as many.
const MOST_READINGS: u32 = 64;

/// Puts the commits of a list, behind those that are skipped, at the front of the slices, as [`batch_named`] does, over the objects of a
/// part of a repository, which grows until none is missing that it may still read.
///
/// # Errors
///
/// The first fault of an object that is read. The slices are as they were.
pub(super) fn batch<R>(
    command: &Command,
    part: &mut Part,
    odb: &mut Odb<R>,
    skip: u64,
    commits: &mut [Commit],
    parents: &mut [CommitId],
) -> Result<Batch, gix_gather::Fault>
where
    R: Files + AllocGlobal + Clone + Drop,
    R::File: FileExt,
    // What the slices hold, from lists of bytes up: it is right of objects each of whose ids is the hash of its object.
    ensures named { (words : List (List ℕ)) → request_of words ≡ Ok (request_of_command command.now)
        → IfOk result (Promises words AreNamed skip commits.old commits.new parents.old parents.new) }
    ensures commits_stay { IfErr result (λ e. commits.new ≡ commits.old) }
    ensures parents_stay { IfErr result (λ e. parents.new ≡ parents.old) }
{
    let count = skip.saturating_add(commits.len() as u64);
    read_for_list(command, part, odb, count)?;
    let objects = part.gathering.objects();
    Ok(batch_named(part.alloc(), command, objects, skip, commits, parents))
}

/// Reads what the first commits of a list need, so many.
fn read_for_list<R>(
    command: &Command,
    part: &mut Part,
    odb: &mut Odb<R>,
    count: u64,
) -> Result<(), gix_gather::Fault>
where
    R: Files + AllocGlobal + Clone + Drop,
    R::File: FileExt,
{
    let mut silent = Silent;
    part.read_first(odb, None, &mut silent)?;
    for _ in 0..MOST_READINGS {
        if part.gathering.is_all_read() {
            break;
        }
        let Some(id) = lacks(command, part, count) else {
            break;
        };
        if !part.read_for(&id, odb, None, &mut silent)? {
            break;
        }
    }
    Ok(())
}

/// The object that a walk lacks that goes over so many commits and puts none of them.
fn lacks(command: &Command, part: &Part, count: u64) -> Option<ObjectId> {
    let objects = part.gathering.objects();
    let passed = batch_named(part.alloc(), command, objects, count, &mut [], &mut []);
    match passed.ending {
        Ending::Failed(Fault::Missing(id)) => Some(id),
        _ => None,
    }
}
