//! Commits in batches.
ghost use Rattle.gix_memory_commands.specs.BatchAnswers.{AnswersBatch};
ghost use Rattle.gix_memory_commands.specs.BatchSlices.{IsBatch};

use crate::answer::Answer;
use crate::words::words_of;
use gix_batches::{Commit, CommitId, batch_in};
use gix_commands::Fault;
use std::alloc::Global;

/// Puts the commits that a list command gives over the records, from the one number `skip` on, at the front of the slice for commits, and
/// the ids of their parents at the front of the slice for parents, as many commits as both have room for. The words and the records are
/// those of [`run_over_bytes`](crate::run_over_bytes).
///
/// The answer's length is the number of commits. Its number is 0 where they are the last, 17 where there may be more, and 1 where not one
/// fits: its place is then the room for parents that the next commit needs, and 0 where the slice for commits has no room.
///
/// # Errors
/// The number of the fault, behind the commits before it. The rest of both slices is as it was.
pub fn commits_over_bytes(
    alloc: Global,
    words: &[u8],
    records: &[u8],
    skip: u64,
    commits: &mut [Commit],
    parents: &mut [CommitId],
) -> Answer
    ensures answers { AnswersBatch words.now records.now skip commits.old commits.new parents.old parents.new result }
    // What the slices hold, from lists of bytes up.
    ensures whole { IsBatch words.now records.now skip commits.old commits.new parents.old parents.new result }
{
    match words_of(alloc, words) {
        Ok(words) => {
            let batch = batch_in(alloc, &words, records, skip, commits, parents);
            Answer::of_batch(batch)
        }
        Err(_) => Answer::of_fault(Fault::Memory),
    }
}
