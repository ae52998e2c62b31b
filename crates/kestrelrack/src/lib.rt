//! The commands for callers in C, and in each language that can call C. `kestrelrack.h` says what a caller owes.
#![tactic(auto)]

ghost use Rattle.std.specs.Prelude.{◌≡◌, length};
ghost use Rattle.gix_memory_commands.specs.Answers.{Answers, text_of};
ghost use Rattle.gix_memory_commands.specs.BatchAnswers.{AnswersBatch};
ghost use Rattle.gix_memory_commands.specs.BatchSlices.{IsBatch};
ghost use Rattle.gix_memory_commands.specs.FolderAnswers.{AnswersFolder, IsWholeText};
ghost use Rattle.gix_memory_commands.specs.Room.{IsWhole, IsWholeNamed, put_in};

use gix_batches::{Commit, CommitId};
use gix_mapped_folder::NamedFile;
use gix_memory_commands::{
    Answer, commits_over_bytes, commits_over_folder, put_text, resolve_in_folder, run_over_bytes,
    run_over_folder,
};
use std::alloc::Global;

/// Runs the command that the words are over the records, and puts its lines at the front of the room, where they fit.
#[unsafe(no_mangle)]
pub extern "C" fn kestrelrack_run(
    alloc: Global,
    words: &[u8],
    records: &[u8],
    room: &mut [u8],
) -> Answer
    ensures answers { Answers words.now records.now room.old result room.new }
    // What the lines are, from lists of bytes up.
    ensures whole { IsWhole words.now records.now room.old result room.new }
{
    run_over_bytes(alloc, words, records, room)
}

/// Puts the commits of a list command over the records, from the one number `skip` on, at the front of the slice for commits, and the ids
/// of their parents at the front of the slice for parents, as many commits as both have room for.
#[unsafe(no_mangle)]
pub extern "C" fn kestrelrack_commits(
    alloc: Global,
    words: &[u8],
    records: &[u8],
    skip: u64,
    commits: &mut [Commit],
    parents: &mut [CommitId],
) -> Answer
    ensures answers { AnswersBatch words.now records.now skip commits.old commits.new parents.old parents.new result }
    // What the slices hold, from lists of bytes up.
    ensures whole { IsBatch words.now records.now skip commits.old commits.new parents.old parents.new result }
{
    commits_over_bytes(alloc, words, records, skip, commits, parents)
}

/// Runs the command that the words are over a repository of these files, and puts its lines at the front of the room, where they fit.
#[unsafe(no_mangle)]
pub extern "C" fn kestrelrack_run_in(
    alloc: Global,
    words: &[u8],
    files: &[NamedFile<'_>],
    room: &mut [u8],
) -> Answer
    // What the lines are, from lists of bytes up: they are right of objects each of whose ids is the hash of its object.
    ensures whole { IsWholeNamed words.now room.old result room.new }
{
    run_over_folder(alloc, words, files, room)
}

/// Puts the commits of a list command over a repository of these files, from the one number `skip` on, at the front of the slice for
/// commits, and the ids of their parents at the front of the slice for parents, as many commits as both have room for.
#[unsafe(no_mangle)]
pub extern "C" fn kestrelrack_commits_in(
    alloc: Global,
    words: &[u8],
    files: &[NamedFile<'_>],
    skip: u64,
    commits: &mut [Commit],
    parents: &mut [CommitId],
) -> Answer
    // What the slices hold, from lists of bytes up: it is right of objects each of whose ids is the hash of its object.
    ensures whole { AnswersFolder words.now skip commits.old commits.new parents.old parents.new result }
{
    commits_over_folder(alloc, words, files, skip, commits, parents)
}

/// Puts the words at the front of the room, where they fit, with ids in place of the revisions that stand for them in a repository of these
/// files.
#[unsafe(no_mangle)]
pub extern "C" fn kestrelrack_resolve_in(
    alloc: Global,
    words: &[u8],
    files: &[NamedFile<'_>],
    room: &mut [u8],
) -> Answer
    ensures { IsWholeText room.old result room.new }
{
    resolve_in_folder(alloc, words, files, room)
}

/// Puts the text of an answer of this number at the front of the room, where it fits. How many bytes the text has, without an end.
#[unsafe(no_mangle)]
pub extern "C" fn kestrelrack_text(number: u32, room: &mut [u8]) -> usize
    ensures length { result ≡ length (text_of number) }
    ensures room { room.new ≡ put_in (text_of number) room.old }
{
    put_text(number, room)
}
