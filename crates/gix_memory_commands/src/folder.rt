//! The commands over a repository whose files are in memory.
ghost use Rattle.std.specs.Prelude.{◌≡◌, IfOk, IfErr};
ghost use Rattle.gix_statement.specs.WholeStatement.{AreNamed};
ghost use Rattle.gix_memory_commands.specs.BatchSlices.{PromisesBatch};
ghost use Rattle.gix_memory_commands.specs.FolderAnswers.{AnswersFolder, IsWholeText};
ghost use Rattle.gix_memory_commands.specs.Room.{IsWholeNamed, PromisesNamed};

use crate::answer::Answer;
use crate::list::batch;
use crate::none::{check_none, lines_of_none};
use crate::put_lines;
use crate::trouble::Trouble;
use crate::words::words_of;
use gix_batches::{Batch, Commit, CommitId};
use gix_commands::Fault;
use gix_hash::Keys;
use gix_mapped_folder::{Mapped, NamedFile, by_path};
use gix_options::{Asked, Name, Place, Question, read_question};
use gix_questions::choose;
use gix_repository::Repository;
use gix_repository_commands::{Part, Silent, answer};
use gix_words::read_command;
use std::alloc::{AllocError, Global};

/// Where the repository is in the folder.
const TOP: &str = "/";

/// Runs the command that the words are over a repository, and puts the lines that it writes at the front of the room. The words are those
/// of [`run_over_bytes`](crate::run_over_bytes), with ids. The files are those of the repository's folder, in any order, each by its path
/// below it; of several of one path the first counts. As many objects are read as the command needs, and each is compared with its id.
///
/// Words that name no tip, as [`resolve_in_folder`] gives them where each set is empty, have no line, or with `--count` the number 0.
///
/// # Errors
/// The number of the fault. The room is as it was.
pub fn run_over_folder(
    alloc: Global,
    words: &[u8],
    files: &[NamedFile<'_>],
    room: &mut [u8],
) -> Answer
    // What the lines are, from lists of bytes up: they are right of objects each of whose ids is the hash of its object.
    ensures whole { IsWholeNamed words.now room.old result room.new }
{
    match folder_lines(alloc, words, files) {
        Ok(lines) => put_lines(lines.as_slice(), room),
        Err(Trouble::Command(Fault::Usage)) => match lines_of_none(alloc, words) {
            Ok(lines) => put_lines(lines.as_bytes(), room),
            Err(fault) => Answer::of_fault(fault),
        },
        Err(trouble) => Answer::of_trouble(trouble),
    }
}

/// Puts the commits that a list command gives over a repository, from the one number `skip` on, into the slices, as
/// [`commits_over_bytes`](crate::commits_over_bytes) does over records. The files are those of [`run_over_folder`].
///
/// # Errors
/// The number of the fault, behind the commits before it. The rest of both slices is as it was.
pub fn commits_over_folder(
    alloc: Global,
    words: &[u8],
    files: &[NamedFile<'_>],
    skip: u64,
    commits: &mut [Commit],
    parents: &mut [CommitId],
) -> Answer
    ensures whole { AnswersFolder words.now skip commits.old commits.new parents.old parents.new result }
{
    match folder_batch(alloc, words, files, skip, commits, parents) {
        Ok(batch) => Answer::of_batch(batch),
        Err(Trouble::Command(Fault::Usage)) => match check_none(alloc, words) {
            Ok(()) => Answer::well(0),
            Err(fault) => Answer::of_fault(fault),
        },
        Err(trouble) => Answer::of_trouble(trouble),
    }
}

/// Puts the words of a command at the front of the room in which each revision is replaced by the ids that it stands for, with a newline
/// between two words. The words may have revisions as the program takes them: `main~2`, `^v1.0`, `A..B`, `A...B`, `--all`. A set of refs may be
/// empty, and then stands for no id.
///
/// # Errors
/// The number of the fault. The room is as it was.
pub fn resolve_in_folder(
    alloc: Global,
    words: &[u8],
    files: &[NamedFile<'_>],
    room: &mut [u8],
) -> Answer
    ensures { IsWholeText room.old result room.new }
{
    match folder_words(alloc, words, files) {
        Ok(text) => put_lines(text.as_slice(), room),
        Err(trouble) => Answer::of_trouble(trouble),
    }
}

/// The lines that a command writes over a repository. A writer in memory fails for memory alone.
fn folder_lines(alloc: Global, words: &[u8], files: &[NamedFile<'_>]) -> Result<Vec<u8>, Trouble>
    ensures { IfOk result (λ lines. PromisesNamed words.now lines.items) }
{
    let words = words_of(alloc, words)?;
    let command = read_command(alloc, &words)?;
    let sorted = by_path(alloc, files)?;
    let folder = Mapped::new(alloc, sorted.as_slice());
    let mut repository = Repository::open(&folder, TOP)?;
    let mut part = Part::of_command(alloc, Keys::KNOWN, &command, None)?;
    let odb = &mut repository.odb;
    let mut silent = Silent;
    let answered = answer(&command, &mut part, odb, None, &mut silent)?;
    match answered.ended {
        Ok(()) => Ok(answered.lines),
        Err(Fault::Write) => Err(Trouble::Command(Fault::Memory)),
        Err(fault) => Err(Trouble::Command(fault)),
    }
}

/// The batch of a list over a repository.
fn folder_batch(
    alloc: Global,
    words: &[u8],
    files: &[NamedFile<'_>],
    skip: u64,
    commits: &mut [Commit],
    parents: &mut [CommitId],
) -> Result<Batch, Trouble>
    ensures gives { IfOk result (PromisesBatch words.now AreNamed skip commits.old commits.new parents.old parents.new) }
    ensures commits_stay { IfErr result (λ e. commits.new ≡ commits.old) }
    ensures parents_stay { IfErr result (λ e. parents.new ≡ parents.old) }
{
    let words = words_of(alloc, words)?;
    let command = read_command(alloc, &words)?;
    let sorted = by_path(alloc, files)?;
    let folder = Mapped::new(alloc, sorted.as_slice());
    let mut repository = Repository::open(&folder, TOP)?;
    let most = commits.len().saturating_add(skip as usize);
    let mut part = Part::of_command(alloc, Keys::KNOWN, &command, Some(most))?;
    let odb = &mut repository.odb;
    let given = batch(&command, &mut part, odb, skip, commits, parents)?;
    Ok(given)
}

/// The words of a command over ids.
fn folder_words(alloc: Global, words: &[u8], files: &[NamedFile<'_>]) -> Result<Vec<u8>, Trouble> {
    let words = words_of(alloc, words)?;
    let place = Place::GitDir(String::from_str(alloc, TOP)?);
    let question = read_question(alloc, place, &words)?;
    if asks_for_more(&question) {
        return Err(Trouble::Command(Fault::Usage));
    }
    let sorted = by_path(alloc, files)?;
    let folder = Mapped::new(alloc, sorted.as_slice());
    let mut repository = Repository::open(&folder, TOP)?;
    let mut chosen = choose(alloc, &mut repository, &question, &[])?;
    if question.name != Name::Ahead {
        chosen.exclude_read(alloc, Keys::KNOWN, &mut repository.odb)?;
    }
    let words = chosen.words(alloc, Keys::KNOWN, &question)?;
    Ok(joined(alloc, words.as_slice())?)
}

/// Whether a question asks for what only the program has: standard input, the border of a shallow clone, names in the lines, another form
/// of them, or a check of the commit-graph.
fn asks_for_more(question: &Question) -> bool {
    question.options.takes_border
        || question.options.gives_names
        || question.options.as_json
        || question.options.ends_in_zero && !question.name.takes_limit()
        || question.name == Name::CheckGraph
        || question
            .asked
            .iter()
            .any(|asked| matches!(asked, Asked::Lines))
}

/// Words with a newline between two of them.
fn joined(alloc: Global, words: &[String]) -> Result<Vec<u8>, AllocError> {
    let mut text = Vec::new(alloc);
    for word in words {
        if !text.is_empty() {
            text.push(b'\n')?;
        }
        text.extend_from_slice(word.as_bytes())?;
    }
    Ok(text)
}
