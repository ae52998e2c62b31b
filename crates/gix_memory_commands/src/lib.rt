//! The commands of the program over bytes in memory: for callers in other languages, which hand over slices and numbers.
//!
//! [`run_over_bytes`] takes the words of a command and the records as bytes, and room for the lines. What these lines are is stated by
//! the laws of `gix_commands`. [`commits_over_bytes`] takes slices for commits and for their parents in place of the room.
//! [`run_over_folder`] and [`commits_over_folder`] take the files of a repository in place of records, and [`resolve_in_folder`] says
//! which ids revisions stand for in it.
//!
//! Tables of ids have keys that anybody knows: these calls have no source of randomness. So whoever chooses the ids of the records can
//! make a call slow, as its time then grows with the square of their number. No answer changes.
#![tactic(auto)]

ghost use Rattle.std.specs.Prelude.{◌≡◌, Ok, IfOk, IfErr, length, nat_le};
ghost use Rattle.gix_memory_commands.specs.Answers.{Answers, FailsOver, RunsOver, text_of};
ghost use Rattle.gix_memory_commands.specs.Room.{IsWhole, PromisesOver, answer_to, put_in};

mod answer;
mod commits;
mod folder;
mod list;
mod none;
mod trouble;
mod words;

pub use answer::Answer;
pub use commits::commits_over_bytes;
pub use folder::{commits_over_folder, resolve_in_folder, run_over_folder};
use gix_commands::{Fault, run_in};
use gix_hash::Keys;
use std::alloc::Global;
pub use trouble::Trouble;
use words::words_of;

/// Runs the command that the words are over the records, and puts the lines that it writes at the front of the room. The words are UTF-8
/// with one space or one newline between two of them, and none at either end; the records are as `git cat-file --batch` prints them. They
/// are read where they are: of these, only the objects that a walk looks up are copied, one at a time.
///
/// Where the lines fit into the room, the answer is well and its length is theirs. Where they don't, the answer is 1, its length is the
/// room that they need, and the room is as it was.
///
/// # Errors
/// The number of the fault of the run, with the place or the id that it names. Its length is 0, and the room is as it was, also where a
/// list of commits broke off midway.
pub fn run_over_bytes(alloc: Global, words: &[u8], records: &[u8], room: &mut [u8]) -> Answer
    ensures answers { Answers words.now records.now room.old result room.new }
    // What the lines are, from lists of bytes up.
    ensures whole { IsWhole words.now records.now room.old result room.new }
{
    match lines_of(alloc, words, records) {
        Ok(lines) => put_lines(lines.as_slice(), room),
        Err(fault) => Answer::of_fault(fault),
    }
}

/// Puts the text of an answer of this number at the front of the room, where it fits. How many bytes the text has, without an end.
pub fn put_text(number: u32, room: &mut [u8]) -> usize
    ensures length { result ≡ length (text_of number) }
    ensures room { room.new ≡ put_in (text_of number) room.old }
{
    let text = answer::text_of(number).as_bytes();
    put(text, room);
    text.len()
}

/// The lines that a command writes over the records. A writer in memory fails for memory alone.
fn lines_of(alloc: Global, words: &[u8], records: &[u8]) -> Result<Vec<u8>, Fault>
    ensures ok { IfOk result (λ lines. RunsOver words.now records.now (Ok tt) lines.items) }
    ensures err { IfErr result (λ e. FailsOver words.now records.now e) }
    ensures whole { IfOk result (λ lines. PromisesOver words.now records.now lines.items) }
{
    let words = words_of(alloc, words)?;
    let mut lines = Vec::new(alloc);
    match run_in(alloc, Keys::KNOWN, &words, records, &mut lines) {
        Ok(()) => Ok(lines),
        Err(Fault::Write) => Err(Fault::Memory),
        Err(fault) => Err(fault),
    }
}

/// The answer to a run that ended well, whose lines go into the room where they fit.
pub(crate) fn put_lines(lines: &[u8], room: &mut [u8]) -> Answer
    ensures answer { result ≡ answer_to lines.now room.old }
    ensures room { room.new ≡ put_in lines.now room.old }
{
    if put(lines, room) {
        Answer::well(lines.len())
    } else {
        Answer::too_small(lines.len())
    }
}

/// Puts bytes at the front of the room where they fit. Whether they fit.
fn put(bytes: &[u8], room: &mut [u8]) -> bool
    ensures fits { result ≡ nat_le (length bytes.now) (length room.old) }
    ensures room { room.new ≡ put_in bytes.now room.old }
{
    if room.len() < bytes.len() {
        return false;
    }
    room[..bytes.len()].copy_from_slice(bytes);
    true
}
