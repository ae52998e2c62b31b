//! Words that name no tip, since each set of refs in them is empty.
ghost use Rattle.std.specs.Prelude.{◌≡◌, [], Ok, IfOk, map, string_bytes};
ghost use Rattle.gix_words.specs.Words.{request_of, request_of_command};
ghost use Rattle.gix_memory_commands.specs.Inside.{if_alone, is_number, lines_of_number, none_of, with_an_id};
ghost use Rattle.gix_memory_commands.specs.Nothing.{LinesOfNone};

use crate::words::words_of;
use gix_batches::are_all_lines;
use gix_commands::Fault;
use gix_words::{Command, Form, read_command};
use std::alloc::{AllocError, Global};

/// An id, in the digits of a word.
const AN_ID: &str = "0000000000000000000000000000000000000000";

/// The lines of words that name no tip: none, or the number 0 where a number is asked for.
///
/// # Errors
/// `Usage` where they name one, or would be no such command with an id behind them either. `Memory`.
pub(crate) fn lines_of_none(alloc: Global, words: &[u8]) -> Result<&'static str, Fault>
    ensures { IfOk result (λ lines. LinesOfNone words.now lines.now) }
{
    let command = command_with_an_id(alloc, words)?;
    match none_of(&command) {
        Some(is_number) => Ok(lines_of_number(is_number)),
        None => Err(Fault::Usage),
    }
}

/// Whether words that name no tip ask for a list of commits as they are, as a batch does.
///
/// # Errors
/// Those of [`lines_of_none`], and `Usage` where the words ask for some lines only, or for another command.
pub(crate) fn check_none(alloc: Global, words: &[u8]) -> Result<(), Fault>
    ensures { IfOk result (λ done. LinesOfNone words.now []) }
{
    let command = command_with_an_id(alloc, words)?;
    let Command::Commits { shown, .. } = &command else {
        return Err(Fault::Usage);
    };
    if !are_all_lines(*shown) {
        return Err(Fault::Usage);
    }
    match none_of(&command) {
        Some(false) => Ok(()),
        _ => Err(Fault::Usage),
    }
}

/// The command that words are with an id behind them.
///
/// # Errors
/// `Usage` where they are none. `Memory`.
fn command_with_an_id(alloc: Global, words: &[u8]) -> Result<Command, Fault>
    ensures { IfOk result (λ command. request_of (with_an_id words.now) ≡ Ok (request_of_command command)) }
{
    let words = with_an_id(alloc, words)?;
    match read_command(alloc, &words) {
        Ok(command) => Ok(command),
        Err(Fault::Memory) => Err(Fault::Memory),
        Err(_) => Err(Fault::Usage),
    }
}

/// The words of a text, and an id behind them.
fn with_an_id(alloc: Global, text: &[u8]) -> Result<Vec<String>, AllocError>
    ensures { IfOk result (λ words. map string_bytes words.items ≡ with_an_id text.now) }
{
    let mut words = words_of(alloc, text)?;
    words.push(String::from_str(alloc, AN_ID)?)?;
    Ok(words)
}

/// Whether the number of commits is asked for, where a command asks for what one tip reaches, or for what is said of one id and one other.
fn none_of(command: &Command) -> Option<bool>
    ensures { result ≡ none_of (Ok (request_of_command command.now)) }
{
    match command {
        Command::Commits { shown, tips, .. } => if_alone(tips.len(), is_number(shown.form)),
        Command::Contained { ids, .. } => if_alone(ids.len(), false),
        Command::Containing { tips, .. } => if_alone(tips.len(), false),
        Command::Bases { others, .. } => if_alone(others.len(), false),
        Command::Files { .. } | Command::Ahead { .. } => None,
    }
}

/// Whether a number is asked for, where there is one id.
fn if_alone(ids: usize, is_number: bool) -> Option<bool>
    ensures { result ≡ if_alone ids is_number }
{
    if ids == 1 { Some(is_number) } else { None }
}

/// Whether a list is written as a number.
fn is_number(form: Form) -> bool
    ensures { result ≡ is_number form }
{
    match form {
        Form::Count => true,
        Form::Lines | Form::Reverse => false,
    }
}

/// The lines of no commit.
fn lines_of_number(is_number: bool) -> &'static str
    ensures { result.now ≡ lines_of_number is_number }
{
    if is_number { "0\n" } else { "" }
}
