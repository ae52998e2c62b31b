//! The words that ask for a command.
ghost use Rattle.std.specs.Prelude.{◌≡◌, ◌∷◌, [], ◌++◌, map, string_bytes, Ok, option_map, IfOk, OnOk};
ghost use Rattle.std.specs.Fmt.{decimal, signed_decimal};
ghost use Rattle.std.specs.List.{AllByRecursion};
ghost use Rattle.hex.specs.Hex.{IsBytes, encode_lower};
ghost use Rattle.gix_words.specs.Printed.{AreIds, IsId, cutoff_in, field_words, files_words, where_given, form_words, format_words, id_word, is_first_only, line_words, merges_words, order_name, order_words, printed, several_words, shown_words, skip_words, time_name, valued};
ghost use Rattle.gix_words.specs.Words.{request_of, request_of_command};
ghost use Rattle.gix_words.specs.Writable.{IsWritable};

use crate::format::Format;
use crate::words::{Command, EntryLines, Form, Line, Merges, Order, Shown};
use gix_hash::ObjectId;
use gix_revwalk::{CommitTimeOrder, Parents};
use gix_simple::Sorting;
use std::alloc::{AllocError, Global};

impl Command {
    /// The words of the command, as [`read_command`](crate::read_command) reads them: the name, the options in their order, the ids of
    /// tips, and then the ids of hidden commits, each after a `^`. Where words ask for the command at all, these do.
    pub fn words(&self, alloc: Global) -> Result<Vec<String>, AllocError>
        ensures { IfOk result (λ words. IsWritable (request_of_command self.now)
            → request_of (map string_bytes words.items) ≡ Ok (request_of_command self.now)) }
    {
        let mut words = Vec::new(alloc);
        push_command(alloc, self, &mut words)?;
        Ok(words)
    }
}

/// Adds the words of the command.
fn push_command(alloc: Global, command: &Command, words: &mut Vec<String>) -> Result<(), AllocError>
    ensures words { OnOk result (map string_bytes words.new.items ≡ map string_bytes words.old.items ++ printed (request_of_command command.now)) }
    ensures ids { OnOk result (AreIds (request_of_command command.now)) }
{
    match command {
        Command::Commits {
            order,
            shown,
            tips,
            hidden,
        } => {
            push_order(alloc, order, words)?;
            push_shown(alloc, shown, words)?;
            push_ids(alloc, "", tips.as_slice(), words)?;
            push_ids(alloc, "^", hidden.as_slice(), words)
        }
        Command::Files { shown, tree } => push_files(alloc, shown, tree, words),
        Command::Ahead { one, other } => push_several(alloc, "ahead", one, &[*other], words),
        Command::Contained { tip, ids } => {
            push_several(alloc, "contains", tip, ids.as_slice(), words)
        }
        Command::Containing { target, tips } => {
            push_several(alloc, "containing", target, tips.as_slice(), words)
        }
        Command::Bases { one, others } => {
            push_several(alloc, "merge-base", one, others.as_slice(), words)
        }
    }
}

/// Adds the name of the order, and the option that a walk in this order has.
fn push_order(alloc: Global, order: &Order, words: &mut Vec<String>) -> Result<(), AllocError>
    ensures { OnOk result (map string_bytes words.new.items ≡ map string_bytes words.old.items ++ order_words order.now) }
{
    push_word(alloc, name_of(order), words)?;
    push_flag(alloc, is_first_only(order), "--first-parent", words)?;
    push_time(alloc, "--since", cutoff_in(order), words)
}

/// The name of the order.
fn name_of(order: &Order) -> &'static str
    ensures { result.now ≡ order_name order.now }
{
    match order {
        Order::Simple { sorting, .. } => match sorting {
            Sorting::BreadthFirst => "breadth",
            Sorting::ByCommitTime(by) => name_by_time(*by),
            Sorting::ByCommitTimeCutoff { order: by, .. } => name_by_time(*by),
        },
        Order::Topo { sorting, .. } => match sorting {
            gix_topo::Sorting::TopoOrder => "topo",
            gix_topo::Sorting::DateOrder => "date",
        },
    }
}

/// The name of the order in which this time comes first.
fn name_by_time(by: CommitTimeOrder) -> &'static str
    ensures { result.now ≡ time_name by }
{
    match by {
        CommitTimeOrder::NewestFirst => "newest",
        CommitTimeOrder::OldestFirst => "oldest",
    }
}

/// Whether the walk goes through first parents alone.
fn is_first_only(order: &Order) -> bool
    ensures { result ≡ is_first_only order.now }
{
    match order {
        Order::Simple { parents, .. } | Order::Topo { parents, .. } => {
            matches!(parents, Parents::First)
        }
    }
}

/// The time before which the walk leaves out commits.
fn cutoff_in(order: &Order) -> Option<i64>
    ensures { result ≡ cutoff_in order.now }
{
    match order {
        Order::Simple {
            sorting: Sorting::ByCommitTimeCutoff { seconds, .. },
            ..
        } => Some(*seconds),
        _ => None,
    }
}

/// Adds the options that say what is written of commits, in the order in which they are read.
fn push_shown(alloc: Global, shown: &Shown, words: &mut Vec<String>) -> Result<(), AllocError>
    ensures { OnOk result (map string_bytes words.new.items ≡ map string_bytes words.old.items ++ shown_words shown.now) }
{
    push_time(alloc, "--until", shown.until, words)?;
    push_merges(alloc, shown.merges, words)?;
    push_skip(alloc, shown.skip, words)?;
    push_number(alloc, "-n", shown.limit, words)?;
    push_form(alloc, shown.form, words)?;
    push_line(alloc, &shown.line, words)
}

/// Adds the option that chooses commits by their parents.
fn push_merges(alloc: Global, merges: Merges, words: &mut Vec<String>) -> Result<(), AllocError>
    ensures { OnOk result (map string_bytes words.new.items ≡ map string_bytes words.old.items ++ merges_words merges) }
{
    match merges {
        Merges::Any => Ok(()),
        Merges::Only => push_word(alloc, "--merges", words),
        Merges::No => push_word(alloc, "--no-merges", words),
    }
}

/// Adds how many are left out, where some are.
fn push_skip(alloc: Global, skip: u64, words: &mut Vec<String>) -> Result<(), AllocError>
    ensures { OnOk result (map string_bytes words.new.items ≡ map string_bytes words.old.items ++ skip_words skip) }
{
    if skip == 0 {
        return Ok(());
    }
    push_number(alloc, "--skip", Some(skip), words)
}

/// Adds the option that says how the list is written.
fn push_form(alloc: Global, form: Form, words: &mut Vec<String>) -> Result<(), AllocError>
    ensures { OnOk result (map string_bytes words.new.items ≡ map string_bytes words.old.items ++ form_words form) }
{
    match form {
        Form::Lines => Ok(()),
        Form::Count => push_word(alloc, "--count", words),
        Form::Reverse => push_word(alloc, "--reverse", words),
    }
}

/// Adds the options that say what a line has. A line without the id is one that a format was given for.
fn push_line(alloc: Global, line: &Line, words: &mut Vec<String>) -> Result<(), AllocError>
    ensures { OnOk result (map string_bytes words.new.items ≡ map string_bytes words.old.items ++ line_words line.now) }
{
    if line.id {
        push_fields(alloc, line, words)?;
    } else {
        push_format(alloc, &line.format, words)?;
    }
    push_flag(alloc, line.ending == 0, "-z", words)
}

/// Adds the options of a line that has the id.
fn push_fields(alloc: Global, line: &Line, words: &mut Vec<String>) -> Result<(), AllocError>
    ensures { OnOk result (map string_bytes words.new.items ≡ map string_bytes words.old.items ++ field_words line.now) }
{
    push_flag(alloc, line.time, "--timestamp", words)?;
    push_flag(alloc, line.parents, "--parents", words)?;
    push_flag(alloc, !line.format.is_empty(), "--oneline", words)
}

/// Adds the format. One that is no text was never read from a word.
fn push_format(alloc: Global, format: &Format, words: &mut Vec<String>) -> Result<(), AllocError>
    ensures { OnOk result (map string_bytes words.new.items ≡ map string_bytes words.old.items ++ format_words format.now) }
{
    let text = String::from_utf8_lossy(alloc, format.as_bytes())?;
    push_word(alloc, "--format", words)?;
    words.push(text).map_err(AllocError::from)?;
    Ok(())
}

/// Adds the words of a command that lists entries.
fn push_files(
    alloc: Global,
    shown: &EntryLines,
    tree: &ObjectId,
    words: &mut Vec<String>,
) -> Result<(), AllocError>
    ensures words { OnOk result (map string_bytes words.new.items ≡ map string_bytes words.old.items ++ files_words shown.now tree.now) }
    ensures id { OnOk result (IsId tree.now) }
{
    push_word(alloc, "files", words)?;
    push_number(alloc, "-n", shown.limit, words)?;
    push_flag(alloc, shown.ending == 0, "-z", words)?;
    push_id(alloc, "", tree, words)
}

/// Adds the words of a command that takes an id and others.
fn push_several(
    alloc: Global,
    name: &str,
    first: &ObjectId,
    others: &[ObjectId],
    words: &mut Vec<String>,
) -> Result<(), AllocError>
    ensures words { OnOk result (map string_bytes words.new.items ≡ map string_bytes words.old.items
        ++ several_words name.now first.now others.now) }
    ensures ids { OnOk result (AllByRecursion IsId (first.now ∷ others.now)) }
{
    push_word(alloc, name, words)?;
    push_id(alloc, "", first, words)?;
    push_ids(alloc, "", others, words)
}

/// Adds the ids, each behind the mark.
fn push_ids(
    alloc: Global,
    mark: &str,
    ids: &[ObjectId],
    words: &mut Vec<String>,
) -> Result<(), AllocError>
    ensures words { OnOk result (map string_bytes words.new.items ≡ map string_bytes words.old.items ++ map (id_word mark.now) ids.now) }
    ensures ids { OnOk result (AllByRecursion IsId ids.now) }
{
    for id in ids {
        push_id(alloc, mark, id, words)?;
    }
    Ok(())
}

/// Adds the id behind the mark.
fn push_id(
    alloc: Global,
    mark: &str,
    id: &ObjectId,
    words: &mut Vec<String>,
) -> Result<(), AllocError>
    ensures words { OnOk result (map string_bytes words.new.items ≡ map string_bytes words.old.items ++ id_word mark.now id.now ∷ []) }
    ensures id { OnOk result (IsId id.now) }
{
    push_digits(alloc, mark, id.as_bytes(), words)
}

/// Adds the hex digits of the bytes behind the mark.
fn push_digits(
    alloc: Global,
    mark: &str,
    bytes: &[u8],
    words: &mut Vec<String>,
) -> Result<(), AllocError>
    ensures words { OnOk result (map string_bytes words.new.items ≡ map string_bytes words.old.items
        ++ (mark.now ++ encode_lower bytes.now) ∷ []) }
    ensures bytes { OnOk result (IsBytes bytes.now) }
{
    let digits = hex::encode(alloc, bytes)?;
    let text = format!(in alloc; "{mark}{digits}")?;
    words.push(text).map_err(AllocError::from)?;
    Ok(())
}

/// Adds an option and a time, where there is one.
fn push_time(
    alloc: Global,
    option: &str,
    time: Option<i64>,
    words: &mut Vec<String>,
) -> Result<(), AllocError>
    ensures { OnOk result (map string_bytes words.new.items ≡ map string_bytes words.old.items
        ++ valued option.now (option_map signed_decimal time)) }
{
    let Some(seconds) = time else {
        return Ok(());
    };
    let text = format!(in alloc; "{seconds}")?;
    push_word(alloc, option, words)?;
    words.push(text).map_err(AllocError::from)?;
    Ok(())
}

/// Adds an option and a number, where there is one.
fn push_number(
    alloc: Global,
    option: &str,
    number: Option<u64>,
    words: &mut Vec<String>,
) -> Result<(), AllocError>
    ensures { OnOk result (map string_bytes words.new.items ≡ map string_bytes words.old.items
        ++ valued option.now (option_map decimal number)) }
{
    let Some(number) = number else {
        return Ok(());
    };
    let text = format!(in alloc; "{number}")?;
    push_word(alloc, option, words)?;
    words.push(text).map_err(AllocError::from)?;
    Ok(())
}

/// Adds an option, where it is given.
fn push_flag(
    alloc: Global,
    is_given: bool,
    option: &str,
    words: &mut Vec<String>,
) -> Result<(), AllocError>
    ensures { OnOk result (map string_bytes words.new.items ≡ map string_bytes words.old.items ++ where_given is_given option.now) }
{
    if !is_given {
        return Ok(());
    }
    push_word(alloc, option, words)
}

/// Adds a word.
fn push_word(alloc: Global, word: &str, words: &mut Vec<String>) -> Result<(), AllocError>
    ensures { OnOk result (map string_bytes words.new.items ≡ map string_bytes words.old.items ++ word.now ∷ []) }
{
    let text = String::from_str(alloc, word)?;
    words.push(text).map_err(AllocError::from)?;
    Ok(())
}
