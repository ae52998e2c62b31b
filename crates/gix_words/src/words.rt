//! The words of a command.
ghost use Rattle.std.specs.Prelude.{◌≡◌, ◌≤◌, IfSome, map, string_bytes};
ghost use Rattle.std.specs.List.{list_all};
ghost use Rattle.std.specs.Option.{option_map};
ghost use Rattle.gix_words.specs.Formats.{format_of};
ghost use Rattle.gix_words.specs.Words.{Bases, Contained, Containing, Gives, Tells, AddsId, begins_with_caret, begins_with_dash, begins_with_sign, number_in, behind_option, first_number, first_value, request_of_command, request_of, order_named, by_first_parents, by_cutoff, ids_from, plain_of, ended_of, titled_of, named_of, timed_of, asked_by, until_of, merges_of, skipped_of, limited_of, formatted_of, formed_of, listed_of, since_of, in_order_of, file_of, ended_files_of, limited_files_of, files_of, ahead_of, is_shown, several_among, several_of, several_in, asked};

use crate::fault::Fault;
use crate::format::Format;
use gix_hash::ObjectId;
use gix_revwalk::{CommitTimeOrder, Parents};
use gix_simple::Sorting;
use std::alloc::{AllocError, Global};

/// The order of a walk over commits.
#[derive(Clone, Copy)]
pub enum Order {
    /// In the order in which commits are met, or in one by time, through these parents.
    Simple {
        parents: Parents,
        sorting: Sorting,
    },
    /// No commit before its children, through these parents.
    Topo {
        parents: Parents,
        sorting: gix_topo::Sorting,
    },
}

/// Which commits are written, by how many parents each names.
#[derive(Clone, Copy)]
pub enum Merges {
    /// All.
    Any,
    /// Those of two parents at least.
    Only,
    /// Those of one parent at most.
    No,
}

/// How a list is written.
#[derive(Clone, Copy)]
pub enum Form {
    /// An id on each line.
    Lines,
    /// The number of these lines.
    Count,
    /// The last of these lines first.
    Reverse,
}

/// What a line of a commit has.
#[derive(Clone, Copy)]
pub struct Line {
    /// The id.
    pub id: bool,
    /// Before it the committer's seconds and a space.
    pub time: bool,
    /// Behind it a space and the id of each parent.
    pub parents: bool,
    /// Behind these what it says of the commit.
    pub format: Format,
    /// The byte at its end.
    pub ending: u8,
}

/// What is written of a list of commits.
#[derive(Clone, Copy)]
pub struct Shown {
    /// No commit whose committer's seconds are above it.
    pub until: Option<i64>,
    /// Which commits, by their parents.
    pub merges: Merges,
    /// How many of these are left out first.
    pub skip: u64,
    /// How many of the others are written at most.
    pub limit: Option<u64>,
    /// How.
    pub form: Form,
    /// What a line has.
    pub line: Line,
}

/// What is written of the entries of a tree.
#[derive(Clone, Copy)]
pub struct EntryLines {
    /// How many lines at most.
    pub limit: Option<u64>,
    /// The byte at the end of each.
    pub ending: u8,
}

/// What is written of a list of commits, and the ids of its tips and of the commits that are hidden.
#[derive(Drop)]
pub struct Chosen {
    pub shown: Shown,
    pub tips: Vec<ObjectId>,
    pub hidden: Vec<ObjectId>,
}

/// What the words ask for.
pub enum Command {
    /// The commits that the tips reach and the hidden ones don't, in an order, and what is written of them.
    Commits {
        order: Order,
        shown: Shown,
        tips: Vec<ObjectId>,
        hidden: Vec<ObjectId>,
    },
    /// The entries of the tree of this id, and of the trees in it, and what is written of them.
    Files {
        shown: EntryLines,
        tree: ObjectId,
    },
    /// How many commits the one reaches and the other doesn't, and how many the other reaches and the one doesn't.
    Ahead {
        one: ObjectId,
        other: ObjectId,
    },
    /// Those of the ids that the tip reaches.
    Contained {
        tip: ObjectId,
        ids: Vec<ObjectId>,
    },
    /// Those of the tips that reach the target.
    Containing {
        target: ObjectId,
        tips: Vec<ObjectId>,
    },
    /// The best common ancestors of the one and of any of the others.
    Bases {
        one: ObjectId,
        others: Vec<ObjectId>,
    },
}

/// A call drops a command. Else each function that holds one would drop its parts, and so would its proof.
impl Drop for Command {
    fn drop(self) {
        match self {
            Command::Commits {
                order: _,
                shown: _,
                tips: _,
                hidden: _,
            } => {}
            Command::Files { shown: _, tree: _ } => {}
            Command::Ahead { one: _, other: _ } => {}
            Command::Contained { tip: _, ids: _ } => {}
            Command::Containing { target: _, tips: _ } => {}
            Command::Bases { one: _, others: _ } => {}
        }
    }
}

/// The command that the words are: `breadth`, `newest`, `oldest`, `topo` or `date`, maybe options, ids of tips, one at least, and ids of
/// commits to be hidden, each after a `^`; or `files`, maybe `-n` and a limit, maybe `-z`, and one id; or `ahead` and two ids; or
/// `contains`, `containing` or `merge-base` and two ids at least. The options come in this order, each at most once: `--first-parent` for
/// `breadth`, `topo` and `date`, or `--since` and a time for `newest` and `oldest`, `--until` and a time, `--merges` or `--no-merges`,
/// `--skip` and a number, `-n` and a limit, `--count` or `--reverse`, `--format` and a format or else `--timestamp`, `--parents`,
/// `--oneline`, `-z`. An id is 40 or 64 hex digits, a time 1 to 10 decimal digits, another number 1 to 9. A format has 128 bytes at most,
/// and each `%` in it begins a field: `%H`, `%h`, `%T`, `%P`, `%s`, `%an`, `%ae`, `%ct`, `%ci`, `%n` or `%%`.
///
/// # Errors
/// `Usage` where the words are no command, as where `files`, `ahead`, `contains`, `containing` or `merge-base` has a word that begins with `^` or `-`. `Id` at
/// the first word that has to be an id and is none. `Memory`.
pub fn read_command(alloc: Global, words: &[String]) -> Result<Command, Fault>
    ensures { Gives request_of_command result (request_of (map string_bytes words.now)) }
{
    let Some((name, ids)) = words.split_first() else {
        return Err(Fault::Usage);
    };
    if let Some(order) = order_named(name) {
        return in_order(alloc, order, ids);
    }
    if name.as_str() == "files" {
        return files(ids);
    }
    if name.as_str() == "ahead" {
        return ahead(ids);
    }
    if name.as_str() == "contains" {
        return contained(alloc, ids);
    }
    if name.as_str() == "containing" {
        return containing(alloc, ids);
    }
    if name.as_str() == "merge-base" {
        return bases(alloc, ids);
    }
    Err(Fault::Usage)
}

/// The order of the walk over commits that this is the name of.
fn order_named(name: &String) -> Option<Order>
    ensures { result ≡ order_named (string_bytes name.now) }
{
    if name.as_str() == "breadth" {
        return Some(in_simple_order(Sorting::BreadthFirst));
    }
    if name.as_str() == "newest" {
        let newest = Sorting::ByCommitTime(CommitTimeOrder::NewestFirst);
        return Some(in_simple_order(newest));
    }
    if name.as_str() == "oldest" {
        let oldest = Sorting::ByCommitTime(CommitTimeOrder::OldestFirst);
        return Some(in_simple_order(oldest));
    }
    if name.as_str() == "topo" {
        return Some(in_topo_order(gix_topo::Sorting::TopoOrder));
    }
    if name.as_str() == "date" {
        return Some(in_topo_order(gix_topo::Sorting::DateOrder));
    }
    None
}

/// The order through all parents.
fn in_simple_order(sorting: Sorting) -> Order
    ensures { result ≡ Order.Simple Parents.All sorting }
{
    Order::Simple {
        parents: Parents::All,
        sorting,
    }
}

/// The order through all parents in which no commit comes before its children.
fn in_topo_order(sorting: gix_topo::Sorting) -> Order
    ensures { result ≡ Order.Topo Parents.All sorting }
{
    Order::Topo {
        parents: Parents::All,
        sorting,
    }
}

/// The walk over commits that the words after the name of its order ask for: ids, maybe with an option and a limit before them.
fn in_order(alloc: Global, order: Order, words: &[String]) -> Result<Command, Fault>
    ensures { Gives request_of_command result (in_order_of order (map string_bytes words.now)) }
{
    let [option, behind @ ..] = words else {
        return listed(alloc, order, words, 2);
    };
    if option.as_str() == "--first-parent" {
        let Some(order) = by_first_parents(order) else {
            return Err(Fault::Usage);
        };
        return listed(alloc, order, behind, 3);
    }
    if option.as_str() == "--since" {
        return since(alloc, order, behind);
    }
    listed(alloc, order, words, 2)
}

/// The order, which has no option, through first parents alone.
fn by_first_parents(order: Order) -> Option<Order>
    ensures { result ≡ by_first_parents order }
{
    let parents = Parents::First;
    match order {
        Order::Simple {
            sorting: Sorting::BreadthFirst,
            ..
        } => Some(Order::Simple {
            parents,
            sorting: Sorting::BreadthFirst,
        }),
        Order::Topo { sorting, .. } => Some(Order::Topo { parents, sorting }),
        _ => None,
    }
}

/// The order, which has no option, without what is older than a time.
fn by_cutoff(seconds: i64, order: Order) -> Option<Order>
    ensures { result ≡ by_cutoff seconds order }
{
    match order {
        Order::Simple {
            parents,
            sorting: Sorting::ByCommitTime(order),
        } => Some(Order::Simple {
            parents,
            sorting: Sorting::ByCommitTimeCutoff { order, seconds },
        }),
        _ => None,
    }
}

/// The walk over commits that the words after the name of its order and `--since` ask for: a time, and ids, maybe with a limit before them.
fn since(alloc: Global, order: Order, words: &[String]) -> Result<Command, Fault>
    ensures { Gives request_of_command result (since_of order (map string_bytes words.now)) }
{
    let [seconds, behind @ ..] = words else {
        return Err(Fault::Usage);
    };
    let Some(seconds) = number_in(seconds, 10) else {
        return Err(Fault::Usage);
    };
    let Some(order) = by_cutoff(seconds as i64, order) else {
        return Err(Fault::Usage);
    };
    listed(alloc, order, behind, 4)
}

/// The walk over commits that these words ask for: options and ids. The first of them is the word of this number.
fn listed(alloc: Global, order: Order, words: &[String], number: usize) -> Result<Command, Fault>
    requires few { number ≤ 4 }
    ensures { Gives request_of_command result (listed_of order number (map string_bytes words.now)) }
{
    let chosen = until(alloc, words, number)?;
    Ok(Command::Commits {
        order,
        shown: chosen.shown,
        tips: chosen.tips,
        hidden: chosen.hidden,
    })
}

/// What these words choose: maybe `--until` and a time, further options, ids.
#[tactic(auto, unfolding(crate::specs::Words::until_of))]
fn until(alloc: Global, words: &[String], number: usize) -> Result<Chosen, Fault>
    requires few { number ≤ 4 }
    ensures { Gives asked_by result (until_of number (map string_bytes words.now)) }
{
    let Some(behind) = behind_option("--until", words) else {
        return by_merges(alloc, words, number);
    };
    let Some((seconds, behind)) = first_number(behind, 10) else {
        return Err(Fault::Usage);
    };
    let mut chosen = by_merges(alloc, behind, number + 2)?;
    chosen.shown.until = Some(seconds as i64);
    Ok(chosen)
}

/// What these words choose: maybe `--merges` or `--no-merges`, further options, ids.
#[tactic(auto, unfolding(crate::specs::Words::merges_of))]
fn by_merges(alloc: Global, words: &[String], number: usize) -> Result<Chosen, Fault>
    requires few { number ≤ 6 }
    ensures { Gives asked_by result (merges_of number (map string_bytes words.now)) }
{
    if let Some(behind) = behind_option("--merges", words) {
        let mut chosen = skipped(alloc, behind, number + 1)?;
        chosen.shown.merges = Merges::Only;
        return Ok(chosen);
    }
    let Some(behind) = behind_option("--no-merges", words) else {
        return skipped(alloc, words, number);
    };
    let mut chosen = skipped(alloc, behind, number + 1)?;
    chosen.shown.merges = Merges::No;
    Ok(chosen)
}

/// What these words choose: maybe `--skip` and a number, further options, ids.
#[tactic(auto, unfolding(crate::specs::Words::skipped_of))]
fn skipped(alloc: Global, words: &[String], number: usize) -> Result<Chosen, Fault>
    requires few { number ≤ 7 }
    ensures { Gives asked_by result (skipped_of number (map string_bytes words.now)) }
{
    let Some(behind) = behind_option("--skip", words) else {
        return limited(alloc, words, number);
    };
    let Some((skip, behind)) = first_number(behind, 9) else {
        return Err(Fault::Usage);
    };
    let mut chosen = limited(alloc, behind, number + 2)?;
    chosen.shown.skip = skip;
    Ok(chosen)
}

/// What these words choose: maybe `-n` and a limit, further options, ids.
#[tactic(auto, unfolding(crate::specs::Words::limited_of))]
fn limited(alloc: Global, words: &[String], number: usize) -> Result<Chosen, Fault>
    requires few { number ≤ 9 }
    ensures { Gives asked_by result (limited_of number (map string_bytes words.now)) }
{
    let Some(behind) = behind_option("-n", words) else {
        return formed(alloc, words, number);
    };
    let Some((limit, behind)) = first_number(behind, 9) else {
        return Err(Fault::Usage);
    };
    let mut chosen = formed(alloc, behind, number + 2)?;
    chosen.shown.limit = Some(limit);
    Ok(chosen)
}

/// What these words choose: maybe `--count` or `--reverse`, further options, ids.
#[tactic(auto, unfolding(crate::specs::Words::formed_of))]
fn formed(alloc: Global, words: &[String], number: usize) -> Result<Chosen, Fault>
    requires few { number ≤ 11 }
    ensures { Gives asked_by result (formed_of number (map string_bytes words.now)) }
{
    if let Some(behind) = behind_option("--count", words) {
        let mut chosen = formatted(alloc, behind, number + 1)?;
        chosen.shown.form = Form::Count;
        return Ok(chosen);
    }
    let Some(behind) = behind_option("--reverse", words) else {
        return formatted(alloc, words, number);
    };
    let mut chosen = formatted(alloc, behind, number + 1)?;
    chosen.shown.form = Form::Reverse;
    Ok(chosen)
}

/// What these words choose: maybe `--format` and a format, and then maybe `-z`, or else further options, and ids.
#[tactic(auto, unfolding(crate::specs::Words::formatted_of))]
fn formatted(alloc: Global, words: &[String], number: usize) -> Result<Chosen, Fault>
    requires few { number ≤ 12 }
    ensures { Gives asked_by result (formatted_of number (map string_bytes words.now)) }
{
    let Some(behind) = behind_option("--format", words) else {
        return timed(alloc, words, number);
    };
    let Some((format, behind)) = first_format(behind) else {
        return Err(Fault::Usage);
    };
    let mut chosen = ended(alloc, behind, number + 2)?;
    chosen.shown.line.id = false;
    chosen.shown.line.format = format;
    Ok(chosen)
}

/// What these words choose: maybe `--timestamp`, further options, ids.
#[tactic(auto, unfolding(crate::specs::Words::timed_of))]
fn timed(alloc: Global, words: &[String], number: usize) -> Result<Chosen, Fault>
    requires few { number ≤ 12 }
    ensures { Gives asked_by result (timed_of number (map string_bytes words.now)) }
{
    let Some(behind) = behind_option("--timestamp", words) else {
        return named(alloc, words, number);
    };
    let mut chosen = named(alloc, behind, number + 1)?;
    chosen.shown.line.time = true;
    Ok(chosen)
}

/// What these words choose: maybe `--parents`, further options, ids.
#[tactic(auto, unfolding(crate::specs::Words::named_of))]
fn named(alloc: Global, words: &[String], number: usize) -> Result<Chosen, Fault>
    requires few { number ≤ 13 }
    ensures { Gives asked_by result (named_of number (map string_bytes words.now)) }
{
    let Some(behind) = behind_option("--parents", words) else {
        return titled(alloc, words, number);
    };
    let mut chosen = titled(alloc, behind, number + 1)?;
    chosen.shown.line.parents = true;
    Ok(chosen)
}

/// What these words choose: maybe `--oneline`, a further option, ids.
#[tactic(auto, unfolding(crate::specs::Words::titled_of))]
fn titled(alloc: Global, words: &[String], number: usize) -> Result<Chosen, Fault>
    requires few { number ≤ 14 }
    ensures { Gives asked_by result (titled_of number (map string_bytes words.now)) }
{
    let Some(behind) = behind_option("--oneline", words) else {
        return ended(alloc, words, number);
    };
    let mut chosen = ended(alloc, behind, number + 1)?;
    chosen.shown.line.format = Format::subject();
    Ok(chosen)
}

/// What these words choose: maybe `-z`, and ids.
#[tactic(auto, unfolding(crate::specs::Words::ended_of))]
fn ended(alloc: Global, words: &[String], number: usize) -> Result<Chosen, Fault>
    requires few { number ≤ 15 }
    ensures { Gives asked_by result (ended_of number (map string_bytes words.now)) }
{
    let Some(behind) = behind_option("-z", words) else {
        return chosen_ids(alloc, words, number);
    };
    let mut chosen = chosen_ids(alloc, behind, number + 1)?;
    chosen.shown.line.ending = 0;
    Ok(chosen)
}

/// The words behind this option, where it is the first.
fn behind_option<'a>(option: &str, words: &'a [String]) -> Option<&'a [String]>
    ensures { option_map (λ behind. map string_bytes behind.now) result ≡ behind_option option.now (map string_bytes words.now) }
{
    match words {
        [first, behind @ ..] if first.as_str() == option => Some(behind),
        _ => None,
    }
}

/// The number of at most so many digits that the first word spells, and the words behind it.
fn first_number(words: &[String], digits: usize) -> Option<(u64, &[String])>
    requires few { digits ≤ 10 }
    ensures value { option_map (λ found. (found.0, map string_bytes found.1.now)) result ≡ first_number digits
        (map string_bytes words.now) }
    ensures small { IfSome result (λ found. found.0 ≤ 9999999999) }
{
    let [number, behind @ ..] = words else {
        return None;
    };
    let number = number_in(number, digits)?;
    Some((number, behind))
}

/// The format that the first word is, and the words behind it.
fn first_format(words: &[String]) -> Option<(Format, &[String])>
    ensures { option_map (λ found. (found.0, map string_bytes found.1.now)) result ≡ first_value format_of (map string_bytes words.now) }
{
    let [format, behind @ ..] = words else {
        return None;
    };
    let format = Format::read(format.as_bytes())?;
    Some((format, behind))
}

/// The number that 1 to so many decimal digits spell.
fn number_in(word: &String, most: usize) -> Option<u64>
    requires few { most ≤ 10 }
    ensures value { result ≡ number_in most (string_bytes word.now) }
    ensures small { IfSome result (λ n. n ≤ 9999999999) }
{
    number_of(word.as_bytes(), most)
}

/// The number that 1 to so many decimal digits spell.
fn number_of(digits: &[u8], most: usize) -> Option<u64>
    requires few { most ≤ 10 }
    ensures value { result ≡ number_in most digits.now }
    ensures small { IfSome result (λ n. n ≤ 9999999999) }
{
    if digits.is_empty() || digits.len() > most {
        return None;
    }
    let mut number = 0;
    for digit in digits {
        if !digit.is_ascii_digit() {
            return None;
        }
        number = 10 * number + u64::from(digit - b'0');
    }
    Some(number)
}

/// All that is listed from these ids, of which one at least must be a tip. The first of them is the word of this number.
fn chosen_ids(alloc: Global, ids: &[String], number: usize) -> Result<Chosen, Fault>
    requires few { number ≤ 16 }
    ensures { Gives asked_by result (plain_of number (map string_bytes ids.now)) }
{
    if are_hidden(ids) {
        return Err(Fault::Usage);
    }
    let (tips, hidden) = read_ids(alloc, ids, number)?;
    let shown = Shown {
        until: None,
        merges: Merges::Any,
        skip: 0,
        limit: None,
        form: Form::Lines,
        line: Line {
            id: true,
            time: false,
            parents: false,
            format: Format::none(),
            ending: b'\n',
        },
    };
    Ok(Chosen {
        shown,
        tips,
        hidden,
    })
}

/// The tree that the words behind `files` ask for: maybe `-n` and a limit, maybe `-z`, and an id.
fn files(words: &[String]) -> Result<Command, Fault>
    ensures { Tells request_of_command result (files_of (map string_bytes words.now)) }
{
    let [option, behind @ ..] = words else {
        return Err(Fault::Usage);
    };
    if option.as_str() == "-n" {
        return limited_files(behind);
    }
    ended_files(None, words, 2)
}

/// The tree that the words behind `files -n` ask for.
fn limited_files(words: &[String]) -> Result<Command, Fault>
    ensures { Tells request_of_command result (limited_files_of (map string_bytes words.now)) }
{
    let [number, behind @ ..] = words else {
        return Err(Fault::Usage);
    };
    let Some(limit) = number_in(number, 9) else {
        return Err(Fault::Usage);
    };
    ended_files(Some(limit), behind, 4)
}

/// The tree of this id, which must be alone behind `-z`, or without it. The first of these words is the word of this number.
fn ended_files(limit: Option<u64>, ids: &[String], number: usize) -> Result<Command, Fault>
    requires few { number ≤ 4 }
    ensures { Tells request_of_command result (ended_files_of limit number (map string_bytes ids.now)) }
{
    match ids {
        [tree] => {
            let ending = b'\n';
            file(EntryLines { limit, ending }, tree, number)
        }
        [option, tree] if option.as_str() == "-z" => {
            file(EntryLines { limit, ending: 0 }, tree, number + 1)
        }
        _ => Err(Fault::Usage),
    }
}

/// The tree of this id, which is the word of this number.
fn file(shown: EntryLines, tree: &String, number: usize) -> Result<Command, Fault>
    ensures { Tells request_of_command result (file_of shown number (string_bytes tree.now)) }
{
    if begins_with_sign(tree) {
        return Err(Fault::Usage);
    }
    match ObjectId::from_hex(tree.as_bytes()) {
        Ok(tree) => Ok(Command::Files { shown, tree }),
        Err(_) => Err(Fault::Id(number)),
    }
}

/// The two commits of these ids, which must be alone.
fn ahead(ids: &[String]) -> Result<Command, Fault>
    ensures { Tells request_of_command result (ahead_of (map string_bytes ids.now)) }
{
    let [one, other] = ids else {
        return Err(Fault::Usage);
    };
    if begins_with_sign(one) || begins_with_sign(other) {
        return Err(Fault::Usage);
    }
    let Ok(one) = ObjectId::from_hex(one.as_bytes()) else {
        return Err(Fault::Id(2));
    };
    let Ok(other) = ObjectId::from_hex(other.as_bytes()) else {
        return Err(Fault::Id(3));
    };
    Ok(Command::Ahead { one, other })
}

/// The tip of these ids, and the others, which it may contain.
fn contained(alloc: Global, ids: &[String]) -> Result<Command, Fault>
    ensures { Gives request_of_command result (asked Contained (several_of (map string_bytes ids.now))) }
{
    let SomeIds { first, others } = several(alloc, ids)?;
    Ok(Command::Contained {
        tip: first,
        ids: others,
    })
}

/// The target of these ids, and the others, which may contain it.
fn containing(alloc: Global, ids: &[String]) -> Result<Command, Fault>
    ensures { Gives request_of_command result (asked Containing (several_of (map string_bytes ids.now))) }
{
    let SomeIds { first, others } = several(alloc, ids)?;
    Ok(Command::Containing {
        target: first,
        tips: others,
    })
}

/// The commits of these ids, whose best common ancestors are asked for.
fn bases(alloc: Global, ids: &[String]) -> Result<Command, Fault>
    ensures { Gives request_of_command result (asked Bases (several_of (map string_bytes ids.now))) }
{
    let SomeIds { first, others } = several(alloc, ids)?;
    Ok(Command::Bases { one: first, others })
}

/// An id, and ids behind it.
#[derive(Drop)]
struct SomeIds {
    first: ObjectId,
    others: Vec<ObjectId>,
}

/// The commits of these ids, two at least.
fn several(alloc: Global, ids: &[String]) -> Result<SomeIds, Fault>
    ensures { Gives several_in result (several_of (map string_bytes ids.now)) }
{
    if ids.len() < 2 || !are_shown(ids) {
        return Err(Fault::Usage);
    }
    let (tips, _hidden) = read_ids(alloc, ids, 2)?;
    several_among(tips)
}

/// The first of the ids, and the others.
fn several_among(mut ids: Vec<ObjectId>) -> Result<SomeIds, Fault>
    ensures { Tells several_in result (several_among ids.items) }
{
    if ids.is_empty() {
        return Err(Fault::Usage);
    }
    let first = ids.remove(0);
    Ok(SomeIds { first, others: ids })
}

/// Whether no word names a commit that is to be hidden, or is an option.
fn are_shown(ids: &[String]) -> bool
    ensures { result ≡ list_all is_shown (map string_bytes ids.now) }
{
    for id in ids {
        if begins_with_sign(id) {
            return false;
        }
    }
    true
}

/// Whether each word names a commit that is to be hidden.
fn are_hidden(ids: &[String]) -> bool
    ensures { result ≡ list_all begins_with_caret (map string_bytes ids.now) }
{
    for id in ids {
        if !begins_with_caret(id) {
            return false;
        }
    }
    true
}

/// Whether the word names a commit that is to be hidden.
fn begins_with_caret(word: &String) -> bool
    ensures { result ≡ begins_with_caret (string_bytes word.now) }
{
    matches!(word.as_bytes(), [b'^', ..])
}

/// Whether the word is an option.
fn begins_with_dash(word: &String) -> bool
    ensures { result ≡ begins_with_dash (string_bytes word.now) }
{
    matches!(word.as_bytes(), [b'-', ..])
}

/// Whether the word is no id that a command takes which is no list.
fn begins_with_sign(word: &String) -> bool
    ensures { result ≡ begins_with_sign (string_bytes word.now) }
{
    begins_with_caret(word) || begins_with_dash(word)
}

/// The ids of tips that the words spell, and the ids of commits to be hidden. The first of these words is the word of this number.
fn read_ids(
    alloc: Global,
    words: &[String],
    number: usize,
) -> Result<(Vec<ObjectId>, Vec<ObjectId>), Fault>
    requires few { number ≤ 16 }
    ensures { Gives (λ ids. (ids.0.items, ids.1.items)) result (ids_from number (map string_bytes words.now)) }
{
    let mut tips = Vec::new(alloc);
    let mut hidden = Vec::new(alloc);
    for (i, word) in words.iter().enumerate() {
        match word.as_bytes() {
            [b'^', digits @ ..] => add_id(&mut hidden, digits, i + number)?,
            digits => add_id(&mut tips, digits, i + number)?,
        }
    }
    Ok((tips, hidden))
}

/// Adds the id that the digits of the word of this number spell.
fn add_id(ids: &mut Vec<ObjectId>, digits: &[u8], number: usize) -> Result<(), Fault>
    ensures { AddsId digits.now number ids.old.items result ids.new.items }
{
    let Ok(id) = ObjectId::from_hex(digits) else {
        return Err(Fault::Id(number));
    };
    ids.push(id).map_err(AllocError::from)?;
    Ok(())
}
