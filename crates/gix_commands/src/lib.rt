//! The commands of the program: which commits some commits reach, and which files a tree holds, from a stream of a repository's objects
//! to a line for each.
//!
//! [`answer`] takes a [`Command`], objects that were compared with their ids, rows, and a writer. [`run`] takes the words of a command, a
//! reader of records and a writer; [`run_in`] takes records in memory in place of a reader, and [`run_over`] also takes the files of a
//! commit-graph. What they write is stated by the clause `whole` of each, and by the laws of [`laws`].
#![tactic(auto)]

ghost use Rattle.std.specs.Prelude.{◌≡◌, ◌≢◌, ℕ, List, [], map, Some, Err, string_bytes};
ghost use Rattle.gix_records.specs.Records.{Record, AreRecords};
ghost use Rattle.gix_commands.specs.Run.{Runs, ServesOver};
ghost use Rattle.gix_statement.specs.WholeStatement.{AreFed, Objects, Promises, Row};
ghost use Rattle.gix_words.specs.Words.{Commits, request_of, request_of_command};
ghost use Rattle.gix_revwalk.specs.Agreeing.{rows_in};

mod ahead;
mod bases;
pub mod checked;
mod chosen;
pub mod commits;
mod containing;
mod contains;
mod digits;
mod files;
mod given;
mod graph;
pub mod laws;
mod listed;
mod output;
mod over;
mod stored;
mod texts;

use ahead::write_ahead;
use bases::write_bases;
use checked::Checked;
use chosen::Chooser;
use commits::{Ends, topo_walk_from, walk_from};
use containing::write_containing;
use contains::write_contained;
use files::write_files;
pub use given::run_in;
use given::serve_records;
use gix_commitgraph::Graph;
use gix_hash::{Keys, ObjectId};
use gix_object::memory::MemoryStore;
use gix_revwalk::Parents;
use gix_simple::Sorting;
pub use gix_words::Fault;
use gix_words::{Command, Order, Shown, read_command};
pub use graph::read_graph;
pub use listed::listed_ids;
use output::write_commits;
pub use over::run_over;
use std::alloc::Global;
use std::io::{Read, Write};
pub use stored::answer;

/// Runs the command that the words are over the records that the reader gives. The words are tested first, then the input is read
/// whole, then the walk runs.
///
/// `breadth`, `newest` and `oldest` write the id of each commit that the tips reach and the hidden tips don't, one a line: in the order in
/// which commits are met, or in one by time. `topo` and `date` do this in an order in which no commit comes before its children. Options
/// come behind the order's name, in the order in which they are here. `breadth`, `topo` and `date` with `--first-parent` go from each
/// commit to its first parent alone, and `newest` and `oldest` with `--since` and a number leave out tips and parents whose committer's
/// seconds are below it, and what they would meet by these alone. `--until` and a number leave out the lines of commits whose committer's
/// seconds are above it, `--merges` those of commits with fewer than two parents, and `--no-merges` those of commits with more than one.
/// `--skip` and a number leave out the first lines of these, and `-n` and a number those behind as many; behind the last nothing is read.
/// With `--reverse` the last of these lines comes first, and with `--count` one line says how many they are. With `--timestamp` a line
/// begins with the committer's seconds and a space, with `--parents` a space and the id of each parent follow its id, with `--oneline` a space
/// and the commit's subject are behind these, and with `-z` a byte 0 is at its end. With `--format` and a format, without these but `-z`, it
/// is what the format says, and the id isn't before that. `files` writes the mode, the id and the path of each
/// entry of the tree and of the trees in it, one a line, and with `-n` and a number the first of these lines alone, though it reads all
/// trees. `ahead` writes how many commits the first id reaches and the second doesn't, a space, and how many the second reaches and the
/// first doesn't. `contains` writes those of its further ids that the first reaches, in the order given, one a line, and `containing` those
/// that reach the first. `merge-base` writes the best common ancestors of the first id and of any of the others, in rising order: what these
/// reach, and no other such commit reaches.
///
/// # Errors
/// `Usage` and `Id` where the words are no command, `Read` where the reader fails or gives no end when it is asked for the last time,
/// `Record` where the input isn't records: nothing is written. `Missing`, `WrongKind` and `Broken` where the walk meets such an object,
/// or in an order by time such a parent of the commit that it gave last, `Cycle` where it meets a tree that is under itself, and
/// `Memory`: the lines of the commits before are written, and nothing with `--reverse` and `--count`, and of `files`, `ahead`, `contains`,
/// `containing` and `merge-base`. `Name` where a tree has a name that is empty or holds `/`, and `Entries` where `files` without `-n` would
/// write more than 268,435,456 lines: nothing is written. `Write` where the writer fails, or takes nothing: a beginning of the lines is
/// written, which may end within a line.
///
/// A commit without a byte is `Broken`, and with `--first-parent` one is of which a line of a parent isn't sound, be it of another parent.
pub fn run<R: Read, W: Write>(
    alloc: Global,
    keys: Keys,
    words: &[String],
    reader: &mut R,
    writer: &mut W,
) -> Result<(), Fault>
    ensures runs { Runs (map string_bytes words.now) (R.remaining reader.old) (W.contents writer.old) result (W.contents writer.new) }
    // Words that are no command are rejected before anything is read.
    ensures unread { (e : Fault) → request_of (map string_bytes words.now) ≡ Err e → reader.new ≡ reader.old }
    // Input that is records is never rejected.
    ensures spelled { (input : List ℕ) (records : List Record) (n : ℕ) → R.remaining reader.old ≡ Some input → AreRecords records input
        → result ≢ Err (Fault.Record n) }
    ensures sound { result ≢ Err Fault.Internal }
    // What was written, from lists of bytes up, by a run that ended well or that failed: this is all that a reader has to believe of it.
    ensures whole { Promises Fault.Write (map string_bytes words.now)
        (λ (objects : Objects) (rows : List Row). AreFed (R.remaining reader.old) objects × (rows ≡ [])) (W.contents writer.old) result
        (W.contents writer.new) }
{
    let command = read_command(alloc, words)?;
    let input = gix_records::read_to_end(alloc, reader, gix_records::READS)?;
    serve_records(alloc, keys, &command, input.as_slice(), writer)
}

/// Writes what a command asks for.
fn serve<W: Write>(
    alloc: Global,
    command: &Command,
    store: &MemoryStore<'_>,
    graph: Option<&Graph>,
    writer: &mut W,
) -> Result<(), Fault>
    ensures { ServesOver store.now (rows_in graph.entry) (W.contents writer.old)
        (request_of_command command.now) result (W.contents writer.new) }
{
    match command {
        Command::Commits {
            order,
            shown,
            tips,
            hidden,
        } => {
            let ends = Ends::of(alloc, tips.as_slice(), hidden.as_slice())?;
            let listing = Listing {
                order: *order,
                shown: *shown,
                ends,
            };
            serve_commits(alloc, listing, store, graph, writer)
        }
        Command::Files { shown, tree } => write_files(alloc, *shown, *tree, store, graph, writer),
        Command::Ahead { one, other } => write_ahead(alloc, *one, *other, store, graph, writer),
        Command::Contained { tip, ids } => {
            write_contained(alloc, *tip, ids.as_slice(), store, graph, writer)
        }
        Command::Containing { target, tips } => {
            write_containing(alloc, *target, tips.as_slice(), store, graph, writer)
        }
        Command::Bases { one, others } => {
            write_bases(alloc, *one, others.as_slice(), store, graph, writer)
        }
    }
}

/// A list of commits that is asked for.
#[derive(Drop)]
struct Listing {
    order: Order,
    shown: Shown,
    ends: Ends,
}

/// Writes what is chosen of the commits that the tips reach and the hidden tips don't. By time, each of them behind which more is asked for
/// has to have its parents. If lines have a format, each has to be stored, be there a row of it or not.
fn serve_commits<W: Write>(
    alloc: Global,
    listing: Listing,
    store: &MemoryStore<'_>,
    graph: Option<&Graph>,
    writer: &mut W,
) -> Result<(), Fault>
    ensures { ServesOver store.now (rows_in graph.entry) (W.contents writer.old)
        (Commits listing.order listing.shown listing.ends.tips.items listing.ends.hidden.items) result (W.contents writer.new) }
{
    let Listing { order, shown, ends } = listing;
    match order {
        Order::Simple { parents, sorting } => {
            let walk = walk_from(alloc, parents, sorting, ends, store, graph)?;
            let chooser = Chooser::new(alloc, shown, parents, store, graph);
            if let Sorting::BreadthFirst = sorting {
                return write_commits(alloc, walk, chooser, writer);
            }
            let checked = Checked::new(alloc, walk, parents, store, graph);
            write_commits(alloc, checked, chooser, writer)
        }
        Order::Topo { parents, sorting } => {
            let walk = topo_walk_from(alloc, parents, sorting, ends, store, graph)?;
            let chooser = Chooser::new(alloc, shown, Parents::All, store, graph);
            write_commits(alloc, walk, chooser, writer)
        }
    }
}
