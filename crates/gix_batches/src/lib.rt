//! Commits in batches: a list command over records or named objects in memory, whose commits are put into slices that the caller has.
//!
//! [`batch_in`] and [`batch_named`] skip commits and give the next: of each its id, its parents, its time. What they are is stated by the
//! clause `whole` of each, in the words of the page of `gix_statement`. Nothing is kept between two calls; that batches one behind another
//! are the list is a law of [`laws`].
#![tactic(auto)]

ghost use Rattle.std.specs.Prelude.{◌≡◌, ◌≢◌, ℕ, List, [], map, Some, Ok, Err, IfOk, IfErr, string_bytes};
ghost use Rattle.gix_commands.specs.Pages.{page_objects};
ghost use Rattle.gix_commands.specs.Readable.{readable, reads_all_lines};
ghost use Rattle.gix_commands.specs.Run.{ServesOver};
ghost use Rattle.gix_graph_store.specs.WithRows.{with_rows};
ghost use Rattle.gix_statement.specs.WholeStatement.{AreFed, AreNamed, Objects};
ghost use Rattle.gix_words.specs.Words.{Commits, request_of, request_of_command};
ghost use Rattle.gix_batches.specs.Batches.{Promises};
ghost use Rattle.gix_batches.specs.Failing.{Fails, FailsOver, IfFailed, all_lines_to};
ghost use Rattle.gix_batches.specs.Walks.{FillsBy};

mod commit;
mod fill;
pub mod laws;
mod listing;

pub use commit::{Batch, Commit, CommitId, Ending};
use fill::fill_from;
use gix_commands::checked::Checked;
use gix_commands::commits::{topo_walk_from, walk_from};
use gix_hash::Keys;
use gix_object::memory::MemoryStore;
use gix_records::{NamedObjects, records_in};
use gix_simple::Sorting;
use gix_words::{Command, Fault, Order, read_command};
use listing::Listing;
pub use listing::are_all_lines;
use std::alloc::Global;

/// Runs a list command over records that are in memory, and puts the commits behind those that are skipped at the front of the slices, as
/// many as both have room for: each commit with its id and its time, and the ids of its parents in their order. The words are those of
/// [`run_in`](gix_commands::run_in) for `breadth`, `newest`, `oldest`, `topo` and `date`, without `--until`, `--merges`, `--no-merges`, `--skip`,
/// `--count`, `--reverse`, `--timestamp`, `--parents` and `-z`; a limit in them counts those that are skipped.
///
/// Nothing is drawn behind a slice that is full, and behind the limit. By time a commit's parents are looked at as `run_in` does.
///
/// Tables of ids have the keys [`Keys::KNOWN`], so whoever chooses the records' ids can make the call slow.
///
/// # Errors
/// In the batch's ending: the faults of `run_in` but `Read` and `Write`, and `Usage` where the words are another command or have another
/// option. The commits before a fault of the walk are given. The rest of both slices is as it was.
pub fn batch_in(
    alloc: Global,
    words: &[String],
    records: &[u8],
    skip: u64,
    commits: &mut [Commit],
    parents: &mut [CommitId],
) -> Batch
    // What the slices hold, from lists of bytes up.
    ensures whole { Promises (map string_bytes words.now) (AreFed (Some records.now)) skip commits.old commits.new parents.old parents.new
        result }
    ensures fails { IfFailed (Fails (map string_bytes words.now) records.now) result.ending }
{
    match try_batch(alloc, words, records, skip, commits, parents) {
        Ok(batch) => batch,
        Err(fault) => Batch {
            commits: 0,
            parents: 0,
            ending: Ending::Failed(fault),
        },
    }
}

/// The same of a command, over objects that were compared with their ids, as those of a repository.
///
/// # Errors
/// Those of [`batch_in`], but never `Id` and `Record`.
pub fn batch_named(
    alloc: Global,
    command: &Command,
    objects: &NamedObjects,
    skip: u64,
    commits: &mut [Commit],
    parents: &mut [CommitId],
) -> Batch
    // What the slices hold, from lists of bytes up: it is right of these objects, each of whose ids is the hash of its object.
    ensures whole { (words : List (List ℕ)) → request_of words ≡ Ok (request_of_command command.now) → Promises words (λ (given : Objects). AreNamed given × (given ≡ page_objects objects.now)) skip
        commits.old commits.new parents.old parents.new result }
    // The same in the words of the page alone.
    ensures named { (words : List (List ℕ)) → request_of words ≡ Ok (request_of_command command.now) → Promises words AreNamed skip commits.old commits.new parents.old parents.new result }
    ensures fails { (words : List (List ℕ)) → request_of words ≡ Ok (request_of_command command.now)
        → IfFailed (FailsOver (request_of_command command.now) objects.now) result.ending }
{
    match try_named(alloc, command, objects, skip, commits, parents) {
        Ok(batch) => batch,
        Err(fault) => Batch {
            commits: 0,
            parents: 0,
            ending: Ending::Failed(fault),
        },
    }
}

/// As [`batch_in`]. At a fault before the first step of a walk nothing is put.
fn try_batch(
    alloc: Global,
    words: &[String],
    records: &[u8],
    skip: u64,
    commits: &mut [Commit],
    parents: &mut [CommitId],
) -> Result<Batch, Fault>
    ensures whole { IfOk result (Promises (map string_bytes words.now) (AreFed (Some records.now)) skip commits.old commits.new parents.old
        parents.new) }
    ensures ending { IfOk result (λ batch. IfFailed (Fails (map string_bytes words.now) records.now) batch.ending) }
    ensures fails { IfErr result (Fails (map string_bytes words.now) records.now) }
    ensures commits_stay { IfErr result (λ e. commits.new ≡ commits.old) }
    ensures parents_stay { IfErr result (λ e. parents.new ≡ parents.old) }
{
    let command = read_command(alloc, words)?;
    let listing = Listing::of(alloc, &command)?;
    let store = records_in(alloc, Keys::KNOWN, records)?;
    batch_of(alloc, listing, &store, skip, commits, parents)
}

/// As [`batch_named`]. At a fault before the first step of a walk nothing is put.
fn try_named(
    alloc: Global,
    command: &Command,
    objects: &NamedObjects,
    skip: u64,
    commits: &mut [Commit],
    parents: &mut [CommitId],
) -> Result<Batch, Fault>
    ensures whole { (words : List (List ℕ)) → request_of words ≡ Ok (request_of_command command.now) → IfOk result (Promises words
        (λ (given : Objects). AreNamed given × (given ≡ page_objects objects.now)) skip commits.old commits.new parents.old parents.new) }
    ensures ending { (words : List (List ℕ)) → request_of words ≡ Ok (request_of_command command.now)
        → IfOk result (λ batch. IfFailed (FailsOver (request_of_command command.now) objects.now) batch.ending) }
    ensures fails { (words : List (List ℕ)) → request_of words ≡ Ok (request_of_command command.now)
        → IfErr result (FailsOver (request_of_command command.now) objects.now) }
    ensures commits_stay { IfErr result (λ e. commits.new ≡ commits.old) }
    ensures parents_stay { IfErr result (λ e. parents.new ≡ parents.old) }
{
    let listing = Listing::of(alloc, command)?;
    batch_of(alloc, listing, objects.store(), skip, commits, parents)
}

/// Fills the slices from the walk that a list asks for, over what is stored.
///
/// # Errors
/// The walk can't start. Nothing is put.
fn batch_of(
    alloc: Global,
    listing: Listing,
    store: &MemoryStore<'_>,
    skip: u64,
    commits: &mut [Commit],
    parents: &mut [CommitId],
) -> Result<Batch, Fault>
    ensures ok { IfOk result (λ batch. FillsBy
        (readable (reads_all_lines (Commits listing.order (all_lines_to listing.limit) listing.ends.tips.items listing.ends.hidden.items))
        (with_rows [] store.now)) listing.limit listing.ends.tips.items listing.ends.hidden.items skip commits.old commits.new parents.old parents.new
        batch listing.order) }
    ensures err { IfErr result (λ e. ServesOver store.now [] (Some [])
        (Commits listing.order (all_lines_to listing.limit) listing.ends.tips.items listing.ends.hidden.items) (Err e) (Some [])) }
    ensures unwritten { IfErr result (λ e. e ≢ Fault.Write) }
    ensures commits_stay { IfErr result (λ e. commits.new ≡ commits.old) }
    ensures parents_stay { IfErr result (λ e. parents.new ≡ parents.old) }
{
    let Listing { order, limit, ends } = listing;
    match order {
        Order::Simple {
            parents: through,
            sorting,
        } => {
            let walk = walk_from(alloc, through, sorting, ends, store, None)?;
            if let Sorting::BreadthFirst = sorting {
                return Ok(fill_from(walk, limit, skip, commits, parents));
            }
            let checked = Checked::new(alloc, walk, through, store, None);
            Ok(fill_from(checked, limit, skip, commits, parents))
        }
        Order::Topo {
            parents: through,
            sorting,
        } => {
            let walk = topo_walk_from(alloc, through, sorting, ends, store, None)?;
            Ok(fill_from(walk, limit, skip, commits, parents))
        }
    }
}
