//! The answer to a question that is a value, over objects and rows that are there.

ghost use Rattle.std.specs.Prelude.{◌≡◌, ◌≢◌, ℕ, List, [], None, Ok, Err, OnOk, IfErr};
ghost use Rattle.gix_commitgraph.specs.Packed.{AreGraphRows};
ghost use Rattle.gix_graph_check.specs.Sound.{AreSound};
ghost use Rattle.gix_graph_store.specs.Laws.{StoredAgree};
ghost use Rattle.gix_graph_store.specs.StoredRows.{StoredDisagrees};
ghost use Rattle.gix_graph_store.specs.WithRows.{with_rows};
ghost use Rattle.gix_revwalk.specs.Agreeing.{IsAgreeing, rows_in};
ghost use Rattle.gix_statement.specs.CommitGraph.{AreLayers};
ghost use Rattle.gix_statement.specs.WholeStatement.{AreNamed, Objects, Promises, Row};
ghost use Rattle.gix_commands.specs.Opening.{AreReadFrom};
ghost use Rattle.gix_commands.specs.PageObjects.{page_objects};
ghost use Rattle.gix_commands.specs.Pages.{AreRows};
ghost use Rattle.gix_commands.specs.StoredRuns.{FailsToAgree, RunsStored};
ghost use Rattle.gix_commands.specs.Walked.{never_faulty};
ghost use Rattle.gix_words.specs.Words.{request_of, request_of_command};

use crate::serve;
use gix_commitgraph::Graph;
use gix_graph_check::{Disagreement, first_unsound};
use gix_graph_store::{agree_at, check_stored};
use gix_object::memory::MemoryStore;
use gix_records::NamedObjects;
use gix_words::{Command, Fault};
use std::alloc::Global;
use std::io::Write;

/// How many rows there are for each object where objects are few: a row costs less than an object, which is searched for among the rows.
const FEW: usize = 4;

/// Writes what a command asks for, as [`run`](crate::run) does, over objects that were compared with their ids, as those of a repository, and
/// over the rows of a commit-graph where there is one. Only commits that have no row need to be among the objects, and with a format also
/// those that are listed, since no row has a text.
///
/// The rows are tested first, then the objects are compared with them, then the walk runs. What the lines are is said of any words that ask
/// for the command, from lists of bytes up.
///
/// # Errors
/// Those of [`run_over`](crate::run_over), but never `Usage`, `Id`, `Read`, `Record` and `Graph`.
pub fn answer<W: Write>(
    alloc: Global,
    command: &Command,
    objects: &NamedObjects,
    graph: Option<&Graph>,
    writer: &mut W,
) -> Result<(), Fault>
    ensures runs { RunsStored (request_of_command command.now) objects.now (rows_in graph.entry) (W.contents writer.old) result
        (W.contents writer.new) }
    ensures sound { result ≢ Err Fault.Internal }
    // Over rows that `read_graph` gives, the lines are right of these objects, each of whose ids is the hash of its object, and of the rows
    // in the files.
    ensures whole { (words layers : List (List ℕ)) → request_of words ≡ Ok (request_of_command command.now)
        → AreReadFrom layers (rows_in graph.entry) → Promises Fault.Write words
        (λ (given : Objects) (rows : List Row). AreNamed given × (given ≡ page_objects objects.now) × AreLayers [] layers [] rows)
        (W.contents writer.old) result (W.contents writer.new) }
    // The same without a commit-graph.
    ensures named { (words : List (List ℕ)) → request_of words ≡ Ok (request_of_command command.now) → graph.entry ≡ None
        → Promises Fault.Write words
        (λ (given : Objects) (rows : List Row). AreNamed given × (given ≡ page_objects objects.now) × (rows ≡ [])) (W.contents writer.old)
        result (W.contents writer.new) }
    // And over any rows.
    ensures over { (words : List (List ℕ)) → request_of words ≡ Ok (request_of_command command.now) → Promises Fault.Write words
        (λ (given : Objects) (rows : List Row). AreNamed given × (given ≡ page_objects objects.now) × AreRows (rows_in graph.entry) rows)
        (W.contents writer.old) result (W.contents writer.new) }
{
    let store = objects.store();
    check_rows(alloc, store, graph)?;
    serve(alloc, command, store, graph, writer)
}

/// Tests that the rows, if there are any, can be used together with the store.
///
/// # Errors
/// Those of `check_graph`.
fn check_rows(alloc: Global, store: &MemoryStore<'_>, graph: Option<&Graph>) -> Result<(), Fault>
    ensures graph { OnOk result (AreGraphRows (rows_in graph.entry)) }
    ensures sound { OnOk result (AreSound (rows_in graph.entry)) }
    ensures stored { OnOk result (StoredAgree (rows_in graph.entry) store.now) }
    ensures agrees { OnOk result (IsAgreeing (with_rows (rows_in graph.entry) store.now) (rows_in graph.entry)) }
    ensures fault { IfErr result (FailsToAgree (rows_in graph.entry) store.now) }
{
    match graph {
        Some(graph) => check_graph(alloc, store, graph),
        None => Ok(()),
    }
}

/// Tests that the rows can be used together with the store.
///
/// # Errors
/// `Row` with the id of the first row, in rising order of ids, that isn't sound. `Disagrees` with that of the first row at whose id the
/// store has something else. `Memory`.
fn check_graph(alloc: Global, store: &MemoryStore<'_>, graph: &Graph) -> Result<(), Fault>
    ensures graph { OnOk result (AreGraphRows graph.now) }
    ensures sound { OnOk result (AreSound graph.now) }
    ensures stored { OnOk result (StoredAgree graph.now store.now) }
    ensures agrees { OnOk result (IsAgreeing (with_rows graph.now store.now) graph.now) }
    ensures fault { IfErr result (FailsToAgree graph.now store.now) }
{
    if graph.num_commits() == 0 {
        return Ok(());
    }
    if let Some(id) = first_unsound(graph) {
        return Err(Fault::Row(id));
    }
    check_store(alloc, graph, store)?;
    Ok(())
}

/// Tests that each object that is stored at the id of a row is the commit that the row says, as [`check_stored`] does. Of few objects each is
/// looked at, and all rows only if one doesn't agree, since the fault is that of the first row.
///
/// # Errors
/// Those of [`check_stored`].
pub(crate) fn check_store(
    alloc: Global,
    graph: &Graph,
    store: &MemoryStore<'_>,
) -> Result<(), Disagreement>
    ensures agrees { OnOk result (StoredAgree graph.now store.now) }
    ensures disagrees { IfErr result (StoredDisagrees store.now (never_faulty store.now) graph.now) }
{
    if store.len() < graph.num_commits() as usize / FEW {
        if let Ok(ids) = store.ids(alloc) {
            if agree_at(alloc, graph, store, ids.as_slice()) {
                return Ok(());
            }
        }
    }
    check_stored(alloc, graph, store)
}
