//! A run over a commit-graph.

ghost use Rattle.std.specs.Prelude.{◌≡◌, ◌≢◌, ℕ, List, [], map, Some, Err, string_bytes, vec_items};
ghost use Rattle.gix_records.specs.Records.{Record, AreRecords};
ghost use Rattle.gix_graph_file.specs.ChainSteps.{layers_seen};
ghost use Rattle.gix_statement.specs.CommitGraph.{AreLayers};
ghost use Rattle.gix_statement.specs.WholeStatement.{AreFed, Objects, Promises, Row};
ghost use Rattle.gix_commands.specs.Opening.{IsOpeningFault};
ghost use Rattle.gix_commands.specs.Run.{RunsOver};
ghost use Rattle.gix_words.specs.Words.{request_of};

use crate::graph::open;
use crate::serve;
use crate::stored::check_store;
use gix_hash::Keys;
use gix_words::{Fault, read_command};
use std::alloc::Global;
use std::io::{Read, Write};

/// Runs the command that the words are, as [`run`](crate::run) does, over the layers of a commit-graph and the records. A layer is the
/// bytes of a file that Git writes, the lowest comes first, and a file that is no part of a chain is one layer. Only commits that have no
/// row need to be among the records: of any other the row says its tree, its parents and the seconds of its committer. Walks read a commit
/// with a row by the row. No row has what `--oneline` and `--format` write, so with these each commit that is listed needs to be among the
/// records.
///
/// The words are tested first, then the rows, then the input is read whole and compared with the rows, then the walk runs.
///
/// # Errors
/// Those of [`run`](crate::run). Behind faults of the words, `Graph` where the layers are no commit-graph, and `Row` where a row can't be
/// used without a store: of the input nothing is read. Before faults of the walk, `Disagrees` where a record has the id of a row and isn't the commit that the row says.
/// Nothing is written at any of the three.
pub fn run_over<R: Read, W: Write>(
    alloc: Global,
    keys: Keys,
    words: &[String],
    layers: &[Vec<u8>],
    reader: &mut R,
    writer: &mut W,
) -> Result<(), Fault>
    ensures runs { RunsOver (map string_bytes words.now) (layers_seen layers.now) (R.remaining reader.old) (W.contents writer.old) result
        (W.contents writer.new) }
    // Words that are no command are rejected before anything is read.
    ensures unread { (e : Fault) → request_of (map string_bytes words.now) ≡ Err e → reader.new ≡ reader.old }
    // Of the input nothing is read where the layers can't be opened.
    ensures unopened { (e : Fault) → result ≡ Err e → IsOpeningFault e → reader.new ≡ reader.old }
    // Input that is records is never rejected.
    ensures spelled { (input : List ℕ) (records : List Record) (n : ℕ) → R.remaining reader.old ≡ Some input → AreRecords records input
        → result ≢ Err (Fault.Record n) }
    ensures sound { result ≢ Err Fault.Internal }
    // What was written, from lists of bytes up: it is right of the records and of the rows in the files, whatever else there is.
    ensures whole { Promises Fault.Write (map string_bytes words.now)
        (λ (objects : Objects) (rows : List Row). AreFed (R.remaining reader.old) objects × AreLayers [] (map vec_items layers.now) [] rows)
        (W.contents writer.old) result (W.contents writer.new) }
{
    let command = read_command(alloc, words)?;
    let graph = open(alloc, layers)?;
    let input = gix_records::read_to_end(alloc, reader, gix_records::READS)?;
    let store = gix_records::records_in(alloc, keys, input.as_slice())?;
    check_store(alloc, &graph, &store)?;
    serve(alloc, &command, &store, Some(&graph), writer)
}
