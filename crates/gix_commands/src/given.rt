//! A run over records that are in memory.

ghost use Rattle.std.specs.Prelude.{◌≡◌, ◌≢◌, ℕ, List, [], map, Some, Ok, Err, string_bytes};
ghost use Rattle.gix_records.specs.Records.{Record, AreRecords};
ghost use Rattle.gix_commands.specs.Run.{Runs};
ghost use Rattle.gix_statement.specs.WholeStatement.{AreFed, Objects, Promises, Row};
ghost use Rattle.gix_words.specs.Words.{request_of, request_of_command};

use crate::serve;
use gix_hash::Keys;
use gix_words::{Command, Fault, read_command};
use std::alloc::Global;
use std::io::Write;

/// Runs the command that the words are, as [`run`](crate::run) does, over records that are in memory. The walk reads them where they are:
/// only the objects that it looks up are copied, one at a time.
///
/// # Errors
/// Those of [`run`](crate::run), but never `Read`.
pub fn run_in<W: Write>(
    alloc: Global,
    keys: Keys,
    words: &[String],
    records: &[u8],
    writer: &mut W,
) -> Result<(), Fault>
    ensures runs { Runs (map string_bytes words.now) (Some records.now) (W.contents writer.old) result (W.contents writer.new) }
    ensures given { result ≢ Err Fault.Read }
    // Bytes that are records are never rejected.
    ensures spelled { (those : List Record) (n : ℕ) → AreRecords those records.now → result ≢ Err (Fault.Record n) }
    ensures sound { result ≢ Err Fault.Internal }
    // What was written, from lists of bytes up, by a run that ended well or that failed.
    ensures whole { Promises Fault.Write (map string_bytes words.now)
        (λ (objects : Objects) (rows : List Row). AreFed (Some records.now) objects × (rows ≡ [])) (W.contents writer.old) result
        (W.contents writer.new) }
{
    let command = read_command(alloc, words)?;
    serve_records(alloc, keys, &command, records, writer)
}

/// Writes what a command asks for over the records that the bytes are.
///
/// # Errors
/// `Record` where the bytes aren't records, the faults of a walk, `Memory` and `Write`.
pub(crate) fn serve_records<W: Write>(
    alloc: Global,
    keys: Keys,
    command: &Command,
    records: &[u8],
    writer: &mut W,
) -> Result<(), Fault>
    ensures runs { (words : List (List ℕ)) → request_of words ≡ Ok (request_of_command command.now)
        → Runs words (Some records.now) (W.contents writer.old) result (W.contents writer.new) }
    ensures given { result ≢ Err Fault.Read }
{
    let store = gix_records::records_in(alloc, keys, records)?;
    serve(alloc, command, &store, None, writer)
}
