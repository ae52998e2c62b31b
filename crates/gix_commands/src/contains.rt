//! Which of some commits a commit contains.
ghost use Rattle.std.specs.Prelude.{◌≡◌, IfOk};
ghost use Rattle.std.specs.List.{flat_map};
ghost use Rattle.gix_commands.specs.Run.{ServesOver};
ghost use Rattle.gix_commands.specs.Walked.{line_of};
ghost use Rattle.gix_words.specs.Words.{Contained};
ghost use Rattle.gix_revwalk.specs.Agreeing.{rows_in};

use crate::commits::Lent;
use crate::digits::add_id;
use crate::output::write_out;
use gix_commitgraph::Graph;
use gix_contained::contained;
use gix_hash::ObjectId;
use gix_object::memory::MemoryStore;
use gix_revwalk::Parents;
use gix_words::Fault;
use std::alloc::{AllocError, Global};
use std::io::Write;

/// Writes those of the ids that the tip reaches, in the order given, one a line, once all of them are known.
///
/// # Errors
/// The fault of the first commit that can't be read of those that have to be, and `Memory`: nothing is written. `Write` where the writer
/// failed: a beginning of the lines is.
pub fn write_contained<W: Write>(
    alloc: Global,
    tip: ObjectId,
    ids: &[ObjectId],
    store: &MemoryStore<'_>,
    graph: Option<&Graph>,
    writer: &mut W,
) -> Result<(), Fault>
    ensures { ServesOver store.now (rows_in graph.entry) (W.contents writer.old) (Contained tip ids.now) result (W.contents writer.new) }
{
    let objects = Lent::over(store, graph, Parents::All);
    let those = contained(alloc, &[tip], ids, &objects, graph)?;
    let mut lines = lines_of(alloc, those.as_slice())?;
    write_out(&mut lines, writer)
}

/// The ids in hex digits, one a line.
pub fn lines_of(alloc: Global, ids: &[ObjectId]) -> Result<Vec<u8>, AllocError>
    ensures { IfOk result (λ lines. lines.items ≡ flat_map line_of ids.now) }
{
    let mut lines = Vec::new(alloc);
    for id in ids {
        add_id(&mut lines, id, b'\n')?;
    }
    Ok(lines)
}
