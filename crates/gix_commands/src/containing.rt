//! Which commits contain another one.
ghost use Rattle.gix_commands.specs.Run.{ServesOver};
ghost use Rattle.gix_words.specs.Words.{Containing};
ghost use Rattle.gix_revwalk.specs.Agreeing.{rows_in};

use crate::commits::Lent;
use crate::contains::lines_of;
use crate::output::write_out;
use gix_commitgraph::Graph;
use gix_containing::containing;
use gix_hash::ObjectId;
use gix_object::memory::MemoryStore;
use gix_revwalk::Parents;
use gix_words::Fault;
use std::alloc::Global;
use std::io::Write;

/// Writes those of the tips that reach the target, in the order given, one a line, once all of them are known.
///
/// # Errors
/// The fault of a commit that can't be read of those that have to be, and `Memory`: nothing is written. `Write` where the writer failed: a
/// beginning of the lines is.
pub fn write_containing<W: Write>(
    alloc: Global,
    target: ObjectId,
    tips: &[ObjectId],
    store: &MemoryStore<'_>,
    graph: Option<&Graph>,
    writer: &mut W,
) -> Result<(), Fault>
    ensures { ServesOver store.now (rows_in graph.entry) (W.contents writer.old)
        (Containing target tips.now) result (W.contents writer.new) }
{
    let objects = Lent::over(store, graph, Parents::All);
    let those = containing(alloc, target, tips, &objects, graph)?;
    let mut lines = lines_of(alloc, those.as_slice())?;
    write_out(&mut lines, writer)
}
