//! How many commits one commit reaches and another doesn't.
ghost use Rattle.std.specs.Prelude.{◌≡◌, IfOk};
ghost use Rattle.gix_commands.specs.Ahead.{ahead_line};
ghost use Rattle.gix_commands.specs.Run.{ServesOver};
ghost use Rattle.gix_words.specs.Words.{Ahead};
ghost use Rattle.gix_revwalk.specs.Agreeing.{rows_in};

use crate::commits::Lent;
use crate::output::write_out;
use gix_ahead::{AheadBehind, ahead_behind};
use gix_commitgraph::Graph;
use gix_hash::ObjectId;
use gix_object::memory::MemoryStore;
use gix_revwalk::Parents;
use gix_words::Fault;
use std::alloc::{AllocError, Global};
use std::io::Write;

/// Counts the commits that `one` reaches and `other` doesn't, and the commits that `other` reaches and `one` doesn't, and writes the
/// two numbers once both are known.
///
/// # Errors
/// The fault of a commit that can't be read of those that have to be, and `Memory`: nothing is written. `Write` where the writer failed: a
/// beginning of the line is.
pub fn write_ahead<W: Write>(
    alloc: Global,
    one: ObjectId,
    other: ObjectId,
    store: &MemoryStore<'_>,
    graph: Option<&Graph>,
    writer: &mut W,
) -> Result<(), Fault>
    ensures { ServesOver store.now (rows_in graph.entry) (W.contents writer.old) (Ahead one other) result (W.contents writer.new) }
{
    let objects = Lent::over(store, graph, Parents::All);
    let AheadBehind { ahead, behind } = ahead_behind(alloc, one, other, &objects, graph)?;
    let mut line = line_of(alloc, ahead, behind)?;
    write_out(&mut line, writer)
}

/// The two numbers with a space between them, and a newline.
fn line_of(alloc: Global, ahead: usize, behind: usize) -> Result<Vec<u8>, AllocError>
    ensures { IfOk result (λ line. line.items ≡ ahead_line ahead behind) }
{
    let line = format!(in alloc; "{ahead} {behind}\n")?;
    line.as_bytes().to_vec(alloc)
}
