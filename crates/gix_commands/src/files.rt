//! The lines of the entries of a tree.
ghost use Rattle.std.specs.Prelude.{◌≡◌, ◌≤◌, ◌^◌, ◌-◌, IfSome};
ghost use Rattle.gix_commands.specs.Files.{number_of_lines};
ghost use Rattle.gix_commands.specs.Run.{ServesOver};
ghost use Rattle.gix_words.specs.Words.{Files};
ghost use Rattle.gix_revwalk.specs.Agreeing.{rows_in};

use crate::commits::Lent;
use gix_commitgraph::Graph;
use gix_hash::ObjectId;
use gix_lines::write_entries;
use gix_object::memory::MemoryStore;
use gix_revwalk::Parents;
use gix_tree_size::survey_tree;
use gix_words::{EntryLines, Fault};
use std::alloc::Global;
use std::io::Write;

/// The most entries that are listed where no limit is asked for: a longer listing is a mistake, or made by one who wants to harm.
const MOST: u64 = 1 << 28;

/// Walks through the tree of this id in depth, and writes a line for each entry, up to a limit. First each tree is read once, so that it is
/// known how many entries there are, that nothing fails, and that each name is a name.
///
/// # Errors
/// The fault of the walk, `Name` where the walk ends well and a name is empty or holds `/`, `Entries` where there is no limit and the
/// entries are too many, and `Memory`: nothing is written. `Write` where the writer failed: a beginning of the lines is.
pub fn write_files<W: Write>(
    alloc: Global,
    shown: EntryLines,
    tree: ObjectId,
    store: &MemoryStore<'_>,
    graph: Option<&Graph>,
    writer: &mut W,
) -> Result<(), Fault>
    ensures { ServesOver store.now (rows_in graph.entry) (W.contents writer.old) (Files shown tree) result (W.contents writer.new) }
{
    let survey = survey_tree(alloc, tree, Lent::over(store, graph, Parents::All))?;
    if let Some(id) = survey.misnamed {
        return Err(Fault::Name(id));
    }
    let number = number_of_lines(shown.limit, survey.entries)?;
    // No memory holds the way down through so many trees.
    if survey.depth == usize::MAX {
        return Err(Fault::Memory);
    }
    let depth = survey.depth;
    Ok(write_entries(alloc, shown.ending, number, depth, tree, store, writer)?)
}

/// How many lines a tree of so many entries has, up to a limit.
///
/// # Errors
/// `Entries` where there is no limit and the entries are too many.
fn number_of_lines(limit: Option<u64>, entries: u64) -> Result<u64, Fault>
    ensures number { result ≡ number_of_lines limit entries }
    ensures bound { IfSome limit (λ most. most ≤ 2 ^ 64 - 1) }
{
    match limit {
        Some(limit) => Ok(limit.min(entries)),
        None if entries > MOST => Err(Fault::Entries(entries)),
        None => Ok(entries),
    }
}
