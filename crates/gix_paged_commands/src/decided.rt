//! Whether an answer hangs on rows that weren't read.
ghost use Rattle.std.specs.Prelude.{◌≡◌, ◌+◌, ℕ, None, Some, [], ◌∷◌, IfOk, IfSome, IsTrue, false};
ghost use Rattle.std.specs.Iterator.{IsFinite};
ghost use Rattle.gix_commands.specs.Readable.{readable};
ghost use Rattle.gix_graph_pages.specs.PagedRows.{AreLayouts, IsAbove};
ghost use Rattle.gix_graph_store.specs.WithRows.{with_rows};
ghost use Rattle.gix_words.specs.Words.{request_of_command};
ghost use Rattle.gix_paged_commands.specs.Decided.{AreAllAbove, AreBasesAbove, BeginsBy, DecidesRequest, DrawsAbove, GivesAbove, GivesFirst};

use gix_commands::commits::{Ends, Lent, topo_walk_from, walk_from};
use gix_commitgraph::Graph;
use gix_graph_pages::{Layout, Pages, is_above};
use gix_hash::ObjectId;
use gix_merge_base::merge_bases;
use gix_object::memory::MemoryStore;
use gix_revwalk::{Info, Parents};
use gix_simple::Sorting;
use gix_words::{Command, Fault, Merges, Order, Shown};
use std::alloc::Global;

/// Rows of the files of a commit-graph, of which those of a lesser generation than `least` have no parents.
pub(crate) struct Line<'a, F: Drop> {
    pub pages: &'a Pages<F>,
    pub layouts: &'a [Layout],
    pub graph: &'a Graph,
    pub least: u32,
}

impl<'a, F: Drop> Drop for Line<'a, F> {
    fn drop(self) {
        let Line {
            pages: _,
            layouts: _,
            graph: _,
            least: _,
        } = self;
    }
}

/// Whether a commit has a row above the line, or none in the files.
fn is_one_above<F: Drop>(line: &Line<'_, F>, id: &ObjectId) -> bool
    requires { AreLayouts line.now.pages.now line.now.layouts.now }
    ensures { IsTrue result → IsAbove line.now.pages.now line.now.graph.now line.now.least id.now }
{
    is_above(line.pages, line.layouts, line.graph, line.least, id)
}

/// Whether each of these commits has a row above the line, or none in the files.
fn are_all_above<F: Drop>(line: &Line<'_, F>, ids: &[ObjectId]) -> bool
    requires { AreLayouts line.now.pages.now line.now.layouts.now }
    ensures { IsTrue result → AreAllAbove (IsAbove line.now.pages.now line.now.graph.now line.now.least) ids.now }
{
    for id in ids {
        if !is_one_above(line, id) {
            return false;
        }
    }
    true
}

/// Whether all commits are above the line that a walk gives, which is drawn to its end.
fn gives_above<F, I, E>(line: &Line<'_, F>, walk: I) -> Result<bool, Fault>
where
    F: Drop,
    I: Iterator<Item = Result<Info, E>> + Drop,
    E: Into<Fault> + Drop,
    requires layouts { AreLayouts line.now.pages.now line.now.layouts.now }
    requires can { I.can_next walk }
    requires finite { IsFinite (I.remaining walk) }
    ensures { GivesAbove (IsAbove line.now.pages.now line.now.graph.now line.now.least) I.next_gives E.converts walk result }
{
    for answer in walk {
        match answer {
            Ok(info) => {
                if !is_one_above(line, &info.id) {
                    return Ok(false);
                }
            }
            Err(fault) => return Err(fault.into()),
        }
    }
    Ok(true)
}

/// Whether a walk gives so many commits first, and all of their parents are above the line.
fn gives_first_above<F, I, E>(line: &Line<'_, F>, walk: I, count: u64) -> Result<bool, Fault>
where
    F: Drop,
    I: Iterator<Item = Result<Info, E>> + Drop,
    E: Into<Fault> + Drop,
    requires layouts { AreLayouts line.now.pages.now line.now.layouts.now }
    requires can { I.can_next walk }
    requires finite { IsFinite (I.remaining walk) }
    ensures { GivesFirst (IsAbove line.now.pages.now line.now.graph.now line.now.least) I.next_gives walk count result }
{
    let mut number = 0u64;
    for answer in walk {
        if number >= count {
            return Ok(true);
        }
        match answer {
            Ok(info) => {
                if !are_all_above(line, info.parent_ids.as_slice()) {
                    return Ok(false);
                }
            }
            Err(fault) => return Err(fault.into()),
        }
        number += 1;
    }
    Ok(number >= count)
}

/// How many commits a list goes through: those that are skipped and those that are listed, if it has a limit and leaves none out.
pub(crate) fn limit_of(shown: &Shown) -> Option<u64>
    ensures { IfSome result (λ count. (shown.now.until ≡ None) × (shown.now.merges ≡ Merges.Any)
        × ((most : ℕ) × (shown.now.limit ≡ Some most) × (count ≡ shown.now.skip + most))) }
{
    if shown.until.is_some() {
        return None;
    }
    match shown.merges {
        Merges::Any => shown.skip.checked_add(shown.limit?),
        Merges::Only | Merges::No => None,
    }
}

/// Whether a list of `topo` or `date` reaches its limit before anything below the line is met.
fn begins_above<F: Drop>(
    alloc: Global,
    line: &Line<'_, F>,
    list: (Order, Shown),
    tips: &[ObjectId],
    hidden: &[ObjectId],
    store: &MemoryStore<'_>,
) -> Result<bool, Fault>
    requires { AreLayouts line.now.pages.now line.now.layouts.now }
    ensures { IfOk result (λ is. IsTrue is → BeginsBy (IsAbove line.now.pages.now line.now.graph.now line.now.least)
        (readable false (with_rows line.now.graph.now store.now)) line.now.graph.now list.0 list.1 tips.now hidden.now) }
{
    let (Order::Topo { parents, sorting }, shown) = list else {
        return Ok(false);
    };
    let Parents::All = parents else {
        return Ok(false);
    };
    let Some(count) = limit_of(&shown) else {
        return Ok(false);
    };
    if tips.is_empty() || !are_all_above(line, tips) {
        return Ok(false);
    }
    let ends = Ends::of(alloc, tips, hidden)?;
    let walk = topo_walk_from(alloc, Parents::All, sorting, ends, store, Some(line.graph))?;
    gives_first_above(line, walk, count)
}

/// Whether all commits are above the line that tips reach and hidden ones don't.
fn are_above<F: Drop>(
    alloc: Global,
    line: &Line<'_, F>,
    tips: &[ObjectId],
    hidden: &[ObjectId],
    store: &MemoryStore<'_>,
) -> Result<bool, Fault>
    requires { AreLayouts line.now.pages.now line.now.layouts.now }
    ensures { IfOk result (λ is. IsTrue is → DrawsAbove (IsAbove line.now.pages.now line.now.graph.now line.now.least)
        (readable false (with_rows line.now.graph.now store.now)) line.now.graph.now tips.now hidden.now) }
{
    if tips.is_empty() || hidden.is_empty() {
        return Ok(false);
    }
    let ends = Ends::of(alloc, tips, hidden)?;
    let order = Sorting::BreadthFirst;
    let walk = walk_from(alloc, Parents::All, order, ends, store, Some(line.graph))?;
    gives_above(line, walk)
}

/// Whether the best common ancestors of a commit and others are above the line.
fn are_bases_above<F: Drop>(
    alloc: Global,
    line: &Line<'_, F>,
    one: ObjectId,
    others: &[ObjectId],
    store: &MemoryStore<'_>,
) -> Result<bool, Fault>
    requires { AreLayouts line.now.pages.now line.now.layouts.now }
    ensures { IfOk result (λ is. IsTrue is → AreBasesAbove (IsAbove line.now.pages.now line.now.graph.now line.now.least)
        (readable false (with_rows line.now.graph.now store.now)) line.now.graph.now one others.now) }
{
    let objects = Lent::over(store, Some(line.graph), Parents::All);
    let bases = merge_bases(alloc, one, others, &objects, Some(line.graph))?;
    Ok(are_all_above(line, bases.as_slice()))
}

/// Whether what a command asks for doesn't hang on what is below the line: what is listed or counted is above, and so is what is asked about.
pub(crate) fn is_decided<F: Drop>(
    alloc: Global,
    line: &Line<'_, F>,
    command: &Command,
    store: &MemoryStore<'_>,
) -> Result<bool, Fault>
    requires { AreLayouts line.now.pages.now line.now.layouts.now }
    ensures { IfOk result (λ is. IsTrue is → DecidesRequest (IsAbove line.now.pages.now line.now.graph.now line.now.least)
        (readable false (with_rows line.now.graph.now store.now)) line.now.graph.now (request_of_command command.now)) }
{
    match command {
        Command::Commits {
            order,
            shown,
            tips,
            hidden,
        } => {
            if are_above(alloc, line, tips.as_slice(), hidden.as_slice(), store)? {
                return Ok(true);
            }
            let list = (*order, *shown);
            begins_above(alloc, line, list, tips.as_slice(), hidden.as_slice(), store)
        }
        Command::Files { .. } => Ok(false),
        Command::Ahead { one, other } => {
            let is_ahead_above = are_above(alloc, line, &[*one], &[*other], store)?;
            Ok(is_ahead_above && are_above(alloc, line, &[*other], &[*one], store)?)
        }
        Command::Contained { ids, .. } => Ok(are_all_above(line, ids.as_slice())),
        Command::Containing { target, .. } => Ok(is_one_above(line, target)),
        Command::Bases { one, others } => {
            if !are_above(alloc, line, &[*one], others.as_slice(), store)? {
                return Ok(false);
            }
            are_bases_above(alloc, line, *one, others.as_slice(), store)
        }
    }
}
