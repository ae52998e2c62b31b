//! Whether rows are some of those of files.
ghost use Rattle.std.specs.Prelude.{◌≡◌, ◌≢◌, ◌<◌, All, IsTrue, IfOk, IfSome, length};
ghost use Rattle.std.specs.Ordering.{is_lt};
ghost use Rattle.gix_hash.specs.Id.{id_cmp};
ghost use Rattle.gix_commitgraph.specs.Packed.{AreGraphRows};
ghost use Rattle.gix_commitgraph.specs.GraphCommit.{rows_of_commit, row_of_commit};
ghost use Rattle.gix_commitgraph.specs.Rows.{row_at};
ghost use Rattle.gix_graph_check.specs.HeadsReach.{ids_of_places};
ghost use Rattle.gix_graph_pages.specs.GraphPages.{all_rows};
ghost use Rattle.gix_graph_pages.specs.PagedRows.{AreFurtherIds, AreLayouts, ArePart, AreParentIds, HasNoRow, InEachGraph, InEachLayer, IsAbove, SaysLayout, IsLayoutOf, IsPlaceOf, IsRowOfFile, ids_of_answers};

use crate::layout::{Layout, layout_with};
use crate::pages::Pages;
use crate::parents::edge_at;
use crate::rows::{FLAG, FileRow, NO_PARENT, id_at, id_in, row_in};
use crate::search::place_in;
use gix_commitgraph::{Commit, Graph, ParentFault, Parents, Position};
use gix_hash::ObjectId;

/// Whether each row of a graph says what the row of its number in the files says, or no parents if its generation is below the least one.
/// `numbers` are those of the graph's rows, in their order.
pub fn is_part<F: Drop>(
    pages: &Pages<F>,
    layouts: &[Layout],
    graph: &Graph,
    numbers: &[u32],
    least: u32,
) -> bool
    requires { AreLayouts pages.now layouts.now }
    ensures part { IsTrue result → ArePart pages.now graph.now least }
    ensures rows { AreGraphRows graph.now }
{
    let count = graph.num_commits();
    if numbers.len() != count as usize {
        return false;
    }
    for row in 0..count {
        if !is_row(pages, layouts, graph, row, numbers[row as usize], least) {
            return false;
        }
    }
    true
}

/// Whether a row of a graph says what the row of this number in the files says, or no parents if its generation is below the least one.
fn is_row<F: Drop>(
    pages: &Pages<F>,
    layouts: &[Layout],
    graph: &Graph,
    row: u32,
    number: u32,
    least: u32,
) -> bool
    requires layouts { AreLayouts pages.now layouts.now }
    requires there { row < length graph.now }
    ensures { IsTrue result → InEachGraph pages.now
        (λ layers generation. IsRowOfFile least graph.now (all_rows layers) generation (row_at graph.now row)) }
{
    let Some(layout) = layout_with(layouts, number) else {
        return false;
    };
    let Some(read) = row_in(pages, layout, number) else {
        return false;
    };
    let commit = graph.commit_at(Position(row));
    if !is_same(&commit.id(), &read.id)
        || !is_same(&commit.root_tree_id(), &read.tree)
        || commit.generation() != read.generation
        || !has_time(&commit, &read)
    {
        return false;
    }
    if read.generation < least {
        commit.iter_parents().next().is_none()
    } else {
        has_parents(pages, layouts, layout, graph, commit, read)
    }
}

/// Whether the parents of a commit are those that a row in the file of a layout names.
fn has_parents<F: Drop>(
    pages: &Pages<F>,
    layouts: &[Layout],
    layout: &Layout,
    graph: &Graph,
    commit: Commit<'_>,
    read: FileRow,
) -> bool
    requires layouts { AreLayouts pages.now layouts.now }
    requires layout { SaysLayout pages.now layout.now }
    requires rows { rows_of_commit commit ≡ graph.now }
    ensures { IsTrue result → InEachLayer pages.now layout.now.layer (λ layers layer generation. AreParentIds layer.file (all_rows layers)
        read.first read.second (ids_of_places graph.now (row_of_commit commit.entry).parents)) }
{
    let mut places = commit.iter_parents();
    if read.first == NO_PARENT {
        return read.second == NO_PARENT && places.next().is_none();
    }
    if !is_parent(pages, layouts, graph, places.next(), read.first) {
        return false;
    }
    if read.second >= FLAG {
        return are_further(pages, layouts, layout, graph, places, read.second - FLAG);
    }
    if read.second != NO_PARENT && !is_parent(pages, layouts, graph, places.next(), read.second) {
        return false;
    }
    places.next().is_none()
}

/// Whether the rows at these places of the graph are those that a file's words name from one word on, up to the one with the flag.
fn are_further<F: Drop>(
    pages: &Pages<F>,
    layouts: &[Layout],
    layout: &Layout,
    graph: &Graph,
    mut places: Parents<'_>,
    from: u32,
) -> bool
    requires layouts { AreLayouts pages.now layouts.now }
    requires layout { SaysLayout pages.now layout.now }
    requires within { All (λ answer. IfOk answer (λ position. position.0 < length graph.now)) places }
    ensures { IsTrue result → InEachLayer pages.now layout.now.layer
        (λ layers layer generation. AreFurtherIds layer.file (all_rows layers) from (ids_of_answers graph.now places.entry)) }
{
    for number in from..u32::MAX {
        let Some(Ok(word)) = edge_at(pages, layout, number) else {
            return false;
        };
        if word >= FLAG {
            if !is_parent(pages, layouts, graph, places.next(), word - FLAG) {
                return false;
            }
            return places.next().is_none();
        }
        if !is_parent(pages, layouts, graph, places.next(), word) {
            return false;
        }
    }
    false
}

/// Whether the row at a place of the graph has the id that the row of this number in the files has.
fn is_parent<F: Drop>(
    pages: &Pages<F>,
    layouts: &[Layout],
    graph: &Graph,
    place: Option<Result<Position, ParentFault>>,
    number: u32,
) -> bool
    requires layouts { AreLayouts pages.now layouts.now }
    requires within { IfSome place (λ answer. IfOk answer (λ position. position.0 < length graph.now)) }
    ensures { IsTrue result → IsPlaceOf pages.now graph.now number place }
{
    let Some(answer) = place else {
        return false;
    };
    let Ok(position) = answer else {
        return false;
    };
    match id_at(pages, layouts, number) {
        Some(id) => is_same(&graph.commit_at(position).id(), &id),
        None => false,
    }
}

/// Whether a commit has a row in the graph whose generation isn't below the least one, or no row in the files, as far as the pages that were
/// read show it.
pub fn is_above<F: Drop>(
    pages: &Pages<F>,
    layouts: &[Layout],
    graph: &Graph,
    least: u32,
    id: &ObjectId,
) -> bool
    requires { AreLayouts pages.now layouts.now }
    ensures { IsTrue result → IsAbove pages.now graph.now least id.now }
{
    match graph.commit_by_id(id) {
        Some(commit) => commit.generation() >= least,
        None => has_no_row(pages, layouts, id),
    }
}

/// Whether no row has this id, as far as the pages that were read show it.
fn has_no_row<F: Drop>(pages: &Pages<F>, layouts: &[Layout], id: &ObjectId) -> bool
    requires { AreLayouts pages.now layouts.now }
    ensures { IsTrue result → HasNoRow pages.now id.now }
{
    for layout in layouts {
        if !lacks(pages, layout, id) {
            return false;
        }
    }
    true
}

/// Whether no row of a file has this id, as far as the pages that were read show it.
fn lacks<F: Drop>(pages: &Pages<F>, layout: &Layout, id: &ObjectId) -> bool
    requires { IsLayoutOf pages.now layout.now }
    ensures { IsTrue result → InEachLayer pages.now layout.now.layer (λ layers layer generation. All (λ r. r.id ≢ id.now) layer.rows) }
{
    match place_in(pages, layout, id) {
        Ok(place) => is_between(pages, layout, id, place),
        Err(_) => false,
    }
}

/// Whether two ids are one.
fn is_same(one: &ObjectId, other: &ObjectId) -> bool
    ensures { IsTrue result → one.now ≡ other.now }
{
    one == other
}

/// Whether a commit has the time of a row.
fn has_time(commit: &Commit<'_>, read: &FileRow) -> bool
    ensures { IsTrue result → (row_of_commit commit.now).time ≡ read.now.time }
{
    commit.committer_timestamp() == read.time
}

/// Whether an id comes before another.
fn is_before(one: &ObjectId, other: &ObjectId) -> bool
    ensures { result ≡ is_lt (id_cmp one.now other.now) }
{
    one.cmp(other).is_lt()
}

/// Whether an id is between those of the row before `place` and of the row of this number in a file, if there are such.
fn is_between<F: Drop>(pages: &Pages<F>, layout: &Layout, id: &ObjectId, place: u32) -> bool
    requires { IsLayoutOf pages.now layout.now }
    ensures { IsTrue result → InEachLayer pages.now layout.now.layer (λ layers layer generation. All (λ r. r.id ≢ id.now) layer.rows) }
{
    if place < layout.start {
        return false;
    }
    if place > layout.start {
        match id_in(pages, layout, place - 1) {
            Some(before) if is_before(&before, id) => {}
            _ => return false,
        }
    }
    if place - layout.start < layout.rows {
        match id_in(pages, layout, place) {
            Some(behind) => is_before(id, &behind),
            None => false,
        }
    } else {
        true
    }
}
