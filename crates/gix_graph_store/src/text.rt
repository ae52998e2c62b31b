//! The text of a commit, written from its row.
ghost use Rattle.std.specs.Prelude.{◌≡◌, ◌∷◌, ◌++◌, [], IfOk, OnOk};
ghost use Rattle.std.specs.Option.{option_map};
ghost use Rattle.gix_hash.specs.Id.{hex_of};
ghost use Rattle.gix_commitgraph.specs.GraphCommit.{rows_of_commit, row_of_commit};
ghost use Rattle.gix_revwalk.specs.Agreeing.{rows_in};
ghost use Rattle.gix_revwalk.specs.RowParents.{ids_at};
ghost use Rattle.gix_graph_store.specs.RowText.{people_lines, parent_lines, text_at, text_if};

use gix_commitgraph::{Commit, Graph};
use gix_hash::ObjectId;
use std::alloc::AllocError;

/// Adds a line with a word and an id.
fn add_id_line(text: &mut Vec<u8>, word: &[u8], id: &ObjectId) -> Result<(), AllocError>
    ensures { OnOk result (text.new.items ≡ text.old.items ++ (word.now ++ (hex_of id.now ++ 10 ∷ []))) }
{
    let mut digits = [0u8; 64];
    let digits = &mut digits[..id.kind().len_in_hex()];
    let Ok(()) = hex::encode_to_slice(id.as_bytes(), &mut *digits) else {
        unreachable!();
    };
    text.extend_from_slice(word)?;
    text.extend_from_slice(digits)?;
    text.extend_from_slice(b"\n")
}

/// Adds a line for each parent of a commit, and says whether all its places are rows.
fn add_parents(text: &mut Vec<u8>, graph: &Graph, commit: Commit<'_>) -> Result<bool, AllocError>
    requires { rows_of_commit commit ≡ graph.now }
    ensures { IfOk result (λ whole. text_if whole text.new.items ≡ option_map (λ ids. text.old.items ++ parent_lines ids)
        (ids_at graph.now (row_of_commit commit.entry).parents)) }
{
    let mut places = commit.iter_parents();
    while let Some(place) = places.next() {
        let Ok(position) = place else {
            return Ok(false);
        };
        add_id_line(text, b"parent ", &graph.commit_at(position).id())?;
    }
    Ok(true)
}

/// Adds an author, and a committer with these seconds, of neither of which a row says the name.
fn add_people(text: &mut Vec<u8>, seconds: i64) -> Result<(), AllocError>
    ensures { OnOk result (text.new.items ≡ text.old.items ++ people_lines seconds) }
{
    text.extend_from_slice(b"author <> 0 +0000\ncommitter <> ")?;
    text.extend_from_slice(itoa::Buffer::new().format(seconds).as_bytes())?;
    text.extend_from_slice(b" +0000\n\n")?;
    Ok(())
}

/// Writes the text of the commit of an id into `text` in place of what was there, and says whether there is one: a row of this id, and
/// none of its places is corrupt. Else `text` may hold anything.
///
/// # Errors
///
/// `AllocError` when out of memory. `text` may hold anything.
pub(crate) fn write(
    graph: Option<&Graph>,
    id: &ObjectId,
    text: &mut Vec<u8>,
) -> Result<bool, AllocError>
    ensures { IfOk result (λ written. text_if written text.new.items ≡ text_at (rows_in graph.entry) id.now) }
{
    let Some(graph) = graph else {
        return Ok(false);
    };
    let Some(commit) = graph.commit_by_id(id) else {
        return Ok(false);
    };
    let tree = commit.root_tree_id();
    let seconds = commit.committer_timestamp();
    text.clear();
    add_id_line(text, b"tree ", &tree)?;
    if !add_parents(text, graph, commit)? {
        return Ok(false);
    }
    add_people(text, seconds)?;
    Ok(true)
}
