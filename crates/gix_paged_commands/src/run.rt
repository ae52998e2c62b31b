//! An answer from rows that were read by pages.
ghost use Rattle.std.specs.Prelude.{◌≡◌, ℕ, List, Ok, IfOk, IfSome};
ghost use Rattle.gix_commands.specs.PageObjects.{page_objects};
ghost use Rattle.gix_graph_pages.specs.GraphPages.{AnswersOver};
ghost use Rattle.gix_graph_pages.specs.NamedBelow.{AreNamedBelow};
ghost use Rattle.gix_words.specs.Words.{request_of, request_of_command};

use crate::decided::{Line, is_decided};
use crate::rows::Rows;
use gix_commands::answer;
use gix_graph_pages::{Pages, is_part, layouts_of};
use gix_records::NamedObjects;
use gix_words::{Command, Fault};
use std::alloc::Global;

/// Answers a command over objects that were compared with their ids and over rows of the files of a commit-graph, of
/// which some pages were read. Gives the lines, or None if these pages don't show them: then other rows of the files may change them.
///
/// # Errors
///
/// Those of [`answer`](gix_commands::answer).
pub fn run_paged<F: Drop>(
    alloc: Global,
    command: &Command,
    objects: &NamedObjects,
    pages: &Pages<F>,
    rows: &Rows,
) -> Result<Option<Vec<u8>>, Fault>
    // What the lines are, from lists of bytes up: they are right of these objects, each of whose ids is the hash of its object, with each
    // graph whose files have these pages, whose rows are in order and sound, and contradict none of the objects.
    ensures whole { (words : List (List ℕ)) → request_of words ≡ Ok (request_of_command command.now)
        → IfOk result (λ lines. IfSome lines (λ lines. AnswersOver (page_objects objects.now) words pages.now lines.items)) }
    // The files are git's by their heads, and each names those below it.
    ensures named { IfOk result (λ lines. IfSome lines (λ lines. AreNamedBelow pages.now)) }
{
    let graph = &rows.graph;
    let least = rows.least;
    let Some(layouts) = layouts_of(alloc, pages)? else {
        return Ok(None);
    };
    let layouts = layouts.as_slice();
    if !is_part(pages, layouts, graph, rows.numbers.as_slice(), least) {
        return Ok(None);
    }
    let mut lines = Vec::new(alloc);
    answer(alloc, command, objects, Some(graph), &mut lines)?;
    let line = Line {
        pages,
        layouts,
        graph,
        least,
    };
    if is_decided(alloc, &line, command, objects.store())? {
        Ok(Some(lines))
    } else {
        Ok(None)
    }
}
