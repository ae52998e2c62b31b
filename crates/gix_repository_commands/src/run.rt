//! The answer to a command over a repository.
ghost use Rattle.std.specs.Prelude.{◌≡◌, ℕ, List, [], None, Some, Ok, IfOk};
ghost use Rattle.std.specs.Bool.{OnFalse};
ghost use Rattle.gix_commands.specs.Opening.{AreReadFrom};
ghost use Rattle.gix_commands.specs.PageObjects.{page_objects};
ghost use Rattle.gix_commands.specs.Pages.{AreRows};
ghost use Rattle.gix_commands.specs.StoredRuns.{RunsStored};
ghost use Rattle.gix_revwalk.specs.Agreeing.{rows_in};
ghost use Rattle.gix_statement.specs.CommitGraph.{AreLayers};
ghost use Rattle.gix_statement.specs.WholeStatement.{AreNamed, Objects, Promises, Row};
ghost use Rattle.gix_words.specs.Words.{request_of, request_of_command};

use crate::part::{Part, Watch};
use gix_commitgraph::Graph;
use gix_odb::Odb;
use gix_words::{Command, Fault};
use std::fs::Files;
use std::os::unix::fs::FileExt;

/// How often more is read, at the most: each time four times as many.
const MOST_READINGS: u32 = 64;

/// What a command wrote, and how it ended.
#[derive(Drop)]
pub struct Answered {
    /// The lines.
    pub lines: Vec<u8>,
    /// Why there are no more: `Write` where memory ran out for them.
    pub ended: Result<(), Fault>,
}

/// Answers a command over the objects of a part of a repository, which grows until none is missing that it may still
/// read. Where there is a graph, commits that have a row of it aren't read, but those that are listed with `--oneline` or `--format`: no row
/// has their texts.
///
/// # Errors
///
/// The first fault of an object that is read.
pub fn answer<R, P: Watch>(
    command: &Command,
    part: &mut Part,
    odb: &mut Odb<R>,
    graph: Option<&Graph>,
    watch: &mut P,
) -> Result<Answered, gix_gather::Fault>
where
    R: Files + AllocGlobal + Clone + Drop,
    R::File: FileExt,
    // What the lines are, from lists of bytes up: over rows that `read_graph` gives, they are right of the objects that the part then has,
    // each of whose ids is the hash of its object, and of the rows in the files.
    ensures whole { (words layers : List (List ℕ)) → request_of words ≡ Ok (request_of_command command.now)
        → AreReadFrom layers (rows_in graph.entry) → IfOk result (λ answered. Promises Fault.Write words (λ (given : Objects) (rows : List Row). AreNamed given × (given ≡ page_objects part.new.gathering)
        × AreLayers [] layers [] rows) (Some []) answered.ended (Some answered.lines.items)) }
    // The same without a commit-graph.
    ensures named { (words : List (List ℕ)) → request_of words ≡ Ok (request_of_command command.now) → graph.entry ≡ None
        → IfOk result (λ answered. Promises Fault.Write words (λ (given : Objects) (rows : List Row). AreNamed given × (given ≡ page_objects part.new.gathering) × (rows ≡ [])) (Some [])
        answered.ended (Some answered.lines.items)) }
    // And over any rows, as those that end the history of a shallow clone.
    ensures over { (words : List (List ℕ)) → request_of words ≡ Ok (request_of_command command.now)
        → IfOk result (λ answered. Promises Fault.Write words (λ (given : Objects) (rows : List Row).
        AreNamed given × (given ≡ page_objects part.new.gathering) × AreRows (rows_in graph.entry) rows) (Some []) answered.ended
        (Some answered.lines.items)) }
    // The fault is one of a run over these objects and rows, so the law `stored_succeeds` says when there is none.
    ensures runs { IfOk result (λ answered. RunsStored (request_of_command command.now) part.new.gathering (rows_in graph.entry) (Some [])
        answered.ended (Some answered.lines.items)) }
{
    let alloc = part.alloc();
    part.read_first(odb, graph, watch)?;
    for _ in 0..MOST_READINGS {
        let mut lines = Vec::new(alloc);
        let ended = gix_commands::answer(
            alloc,
            command,
            part.gathering.objects(),
            graph,
            &mut lines,
        );
        if !read_on(&ended, command, part, odb, graph, watch)? {
            return Ok(Answered { lines, ended });
        }
    }
    Ok(Answered {
        lines: Vec::new(alloc),
        ended: Err(Fault::Memory),
    })
}

/// Reads more of the repository where a run lacked an object that may still be read. Whether more was read.
///
/// # Errors
///
/// The first fault of an object that is read.
fn read_on<R, P: Watch>(
    ended: &Result<(), Fault>,
    command: &Command,
    part: &mut Part,
    odb: &mut Odb<R>,
    graph: Option<&Graph>,
    watch: &mut P,
) -> Result<bool, gix_gather::Fault>
where
    R: Files + AllocGlobal + Clone + Drop,
    R::File: FileExt,
    ensures { IfOk result (λ is_more. OnFalse is_more (part.new.gathering ≡ part.old.gathering)) }
{
    let Err(Fault::Missing(id)) = ended else {
        return Ok(false);
    };
    if part.read_for(id, odb, graph, watch)? {
        return Ok(true);
    }
    part.read_missing(id, command, odb, graph)
}
