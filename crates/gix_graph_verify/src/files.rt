//! The rows of files, each compared with its commit.
ghost use Rattle.std.specs.Prelude.{◌≡◌, [], length, take, IfOk, OnOk};
ghost use Rattle.gix_graph_file.specs.ChainSteps.{files_seen};
ghost use Rattle.gix_graph_verify.specs.Reporting.{Tells, AllFilesTold, IsOfFile, IsReport};
ghost use Rattle.gix_graph_verify.specs.Verified.{IsVerified};

use crate::difference::{Difference, Fault, add};
use crate::objects::Objects;
use crate::rows::add_rows;
use gix_graph_file::{graph_of_chain, has_its_hash};
use std::alloc::{AllocError, Global};

/// What was found of files.
pub struct Report {
    /// How many commits have a row.
    pub rows: u32,
    /// What is wrong: of each file its hash, lowest first, and then one thing for each row, in rising order of ids. At most
    /// [`MOST_DIFFERENCES`](crate::MOST_DIFFERENCES).
    pub differences: Vec<Difference>,
}

impl Drop for Report {
    fn drop(self) {
        let Report {
            rows: _,
            differences: _,
        } = self;
    }
}

/// The lowest of the files, so many.
fn lowest<'a, 'b>(layers: &'b [&'a [u8]], count: usize) -> &'b [&'a [u8]]
    ensures { files_seen result.now ≡ take count (files_seen layers.now) }
{
    layers.split_at(count.min(layers.len())).0
}

/// Adds the files that don't end with their hash.
fn add_hashes(layers: &[&[u8]], differences: &mut Vec<Difference>) -> Result<(), AllocError>
    ensures tells { OnOk result (Tells (IsOfFile (files_seen layers.now)) differences.old.items differences.new.items) }
    ensures each { OnOk result (AllFilesTold (files_seen layers.now) (length layers.now) differences.new.items) }
{
    for number in 0..layers.len() {
        if !has_its_hash(layers[number]) {
            add(differences, Difference::Hash(number))?;
        }
    }
    Ok(())
}

/// Compares the files of a commit-graph, lowest first, with the commits that they are of. A file alone is a chain of one.
///
/// Each file must end with its hash, and each row be sound, as `first_unsound` of gix_graph_check says. Each row of the files behind the
/// first `passed` must say what its commit says: its tree, its parents in their order, its committer's seconds. The rows of the first
/// `passed` files aren't compared: they have passed alone.
///
/// Where nothing is wrong, there are objects, each of them the one of its id, with which all rows that were compared agree. Each object
/// is read once, in rising order of ids, and isn't kept: memory grows with the files alone.
///
/// # Errors
///
/// `Layers` where the files are no chain of a commit-graph. `Objects` with the first fault of the store. `Memory`.
pub fn verify<O: Objects>(
    alloc: Global,
    layers: &[&[u8]],
    passed: usize,
    objects: &mut O,
) -> Result<Report, Fault<O::Fault>>
    // Where nothing is named, the rows agree with objects that are what their ids say.
    ensures verified { IfOk result (λ report. report.differences.items ≡ [] → IsVerified (files_seen layers.now) passed) }
    // What is named is wrong, and all that is wrong is named, up to 100.
    ensures report { IfOk result (λ report. IsReport (files_seen layers.now) passed report.rows report.differences.items) }
{
    let lower = graph_of_chain(alloc, lowest(layers, passed))?;
    let graph = graph_of_chain(alloc, layers)?;
    let mut differences = Vec::new(alloc);
    add_hashes(layers, &mut differences)?;
    add_rows(alloc, &graph, &lower, objects, &mut differences)?;
    Ok(Report {
        rows: graph.num_commits(),
        differences,
    })
}
