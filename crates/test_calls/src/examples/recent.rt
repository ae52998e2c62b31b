//! The example of `Sorting`.
use gix_parts::hash::ObjectId;
use gix_parts::object::find::Find;
use gix_traverse::commit::simple::{CommitTimeOrder, Error, Sorting};
use gix_traverse::commit::{Parents, Simple, Unfiltered};
use std::alloc::Global;

/// A walk by first parents alone, from the branches that have a commit since `seconds`. Under `Parents::First` the cutoff takes out
/// tips alone: what the other tips reach is given, however old it is.
pub fn since<F: Find + Drop>(
    alloc: Global,
    store: F,
    branches: Vec<ObjectId>,
    seconds: i64,
) -> Result<Simple<F, Unfiltered>, Error> {
    let cutoff = Sorting::ByCommitTimeCutoff {
        order: CommitTimeOrder::NewestFirst,
        seconds,
    };
    let walk = Simple::new(alloc, branches, store)?.sorting(cutoff)?;
    Ok(walk.parents(Parents::First))
}
