//! The example of README.md.
use gix_parts::hash::ObjectId;
use gix_parts::object::find::Find;
use gix_traverse::commit::Simple;
use gix_traverse::commit::simple::{CommitTimeOrder, Error, Sorting};
use std::alloc::Global;

/// The commits that `tip` reaches and `merged` doesn't, newest first. A reference to a store is a store too.
pub fn unmerged<F: Find + Drop>(
    alloc: Global,
    store: F,
    tip: ObjectId,
    merged: ObjectId,
) -> Result<Vec<ObjectId>, Error> {
    let newest = Sorting::ByCommitTime(CommitTimeOrder::NewestFirst);
    let walk = Simple::new(alloc, [tip], store)?
        .sorting(newest)?
        .hide([merged])?;
    let mut ids = Vec::new(alloc);
    for answer in walk {
        let info = answer?;
        ids.push(info.id)?;
    }
    Ok(ids)
}
