//! The example of `commit::find`.
use gix_parts::graph::Graph;
use gix_parts::hash::ObjectId;
use gix_parts::object::find::Find;
use gix_traverse::commit;
use gix_traverse::commit::simple::Error;
use std::alloc::Global;

/// The tree of a commit, and its committer's seconds since 1970: of its row where it has one, else of its text in the store.
pub fn tree_and_time<F: Find + Drop>(
    alloc: Global,
    graph: Option<&Graph>,
    store: F,
    id: ObjectId,
) -> Result<(ObjectId, i64), Error> {
    let mut buf = Vec::new(alloc);
    let commit = commit::find(graph, store, &id, &mut buf)?;
    Ok((commit.tree_id()?, commit.commit_time()?))
}
