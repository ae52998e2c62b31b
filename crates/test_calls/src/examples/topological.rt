//! The example of `topo::Builder`.
use gix_parts::graph::Graph;
use gix_parts::hash::ObjectId;
use gix_parts::object::find::Find;
use gix_traverse::commit::Unfiltered;
use gix_traverse::commit::topo::{Builder, Error, Sorting, Topo};
use std::alloc::Global;

/// A walk over what `tip` reaches and `merged` doesn't, one line of history after the other.
pub fn lines_of_history<F: Find + Drop>(
    alloc: Global,
    store: F,
    graph: Option<Graph>,
    tip: ObjectId,
    merged: ObjectId,
) -> Result<Topo<F, Unfiltered>, Error> {
    Builder::new(alloc, store)
        .with_tips([tip])?
        .with_ends([merged])?
        .sorting(Sorting::TopoOrder)
        .with_commit_graph(graph)
        .build()
}
