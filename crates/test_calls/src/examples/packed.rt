//! The example of `Graph`.
use gix_parts::graph::{Graph, GraphError, ParentPlace, ParentPlaces, Row};
use gix_parts::hash::ObjectId;
use std::alloc::Global;

/// The graph of a commit without parents, at 100 seconds, and of its child, at 200.
pub fn graph_of_two(
    alloc: Global,
    tree: ObjectId,
    root: ObjectId,
    child: ObjectId,
) -> Result<Graph, GraphError> {
    let rows = vec![in alloc;
        Row {
            id: root,
            tree,
            parents: ParentPlaces::new(alloc),
            generation: 1,
            time: 100,
        },
        Row {
            id: child,
            tree,
            parents: ParentPlaces::from_slice(alloc, &[ParentPlace::At(0)])?,
            generation: 2,
            time: 200,
        },
    ]?;
    Graph::new(alloc, rows)
}
