//! The example of `breadthfirst`.
use gix_parts::hash::ObjectId;
use gix_parts::object::find::Find;
use gix_traverse::tree::breadthfirst::{Error, State, breadthfirst};
use gix_traverse::tree::recorder::{Entry, Recorder};
use std::alloc::Global;

/// The entries of a tree and of the trees in it, by levels, with their paths.
pub fn listed<F: Find>(alloc: Global, store: &F, root: &ObjectId) -> Result<Vec<Entry>, Error> {
    let mut bytes = Vec::new(alloc);
    let entries = store.find_tree_iter(root, &mut bytes)?;
    let mut state = State::new(alloc);
    let mut recorder = Recorder::new(alloc);
    breadthfirst(alloc, entries, &mut state, store, &mut recorder)?;
    Ok(recorder.records)
}
