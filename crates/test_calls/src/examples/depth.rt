//! The example of `depthfirst`.
use gix_parts::hash::ObjectId;
use gix_parts::object::find::Find;
use gix_traverse::tree::depthfirst::{Error, State, depthfirst};
use gix_traverse::tree::recorder::{Entry, Recorder};
use std::alloc::Global;

/// The entries of a tree and of the trees in it, each tree right behind its entry, with their paths.
pub fn listed<F: Find>(alloc: Global, store: &F, root: ObjectId) -> Result<Vec<Entry>, Error> {
    let mut state = State::new(alloc);
    let mut recorder = Recorder::new(alloc);
    depthfirst(alloc, root, &mut state, store, &mut recorder)?;
    Ok(recorder.records)
}
