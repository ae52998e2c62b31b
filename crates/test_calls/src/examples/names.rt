//! The example of `Recorder`.
use gix_parts::hash::ObjectId;
use gix_parts::object::find::Find;
use gix_traverse::tree::depthfirst::{Error, State, depthfirst};
use gix_traverse::tree::recorder::{Entry, Location, Recorder};
use std::alloc::Global;

/// The names alone of the entries of a tree and of the trees in it.
pub fn names<F: Find>(alloc: Global, store: &F, root: ObjectId) -> Result<Vec<Entry>, Error> {
    let mut recorder = Recorder::new(alloc).track_location(Some(Location::FileName));
    depthfirst(alloc, root, &mut State::new(alloc), store, &mut recorder)?;
    Ok(recorder.records)
}
