//! Walks of trees, which show each entry to a delegate.
#![tactic(auto)]

pub mod breadthfirst;
pub mod depthfirst;
pub mod laws;
pub mod recorder;
pub mod visit;

pub use recorder::Recorder;
pub use visit::Visit;
