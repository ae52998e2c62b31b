//! Walks of Git's commit history and of its trees, under the names that users know.
#![tactic(auto)]

pub mod commit;
pub mod laws;
pub mod tree;
