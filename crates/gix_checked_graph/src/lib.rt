//! What it is good for that git's commit-graph was compared with the commits, as laws.
//!
//! The crate has no code.
#![tactic(auto)]

pub mod laws;
