//! What is right of a history of which the parents of some commits aren't known, as a law over the page of what a run promises.
//!
//! The crate has no code.
#![tactic(auto)]

pub mod laws;
