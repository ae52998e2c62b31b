//! What a run of the program promises, from lists of bytes up.
//!
//! The crate has no code: `specs/WholeStatement` is the page that says it all, `specs/CommitGraph` says which rows the files of a
//! commit-graph have, and [`laws`] are what follows from these pages alone.
#![tactic(auto)]

pub mod laws;
