//! Commands over as much of a repository and of its commit-graph as they need.
//!
//! [`choose`] reads rows by pages, and [`run_paged`] answers from them: its clause `whole` says what its lines are.
#![tactic(auto)]

mod asking;
mod decided;
mod rows;
mod run;
mod scout;

pub use rows::{Rows, choose};
pub use run::run_paged;
