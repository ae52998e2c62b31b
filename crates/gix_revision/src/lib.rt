//! Revisions: words as `HEAD~2`, `v1.0^{tree}` or `main..topic`, and the ids of objects that they name.
#![tactic(auto)]

mod fault;
mod meaning;
pub mod parse;
pub mod steps;
mod texts;

pub use fault::{Fault, quoted};
pub use meaning::{Chosen, Resolved, Set, resolve, resolve_all, resolve_parsed};
