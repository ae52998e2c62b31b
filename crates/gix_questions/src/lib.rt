//! Questions about a repository: which ids their revisions stand for, and the command over ids that answers them.
//!
//! The repository's files may be those of the system or of a folder in memory. Nothing is printed: a caller says what it wants of
//! [`Chosen`].
#![tactic(auto)]

mod chosen;
mod exit_status;
mod fault;
mod symmetric;

pub use chosen::{Chosen, Pair, choose, choose_from, resolve_one, resolve_words, wanted};
pub use exit_status::status;
pub use fault::Fault;
