//! The examples of README.md and of the comments of the library, to the letter.
pub mod depth;
pub mod files;
pub mod found;
pub mod levels;
pub mod names;
pub mod packed;
pub mod recent;
pub mod retry;
pub mod stored;
pub mod topological;
pub mod unknown;
pub mod unmerged;
