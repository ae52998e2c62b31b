//! How lines are written: the digits of ids, bytes that are given to a writer, and the lines of the entries of a tree.
#![tactic(auto)]

mod buffer;
mod digits;
mod entries;
mod lines;
mod walk;
mod writing;

pub use digits::put_digits;
pub use entries::write_entries;
use thiserror::Error;
pub use writing::write_bytes;

/// Why lines weren't written.
#[derive(Clone, Copy, PartialEq, Eq, Debug, Error)]
pub enum Error {
    /// Memory ran out. Nothing is written.
    #[error("out of memory")]
    Memory,
    /// The writer failed. A beginning of the lines is written.
    #[error("write failed")]
    Write,
}
