//! Faults in short words.
use crate::history::{digit, id, long_id};
use gix_parts::graph::GraphError;
use gix_parts::hash::ObjectId;
use gix_parts::object::decode;
use gix_parts::object::find::existing_iter;
use gix_traverse::commit::{simple, topo};
use std::alloc::AllocError;
use thiserror::Error;

/// Why the answers of a row or of a call end too early.
#[derive(Clone, Copy, PartialEq, Eq, Debug, Error)]
pub enum Stop {
    /// A request for memory was refused.
    #[error("out of memory")]
    Memory,
    /// An answer behind the end.
    #[error("an answer behind the end")]
    Late,
    /// A refused call changed what it was called on.
    #[error("a refused call changed what was there")]
    Changed,
    /// What the row names can't be had.
    #[error("a row of no use")]
    Row,
}

impl From<AllocError> for Stop {
    fn from(_error: AllocError) -> Stop {
        Stop::Memory
    }
}

impl From<GraphError> for Stop {
    fn from(error: GraphError) -> Stop {
        match error {
            GraphError::Memory => Stop::Memory,
            _ => Stop::Row,
        }
    }
}

impl From<simple::Error> for Stop {
    fn from(error: simple::Error) -> Stop {
        match error {
            simple::Error::Memory => Stop::Memory,
            _ => Stop::Row,
        }
    }
}

impl From<topo::Error> for Stop {
    fn from(error: topo::Error) -> Stop {
        match error {
            topo::Error::Memory => Stop::Memory,
            _ => Stop::Row,
        }
    }
}

/// Writes an id as a word: its digit, and `L` behind the digit of a 32-byte id. An id that isn't of one digit alone is written whole, so
/// no two ids have one word.
pub fn write_id(told: &mut String, of: &ObjectId) -> Result<(), AllocError> {
    let n = digit(of);
    if *of == id(n) {
        return write!(told, "{n}");
    }
    if *of == long_id(n) {
        return write!(told, "{n}L");
    }
    write!(told, "{of}")
}

/// Writes why an object was not found: `missing-6`, `Tag-6-for-Commit` where it is of another kind, or `store`. Out of memory
/// stays out of memory.
pub fn write_not_found(told: &mut String, error: &existing_iter::Error) -> Result<(), AllocError> {
    match error {
        existing_iter::Error::Store => told.push_str("store"),
        existing_iter::Error::NotFound { oid } => {
            told.push_str("missing-")?;
            write_id(told, oid)
        }
        existing_iter::Error::ObjectKind {
            oid,
            expected,
            actual,
        } => {
            write!(told, "{actual:?}-")?;
            write_id(told, oid)?;
            write!(told, "-for-{expected:?}")
        }
        existing_iter::Error::Memory => Err(AllocError),
    }
}

/// Writes where the bytes of an object are broken, as `broken-Parent`.
pub fn write_broken(told: &mut String, error: &decode::Error) -> Result<(), AllocError> {
    write!(told, "broken-{error:?}")
}

/// Begins a word.
pub fn space(told: &mut String) -> Result<(), AllocError> {
    if told.is_empty() {
        return Ok(());
    }
    told.push(' ')
}
