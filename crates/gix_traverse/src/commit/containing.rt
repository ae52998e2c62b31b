//! Which commits contain another one: those that reach it.
pub use gix_containing::{Error, containing};
