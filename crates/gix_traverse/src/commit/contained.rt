//! Which commits are contained in others: those that these reach.
pub use gix_contained::{Error, contained};
