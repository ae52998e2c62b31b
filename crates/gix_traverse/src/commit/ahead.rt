//! How many commits one commit reaches and another doesn't.
pub use gix_ahead::{AheadBehind, Error, ahead_behind};
