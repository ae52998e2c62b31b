//! Whether git's commit-graph files say what the commits say that they are of, and where this is kept for files that do.
#![tactic(auto)]

mod difference;
mod files;
mod kept;
pub mod laws;
mod layers;
mod objects;
mod rows;

pub use difference::{Difference, Fault, MOST_DIFFERENCES};
pub use files::{Report, verify};
pub use kept::{KeepFault, has_passed, has_passed_open, keep};
pub use layers::{Layer, LayerFault, count_passed, read_layers};
pub use objects::{Found, Objects};
