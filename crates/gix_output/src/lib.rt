//! How lines are written: as JSON, to a terminal, and to standard output whose reader may go.
#![tactic(auto)]

mod json;
mod json_lines;
pub mod laws;
mod output;
mod terminal;

pub use json::{Shape, json_line};
pub use json_lines::JsonLines;
pub use output::Output;
pub use terminal::{Quoting, add_quoted};
