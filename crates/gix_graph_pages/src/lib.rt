//! Git's commit-graph, one file or a chain, read by pages as far as a question needs it.
//!
//! [`Pages`] are read when they are asked for. [`is_part`] and [`is_above`] say what the pages that were read show of the rows of the
//! files.
#![tactic(auto)]

mod layout;
mod pages;
mod parents;
mod part;
mod rows;
mod search;

pub use layout::{Chunk, Layout, layout_with, layouts_of, load_layouts};
pub use pages::Pages;
pub use parents::{Unlisted, parents_in};
pub use part::{is_above, is_part};
pub use rows::{FileRow, id_in, row_in};
pub use search::{Unread, load_id, load_row, place_in};
