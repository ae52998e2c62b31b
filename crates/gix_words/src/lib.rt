//! What the words of a command ask for, and the words that say why a run failed.
//!
//! [`read_command`] says which [`Command`] the words are, or that they are none. A [`Fault`] says why a run failed.
#![tactic(auto)]

mod fault;
mod format;
mod print;
mod words;

pub use fault::Fault;
pub use format::Format;
pub use words::{Command, EntryLines, Form, Line, Merges, Order, Shown, read_command};
