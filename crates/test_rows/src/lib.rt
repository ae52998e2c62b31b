//! What tables of walks have in common: histories to walk, a store that fails and one that counts, what a table is, and faults in short words.
#![tactic(auto)]

pub mod counted;
pub mod history;
pub mod table;
pub mod words;
