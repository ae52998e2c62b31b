//! Calls made once: each that asks for memory, and the examples of README.md and of the comments.
#![tactic(auto)]

pub mod calls;
pub mod examples;
