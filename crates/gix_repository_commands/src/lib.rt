//! Commands over the objects of a repository, of which as much is read as the answer needs. Its files may be those of the system or of a
//! folder in memory.
//!
//! Each object is compared with its id before it is used. So what an answer says is right of every repository that has these objects: that
//! is the clause `named` of [`answer`].
#![tactic(auto)]

mod part;
mod run;

pub use part::{Part, Silent, Watch};
pub use run::{Answered, answer};
