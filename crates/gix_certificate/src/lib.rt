//! Certificates: what a run of the program wrote, and from what, as a text that is kept and compared with another run.
#![tactic(auto)]

pub mod asked;
mod compare;
mod digest;
mod fault;
mod file;
mod hashing;
pub mod laws;
mod read;
mod record;
mod statement;
mod value;

pub use digest::Digest;
pub use fault::Fault;
pub use file::{check_new, load, running_program, save};
pub use hashing::Hashing;
pub use read::read_certificate;
pub use record::{Certificate, Lines, Meaning, Page, Program, Revision, Rows};
pub use statement::{PAGES, pages};
