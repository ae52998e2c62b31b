//! What the arguments of the program ask of a repository, and what its help says. Nothing is opened or printed here.
#![tactic(auto)]

mod arguments;
mod date;
mod format;
mod help;
mod hint;
mod lines;
mod list;
mod misuse;
mod name;
mod options;
mod question;
mod words;

pub use arguments::{read_arguments, read_question};
pub use help::{
    COMMANDS, Command, Explained, OPTIONS, REVISIONS, STATUS, Takers, USAGE, VERSION, WHAT, help_of,
};
pub use lines::read_lines;
pub use misuse::Misuse;
pub use name::Name;
pub use options::{Options, Rows};
pub use question::{Asked, Asks, Place, Question, Refs};
pub use words::words_of;
