//! What is asked of a repository.

use crate::{Name, Options};

/// Where the repository is.
#[derive(Drop, Debug)]
pub enum Place {
    /// In this folder or one above it.
    Folder(String),
    /// This folder is what is called `.git` elsewhere.
    GitDir(String),
}

/// A set of refs.
#[derive(Clone, Copy, Debug)]
pub enum Refs {
    /// All refs and HEAD.
    All,
    /// All branches.
    Branches,
    /// All tags.
    Tags,
    /// All remote branches that are tracked.
    Remotes,
}

/// A word that names revisions, or a set of them.
#[derive(Drop, Debug)]
pub enum Asked {
    /// A revision, maybe with `^`, or a range.
    Word(String),
    /// The same behind `--not`: `^` means the opposite.
    Turned(String),
    /// These refs.
    Refs(Refs),
    /// These refs behind `--not`: each as if `^` were before it.
    Hidden(Refs),
    /// The lines of standard input, each of which is a word.
    Lines,
}

/// What is asked of a repository.
pub struct Question {
    /// Where it is.
    pub place: Place,
    /// The command.
    pub name: Name,
    /// The revisions, in the order in which they were given. For `verify-certificate` the file alone.
    pub asked: Vec<Asked>,
    /// What the options say.
    pub options: Options,
}

/// A call drops a question.
impl Drop for Question {
    fn drop(self) {
        let Question {
            place: _,
            name: _,
            asked: _,
            options: _,
        } = self;
    }
}

/// What the arguments ask.
#[derive(Drop)]
pub enum Asks {
    /// A command over records on standard input, or a folder of objects.
    Records,
    /// The help, all of it or that of one command.
    Help(Option<Name>),
    /// Which program this is.
    Version,
    /// A question about a repository.
    Question(Question),
}
