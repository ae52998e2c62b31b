//! Why arguments are no question.
use crate::Name;
use gix_refs::Quoted;
use std::alloc::{AllocError, AllocFailed};
use thiserror::Error;

/// Why arguments ask nothing of a repository. Each text is one line.
#[derive(Drop, Debug, Error)]
pub enum Misuse {
    /// No word names a command.
    #[error("a command is missing")]
    NoCommand,
    /// The first word that is no option names no command. Behind it is what there is in its place, in two parts, or nothing.
    #[error("no command is called {0:?}{1}{2}")]
    Command(String, &'static str, &'static str),
    /// A word begins with `-` and is no option. Behind it is what there is in its place, or nothing.
    #[error("no option is called {0:?}{1}")]
    NoOption(String, &'static str),
    /// Behind this option its folder is missing.
    #[error("{0} needs a folder")]
    NoFolder(&'static str),
    /// Behind `-n` there is no number.
    #[error("-n needs a number of 1 to 9 digits, or one below 0 for no limit")]
    Limit,
    /// Behind `--skip` there is no number.
    #[error("--skip needs a number of 1 to 9 digits")]
    Skip,
    /// Behind `--format` there is none.
    #[error("--format is empty: it needs 1 to 128 bytes, as %H or '%h %an: %s'")]
    NoFormat,
    /// A format has so many bytes.
    #[error("--format has {0} bytes, and takes 128 at most")]
    LongFormat(usize),
    /// A format has this field, which isn't known.
    #[error("--format has no field {0:?}: its fields are %H, %h, %T, %P, %s, %an, %ae, %ct, %ci, %n and %%")]
    Field(String),
    /// Behind this option there is no time that can be used.
    #[error("{0} needs seconds of 1 to 10 digits, as date -d '2 weeks ago' +%s writes them, or a date from 1970 on, as 2024-05-01 or 2024-05-01T12:00:00Z")]
    Time(&'static str),
    /// No commit has one parent at most and two at least.
    #[error("--merges and --no-merges don't go together")]
    Merges,
    /// `--` would separate revisions from paths.
    #[error("paths aren't known: nothing may be behind --, and only files takes REVISION:PATH")]
    Paths,
    /// This option doesn't go with the command, or with another option. Behind it is what it goes with, or nothing.
    #[error("{0} doesn't go with {1}{2}")]
    Misfit(&'static str, &'static str, &'static str),
    /// A revision is a word without letters, or `^` alone.
    #[error("a revision is empty")]
    Empty,
    /// A revision has more than one `^` before it.
    #[error("a revision has one ^ at most: {0:?}")]
    TwoHidden(String),
    /// A revision ends as a line does that was written by another system.
    #[error("a revision ends in a carriage return")]
    CarriageReturn,
    /// A line of standard input begins with `-`.
    #[error("an option is no revision: {0:?}")]
    Dash(String),
    /// A line of standard input isn't UTF-8.
    #[error("a revision isn't UTF-8")]
    NotText,
    /// This line of standard input, from 1 on, has this fault.
    #[error("line {0} of standard input: {1}")]
    Line(usize, LineFault),
    /// `newest` would go through first parents from several revisions.
    #[error("newest --first-parent takes one revision without ^, and date --first-parent several")]
    FirstParents,
    /// A list of commits begins nowhere.
    #[error("{0} needs a revision without ^, as HEAD")]
    NoTip(&'static str),
    /// The revisions that `contains`, `containing` or `merge-base` asks about are missing or hidden, or the first isn't named.
    #[error("{0} needs two revisions at least, the first of them by its name, as in {0} A --tags, and none with ^ or a range A..B")]
    Several(&'static str),
    /// `ahead` takes two revisions.
    #[error("ahead takes two revisions without ^, or A...B")]
    Ahead,
    /// `is-ancestor` and `files` take so many revisions.
    #[error("the number of revisions for {0} is {1}, none of them with ^ or a range A..B")]
    Number(&'static str, usize),
    /// `check-graph` takes no revisions.
    #[error("check-graph takes no revisions, and no option but -C")]
    CheckGraph,
    /// `verify-certificate` takes one file.
    #[error("verify-certificate takes one file, and no option but -C and --no-graph")]
    Certificate,
    /// Behind `--certificate` its file is missing.
    #[error("--certificate needs a file")]
    NoFile,
    /// This argument isn't UTF-8, and can't be a revision that begins with the name of a ref.
    #[error("{0:?} isn't UTF-8, and only a revision by the name of a ref may be so")]
    Arguments(Quoted),
    /// Memory ran out.
    #[error("out of memory")]
    Memory,
}

/// What is wrong with a line of standard input that is to be a revision.
#[derive(Clone, Copy, PartialEq, Eq, Debug, Error)]
pub enum LineFault {
    /// It has no letters, or `^` alone.
    #[error("a revision is empty")]
    Empty,
    /// It has more than one `^` before it.
    #[error("a revision has one ^ at most")]
    TwoHidden,
    /// It ends in a carriage return.
    #[error("a revision ends in a carriage return")]
    CarriageReturn,
    /// It begins with `-`.
    #[error("an option is no revision")]
    Dash,
    /// It isn't UTF-8.
    #[error("a revision isn't UTF-8")]
    NotText,
}

impl Misuse {
    /// The option doesn't go with this command.
    pub(crate) fn option(option: &'static str, name: Name) -> Misuse {
        Misuse::Misfit(option, name.word(), fitting(option))
    }
}

/// The commands that an option goes with, where these are few.
fn fitting(option: &str) -> &'static str {
    match option {
        "--first-parent" => ", only with breadth, newest, topo and date",
        "--since" => ", only with newest and oldest",
        "--names" => ", only with contains and containing",
        "-n" => ", only with lists of commits and with files",
        "--certificate" | "-z" => "",
        _ => ", only with lists of commits",
    }
}

impl From<AllocError> for Misuse {
    fn from(_error: AllocError) -> Misuse {
        Misuse::Memory
    }
}

impl<T: Drop> From<AllocFailed<T>> for Misuse {
    fn from(_error: AllocFailed<T>) -> Misuse {
        Misuse::Memory
    }
}
