//! What a certificate says.
use crate::digest::Digest;
use gix_hash::ObjectId;
use std::alloc::{AllocError, Global};

/// What a run wrote, and from what.
#[derive(Debug)]
pub struct Certificate {
    /// The words behind the program's name, as they were given.
    pub words: Vec<String>,
    /// The lines of standard input, where the words have `--stdin`.
    pub lines: Vec<String>,
    /// What each revision was resolved to, in the order in which they were given.
    pub revisions: Vec<Revision>,
    /// The question: the command over ids that ran, with its options, the ids and those with `^`, in order.
    pub question: Vec<String>,
    /// What was written.
    pub output: Lines,
    /// The exit status: 0, or 3 where something isn't reported.
    pub status: u8,
    /// Which rows were used in place of commits.
    pub rows: Rows,
    /// The program.
    pub program: Program,
    /// The pages that say what the program promises.
    pub pages: Vec<Page>,
}

/// A revision, and what it was resolved to.
#[derive(Debug)]
pub struct Revision {
    /// The revision as it was written, without `^`. Of `A...B` it is A.
    pub word: String,
    /// What it was resolved to.
    pub meaning: Meaning,
}

impl Drop for Revision {
    fn drop(self) {
        let Revision {
            word: _,
            meaning: _,
        } = self;
    }
}

/// What a revision was resolved to.
#[derive(Clone, Copy, PartialEq, Eq, Debug)]
pub enum Meaning {
    /// An object.
    One {
        /// Its id.
        id: ObjectId,
        /// Whether what it reaches is left out.
        is_excluded: bool,
    },
    /// What one of two commits reaches, but not both.
    Symmetric {
        /// The id of the first.
        one: ObjectId,
        /// The id of the second.
        other: ObjectId,
    },
}

/// The lines that were written.
#[derive(Clone, Copy, PartialEq, Eq, Debug)]
pub struct Lines {
    /// The digest of all their bytes.
    pub sha256: Digest,
    /// The number of their bytes.
    pub bytes: u64,
}

/// Which rows were used in place of commits.
#[derive(Clone, Copy, PartialEq, Eq, Debug)]
pub enum Rows {
    /// None: all commits were read themselves.
    Unused,
    /// Those of git's commit-graph, which had been compared with the commits.
    Checked,
    /// Those of git's commit-graph, which nobody had compared.
    Trusted,
    /// Those of the border of a shallow clone, which have no parents.
    Border,
}

/// Which program ran.
#[derive(Debug)]
pub struct Program {
    /// Its version.
    pub version: String,
    /// The commit of its sources, where that is known.
    pub commit: Option<String>,
    /// The toolchain that has proved it, where it is known that one has.
    pub proved_by: Option<String>,
    /// The digest of its file.
    pub sha256: Digest,
}

/// A page of definitions.
#[derive(Debug)]
pub struct Page {
    /// Its path in the repository of the program's sources.
    pub name: String,
    /// The digest of its file.
    pub sha256: Digest,
}

impl Drop for Page {
    fn drop(self) {
        let Page { name: _, sha256: _ } = self;
    }
}

/// A call drops a certificate. Else each function that holds one would drop its parts one by one, and so would its proof.
impl Drop for Certificate {
    fn drop(self) {
        let Certificate {
            words: _,
            lines: _,
            revisions: _,
            question: _,
            output: _,
            status: _,
            rows: _,
            program: _,
            pages: _,
        } = self;
    }
}

/// A call drops a program.
impl Drop for Program {
    fn drop(self) {
        let Program {
            version: _,
            commit: _,
            proved_by: _,
            sha256: _,
        } = self;
    }
}

impl Rows {
    ghost use Rattle.std.specs.Prelude.{◌≡◌};
    ghost use Rattle.gix_certificate.specs.Written.{rows_word};

    /// The rows of this name.
    pub fn of(word: &str) -> Option<Rows> {
        match word {
            "none" => Some(Rows::Unused),
            "checked" => Some(Rows::Checked),
            "trusted" => Some(Rows::Trusted),
            "border" => Some(Rows::Border),
            _ => None,
        }
    }

    /// Their name.
    pub fn word(self) -> &'static str
        ensures { result.now ≡ rows_word self }
    {
        match self {
            Rows::Unused => "none",
            Rows::Checked => "checked",
            Rows::Trusted => "trusted",
            Rows::Border => "border",
        }
    }
}

impl Program {
    /// The program of this version and this digest, of which what built it has left a line: `commit C, proved by T`.
    pub fn new(
        alloc: Global,
        version: &str,
        about: &str,
        sha256: Digest,
    ) -> Result<Program, AllocError> {
        let version = String::from_str(alloc, version)?;
        let parts = about
            .trim_end()
            .strip_prefix("commit ")
            .and_then(|line| line.rsplit_once(", proved by "));
        let (commit, proved_by) = match parts {
            Some((commit, toolchain)) => (
                Some(String::from_str(alloc, commit)?),
                Some(String::from_str(alloc, toolchain)?),
            ),
            None => (None, None),
        };
        Ok(Program {
            version,
            commit,
            proved_by,
            sha256,
        })
    }
}
