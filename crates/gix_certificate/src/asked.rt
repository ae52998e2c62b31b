//! What the words of a certificate ask, compared in order with what its revisions say that they stood for.
use crate::fault::Fault;
use crate::record::{Meaning, Revision};
use gix_hash::{Kind, ObjectId};
use gix_options::{Asked, Refs};
use gix_revision::Resolved;
use gix_revision::parse::{self, ParseFault, Part, Rev, parse};
use std::alloc::{AllocError, Global};
use std::collections::BTreeMap;

/// The revisions of a certificate that belong to words which aren't read yet.
pub struct Left<'a> {
    alloc: Global,
    kind: Kind,
    revisions: &'a [Revision],
}

impl<'a> Drop for Left<'a> {
    fn drop(self) {
        let Left {
            alloc: _,
            kind: _,
            revisions: _,
        } = self;
    }
}

/// The words of a question, with the lines of standard input in their place.
pub fn each(alloc: Global, asked: &[Asked], lines: &[String]) -> Result<Vec<Asked>, AllocError> {
    let mut words = Vec::new(alloc);
    for one in asked {
        match one {
            Asked::Word(word) => words.push(Asked::Word(word.clone()?))?,
            Asked::Turned(word) => words.push(Asked::Turned(word.clone()?))?,
            Asked::Refs(refs) => words.push(Asked::Refs(*refs))?,
            Asked::Hidden(refs) => words.push(Asked::Hidden(*refs))?,
            Asked::Lines => add_lines(lines, &mut words)?,
        }
    }
    Ok(words)
}

/// Adds the lines of standard input as words.
fn add_lines(lines: &[String], words: &mut Vec<Asked>) -> Result<(), AllocError> {
    for line in lines {
        words.push(Asked::Word(line.clone()?))?;
    }
    Ok(())
}

/// Whether revisions are those that words name, in their order, each with its `^` and as often.
///
/// # Errors
///
/// `Member` where they aren't, and `Memory`.
pub fn check(
    alloc: Global,
    kind: Kind,
    words: &[Asked],
    revisions: &[Revision],
) -> Result<(), Fault> {
    let mut left = Left::new(alloc, kind, revisions);
    for word in words {
        left.take(word)?;
    }
    left.end()
}

/// The word by which it is found out again what a word stood for, whatever refs there are: each commit is called by its id, in place of a
/// name that may mean another one now. None where nothing is found out so, as of a name alone.
pub fn fixed(
    alloc: Global,
    kind: Kind,
    asked: &Asked,
    taken: &[Revision],
) -> Result<Option<Asked>, Fault> {
    let (word, is_turned) = match asked {
        Asked::Word(word) => (word, false),
        Asked::Turned(word) => (word, true),
        _ => return Ok(None),
    };
    let revision = parsed(alloc, kind, word.as_str(), is_turned)?;
    Ok(match &revision {
        parse::Revision::One { rev, .. } | parse::Revision::Parents { rev, .. } => {
            if rev.is_of_id() {
                Some(copy(word, is_turned)?)
            } else {
                None
            }
        }
        parse::Revision::Range { hidden, tip } => {
            let (first, second) = ids_of(taken)?;
            pair(alloc, hidden, tip, "..", first, second)?.map(Asked::Word)
        }
        parse::Revision::Symmetric { one, other } => {
            let (first, second) = ids_of(taken)?;
            pair(alloc, one, other, "...", first, second)?.map(Asked::Word)
        }
        parse::Revision::Neither { one, other } => {
            let (first, second) = ids_of(taken)?;
            pair(alloc, one, other, "...", first, second)?.map(Asked::Turned)
        }
        parse::Revision::Without {
            rev,
            parent,
            is_hidden,
        } => {
            let commit = side(alloc, rev, last_of(taken)?)?;
            let mark = if *is_hidden { "^" } else { "" };
            Some(Asked::Word(match parent {
                Some(number) => format!(in alloc; "{mark}{commit}^-{number}")?,
                None => format!(in alloc; "{mark}{commit}^!")?,
            }))
        }
    })
}

/// A copy of a word.
fn copy(word: &String, is_turned: bool) -> Result<Asked, AllocError> {
    let word = word.clone()?;
    Ok(if is_turned {
        Asked::Turned(word)
    } else {
        Asked::Word(word)
    })
}

/// The two sides of a range, each by its id. None where neither is written as an id.
fn pair(
    alloc: Global,
    one: &Rev<'_>,
    other: &Rev<'_>,
    dots: &str,
    first: ObjectId,
    second: ObjectId,
) -> Result<Option<String>, AllocError> {
    if !one.is_of_id() && !other.is_of_id() {
        return Ok(None);
    }
    let one = side(alloc, one, first)?;
    let other = side(alloc, other, second)?;
    Ok(Some(format!(in alloc; "{one}{dots}{other}")?))
}

/// A revision as it is written where it is that of an id, and else the id that it stood for.
fn side(alloc: Global, rev: &Rev<'_>, id: ObjectId) -> Result<String, AllocError> {
    if rev.is_of_id() {
        String::from_str(alloc, rev.text)
    } else {
        format!(in alloc; "{id}")
    }
}

/// The ids that both sides of a range stood for.
fn ids_of(taken: &[Revision]) -> Result<(ObjectId, ObjectId), Fault> {
    match taken {
        [first] => match first.meaning {
            Meaning::Symmetric { one, other } => Ok((one, other)),
            Meaning::One { .. } => Err(Fault::Member("revisions")),
        },
        [first, ..] => match first.meaning {
            Meaning::One { id, .. } => Ok((id, last_of(taken)?)),
            Meaning::Symmetric { .. } => Err(Fault::Member("revisions")),
        },
        [] => Err(Fault::Member("revisions")),
    }
}

/// The id that the last revision stood for.
fn last_of(taken: &[Revision]) -> Result<ObjectId, Fault> {
    match taken.last() {
        Some(
            Revision {
                meaning: Meaning::One { id, .. },
                ..
            },
        ) => Ok(*id),
        _ => Err(Fault::Member("revisions")),
    }
}

/// Whether revisions stood for what was found, in order.
pub fn stood_for(revisions: &[Revision], found: &[Resolved]) -> bool {
    let mut left = found;
    for revision in revisions {
        let [one, behind @ ..] = left else {
            return false;
        };
        if revision.meaning != meaning(one) {
            return false;
        }
        left = behind;
    }
    left.is_empty()
}

/// What a certificate says of what a revision stands for.
pub fn meaning(resolved: &Resolved) -> Meaning {
    match resolved.chosen {
        gix_revision::Chosen::One { id, is_hidden } => Meaning::One {
            id,
            is_excluded: is_hidden,
        },
        gix_revision::Chosen::Symmetric { one, other } => Meaning::Symmetric { one, other },
    }
}

/// What a word asks for, where `^` may mean the opposite.
fn parsed(
    alloc: Global,
    kind: Kind,
    word: &str,
    is_turned: bool,
) -> Result<parse::Revision<'_>, Fault> {
    match parse(alloc, kind, word) {
        Ok(revision) => Ok(if is_turned {
            revision.turned()
        } else {
            revision
        }),
        Err(ParseFault::Memory) => Err(Fault::Memory),
        Err(_) => Err(Fault::Member("revisions")),
    }
}

impl<'a> Left<'a> {
    /// All revisions of a certificate, of a repository whose ids are of this kind.
    pub fn new(alloc: Global, kind: Kind, revisions: &'a [Revision]) -> Left<'a> {
        Left {
            alloc,
            kind,
            revisions,
        }
    }

    /// Takes those that a word stood for from the front, and lends them.
    ///
    /// # Errors
    ///
    /// `Member` where others are there, and `Memory`.
    pub fn take(&mut self, asked: &Asked) -> Result<&'a [Revision], Fault> {
        let count = match asked {
            Asked::Word(word) => self.count_word(word.as_str(), false)?,
            Asked::Turned(word) => self.count_word(word.as_str(), true)?,
            Asked::Refs(refs) => self.count_refs(*refs, false)?,
            Asked::Hidden(refs) => self.count_refs(*refs, true)?,
            Asked::Lines => 0,
        };
        match self.revisions.split_at_checked(count) {
            Some((taken, left)) => {
                self.revisions = left;
                Ok(taken)
            }
            None => Err(Fault::Member("revisions")),
        }
    }

    /// No revision is left.
    ///
    /// # Errors
    ///
    /// `Member` where one is.
    pub fn end(&self) -> Result<(), Fault> {
        if self.revisions.is_empty() {
            Ok(())
        } else {
            Err(Fault::Member("revisions"))
        }
    }

    /// How many of the first revisions are the parts of a word.
    fn count_word(&self, word: &str, is_turned: bool) -> Result<usize, Fault> {
        let (first, second) = parsed(self.alloc, self.kind, word, is_turned)?.parts();
        let count = count_part(self.alloc, self.revisions, first)?;
        let Some(part) = second else {
            return Ok(count);
        };
        let behind = self.revisions.get(count..).unwrap_or_default();
        Ok(count.saturating_add(count_part(self.alloc, behind, part)?))
    }

    /// How many of the first revisions are refs of a set, by rising names, and the HEADs behind all refs, each once.
    fn count_refs(&self, refs: Refs, are_hidden: bool) -> Result<usize, Fault> {
        let folder = match refs {
            Refs::All => "refs/",
            Refs::Branches => "refs/heads/",
            Refs::Tags => "refs/tags/",
            Refs::Remotes => "refs/remotes/",
        };
        let count = count_rising(self.revisions, folder, are_hidden);
        if !matches!(refs, Refs::All) {
            return Ok(count);
        }
        let behind = self.revisions.get(count..).unwrap_or_default();
        Ok(count.saturating_add(count_heads(self.alloc, behind, are_hidden)?))
    }
}

/// How many of the first revisions are this part of a word.
fn count_part(alloc: Global, revisions: &[Revision], part: Part<'_>) -> Result<usize, Fault> {
    let Some(first) = revisions.first() else {
        return match part {
            Part::Parents(..) => Ok(0),
            _ => Err(Fault::Member("revisions")),
        };
    };
    let is_there = match part {
        Part::One(text, is_hidden) => is_one(first, text, is_hidden),
        Part::Symmetric(text) => {
            matches!(first.meaning, Meaning::Symmetric { .. }) && first.word.as_str() == text
        }
        Part::Parent(text, number, is_hidden) => {
            let name = format!(in alloc; "{text}^{number}")?;
            is_one(first, name.as_str(), is_hidden)
        }
        Part::Parents(text, are_hidden) => {
            return Ok(count_parents(alloc, revisions, text, are_hidden)?);
        }
    };
    if is_there {
        Ok(1)
    } else {
        Err(Fault::Member("revisions"))
    }
}

/// How many of the first revisions are parents of a revision, from the first parent on.
fn count_parents(
    alloc: Global,
    revisions: &[Revision],
    text: &str,
    are_hidden: bool,
) -> Result<usize, AllocError> {
    let mut count = 0usize;
    for revision in revisions {
        let number = count.saturating_add(1);
        let name = format!(in alloc; "{text}^{number}")?;
        if !is_one(revision, name.as_str(), are_hidden) {
            break;
        }
        count = number;
    }
    Ok(count)
}

/// How many of the first revisions are refs of a folder, by rising names.
fn count_rising(revisions: &[Revision], folder: &str, are_hidden: bool) -> usize {
    let mut before = "";
    let mut count = 0usize;
    for revision in revisions {
        let name = revision.word.as_str();
        let is_ref = name.starts_with(folder) && !has_steps(name);
        if !is_ref || !is_one(revision, name, are_hidden) || name <= before {
            break;
        }
        before = name;
        count = count.saturating_add(1);
    }
    count
}

/// How many of the first revisions are HEADs of worktrees, each once.
fn count_heads(
    alloc: Global,
    revisions: &[Revision],
    are_hidden: bool,
) -> Result<usize, AllocError> {
    let mut seen = BTreeMap::new(alloc);
    let mut count = 0usize;
    for revision in revisions {
        let name = revision.word.as_str();
        let is_head = match name.strip_suffix("HEAD") {
            Some("" | "main-worktree/") => true,
            Some(folder) => folder.starts_with("worktrees/") && !has_steps(folder),
            None => false,
        };
        if !is_head || !is_one(revision, name, are_hidden) || seen.contains_key(name) {
            break;
        }
        seen.insert(name, ())?;
        count = count.saturating_add(1);
    }
    Ok(count)
}

/// Whether a name has what no ref has: a step behind it, or a path.
fn has_steps(name: &str) -> bool {
    name.contains('~') || name.contains('^') || name.contains(':') || name.contains("@{")
}

/// Whether a revision is an object of this name, excluded or not.
fn is_one(revision: &Revision, name: &str, is_hidden: bool) -> bool {
    match revision.meaning {
        Meaning::One { is_excluded, .. } => {
            is_excluded == is_hidden && revision.word.as_str() == name
        }
        Meaning::Symmetric { .. } => false,
    }
}
