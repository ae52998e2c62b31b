//! The words that name revisions, and what they ask for.
ghost use Rattle.std.specs.Prelude.{◌≡◌, ◌+◌, ◌≤◌, ◌<◌, length};
ghost use Rattle.gix_revision.specs.Opposite.{opposite};

use gix_hash::{Kind, ObjectId};
use std::alloc::{AllocFailed, Global};
use thiserror::Error;

/// The greatest number of a step, as in git.
const MOST: u32 = 0x7FFF_FFFF;

/// What tags, and a commit's tree, are followed to.
#[derive(Clone, Copy, PartialEq, Eq, Debug)]
pub enum Target {
    /// `^{commit}`: the commit that tags lead to.
    Commit,
    /// `^{tree}`: the tree that tags lead to, or that of the commit that they lead to.
    Tree,
    /// `^{tag}`: the tag itself.
    Tag,
    /// `^{blob}`: the blob that tags lead to.
    Blob,
    /// `^{object}`: the object itself, of any kind.
    Object,
    /// `^{}`: the object that tags lead to and that is no tag.
    Untagged,
}

/// What leads from one object to another.
#[derive(Clone, Copy, Debug)]
pub enum Step<'a> {
    /// `^n`: the parent of this number, from 1 on, of the commit that tags lead to. The number 0 is the commit itself.
    Parent(u32),
    /// `~n`: so many times the first parent, from the commit that tags lead to.
    Ancestor(u32),
    /// `^{..}`: what tags lead to.
    Peel(Target),
    /// A name of a path: the entry of a tree that has it.
    Entry(&'a str),
}

/// What the steps begin at.
#[derive(Clone, Copy, Debug)]
pub enum Base<'a> {
    /// This id, whatever refs there are.
    Id(ObjectId),
    /// The name of a ref, or the first digits of an id.
    Name(&'a str),
    /// `BRANCH@{upstream}`: the upstream of this branch, or of the one that HEAD is where none is named.
    Upstream(Option<&'a str>),
}

/// One object that is asked for: a name or an id, and the steps from there.
#[derive(Drop, Debug)]
pub struct Rev<'a> {
    /// The text that it was written as.
    pub text: &'a str,
    /// What the steps begin at.
    pub base: Base<'a>,
    /// The steps, the first one first.
    pub steps: Vec<Step<'a>>,
    /// Whether a path is among them: `REV:path`.
    pub has_path: bool,
}

impl Rev<'_> {
    /// Whether the steps begin at an id that is written whole, so that the same object is meant whatever refs there are.
    pub fn is_of_id(&self) -> bool {
        matches!(self.base, Base::Id(_))
    }
}

/// What a word asks for.
#[derive(Drop, Debug)]
pub enum Revision<'a> {
    /// `A`, or `^A` where it is hidden.
    One {
        /// The revision, without the `^`.
        rev: Rev<'a>,
        /// Whether what it reaches is left out.
        is_hidden: bool,
    },
    /// `A..B`: what B reaches and A doesn't.
    Range {
        /// A, which is HEAD where nothing is written.
        hidden: Rev<'a>,
        /// B, which is HEAD where nothing is written.
        tip: Rev<'a>,
    },
    /// `A...B`: what one of the two reaches, but not both.
    Symmetric {
        /// A, which is HEAD where nothing is written.
        one: Rev<'a>,
        /// B, which is HEAD where nothing is written.
        other: Rev<'a>,
    },
    /// `A...B` behind `--not`: what neither of the two reaches.
    Neither {
        /// A, which is HEAD where nothing is written.
        one: Rev<'a>,
        /// B, which is HEAD where nothing is written.
        other: Rev<'a>,
    },
    /// `A^@`: all parents of A, or `^A^@`, where they are hidden.
    Parents {
        /// A.
        rev: Rev<'a>,
        /// Whether what they reach is left out.
        are_hidden: bool,
    },
    /// `A^!`: A, and hidden all its parents; `A^-n`: A, and hidden its parent n. Behind `^` A is hidden, and the parents aren't.
    Without {
        /// A.
        rev: Rev<'a>,
        /// The number of the parent, from 1 on. None where all are meant.
        parent: Option<u32>,
        /// Whether A is hidden, and not the parents.
        is_hidden: bool,
    },
}

impl<'a> Revision<'a> {
    /// What the same word means where `^` means the opposite, as behind `--not`: what is hidden isn't, and what isn't is.
    pub fn turned(self) -> Revision<'a>
        ensures { result ≡ opposite self.entry }
    {
        match self {
            Revision::One { rev, is_hidden } => Revision::One {
                rev,
                is_hidden: !is_hidden,
            },
            Revision::Range { hidden, tip } => Revision::Range {
                hidden: tip,
                tip: hidden,
            },
            Revision::Symmetric { one, other } => Revision::Neither { one, other },
            Revision::Neither { one, other } => Revision::Symmetric { one, other },
            Revision::Parents { rev, are_hidden } => Revision::Parents {
                rev,
                are_hidden: !are_hidden,
            },
            Revision::Without {
                rev,
                parent,
                is_hidden,
            } => Revision::Without {
                rev,
                parent,
                is_hidden: !is_hidden,
            },
        }
    }

    /// The parts of what the word means, in the order in which they are found.
    pub fn parts(&self) -> (Part<'a>, Option<Part<'a>>) {
        match self {
            Revision::One { rev, is_hidden } => (Part::One(rev.text, *is_hidden), None),
            Revision::Range { hidden, tip } => (
                Part::One(hidden.text, true),
                Some(Part::One(tip.text, false)),
            ),
            Revision::Symmetric { one, .. } => (Part::Symmetric(one.text), None),
            Revision::Neither { one, other } => (
                Part::One(one.text, true),
                Some(Part::One(other.text, true)),
            ),
            Revision::Parents { rev, are_hidden } => (Part::Parents(rev.text, *are_hidden), None),
            Revision::Without {
                rev,
                parent,
                is_hidden,
            } => {
                let parents = match parent {
                    Some(number) => Part::Parent(rev.text, *number, !*is_hidden),
                    None => Part::Parents(rev.text, !*is_hidden),
                };
                (parents, Some(Part::One(rev.text, *is_hidden)))
            }
        }
    }
}

/// A part of what a word means: the text of the revision, and whether what it reaches is left out.
#[derive(Clone, Copy, PartialEq, Eq, Debug)]
pub enum Part<'a> {
    /// The revision.
    One(&'a str, bool),
    /// What one of two commits reaches, but not both. The text is that of the first.
    Symmetric(&'a str),
    /// All parents of the revision.
    Parents(&'a str, bool),
    /// The parent of this number.
    Parent(&'a str, u32, bool),
}

/// A form of revisions that git takes and that isn't taken here. Its text says what is taken in its place.
#[derive(Clone, Copy, PartialEq, Eq, Debug, Error)]
pub enum Form {
    /// `REF@{..}`.
    #[error("the log of a ref (`@{{..}}`) isn't taken, but the id that `git reflog` shows is")]
    Log,
    /// `@{-n}`.
    #[error("the branch that was checked out before (`@{{-n}}`) isn't taken, but its name is")]
    Previous,
    /// `BRANCH@{push}`.
    #[error("what a branch is pushed to (`@{{push}}`) isn't taken, but its name is, as `origin/main`")]
    Push,
    /// `:/text` and `REV^{/text}`.
    #[error("a search for a message (`:/text`) isn't taken, but the commit's id is")]
    Message,
    /// `:path` and `:n:path`.
    #[error("a path in the index (`:path`) isn't taken, but files takes `HEAD:path`")]
    Index,
    /// `REV:./path` and `REV:../path`.
    #[error("a path from the current folder (`:./path`) isn't taken, but one from the top is (`:path`)")]
    RelativePath,
    /// `REV:path`, where a commit is wanted.
    #[error("a path (`:path`) isn't taken in place of a commit, but files takes one")]
    Path,
    /// Words with `*`, `?` or `[`.
    #[error("a pattern isn't taken, but --branches, --tags, --remotes and --all are")]
    Pattern,
    /// `v1-3-gabc`, as `git describe` writes it.
    #[error("what `git describe` writes isn't taken, but the digits behind its `-g` are")]
    Described,
    /// `A..B`, `A...B`, `A^@`, `A^!` and `A^-`, where one tree is wanted.
    #[error("a range isn't taken in place of a tree")]
    Range,
}

/// Why a word is no revision that is taken.
#[derive(Clone, Copy, PartialEq, Eq, Debug, Error)]
pub enum ParseFault {
    /// The word is of this form.
    #[error("{0}")]
    NotTaken(Form),
    /// Nothing is in front of the steps.
    #[error("it names nothing")]
    Empty,
    /// The word is `..`, which git takes for a folder.
    #[error("`..` is the name of a folder")]
    Dots,
    /// The word is `^A..B` or `^A...B`.
    #[error("`^` is in front of a range")]
    HiddenRange,
    /// What is behind a revision is none of `~n`, `^n`, `^{..}` and `:path`.
    #[error("it has a step that isn't known")]
    Step,
    /// What is within `^{..}` is no kind of object.
    #[error("it has a kind of object that isn't known")]
    Kind,
    /// A number is above 2,147,483,647.
    #[error("it has a number above 2147483647")]
    Number,
    /// Memory ran out.
    #[error("out of memory")]
    Memory,
}

impl<T: Drop> From<AllocFailed<T>> for ParseFault {
    fn from(_error: AllocFailed<T>) -> ParseFault {
        ParseFault::Memory
    }
}

/// What a word asks for, in a repository whose ids are of this kind. No ref and no object is looked at.
///
/// # Errors
///
/// The first [`ParseFault`] from the left.
pub fn parse(alloc: Global, kind: Kind, word: &str) -> Result<Revision<'_>, ParseFault> {
    if word == ".." {
        return Err(ParseFault::Dots);
    }
    if let Some(text) = word.strip_prefix('^') {
        if range_of(text).is_some() {
            return Err(ParseFault::HiddenRange);
        }
        return Ok(without_range(alloc, kind, text)?.turned());
    }
    let Some((before, behind)) = range_of(word) else {
        return without_range(alloc, kind, word);
    };
    match behind.strip_prefix('.') {
        Some(behind) => {
            let one = rev_of(alloc, kind, or_head(before))?;
            let other = rev_of(alloc, kind, or_head(behind))?;
            Ok(Revision::Symmetric { one, other })
        }
        None => {
            let hidden = rev_of(alloc, kind, or_head(before))?;
            let tip = rev_of(alloc, kind, or_head(behind))?;
            Ok(Revision::Range { hidden, tip })
        }
    }
}

/// What is before the first `..` and behind it. None where there is none, or a path is in front of it.
fn range_of(word: &str) -> Option<(&str, &str)> {
    before_path(word, "..")
}

/// What is before the first mark of this text and behind it. None where there is none, or a path is in front of it.
fn before_path<'a>(text: &'a str, mark: &str) -> Option<(&'a str, &'a str)> {
    let (before, behind) = text.split_once(mark)?;
    if before.contains(':') {
        return None;
    }
    Some((before, behind))
}

/// A side of a range, which is HEAD where nothing is written.
fn or_head(text: &str) -> &str {
    if text.is_empty() { "HEAD" } else { text }
}

/// What a text without `..` asks for: a revision, or with `^@`, `^!`, `^-` or `^-n` at its end also parents of it.
fn without_range(alloc: Global, kind: Kind, text: &str) -> Result<Revision<'_>, ParseFault> {
    let is_hidden = false;
    if let Some((text, "")) = before_path(text, "^@") {
        let rev = rev_of(alloc, kind, text)?;
        let are_hidden = false;
        return Ok(Revision::Parents { rev, are_hidden });
    }
    let (text, parent) = if let Some((text, "")) = before_path(text, "^!") {
        (text, None)
    } else if let Some((text, digits)) = before_path(text, "^-") {
        (text, Some(parent_at(digits)?))
    } else {
        let rev = rev_of(alloc, kind, text)?;
        return Ok(Revision::One { rev, is_hidden });
    };
    let rev = rev_of(alloc, kind, text)?;
    Ok(Revision::Without {
        rev,
        parent,
        is_hidden,
    })
}

/// The number behind `^-`, which is 1 where nothing is written.
fn parent_at(digits: &str) -> Result<u32, ParseFault> {
    match number_at(digits)? {
        (None, "") => Ok(1),
        (Some(number), "") if number > 0 => Ok(number),
        _ => Err(ParseFault::Step),
    }
}

/// The revision that a text names.
fn rev_of(alloc: Global, kind: Kind, text: &str) -> Result<Rev<'_>, ParseFault> {
    let (name, rest) = parts_of(text);
    let (base, mut rest) = base_of(kind, name, rest)?;
    let mut steps = Vec::new(alloc);
    let mut has_path = false;
    for _ in 0..=text.len() {
        if rest.is_empty() {
            break;
        }
        if let Some(path) = rest.strip_prefix(':') {
            push_path(&mut steps, path)?;
            has_path = true;
            break;
        }
        let (step, behind) = step_at(rest)?;
        steps.push(step)?;
        rest = behind;
    }
    Ok(Rev {
        text,
        base,
        steps,
        has_path,
    })
}

/// The text up to the first of `~`, `^`, `:` and `@{`, and the text from there on.
fn parts_of(text: &str) -> (&str, &str) {
    let bytes = text.as_bytes();
    for at in 0..bytes.len() {
        match bytes.get(at..).unwrap_or_default() {
            [b'~' | b'^' | b':', ..] | [b'@', b'{', ..] => {
                return text.split_at_checked(at).unwrap_or((text, ""));
            }
            _ => {}
        }
    }
    (text, "")
}

/// What a name means, and the steps behind it.
fn base_of<'a>(
    kind: Kind,
    name: &'a str,
    behind: &'a str,
) -> Result<(Base<'a>, &'a str), ParseFault> {
    if let Some(inner) = behind.strip_prefix("@{") {
        return match inner.split_once('}') {
            Some((mark, steps)) if is_upstream(mark) => {
                Ok((Base::Upstream(branch_of(name)), steps))
            }
            _ => Err(ParseFault::NotTaken(log_form(inner))),
        };
    }
    if name.is_empty() {
        return match behind.as_bytes() {
            [b':', b'/', ..] => Err(ParseFault::NotTaken(Form::Message)),
            [b':', _, ..] => Err(ParseFault::NotTaken(Form::Index)),
            _ => Err(ParseFault::Empty),
        };
    }
    if name == "@" {
        return Ok((Base::Name("HEAD"), behind));
    }
    for byte in name.as_bytes() {
        if let b'*' | b'?' | b'[' = *byte {
            return Err(ParseFault::NotTaken(Form::Pattern));
        }
    }
    Ok(match ObjectId::from_digits(name.as_bytes(), kind) {
        Some(id) => (Base::Id(id), behind),
        None => (Base::Name(name), behind),
    })
}

/// Whether `@{..}` with this in it is the upstream of a branch. Capitals are taken too, as by git.
fn is_upstream(mark: &str) -> bool {
    mark.eq_ignore_ascii_case("u") || mark.eq_ignore_ascii_case("upstream")
}

/// The branch that is named before `@{upstream}`. None where it is the one that HEAD is.
fn branch_of(name: &str) -> Option<&str> {
    match name {
        "" | "@" | "HEAD" => None,
        name => Some(name),
    }
}

/// The form whose text behind `@{` this is.
fn log_form(inner: &str) -> Form {
    if inner.starts_with('-') {
        return Form::Previous;
    }
    if inner.starts_with("push}") {
        return Form::Push;
    }
    Form::Log
}

/// The step at the front of a text that isn't empty, and the text behind it.
fn step_at(text: &str) -> Result<(Step<'_>, &str), ParseFault> {
    if let Some(behind) = text.strip_prefix('~') {
        let (number, behind) = number_at(behind)?;
        return Ok((Step::Ancestor(number.unwrap_or(1)), behind));
    }
    let Some(behind) = text.strip_prefix('^') else {
        return Err(ParseFault::Step);
    };
    match behind.as_bytes() {
        [b'{', b'/', ..] => Err(ParseFault::NotTaken(Form::Message)),
        [b'@' | b'!' | b'-', ..] => Err(ParseFault::Step),
        [b'{', ..] => peel_at(behind),
        _ => {
            let (number, behind) = number_at(behind)?;
            Ok((Step::Parent(number.unwrap_or(1)), behind))
        }
    }
}

/// The step of a kind of object in braces, and the text behind it.
fn peel_at(text: &str) -> Result<(Step<'_>, &str), ParseFault> {
    let Some((kind, behind)) = text.split_once('}') else {
        return Err(ParseFault::Step);
    };
    let target = match kind {
        "{commit" => Target::Commit,
        "{tree" => Target::Tree,
        "{tag" => Target::Tag,
        "{blob" => Target::Blob,
        "{object" => Target::Object,
        "{" => Target::Untagged,
        _ => return Err(ParseFault::Kind),
    };
    Ok((Step::Peel(target), behind))
}

/// The number that decimal digits at the front say, if there are any, and the text behind them.
fn number_at(text: &str) -> Result<(Option<u32>, &str), ParseFault> {
    let mut count = 0usize;
    for byte in text.as_bytes() {
        if !byte.is_ascii_digit() {
            break;
        }
        count = count.saturating_add(1);
    }
    let (digits, behind) = text.split_at_checked(count).unwrap_or(("", text));
    if digits.is_empty() {
        return Ok((None, behind));
    }
    match digits.parse::<u32>() {
        Ok(number) => {
            if number <= MOST {
                Ok((Some(number), behind))
            } else {
                Err(ParseFault::Number)
            }
        }
        Err(_) => Err(ParseFault::Number),
    }
}

/// Adds the steps of a path: to the tree, and then to an entry for each name. The names are parted by `/`, and one may be at the end.
fn push_path<'a>(steps: &mut Vec<Step<'a>>, path: &'a str) -> Result<(), ParseFault> {
    if path.starts_with("./") || path.starts_with("../") {
        return Err(ParseFault::NotTaken(Form::RelativePath));
    }
    steps.push(Step::Peel(Target::Tree))?;
    let mut rest = path;
    for _ in 0..=path.len() {
        if rest.is_empty() {
            break;
        }
        match rest.split_once('/') {
            Some((name, behind)) => {
                steps.push(Step::Entry(name))?;
                rest = behind;
            }
            None => {
                steps.push(Step::Entry(rest))?;
                break;
            }
        }
    }
    Ok(())
}
