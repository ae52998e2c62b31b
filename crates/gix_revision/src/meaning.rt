//! What words mean in a repository.
ghost use Rattle.std.specs.Prelude.{◌≡◌, ◌+◌, ◌≤◌, ◌<◌, ◌++◌, List, [], ◌∷◌, length, IfOk, OnOk};
ghost use Rattle.gix_revision.specs.declared.meaning.Chosen.TheVariants as chosen;
ghost use Rattle.gix_revision.specs.declared.parse.Target.TheVariants as target;
ghost use Rattle.gix_revision.specs.Resolves.{target_of, IsBase, Resolves, IsPushed, IsChosen, IsFor, Excludes, Adds, AddsAll, AddsOne, AddsCommits};
ghost use Rattle.gix_revision.specs.Leads.{HasLinks};

use crate::fault::{
    Fault, ambiguous, fault_of_ref, fault_of_steps, fault_of_word, quoted, unknown,
};
use crate::parse::{Base, Form, ParseFault, Rev, Revision, Step, Target, parse};
use crate::steps::{StepFault, follow, peel, read_links};
use crate::texts::Links;
use gix_hash::ObjectId;
use gix_object::Kind;
use gix_odb::{Front, Odb};
use gix_repository::{ByteFiles, Quoted, Repository, name_of_text, text_of_name};
use std::alloc::Global;
use std::fs::Files;
use std::os::unix::fs::FileExt;

/// The fewest digits of a short id, as in git.
const FEWEST_DIGITS: usize = 4;
/// How many ids a short id is compared with at the most.
const MOST_IDS: usize = 4096;

/// What a part of a word means.
#[derive(Clone, Copy, PartialEq, Eq, Debug)]
pub enum Chosen {
    /// An object.
    One {
        /// Its id.
        id: ObjectId,
        /// Whether what it reaches is left out.
        is_hidden: bool,
    },
    /// What one of two commits reaches, but not both. Their best common ancestors aren't looked for here.
    Symmetric {
        /// The id of the first.
        one: ObjectId,
        /// The id of the second.
        other: ObjectId,
    },
}

/// A part of a word, and what it means.
#[derive(Debug)]
pub struct Resolved {
    /// The revision as it was written, without `^`. Of `A...B` it is A. Of `A^@`, `A^!` and `A^-n` parent n is `A^n`. Of a ref of a set it is
    /// the name as [`text_of_name`](gix_repository::text_of_name) writes it.
    pub word: String,
    /// What it means.
    pub chosen: Chosen,
}

impl Drop for Resolved {
    fn drop(self) {
        let Resolved { word: _, chosen: _ } = self;
    }
}

/// Some refs of a repository.
#[derive(Clone, Copy, PartialEq, Eq, Debug)]
pub enum Set {
    /// All refs, and the HEADs of all worktrees.
    All,
    /// Those below `refs/heads/`.
    Branches,
    /// Those below `refs/tags/`.
    Tags,
    /// Those below `refs/remotes/`.
    Remotes,
}

/// Adds what a word means: `A`, `^A`, `A..B`, `A...B`, `A^@`, `A^!` or `A^-n`, and where a tree is wanted also `A:path`. Objects of the kind
/// `wanted` are meant: tags are followed to one, and a commit to its tree. If `is_turned`, `^` means the opposite, as behind `--not`.
///
/// An id that is written whole is this id, whatever refs there are. Else a ref is meant whose name the text stands for, in which a backslash and
/// three octal digits are a byte that isn't ASCII, and else the object whose id begins with these digits, four at the least. Each object on the way is compared with its id before its text is used.
///
/// # Errors
///
/// The first [`Fault`] from the left. `found` may have some parts of the word then. The repository can be used further.
pub fn resolve<R>(
    alloc: Global,
    repository: &mut Repository<R>,
    word: &str,
    is_turned: bool,
    wanted: Kind,
    found: &mut Vec<Resolved>,
) -> Result<(), Fault>
where
    R: ByteFiles + AllocGlobal + Clone + Drop,
    R::File: FileExt,
    ensures { OnOk result (Adds (target_of wanted) found.old.items found.new.items) }
{
    match parse_turned(alloc, repository.kind(), word, is_turned) {
        Ok(revision) => { resolve_parsed(alloc, repository, &revision, target_of(wanted), found) }
        Err(fault) => Err(fault_of_word(alloc, word, fault)),
    }
}

/// What a word asks for, where `^` may mean the opposite.
fn parse_turned(
    alloc: Global,
    kind: gix_hash::Kind,
    word: &str,
    is_turned: bool,
) -> Result<Revision<'_>, ParseFault> {
    let revision = parse(alloc, kind, word)?;
    Ok(if is_turned {
        revision.turned()
    } else {
        revision
    })
}

/// Adds what a parsed word means.
///
/// # Errors
///
/// Those of [`resolve`].
pub fn resolve_parsed<R>(
    alloc: Global,
    repository: &mut Repository<R>,
    revision: &Revision<'_>,
    wanted: Target,
    found: &mut Vec<Resolved>,
) -> Result<(), Fault>
where
    R: ByteFiles + AllocGlobal + Clone + Drop,
    R::File: FileExt,
    ensures { OnOk result (IsChosen wanted revision.now found.old.items found.new.items) }
{
    match revision {
        Revision::One { rev, is_hidden } => {
            let id = id_of(alloc, repository, rev, wanted)?;
            push_one(alloc, found, rev.text, id, *is_hidden)
        }
        Revision::Range { hidden, tip } => {
            let first = id_of(alloc, repository, hidden, wanted)?;
            let second = id_of(alloc, repository, tip, wanted)?;
            push_one(alloc, found, hidden.text, first, true)?;
            push_one(alloc, found, tip.text, second, false)
        }
        Revision::Symmetric { one, other } => {
            let word = one.text;
            let one = id_of(alloc, repository, one, wanted)?;
            let other = id_of(alloc, repository, other, wanted)?;
            push(alloc, found, word, Chosen::Symmetric { one, other })?;
            Ok(())
        }
        Revision::Neither { one, other } => {
            let first = id_of(alloc, repository, one, wanted)?;
            let second = id_of(alloc, repository, other, wanted)?;
            push_one(alloc, found, one.text, first, true)?;
            push_one(alloc, found, other.text, second, true)
        }
        Revision::Parents { rev, are_hidden } => {
            let commit = commit_of(alloc, repository, rev, wanted)?;
            push_parents(
                alloc,
                found,
                rev.text,
                commit.links.parents.as_slice(),
                *are_hidden,
            )
        }
        Revision::Without {
            rev,
            parent,
            is_hidden,
        } => {
            let commit = commit_of(alloc, repository, rev, wanted)?;
            push_excluded(alloc, found, rev.text, &commit, *parent, !*is_hidden)?;
            push_one(alloc, found, rev.text, commit.id, *is_hidden)
        }
    }
}

/// A commit that was read.
struct Commit {
    id: ObjectId,
    links: Links,
}

impl Drop for Commit {
    fn drop(self) {
        let Commit { id: _, links: _ } = self;
    }
}

/// The commit that a revision means.
fn commit_of<R>(
    alloc: Global,
    repository: &mut Repository<R>,
    rev: &Rev<'_>,
    wanted: Target,
) -> Result<Commit, Fault>
where
    R: ByteFiles + AllocGlobal + Clone + Drop,
    R::File: FileExt,
    ensures means { IfOk result (λ commit. IsFor target.Commit rev.now commit.id) }
    ensures links { IfOk result (λ commit. HasLinks commit.id commit.links.tree commit.links.parents.items) }
{
    if wanted != Target::Commit {
        let fault = ParseFault::NotTaken(Form::Range);
        return Err(fault_of_word(alloc, rev.text, fault));
    }
    let id = id_of(alloc, repository, rev, Target::Commit)?;
    match read_links(alloc, &mut repository.odb, &id) {
        Ok(links) => Ok(Commit { id, links }),
        Err(fault) => Err(fault_of_steps(alloc, rev.text, fault)),
    }
}

/// Adds the parent of this number of a commit, or all where there is no number.
fn push_excluded(
    alloc: Global,
    found: &mut Vec<Resolved>,
    text: &str,
    commit: &Commit,
    parent: Option<u32>,
    are_hidden: bool,
) -> Result<(), Fault>
    ensures { OnOk result ((named : List ObjectId) × Excludes parent commit.now.links.parents.items named
        × AddsAll are_hidden named found.old.items found.new.items) }
{
    let parents = commit.links.parents.as_slice();
    let Some(number) = parent else {
        return push_parents(alloc, found, text, parents, are_hidden);
    };
    match parents.get((number as usize).saturating_sub(1)) {
        Some(id) => push_parent(alloc, found, text, number as usize, *id, are_hidden),
        None => {
            let fault = StepFault::NoParent(commit.id, number);
            Err(fault_of_steps(alloc, text, fault))
        }
    }
}

/// Adds all parents of a commit.
fn push_parents(
    alloc: Global,
    found: &mut Vec<Resolved>,
    text: &str,
    parents: &[ObjectId],
    are_hidden: bool,
) -> Result<(), Fault>
    ensures { OnOk result (AddsAll are_hidden parents.now found.old.items found.new.items) }
{
    let mut number = 0usize;
    for id in parents {
        number = number.saturating_add(1);
        push_parent(alloc, found, text, number, *id, are_hidden)?;
    }
    Ok(())
}

/// Adds the parent of this number.
fn push_parent(
    alloc: Global,
    found: &mut Vec<Resolved>,
    text: &str,
    number: usize,
    id: ObjectId,
    is_hidden: bool,
) -> Result<(), Fault>
    ensures { OnOk result (IsPushed (chosen.One id is_hidden) found.old.items found.new.items) }
{
    let word = format!(in alloc; "{text}^{number}")?;
    push_one(alloc, found, word.as_str(), id, is_hidden)
}

/// Adds an object.
fn push_one(
    alloc: Global,
    found: &mut Vec<Resolved>,
    text: &str,
    id: ObjectId,
    is_hidden: bool,
) -> Result<(), Fault>
    ensures { OnOk result (IsPushed (chosen.One id is_hidden) found.old.items found.new.items) }
{
    push(alloc, found, text, Chosen::One { id, is_hidden })
}

/// Adds the refs of a set that lead to commits, by rising names, and the HEADs behind them. A ref that leads to an object of another
/// kind is left out. If `are_hidden`, what each of them reaches is left out, as behind `--not`.
///
/// # Errors
///
/// The first [`Fault`] that is met. `found` may have some of them then. The repository can be used further.
pub fn resolve_all<R>(
    alloc: Global,
    repository: &mut Repository<R>,
    set: Set,
    are_hidden: bool,
    found: &mut Vec<Resolved>,
) -> Result<(), Fault>
where
    R: ByteFiles + AllocGlobal + Clone + Drop,
    R::File: FileExt,
    ensures { OnOk result (AddsCommits are_hidden found.old.items found.new.items) }
{
    let prefix = match set {
        Set::All => b"refs/".as_slice(),
        Set::Branches => b"refs/heads/",
        Set::Tags => b"refs/tags/",
        Set::Remotes => b"refs/remotes/",
    };
    let listed = repository.list_below(prefix)?;
    if let Some(name) = listed.broken.first() {
        return Err(Fault::BrokenRef(Quoted::of(name.clone()?)));
    }
    for named in listed.refs.iter() {
        let name = named.name.as_slice();
        add_commit(alloc, repository, name, &named.id, are_hidden, found)?;
    }
    if set == Set::All {
        let heads = repository.heads()?;
        for head in heads.iter() {
            let name = head.name.as_slice();
            add_commit(alloc, repository, name, &head.id, are_hidden, found)?;
        }
    }
    Ok(())
}

/// Adds the commit that a ref leads to, if it leads to one.
fn add_commit<R>(
    alloc: Global,
    repository: &mut Repository<R>,
    name: &[u8],
    id: &ObjectId,
    is_hidden: bool,
    found: &mut Vec<Resolved>,
) -> Result<(), Fault>
where
    R: ByteFiles + AllocGlobal + Clone + Drop,
    R::File: FileExt,
    ensures { OnOk result (AddsOne is_hidden found.old.items found.new.items) }
{
    match peel(alloc, &mut repository.odb, id, Target::Commit) {
        Ok(id) => push_ref(alloc, found, name, Chosen::One { id, is_hidden }),
        Err(StepFault::Kind(..)) => Ok(()),
        Err(fault) => Err(fault_of_ref(alloc, name, fault)),
    }
}

/// Adds what a ref of this name means.
fn push_ref(
    alloc: Global,
    found: &mut Vec<Resolved>,
    name: &[u8],
    chosen: Chosen,
) -> Result<(), Fault>
    ensures { OnOk result (IsPushed chosen found.old.items found.new.items) }
{
    let word = text_of_name(alloc, name)?;
    found.push(Resolved { word, chosen })?;
    Ok(())
}

/// Adds what a part of a word means.
fn push(alloc: Global, found: &mut Vec<Resolved>, text: &str, chosen: Chosen) -> Result<(), Fault>
    ensures { OnOk result (IsPushed chosen found.old.items found.new.items) }
{
    let word = String::from_str(alloc, text)?;
    found.push(Resolved { word, chosen })?;
    Ok(())
}

/// What steps are to lead to where an object of this kind is wanted.
fn target_of(wanted: Kind) -> Target
    ensures { result ≡ target_of wanted }
{
    match wanted {
        Kind::Commit => Target::Commit,
        Kind::Tree => Target::Tree,
        Kind::Blob => Target::Blob,
        Kind::Tag => Target::Tag,
    }
}

/// The id of the object that a revision means.
fn id_of<R>(
    alloc: Global,
    repository: &mut Repository<R>,
    rev: &Rev<'_>,
    wanted: Target,
) -> Result<ObjectId, Fault>
where
    R: ByteFiles + AllocGlobal + Clone + Drop,
    R::File: FileExt,
    ensures { IfOk result (λ found. Resolves rev.now.base rev.now.steps.items wanted found) }
{
    if rev.has_path && wanted != Target::Tree {
        let fault = ParseFault::NotTaken(Form::Path);
        return Err(fault_of_word(alloc, rev.text, fault));
    }
    let steps = rev.steps.as_slice();
    let base = base_of(alloc, repository, rev.base, first_target(steps, wanted))?;
    let led = match follow(alloc, &mut repository.odb, &base, steps) {
        Ok(led) => led,
        Err(fault) => return Err(fault_of_steps(alloc, rev.text, fault)),
    };
    match peel(alloc, &mut repository.odb, &led, wanted) {
        Ok(id) => Ok(id),
        Err(fault) => Err(fault_of_steps(alloc, rev.text, fault)),
    }
}

/// What the base of a revision is to lead to, by which a short id is told from others.
fn first_target(steps: &[Step<'_>], wanted: Target) -> Target {
    match steps {
        [Step::Parent(_) | Step::Ancestor(_), ..] => Target::Commit,
        [Step::Peel(Target::Commit), ..] => Target::Commit,
        [Step::Peel(Target::Tree), ..] => Target::Tree,
        _ => wanted,
    }
}

/// What the steps of a revision begin at.
fn base_of<R>(
    alloc: Global,
    repository: &mut Repository<R>,
    base: Base<'_>,
    wanted: Target,
) -> Result<ObjectId, Fault>
where
    R: ByteFiles + AllocGlobal + Clone + Drop,
    R::File: FileExt,
    ensures { IfOk result (λ found. IsBase base.entry found) }
{
    match base {
        Base::Id(id) => Ok(id),
        Base::Name(name) => named(alloc, repository, name, wanted),
        Base::Upstream(branch) => upstream(alloc, repository, branch),
    }
}

/// The id of the upstream of a branch.
fn upstream<R>(
    alloc: Global,
    repository: &mut Repository<R>,
    branch: Option<&str>,
) -> Result<ObjectId, Fault>
where
    R: ByteFiles + AllocGlobal + Clone + Drop,
    R::File: FileExt,
{
    let name = match branch {
        Some(branch) => {
            let branch = name_of_text(alloc, branch)?;
            repository.upstream(Some(branch.as_slice()))?
        }
        None => repository.upstream(None)?,
    };
    if let Some(name) = name {
        if let Some(id) = repository.find_ref(name.as_slice())? {
            return Ok(id);
        }
    }
    Err(Fault::NoUpstream(quoted(alloc, branch.unwrap_or("HEAD"))?))
}

/// The id of the ref of a name, or the one that begins with these digits.
fn named<R>(
    alloc: Global,
    repository: &mut Repository<R>,
    name: &str,
    wanted: Target,
) -> Result<ObjectId, Fault>
where
    R: ByteFiles + AllocGlobal + Clone + Drop,
    R::File: FileExt,
{
    let bytes = name_of_text(alloc, name)?;
    if let Some(short) = repository.find_short(bytes.as_slice())? {
        return Ok(short.id);
    }
    if is_described(name) {
        let fault = ParseFault::NotTaken(Form::Described);
        return Err(fault_of_word(alloc, name, fault));
    }
    let digits = name.as_bytes();
    if digits.len() < FEWEST_DIGITS || digits.len() > repository.kind().len_in_hex() {
        return Err(unknown(alloc, name));
    }
    match Front::new(digits) {
        Some(front) => short_id(alloc, &mut repository.odb, name, &front, wanted),
        None => Err(unknown(alloc, name)),
    }
}

/// Whether a name is as `git describe` writes it: it ends with `-g` and hex digits.
fn is_described(name: &str) -> bool {
    match name.rsplit_once("-g") {
        Some((_, digits)) => digits.len() >= FEWEST_DIGITS
            && Front::new(digits.as_bytes()).is_some(),
        None => false,
    }
}

/// The one id that begins with some digits, or, of several, the one whose object leads to what is wanted.
fn short_id<R>(
    alloc: Global,
    odb: &mut Odb<R>,
    name: &str,
    front: &Front,
    wanted: Target,
) -> Result<ObjectId, Fault>
where
    R: Files + AllocGlobal + Clone + Drop,
    R::File: FileExt,
{
    let ids = odb.ids_from(front, MOST_IDS)?;
    match ids.as_slice() {
        [] => return Err(unknown(alloc, name)),
        [id] => return Ok(*id),
        _ => {}
    }
    if ids.len() >= MOST_IDS {
        return Err(ambiguous(alloc, name, ids.as_slice()));
    }
    let mut fitting = Vec::new(alloc);
    for id in ids.iter() {
        if leads_to(alloc, odb, name, id, wanted)? {
            fitting.push(*id)?;
        }
    }
    match fitting.as_slice() {
        [] => Err(ambiguous(alloc, name, ids.as_slice())),
        [id] => Ok(*id),
        several => Err(ambiguous(alloc, name, several)),
    }
}

/// Whether an object leads to what is wanted.
fn leads_to<R>(
    alloc: Global,
    odb: &mut Odb<R>,
    name: &str,
    id: &ObjectId,
    wanted: Target,
) -> Result<bool, Fault>
where
    R: Files + AllocGlobal + Clone + Drop,
    R::File: FileExt,
{
    match peel(alloc, odb, id, wanted) {
        Ok(_) => Ok(true),
        Err(fault) => match fault {
            StepFault::Read(_) | StepFault::Memory => Err(fault_of_steps(alloc, name, fault)),
            _ => Ok(false),
        },
    }
}
