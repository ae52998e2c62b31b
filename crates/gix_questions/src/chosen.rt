//! The ids that revisions stand for.
ghost use Rattle.std.specs.Prelude.{◌≡◌, ◌++◌, false, option_map, IfOk, OnOk};
ghost use Rattle.gix_options.specs.OptionWords.{IsFit, order_options};
ghost use Rattle.gix_questions.specs.CommandWords.{command_words, list_tips, words_of_list, other_words};
ghost use Rattle.gix_questions.specs.Standing.{hidden_in, excluded_of, pairs_in, pairs_of, tips_in, tips_of};
ghost use Rattle.gix_revwalk.specs.Ids.{new_ids};
ghost use Rattle.gix_words.specs.Printed.{order_words, printed};
ghost use Rattle.gix_words.specs.Words.{request_of_command};

use crate::fault::Fault;
use gix_hash::hashtable::IdSet;
use gix_hash::{Keys, ObjectId};
use gix_object::Kind;
use gix_options::{Asked, Misuse, Name, Question, Refs};
use gix_repository::{ByteFiles, Repository};
use gix_revision::{Resolved, Set, resolve, resolve_all};
use gix_words::{Command, Order};
use std::alloc::{AllocError, Global};
use std::os::unix::fs::FileExt;

/// Two commits of which each is asked for without what both reach.
#[derive(Clone, Copy)]
pub struct Pair {
    /// The one.
    pub one: ObjectId,
    /// The other.
    pub other: ObjectId,
}

/// The ids that revisions stand for, in the order in which they were given.
pub struct Chosen {
    /// Those to begin with. The two of a pair are among them.
    pub tips: Vec<ObjectId>,
    /// Those that are excluded.
    pub hidden: Vec<ObjectId>,
    /// Those of `A...B`.
    pub pairs: Vec<Pair>,
    /// Each revision, and what it stands for.
    pub resolved: Vec<Resolved>,
}

impl Drop for Chosen {
    fn drop(self) {
        let Chosen {
            tips: _,
            hidden: _,
            pairs: _,
            resolved: _,
        } = self;
    }
}

/// The ids that the revisions of a question stand for. Those of [`Asked::Lines`] are `lines`.
///
/// # Errors
///
/// The first [`Fault`] that is met. `NoCommit` where a revision is called unknown, and there is no ref.
pub fn choose<R>(
    alloc: Global,
    repository: &mut Repository<R>,
    question: &Question,
    lines: &[String],
) -> Result<Chosen, Fault>
where
    R: ByteFiles + AllocGlobal + Clone + Drop,
    R::File: FileExt,
{
    let resolved = resolve_words(alloc, repository, question, lines)?;
    choose_from(alloc, question, resolved)
}

/// Reads what the revisions of a question stand for. Those of [`Asked::Lines`] are `lines`.
///
/// # Errors
///
/// As those of [`choose`], except `Misuse`.
pub fn resolve_words<R>(
    alloc: Global,
    repository: &mut Repository<R>,
    question: &Question,
    lines: &[String],
) -> Result<Vec<Resolved>, Fault>
where
    R: ByteFiles + AllocGlobal + Clone + Drop,
    R::File: FileExt,
{
    let mut resolved = Vec::new(alloc);
    let wanted = wanted(question.name);
    let mut number = 0usize;
    for asked in question.asked.iter() {
        number = number.saturating_add(1);
        let added = resolve_one(alloc, repository, asked, lines, wanted, &mut resolved);
        if let Err(fault) = added {
            return Err(fault_of(repository, number, fault)?);
        }
    }
    Ok(resolved)
}

/// The kind of object that a command asks about.
pub fn wanted(name: Name) -> Kind {
    match name {
        Name::Files => Kind::Tree,
        _ => Kind::Commit,
    }
}

/// The ids that a question is about, from what its revisions stand for.
///
/// # Errors
///
/// `Misuse` where the revisions stand for too many ids, or too few. `Memory`.
pub fn choose_from(
    alloc: Global,
    question: &Question,
    resolved: Vec<Resolved>,
) -> Result<Chosen, Fault>
    ensures tips { IfOk result (λ chosen. chosen.tips.items ≡ tips_of resolved.items) }
    ensures hidden { IfOk result (λ chosen. chosen.hidden.items ≡ excluded_of resolved.items) }
    ensures pairs { IfOk result (λ chosen. chosen.pairs.items ≡ pairs_of resolved.items) }
{
    let mut chosen = Chosen {
        tips: Vec::new(alloc),
        hidden: Vec::new(alloc),
        pairs: Vec::new(alloc),
        resolved: Vec::new(alloc),
    };
    for one in resolved.iter() {
        chosen.add(one)?;
    }
    chosen.resolved = resolved;
    check_number(question.name, &chosen)?;
    if question.name == Name::Newest && question.options.by_first_parents && !chosen.has_one_tip() {
        return Err(Fault::Misuse(Misuse::FirstParents));
    }
    Ok(chosen)
}

/// The fault of the revision of this number.
fn fault_of<R>(
    repository: &mut Repository<R>,
    number: usize,
    fault: gix_revision::Fault,
) -> Result<Fault, Fault>
where
    R: ByteFiles + AllocGlobal + Clone + Drop,
    R::File: FileExt,
{
    match fault {
        gix_revision::Fault::Memory => Ok(Fault::Memory),
        gix_revision::Fault::Unknown(word) => {
            if repository.refs_below(b"refs/")?.is_empty() {
                return Ok(Fault::NoCommit);
            }
            Ok(Fault::Revision(number, gix_revision::Fault::Unknown(word)))
        }
        fault => Ok(Fault::Revision(number, fault)),
    }
}

/// Reads what a word of a question stands for, and adds it.
///
/// # Errors
///
/// The first fault that is met. What was read before is added.
pub fn resolve_one<R>(
    alloc: Global,
    repository: &mut Repository<R>,
    asked: &Asked,
    lines: &[String],
    wanted: Kind,
    resolved: &mut Vec<Resolved>,
) -> Result<(), gix_revision::Fault>
where
    R: ByteFiles + AllocGlobal + Clone + Drop,
    R::File: FileExt,
{
    match asked {
        Asked::Word(word) => resolve(alloc, repository, word.as_str(), false, wanted, resolved)?,
        Asked::Turned(word) => resolve(alloc, repository, word.as_str(), true, wanted, resolved)?,
        Asked::Refs(refs) => resolve_all(alloc, repository, set_of(*refs), false, resolved)?,
        Asked::Hidden(refs) => resolve_all(alloc, repository, set_of(*refs), true, resolved)?,
        Asked::Lines => {
            for line in lines {
                resolve(alloc, repository, line.as_str(), false, wanted, resolved)?;
            }
        }
    }
    Ok(())
}

/// The refs of a repository that are asked for.
fn set_of(refs: Refs) -> Set {
    match refs {
        Refs::All => Set::All,
        Refs::Branches => Set::Branches,
        Refs::Tags => Set::Tags,
        Refs::Remotes => Set::Remotes,
    }
}

impl Chosen {
    /// Adds what a revision stands for.
    fn add(&mut self, resolved: &Resolved) -> Result<(), AllocError>
        ensures tips { OnOk result (self.new.tips.items ≡ self.old.tips.items ++ tips_in resolved.now.chosen) }
        ensures hidden { OnOk result (self.new.hidden.items ≡ self.old.hidden.items ++ hidden_in resolved.now.chosen) }
        ensures pairs { OnOk result (self.new.pairs.items ≡ self.old.pairs.items ++ pairs_in resolved.now.chosen) }
    {
        match resolved.chosen {
            gix_revision::Chosen::One { id, is_hidden } => {
                if is_hidden {
                    self.hidden.push(id)?;
                } else {
                    self.tips.push(id)?;
                }
            }
            gix_revision::Chosen::Symmetric { one, other } => {
                self.tips.push(one)?;
                self.tips.push(other)?;
                self.pairs.push(Pair { one, other })?;
            }
        }
        Ok(())
    }

    /// Whether all tips are the same.
    fn has_one_tip(&self) -> bool {
        let tips = self.tips.as_slice();
        tips.iter().all(|tip| Some(tip) == tips.first())
    }

    /// All ids, of tips and others.
    pub fn all(&self, alloc: Global) -> Result<Vec<ObjectId>, AllocError> {
        let mut ids = Vec::new(alloc);
        ids.extend_from_slice(self.tips.as_slice())?;
        ids.extend_from_slice(self.hidden.as_slice())?;
        Ok(ids)
    }

    /// The command over these ids that answers a question, with its options. Each tip of a list comes once. For `topo` the last tip comes
    /// first, since of tips of one second the walk begins with the last, and git with the first. None where there are too few ids for a
    /// command, or where none answers the question, as `resolve`.
    ///
    /// # Errors
    ///
    /// `AllocError` when out of memory.
    pub fn command(
        &self,
        alloc: Global,
        keys: Keys,
        question: &Question,
    ) -> Result<Option<Command>, AllocError>
        // In the words of the page: what is asked, its options, and the ids.
        ensures { IsFit question.now → IfOk result (λ command. option_map (λ c. printed (request_of_command c)) command ≡ command_words question.now.name
            question.now.options self.now.tips.items self.now.hidden.items) }
    {
        match question.options.order(question.name) {
            Some(order) => Ok(Some(self.list(alloc, keys, question, order)?)),
            None => self.other_command(alloc, question),
        }
    }

    /// The list of this order that a question asks for.
    fn list(
        &self,
        alloc: Global,
        keys: Keys,
        question: &Question,
        order: Order,
    ) -> Result<Command, AllocError>
        ensures { IsFit question.now → order_words order ≡ order_options question.now.name question.now.options → IfOk result (λ command. printed (request_of_command command) ≡ words_of_list
            question.now.name question.now.options self.now.tips.items self.now.hidden.items) }
    {
        Ok(Command::Commits {
            order,
            shown: question.options.shown(),
            tips: list_tips(alloc, keys, question.name, self.tips.as_slice())?,
            hidden: Vec::from_slice(alloc, self.hidden.as_slice())?,
        })
    }

    /// The command that answers a question which isn't a list, if there is one.
    fn other_command(
        &self,
        alloc: Global,
        question: &Question,
    ) -> Result<Option<Command>, AllocError>
        ensures { IfOk result (λ command. option_map (λ c. printed (request_of_command c)) command ≡ other_words question.now.name question.now.options
            self.now.tips.items) }
    {
        let [first, others @ ..] = self.tips.as_slice() else {
            return Ok(None);
        };
        Ok(match (question.name, others) {
            (Name::Files, []) => Some(Command::Files {
                shown: question.options.entry_lines(),
                tree: *first,
            }),
            (Name::Ahead, [second]) => Some(Command::Ahead {
                one: *first,
                other: *second,
            }),
            // Whether the second reaches the first is whether it contains it.
            (Name::IsAncestor, [second]) => Some(Command::Contained {
                tip: *second,
                ids: vec![in alloc; *first]?,
            }),
            (Name::Contains, [_, ..]) => Some(Command::Contained {
                tip: *first,
                ids: Vec::from_slice(alloc, others)?,
            }),
            (Name::Containing, [_, ..]) => Some(Command::Containing {
                target: *first,
                tips: Vec::from_slice(alloc, others)?,
            }),
            (Name::MergeBase, [_, ..]) => Some(Command::Bases {
                one: *first,
                others: Vec::from_slice(alloc, others)?,
            }),
            _ => None,
        })
    }

    /// The words of the command over these ids that answers a question, or the question's name and the ids where there is none.
    ///
    /// # Errors
    ///
    /// `AllocError` when out of memory.
    pub fn words(
        &self,
        alloc: Global,
        keys: Keys,
        question: &Question,
    ) -> Result<Vec<String>, AllocError> {
        if let Some(command) = self.command(alloc, keys, question)? {
            return command.words(alloc);
        }
        let mut words = Vec::new(alloc);
        words.push(String::from_str(alloc, question.name.word())?)?;
        words.append(&mut self.id_words(alloc)?)?;
        Ok(words)
    }

    /// The ids as words, those that are excluded with `^` and behind the others.
    ///
    /// # Errors
    ///
    /// `AllocError` when out of memory.
    pub fn id_words(&self, alloc: Global) -> Result<Vec<String>, AllocError> {
        let mut words = Vec::new(alloc);
        for id in self.tips.iter() {
            words.push(format!(in alloc; "{id}")?)?;
        }
        for id in self.hidden.iter() {
            words.push(format!(in alloc; "^{id}")?)?;
        }
        Ok(words)
    }
}

/// The tips of a list of this name.
fn list_tips(
    alloc: Global,
    keys: Keys,
    name: Name,
    tips: &[ObjectId],
) -> Result<Vec<ObjectId>, AllocError>
    ensures { IfOk result (λ those. those.items ≡ list_tips name tips.now) }
{
    let mut those = once(alloc, keys, tips)?;
    if matches!(name, Name::Topo) {
        those.as_mut_slice().reverse();
    }
    Ok(those)
}

/// Each of the ids at its first place.
fn once(alloc: Global, keys: Keys, ids: &[ObjectId]) -> Result<Vec<ObjectId>, AllocError>
    ensures { IfOk result (λ those. those.items ≡ new_ids (λ i. false) ids.now) }
{
    let mut seen = IdSet::new(alloc, keys);
    let mut those = Vec::new(alloc);
    for id in ids {
        if seen.insert(*id)? {
            those.push(*id)?;
        }
    }
    Ok(those)
}

/// Whether so many ids go with the command, now that it is known what each word stands for.
fn check_number(name: Name, chosen: &Chosen) -> Result<(), Misuse> {
    let tips = chosen.tips.len();
    let are_tips = chosen.hidden.is_empty() && chosen.pairs.is_empty();
    match name {
        Name::Ahead => {
            if tips == 2 && chosen.hidden.is_empty() {
                Ok(())
            } else {
                Err(Misuse::Ahead)
            }
        }
        Name::IsAncestor => {
            if tips == 2 && are_tips {
                Ok(())
            } else {
                Err(Misuse::Number(name.word(), 2))
            }
        }
        Name::Files => {
            if tips == 1 && are_tips {
                Ok(())
            } else {
                Err(Misuse::Number(name.word(), 1))
            }
        }
        Name::Contains | Name::Containing | Name::MergeBase => {
            if are_tips {
                Ok(())
            } else {
                Err(Misuse::Several(name.word()))
            }
        }
        _ => Ok(()),
    }
}
