//! Walks by parent links, written as text: a word for each answer.
#![tactic(auto)]

pub mod breadth;
pub mod faults;
pub mod graphs;
pub mod hiding;
pub mod times;

use gix_parts::graph::Graph;
use gix_parts::hash::ObjectId;
use gix_parts::object::commit::Token;
use gix_parts::object::decode;
use gix_parts::object::find::Find;
use gix_traverse::commit::simple::{CommitTimeOrder, Error, Hidden, Sorting};
use gix_traverse::commit::{Filter, Info, Parents, Predicate, Simple, Unfiltered};
use std::alloc::{AllocError, Global};
use test_rows::history::{
    BY_STORE, By, FULL, Failing, History, PLAIN, ROOM, Rows, TREE, digit, id, ids, long_id, text,
};
use test_rows::table;
use test_rows::words::{Stop, space, write_broken, write_id, write_not_found};

pub const BREADTH: Sorting = Sorting::BreadthFirst;

pub const NEWEST: Sorting = Sorting::ByCommitTime(CommitTimeOrder::NewestFirst);

pub const OLDEST: Sorting = Sorting::ByCommitTime(CommitTimeOrder::OldestFirst);

/// Newest first without what is older than 4.
pub const SINCE_4: Sorting = Sorting::ByCommitTimeCutoff {
    order: CommitTimeOrder::NewestFirst,
    seconds: 4,
};

/// What is written of a commit.
#[derive(Clone, Copy, PartialEq, Eq)]
pub enum Detail {
    /// Its digit.
    Digit,
    /// Its digit, and behind `:` the generation that a row has.
    Generation,
    /// The same, behind `@` its time where the walk gave one, and its parents: all as a clone holds it.
    All,
    /// Its digit. Behind `=` is the commit whose text the walk lends: before the first answer, behind each, and at the end.
    Texts,
}

/// A predicate that is asked about commits.
#[derive(Clone, Copy)]
pub enum Asked {
    /// There is none.
    No,
    /// It refuses this commit. The commits that it was asked about are written behind the answers.
    Refusing(u8),
}

/// What a walk is to be.
#[derive(Clone, Copy)]
pub struct Wish<'a> {
    pub tips: &'a [u8],
    /// Tips of 32-byte ids, behind the others.
    pub long: &'a [u8],
    /// The order that is chosen, and the order that is chosen in its place.
    pub sortings: [Sorting; 2],
    /// The parents that are chosen between the orders.
    pub parents: Parents,
    /// The parents that are chosen behind the orders, if any are.
    pub last_parents: Option<Parents>,
    /// The tips that are hidden, and the tips that are hidden in their place.
    pub hidden: [&'a [u8]; 2],
    /// The tips that are hidden between steps, each behind so many further steps. Only a walk without a predicate, of which commits are
    /// written and no texts, is stopped for them.
    pub late: &'a [(usize, &'a [u8])],
    pub asked: Asked,
    pub detail: Detail,
}

/// The digits of all that 8 reaches, breadth first.
pub const ALL: Wish<'static> = Wish {
    tips: &[8],
    long: &[],
    sortings: [BREADTH, BREADTH],
    parents: Parents::All,
    last_parents: None,
    hidden: [&[], &[]],
    late: &[],
    asked: Asked::No,
    detail: Detail::Digit,
};

/// The tips of a walk, its orders, the tips that are hidden at last, and what the walk tells.
pub type Case<'a> = (&'a [u8], [Sorting; 2], &'a [u8], &'a str);

/// Walks over one history.
#[derive(Clone, Copy)]
pub struct Table<'a> {
    pub history: History<'a>,
    /// The store fails at this commit, if at any.
    pub fails: Option<u8>,
    pub rows: Rows<'a>,
    pub by: &'a [By],
    /// What the walks have in common.
    pub wish: Wish<'a>,
    pub cases: &'a [Case<'a>],
}

/// Walks over the sample, from the store alone.
pub const OF_SAMPLE: Table<'static> = Table {
    history: PLAIN,
    fails: None,
    rows: FULL,
    by: BY_STORE,
    wish: ALL,
    cases: &[],
};

/// The order of a walk for which none is chosen.
pub const AS_MET: [Sorting; 2] = [BREADTH, BREADTH];

/// Newest first.
pub const BY_TIME: [Sorting; 2] = [BREADTH, NEWEST];

/// Writes a fault as a word. One in what hidden tips reach begins with `hidden`. Out of memory stays out of memory.
fn write_fault(told: &mut String, error: &Error) -> Result<(), AllocError> {
    match error {
        Error::Find(error) => write_not_found(told, error),
        Error::ObjectDecode(error) => write_broken(told, error),
        Error::HiddenGraph(Hidden::Find(error)) => {
            told.push_str("hidden-")?;
            write_not_found(told, error)
        }
        Error::HiddenGraph(Hidden::ObjectDecode(error)) => {
            told.push_str("hidden-")?;
            write_broken(told, error)
        }
        Error::Memory => Err(AllocError),
    }
}

/// Writes a commit as a word.
fn write_commit(told: &mut String, info: &Info, detail: Detail) -> Result<(), AllocError> {
    write_id(told, &info.id)?;
    if let Detail::Digit | Detail::Texts = detail {
        return Ok(());
    }
    if let Some(generation) = info.generation {
        write!(told, ":{generation}")?;
    }
    if detail == Detail::Generation {
        return Ok(());
    }
    if let Some(time) = info.commit_time {
        write!(told, "@{time}")?;
    }
    told.push('(')?;
    for parent in info.parent_ids.as_slice() {
        write_id(told, parent)?;
        told.push(',')?;
    }
    told.push(')')
}

/// Writes a clone of a commit as a word.
fn write_clone(told: &mut String, info: &Info, detail: Detail) -> Result<(), AllocError> {
    let same = info.clone()?;
    space(told)?;
    if same != *info {
        told.push_str("unlike-")?;
    }
    write_commit(told, &same, detail)
}

/// Writes an answer as a word behind those before.
fn write_answer(
    told: &mut String,
    answer: &Result<Info, Error>,
    detail: Detail,
) -> Result<(), AllocError> {
    match answer {
        Ok(info) => write_clone(told, info, detail),
        Err(error) => {
            space(told)?;
            write_fault(told, error)
        }
    }
}

/// Behind its end a walk gives nothing.
fn check_end<F: Find + Drop, P: Predicate + Drop>(walk: &mut Simple<F, P>) -> Result<(), Stop>
    requires { P.can_accept walk.old.predicate }
{
    match walk.next() {
        None => Ok(()),
        Some(_) => Err(Stop::Late),
    }
}

/// Tells each answer that a walk still gives. Behind one that is out of memory there is none.
fn draw<F: Find + Drop, P: Predicate + Drop>(
    walk: &mut Simple<F, P>,
    detail: Detail,
    told: &mut String,
) -> Result<(), Stop>
    requires { P.can_accept walk.old.predicate }
{
    while let Some(answer) = walk.next() {
        if let Err(Error::Memory) = answer {
            check_end(walk)?;
            return Err(Stop::Memory);
        }
        write_answer(told, &answer, detail)?;
    }
    Ok(())
}

/// Tells the answers of so many further steps.
fn draw_some<F: Find + Drop>(
    walk: &mut Simple<F, Unfiltered>,
    steps: usize,
    detail: Detail,
    told: &mut String,
) -> Result<(), Stop> {
    for _ in 0..steps {
        match walk.next() {
            None => return check_end(walk),
            Some(Err(Error::Memory)) => {
                check_end(walk)?;
                return Err(Stop::Memory);
            }
            Some(answer) => write_answer(told, &answer, detail)?,
        }
    }
    Ok(())
}

/// Draws a walk to its end and tells each answer.
pub fn tell_walk<F: Find + Drop>(
    mut walk: Simple<F, Unfiltered>,
    detail: Detail,
    told: &mut String,
) -> Result<(), Stop> {
    match draw(&mut walk, detail, told) {
        Ok(()) => check_end(&mut walk),
        stopped => stopped,
    }
}

impl Wish<'_> {
    fn tips(&self, alloc: Global) -> Result<Vec<ObjectId>, AllocError> {
        let mut tips = ids(alloc, self.tips)?;
        for digit in self.long {
            tips.push(long_id(*digit))?;
        }
        Ok(tips)
    }

    /// The walk by the first order, and then by these parents.
    fn begun<F: Find + Drop, P: Predicate + Drop>(
        &self,
        walk: Simple<F, P>,
    ) -> Result<Simple<F, P>, Error> {
        Ok(walk.sorting(self.sortings[0])?.parents(self.parents))
    }

    /// A function of its own, since a proof goes slowly that carries along what `sorting` says.
    fn sorted<F: Find + Drop, P: Predicate + Drop>(
        &self,
        walk: Simple<F, P>,
    ) -> Result<Simple<F, P>, Error> {
        self.begun(walk)?.sorting(self.sortings[1])
    }

    /// The tips' walk by the other wishes.
    fn made<F: Find + Drop, P: Predicate + Drop>(
        &self,
        alloc: Global,
        walk: Simple<F, P>,
        graph: Option<Graph>,
    ) -> Result<Simple<F, P>, Error> {
        let [hidden_before, hidden] = self.hidden;
        let hidden_before = ids(alloc, hidden_before)?;
        let hidden = ids(alloc, hidden)?;
        let walk = self
            .sorted(walk)?
            .hide(hidden_before)?
            .hide(hidden)?
            .commit_graph(graph);
        match self.last_parents {
            Some(parents) => Ok(walk.parents(parents)),
            None => Ok(walk),
        }
    }

    /// Tells what the walk gives up to the last call between steps that hides tips.
    fn tell_early<F: Find + Drop>(
        &self,
        alloc: Global,
        mut walk: Simple<F, Unfiltered>,
        told: &mut String,
    ) -> Result<Simple<F, Unfiltered>, Stop> {
        for (steps, tips) in self.late {
            draw_some(&mut walk, *steps, self.detail, told)?;
            match walk.hide(ids(alloc, tips)?) {
                Ok(same) => walk = same,
                Err(_) => return Err(Stop::Memory),
            }
        }
        Ok(walk)
    }

    /// What the walk gives without a predicate. `unsorted` and a fault are written of a walk whose tips can't be sorted.
    fn tell_all<F: Find + Drop>(
        &self,
        alloc: Global,
        find: F,
        graph: Option<Graph>,
        told: &mut String,
    ) -> Result<(), Stop> {
        let walk = Simple::new(alloc, self.tips(alloc)?, find)?;
        match self.made(alloc, walk, graph) {
            Ok(walk) => tell_walk(self.tell_early(alloc, walk, told)?, self.detail, told),
            Err(Error::Memory) => Err(Stop::Memory),
            Err(error) => {
                told.push_str("unsorted ")?;
                Ok(write_fault(told, &error)?)
            }
        }
    }

    /// What the walk gives with a predicate that refuses one commit, and behind it the commits that the predicate was asked about.
    fn tell_asking<F: Find + Drop>(
        &self,
        alloc: Global,
        find: F,
        graph: Option<Graph>,
        refused: u8,
        told: &mut String,
    ) -> Result<(), Stop> {
        let mut asked = String::with_capacity(alloc, ROOM)?;
        let mut noted = Ok(());
        let asking = Filter::new(|i: &_| {
            if noted.is_ok() {
                noted = write!(asked, " {}", digit(i));
            }
            digit(i) != refused
        });
        let walk = Simple::filtered(alloc, self.tips(alloc)?, find, asking)?;
        let mut walk = self.made(alloc, walk, graph)?;
        let drawn = match draw(&mut walk, self.detail, told) {
            Ok(()) => check_end(&mut walk),
            stopped => stopped,
        };
        drop(walk);
        drawn?;
        noted?;
        Ok(write!(told, ", asked{asked}")?)
    }

    /// What the walk gives, with the owners of the texts that it lends, which are among these commits.
    fn tell_texts<F: Find + Drop>(
        &self,
        alloc: Global,
        find: F,
        graph: Option<Graph>,
        commits: &[(u8, &[u8])],
        told: &mut String,
    ) -> Result<(), Stop> {
        let walk = Simple::new(alloc, self.tips(alloc)?, find)?;
        let mut walk = self.made(alloc, walk, graph)?;
        draw_owners(alloc, commits, &mut walk, told)
    }

    /// What the walk gives over a store of these commits, by the rows of a graph where there is one.
    pub fn tell<F: Find + Drop>(
        &self,
        alloc: Global,
        find: F,
        graph: Option<Graph>,
        commits: &[(u8, &[u8])],
        told: &mut String,
    ) -> Result<(), Stop> {
        match (self.asked, self.detail) {
            (Asked::Refusing(n), _) => self.tell_asking(alloc, find, graph, n, told),
            (_, Detail::Texts) => self.tell_texts(alloc, find, graph, commits, told),
            _ => self.tell_all(alloc, find, graph, told),
        }
    }
}

/// Whether a text is that of this commit.
fn owns(alloc: Global, n: u8, parents: &[u8], lent: &[u8]) -> Result<bool, AllocError> {
    let text = text(alloc, TREE, i64::from(n), &ids(alloc, parents)?)?;
    Ok(lent == text.as_str().as_bytes())
}

/// Writes whose text this is among these commits: a digit, `none` of an empty text, or `other`. The first of its items is its tree.
fn write_owner(
    alloc: Global,
    told: &mut String,
    commits: &[(u8, &[u8])],
    lent: &[u8],
    first: Option<Result<Token<'_>, decode::Error>>,
) -> Result<(), AllocError> {
    match first {
        None if lent.is_empty() => return told.push_str("=none"),
        Some(Ok(Token::Tree { .. })) => {
            for (n, parents) in commits {
                if owns(alloc, *n, parents, lent)? {
                    return write!(told, "={n}");
                }
            }
        }
        _ => {}
    }
    told.push_str("=other")
}

/// Writes whose text a walk over these commits lends.
fn write_lent<F: Find + Drop>(
    alloc: Global,
    told: &mut String,
    commits: &[(u8, &[u8])],
    walk: &Simple<F, Unfiltered>,
) -> Result<(), AllocError> {
    let first = walk.commit_iter().next();
    write_owner(alloc, told, commits, walk.commit_data(), first)
}

/// Tells each answer that a walk over these commits still gives, and whose text it lends.
fn draw_owners<F: Find + Drop>(
    alloc: Global,
    commits: &[(u8, &[u8])],
    walk: &mut Simple<F, Unfiltered>,
    told: &mut String,
) -> Result<(), Stop> {
    write_lent(alloc, told, commits, walk)?;
    while let Some(answer) = walk.next() {
        if let Err(Error::Memory) = answer {
            check_end(walk)?;
            return Err(Stop::Memory);
        }
        write_answer(told, &answer, Detail::Texts)?;
        write_lent(alloc, told, commits, walk)?;
    }
    told.push(' ')?;
    write_lent(alloc, told, commits, walk)?;
    check_end(walk)
}

impl<'a> table::Table for Table<'a> {
    type Case = Case<'a>;

    fn rows(&self) -> (&[Case<'a>], &[By]) {
        (self.cases, self.by)
    }

    fn want<'c>(case: &'c Case<'a>) -> &'c str {
        case.3
    }

    fn tell(&self, alloc: Global, by: By, case: &Case<'a>, told: &mut String) -> Result<(), Stop> {
        told.reserve(ROOM)?;
        let (tips, sortings, hidden, _) = *case;
        let [hidden_before, _] = self.wish.hidden;
        let wish = Wish {
            tips,
            sortings,
            hidden: [hidden_before, hidden],
            ..self.wish
        };
        let store = self.history.store(alloc)?;
        let failing = Failing(&store, self.fails.map(id));
        let graph = by.graph(alloc, &self.rows)?;
        wish.tell(alloc, &failing, graph, self.history.commits, told)
    }
}
