//! Topological walks, written in words; and their faults.
#![tactic(auto)]

pub mod counts;
pub mod orders;

use gix_parts::graph::Graph;
use gix_parts::object::find::Find;
use gix_traverse::commit::topo::{Builder, Error, Sorting, Topo};
use gix_traverse::commit::{Filter, Info, Parents, Predicate, Unfiltered};
use std::alloc::{AllocError, Global};
use test_rows::history::{BY_STORE, By, FULL, Failing, History, PLAIN, ROOM, Rows, digit, id, ids};
use test_rows::table;
use test_rows::words::{Stop, space, write_broken, write_id, write_not_found};

/// What is written of each commit that a walk gives.
#[derive(Clone, Copy)]
pub enum Telling {
    /// Its digit, and its generation behind `:` where a row has one.
    Short,
    /// The same, each parent behind `<`, and its time behind `@`.
    Whole,
    /// Its digit, and behind `:` the number of commits whose parents the walk has read by then. This number comes before all
    /// commits too, as it is when the walk is built.
    Counts,
}

/// Which commits a predicate refuses. Those that it was asked about are written behind the answers.
#[derive(Clone, Copy)]
pub enum Asked {
    /// There is no predicate.
    No,
    Refusing(u8),
}

/// How to walk, and what to tell of it.
#[derive(Clone, Copy)]
pub struct Way {
    pub sorting: Sorting,
    pub parents: Parents,
    pub asked: Asked,
    pub telling: Telling,
}

/// By all parents, lines of history not intermixed.
pub const LINES: Way = Way {
    sorting: Sorting::TopoOrder,
    parents: Parents::All,
    asked: Asked::No,
    telling: Telling::Short,
};

/// The same by time.
pub const DATES: Way = Way {
    sorting: Sorting::DateOrder,
    ..LINES
};

/// By first parents alone, lines of history not intermixed.
pub const FIRST: Way = Way {
    parents: Parents::First,
    ..LINES
};

/// The tips and ends of a walk, and what it tells.
pub type Case<'a> = (&'a [u8], &'a [u8], &'a str);

/// Walks over one history.
#[derive(Clone, Copy)]
pub struct Table<'a> {
    pub history: History<'a>,
    /// The store fails at this commit, if at any.
    pub fails: Option<u8>,
    pub rows: Rows<'a>,
    pub by: &'a [By],
    pub way: Way,
    pub cases: &'a [Case<'a>],
}

/// Lines of history of the sample, from the store alone.
pub const OF_SAMPLE: Table<'static> = Table {
    history: PLAIN,
    fails: None,
    rows: FULL,
    by: BY_STORE,
    way: LINES,
    cases: &[],
};

impl Way {
    /// A builder of this way from the tips to the ends.
    fn builder<F: Find + Drop>(
        &self,
        alloc: Global,
        find: F,
        tips: &[u8],
        ends: &[u8],
    ) -> Result<Builder<F, Unfiltered>, AllocError> {
        Builder::new(alloc, find)
            .sorting(self.sorting)
            .parents(self.parents)
            .with_tips(ids(alloc, tips)?)?
            .with_ends(ids(alloc, ends)?)
    }

    /// What a walk over a store tells, by a graph if there is one.
    pub fn tell<F: Find + Drop>(
        &self,
        alloc: Global,
        find: F,
        graph: Option<Graph>,
        tips: &[u8],
        ends: &[u8],
        told: &mut String,
    ) -> Result<(), Stop> {
        let builder = self
            .builder(alloc, find, tips, ends)?
            .with_commit_graph(graph);
        match self.asked {
            Asked::No => match builder.build() {
                Ok(walk) => tell_walk(walk, self.telling, told),
                Err(fault) => Ok(no_walk(told, &fault)?),
            },
            Asked::Refusing(n) => tell_asking(alloc, builder, n, self.telling, told),
        }
    }
}

/// What a walk tells with a predicate that refuses one commit, and behind it the commits that the predicate was asked about.
fn tell_asking<F: Find + Drop>(
    alloc: Global,
    builder: Builder<F, Unfiltered>,
    refused: u8,
    telling: Telling,
    told: &mut String,
) -> Result<(), Stop> {
    let mut asked = String::with_capacity(alloc, ROOM)?;
    let mut noted = Ok(());
    let asking = Filter::new(|i: &_| {
        if noted.is_ok() {
            noted = write!(asked, " {}", digit(i));
        }
        digit(i) != refused
    });
    let walk = builder.with_predicate(asking).build()?;
    tell_walk(walk, telling, told)?;
    noted?;
    Ok(write!(told, ", asked{asked}")?)
}

/// Writes why there is no walk.
pub fn no_walk(told: &mut String, fault: &Error) -> Result<(), AllocError> {
    if let Error::Memory = fault {
        return Err(AllocError);
    }
    told.push_str("no walk: ")?;
    write_fault(told, fault)
}

/// All that a walk gives, in words.
pub fn tell_walk<F: Find + Drop, P: Predicate + Drop>(
    mut walk: Topo<F, P>,
    telling: Telling,
    told: &mut String,
) -> Result<(), Stop>
    requires { P.can_accept walk.predicate }
{
    draw(&mut walk, telling, told)
}

/// Writes each answer that a walk still gives. Behind one that is out of memory there is none.
fn draw<F: Find + Drop, P: Predicate + Drop>(
    walk: &mut Topo<F, P>,
    telling: Telling,
    told: &mut String,
) -> Result<(), Stop>
    requires { P.can_accept walk.old.predicate }
{
    telling.begin(told, walk.expanded())?;
    while let Some(answer) = walk.next() {
        match answer {
            Ok(info) => telling.add(told, &info, walk.expanded())?,
            Err(Error::Memory) => {
                return match walk.next() {
                    None => Err(Stop::Memory),
                    Some(_) => Err(Stop::Late),
                };
            }
            Err(fault) => {
                space(told)?;
                write_fault(told, &fault)?;
            }
        }
    }
    Ok(())
}

impl Telling {
    /// What is written before all commits.
    fn begin(self, told: &mut String, expanded: usize) -> Result<(), AllocError> {
        match self {
            Telling::Counts => write!(told, "{expanded}"),
            _ => Ok(()),
        }
    }

    /// Writes a commit.
    fn add(self, told: &mut String, info: &Info, expanded: usize) -> Result<(), AllocError> {
        space(told)?;
        write_id(told, &info.id)?;
        if let Telling::Counts = self {
            return write!(told, ":{expanded}");
        }
        if let Some(generation) = info.generation {
            write!(told, ":{generation}")?;
        }
        if let Telling::Whole = self {
            for parent in info.parent_ids.as_slice() {
                write!(told, "<")?;
                write_id(told, parent)?;
            }
            if let Some(time) = info.commit_time {
                write!(told, "@{time}")?;
            }
        }
        Ok(())
    }
}

/// Writes a fault as a word. Out of memory stays out of memory.
fn write_fault(told: &mut String, fault: &Error) -> Result<(), AllocError> {
    match fault {
        Error::Find(error) => write_not_found(told, error),
        Error::ObjectDecode(error) => write_broken(told, error),
        Error::MissingIndegreeUnexpected => told.push_str("no-indegree"),
        Error::MissingStateUnexpected => told.push_str("no-state"),
        Error::Memory => Err(AllocError),
    }
}

impl<'a> table::Table for Table<'a> {
    type Case = Case<'a>;

    fn rows(&self) -> (&[Case<'a>], &[By]) {
        (self.cases, self.by)
    }

    fn want<'c>(case: &'c Case<'a>) -> &'c str {
        case.2
    }

    fn tell(&self, alloc: Global, by: By, case: &Case<'a>, told: &mut String) -> Result<(), Stop> {
        told.reserve(ROOM)?;
        let (tips, ends, _) = *case;
        let store = self.history.store(alloc)?;
        let failing = Failing(&store, self.fails.map(id));
        let graph = by.graph(alloc, &self.rows)?;
        self.way.tell(alloc, &failing, graph, tips, ends, told)
    }
}
