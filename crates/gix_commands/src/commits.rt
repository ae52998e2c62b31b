//! Walks over stored commits.
ghost use Rattle.std.specs.Prelude.{◌≡◌, false, Ok, IfErr, IfOk};
ghost use Rattle.gix_revwalk.specs.Agreeing.{rows_in};
ghost use Rattle.gix_graph_store.specs.WithRows.{with_rows};
ghost use Rattle.gix_commands.specs.Readable.{is_first, readable};
ghost use Rattle.gix_commands.specs.TopoWalked as topo_walk;
ghost use Rattle.gix_commands.specs.Walked.{IsStartFault, StartsFrom};

use crate::texts::make_readable;
use gix_commitgraph::Graph;
use gix_graph_store::WithRows;
use gix_hash::{Keys, ObjectId};
use gix_object::Kind;
use gix_object::find::{self, Find};
use gix_object::memory::MemoryStore;
use gix_revwalk::row::copy_of;
use gix_revwalk::{Parents, Unfiltered};
use gix_simple::{Simple, Sorting};
use gix_topo::{Builder, Topo};
use gix_words::Fault;
use std::alloc::{AllocError, Global};
use std::marker::Model;

/// A store that several walks read, one after another, and that has a commit for each row of a commit-graph beside its objects, if there
/// is one. A commit whose bytes aren't a text it gives as one that no walk takes for a commit. The model of it is what it gives.
#[derive(Drop)]
pub struct Lent<'a> {
    store: WithRows<'a, &'a MemoryStore<'a>>,
    /// Through which parents the walk goes. By first parents alone the lines of all parents are looked at.
    parents: Parents,
}

impl<'a> Model for Lent<'a> {
    ghost use Rattle.std.specs.FinMap as map;
    ghost use Rattle.gix_hash.specs.Id.{id_code};
    ghost use Rattle.gix_object.specs.Object.{Objects, object_code};
    ghost use Rattle.gix_graph_store.specs.WithRows.{objects_with};
    ghost use Rattle.gix_commands.specs.Readable.{is_first, readable};

    ghost Value = { Objects };

    ghost coded = { map.code id_code object_code };

    ghost view = { λ s. readable (is_first s.parents) (objects_with (λ store. store.now) s.store) };
}

impl<'a> Lent<'a> {
    /// The store with these rows, if there are any, for a walk through these parents.
    pub fn over(store: &'a MemoryStore<'a>, graph: Option<&'a Graph>, parents: Parents) -> Lent<'a>
        ensures { result ≡ readable (is_first parents) (with_rows (rows_in graph.entry) store.now) }
    {
        Lent {
            store: WithRows::new(store, graph),
            parents,
        }
    }
}

impl Find for Lent<'_> {
    ghost objects = { λ s. s };

    ghost faulty = { λ _ _. ⊥ };

    #[inline(always)]
    fn find_into(&self, id: &ObjectId, buf: &mut Vec<u8>) -> Result<Option<Kind>, find::Error> {
        let Some(kind) = self.store.find_into(id, buf)? else {
            return Ok(None);
        };
        make_readable(self.parents, id, kind, buf)?;
        Ok(Some(kind))
    }

    fn keys(&self) -> Keys {
        self.store.keys()
    }
}

/// Where a walk starts, and what ends it: ids of commits.
#[derive(Drop)]
pub struct Ends {
    pub tips: Vec<ObjectId>,
    /// What these reach isn't given.
    pub hidden: Vec<ObjectId>,
}

impl Ends {
    /// A copy of these ids.
    ///
    /// # Errors
    /// `AllocError` when out of memory.
    pub fn of(alloc: Global, tips: &[ObjectId], hidden: &[ObjectId]) -> Result<Ends, AllocError>
        ensures { IfOk result (λ ends. (ends.tips.items ≡ tips.now) × (ends.hidden.items ≡ hidden.now)) }
    {
        Ok(Ends {
            tips: Vec::from_slice(alloc, tips)?,
            hidden: Vec::from_slice(alloc, hidden)?,
        })
    }
}

/// A walk in this order between these ends, through these parents, over a store and rows.
///
/// # Errors
/// The fault of the first tip whose time can't be read, in an order by time. `Memory`.
pub fn walk_from<'a>(
    alloc: Global,
    parents: Parents,
    sorting: Sorting,
    ends: Ends,
    store: &'a MemoryStore<'a>,
    graph: Option<&'a Graph>,
) -> Result<Simple<Lent<'a>, Unfiltered>, Fault>
    ensures ok { IfOk result (StartsFrom (readable (is_first parents) (with_rows (rows_in graph.entry) store.now)) (rows_in graph.entry)
        parents sorting ends.tips.items ends.hidden.items) }
    ensures err { IfErr result (IsStartFault (readable (is_first parents) (with_rows (rows_in graph.entry) store.now)) sorting
        ends.tips.items) }
{
    let Ends { tips, hidden } = ends;
    let rows = copy_of(graph)?;
    let made = Simple::new(alloc, tips, Lent::over(store, graph, parents))?;
    let sorted = made.sorting(sorting)?;
    let walk = sorted.hide(hidden)?;
    Ok(walk.parents(parents).commit_graph(rows))
}

/// A walk between these ends in which no commit comes before its children, through these parents, over a store and rows. It reads all lines
/// of a commit, so the store need not look at them.
///
/// # Errors
/// The fault of the first object that can't be read of what tips or ends reach. `Memory`.
pub fn topo_walk_from<'a>(
    alloc: Global,
    parents: Parents,
    sorting: gix_topo::Sorting,
    ends: Ends,
    store: &'a MemoryStore<'a>,
    graph: Option<&'a Graph>,
) -> Result<Topo<Lent<'a>, Unfiltered>, Fault>
    ensures ok { IfOk result (λ walk. topo_walk.IsBuiltFrom (readable false (with_rows (rows_in graph.entry) store.now))
        (rows_in graph.entry) parents sorting ends.tips.items ends.hidden.items (Ok walk)) }
    ensures err { IfErr result (topo_walk.IsStartFault (readable false (with_rows (rows_in graph.entry) store.now)) (rows_in graph.entry)
        parents sorting ends.tips.items ends.hidden.items) }
{
    let Ends { tips, hidden } = ends;
    let rows = copy_of(graph)?;
    let from_tips = Builder::new(alloc, Lent::over(store, graph, Parents::All)).with_tips(tips)?;
    let builder = from_tips.with_ends(hidden)?;
    let ordered = builder.parents(parents).sorting(sorting);
    let walk = ordered.with_commit_graph(rows).build()?;
    Ok(walk)
}
