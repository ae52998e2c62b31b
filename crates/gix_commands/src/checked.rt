//! A walk by time that goes on only where parents are there.
ghost use Rattle.std.specs.Prelude.{◌≡◌, ◌≢◌, None, Some, MatchBool};
ghost use Rattle.gix_commitgraph.specs.Rows.{row_of};
ghost use Rattle.gix_revwalk.specs.Agreeing.{rows_in};
ghost use Rattle.gix_graph_store.specs.WithRows.{with_rows};
ghost use Rattle.gix_commands.specs.Checked.{HasRows, Looks, lost_at};
ghost use Rattle.gix_commands.specs.Readable.{is_first, readable};

use crate::chosen::has_row;
use crate::commits::Lent;
use gix_commitgraph::Graph;
use gix_hash::ObjectId;
use gix_object::find::Find;
use gix_object::memory::MemoryStore;
use gix_revwalk::{Info, Parents, Unfiltered};
use gix_simple::Simple;
use gix_words::Fault;
use std::alloc::Global;
use std::marker::Model;

/// A walk by time that looks, behind each commit that it gives, whether the commit's parents are there: whether each has a row, or is a
/// commit that can be read to its committer. A walk takes any other parent for one of 1970, so it would leave it out, or put it last,
/// and what comes behind would be in a wrong place. So the next answer is the fault of the first such parent.
///
/// A commit that the walk read by its row isn't looked at: each of its parents has a row.
#[derive(Drop)]
pub struct Checked<'a> {
    walk: Simple<Lent<'a>, Unfiltered>,
    objects: Lent<'a>,
    graph: Option<&'a Graph>,
    /// The fault that comes next, if there is one.
    lost: Option<Fault>,
    /// The text of the parent last looked at.
    text: Vec<u8>,
}

impl<'a> Model for Checked<'a> {
    ghost use Rattle.std.specs.Coded.{codes};
    ghost use Rattle.std.specs.FinMap as map;
    ghost use Rattle.gix_hash.specs.Id.{id_cmp, id_code, id_set_code};
    ghost use Rattle.gix_object.specs.Object.{object_code};
    ghost use Rattle.gix_revwalk.specs.Agreeing.{rows_in};
    ghost use Rattle.gix_commands.specs.Checked.{CheckedWalk};

    ghost Value = { CheckedWalk };

    ghost coded = { Prim.hlevel (codes, id_set_code, map.code {R = id_cmp} id_code object_code) };

    ghost view = { λ c. record { walk = c.walk; objects = c.objects; rows = rows_in c.graph; lost = c.lost } };

    ghost use Rattle.gix_commands.specs.Checked.{KeepsRows};

    ghost invariant = { λ c. KeepsRows (rows_in c.graph) c.walk.rows };
}

impl<'a> Checked<'a> {
    /// The walk, which is over this store and these rows, through these parents, and has these rows. Nothing is read yet.
    pub fn new(
        alloc: Global,
        walk: Simple<Lent<'a>, Unfiltered>,
        parents: Parents,
        store: &'a MemoryStore<'a>,
        graph: Option<&'a Graph>,
    ) -> Checked<'a>
        requires { walk.rows ≡ rows_in graph }
        ensures { result ≡ record {
          walk = walk.entry;
          objects = readable (is_first parents) (with_rows (rows_in graph.entry) store.now);
          rows = rows_in graph.entry;
          lost = None;
        } }
    {
        Checked {
            walk,
            objects: Lent::over(store, graph, parents),
            graph,
            lost: None,
            text: Vec::new(alloc),
        }
    }

    /// Whether this commit has a row.
    fn has_row(&self, id: &ObjectId) -> bool
        ensures { MatchBool result (row_of self.now.rows id.now ≢ None) (row_of self.now.rows id.now ≡ None) }
    {
        has_row(self.graph, id)
    }

    /// Why this commit isn't there, if it isn't.
    fn look_at(&mut self, id: &ObjectId) -> Option<Fault>
        ensures looks { result ≢ Some Fault.Memory → result ≡ lost_at self.old.objects self.old.rows id.now }
        ensures kept { self.new ≡ self.old }
    {
        if self.has_row(id) {
            return None;
        }
        let items = match self.objects.find_commit_iter(id, &mut self.text) {
            Ok(items) => items,
            Err(fault) => return Some(Fault::from(fault)),
        };
        let Ok(_) = items.committer() else {
            return Some(Fault::Broken);
        };
        None
    }

    /// Why the first of these commits that isn't there isn't.
    fn first_lost(&mut self, mut ids: &[ObjectId]) -> Option<Fault>
        ensures looks { Looks self.old.objects self.old.rows ids.entry.now result }
        ensures kept { self.new ≡ self.old }
    {
        while let Some((id, rest)) = ids.split_first() {
            let found = self.look_at(id);
            if found.is_some() {
                return found;
            }
            ids = rest;
        }
        None
    }

    /// Why the first parent of this commit that isn't there isn't. A commit with a generation was read by its row, so it has none.
    fn lost_parent(&mut self, info: &Info) -> Option<Fault>
        requires { HasRows self.now.objects self.now.rows info.now }
        ensures looks { Looks self.old.objects self.old.rows info.now.parent_ids.items result }
        ensures kept { self.new ≡ self.old }
    {
        if info.generation.is_some() {
            return None;
        }
        self.first_lost(info.parent_ids.as_slice())
    }
}

impl Iterator for Checked<'_> {
    type Item = Result<Info, Fault>;

    ghost use Rattle.gix_commands.specs.Checked.{Checks, left_to_check};
    ghost use Rattle.std.specs.Iterator.{at_most};

    ghost next_gives = { Checks };

    ghost remaining = { λ c. at_most (left_to_check c) };

    fn next(&mut self) -> Option<Result<Info, Fault>> {
        if let Some(fault) = self.lost.take() {
            return Some(Err(fault));
        }
        match self.walk.next()? {
            Ok(info) => {
                self.lost = self.lost_parent(&info);
                Some(Ok(info))
            }
            Err(fault) => Some(Err(Fault::from(fault))),
        }
    }
}
