//! Where walks and searches read commits: by their rows as long as these are in use, and else from the store.
ghost use Rattle.std.specs.Prelude.{◌≡◌, ◌≢◌, ◌<◌, ◌&&◌, true, Some, IfOk, IfErr, OnErr, is_some, length};
ghost use Rattle.std.specs.Option.{option_map};
ghost use Rattle.gix_commitgraph.specs.GraphCommit.{row_of_commit};
ghost use Rattle.gix_commitgraph.specs.Rows.{GraphRow, row_of};
ghost use Rattle.gix_object.specs.declared.Kind.TheVariants as object;
ghost use Rattle.gix_object.specs.declared.find.existing_iter.Error.TheVariants as existing;
ghost use Rattle.gix_object.specs.Find.{IsExistingFault};
ghost use Rattle.gix_revwalk.specs.Agreeing.{rows_in, rows_of};
ghost use Rattle.gix_revwalk.specs.Reading.{ReadsHeader, ReadsRow, ReadsSeconds, rows_used};

use crate::read::{Header, find_header, seconds_of};
use crate::row::{RowRead, find_row, read_row};
use gix_commitgraph::{Commit, Graph};
use gix_hash::ObjectId;
use gix_object::commit::CommitRefIter;
use gix_object::find::{Find, existing_iter};
use gix_object::{Kind, decode};
use std::alloc::{AllocError, Global};

/// A store, and the rows of a commit-graph, which are read in place of its commits until one proves corrupt.
#[derive(Drop)]
pub struct Source<F> {
    /// The store.
    pub objects: F,
    /// The rows, if there is a commit-graph.
    pub graph: Option<Graph>,
    /// Whether rows are read: they are until one proves corrupt.
    pub in_use: bool,
    /// Where a commit is put that is looked up. After that it may hold anything.
    pub text: Vec<u8>,
    /// From where memory is taken.
    pub alloc: Global,
}

impl<F: Find> Source<F> {
    /// A store, and rows that are in use.
    pub fn new(alloc: Global, objects: F, graph: Option<Graph>) -> Source<F>
        ensures objects { result.objects ≡ objects }
        ensures graph { result.graph ≡ graph }
        ensures in_use { result.in_use ≡ true }
    {
        Source {
            objects,
            graph,
            in_use: true,
            text: Vec::new(alloc),
            alloc,
        }
    }

    /// The commit-graph, as long as its rows are in use.
    pub fn graph(&self) -> Option<&Graph>
        ensures { rows_in result ≡ rows_used self.now }
    {
        if !self.in_use {
            return None;
        }
        self.graph.as_ref()
    }

    /// Whether there is a commit-graph, and none of its rows was found corrupt.
    pub fn uses_rows(&self) -> bool
        ensures { result ≡ (self.now.in_use && is_some self.now.graph) }
    {
        self.in_use && self.graph.is_some()
    }

    /// The row of a commit, as long as rows are in use. Its places aren't read. `near` is where to look first.
    #[inline(always)]
    pub fn row(&self, id: &ObjectId, near: u32) -> Option<Commit<'_>>
        ensures { option_map row_of_commit result ≡ row_of (rows_used self.now) id.now }
    {
        match self.graph() {
            Some(graph) => find_row(graph, id, near),
            None => None,
        }
    }

    /// What the row of an id says, as [`read_row`] does. A row with a corrupt place drops the rows for good.
    ///
    /// # Errors
    ///
    /// `AllocError` when out of memory. The rows are in use if they were.
    #[inline(always)]
    pub fn read_row(&mut self, id: &ObjectId, near: u32) -> Result<Option<RowRead>, AllocError>
        ensures same { self.new ≡ record self.old { in_use = self.new.in_use } }
        ensures reads { IfOk result (λ read. ReadsRow (rows_of self.old.graph) self.old.in_use id.now read self.new.in_use) }
        ensures err { OnErr result (self.new.in_use ≡ self.old.in_use) }
        ensures fails { OnErr result ((row : GraphRow) × (row_of (rows_of self.old.graph) id.now ≡ Some row) × (1 < length row.parents)) }
    {
        read_row(self.alloc, self.graph.as_ref(), &mut self.in_use, id, near)
    }

    /// The parents and the committer's time of a commit, from the store.
    ///
    /// # Errors
    ///
    /// As [`find_header`].
    pub fn header(&mut self, id: &ObjectId) -> Result<Header, existing_iter::Error>
        ensures same { self.new ≡ record self.old { text = self.new.text } }
        ensures reads { IfOk result (ReadsHeader (F.objects self.old.objects) id.now) }
        ensures fault { IfErr result (λ why. why ≢ existing.Memory
            → IsExistingFault (F.objects self.old.objects) (F.faulty self.old.objects) id.now object.Commit why) }
    {
        find_header(self.alloc, &self.objects, id, &mut self.text)
    }

    /// The committer's time of a commit, from the store. Else the first fault, where it comes before a committer, and `Missing` where the
    /// text ends before both.
    ///
    /// # Errors
    ///
    /// As [`find_header`].
    #[inline(always)]
    pub fn time(
        &mut self,
        id: &ObjectId,
    ) -> Result<Result<i64, decode::Error>, existing_iter::Error>
        ensures same { self.new ≡ record self.old { text = self.new.text } }
        ensures reads { IfOk result (ReadsSeconds (F.objects self.old.objects) id.now) }
        ensures fault { IfErr result (λ why. why ≢ existing.Memory
            → IsExistingFault (F.objects self.old.objects) (F.faulty self.old.objects) id.now object.Commit why) }
    {
        self.objects
            .find_kind_into(id, Kind::Commit, &mut self.text)?;
        let items = CommitRefIter::from_bytes(&self.text, id.kind());
        Ok(seconds_of(items.committer()))
    }
}
