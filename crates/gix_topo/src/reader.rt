//! Reads commits by their rows, or else from the store.
ghost use Rattle.std.specs.Prelude.{◌≡◌, ◌≢◌, [], IfOk, IfErr, OnOk, true, if◌then◌else◌};
ghost use Rattle.gix_topo.specs.Depth.{known_generation};
ghost use Rattle.gix_topo.specs.Walk.{IsKnown};
ghost use Rattle.gix_revwalk.specs.Agreeing.{rows_in};
ghost use Rattle.gix_object.specs.declared.Kind.TheVariants as object;
ghost use Rattle.gix_object.specs.declared.find.existing_iter.Error.TheVariants as existing;
ghost use Rattle.gix_object.specs.Find.{IsExistingFault};
ghost use Rattle.gix_revwalk.specs.Reading.{ReadsHeader, rows_of};
ghost use Rattle.gix_topo.specs.Inside.Reader.{reader_by};
ghost use Rattle.gix_topo.specs.Reading.{Reads, ReadsText, LookUpFails};

use super::Error;
use gix_commitgraph::{GENERATION_NUMBER_INFINITY, Graph};
use gix_hash::ObjectId;
use gix_hash::hashtable::IdMap;
use gix_object::decode;
use gix_object::find::{Find, existing_iter};
use gix_revwalk::read::Header;
use gix_revwalk::row::{NOWHERE, Near, find_row};
use gix_revwalk::source::Source;
use gix_revwalk::{Info, ParentIds};
use std::alloc::Global;
use std::marker::Model;

/// The most headers that are kept, in some 3 MB.
const MOST_KEPT: usize = 7 << 12;

/// What commits are read from.
#[derive(Drop)]
pub(super) struct Reader<F: Find> {
    pub(super) source: Source<F>,
    /// Where to look first for the rows of the parents of the commit that was read last.
    pub(super) near: Near,
    /// Headers that were read once: mostly they are read again, when the turn of their commits comes.
    kept: IdMap<Header>,
}

impl<F: Find> Model for Reader<F> {
    ghost use Rattle.gix_topo.specs.Inside.Reader as model;

    ghost Value = { model.Reader F };

    ghost view = { λ r. model.reader_by r.source.objects r.source.graph r.source.in_use };

    ghost invariant = { λ r. model.AreKept (F.objects r.source.objects) r.kept };
}

impl<F: Find + Drop> Reader<F> {
    pub(super) fn new(alloc: Global, find: F, graph: Option<Graph>) -> Reader<F>
        ensures { result ≡ reader_by find graph true }
    {
        let kept = IdMap::new(alloc, find.keys());
        Reader {
            source: Source::new(alloc, find, graph),
            near: Near::nowhere(),
            kept,
        }
    }

    /// The commit-graph, as long as its rows are in use.
    pub(super) fn graph(&self) -> Option<&Graph>
        ensures { rows_in result ≡ if self.now.in_use then rows_of self.now.graph else [] }
    {
        self.source.graph()
    }

    /// The generation that a row says, and infinity where there is none. `near` is where to look first for the row.
    pub(super) fn generation(&self, id: &ObjectId, near: u32) -> u32
        ensures { result ≡ known_generation (rows_of self.now.graph) id.now }
    {
        let Some(graph) = &self.source.graph else {
            return GENERATION_NUMBER_INFINITY;
        };
        match find_row(graph, id, near) {
            Some(commit) => commit.generation(),
            None => GENERATION_NUMBER_INFINITY,
        }
    }

    /// Keeps the header of a commit, as long as there is room and memory for it.
    fn keep(&mut self, id: &ObjectId, header: &Header)
        requires { ReadsHeader (F.objects self.old.find) id.now header.now }
        ensures same { self.new ≡ self.old }
    {
        if self.kept.len() >= MOST_KEPT {
            return;
        }
        let copy = ParentIds::from_slice(self.source.alloc, header.parent_ids.as_slice());
        let Ok(parent_ids) = copy else {
            return;
        };
        let kept = Header {
            parent_ids,
            time: header.time,
        };
        let _ = self.kept.insert(*id, kept);
    }

    /// The header of a commit: the one that was kept, which is given away, or else the one that is read now, and is kept.
    fn header(&mut self, id: &ObjectId) -> Result<Header, existing_iter::Error>
        ensures same { self.new ≡ self.old }
        ensures reads { IfOk result (ReadsHeader (F.objects self.old.find) id.now) }
        ensures fault { IfErr result (λ why. why ≢ existing.Memory
            → IsExistingFault (F.objects self.old.find) (F.faulty self.old.find) id.now object.Commit why) }
    {
        if let Some(header) = self.kept.remove(id) {
            return Ok(header);
        }
        let header = self.source.header(id)?;
        self.keep(id, &header);
        Ok(header)
    }

    /// The commit as its text says it. A text that ends before a committer has time 0.
    fn read_text(&mut self, id: &ObjectId) -> Result<Info, Error>
        ensures same { self.new ≡ self.old }
        ensures reads { ReadsText (F.objects self.old.find) (F.faulty self.old.find) id.now result }
    {
        let Header { parent_ids, time } = self.header(id)?;
        let time = match time {
            Ok(seconds) => seconds,
            Err(decode::Error::Missing) => 0,
            Err(fault) => return Err(Error::ObjectDecode(fault)),
        };
        Ok(Info {
            id: *id,
            parent_ids,
            generation: None,
            commit_time: Some(time),
        })
    }

    /// The commit by its row where the rows are in use and it has one, and else from the store. `near` is where to look first for the row.
    /// Then `self.near` is for the parents.
    ///
    /// # Errors
    ///
    /// Why it can't be read.
    pub(super) fn read(&mut self, id: &ObjectId, near: u32) -> Result<Info, Error>
        ensures same { self.new ≡ record self.old { in_use = self.new.in_use } }
        ensures reads { Reads (F.objects self.old.find) (F.faulty self.old.find) (rows_of self.old.graph) self.old.in_use id.now result
            self.new.in_use }
    {
        self.near = Near::nowhere();
        let Some(row) = self.source.read_row(id, near)? else {
            return self.read_text(id);
        };
        self.near = row.near;
        Ok(Info {
            id: *id,
            parent_ids: row.parent_ids,
            generation: if row.generation < GENERATION_NUMBER_INFINITY {
                Some(row.generation)
            } else {
                None
            },
            commit_time: Some(row.time),
        })
    }

    /// Looks a parent up, unless a row in use says that it exists.
    ///
    /// # Errors
    ///
    /// Why it can't be read.
    pub(super) fn look_up(&mut self, id: &ObjectId) -> Result<(), Error>
        ensures same { self.new ≡ self.old }
        ensures known { OnOk result (IsKnown (F.objects self.old.find) (rows_of self.old.graph) self.old.in_use id.now) }
        ensures fault { IfErr result (LookUpFails (F.objects self.old.find) (F.faulty self.old.find) (rows_of self.old.graph)
            self.old.in_use id.now) }
    {
        if self.source.in_use && self.generation(id, NOWHERE) < GENERATION_NUMBER_INFINITY {
            return Ok(());
        }
        self.read_text(id)?;
        Ok(())
    }
}
