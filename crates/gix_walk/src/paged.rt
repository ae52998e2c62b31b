//! Answers from few rows of a commit-graph.
use crate::failure::Failure;
use crate::graph::is_taken;
use gix_gather::{Gathering, Order};
use gix_graph_pages::Pages;
use gix_hash::hashtable::IdSet;
use gix_hash::{Keys, ObjectId};
use gix_odb::Odb;
use gix_options::Options;
use gix_paged_commands::{Rows, choose, run_paged};
use gix_questions::Pair;
use gix_repository::Repository;
use gix_repository_commands::{Part, Silent};
use gix_words::Command;
use std::fs::Files;

/// How many bytes all files have at the most that are read by pages.
const MOST_BYTES: u64 = 1 << 32;
/// How many files these are at the most.
const MOST_FILES: usize = 64;

/// How many rows are gone through first for each line of a list with a limit, and then, as long as these aren't enough.
const TIMES: &[u64] = &[2, 8, 32];

/// The files of a commit-graph that may be used, and the pages of them that were read.
pub(crate) struct Paged<'a> {
    rt: &'a HostRuntime,
    keys: Keys,
    pages: Pages<<HostRuntime as Files>::File>,
}

impl<'a> Drop for Paged<'a> {
    fn drop(self) {
        let Paged {
            rt: _,
            keys: _,
            pages: _,
        } = self;
    }
}

impl<'a> Paged<'a> {
    /// Opens the files of the commit-graph that these options take. None if there are none, or if one of them may not be used.
    pub fn open(
        rt: &'a HostRuntime,
        keys: Keys,
        repository: &mut Repository<HostRuntime>,
        options: &Options,
    ) -> Result<Option<Paged<'a>>, Failure> {
        if options.rows == gix_options::Rows::Unused {
            return Ok(None);
        }
        let paths = repository.graph_layers()?;
        if paths.is_empty() || paths.len() > MOST_FILES {
            return Ok(None);
        }
        let mut pages = Pages::new(rt.alloc());
        let mut left = MOST_BYTES;
        for path in paths.iter() {
            let Ok(Some(opened)) = gix_files::open(rt, path.as_str()) else {
                return Ok(None);
            };
            let Some(rest) = left.checked_sub(opened.len) else {
                return Ok(None);
            };
            if !is_taken(rt, options, &opened.file)? {
                return Ok(None);
            }
            pages.add(opened.file, opened.len)?;
            left = rest;
        }
        Ok(Some(Paged { rt, keys, pages }))
    }

    /// Whether these options take all of the files.
    fn are_taken(&self, options: &Options) -> Result<bool, Failure> {
        for file in self.pages.files() {
            if !is_taken(self.rt, options, file)? {
                return Ok(false);
            }
        }
        Ok(true)
    }

    /// The lines of a command that asks about these ids. None if few rows don't show them, or if a file was changed.
    pub fn lines(
        &mut self,
        odb: &mut Odb<HostRuntime>,
        command: &Command,
        ids: &[ObjectId],
        options: &Options,
    ) -> Result<Option<Vec<u8>>, Failure> {
        let alloc = self.rt.alloc();
        for times in TIMES {
            let rows = choose(alloc, self.keys, command, &mut self.pages, odb, *times)?;
            let Some(rows) = rows else {
                break;
            };
            let lines = self.lines_of(odb, command, ids, options, &rows)?;
            if lines.is_some() || !rows.may_grow {
                return Ok(lines);
            }
        }
        Ok(None)
    }

    /// The lines that these rows show.
    fn lines_of(
        &mut self,
        odb: &mut Odb<HostRuntime>,
        command: &Command,
        ids: &[ObjectId],
        options: &Options,
        rows: &Rows,
    ) -> Result<Option<Vec<u8>>, Failure> {
        let alloc = self.rt.alloc();
        let border = IdSet::new(alloc, self.keys);
        let gathering = Gathering::commits(alloc, ids, Order::Met, border)?;
        let mut part = Part::of(alloc, gathering, None);
        let graph = Some(&rows.graph);
        if part.read_all(odb, graph, &mut Silent).is_err()
            || options.give_text() && part.read_listed(command, odb, graph).is_err()
        {
            return Ok(None);
        }
        let objects = part.gathering.objects();
        let Ok(Some(lines)) = run_paged(alloc, command, objects, &self.pages, rows) else {
            return Ok(None);
        };
        if self.are_taken(options)? {
            Ok(Some(lines))
        } else {
            Ok(None)
        }
    }

    /// Adds the best common ancestors of a pair. Whether few rows show them: otherwise some of them may have been added.
    pub fn add_common(
        &mut self,
        odb: &mut Odb<HostRuntime>,
        pair: &Pair,
        options: &Options,
        ids: &mut Vec<ObjectId>,
    ) -> Result<bool, Failure> {
        let alloc = self.rt.alloc();
        let Pair { one, other } = *pair;
        let command = Command::Bases {
            one,
            others: vec![in alloc; other]?,
        };
        let Some(lines) = self.lines(odb, &command, &[one, other], options)? else {
            return Ok(false);
        };
        for line in lines.as_slice().split(|byte| *byte == b'\n') {
            match ObjectId::from_hex(line) {
                Ok(id) => ids.push(id)?,
                Err(_) if line.is_empty() => {}
                Err(_) => return Ok(false),
            }
        }
        Ok(true)
    }
}
