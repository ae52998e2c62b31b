//! Files that are read by pages.
ghost use Rattle.std.specs.Prelude.{◌≡◌, ℕ, List, length, IfSome};
ghost use Rattle.gix_statement.specs.CommitGraph.{bytes_at};
ghost use Rattle.gix_graph_pages.specs.GraphPages.{IsFileOf};

use gix_files::{Damage, fill};
use std::alloc::{AllocError, Global};
use std::marker::Model;
use std::os::unix::fs::FileExt;

/// How many bytes lie between the beginnings of two pages.
const STEP: u64 = 4096;
/// How many bytes a page has: those of the next one with which what begins in it ends.
const LEN: usize = 4096 + 64;
/// How many pages are read at the most, of all files together.
const MOST: usize = 1 << 14;

/// The files of a commit-graph, lowest first, and the pages of them that were read. The model of it is what these have.
pub struct Pages<F: Drop> {
    alloc: Global,
    files: Vec<F>,
    pages: Vec<Vec<Option<Vec<u8>>>>,
    /// How many pages were read.
    read: usize,
}

impl<F: Drop> Drop for Pages<F> {
    fn drop(self) {
        let Pages {
            alloc: _,
            files: _,
            pages: _,
            read: _,
        } = self;
    }
}

impl<F: Drop> Model for Pages<F> {
    ghost use Rattle.std.specs.Prelude.{ℕ, List, map, Option, vec_items};
    ghost use Rattle.std.specs.Option.{option_map};

    ghost Value = { List (List (Option (List ℕ))) };

    ghost view = { λ p. map (λ own. map (option_map vec_items) own.items) p.pages.items };
}

impl<F: FileExt + Drop> Pages<F> {
    /// No files.
    pub fn new(alloc: Global) -> Pages<F> {
        Pages {
            alloc,
            files: Vec::new(alloc),
            pages: Vec::new(alloc),
            read: 0,
        }
    }

    /// Adds a file of so many bytes, of which no page was read, above those that are there.
    ///
    /// # Errors
    ///
    /// `AllocError` when out of memory. The pages aren't to be used then.
    pub fn add(&mut self, file: F, len: u64) -> Result<(), AllocError> {
        let mut pages = Vec::new(self.alloc);
        for _ in 0..=len / STEP {
            pages.push(None)?;
        }
        self.pages.push(pages)?;
        self.files.push(file)?;
        Ok(())
    }

    /// Reads the page of a place, in bytes from the beginning of the file of this number, from 0, unless it was read. Nothing is read beyond
    /// 16,384 pages, so that no file makes a question cost more.
    ///
    /// # Errors
    ///
    /// `Unreadable`, `Memory`. The pages are as they were.
    pub fn load(&mut self, layer: usize, place: u64) -> Result<(), Damage> {
        let number = (place / STEP) as usize;
        let Some(file) = self.files.as_slice().get(layer) else {
            return Ok(());
        };
        let Some(pages) = self.pages.as_mut_slice().get_mut(layer) else {
            return Ok(());
        };
        let Some(page) = pages.as_mut_slice().get_mut(number) else {
            return Ok(());
        };
        if page.is_some() || self.read >= MOST {
            return Ok(());
        }
        let mut bytes = vec![in self.alloc; 0u8; LEN]?;
        let from = STEP.wrapping_mul(number as u64);
        let filled = fill(file, bytes.as_mut_slice(), from)?;
        bytes.truncate(filled);
        *page = Some(bytes);
        self.read += 1;
        Ok(())
    }
}

impl<F: Drop> Pages<F> {
    /// The files, lowest first.
    pub fn files(&self) -> &[F] {
        self.files.as_slice()
    }

    /// How many files there are.
    pub fn count(&self) -> usize
        ensures { result ≡ length self.now }
    {
        self.pages.len()
    }

    /// So many bytes from a place on in the file of this number, and None if they aren't all in the place's page, or if it wasn't read.
    pub(crate) fn bytes(&self, layer: usize, place: u64, count: usize) -> Option<&[u8]>
        ensures { IfSome result (λ bytes. (length bytes.now ≡ count)
            × ((file : List ℕ) → IsFileOf self.now layer file → bytes_at place count file ≡ bytes.now)) }
    {
        let number = (place / STEP) as usize;
        let pages = self.pages.as_slice().get(layer)?;
        let Some(Some(page)) = pages.as_slice().get(number) else {
            return None;
        };
        let from = (place % STEP) as usize;
        let page = page.as_slice();
        if from > page.len() {
            return None;
        }
        let (_, rest) = page.split_at(from);
        if count > rest.len() {
            return None;
        }
        Some(rest.split_at(count).0)
    }
}
