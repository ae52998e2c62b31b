//! Files of which pages are read as they are asked.
ghost use Rattle.std.specs.Prelude.{◌≡◌, ◌+◌, ◌≤◌, ◌<◌, length};

use crate::fault::Damage;
use gix_files::{Opened, fill};
use gix_pack::{IndexFault, Source};
use std::alloc::Global;
use std::os::unix::fs::FileExt;

/// How many bytes a page has.
const PAGE: usize = 1 << 14;

/// A file whose pages are read when they are asked for the first time, and kept.
pub(crate) struct Pages<F: Drop> {
    alloc: Global,
    /// The file, unless all of it was read.
    file: Option<F>,
    /// How many bytes it has.
    len: u64,
    /// The pages, of which those that weren't read are empty.
    pages: Vec<Vec<u8>>,
    /// Why a page wasn't read.
    damage: Option<Damage>,
}

impl<F: Drop> Drop for Pages<F> {
    fn drop(self) {
        let Pages {
            alloc: _,
            file: _,
            len: _,
            pages: _,
            damage: _,
        } = self;
    }
}

impl<F: FileExt + Drop> Pages<F> {
    /// The pages of a file, none of which is read.
    ///
    /// # Errors
    ///
    /// `Memory`.
    pub fn new(alloc: Global, opened: Opened<F>) -> Result<Pages<F>, Damage> {
        let count = opened.len / PAGE as u64 + 1;
        let mut pages = Vec::with_capacity(alloc, count as usize)?;
        for _ in 0..count {
            pages.push(Vec::new(alloc))?;
        }
        Ok(Pages {
            alloc,
            file: Some(opened.file),
            len: opened.len,
            pages,
            damage: None,
        })
    }

    /// How many bytes the file has.
    pub fn len(&self) -> u64 {
        self.len
    }

    /// Reads all pages, and closes the file.
    ///
    /// # Errors
    ///
    /// `Unreadable`, `Memory`.
    pub fn read_all(&mut self) -> Result<(), Damage> {
        for number in 0..self.pages.len() {
            self.read(number)?;
        }
        self.file = None;
        Ok(())
    }

    /// The bytes from a place on, so many, or all up to the file's end where these are fewer.
    ///
    /// # Errors
    ///
    /// `Unreadable`, `Memory`.
    pub fn bytes(&mut self, at: u64, count: usize) -> Result<Vec<u8>, Damage> {
        let left = self.len.saturating_sub(at);
        let count = left.min(count as u64) as usize;
        let mut bytes = vec![in self.alloc; 0u8; count]?;
        if self.fill(at, bytes.as_mut_slice()) {
            return Ok(bytes);
        }
        Err(self.damage_or(IndexFault::Truncated))
    }

    /// Why a page wasn't read, if one wasn't, and otherwise this fault.
    pub fn damage_or(&mut self, fault: IndexFault) -> Damage {
        match self.damage.take() {
            Some(damage) => damage,
            None => Damage::Index(fault),
        }
    }

    /// Reads a page.
    fn read(&mut self, number: usize) -> Result<(), Damage> {
        let at = (number as u64).saturating_mul(PAGE as u64);
        let left = self.len.saturating_sub(at);
        let mut page = vec![in self.alloc; 0u8; left.min(PAGE as u64) as usize]?;
        let filled = match &self.file {
            Some(file) => fill(file, page.as_mut_slice(), at)?,
            None => 0,
        };
        page.truncate(filled);
        if let Some(place) = self.pages.get_mut(number) {
            *place = page;
        }
        Ok(())
    }

    /// Puts what a page has from a place on into a buffer. How many bytes these are: none where the file ends.
    fn copy(&mut self, at: u64, buffer: &mut [u8]) -> Result<usize, Damage>
        ensures { length buffer.new ≡ length buffer.old }
    {
        let number = (at / PAGE as u64) as usize;
        match self.pages.get(number) {
            Some(page) if page.is_empty() => self.read(number)?,
            _ => {}
        }
        let Some(page) = self.pages.get(number) else {
            return Ok(0);
        };
        let bytes = page
            .as_slice()
            .get((at % PAGE as u64) as usize..)
            .unwrap_or_default();
        let count = bytes.len().min(buffer.len());
        buffer[..count].copy_from_slice(&bytes[..count]);
        Ok(count)
    }
}

impl<F: FileExt + Drop> Source for Pages<F> {
    fn fill(&mut self, at: u64, buffer: &mut [u8]) -> bool {
        let mut filled = 0usize;
        for _ in 0..u64::MAX {
            if filled >= buffer.len() {
                return true;
            }
            match self.copy(at.wrapping_add(filled as u64), &mut buffer[filled..]) {
                Ok(0) => return false,
                Ok(count) => filled = filled.saturating_add(count),
                Err(damage) => {
                    self.damage = Some(damage);
                    return false;
                }
            }
        }
        false
    }
}
