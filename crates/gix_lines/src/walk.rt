//! Where a walk in depth is.
ghost use Rattle.std.specs.Prelude.{◌≡◌, ◌↔◌, ◌<◌, ◌++◌, ◌∷◌, [], length, IfOk, IsTrue};
ghost use Rattle.std.specs.Option.{option_map};
ghost use Rattle.gix_object.specs.TreeRefIter.{entry_of, items_left};
ghost use Rattle.gix_tree.specs.Walk.{trees_of};
ghost use Rattle.gix_lines.specs.Inside.{ComesTo, LeavesTo, names_above};
ghost use Rattle.gix_lines.specs.Output.{Puts};

use crate::Error;
use crate::buffer::{Buffer, place};
use gix_hash::ObjectId;
use gix_object::Kind;
use gix_object::memory::MemoryStore;
use gix_object::tree::{EntryRef, TreeRefIter};
use std::alloc::{AllocError, Global};
use std::io::Write;
use std::marker::Model;

/// The entries of the tree of this id. None where the store has no such tree.
pub fn entries_of<'a>(store: &'a MemoryStore<'_>, id: &ObjectId) -> Option<TreeRefIter<'a>>
    ensures { option_map items_left result ≡ trees_of store.now id.now }
{
    let Some(found) = store.get(id) else {
        return None;
    };
    match found.kind {
        Kind::Tree => Some(TreeRefIter::from_bytes(found.bytes, id.kind())),
        Kind::Blob => None,
        Kind::Commit => None,
        Kind::Tag => None,
    }
}

/// A tree above the one that a walk is in.
#[derive(Clone, Copy)]
struct Upper<'a> {
    /// The name of the entry that the walk went into.
    name: &'a [u8],
    /// The entries behind that one.
    entries: TreeRefIter<'a>,
}

/// How many bytes of the names above are kept in one piece.
const PATH: usize = 1 << 14;

/// Where a walk in depth is: what is left of a tree, and of the trees above it. It goes down to a depth for which all memory is taken when
/// it begins.
#[derive(Drop)]
pub struct Walk<'a> {
    /// What is left of the tree that the walk is in.
    entries: TreeRefIter<'a>,
    /// The trees above it, the root first, in the front of this.
    above: Vec<Upper<'a>>,
    /// How many trees are above it.
    level: usize,
    /// The names of the first of these trees, each with a `/` behind it, in the front of this: those of which it has room for all.
    path: Vec<u8>,
    /// Of how many trees the names are in the path.
    joined: usize,
    /// How many bytes these names take.
    end: usize,
}

impl<'a> Model for Walk<'a> {
    ghost use Rattle.std.specs.Prelude.{length, map, take};
    ghost use Rattle.gix_object.specs.TreeRefIter.{items_left};
    ghost use Rattle.gix_lines.specs.Inside.{KeepsNames, Standing, above_of};

    ghost Value = { Standing };

    ghost view = { λ w. record {
      items = items_left w.entries;
      above = map above_of (take w.level w.above.items);
      room = length w.above.items;
    } };

    ghost invariant = { λ w. KeepsNames w.above.items w.level w.joined w.path.items w.end };
}

impl<'a> Walk<'a> {
    /// A walk that has these entries before it, and goes down so many trees at the most.
    pub fn new(
        alloc: Global,
        depth: usize,
        entries: TreeRefIter<'a>,
    ) -> Result<Walk<'a>, AllocError>
        ensures { IfOk result (λ walk. walk ≡ record { items = items_left entries.entry; above = []; room = depth }) }
    {
        let none = Upper { name: &[], entries };
        let above = vec![in alloc; none; depth]?;
        let path = vec![in alloc; 0; PATH]?;
        Ok(Walk {
            entries,
            above,
            level: 0,
            path,
            joined: 0,
            end: 0,
        })
    }

    /// The next entry, in the tree or behind it. None at the end of the root, and at bytes that are no entry.
    #[inline(always)]
    pub fn next(&mut self) -> Option<EntryRef<'a>>
        ensures { ComesTo self.old (option_map entry_of result) self.new }
    {
        'levels: loop {
            match self.entries.next() {
                Some(Ok(entry)) => return Some(entry),
                Some(Err(_)) => return None,
                None => {
                    if !self.leave() {
                        return None;
                    }
                }
            }
        }
    }

    /// Goes back to the tree above. Whether there is one.
    fn leave(&mut self) -> bool
        ensures { LeavesTo self.old result self.new }
    {
        if self.level == 0 {
            return false;
        }
        self.level -= 1;
        let upper = self.above[self.level];
        self.entries = upper.entries;
        if self.joined <= self.level {
            return true;
        }
        self.joined = self.level;
        self.end = self.end - upper.name.len() - 1;
        true
    }

    /// Goes into a tree of this name, which has these entries. Whether there is room for that.
    pub fn enter(&mut self, name: &'a [u8], entries: TreeRefIter<'a>) -> bool
        ensures fits { IsTrue result ↔ (length self.old.above < self.old.room) }
        ensures entered { IsTrue result → self.new ≡ record self.old {
          items = items_left entries.entry;
          above = self.old.above ++ record { name = name.now; items = self.old.items } ∷ [];
        } }
    {
        if self.level == self.above.len() {
            return false;
        }
        self.above[self.level] = Upper {
            name,
            entries: self.entries,
        };
        self.entries = entries;
        self.level += 1;
        if self.joined + 1 < self.level {
            return true;
        }
        if self.path.len() - self.end <= name.len() {
            return true;
        }
        self.end = place(&mut self.path, self.end, name, b'/');
        self.joined = self.level;
        true
    }

    /// Puts the names of the entries that the walk went into, each with a `/` behind it.
    #[inline(always)]
    pub fn put_names<W: Write>(&self, buffer: &mut Buffer, writer: &mut W) -> Result<(), Error>
        ensures { Puts (W.contents writer.old) buffer.old (names_above self.now.above) result (W.contents writer.new) buffer.new }
    {
        buffer.put_all(&self.path[..self.end], writer)?;
        'names: for upper in &self.above[self.joined..self.level] {
            buffer.put(upper.name, b'/', writer)?;
        }
        Ok(())
    }
}
