//! The lines of the entries of a tree and of the trees in it, written as a walk in depth meets them.
//!
//! All memory is taken before the first byte is written: as much as the depth of the walk needs, and a buffer. Behind the first byte
//! nothing but the writer can fail.
ghost use Rattle.std.specs.Prelude.{◌≡◌, ◌≤◌, ◌∷◌, List, length, map, take, true, OnOk};
ghost use Rattle.std.specs.List.{AllByRecursion, flat_map};
ghost use Rattle.std.specs.declared.ops.ControlFlow.TheVariants.{Continue};
ghost use Rattle.gix_tree.specs.Delegate.{Call};
ghost use Rattle.gix_tree.specs.Recorder.{Record, record_of};
ghost use Rattle.gix_tree.specs.Script.{IsDepthScript};
ghost use Rattle.gix_tree.specs.Visits.{Visit, Whole};
ghost use Rattle.gix_tree.specs.Walk.{trees_of};
ghost use Rattle.gix_tree_size.specs.Survey.{deepest};
ghost use Rattle.gix_lines.specs.Files.{file_line};
ghost use Rattle.gix_lines.specs.Inside.{AreLeft};
ghost use Rattle.gix_lines.specs.Output.{Puts, WritesLines};

use crate::Error;
use crate::buffer::Buffer;
use crate::lines::put_line;
use crate::walk::{Walk, entries_of};
use gix_hash::ObjectId;
use gix_object::memory::MemoryStore;
use std::alloc::Global;
use std::io::Write;

/// Writes a line for each of the first `number` entries of the tree of this id and of the trees in it, in the order of a walk in depth.
///
/// The walk must meet no fault, there must be as many entries, and none may be in more than `depth` trees. Where that isn't so, nothing is
/// said of what is written, nor of the answer. All memory is taken before the first byte is written: as much as the depth needs, and a
/// buffer.
///
/// # Errors
/// `Memory`: nothing is written. `Write` where the writer failed: a beginning of the lines is.
pub fn write_entries<W: Write>(
    alloc: Global,
    ending: u8,
    number: u64,
    depth: usize,
    tree: ObjectId,
    store: &MemoryStore<'_>,
    writer: &mut W,
) -> Result<(), Error>
    ensures { (calls : List Call) (visits : List Visit)
        → IsDepthScript (trees_of store.now) (λ _ _. ⊥) tree calls visits Whole → AllByRecursion (λ v. v.answer ≡ Continue true) visits
        → number ≤ length visits → deepest visits ≤ depth
        → WritesLines (W.contents writer.old) (flat_map (file_line ending) (take number (map record_of visits))) result
        (W.contents writer.new) }
{
    let Some(entries) = entries_of(store, &tree) else {
        return Err(Error::Memory);
    };
    let Ok(mut walk) = Walk::new(alloc, depth, entries) else {
        return Err(Error::Memory);
    };
    let Ok(mut buffer) = Buffer::new(alloc) else {
        return Err(Error::Memory);
    };
    put_lines(ending, number, store, &mut walk, &mut buffer, writer)?;
    buffer.finish(writer)
}

/// Puts the lines of the next entries, so many.
fn put_lines<'a, W: Write>(
    ending: u8,
    number: u64,
    store: &'a MemoryStore<'_>,
    walk: &mut Walk<'a>,
    buffer: &mut Buffer,
    writer: &mut W,
) -> Result<(), Error>
    ensures { (records : List Record) → AreLeft (trees_of store.now) walk.old records → number ≤ length records
        → Puts (W.contents writer.old) buffer.old (flat_map (file_line ending) (take number records)) result (W.contents writer.new)
        buffer.new }
{
    'lines: for _line in 0..number {
        put_next(ending, store, walk, buffer, writer)?;
    }
    Ok(())
}

/// Puts the line of the next entry, and goes behind it, or into its tree.
fn put_next<'a, W: Write>(
    ending: u8,
    store: &'a MemoryStore<'_>,
    walk: &mut Walk<'a>,
    buffer: &mut Buffer,
    writer: &mut W,
) -> Result<(), Error>
    ensures line { (r : Record) (records : List Record) → AreLeft (trees_of store.now) walk.old (r ∷ records)
        → Puts (W.contents writer.old) buffer.old (file_line ending r) result (W.contents writer.new) buffer.new }
    ensures left { (r : Record) (records : List Record) → AreLeft (trees_of store.now) walk.old (r ∷ records)
        → OnOk result (AreLeft (trees_of store.now) walk.new records) }
{
    let Some(entry) = walk.next() else {
        return Err(Error::Memory);
    };
    put_line(ending, walk, &entry, buffer, writer)?;
    if !entry.mode.is_tree() {
        return Ok(());
    }
    let Some(entries) = entries_of(store, &entry.oid) else {
        return Err(Error::Memory);
    };
    if !walk.enter(entry.filename.as_bytes(), entries) {
        return Err(Error::Memory);
    }
    Ok(())
}
