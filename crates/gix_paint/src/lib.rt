//! What hidden tips reach, as far as a walk can meet it.
#![tactic(auto)]

ghost use Rattle.std.specs.Prelude.{◌≡◌, ◌≢◌, ◌↔◌, ◌∷◌, [], IsTrue, IfOk, IfErr, OnOk, IfSome, IfNone, if◌then◌else◌};
ghost use Rattle.std.specs.FinSet as set;
ghost use Rattle.gix_object.specs.declared.find.existing_iter.Error.TheVariants as existing;
ghost use Rattle.gix_commitgraph.specs.Rows.{row_of};
ghost use Rattle.gix_paint.specs.Painting.{IsHiddenFault, Paints};
ghost use Rattle.gix_revwalk.specs.Ids.{ids_of};
ghost use Rattle.gix_paint.specs.Inside.Painter as painter;
ghost use Rattle.gix_paint.specs.Inside.Painter.{generation_told, Meets, is_turn, Takes, TreatsEntry, IsSettled, Pops};
ghost use Rattle.gix_paint.specs.Reading.{ReadFails};
ghost use Rattle.gix_revwalk.specs.Agreeing.{rows_in, rows_of};
ghost use Rattle.gix_revwalk.specs.Reading.{rows_used};

mod queue;
pub mod source;

use bitflags::{Flag, Flags, bitflag_items};
use gix_commitgraph::Graph;
use gix_hash::hashtable::{IdMap, IdSet};
use gix_hash::{Keys, ObjectId};
use gix_object::decode;
use gix_object::find::{Find, existing_iter};
use gix_revwalk::Pending;
use gix_revwalk::row::{NOWHERE, copy_of};
use gix_revwalk::source::Source;
use queue::{Entry, Generation, Queue};
use source::{Named, parents};
use std::alloc::{AllocError, Global};
use std::collections::VecDeque;
use std::marker::Model;
use thiserror::Error;

/// Why the history of hidden tips could not be read.
#[derive(Clone, Copy, Debug, PartialEq, Eq, Error)]
pub enum Hidden {
    /// A commit could not be looked up.
    #[error(transparent)]
    Find(existing_iter::Error),
    /// A commit's bytes are broken before its committer ends.
    #[error(transparent)]
    ObjectDecode(decode::Error),
}

impl From<decode::Error> for Hidden {
    ghost use Rattle.gix_paint.specs.declared.Hidden.TheVariants as hidden_by;

    ghost from_gives = { λ e r. r ≡ hidden_by.ObjectDecode e };

    fn from(e: decode::Error) -> Hidden {
        Hidden::ObjectDecode(e)
    }
}

impl From<existing_iter::Error> for Hidden {
    ghost use Rattle.gix_paint.specs.declared.Hidden.TheVariants as hidden_by;

    ghost from_gives = { λ e r. r ≡ hidden_by.Find e };

    fn from(e: existing_iter::Error) -> Hidden {
        Hidden::Find(e)
    }
}

impl From<AllocError> for Hidden {
    ghost use Rattle.gix_object.specs.declared.find.existing_iter.Error.TheVariants as existing;
    ghost use Rattle.gix_paint.specs.declared.Hidden.TheVariants as hidden_by;

    ghost from_gives = { λ _ r. r ≡ hidden_by.Find existing.Memory };

    fn from(_e: AllocError) -> Hidden {
        Hidden::Find(existing_iter::Error::Memory)
    }
}

/// For which tips a commit is read: those of the walk, or the hidden ones.
#[derive(Clone, Copy)]
enum Side {
    Visible,
    Hidden,
}

/// Which tips reach an id: it has the mark of each side that met it.
#[derive(Clone, Copy)]
struct Marks(u8);

bitflag_items! {
    impl Marks: u8 {
        const VISIBLE = 1;
        const HIDDEN = 2;
    }
}

impl Flags for Marks {
    ghost use Rattle.std.specs.Prelude.{⊤, codes, ◌∷◌, []};

    type Bits = u8;

    ghost exact = { ⊤ };

    ghost table = { (codes "VISIBLE", 1) ∷ (codes "HIDDEN", 2) ∷ [] };

    ghost set_of = { λ m. m.0 };

    fn flags<'a>() -> &'a [Flag<Marks>] {
        Marks::FLAGS
    }

    fn bits(&self) -> u8 {
        self.0
    }

    fn from_bits_retain(bits: u8) -> Marks {
        Marks(bits)
    }
}

/// The ids that a painting found hidden.
#[derive(Drop)]
pub struct HiddenIds {
    marks: IdMap<Marks>,
}

impl Model for HiddenIds {
    ghost use Rattle.std.specs.FinSet.{FinSet, code};
    ghost use Rattle.gix_hash.specs.Id.{id_cmp, id_code};
    ghost use Rattle.gix_paint.specs.Inside.Painter.{hidden_of};

    ghost Value = { FinSet id_cmp };

    ghost coded = { code id_code };

    ghost view = { λ h. hidden_of h.marks };
}

impl HiddenIds {
    /// An empty set of ids. It takes no memory.
    pub fn new(alloc: Global, keys: Keys) -> HiddenIds
        ensures { result ≡ set.empty }
    {
        HiddenIds {
            marks: IdMap::new(alloc, keys),
        }
    }

    /// Whether the id is hidden.
    pub fn contains(&self, id: &ObjectId) -> bool
        ensures { result ≡ set.contains self.now id.now }
    {
        is_hidden(&self.marks, id)
    }
}

/// Whether a hidden tip is known to reach the id.
fn is_hidden(marks: &IdMap<Marks>, id: &ObjectId) -> bool
    ensures { result ≡ painter.is_hidden marks.now id.now }
{
    match marks.get(id) {
        Some(marks) => marks.contains(Marks::HIDDEN),
        None => false,
    }
}

/// Gives an id one more mark, and returns the marks that it had.
fn add_mark(marks: &mut IdMap<Marks>, id: ObjectId, mark: Marks) -> Result<Marks, AllocError>
    ensures old { IfOk result (λ old. old.0 ≡ painter.bits_at marks.old id) }
    ensures ok { OnOk result (painter.AddsMark mark.0 id marks.old marks.new) }
{
    match marks.insert(id, mark)? {
        None => Ok(Marks::empty()),
        Some(old) => {
            let all = old.union(mark);
            if all.bits() != mark.bits() {
                marks.replace(&id, all);
            }
            Ok(old)
        }
    }
}

/// What was marked, and what waits to be read.
#[derive(Drop)]
struct Painter<'a, F> {
    source: Source<&'a F>,
    /// The marks of each id that was met.
    marks: IdMap<Marks>,
    /// The ids that have a row, wait for visible tips, and that no hidden tip was found to reach.
    frontier: IdSet,
    queue: Queue,
}

impl<'a, F: Find> Painter<'a, F> {
    /// The generation in a commit's row, and `Infinite` without one. The places of the row aren't read.
    fn generation(&self, id: &ObjectId) -> Generation
        ensures { result ≡ generation_told (row_of (rows_used self.now.source) id.now) }
    {
        match self.source.row(id, NOWHERE) {
            Some(commit) => Generation::Told(commit.generation()),
            None => Generation::Infinite,
        }
    }

    /// An id that visible tips reach is queued once. One that is hidden already is left to the hidden side.
    #[inline(always)]
    fn show(&mut self, id: ObjectId) -> Result<(), AllocError>
        ensures { OnOk result (Meets Side.Visible (id ∷ []) self.old self.new) }
    {
        if !add_mark(&mut self.marks, id, Marks::VISIBLE)?.is_empty() {
            return Ok(());
        }
        let generation = self.generation(&id);
        if let Generation::Told(_) = generation {
            self.frontier.insert(id)?;
        }
        self.queue.insert(
            generation,
            Entry {
                id,
                side: Side::Visible,
            },
        )
    }

    /// An id that hidden tips reach is queued once for them, whatever visible tips did.
    fn hide(&mut self, id: ObjectId) -> Result<(), AllocError>
        ensures { OnOk result (Meets Side.Hidden (id ∷ []) self.old self.new) }
    {
        if add_mark(&mut self.marks, id, Marks::HIDDEN)?.contains(Marks::HIDDEN) {
            return Ok(());
        }
        let generation = self.generation(&id);
        self.frontier.remove(&id);
        self.queue.insert(
            generation,
            Entry {
                id,
                side: Side::Hidden,
            },
        )
    }

    /// Ids that are reached on a side, in order.
    fn meet_all(&mut self, mut ids: &[ObjectId], side: Side) -> Result<(), AllocError>
        ensures { OnOk result (Meets side ids.entry.now self.old self.new) }
    {
        while let Some((id, rest)) = ids.split_first() {
            match side {
                Side::Visible => self.show(*id)?,
                Side::Hidden => self.hide(*id)?,
            }
            ids = rest;
        }
        Ok(())
    }

    fn show_all(&mut self, tips: &VecDeque<Pending>) -> Result<(), AllocError>
        ensures { OnOk result (Meets Side.Visible (ids_of tips.now.items) self.old self.new) }
    {
        for tip in tips.iter() {
            self.show(tip.id)?;
        }
        Ok(())
    }

    /// Whether an entry that was taken is to be read. A visible entry that has a row leaves the frontier, and if hidden tips were found to
    /// reach it meanwhile, the hidden side reads it. Without a row few can be so, since the hidden side goes first.
    fn begins(&mut self, generation: Generation, entry: &Entry) -> bool
        ensures turn { result ≡ is_turn self.old.marks (generation, entry.now) }
        ensures takes { Takes self.old (generation, entry.now) self.new }
        ensures in_use { self.new.source.in_use ≡ self.old.source.in_use }
    {
        match (generation, entry.side) {
            (Generation::Told(_), Side::Visible) => {
                self.frontier.remove(&entry.id);
                !is_hidden(&self.marks, &entry.id)
            }
            _ => true,
        }
    }

    /// The commit of an entry that was taken is read, and its parents are met on its side.
    fn treat(&mut self, generation: Generation, entry: Entry) -> Result<(), Hidden>
        ensures ok { IfOk result (λ _. TreatsEntry F.objects self.old (generation, entry) self.new) }
        ensures fault { IfErr result (ReadFails (F.objects self.old.source.objects.now) (F.faulty self.old.source.objects.now)
            (rows_of self.old.source.graph) self.old.source.in_use entry.id) }
    {
        if !self.begins(generation, &entry) {
            return Ok(());
        }
        let Named { parent_ids, .. } = parents(&mut self.source, &entry.id, NOWHERE)?;
        self.meet_all(parent_ids.as_slice(), entry.side)?;
        Ok(())
    }

    /// Whether the marks are whole: nothing is queued, or, while the rows are in use, all that is queued is hidden and has a row.
    fn is_settled(&self) -> bool
        ensures { IsTrue result ↔ IsSettled self.now }
    {
        self.queue.has_rows_alone()
            && (self.queue.is_empty() || self.frontier.is_empty() && self.source.in_use)
    }

    /// The entry whose turn it is, and None where the painting is settled.
    fn next_entry(&mut self) -> Option<(Generation, Entry)>
        ensures none { IfNone result (IsSettled self.old × (self.new ≡ self.old)) }
        ensures some { IfSome result (λ top. ¬ (IsSettled self.old) × Pops self.old top self.new) }
    {
        if self.is_settled() {
            return None;
        }
        self.queue.pop()
    }
}

/// What a painting gives.
#[derive(Drop)]
pub struct Painting {
    /// The ids found hidden.
    pub hidden: HiddenIds,
    /// Whether there is a graph, none of whose rows was found corrupt.
    pub rows_in_use: bool,
}

/// Marks ids that the hidden tips reach, and no others: all such ids that are tips, or parents of a commit that tips reach and hidden
/// tips don't.
/// It stops as soon as the rows say that these marks are whole: below, the places of no row are read, and no commit that has one is looked up.
///
/// # Errors
///
/// `Find` or `ObjectDecode` for a commit that has to be read and can't be; out of memory is `Find(Memory)`.
pub fn paint<'a, F: Find>(
    alloc: Global,
    objects: &'a F,
    graph: Option<&'a Graph>,
    tips: &VecDeque<Pending>,
    hidden_tips: &[ObjectId],
) -> Result<Painting, Hidden>
    ensures ok { IfOk result (λ p. Paints (F.objects objects.now) (rows_in graph.entry) (ids_of tips.now.items) hidden_tips.now p.hidden
        (if p.rows_in_use then rows_in graph.entry else [])) }
    ensures fault { IfErr result (λ why. why ≢ Hidden.Find existing.Memory
        → IsHiddenFault (F.objects objects.now) (F.faulty objects.now) (rows_in graph.entry)
        (ids_of tips.now.items) hidden_tips.now why) }
{
    let keys = objects.keys();
    let graph = copy_of(graph)?;
    let mut painter = Painter {
        source: Source::new(alloc, objects, graph),
        marks: IdMap::new(alloc, keys),
        frontier: IdSet::new(alloc, keys),
        queue: Queue::new(alloc),
    };
    // What is met last is read first: the hidden tips. So where there is no graph a commit is read once, but for tips that are hidden.
    painter.show_all(tips)?;
    painter.meet_all(hidden_tips, Side::Hidden)?;
    while let Some((generation, entry)) = painter.next_entry() {
        painter.treat(generation, entry)?;
    }
    let Painter { source, marks, .. } = painter;
    Ok(Painting {
        hidden: HiddenIds { marks },
        rows_in_use: source.uses_rows(),
    })
}
