//! The rows of a commit-graph, kept as packed bytes.
#![tactic(auto)]

mod bytes;
mod check;
mod commit;
mod fields;
mod guess;
pub mod laws;
mod order;
mod pack;
mod parents;
mod rows;

use bytes::Bytes;
use check::Layout;
pub use commit::Commit;
use gix_hash::{Kind, ObjectId};
pub use parents::Parents;
use smallvec::SmallVec;
use std::alloc::{AllocError, AllocFailed, Global};
use std::cmp::Ordering;
use std::default::MadeWith;
use std::marker::Model;
use thiserror::Error;

/// Where a parent's row is.
#[derive(Clone, Copy, PartialEq, Eq, Debug)]
pub enum ParentPlace {
    /// The row of this number: its place in the list of rows that are handed in, from 0.
    At(u32),
    /// No row: the graph is corrupt here.
    Fault,
}

/// The fault, which fills the unused places of a small vector.
impl MadeWith<Global> for ParentPlace {
    ghost use Rattle.std.specs.Prelude.{◌≡◌};
    ghost use Rattle.gix_commitgraph.specs.declared.ParentPlace.TheVariants.{Fault};

    ghost is_made_with = { λ place. place ≡ Fault };

    fn made_with(_alloc: Global) -> ParentPlace {
        ParentPlace::Fault
    }
}

/// The parents of a row, in the commit's order. A list of at most two takes no memory.
pub type ParentPlaces = SmallVec<ParentPlace, 2>;

/// What a commit-graph says of a commit.
#[derive(Debug)]
pub struct Row {
    /// The commit's id. No two rows of a graph have the same id.
    pub id: ObjectId,
    /// The id of the commit's tree.
    pub tree: ObjectId,
    /// The parents in the commit's order; `At` names a row by its place in the list of rows that are handed in.
    pub parents: ParentPlaces,
    /// The generation. In a graph that agrees with a store it is greater than that of each parent, and less than 4294967295, which
    /// says that none is known.
    pub generation: u32,
    /// The committer's seconds since 1970-01-01 00:00 UTC.
    pub time: i64,
}

impl Drop for Row {
    fn drop(self) {
        let Row {
            id: _,
            tree: _,
            parents: _,
            generation: _,
            time: _,
        } = self;
    }
}

/// Where packed bytes are not as they should be.
#[derive(Clone, Copy, PartialEq, Eq, Debug)]
pub enum Place {
    /// There are fewer than 12 bytes, or the first four name no layout.
    Head,
    /// There are too many rows or overflow words, or the number of bytes doesn't fit them.
    Size,
    /// The id of this row isn't above the one before it.
    Order(u32),
    /// The parent words of this row, or the overflow words that they name, are not as they should be.
    Parents(u32),
    /// There are further words after the last row's overflow list.
    Overflow,
}

/// Why there is no graph of these rows or bytes.
#[derive(Clone, Copy, PartialEq, Eq, Debug, Error)]
pub enum GraphError {
    /// There are more than 2,147,483,646 rows, or as many overflow words.
    #[error("a commit-graph has at most 2147483646 rows and as many overflow words")]
    TooMany,
    /// The ids and trees are not all of one kind.
    #[error("the ids of a commit-graph are of more than one kind")]
    MixedKinds,
    /// Two rows have one id.
    #[error("two rows of a commit-graph have one id")]
    DuplicateId,
    /// A parent's place isn't below the number of rows.
    #[error("a parent's place in a commit-graph is out of range")]
    PositionOutOfRange,
    /// The bytes are not packed rows; the first place where they are not as they should be.
    #[error("not a packed commit-graph: {0:?}")]
    Packed(Place),
    /// Memory ran out.
    #[error("out of memory")]
    Memory,
}

impl From<AllocError> for GraphError {
    ghost use Rattle.std.specs.Prelude.{◌≡◌};
    ghost use Rattle.gix_commitgraph.specs.declared.GraphError.TheVariants.{Memory};

    ghost from_gives = { λ _ error. error ≡ Memory };

    fn from(_error: AllocError) -> GraphError {
        GraphError::Memory
    }
}

// So that `list.push(row)?` is this error. The value is dropped.
impl<T: Drop> From<AllocFailed<T>> for GraphError {
    ghost use Rattle.std.specs.Prelude.{◌≡◌};
    ghost use Rattle.gix_commitgraph.specs.declared.GraphError.TheVariants.{Memory};

    ghost from_gives = { λ _ error. error ≡ Memory };

    fn from(_error: AllocFailed<T>) -> GraphError {
        GraphError::Memory
    }
}

/// The number of a row, in the rising order of ids, from 0.
#[derive(Clone, Copy, PartialEq, Eq, PartialOrd, Ord, Hash, Debug)]
pub struct Position(pub u32);

/// Says that a parent's place names no row, so the graph is corrupt there.
#[derive(Clone, Copy, PartialEq, Eq, Debug, Error)]
#[error("a parent's place in a commit-graph is corrupt")]
pub struct ParentFault;

/// The generation of a commit that has no row: none is known.
pub const GENERATION_NUMBER_INFINITY: u32 = 0xFFFF_FFFF;

/// The rows of a commit-graph, by their numbers in the rising order of ids.
///
/// Rows name their parents by place in the list that is handed in:
///
/// ```rust
/// pub fn graph_of_two(
///     alloc: Global,
///     tree: ObjectId,
///     root: ObjectId,
///     child: ObjectId,
/// ) -> Result<Graph, GraphError> {
///     let rows = vec![in alloc;
///         Row {
///             id: root,
///             tree,
///             parents: ParentPlaces::new(alloc),
///             generation: 1,
///             time: 100,
///         },
///         Row {
///             id: child,
///             tree,
///             parents: ParentPlaces::from_slice(alloc, &[ParentPlace::At(0)])?,
///             generation: 2,
///             time: 200,
///         },
///     ]?;
///     Graph::new(alloc, rows)
/// }
/// ```
#[derive(Debug)]
pub struct Graph {
    packed: Bytes,
    layout: Layout,
}

impl Drop for Graph {
    fn drop(self) {
        let Graph {
            packed: _,
            layout: _,
        } = self;
    }
}

impl Model for Graph {
    ghost use Rattle.std.specs.Prelude.{List};
    ghost use Rattle.gix_commitgraph.specs.Rows.{GraphRow};
    ghost use Rattle.gix_commitgraph.specs.PackedReading.{read_packed, rows_in};

    ghost Value = { List GraphRow };

    ghost use Rattle.gix_commitgraph.specs.Bytes.{packed_bytes};
    ghost use Rattle.gix_commitgraph.specs.PackedLayout.{IsPackedAs};

    ghost view = { λ g. rows_in (read_packed (packed_bytes g.packed)) };

    ghost invariant = { λ g. IsPackedAs (packed_bytes g.packed) g.layout (rows_in (read_packed (packed_bytes g.packed))) };
}

impl Graph {
    ghost use Rattle.std.specs.Prelude.{◌≡◌, ◌<◌, List, length, slice_get, All, Ok, IfOk, OnOk, IfErr, Some, IfSome};
    ghost use Rattle.std.specs.Option.{option_map};
    ghost use Rattle.gix_hash.specs.Id.{id_cmp};
    ghost use Rattle.gix_commitgraph.specs.Rows.{GraphRow, row_at, row_of};
    ghost use Rattle.gix_commitgraph.specs.GraphCommit.{rows_of_commit, row_of_commit};
    ghost use Rattle.gix_commitgraph.specs.Parents.{answers_of};
    ghost use Rattle.gix_commitgraph.specs.Packed.{AreGraphRows, kind_of_rows, overflow_words, spelling};
    ghost use Rattle.gix_commitgraph.specs.PackedReading.{words_of, read_packed, opened};
    ghost use Rattle.gix_commitgraph.specs.PackedLayout.{BeginsWithRow};
    ghost use Rattle.gix_commitgraph.specs.Renumbering.{rows_seen, HasSameRows, IsAccepted, Refuses};

    /// The graph of these rows, whatever their order. The rows need not agree with any store.
    ///
    /// # Errors
    ///
    /// The first that applies of `TooMany`, `MixedKinds`, `DuplicateId` and `PositionOutOfRange`. `Memory` when out of memory, which
    /// may be before one of the others is found. The rows are dropped.
    pub fn new(alloc: Global, rows: Vec<Row>) -> Result<Graph, GraphError>
        ensures rows { IfOk result (λ graph. AreGraphRows graph × HasSameRows (rows_seen rows.items) graph) }
        ensures accepted { OnOk result (IsAccepted (rows_seen rows.items)) }
        ensures refused { IfErr result (Refuses (rows_seen rows.items)) }
    {
        let layout = rows::layout_of(rows.as_slice())?;
        let order = order::sorted_entries(alloc, rows.as_slice())?;
        order::test(layout, rows.as_slice(), order.as_slice())?;
        let packed = pack::pack_rows(alloc, layout, rows.as_slice(), order.as_slice())?;
        let packed = Bytes::new(packed);
        Ok(Graph { packed, layout })
    }

    /// The graph of packed bytes, which it keeps as they are. No memory is needed.
    ///
    /// # Errors
    ///
    /// `Packed` with the first place that is not as it should be, and no other. The bytes are dropped.
    pub fn from_packed(packed: Vec<u8>) -> Result<Graph, GraphError>
        // Bytes that are accepted spell the graph's rows.
        ensures found { IfOk result (λ rows. AreGraphRows rows × (packed.items ≡ spelling rows)) }
        // Bytes that spell rows are accepted.
        ensures only { (rows : List GraphRow) → AreGraphRows rows → packed.items ≡ spelling rows → result ≡ Ok rows }
        // Which place is reported.
        ensures exact { result ≡ opened (read_packed packed.items) }
    {
        match check::check(packed.as_slice()) {
            Ok(layout) => {
                let packed = Bytes::new(packed);
                Ok(Graph { packed, layout })
            }
            Err(place) => Err(GraphError::Packed(place)),
        }
    }

    /// The same rows again. The packed bytes are shared, or copied where there was no memory to count their owners when this graph was made.
    pub fn copy(&self) -> Result<Graph, AllocError>
        ensures { IfOk result (λ graph. graph ≡ self.now) }
    {
        Ok(Graph {
            packed: self.packed.copy()?,
            layout: self.layout,
        })
    }

    /// The packed bytes of the rows: each list of rows has one spelling.
    pub fn packed(&self) -> &[u8]
        ensures { result.now ≡ spelling self.now }
    {
        self.packed.as_slice()
    }

    /// The number of rows. Their positions are the numbers below it.
    pub fn num_commits(&self) -> u32
        ensures count { result ≡ length self.now }
        ensures sound { AreGraphRows self.now }
    {
        self.layout.rows
    }

    /// The row of an id, or None where the id has none. The search begins with guesses of its place, which suit ids that are spread as those of a hash, and then
    /// halves what is left, so it never takes more than some forty comparisons.
    pub fn commit_by_id(&self, id: &ObjectId) -> Option<Commit<'_>>
        ensures row { option_map row_of_commit result ≡ row_of self.now id.now }
        ensures rows { IfSome result (λ commit. rows_of_commit commit ≡ self.now) }
    {
        let mut low = 0u32;
        let mut high = self.num_commits();
        let front = fields::front(id);
        let mut guess = guess::rows_between(0, front, high);
        let mut guesses = guess::GUESSES;
        while low < high {
            let middle = guess::probe(guesses, guess, low, high);
            guesses = guesses.saturating_sub(1);
            let away = self.away(middle, front);
            match self.compare_at(middle, id) {
                Ordering::Less => {
                    low = middle + 1;
                    guess = low.saturating_add(away);
                }
                Ordering::Greater => {
                    high = middle;
                    guess = middle.saturating_sub(away).saturating_sub(1);
                }
                Ordering::Equal => return Some(self.commit_at(Position(middle))),
            }
        }
        None
    }

    /// The row at a position, which must be below `num_commits`. The positions that `Commit::iter_parents` gives are.
    pub fn commit_at(&self, position: Position) -> Commit<'_>
        requires { position.0 < length self.now }
        ensures row { slice_get self.now position.0 ≡ Some (row_of_commit result) }
        ensures rows { rows_of_commit result ≡ self.now }
    {
        Commit::new(self, position)
    }

    /// The kind of all ids and trees.
    pub(crate) fn kind(&self) -> Kind
        ensures { result ≡ kind_of_rows self.now }
    {
        self.layout.kind
    }

    /// What begins with the row of a number.
    pub(crate) fn row(&self, row: u32) -> &[u8]
        requires { row < length self.now }
        ensures { BeginsWithRow self.now row result.now }
    {
        fields::row(self.packed.as_slice(), self.layout.kind, row)
    }

    /// The overflow words.
    pub(crate) fn overflow(&self) -> &[u8]
        ensures { words_of result.now ≡ overflow_words self.now }
    {
        let rows_len = fields::row_len(self.layout.kind) * self.layout.rows as usize;
        self.packed.as_slice().split_at(12 + rows_len).1
    }

    fn compare_at(&self, row: u32, id: &ObjectId) -> Ordering
        requires { row < length self.now }
        ensures { result ≡ id_cmp (row_at self.now row).id id.now }
    {
        fields::compare_id(self.kind(), self.row(row), id)
    }

    /// How many rows the row of an id that begins with a number is away from a row, where the ids of rows are spread evenly.
    fn away(&self, row: u32, front: u32) -> u32
        requires { row < length self.now }
    {
        guess::rows_between(fields::word_at(self.row(row), 0), front, self.layout.rows)
    }
}
