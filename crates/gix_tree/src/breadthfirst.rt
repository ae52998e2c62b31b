//! A walk of trees by levels: all entries of a tree come before the entries of the trees in it.
ghost use Rattle.std.specs.Prelude.{◌≡◌, ◌≤◌, ◌∷◌, ◌++◌, [], IfOk, IfSome, IsNone, OnOk, OnErr, MatchOption};
ghost use Rattle.gix_hash.specs.Id.{is_among};
ghost use Rattle.gix_object.specs.TreeRefIter.{entry_of, items_left};
ghost use Rattle.gix_tree.specs.Inside.LevelQueue.{LevelQueue, empty_queue, queued};
ghost use Rattle.gix_tree.specs.Inside.ShowsEntry.{Queues, ShowsEntry, ShowsTree};
ghost use Rattle.gix_tree.specs.Walk.{BreadthFirst};

use crate::visit::{Visit, see};
use gix_hash::ObjectId;
use gix_object::find::{Find, existing_iter};
use gix_object::tree::{EntryRef, TreeRefIter};
use gix_object::{Kind, decode};
use std::alloc::{AllocError, Global};
use std::marker::Model;
use std::ops::ControlFlow;
use thiserror::Error;

/// Why a walk of trees ended before it had shown all. Both walks answer it.
#[derive(Clone, Copy, Debug, PartialEq, Eq, Error)]
pub enum Error {
    /// A tree can't be looked up: the store failed, has no object of this id, or has one of another kind.
    #[error(transparent)]
    Find(existing_iter::Error),
    /// The delegate answered `Break`. Only `breadthfirst` gives this error; `depthfirst` answers `Ok` there.
    #[error("The delegate cancelled the operation")]
    Cancelled,
    /// After the entries that were shown, a tree's bytes are no entry.
    #[error(transparent)]
    ObjectDecode(decode::Error),
    /// The delegate answered `Continue(true)` at a tree that holds itself: one of the trees above this entry has its id, `oid`.
    #[error("the tree {oid} stands under itself")]
    Cycle { oid: ObjectId },
    /// Memory ran out, in the walk, in a look-up or in the delegate.
    #[error("out of memory")]
    Memory,
}

impl From<decode::Error> for Error {
    ghost use Rattle.gix_tree.specs.declared.breadthfirst.Error.TheVariants as error;

    ghost from_gives = { λ e r. r ≡ error.ObjectDecode e };

    fn from(e: decode::Error) -> Error {
        Error::ObjectDecode(e)
    }
}

impl From<existing_iter::Error> for Error {
    ghost use Rattle.gix_tree.specs.Errors.{error_of_find};

    ghost from_gives = { λ e r. r ≡ error_of_find e };

    fn from(e: existing_iter::Error) -> Error {
        match e {
            existing_iter::Error::Memory => Error::Memory,
            e => Error::Find(e),
        }
    }
}

impl From<AllocError> for Error {
    ghost use Rattle.gix_tree.specs.declared.breadthfirst.Error.TheVariants as error;

    ghost from_gives = { λ _ r. r ≡ error.Memory };

    fn from(_e: AllocError) -> Error {
        Error::Memory
    }
}

/// A tree that was met: its id, and how many trees had had their turn by then. The last of these holds it, or the root does
/// where there is none.
#[derive(Clone, Copy)]
struct Tree {
    oid: ObjectId,
    turn: usize,
}

/// The trees that were met, in the order of their turns, and how many have had theirs. The trees above one are found by going
/// up from turn to turn.
#[derive(Drop)]
struct Queue {
    trees: Vec<Tree>,
    turn: usize,
}

impl Model for Queue {
    ghost use Rattle.std.specs.Prelude.{◌≤◌, length};
    ghost use Rattle.gix_tree.specs.Inside.LevelQueue.{LevelQueue, level_queue, AreAbove};

    ghost Value = { LevelQueue };

    ghost view = { λ q. level_queue q.turn q.trees.items };

    ghost invariant = { λ q. (q.turn ≤ length q.trees.items) × AreAbove 0 q.trees.items };
}

impl Queue {
    fn new(alloc: Global) -> Queue
        ensures { result ≡ empty_queue }
    {
        Queue {
            trees: Vec::new(alloc),
            turn: 0,
        }
    }

    fn clear(&mut self)
        ensures { self.new ≡ empty_queue }
    {
        self.trees.clear();
        self.turn = 0;
    }

    /// Whether a tree on the way down to the one whose turn it is has this id.
    fn knows(&self, oid: &ObjectId) -> bool
        ensures { result ≡ is_among oid.now self.now.known }
    {
        let mut turn = self.turn;
        while turn > 0 {
            let tree = self.trees[turn - 1];
            if *oid == tree.oid {
                return true;
            }
            turn = tree.turn;
        }
        false
    }

    /// A tree in the one whose turn it is waits for its own turn.
    fn push(&mut self, oid: ObjectId) -> Result<(), AllocError>
        ensures ok { OnOk result (self.new ≡ queued self.old oid) }
        ensures err { OnErr result (self.new ≡ self.old) }
    {
        let turn = self.turn;
        self.trees.push(Tree { oid, turn })?;
        Ok(())
    }

    /// The tree that has waited longest is next.
    fn pop(&mut self) -> Option<ObjectId>
        ensures { MatchOption result ((self.old.waiting ≡ []) × (self.new ≡ self.old))
            (λ oid. self.old.waiting ≡ (oid, self.new.known) ∷ self.new.waiting) }
    {
        let tree = self.trees.get(self.turn)?;
        self.turn += 1;
        Some(tree.oid)
    }
}

/// The memory that a walk works in. A later walk can use it again, whatever the earlier walk answered. It changes no answer.
#[derive(Drop)]
pub struct State {
    queue: Queue,
    tree: Vec<u8>,
}

impl State {
    /// An unused one. It takes no memory until a walk does.
    pub fn new(alloc: Global) -> State {
        State {
            queue: Queue::new(alloc),
            tree: Vec::new(alloc),
        }
    }
}

/// The entry's tree waits in the queue, under the path that ends with the entry's name.
fn enqueue<V: Visit>(queue: &mut Queue, delegate: &mut V, entry: &EntryRef<'_>) -> Result<(), Error>
    ensures { Queues V.steps (entry_of entry.now) delegate.old queue.old delegate.new queue.new result }
{
    if queue.knows(&entry.oid) {
        return Err(Error::Cycle { oid: entry.oid });
    }
    queue.push(entry.oid)?;
    delegate.pop_path_component();
    delegate.push_back_tracked_path_component(&entry.filename)?;
    Ok(())
}

/// Shows an entry of the tree whose turn it is.
fn show<V: Visit>(queue: &mut Queue, delegate: &mut V, entry: &EntryRef<'_>) -> Result<(), Error>
    ensures { ShowsEntry V.steps (entry_of entry.now) delegate.old queue.old delegate.new queue.new result }
{
    delegate.push_path_component(&entry.filename)?;
    match see(delegate, entry)? {
        ControlFlow::Break(()) => return Err(Error::Cancelled),
        ControlFlow::Continue(into) => {
            if into && entry.mode.is_tree() {
                enqueue(queue, delegate, entry)?;
            }
        }
    }
    delegate.pop_path_component();
    Ok(())
}

/// Shows all entries of the tree whose turn it is.
fn show_all<V: Visit>(
    queue: &mut Queue,
    delegate: &mut V,
    mut entries: TreeRefIter<'_>,
) -> Result<(), Error>
    ensures { ShowsTree V.steps (items_left entries.entry) delegate.old queue.old delegate.new queue.new result }
{
    while let Some(entry) = entries.next() {
        show(queue, delegate, &entry?)?;
    }
    Ok(())
}

/// Shows each entry of a tree, and then the entries of each tree at which the delegate answered `Continue(true)`, tree after
/// tree, in the order of these answers. A tree is looked up when it is next.
///
/// Calls on the delegate:
/// - at each entry: `push_path_component` with its name, the visit, and, unless the walk ends there, `pop_path_component`;
/// - then, for a tree to go into: `push_back_tracked_path_component` with the name, and `pop_path_component`;
/// - when that tree is next, before it is looked up: `pop_front_tracked_path_and_set_current`.
///
/// `root` is what was read of the root. Its id isn't known here, so a tree that has the root's id is entered like any other,
/// and `Cycle` comes only where it holds itself again. The walk takes memory by the allocator of `state`; the first argument
/// isn't used, and is there so that both walks are called alike.
///
/// # Errors
/// - `Find`: a tree that is next can't be looked up.
/// - `Cancelled`: the delegate answered `Break`.
/// - `ObjectDecode`: after the entries that were shown, the bytes of the root, or of a tree that was looked up, are no entry.
/// - `Cycle`: the delegate answered `Continue(true)` at a tree, and a tree above the entry has the same id.
/// - `Memory`: memory ran out, in the walk, in a look-up or in the delegate.
///
/// After an error the delegate is as the calls up to there left it, and gets no further call. `state` can be used again.
///
/// # Examples
///
/// ```rust
/// use gix_parts::hash::ObjectId;
/// use gix_parts::object::find::Find;
/// use gix_traverse::tree::breadthfirst::{Error, State, breadthfirst};
/// use gix_traverse::tree::recorder::{Entry, Recorder};
/// use std::alloc::Global;
///
/// /// The entries of a tree and of the trees in it, by levels, with their paths.
/// pub fn listed<F: Find>(alloc: Global, store: &F, root: &ObjectId) -> Result<Vec<Entry>, Error> {
///     let mut bytes = Vec::new(alloc);
///     let entries = store.find_tree_iter(root, &mut bytes)?;
///     let mut state = State::new(alloc);
///     let mut recorder = Recorder::new(alloc);
///     breadthfirst(alloc, entries, &mut state, store, &mut recorder)?;
///     Ok(recorder.records)
/// }
/// ```
pub fn breadthfirst<F: Find + Drop, V: Visit>(
    _alloc: Global,
    root: TreeRefIter<'_>,
    state: &mut State,
    objects: F,
    delegate: &mut V,
) -> Result<(), Error>
    ensures { BreadthFirst (F.objects objects) (F.faulty objects) V.steps (items_left root.entry) delegate.old delegate.new result }
{
    state.queue.clear();
    show_all(&mut state.queue, delegate, root)?;
    while let Some(oid) = state.queue.pop() {
        delegate.pop_front_tracked_path_and_set_current();
        objects.find_kind_into(&oid, Kind::Tree, &mut state.tree)?;
        let entries = TreeRefIter::from_bytes(&state.tree, oid.kind());
        show_all(&mut state.queue, delegate, entries)?;
    }
    Ok(())
}
