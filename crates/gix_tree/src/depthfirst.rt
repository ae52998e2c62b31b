//! A walk of trees in depth: the entries of a tree come right after the tree's own entry.
ghost use Rattle.std.specs.Prelude.{◌≡◌, ◌≤◌, ◌-◌, ◌∷◌, ◌++◌, [], OnOk, OnErr, take, reverse, length};
ghost use Rattle.gix_hash.specs.Id.{is_among};
ghost use Rattle.gix_object.specs.TreeRefIter.{entry_of};
ghost use Rattle.gix_tree.specs.Inside.ShowsBelow.{Descends, ShowsBelow, ShowsUpTo};
ghost use Rattle.gix_tree.specs.Inside.Stack.{FoundTree, IsWithin, ids_down, items_at};
ghost use Rattle.gix_tree.specs.Walk.{DepthFirst};

pub use crate::breadthfirst::Error;
use crate::visit::{Visit, see};
use bstr::BStr;
use gix_hash::ObjectId;
use gix_object::Kind;
use gix_object::find::{Find, existing_iter};
use gix_object::tree::{EntryRef, TreeRefIter};
use std::alloc::{AllocError, Global};
use std::marker::Model;
use std::mem;
use std::ops::ControlFlow;

/// The buffers for the bytes of trees. A later walk can use them again, whatever the earlier walk answered. They change no
/// answer.
#[derive(Drop)]
pub struct State {
    free: Vec<Vec<u8>>,
    alloc: Global,
}

impl Model for State {
    ghost use Rattle.std.specs.Prelude.{ℕ, List, map};

    ghost Value = { List (List ℕ) };

    ghost view = { λ s. map (λ buf. buf.items) s.free.items };
}

impl State {
    /// No buffers. It takes no memory until a walk does.
    pub fn new(alloc: Global) -> State
        ensures { result ≡ [] }
    {
        State {
            free: Vec::new(alloc),
            alloc,
        }
    }

    /// An empty buffer: the one that was put back last, or a new one where there is none. Takes no memory.
    pub fn pop_buf(&mut self) -> Vec<u8>
        ensures empty { result.items ≡ [] }
        ensures rest { self.new ≡ take (length self.old - 1) self.old }
    {
        match self.free.pop() {
            Some(mut buf) => {
                buf.clear();
                buf
            }
            None => Vec::new(self.alloc),
        }
    }

    /// Puts a buffer back.
    ///
    /// # Errors
    /// `AllocError` where memory runs out. The buffer is then dropped, and the state is as before.
    pub fn push_buf(&mut self, buf: Vec<u8>) -> Result<(), AllocError>
        ensures ok { OnOk result (self.new ≡ self.old ++ buf.items ∷ []) }
        ensures err { OnErr result (self.new ≡ self.old) }
    {
        self.free.push(buf)?;
        Ok(())
    }
}

/// A tree that the walk is in: its id, its bytes, and where in them the next entry begins.
#[derive(Drop)]
struct Tree {
    oid: ObjectId,
    bytes: Vec<u8>,
    next: usize,
}

/// Where a walk leaves a tree.
#[derive(Clone, Copy)]
enum Stop {
    /// At its end.
    End,
    /// Behind an entry that was answered `Break`.
    Broken,
    /// Behind an entry whose tree, of this id, the walk enters next.
    Into(ObjectId),
}

fn look_up<F: Find>(
    objects: &F,
    oid: ObjectId,
    state: &mut State,
) -> Result<Tree, existing_iter::Error>
    ensures { FoundTree (F.objects objects.now) (F.faulty objects.now) oid result }
{
    let mut bytes = state.pop_buf();
    objects.find_kind_into(&oid, Kind::Tree, &mut bytes)?;
    Ok(Tree {
        oid,
        bytes,
        next: 0,
    })
}

/// Whether the id is that of the tree or of one above it.
fn knows(tree: &ObjectId, above: &[Tree], oid: &ObjectId) -> bool
    ensures { result ≡ is_among oid.now (tree.now ∷ ids_down (reverse above.now)) }
{
    for upper in above {
        if *oid == upper.oid {
            return true;
        }
    }
    *oid == *tree
}

/// Makes ready to enter the entry's tree.
fn descend<V: Visit>(
    tree: &ObjectId,
    above: &mut Vec<Tree>,
    delegate: &mut V,
    entry: &EntryRef<'_>,
) -> Result<(), Error>
    ensures descends { Descends V.steps (tree.now ∷ ids_down (reverse above.old.items)) (entry_of entry.now) delegate.old delegate.new
        result }
    ensures same { above.new.items ≡ above.old.items }
{
    if knows(tree, above, &entry.oid) {
        return Err(Error::Cycle { oid: entry.oid });
    }
    // Room for the tree that is left behind. It is taken before the two calls below: where it is refused, the walk ends before
    // them. So `keep`, which comes behind them and the look-up, finds the room and can't fail.
    above.reserve(1)?;
    delegate.push_back_tracked_path_component(&BStr::new(b""))?;
    delegate.push_back_tracked_path_component(&entry.filename)?;
    Ok(())
}

/// Shows an entry of the tree. None says that the walk goes on behind the entry.
fn show<V: Visit>(
    tree: &ObjectId,
    above: &mut Vec<Tree>,
    delegate: &mut V,
    entry: &EntryRef<'_>,
) -> Result<Option<Stop>, Error>
    ensures shows { ShowsBelow V.steps (tree.now ∷ ids_down (reverse above.old.items)) (entry_of entry.now) delegate.old delegate.new
        result }
    ensures same { above.new.items ≡ above.old.items }
{
    delegate.push_path_component(&entry.filename)?;
    let answer = see(delegate, entry)?;
    let is_tree = entry.mode.is_tree();
    let ControlFlow::Continue(into) = answer else {
        if is_tree {
            delegate.pop_path_component();
        }
        return Ok(Some(Stop::Broken));
    };
    delegate.pop_path_component();
    if !into || !is_tree {
        return Ok(None);
    }
    descend(tree, above, delegate, entry)?;
    Ok(Some(Stop::Into(entry.oid)))
}

/// Shows the entries of the tree from the next one on, up to where the walk leaves the tree.
fn show_on<V: Visit>(
    tree: &mut Tree,
    above: &mut Vec<Tree>,
    delegate: &mut V,
) -> Result<Stop, Error>
    requires { IsWithin tree.old }
    ensures shows { ShowsUpTo V.steps (tree.old.oid ∷ ids_down (reverse above.old.items)) (items_at tree.old) delegate.old delegate.new
        result (items_at tree.new) }
    ensures same { above.new.items ≡ above.old.items }
    ensures oid { tree.new.oid ≡ tree.old.oid }
    ensures within { IsWithin tree.new }
{
    let oid = tree.oid;
    let mut entries = TreeRefIter::from_bytes(&tree.bytes[tree.next..], oid.kind());
    while let Some(entry) = entries.next() {
        let stop = show(&oid, above, delegate, &entry?)?;
        if let Some(stop) = stop {
            tree.next = entries.offset_to_next_entry(&tree.bytes);
            return Ok(stop);
        }
    }
    Ok(Stop::End)
}

/// The tree becomes the nearest of the trees above. `descend` has taken the room for it.
fn keep(above: &mut Vec<Tree>, tree: Tree) -> Result<(), AllocError>
    ensures { OnOk result (above.new.items ≡ above.old.items ++ tree ∷ []) }
{
    above.push(tree)?;
    Ok(())
}

/// Looks a tree up by its id and shows each of its entries. After an entry at which the delegate answered `Continue(true)`,
/// the entry's tree is looked up and shown in the same way. A `Break` ends the walk, and the answer is `Ok`.
///
/// Calls on the delegate:
/// - before the first entry of a tree, and again where the walk comes back to a tree: `pop_back_tracked_path_and_set_current`;
/// - at each entry: `push_path_component` with its name, the visit, and `pop_path_component`, which is left out where an entry
///   that is no tree was answered `Break`;
/// - then, for a tree to go into: `push_back_tracked_path_component` with an empty name, to come back by, and once more with
///   the entry's name.
///
/// # Errors
/// - `Find`: the root, or a tree at which the delegate answered `Continue(true)`, can't be looked up. The delegate got no call
///   where it is the root.
/// - `ObjectDecode`: after the entries that were shown, a tree's bytes are no entry.
/// - `Cycle`: the delegate answered `Continue(true)` at a tree, and a tree above the entry, maybe the root, has the same id.
/// - `Memory`: memory ran out, in the walk, in a look-up or in the delegate.
///
/// `Cancelled` never comes. After an error the delegate is as the calls up to there left it, and gets no further call. `state`
/// can be used again.
///
/// # Examples
///
/// ```rust
/// use gix_parts::hash::ObjectId;
/// use gix_parts::object::find::Find;
/// use gix_traverse::tree::depthfirst::{Error, State, depthfirst};
/// use gix_traverse::tree::recorder::{Entry, Recorder};
/// use std::alloc::Global;
///
/// /// The entries of a tree and of the trees in it, each tree right behind its entry, with their paths.
/// pub fn listed<F: Find>(alloc: Global, store: &F, root: ObjectId) -> Result<Vec<Entry>, Error> {
///     let mut state = State::new(alloc);
///     let mut recorder = Recorder::new(alloc);
///     depthfirst(alloc, root, &mut state, store, &mut recorder)?;
///     Ok(recorder.records)
/// }
/// ```
pub fn depthfirst<F: Find + Drop, V: Visit>(
    alloc: Global,
    root: ObjectId,
    state: &mut State,
    objects: F,
    delegate: &mut V,
) -> Result<(), Error>
    ensures { DepthFirst (F.objects objects) (F.faulty objects) V.steps root delegate.old delegate.new result }
{
    let mut above: Vec<Tree> = Vec::new(alloc);
    let mut tree = look_up(&objects, root, state)?;
    delegate.pop_back_tracked_path_and_set_current();
    'walk: loop {
        match show_on(&mut tree, &mut above, delegate)? {
            Stop::Broken => break 'walk,
            Stop::Into(oid) => {
                let below = look_up(&objects, oid, state)?;
                keep(&mut above, mem::replace(&mut tree, below))?;
            }
            Stop::End => {
                let Some(upper) = above.pop() else {
                    break 'walk;
                };
                let shown = mem::replace(&mut tree, upper);
                let _ = state.push_buf(shown.bytes);
            }
        }
        delegate.pop_back_tracked_path_and_set_current();
    }
    let _ = state.push_buf(tree.bytes);
    Ok(())
}
