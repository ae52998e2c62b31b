//! A delegate that records each entry that a walk shows.
ghost use Rattle.std.specs.Prelude.{◌≡◌, ◌↔◌, IsTrue, IfOk, OnOk, OnErr};
ghost use Rattle.bstr.specs.BStr.{bstr_bytes};
ghost use Rattle.bstr.specs.Owned.{bstring_bytes};
ghost use Rattle.gix_tree.specs.Recorder.{with_name, without_name};
ghost use Rattle.gix_object.specs.TreeRefIter.{entry_of};
ghost use Rattle.gix_tree.specs.Tracked.{fresh_recorder, queued_with, record_of_entry, recorded_with};

use crate::visit::{Action, Visit};
use bstr::{BStr, BString};
use gix_hash::ObjectId;
use gix_object::tree::{EntryMode, EntryRef};
use std::alloc::{AllocError, Global};
use std::collections::VecDeque;
use std::marker::Model;
use std::ops::ControlFlow;

/// What a recorder tracks of an entry's place.
#[derive(Clone, Copy, Debug, PartialEq, Eq)]
pub enum Location {
    /// The names from the root down to the entry, joined by `/`.
    Path,
    /// The entry's name alone.
    FileName,
}

/// An entry, as it was recorded.
#[derive(Debug, Drop)]
pub struct Entry {
    /// The kind of file and its permissions.
    pub mode: EntryMode,
    /// The entry's path from the root, its name alone, or nothing, as the recorder tracked it.
    pub filepath: BString,
    /// The id of the entry's blob, tree or commit.
    pub oid: ObjectId,
}

impl Entry {
    /// An equal value.
    ///
    /// # Errors
    /// `AllocError` when out of memory. This value is as it was.
    pub fn clone(&self) -> Result<Entry, AllocError>
        ensures { IfOk result (λ e. record_of_entry e ≡ record_of_entry self.now) }
    {
        let alloc = *self.filepath.allocator();
        let filepath = BString::from_slice(alloc, self.filepath.as_bytes())?;
        Ok(Entry {
            mode: self.mode,
            filepath,
            oid: self.oid,
        })
    }
}

impl PartialEq for Entry {
    ghost use Rattle.std.specs.Cmp.{partial_equiv_from_equiv, on_per};
    ghost use Rattle.gix_tree.specs.Recorder.{is_same_record, is_same_record-equivalence};

    ghost eq = { λ a b. is_same_record (record_of_entry a) (record_of_entry b) };

    ghost laws = { on_per record_of_entry (partial_equiv_from_equiv is_same_record-equivalence) };

    /// Whether the modes, the bytes of the paths and the ids are the same.
    fn eq(&self, other: &Entry) -> bool
        ensures eq { result ≡ is_same_record (record_of_entry self.now) (record_of_entry other.now) }
        ensures same { IsTrue result ↔ (record_of_entry self.now ≡ record_of_entry other.now) }
    {
        self.mode == other.mode
            && self.filepath.as_bytes() == other.filepath.as_bytes()
            && self.oid == other.oid
    }
}

impl Eq for Entry {
    ghost use Rattle.std.specs.Cmp.{on_equiv};
    ghost use Rattle.gix_tree.specs.Recorder.{is_same_record-equivalence};

    ghost laws = { on_equiv record_of_entry is_same_record-equivalence };
}

/// Puts the name behind the path, with a `/` between them where the path isn't empty. An empty name adds nothing. Where memory
/// runs out, the path is as before.
fn add(path: &mut Vec<u8>, name: &[u8]) -> Result<(), AllocError>
    ensures ok { OnOk result (path.new.items ≡ with_name path.old.items name.now) }
    ensures err { OnErr result (path.new.items ≡ path.old.items) }
{
    if name.is_empty() {
        return Ok(());
    }
    let len = path.len();
    if len > 0 {
        path.push(b'/')?;
    }
    match path.extend_from_slice(name) {
        Ok(()) => Ok(()),
        Err(e) => {
            path.truncate(len);
            Err(e)
        }
    }
}

/// Cuts the path before its last `/`, or leaves it empty where it has none.
fn cut(path: &mut Vec<u8>)
    ensures { path.new.items ≡ without_name path.old.items }
{
    let mut len = path.len();
    while len > 0 {
        len -= 1;
        if path[len] == b'/' {
            break;
        }
    }
    path.truncate(len);
}

/// Records each entry that a walk shows, with its path, and goes into each tree.
///
/// It keeps the current path, and a queue of the paths of trees that the walk has yet to enter. A recorder that has followed a walk can
/// follow another, and then keeps the earlier records; `depthfirst` begins with an empty path where the queue is empty, and
/// `breadthfirst` goes on below the last path.
///
/// # Errors
/// A call that takes memory answers `AllocError` where memory runs out, and the walk then ends with `Memory`. The path, the
/// queue and the records are as they were before that call.
///
/// # Examples
///
/// ```rust
/// use gix_parts::hash::ObjectId;
/// use gix_parts::object::find::Find;
/// use gix_traverse::tree::depthfirst::{Error, State, depthfirst};
/// use gix_traverse::tree::recorder::{Entry, Location, Recorder};
/// use std::alloc::Global;
///
/// /// The names alone of the entries of a tree and of the trees in it.
/// pub fn names<F: Find>(alloc: Global, store: &F, root: ObjectId) -> Result<Vec<Entry>, Error> {
///     let mut recorder = Recorder::new(alloc).track_location(Some(Location::FileName));
///     depthfirst(alloc, root, &mut State::new(alloc), store, &mut recorder)?;
///     Ok(recorder.records)
/// }
/// ```
#[derive(Debug, Drop)]
pub struct Recorder {
    path: Vec<u8>,
    queue: VecDeque<Vec<u8>>,
    location: Option<Location>,
    /// The entries that were shown, in the order in which they were shown.
    pub records: Vec<Entry>,
    alloc: Global,
}

impl Model for Recorder {
    ghost use Rattle.std.specs.Prelude.{map};
    ghost use Rattle.gix_tree.specs.Tracked.{Tracked, record_of_entry, tracked};

    ghost Value = { Tracked };

    ghost view = { λ r. tracked r.location r.path.items (map (λ p. p.items) r.queue.items) (map record_of_entry r.records.items) };
}

impl Recorder {
    /// A recorder without records that tracks paths. Its path and its queue are empty. Takes no memory until a walk does.
    pub fn new(alloc: Global) -> Recorder
        ensures { result ≡ fresh_recorder }
    {
        Recorder {
            path: Vec::new(alloc),
            queue: VecDeque::new(alloc),
            location: Some(Location::Path),
            records: Vec::new(alloc),
            alloc,
        }
    }

    /// Tracks paths from now on, or names alone, or nothing. The path, the queue and the records stay. Takes no memory.
    pub fn track_location(mut self, location: Option<Location>) -> Recorder
        ensures { result ≡ record self { location = location } }
    {
        self.location = location;
        self
    }

    /// A copy of the current path.
    ///
    /// # Errors
    /// `AllocError` when out of memory. The recorder is as it was.
    pub fn path_clone(&self) -> Result<BString, AllocError>
        ensures { IfOk result (λ path. bstring_bytes path ≡ self.now.held.path) }
    {
        Ok(BString::new(self.path.to_vec(self.alloc)?))
    }

    /// The current path. Takes no memory.
    pub fn path(&self) -> BStr<'_>
        ensures { bstr_bytes result ≡ self.now.held.path }
    {
        BStr::new(&self.path)
    }

    /// Puts the name behind the path, and queues the path.
    fn queue_with(&mut self, name: &[u8]) -> Result<(), AllocError>
        ensures ok { OnOk result (self.new ≡ queued_with name.now self.old) }
        ensures err { OnErr result (self.new ≡ self.old) }
    {
        let mut path = self.path.to_vec(self.alloc)?;
        add(&mut path, name)?;
        let kept = path.to_vec(self.alloc)?;
        self.queue.push_back(kept)?;
        self.path = path;
        Ok(())
    }

    /// Records the entry with the current path.
    fn record(&mut self, entry: &EntryRef<'_>) -> Result<(), AllocError>
        ensures ok { OnOk result (self.new ≡ recorded_with (entry_of entry.now) self.old) }
        ensures err { OnErr result (self.new ≡ self.old) }
    {
        let filepath = self.path_clone()?;
        self.records.push(Entry {
            mode: entry.mode,
            filepath,
            oid: entry.oid,
        })?;
        Ok(())
    }
}

impl Visit for Recorder {
    ghost use Rattle.gix_tree.specs.Tracked.{Tracks};

    ghost steps = { Tracks };

    fn pop_back_tracked_path_and_set_current(&mut self) {
        if let Some(Location::Path) = self.location {
            match self.queue.pop_back() {
                Some(path) => self.path = path,
                None => self.path.clear(),
            }
        }
    }

    fn pop_front_tracked_path_and_set_current(&mut self) {
        if let Some(Location::Path) = self.location {
            match self.queue.pop_front() {
                Some(path) => self.path = path,
                None => self.path.clear(),
            }
        }
    }

    fn pop_path_component(&mut self) {
        if let Some(Location::Path) = self.location {
            cut(&mut self.path);
        }
    }

    fn push_back_tracked_path_component(&mut self, component: &BStr<'_>) -> Result<(), AllocError> {
        match self.location {
            Some(Location::Path) => self.queue_with(component.as_bytes()),
            Some(Location::FileName) | None => Ok(()),
        }
    }

    fn push_path_component(&mut self, component: &BStr<'_>) -> Result<(), AllocError> {
        match self.location {
            Some(Location::Path) => add(&mut self.path, component.as_bytes()),
            Some(Location::FileName) => {
                self.path = component.as_bytes().to_vec(self.alloc)?;
                Ok(())
            }
            None => Ok(()),
        }
    }

    fn visit_tree(&mut self, entry: &EntryRef<'_>) -> Result<Action, AllocError> {
        self.record(entry)?;
        Ok(ControlFlow::Continue(true))
    }

    fn visit_nontree(&mut self, entry: &EntryRef<'_>) -> Result<Action, AllocError> {
        self.record(entry)?;
        Ok(ControlFlow::Continue(true))
    }
}
