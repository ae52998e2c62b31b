//! Each call that asks for memory, made once; where it is refused, what was there before is looked at.
use bstr::{BStr, BString};
use gix_parts::hash::Keys;
use gix_parts::hashtable::{IdMap, IdSet};
use gix_parts::object::Kind;
use gix_parts::object::commit::Token;
use gix_parts::object::find::{self, Find};
use gix_parts::object::memory::MemoryStore;
use gix_parts::object::tree::{EntryMode, EntryRef};
use gix_parts::queue::PriorityQueue;
use gix_traverse::commit::topo::Builder;
use gix_traverse::commit::{self, Either, Info, ParentIds};
use gix_traverse::tree::Recorder;
use gix_traverse::tree::depthfirst::State;
use gix_traverse::tree::recorder::Entry;
use gix_traverse::tree::visit::Visit;
use std::alloc::{AllocError, Global};
use test_rows::history::{By, EMPTY, FULL, History, PLAIN, ROOM, digit, id, ids};
use test_rows::words::{Stop, space, write_broken, write_not_found};
use test_topo_rows::{Telling, tell_walk};
use test_tree_rows::{D, ROOT, store};

/// A call that asks for memory.
#[derive(Clone, Copy, Debug)]
pub enum Call {
    CloneInfo,
    CloneEntry,
    PathClone,
    PushBuf,
    TryFind,
    FindCommitIter,
    FindTreeIter,
    Find,
    FindByRow,
    FindPacked,
    FindMissing,
    InsertQueue,
    InsertStore,
    InsertSet,
    InsertMap,
    Recorder,
    FromIters,
    WithTipsAndEnds,
}

/// Each call, and what is written of its answer.
pub static CALLS: [(Call, &str); 18] = [
    (Call::CloneInfo, "9 6 7 6"),
    (Call::CloneEntry, "100644 d/x 2"),
    (Call::PathClone, "d/x"),
    (Call::PushBuf, "0 true"),
    (Call::TryFind, "Commit 192"),
    (Call::FindCommitIter, "6 7"),
    (Call::FindTreeIter, "a d e"),
    (Call::Find, "4b825dc642cb6eb9a060e54bf8d69288fbee4904 8"),
    (
        Call::FindByRow,
        "row 4b825dc642cb6eb9a060e54bf8d69288fbee4904 8",
    ),
    (
        Call::FindPacked,
        "row 4b825dc642cb6eb9a060e54bf8d69288fbee4904 8",
    ),
    (Call::FindMissing, "missing-8"),
    (Call::InsertQueue, "8 7 6 5 4 3 2 1"),
    (Call::InsertStore, "7 8"),
    (Call::InsertSet, "8"),
    (Call::InsertMap, "8"),
    (Call::Recorder, " d/x/y d/x/y"),
    (Call::FromIters, "8 7 6 4 2"),
    (Call::WithTipsAndEnds, "8 7 6 4 2"),
];

impl Call {
    /// What is written of the call.
    pub fn tell(self, alloc: Global, told: &mut String) -> Result<(), Stop> {
        told.reserve(ROOM)?;
        match self {
            Call::CloneInfo => Ok(clone_info(alloc, told)?),
            Call::CloneEntry => Ok(clone_entry(alloc, told)?),
            Call::PathClone => Ok(path_clone(alloc, told)?),
            Call::PushBuf => Ok(push_buf(alloc, told)?),
            Call::TryFind => try_find(alloc, &PLAIN.store(alloc)?, told),
            Call::FindCommitIter => find_commit_iter(alloc, &PLAIN.store(alloc)?, told),
            Call::FindTreeIter => find_tree_iter(
                alloc,
                &store(alloc, &[(10, &ROOT), (13, &D)])?,
                told,
            ),
            Call::Find => find_commit(alloc, By::Store, &PLAIN, told),
            Call::FindByRow => find_commit(alloc, By::Rows, &EMPTY, told),
            Call::FindPacked => find_commit(alloc, By::Packed, &EMPTY, told),
            Call::FindMissing => find_commit(alloc, By::Store, &EMPTY, told),
            Call::InsertQueue => insert_queue(alloc, told),
            Call::InsertStore => insert_store(alloc, told),
            Call::InsertSet => insert_set(alloc, told),
            Call::InsertMap => insert_map(alloc, told),
            Call::Recorder => record(&mut Recorder::new(alloc), told),
            Call::FromIters => from_iters(alloc, &PLAIN.store(alloc)?, told),
            Call::WithTipsAndEnds => with_tips_and_ends(alloc, &PLAIN.store(alloc)?, told),
        }
    }
}

fn clone_info(alloc: Global, told: &mut String) -> Result<(), AllocError> {
    let info = Info {
        id: id(9),
        parent_ids: ParentIds::from_slice(alloc, ids(alloc, &[6, 7, 6])?.as_slice())?,
        generation: None,
        commit_time: None,
    };
    write_info(told, &info.clone()?)
}

fn write_info(told: &mut String, info: &Info) -> Result<(), AllocError> {
    write!(told, "{}", digit(&info.id))?;
    for parent in info.parent_ids.as_slice() {
        write!(told, " {}", digit(parent))?;
    }
    Ok(())
}

fn clone_entry(alloc: Global, told: &mut String) -> Result<(), AllocError> {
    let entry = Entry {
        mode: EntryMode { value: 0o100644 },
        filepath: BString::from_slice(alloc, b"d/x".as_slice())?,
        oid: id(2),
    };
    let same = entry.clone()?;
    if same != entry {
        told.push_str("unlike ")?;
    }
    write!(
        told,
        "{:o} {} {}",
        same.mode.value,
        same.filepath,
        digit(&same.oid)
    )
}

fn path_clone(alloc: Global, told: &mut String) -> Result<(), AllocError> {
    let mut recorder = Recorder::new(alloc);
    recorder.push_path_component(&BStr::new(b"d"))?;
    recorder.push_path_component(&BStr::new(b"x"))?;
    let path = recorder.path_clone()?;
    write!(told, "{path}")
}

/// A buffer that is put back is handed out again, empty, with its room.
fn push_buf(alloc: Global, told: &mut String) -> Result<(), AllocError> {
    let mut state = State::new(alloc);
    let mut buf = state.pop_buf();
    buf.extend_from_slice(b"100644 x")?;
    let capacity = buf.capacity();
    state.push_buf(buf)?;
    let again = state.pop_buf();
    write!(told, "{} {}", again.len(), again.capacity() == capacity)
}

fn try_find<F: Find>(alloc: Global, store: &F, told: &mut String) -> Result<(), Stop> {
    let mut buf = Vec::new(alloc);
    match store.try_find(&id(8), &mut buf) {
        Ok(Some(data)) => Ok(write!(told, "{:?} {}", data.kind, data.bytes.len())?),
        Err(find::Error::Memory) => Err(Stop::Memory),
        _ => Err(Stop::Row),
    }
}

fn find_commit_iter<F: Find>(alloc: Global, store: &F, told: &mut String) -> Result<(), Stop> {
    let mut buf = Vec::new(alloc);
    match store.find_commit_iter(&id(8), &mut buf) {
        Ok(items) => {
            for item in items {
                if let Ok(Token::Parent { id }) = item {
                    space(told)?;
                    write!(told, "{}", digit(&id))?;
                }
            }
            Ok(())
        }
        Err(error) => Ok(write_not_found(told, &error)?),
    }
}

fn find_tree_iter<F: Find>(alloc: Global, store: &F, told: &mut String) -> Result<(), Stop> {
    let mut buf = Vec::new(alloc);
    match store.find_tree_iter(&id(10), &mut buf) {
        Ok(entries) => {
            for entry in entries {
                if let Ok(entry) = entry {
                    space(told)?;
                    write!(told, "{}", entry.filename)?;
                }
            }
            Ok(())
        }
        Err(error) => Ok(write_not_found(told, &error)?),
    }
}

/// Looks commit 8 up, and tells its tree and its time.
fn find_commit(
    alloc: Global,
    by: By,
    history: &History<'_>,
    told: &mut String,
) -> Result<(), Stop> {
    let graph = by.graph(alloc, &FULL)?;
    let store = history.store(alloc)?;
    let mut buf = Vec::new(alloc);
    match commit::find(graph.as_ref(), &store, &id(8), &mut buf) {
        Ok(found) => Ok(write_found(told, found)?),
        Err(error) => Ok(write_not_found(told, &error)?),
    }
}

fn write_found(told: &mut String, found: Either<'_, '_>) -> Result<(), AllocError> {
    if let Either::CachedCommit(_) = found {
        told.push_str("row ")?;
    }
    match (found.tree_id(), found.commit_time()) {
        (Ok(tree), Ok(time)) => write!(told, "{tree} {time}"),
        (Err(error), _) => write_broken(told, &error),
        (_, Err(error)) => write_broken(told, &error),
    }
}

/// What a refused call comes to: out of memory where all is as before.
fn refused(as_before: bool) -> Stop {
    if as_before {
        Stop::Memory
    } else {
        Stop::Changed
    }
}

/// Whether a queue holds the keys below this one, each with itself for its value.
fn holds_below(queue: &mut PriorityQueue<u8, u8>, key: u8) -> bool {
    for below in (1..key).rev() {
        if queue.pop() != Some((below, below)) {
            return false;
        }
    }
    queue.is_empty()
}

fn insert_queue(alloc: Global, told: &mut String) -> Result<(), Stop> {
    let mut queue = PriorityQueue::new(alloc);
    for key in 1..9u8 {
        if queue.insert(key, key).is_err() {
            return Err(refused(holds_below(&mut queue, key)));
        }
    }
    for _ in 1..9u8 {
        let (key, _) = queue.pop().ok_or(Stop::Row)?;
        space(told)?;
        write!(told, "{key}")?;
    }
    Ok(())
}

/// The first byte of what is stored for an id.
fn stored(alloc: Global, store: &MemoryStore<'_>, n: u8) -> Result<Option<u8>, Stop> {
    let mut buf = Vec::new(alloc);
    match store.find_into(&id(n), &mut buf) {
        Ok(Some(_)) => Ok(buf.first().copied()),
        Ok(None) => Ok(None),
        Err(find::Error::Memory) => Err(Stop::Memory),
        Err(find::Error::Store) => Err(Stop::Row),
    }
}

/// Whether a store holds the objects below this one, each with its own digit.
fn stores_below(alloc: Global, store: &MemoryStore<'_>, n: u8) -> Result<bool, Stop> {
    for below in 1..9u8 {
        let want = if below < n { Some(below) } else { None };
        if stored(alloc, store, below)? != want {
            return Ok(false);
        }
    }
    Ok(true)
}

/// Stores eight objects, and another in place of the first.
fn insert_store(alloc: Global, told: &mut String) -> Result<(), Stop> {
    let mut store = MemoryStore::new(alloc, Keys::KNOWN);
    for n in 1..9u8 {
        if store.insert(id(n), Kind::Blob, &[n; 20]).is_err() {
            return Err(refused(stores_below(alloc, &store, n)?));
        }
    }
    if store.insert(id(1), Kind::Blob, &[7; 40]).is_err() {
        return Err(refused(stores_below(alloc, &store, 9)?));
    }
    let first = stored(alloc, &store, 1)?.ok_or(Stop::Row)?;
    Ok(write!(told, "{first} {}", store.len())?)
}

/// Whether a set holds the ids below this one.
fn contains_below(ids: &IdSet, n: u8) -> bool {
    for below in 1..9u8 {
        if ids.contains(&id(below)) != (below < n) {
            return false;
        }
    }
    true
}

fn insert_set(alloc: Global, told: &mut String) -> Result<(), Stop> {
    let mut ids = IdSet::new(alloc, Keys::KNOWN);
    for n in 1..9u8 {
        if ids.insert(id(n)).is_err() {
            return Err(refused(contains_below(&ids, n)));
        }
    }
    Ok(write!(told, "{}", ids.len())?)
}

/// Whether a map holds the ids below this one, each with its own digit.
fn maps_below(digits: &IdMap<u8>, n: u8) -> bool {
    for below in 1..9u8 {
        let want = if below < n { Some(below) } else { None };
        if digits.get(&id(below)).copied() != want {
            return false;
        }
    }
    true
}

fn insert_map(alloc: Global, told: &mut String) -> Result<(), Stop> {
    let mut digits = IdMap::new(alloc, Keys::KNOWN);
    for n in 1..9u8 {
        if digits.insert(id(n), n).is_err() {
            return Err(refused(maps_below(&digits, n)));
        }
    }
    Ok(write!(told, "{}", digits.len())?)
}

/// A call on a recorder.
#[derive(Clone, Copy)]
enum Step {
    Push(&'static [u8]),
    Queue(&'static [u8]),
    Tree,
    File,
}

/// What a recorder holds: the current path, the path that was queued last, and how many records.
type Held = (&'static [u8], &'static [u8], usize);

/// Calls on a recorder, each with what the recorder holds before it.
const STEPS: [(Step, Held); 5] = [
    (Step::Push(b"d"), (b"", b"", 0)),
    (Step::Queue(b"x"), (b"d", b"", 0)),
    (Step::Queue(b"y"), (b"d/x", b"d/x", 0)),
    (Step::Tree, (b"d/x/y", b"d/x/y", 0)),
    (Step::File, (b"d/x/y", b"d/x/y", 1)),
];

impl Step {
    fn call(self, recorder: &mut Recorder) -> Result<(), AllocError> {
        let entry = EntryRef {
            mode: EntryMode { value: 0o40000 },
            filename: BStr::new(b"y"),
            oid: id(1),
        };
        match self {
            Step::Push(name) => recorder.push_path_component(&BStr::new(name))?,
            Step::Queue(name) => recorder.push_back_tracked_path_component(&BStr::new(name))?,
            Step::Tree => {
                recorder.visit_tree(&entry)?;
            }
            Step::File => {
                recorder.visit_nontree(&entry)?;
            }
        }
        Ok(())
    }
}

/// Whether a recorder holds this. The path that was queued last is taken out.
fn holds(recorder: &mut Recorder, held: Held) -> bool {
    let (path, queued, records) = held;
    let same = recorder.path().as_bytes() == path && recorder.records.len() == records;
    recorder.pop_back_tracked_path_and_set_current();
    same && recorder.path().as_bytes() == queued
}

fn record(recorder: &mut Recorder, told: &mut String) -> Result<(), Stop> {
    for (step, held) in STEPS {
        if step.call(recorder).is_err() {
            return Err(refused(holds(recorder, held)));
        }
    }
    for entry in recorder.records.iter() {
        write!(told, " {}", entry.filepath)?;
    }
    Ok(())
}

fn from_iters<F: Find + Drop>(alloc: Global, find: F, told: &mut String) -> Result<(), Stop> {
    let walk = Builder::from_iters(alloc, find, [id(8)], Some([id(5)]))?.build()?;
    tell_walk(walk, Telling::Short, told)
}

fn with_tips_and_ends<F: Find + Drop>(
    alloc: Global,
    find: F,
    told: &mut String,
) -> Result<(), Stop> {
    let walk = Builder::new(alloc, find)
        .with_tips([id(8)])?
        .with_ends([id(5)])?
        .build()?;
    tell_walk(walk, Telling::Short, told)
}
