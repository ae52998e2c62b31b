//! Trees to walk, their walks, and a delegate that writes its calls down.
#![tactic(auto)]

pub mod calls;
pub mod recorded;

use bstr::BStr;
use gix_parts::hash::{Keys, ObjectId};
use gix_parts::object::Kind;
use gix_parts::object::find::Find;
use gix_parts::object::memory::MemoryStore;
use gix_parts::object::tree::EntryRef;
use gix_traverse::tree::Recorder;
use gix_traverse::tree::breadthfirst::{self, Error, breadthfirst};
use gix_traverse::tree::depthfirst::{State, depthfirst};
use gix_traverse::tree::recorder::{Entry, Location};
use gix_traverse::tree::visit::{Action, Visit};
use std::alloc::{AllocError, Global};
use std::ops::ControlFlow;
use test_rows::history::{BY_STORE, By, Failing, ROOM, id};
use test_rows::table;
use test_rows::words::{Stop, write_broken, write_id, write_not_found};

/// The entries of the sample's root: a file `a`, a tree `d`, and a file `e`.
pub const ROOT: [(&str, u8); 3] = [("100644 a", 1), ("40000 d", 13), ("100644 e", 3)];

/// The entries of the tree `d` in it, which has the id of digit 13: a file `x`.
pub const D: [(&str, u8); 1] = [("100644 x", 2)];

/// A tree: the digit of its id, and its entries, each as what comes before the NUL and as the digit of its id.
pub type Tree<'a> = (u8, &'a [(&'a str, u8)]);

/// The sample: its root has the id of digit 10.
pub const SAMPLE: [Tree<'static>; 2] = [(10, &ROOT), (13, &D)];

/// The bytes of a tree of these entries.
pub fn tree_bytes(alloc: Global, entries: &[(&str, u8)]) -> Result<Vec<u8>, AllocError> {
    let mut bytes = Vec::new(alloc);
    for (entry, digit) in entries {
        bytes.extend_from_slice(entry.as_bytes())?;
        bytes.push(0)?;
        bytes.extend_from_slice(id(*digit).as_bytes())?;
    }
    Ok(bytes)
}

/// A store of these trees.
pub fn store(alloc: Global, trees: &[Tree<'_>]) -> Result<MemoryStore<'static>, AllocError> {
    let mut store = MemoryStore::new(alloc, Keys::KNOWN);
    for (digit, entries) in trees {
        let bytes = tree_bytes(alloc, entries)?;
        store.insert(id(*digit), Kind::Tree, &bytes)?;
    }
    Ok(store)
}

/// A delegate that writes its calls down, each as a word, with the name that it is given in brackets. A line begins where a name
/// is put behind the path, and where a tree is turned to. It answers `Continue(true)`, but at the entry of one name.
#[derive(Drop)]
pub struct Scripted<'a> {
    calls: String,
    at: &'a str,
    answer: Action,
}

impl<'a> Scripted<'a> {
    /// It answers this at the entry of this name. The memory for its words is taken here.
    pub fn new(alloc: Global, at: &'a str, answer: Action) -> Result<Scripted<'a>, AllocError> {
        Ok(Scripted {
            calls: String::with_capacity(alloc, ROOM)?,
            at,
            answer,
        })
    }

    /// The calls so far.
    pub fn calls(&self) -> &str {
        self.calls.as_str()
    }

    fn write_with(&mut self, word: &str, name: &BStr<'_>) -> Result<(), AllocError> {
        write!(self.calls, "{word}({name})")
    }

    fn answer(&self, entry: &EntryRef<'_>) -> Action {
        if entry.filename.as_bytes() == self.at.as_bytes() {
            self.answer
        } else {
            ControlFlow::Continue(true)
        }
    }
}

impl Visit for Scripted<'_> {
    // Nothing is promised of it.
    ghost steps = { λ _ _ _. Unit {0} };

    fn pop_back_tracked_path_and_set_current(&mut self) {
        let _ = self.calls.push_str("\npop_back");
    }

    fn pop_front_tracked_path_and_set_current(&mut self) {
        let _ = self.calls.push_str("\npop_front");
    }

    fn pop_path_component(&mut self) {
        let _ = self.calls.push_str(" pop_path");
    }

    fn push_back_tracked_path_component(&mut self, component: &BStr<'_>) -> Result<(), AllocError> {
        self.write_with(" push_back", component)
    }

    fn push_path_component(&mut self, component: &BStr<'_>) -> Result<(), AllocError> {
        self.write_with("\npush_path", component)
    }

    fn visit_tree(&mut self, entry: &EntryRef<'_>) -> Result<Action, AllocError> {
        self.write_with(" tree", &entry.filename)?;
        Ok(self.answer(entry))
    }

    fn visit_nontree(&mut self, entry: &EntryRef<'_>) -> Result<Action, AllocError> {
        self.write_with(" nontree", &entry.filename)?;
        Ok(self.answer(entry))
    }
}

/// The order of a walk: all entries of a tree before those of the trees in it, or each tree right behind its entry.
#[derive(Clone, Copy, Debug)]
pub enum Order {
    Levels,
    Depth,
}

/// What is written of a walk.
#[derive(Clone, Copy)]
pub enum Teller<'a> {
    /// The calls on a delegate that answers this at the entry of this name.
    Calls(&'a str, Action),
    /// The paths in a recorder that tracks this, each behind a space.
    Paths(Option<Location>),
}

/// What a recorder tells that tracks whole paths.
pub const PATHS: Teller<'static> = Teller::Paths(Some(Location::Path));

/// A walk of the tree of digit 10, and what is written of it. Its last word says how the walk ended: `done`, or why not all was shown.
pub type Case<'a> = (Order, Teller<'a>, &'a str);

/// Walks over one store.
#[derive(Clone, Copy)]
pub struct Table<'a> {
    pub trees: &'a [Tree<'a>],
    /// What is stored for the tree of digit 10 is of this kind, and cut to this many bytes.
    pub root: (Kind, Option<usize>),
    /// The object of this digit is a blob, if that of any is.
    pub blob: Option<u8>,
    /// The store fails at this tree, if at any.
    pub fails: Option<u8>,
    pub cases: &'a [Case<'a>],
}

/// Walks of the sample.
pub const OF_SAMPLE: Table<'static> = Table {
    trees: &SAMPLE,
    root: (Kind::Tree, None),
    blob: None,
    fails: None,
    cases: &[],
};

/// Walks the tree of this id.
pub fn walk<F: Find + Drop, V: Visit>(
    alloc: Global,
    order: Order,
    store: &F,
    root: ObjectId,
    delegate: &mut V,
) -> Result<(), Error> {
    match order {
        Order::Levels => levels(alloc, store, root, delegate),
        Order::Depth => {
            let mut state = State::new(alloc);
            depthfirst(alloc, root, &mut state, store, delegate)
        }
    }
}

/// The root is looked up here, since a walk by levels is given its entries.
fn levels<F: Find + Drop, V: Visit>(
    alloc: Global,
    store: &F,
    root: ObjectId,
    delegate: &mut V,
) -> Result<(), Error> {
    let mut bytes = Vec::new(alloc);
    let entries = store.find_tree_iter(&root, &mut bytes)?;
    let mut state = breadthfirst::State::new(alloc);
    breadthfirst(alloc, entries, &mut state, store, delegate)
}

/// Writes the word for what a walk answered. Out of memory stays out of memory.
pub fn write_end(told: &mut String, answer: Result<(), Error>) -> Result<(), AllocError> {
    match answer {
        Ok(()) => told.push_str("done"),
        Err(Error::Find(error)) => write_not_found(told, &error),
        Err(Error::Cancelled) => told.push_str("cancelled"),
        Err(Error::ObjectDecode(error)) => write_broken(told, &error),
        Err(Error::Cycle { oid }) => {
            told.push_str("cycle-")?;
            write_id(told, &oid)
        }
        Err(Error::Memory) => Err(AllocError),
    }
}

/// Writes the paths of the records, each behind a space.
pub fn write_paths(told: &mut String, records: &[Entry]) -> Result<(), AllocError> {
    for entry in records {
        write!(told, " {}", entry.filepath)?;
    }
    Ok(())
}

/// The paths in a fresh recorder that tracks this.
fn tell_paths<F: Find + Drop>(
    alloc: Global,
    order: Order,
    store: &F,
    location: Option<Location>,
    told: &mut String,
) -> Result<(), AllocError> {
    let mut recorder = Recorder::new(alloc).track_location(location);
    let answer = walk(alloc, order, store, id(10), &mut recorder);
    write_paths(told, &recorder.records)?;
    if answer != Err(Error::Memory) {
        told.push(' ')?;
    }
    write_end(told, answer)
}

/// The calls on a delegate that answers this at this name, and a last line that says how the walk ended.
fn tell_calls<F: Find + Drop>(
    alloc: Global,
    order: Order,
    store: &F,
    at: &str,
    action: Action,
    told: &mut String,
) -> Result<(), AllocError> {
    let mut delegate = Scripted::new(alloc, at, action)?;
    let answer = walk(alloc, order, store, id(10), &mut delegate);
    told.push_str(delegate.calls())?;
    if answer != Err(Error::Memory) {
        told.push('\n')?;
    }
    write_end(told, answer)
}

/// What is written of a walk over a store.
fn tell<F: Find + Drop>(
    alloc: Global,
    store: &F,
    case: &Case<'_>,
    told: &mut String,
) -> Result<(), AllocError> {
    let (order, teller, _) = *case;
    match teller {
        Teller::Calls(at, action) => tell_calls(alloc, order, store, at, action, told),
        Teller::Paths(location) => tell_paths(alloc, order, store, location, told),
    }
}

impl Table<'_> {
    fn store(&self, alloc: Global) -> Result<MemoryStore<'static>, AllocError> {
        let mut store = store(alloc, self.trees)?;
        for (digit, entries) in self.trees {
            if *digit == 10 {
                let (kind, len) = self.root;
                let mut bytes = tree_bytes(alloc, entries)?;
                if let Some(len) = len {
                    bytes.truncate(len);
                }
                store.insert(id(10), kind, &bytes)?;
            }
        }
        if let Some(digit) = self.blob {
            store.insert(id(digit), Kind::Blob, b"blob")?;
        }
        Ok(store)
    }
}

impl<'a> table::Table for Table<'a> {
    type Case = Case<'a>;

    fn rows(&self) -> (&[Case<'a>], &[By]) {
        (self.cases, BY_STORE)
    }

    fn want<'c>(case: &'c Case<'a>) -> &'c str {
        case.2
    }

    fn tell(&self, alloc: Global, _by: By, case: &Case<'a>, told: &mut String) -> Result<(), Stop> {
        told.reserve(ROOM)?;
        let store = self.store(alloc)?;
        let failing = Failing(&store, self.fails.map(id));
        Ok(tell(alloc, &failing, case, told)?)
    }
}
