//! Objects that are read, and those that wait.
ghost use Rattle.std.specs.Prelude.{◌≡◌, ◌↔◌, None, IsTrue, IfOk, IfSome};
ghost use Rattle.std.specs.Bool.{OnTrue, OnFalse};
ghost use Rattle.std.specs.FinMap as map;
ghost use Rattle.gix_names.specs.Named.{IsNamed};
ghost use Rattle.gix_records.specs.NamedRecords.{AreNamed};
ghost use Rattle.gix_records.specs.NamedPart.{IsWithin};

use crate::Fault;
use crate::waiting::{Order, Waiting};
use gix_commitgraph::Graph;
use gix_hash::hashtable::IdSet;
use gix_hash::{Keys, ObjectId};
use gix_names::is_named;
use gix_object::Kind;
use gix_object::commit::{CommitRefIter, Token};
use gix_object::memory::MemoryStore;
use gix_object::tree::TreeRefIter;
use gix_odb::Odb;
use gix_records::NamedObjects;
use std::alloc::{AllocError, Global};
use std::fs::Files;
use std::marker::Model;
use std::os::unix::fs::FileExt;

/// How many copies of an object are read at the most.
const MOST_COPIES: usize = 64;

/// The objects that some ids lead to, as far as they were read. Each is under the id that it has. More can be read at any time, and what was
/// read stays.
pub struct Gathering {
    objects: NamedObjects,
    /// The ids that no file has.
    absent: IdSet,
    /// The id that is being read.
    reading: Option<ObjectId>,
    waiting: Waiting,
    /// The kind of the objects that lead further.
    through: Kind,
    border: IdSet,
    /// The bytes of the object that is read.
    object: Vec<u8>,
}

impl Drop for Gathering {
    fn drop(self) {
        let Gathering {
            objects: _,
            absent: _,
            reading: _,
            waiting: _,
            through: _,
            border: _,
            object: _,
        } = self;
    }
}

impl Model for Gathering {
    ghost use Rattle.std.specs.FinMap as map;
    ghost use Rattle.gix_hash.specs.Id.{id_code};
    ghost use Rattle.gix_object.specs.Object.{Objects, object_code};
    ghost use Rattle.gix_records.specs.NamedRecords.{AreNamed};

    ghost Value = { Objects };

    ghost coded = { map.code id_code object_code };

    ghost view = { λ s. s.objects };

    ghost invariant = { λ s. AreNamed s.objects };
}

impl Gathering {
    /// The commits that these ids reach by the parents that commits name, none of which is read yet. They are read in this order. The
    /// parents of a commit of the border aren't read by way of it: a clone that ends there has none of them. All tables have the keys of
    /// the border's.
    ///
    /// # Errors
    ///
    /// `AllocError` when out of memory.
    pub fn commits(
        alloc: Global,
        ids: &[ObjectId],
        order: Order,
        border: IdSet,
    ) -> Result<Gathering, AllocError>
        ensures empty { IfOk result (λ gathering. gathering ≡ map.empty) }
    {
        let mut waiting = Waiting::new(alloc, order);
        for id in ids {
            waiting.push_first(*id)?;
        }
        Ok(Gathering::of(alloc, waiting, Kind::Commit, border))
    }

    /// A tree and all trees in it, none of which is read yet. They are read in the order in which they are met.
    ///
    /// # Errors
    ///
    /// `AllocError` when out of memory.
    pub fn trees(alloc: Global, keys: Keys, root: &ObjectId) -> Result<Gathering, AllocError>
        ensures empty { IfOk result (λ gathering. gathering ≡ map.empty) }
    {
        let mut waiting = Waiting::new(alloc, Order::Met);
        waiting.push_first(*root)?;
        Ok(Gathering::of(alloc, waiting, Kind::Tree, IdSet::new(alloc, keys)))
    }

    /// Objects of which none is read yet.
    fn of(alloc: Global, waiting: Waiting, through: Kind, border: IdSet) -> Gathering
        ensures { result ≡ map.empty }
    {
        let keys = border.keys();
        Gathering {
            objects: NamedObjects::new(alloc, keys),
            absent: IdSet::new(alloc, keys),
            reading: None,
            waiting,
            through,
            border,
            object: Vec::new(alloc),
        }
    }

    /// Reads so many objects more, or all that are left where these are fewer. Whether all has been read. An id of another object than is
    /// gathered is read too, and leads no further. Of a commit or tree that isn't well-formed what it names before the fault counts. An id
    /// that no file has is passed over. So is an id that has a row of the graph, which is the same at each call: the row says its parents,
    /// and nothing is read by way of it.
    ///
    /// # Errors
    ///
    /// The first [`Fault`] that is met. What was read until then stays, and the next call begins with the id of the fault.
    pub fn read_more<R>(
        &mut self,
        odb: &mut Odb<R>,
        graph: Option<&Graph>,
        count: usize,
    ) -> Result<bool, Fault>
    where
        R: Files + AllocGlobal + Clone + Drop,
        R::File: FileExt,
        ensures { IsWithin self.old self.new }
    {
        let mut left = count;
        for _ in 0..u64::MAX {
            if left == 0 {
                return Ok(self.is_all_read());
            }
            let Some(id) = self.next()? else {
                return Ok(true);
            };
            if self.read_new(odb, graph, id)? {
                left -= 1;
            }
        }
        Ok(false)
    }

    /// Reads these commits or other objects, even if they have a row. Whether one was read that wasn't before. What they name isn't read.
    ///
    /// # Errors
    ///
    /// The first [`Fault`] that is met. What was read until then stays.
    pub fn read_these<R>(&mut self, odb: &mut Odb<R>, ids: &[ObjectId]) -> Result<bool, Fault>
    where
        R: Files + AllocGlobal + Clone + Drop,
        R::File: FileExt,
        ensures within { IsWithin self.old self.new }
        ensures none { IfOk result (λ is_new. OnFalse is_new (self.new ≡ self.old)) }
    {
        let mut is_new = false;
        for id in ids {
            if self.read_this(odb, *id)? {
                is_new = true;
            }
        }
        Ok(is_new)
    }

    /// Reads an object, unless it is known. Whether it was read.
    fn read_this<R>(&mut self, odb: &mut Odb<R>, id: ObjectId) -> Result<bool, Fault>
    where
        R: Files + AllocGlobal + Clone + Drop,
        R::File: FileExt,
        ensures within { IsWithin self.old self.new }
        ensures none { IfOk result (λ is_new. OnFalse is_new (self.new ≡ self.old)) }
    {
        if self.is_known(&id) {
            return Ok(false);
        }
        self.read_alone(odb, id)
    }

    /// Reads the object of an id that isn't known, and nothing by way of it. Whether there is such an object.
    fn read_alone<R>(&mut self, odb: &mut Odb<R>, id: ObjectId) -> Result<bool, Fault>
    where
        R: Files + AllocGlobal + Clone + Drop,
        R::File: FileExt,
        requires { map.get self.old id ≡ None }
        ensures within { IsWithin self.old self.new }
        ensures none { IfOk result (λ is_new. OnFalse is_new (self.new ≡ self.old)) }
    {
        let Some(kind) = read_named(odb, &id, &mut self.object)? else {
            self.absent.insert(id)?;
            return Ok(false);
        };
        let bytes = self.object.as_slice();
        self.objects.insert(id, kind, bytes)?;
        Ok(true)
    }

    /// The id that is read next.
    fn next(&mut self) -> Result<Option<ObjectId>, AllocError>
        ensures { self.new ≡ self.old }
    {
        if self.reading.is_none() {
            self.reading = self.waiting.pop()?;
        }
        Ok(self.reading)
    }

    /// Reads the object of an id, unless nothing is to be read. Whether an object was read.
    fn read_new<R>(
        &mut self,
        odb: &mut Odb<R>,
        graph: Option<&Graph>,
        id: ObjectId,
    ) -> Result<bool, Fault>
    where
        R: Files + AllocGlobal + Clone + Drop,
        R::File: FileExt,
        ensures { IsWithin self.old self.new }
    {
        if has_row(graph, &id) || self.is_known(&id) {
            self.reading = None;
            return Ok(false);
        }
        self.read(odb, id)
    }

    /// Reads the object of an id that isn't known, and adds the ids that it names. Whether there is such an object.
    fn read<R>(&mut self, odb: &mut Odb<R>, id: ObjectId) -> Result<bool, Fault>
    where
        R: Files + AllocGlobal + Clone + Drop,
        R::File: FileExt,
        requires { map.get self.old id ≡ None }
        ensures { IsWithin self.old self.new }
    {
        let Some(kind) = read_named(odb, &id, &mut self.object)? else {
            self.absent.insert(id)?;
            self.reading = None;
            return Ok(false);
        };
        let bytes = self.object.as_slice();
        if kind == self.through && !self.border.contains(&id) {
            add_named(&mut self.waiting, kind, &id, bytes)?;
        }
        self.objects.insert(id, kind, bytes)?;
        self.reading = None;
        Ok(true)
    }

    /// Whether an id was asked for: it was read, or no file has it.
    fn is_known(&self, id: &ObjectId) -> bool
        ensures { OnFalse result (map.get self.now id.now ≡ None) }
    {
        self.objects.contains(id) || !self.absent.is_empty() && self.absent.contains(id)
    }

    /// Whether all has been read.
    pub fn is_all_read(&self) -> bool {
        self.reading.is_none() && self.waiting.is_empty()
    }

    /// Whether an id that isn't among the objects may still be read: not all has been read, and no file was found to lack it. Where a
    /// command finds that such an object is missing, more has to be read.
    pub fn waits(&self, id: &ObjectId) -> bool
        ensures { OnTrue result (map.get self.now id.now ≡ None) }
    {
        !self.is_all_read() && !self.is_known(id)
    }

    /// How many objects have been read.
    pub fn len(&self) -> usize
        ensures { result ≡ map.len self.now }
    {
        self.objects.len()
    }

    /// Whether no object has been read.
    pub fn is_empty(&self) -> bool
        ensures { IsTrue result ↔ (map.len self.now ≡ 0) }
    {
        self.len() == 0
    }

    /// The store of the objects that have been read.
    pub fn store(&self) -> &MemoryStore<'static>
        ensures exact { result.now ≡ self.now }
        ensures named { AreNamed self.now }
    {
        self.objects.store()
    }

    /// The objects that have been read, lent.
    pub fn objects(&self) -> &NamedObjects
        ensures exact { result.now ≡ self.now }
        ensures named { AreNamed self.now }
    {
        &self.objects
    }

    /// The objects that have been read.
    pub fn into_objects(self) -> NamedObjects
        ensures exact { result ≡ self }
        ensures named { AreNamed result }
    {
        let Gathering {
            objects,
            absent: _,
            reading: _,
            waiting: _,
            through: _,
            border: _,
            object: _,
        } = self;
        objects
    }
}

/// Whether an id has a row.
fn has_row(graph: Option<&Graph>, id: &ObjectId) -> bool {
    match graph {
        Some(graph) => graph.commit_by_id(id).is_some(),
        None => false,
    }
}

/// Puts the bytes of the object of an id into `object`, from the first copy that is the object of this id. None where there is no copy.
/// 64 copies are read at the most.
///
/// # Errors
///
/// `Name` where no copy that could be read is the object of the id, `Files` where none could be read, `Memory`. `object` may hold anything
/// then, and after None.
pub fn read_named<R>(
    odb: &mut Odb<R>,
    id: &ObjectId,
    object: &mut Vec<u8>,
) -> Result<Option<Kind>, Fault>
where
    R: Files + AllocGlobal + Clone + Drop,
    R::File: FileExt,
    ensures { IfOk result (λ found. IfSome found (λ kind. IsNamed id.now kind object.new.items)) }
{
    for copy in 0..MOST_COPIES {
        let Some(kind) = odb.read_copy(id, copy, object)? else {
            return if copy == 0 {
                Ok(None)
            } else {
                Err(Fault::Name(*id))
            };
        };
        if is_named(id, kind, object.as_slice()) {
            return Ok(Some(kind));
        }
    }
    Err(Fault::Name(*id))
}

/// Adds the ids that a commit or a tree names: those of parents, or of trees.
fn add_named(
    waiting: &mut Waiting,
    kind: Kind,
    id: &ObjectId,
    bytes: &[u8],
) -> Result<(), AllocError> {
    match kind {
        Kind::Commit => add_parents(waiting, CommitRefIter::from_bytes(bytes, id.kind())),
        Kind::Tree => add_trees(waiting, TreeRefIter::from_bytes(bytes, id.kind())),
        _ => Ok(()),
    }
}

/// Adds the parents of a commit.
fn add_parents(waiting: &mut Waiting, items: CommitRefIter<'_>) -> Result<(), AllocError> {
    let mut seconds = 0;
    waiting.begin();
    if waiting.is_by_time() {
        if let Ok(committer) = items.committer() {
            seconds = committer.seconds();
        }
    }
    for item in items {
        match item {
            Ok(Token::Tree { .. }) => {}
            Ok(Token::Parent { id }) => waiting.push(seconds, id)?,
            _ => break,
        }
    }
    Ok(())
}

/// Adds the trees in a tree.
fn add_trees(waiting: &mut Waiting, entries: TreeRefIter<'_>) -> Result<(), AllocError> {
    for entry in entries {
        let Ok(entry) = entry else {
            break;
        };
        if entry.mode.is_tree() {
            waiting.push(0, entry.oid)?;
        }
    }
    Ok(())
}
