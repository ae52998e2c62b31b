//! A store that is held in memory.
ghost use Rattle.std.specs.Prelude.{◌≡◌, ◌↔◌, ◌++◌, IsTrue, length, is_some, IfOk, OnOk, OnErr};
ghost use Rattle.std.specs.Option.{option_map};
ghost use Rattle.std.specs.Cow.{cow_slice_items};
ghost use Rattle.std.specs.FinMap as map;
ghost use Rattle.gix_hash.specs.Id.{is_among};
ghost use Rattle.gix_object.specs.Find.{lent_object};
ghost use Rattle.gix_object.specs.MemoryStore.{objects_at, AreWithin};

use crate::find::{Error, Find};
use crate::{Data, Kind};
use gix_hash::hashtable::IdMap;
use gix_hash::{Keys, ObjectId};
use std::alloc::{AllocError, Global};
use std::borrow::CowSlice;
use std::marker::Model;

/// An object whose bytes are in a buffer, from `start` up to `end`.
#[derive(Clone, Copy)]
pub struct Stored {
    /// What the bytes are.
    pub kind: Kind,
    /// The place of the first byte, as a number of bytes from the front of the buffer.
    pub start: usize,
    /// The place after the last byte: no less than `start`, and at most the length of the buffer.
    pub end: usize,
}

/// Puts bytes behind those of a buffer. A borrowed one is copied first, and stays borrowed where there is no memory.
fn extend(
    alloc: Global,
    buffer: &mut CowSlice<'_, u8, Global>,
    more: &[u8],
) -> Result<(), AllocError>
    ensures ok { OnOk result (cow_slice_items buffer.new ≡ cow_slice_items buffer.old ++ more.now) }
    ensures err { OnErr result (cow_slice_items buffer.new ≡ cow_slice_items buffer.old) }
{
    match buffer {
        CowSlice::Owned(bytes) => bytes.extend_from_slice(more),
        CowSlice::Borrowed(lent) => {
            let mut bytes = Vec::new(alloc);
            bytes.extend_from_slice(lent)?;
            bytes.extend_from_slice(more)?;
            *buffer = CowSlice::Owned(bytes);
            Ok(())
        }
    }
}

/// Objects held in memory, with the bytes of all in one buffer, which the store owns or borrows. No object is copied until one is looked
/// up. Each look-up succeeds unless memory runs out.
///
/// A store with one commit:
///
/// ```rust
/// pub fn store_of_one(
///     alloc: Global,
///     keys: Keys,
///     id: ObjectId,
/// ) -> Result<MemoryStore<'static>, AllocError> {
///     let mut store = MemoryStore::new(alloc, keys);
///     let commit = b"tree 4b825dc642cb6eb9a060e54bf8d69288fbee4904
/// author A <a@b> 100 +0000
/// committer A <a@b> 200 +0000
///
/// The first commit
/// ";
///     store.insert(id, Kind::Commit, commit)?;
///     Ok(store)
/// }
/// ```
pub struct MemoryStore<'a> {
    objects: IdMap<Stored>,
    bytes: CowSlice<'a, u8, Global>,
    alloc: Global,
}

impl<'a> Drop for MemoryStore<'a> {
    fn drop(self) {
        let MemoryStore {
            objects: _,
            bytes: _,
            alloc: _,
        } = self;
    }
}

impl<'a> Model for MemoryStore<'a> {
    ghost use Rattle.std.specs.Prelude.{length};
    ghost use Rattle.std.specs.Cow.{cow_slice_items};
    ghost use Rattle.std.specs.FinMap as map;
    ghost use Rattle.gix_hash.specs.Id.{id_cmp, id_code};
    ghost use Rattle.gix_object.specs.Object.{Objects, object_code};
    ghost use Rattle.gix_object.specs.MemoryStore.{objects_at, AreWithin};

    ghost Value = { Objects };

    ghost coded = { map.code id_code object_code };

    ghost view = { λ s. objects_at (cow_slice_items s.bytes) s.objects };

    ghost invariant = { λ s. AreWithin s.objects (length (cow_slice_items s.bytes)) };
}

impl<'a> MemoryStore<'a> {
    /// A store without objects, whose table of ids has these keys. It takes no memory until one is put in.
    pub fn new(alloc: Global, keys: Keys) -> MemoryStore<'a>
        ensures { result ≡ map.empty }
    {
        MemoryStore {
            objects: IdMap::new(alloc, keys),
            bytes: CowSlice::Owned(Vec::new(alloc)),
            alloc,
        }
    }

    /// A store of the objects that are at these places of a buffer. Each place must be within the buffer. No byte is copied.
    pub fn over(
        alloc: Global,
        bytes: CowSlice<'a, u8, Global>,
        objects: IdMap<Stored>,
    ) -> MemoryStore<'a>
        requires { AreWithin objects (length (cow_slice_items bytes)) }
        ensures { result ≡ objects_at (cow_slice_items bytes.entry) objects }
    {
        MemoryStore {
            objects,
            bytes,
            alloc,
        }
    }

    /// Keeps a copy of an object, in place of what the id had. The bytes of an object that is replaced keep their room until
    /// the store is dropped. A borrowed buffer is copied first.
    ///
    /// # Errors
    /// `AllocError` when out of memory. The store has the objects that it had.
    pub fn insert(&mut self, id: ObjectId, kind: Kind, bytes: &[u8]) -> Result<(), AllocError>
        ensures ok { OnOk result (self.new ≡ map.insert self.old id (record { kind = kind; bytes = bytes.now })) }
        ensures err { OnErr result (self.new ≡ self.old) }
    {
        let start = self.bytes.len();
        extend(self.alloc, &mut self.bytes, bytes)?;
        let end = self.bytes.len();
        self.objects.insert(id, Stored { kind, start, end })?;
        Ok(())
    }

    /// Looks an object up, and lends its bytes. Takes no memory.
    #[inline(always)]
    pub fn get(&self, id: &ObjectId) -> Option<Data<'_>>
        ensures { option_map lent_object result ≡ map.get self.now id.now }
    {
        let Some(stored) = self.objects.get(id) else {
            return None;
        };
        let bytes = self.bytes.as_slice();
        Some(Data {
            kind: stored.kind,
            bytes: &bytes[stored.start..stored.end],
        })
    }

    /// Whether there is an object of this id.
    pub fn contains(&self, id: &ObjectId) -> bool
        ensures { result ≡ is_some (map.get self.now id.now) }
    {
        self.objects.get(id).is_some()
    }

    /// The ids of the objects, each once, in no order that means anything.
    ///
    /// # Errors
    /// `AllocError` when out of memory.
    pub fn ids(&self, alloc: Global) -> Result<Vec<ObjectId>, AllocError>
        ensures all { IfOk result (λ ids. (i : ObjectId) → is_among i ids.items ≡ is_some (map.get self.now i)) }
        // As many as there are, so each comes once.
        ensures once { IfOk result (λ ids. length ids.items ≡ map.len self.now) }
    {
        self.objects.ids(alloc)
    }

    /// How many objects there are.
    pub fn len(&self) -> usize
        ensures { result ≡ map.len self.now }
    {
        self.objects.len()
    }

    /// Whether there is no object.
    pub fn is_empty(&self) -> bool
        ensures { IsTrue result ↔ (map.len self.now ≡ 0) }
    {
        self.len() == 0
    }
}

impl Find for MemoryStore<'_> {
    ghost objects = { λ s. s };

    ghost faulty = { λ _ _. ⊥ };

    #[inline(always)]
    fn find_into(&self, id: &ObjectId, buf: &mut Vec<u8>) -> Result<Option<Kind>, Error> {
        let Some(found) = self.get(id) else {
            return Ok(None);
        };
        buf.clear();
        match buf.extend_from_slice(found.bytes) {
            Ok(()) => Ok(Some(found.kind)),
            Err(_) => Err(Error::Memory),
        }
    }

    fn keys(&self) -> Keys {
        self.objects.keys()
    }
}
