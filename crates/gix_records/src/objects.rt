//! Objects that were compared with their ids.
ghost use Rattle.std.specs.Prelude.{◌≡◌, ◌↔◌, IsTrue, is_some, OnOk, OnErr};
ghost use Rattle.std.specs.FinMap as map;
ghost use Rattle.gix_names.specs.Named.{IsNamed};
ghost use Rattle.gix_records.specs.NamedRecords.{AreNamed};

use gix_hash::{Keys, ObjectId};
use gix_object::Kind;
use gix_object::memory::MemoryStore;
use std::alloc::{AllocError, Global};
use std::marker::Model;

/// Objects held in memory, each under the id that it has: the hash of its kind, its length and its bytes, by SHA-1 for ids of 20 bytes and
/// by SHA-256 for ids of 32. No object is put in under another id, so no reader of the store has to compare it again.
pub struct NamedObjects {
    store: MemoryStore<'static>,
}

impl Drop for NamedObjects {
    fn drop(self) {
        let NamedObjects { store: _ } = self;
    }
}

impl Model for NamedObjects {
    ghost use Rattle.std.specs.FinMap as map;
    ghost use Rattle.gix_hash.specs.Id.{id_code};
    ghost use Rattle.gix_object.specs.Object.{Objects, object_code};
    ghost use Rattle.gix_records.specs.NamedRecords.{AreNamed};

    ghost Value = { Objects };

    ghost coded = { map.code id_code object_code };

    ghost view = { λ s. s.store };

    ghost invariant = { λ s. AreNamed s.store };
}

impl NamedObjects {
    /// No objects, in a table with these keys. It takes no memory until one is put in.
    pub fn new(alloc: Global, keys: Keys) -> NamedObjects
        ensures empty { result ≡ map.empty }
        ensures named { AreNamed result }
    {
        NamedObjects {
            store: MemoryStore::new(alloc, keys),
        }
    }

    /// Keeps a copy of an object under its id, in place of what the id had. The caller has compared them, as
    /// [`is_named`](gix_names::is_named) does.
    ///
    /// # Errors
    /// `AllocError` when out of memory. There are the objects that there were.
    pub fn insert(&mut self, id: ObjectId, kind: Kind, bytes: &[u8]) -> Result<(), AllocError>
        requires { IsNamed id kind bytes.now }
        ensures ok { OnOk result (self.new ≡ map.insert self.old id (record { kind = kind; bytes = bytes.now })) }
        ensures err { OnErr result (self.new ≡ self.old) }
        ensures named { AreNamed self.new }
    {
        self.store.insert(id, kind, bytes)
    }

    /// Whether there is an object of this id.
    pub fn contains(&self, id: &ObjectId) -> bool
        ensures { result ≡ is_some (map.get self.now id.now) }
    {
        self.store.contains(id)
    }

    /// How many objects there are.
    pub fn len(&self) -> usize
        ensures { result ≡ map.len self.now }
    {
        self.store.len()
    }

    /// Whether there is no object.
    pub fn is_empty(&self) -> bool
        ensures { IsTrue result ↔ (map.len self.now ≡ 0) }
    {
        self.store.is_empty()
    }

    /// The store of these objects.
    pub fn store(&self) -> &MemoryStore<'static>
        ensures exact { result.now ≡ self.now }
        ensures named { AreNamed self.now }
    {
        &self.store
    }
}
