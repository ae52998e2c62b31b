//! Sets and maps of ids. No other module knows which container holds them.
ghost use Rattle.std.specs.Prelude.{◌≡◌, ◌↔◌, IsTrue, length, false, not, None, is_some, IfOk, OnOk, OnErr, OnSome, IfSome, IfNone};
ghost use Rattle.std.specs.Option.{option_copied};
ghost use Rattle.std.specs.FinSet as set;
ghost use Rattle.std.specs.FinMap as map;
ghost use Rattle.gix_hash.specs.Id.{is_among};
ghost use Rattle.gix_hash.specs.Changes.{Changes};
ghost use Rattle.std.specs.Fn.{FnOnceReturnsAtMut};

use crate::{Keys, ObjectId};
use std::alloc::{AllocError, Global};
use std::collections::HashMap;
use std::hash::{Hash, Hasher};
use std::marker::Model;
use std::mem;

/// The bytes of an id as a key. A table's keys are of one length each, so that the many ids of 20 bytes don't take the room of 32.
#[derive(Clone, Copy, PartialEq, Eq)]
struct Bytes<const N: usize>([u8; N]);

/// The bytes are written at once, as [`Keys`] wants.
impl<const N: usize> Hash for Bytes<N> {
    ghost use Rattle.std.specs.Prelude.{◌∷◌, []};
    ghost use Rattle.std.specs.Cmp.Rules.{hashing};
    ghost use Rattle.std.proofs.Common.{rules};

    ghost hash_input = { λ b. b.0 ∷ [] };

    ghost respects_eq = { Prim.search (hashing, rules) };

    #[inline(always)]
    fn hash<H: Hasher>(&self, state: &mut H) {
        state.write(&self.0);
    }
}

/// A set of ids.
#[derive(Drop)]
pub struct IdSet {
    ids: IdMap<()>,
}

impl Model for IdSet {
    ghost use Rattle.std.specs.FinSet as set;
    ghost use Rattle.gix_hash.specs.Id.{id_cmp, id_code};
    ghost use Rattle.gix_hash.specs.Tables.{ids_with_value};

    ghost Value = { set.FinSet id_cmp };

    ghost coded = { set.code id_code };

    ghost view = { λ s. ids_with_value s.ids };
}

impl IdSet {
    /// The empty set with these keys. It takes no memory until an id is put in.
    #[tactic(auto, using(crate::proofs::Ids::Sets::none))]
    pub fn new(alloc: Global, keys: Keys) -> IdSet
        ensures { result ≡ set.empty }
    {
        IdSet {
            ids: IdMap::new(alloc, keys),
        }
    }

    /// The keys of the set, for further tables of a run.
    pub fn keys(&self) -> Keys {
        self.ids.keys()
    }

    /// Whether the set has the id.
    #[tactic(auto, using(crate::proofs::Ids::Sets::has))]
    pub fn contains(&self, id: &ObjectId) -> bool
        ensures { result ≡ set.contains self.now id.now }
    {
        self.ids.get(id).is_some()
    }

    /// Puts an id in, and says whether it is new. Only a new id takes memory.
    ///
    /// # Errors
    ///
    /// `AllocError` when out of memory. The set is as it was, without the id.
    #[tactic(auto, using(crate::proofs::Ids::Sets::has, crate::proofs::Ids::Sets::inserted))]
    pub fn insert(&mut self, id: ObjectId) -> Result<bool, AllocError>
        ensures added { IfOk result (λ added. added ≡ not (set.contains self.old id)) }
        ensures ok { OnOk result (self.new ≡ set.insert self.old id) }
        ensures err { OnErr result (self.new ≡ self.old) }
        ensures absent { OnErr result (set.contains self.old id ≡ false) }
    {
        Ok(self.ids.insert(id, ())?.is_none())
    }

    /// Takes an id out, and says whether it was in the set. For an empty set the id isn't hashed.
    #[tactic(auto, using(crate::proofs::Ids::Sets::removals))]
    #[inline(always)]
    pub fn remove(&mut self, id: &ObjectId) -> bool
        ensures removed { result ≡ set.contains self.old id.now }
        ensures set { self.new ≡ set.remove self.old id.now }
    {
        !self.is_empty() && self.ids.remove(id).is_some()
    }

    /// How many ids the set has.
    #[tactic(auto, using(crate::proofs::Ids::Sets::counted))]
    pub fn len(&self) -> usize
        ensures { result ≡ set.len self.now }
    {
        self.ids.len()
    }

    /// Whether the set has no id.
    pub fn is_empty(&self) -> bool
        ensures { IsTrue result ↔ (set.len self.now ≡ 0) }
    {
        self.len() == 0
    }

    /// Takes every id out.
    #[tactic(auto, using(crate::proofs::Ids::Sets::none))]
    pub fn clear(&mut self)
        ensures { self.new ≡ set.empty }
    {
        self.ids.clear();
    }
}

/// A map from ids to values.
#[derive(Drop)]
pub struct IdMap<T> {
    short: HashMap<Bytes<20>, T, Keys>,
    long: HashMap<Bytes<32>, T, Keys>,
}

impl<T> Model for IdMap<T> {
    ghost use Rattle.std.specs.FinMap as map;
    ghost use Rattle.gix_hash.specs.Id.{id_cmp, id_code};
    ghost use Rattle.gix_hash.specs.Tables.{map_of};

    ghost Value = { map.FinMap id_cmp T };

    ghost coded = { map.code id_code T.code };

    ghost view = { λ m. map_of m.short.entries m.long.entries };
}

impl<T> IdMap<T> {
    /// The empty map with these keys. It takes no memory until a value is put in.
    pub fn new(alloc: Global, keys: Keys) -> IdMap<T>
        ensures { result ≡ map.empty }
    {
        IdMap {
            short: HashMap::with_hasher(alloc, keys),
            long: HashMap::with_hasher(alloc, keys),
        }
    }

    /// The empty map with these keys, which has room for so many values of ids of 20 bytes where there is memory for that. It grows as any
    /// other.
    pub fn with_room(alloc: Global, keys: Keys, room: usize) -> IdMap<T>
        ensures { result ≡ map.empty }
    {
        match HashMap::with_capacity_and_hasher(alloc, room, keys) {
            Ok(short) => IdMap {
                short,
                long: HashMap::with_hasher(alloc, keys),
            },
            Err(_) => IdMap::new(alloc, keys),
        }
    }

    /// The keys of the map, for further tables of a run.
    pub fn keys(&self) -> Keys {
        *self.short.hasher()
    }

    /// The value of an id, and None where it has none. For an empty map the id isn't hashed.
    #[tactic(auto, using(crate::proofs::Ids::Tables::nothing_in_none))]
    #[inline(always)]
    pub fn get(&self, id: &ObjectId) -> Option<&T>
        ensures { option_copied result ≡ map.get self.now id.now }
    {
        if self.is_empty() {
            return None;
        }
        self.look_up(id)
    }

    /// A call of its own, so that the test for none is inlined.
    #[tactic(auto, using(crate::proofs::Ids::Tables::in_short, crate::proofs::Ids::Tables::in_long))]
    fn look_up(&self, id: &ObjectId) -> Option<&T>
        ensures { option_copied result ≡ map.get self.now id.now }
    {
        match id {
            ObjectId::Sha1(bytes) => self.short.get(&Bytes(*bytes)),
            ObjectId::Sha256(bytes) => self.long.get(&Bytes(*bytes)),
        }
    }

    /// Gives an id a value, and returns the value that it had. Only a new id takes memory.
    ///
    /// # Errors
    ///
    /// `AllocError` when out of memory. The map is as it was, the id has no value, and the value that was handed in is dropped.
    #[tactic(auto, using(crate::proofs::Ids::Tables::in_short, crate::proofs::Ids::Tables::in_long))]
    pub fn insert(&mut self, id: ObjectId, value: T) -> Result<Option<T>, AllocError>
    where
        T: Drop,
        ensures old { IfOk result (λ old. old ≡ map.get self.old id) }
        ensures ok { OnOk result (self.new ≡ map.insert self.old id value) }
        ensures err { OnErr result (self.new ≡ self.old) }
        ensures absent { OnErr result (map.get self.old id ≡ None) }
    {
        match id {
            ObjectId::Sha1(bytes) => Ok(self.short.insert(Bytes(bytes), value)?),
            ObjectId::Sha256(bytes) => Ok(self.long.insert(Bytes(bytes), value)?),
        }
    }

    /// Replaces the value of an id that has one, and returns the old value. Where the id has no value, the answer is None and the
    /// map stays. No memory is taken.
    pub fn replace(&mut self, id: &ObjectId, value: T) -> Option<T>
    where
        T: Drop,
        ensures old { result ≡ map.get self.old id.now }
        ensures some { OnSome result (self.new ≡ map.insert self.old id.now value) }
        ensures none { IfNone result (self.new ≡ self.old) }
    {
        self.change(id, |place| mem::replace(place, value))
    }

    /// Changes the value of an id that has one, and returns what the change returns. Where the id has no value, the answer is None and the map
    /// stays. The id is looked up once, and no memory is taken.
    #[tactic(auto, using(crate::proofs::Ids::Tables::in_short, crate::proofs::Ids::Tables::in_long))]
    #[inline(always)]
    pub fn change<R, C: FnOnce(&mut T) -> R>(&mut self, id: &ObjectId, change: C) -> Option<R>
    where
        requires { C.IsAlwaysCallable change }
        ensures found { is_some result ≡ is_some (map.get self.old id.now) }
        ensures some { IfSome result (λ r. Changes (λ old new. FnOnceReturnsAtMut C.FnOnce change old r new) self.old id.now self.new) }
        ensures none { IfNone result (self.new ≡ self.old) }
    {
        match id {
            ObjectId::Sha1(bytes) => Some(change(self.short.get_mut(&Bytes(*bytes))?)),
            ObjectId::Sha256(bytes) => Some(change(self.long.get_mut(&Bytes(*bytes))?)),
        }
    }

    /// Takes the value of an id out and returns it. None where the id has none.
    #[tactic(auto, using(crate::proofs::Ids::Tables::in_short, crate::proofs::Ids::Tables::in_long))]
    pub fn remove(&mut self, id: &ObjectId) -> Option<T>
        ensures value { result ≡ map.get self.old id.now }
        ensures map { self.new ≡ map.remove self.old id.now }
    {
        match id {
            ObjectId::Sha1(bytes) => self.short.remove(&Bytes(*bytes)),
            ObjectId::Sha256(bytes) => self.long.remove(&Bytes(*bytes)),
        }
    }

    /// The ids that have a value, each once, in no order that means anything.
    ///
    /// # Errors
    ///
    /// `AllocError` when out of memory.
    pub fn ids(&self, alloc: Global) -> Result<Vec<ObjectId>, AllocError>
        ensures all { IfOk result (λ ids. (i : ObjectId) → is_among i ids.items ≡ is_some (map.get self.now i)) }
        // As many as there are, so each comes once.
        ensures once { IfOk result (λ ids. length ids.items ≡ map.len self.now) }
    {
        let mut ids = Vec::with_capacity(alloc, self.len())?;
        for bytes in self.short.keys() {
            ids.push(ObjectId::Sha1(bytes.0))?;
        }
        for bytes in self.long.keys() {
            ids.push(ObjectId::Sha256(bytes.0))?;
        }
        Ok(ids)
    }

    /// How many ids have a value.
    #[tactic(auto, using(crate::proofs::Ids::Tables::counted_both))]
    pub fn len(&self) -> usize
        ensures { result ≡ map.len self.now }
    {
        self.short.len() + self.long.len()
    }

    /// Whether no id has a value.
    pub fn is_empty(&self) -> bool
        ensures { IsTrue result ↔ (map.len self.now ≡ 0) }
    {
        self.len() == 0
    }

    /// Takes every value out.
    pub fn clear(&mut self)
    where
        T: Drop,
        ensures { self.new ≡ map.empty }
    {
        self.short.clear();
        self.long.clear();
    }
}
