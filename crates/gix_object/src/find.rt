//! Look-ups of objects by their ids.
ghost use Rattle.std.specs.FinMap as map;
ghost use Rattle.gix_hash.specs.declared.ObjectId.{ObjectId};
ghost use Rattle.gix_object.specs.Object.{Objects};
ghost use Rattle.gix_object.specs.Find.{FindsInto, FoundIs, FindsKindInto, FindsCommit, FindsTree};

use crate::commit::CommitRefIter;
use crate::tree::TreeRefIter;
use crate::{Data, Kind};
use gix_hash::{Keys, ObjectId};
use thiserror::Error;

/// Why a store gave no answer.
#[derive(Clone, Copy, PartialEq, Eq, Debug, Error)]
pub enum Error {
    /// The store failed at this id.
    #[error("the store could not be read")]
    Store,
    /// Memory ran out.
    #[error("out of memory")]
    Memory,
}

pub mod existing_iter {
    //! Look-ups of objects that must exist.
    use crate::Kind;
    use gix_hash::ObjectId;
    use thiserror::Error;

    /// Why no object of a kind was found.
    #[derive(Clone, Copy, PartialEq, Eq, Debug, Error)]
    pub enum Error {
        /// The store failed at this id.
        #[error("the store could not be read")]
        Store,
        /// The store has no object of this id.
        #[error("an object with id {oid} could not be found")]
        NotFound {
            /// The id that was looked up.
            oid: ObjectId,
        },
        /// The store has an object of another kind at this id.
        #[error("expected an object of kind {expected:?} at {oid}, but it is of kind {actual:?}")]
        ObjectKind {
            /// The id that was looked up.
            oid: ObjectId,
            /// The kind that was asked for.
            expected: Kind,
            /// The kind of the object that the store has.
            actual: Kind,
        },
        /// Memory ran out.
        #[error("out of memory")]
        Memory,
    }
}

/// A store of objects.
///
/// It says what it stores, and for which ids its look-up may fail. Here these are those of another store:
///
/// ```rust
/// /// A store that asks another one again where that fails.
/// #[derive(Drop)]
/// pub struct Retry<F> {
///     pub store: F,
/// }
///
/// impl<F: Find> Find for Retry<F> {
///     ghost objects = { λ s. F.objects s.store };
///
///     ghost faulty = { λ s. F.faulty s.store };
///
///     fn find_into(&self, id: &ObjectId, buf: &mut Vec<u8>) -> Result<Option<Kind>, Error> {
///         match self.store.find_into(id, buf) {
///             Err(Error::Store) => self.store.find_into(id, buf),
///             answer => answer,
///         }
///     }
/// }
/// ```
pub trait Find {
    /// The objects that are stored.
    ghost objects: { Self → Objects };

    /// The ids whose look-up may fail.
    ghost faulty: { Self → ObjectId → Type 0 };

    /// Looks an object up, puts its bytes into `buf` in place of what was there, and returns its kind. None says that the
    /// store has no such object. After None `buf` may hold anything.
    ///
    /// # Errors
    /// `Store` where the store fails, which it may at the ids that are `faulty` alone. `Memory` when out of memory. After each
    /// `buf` may hold anything.
    fn find_into(&self, id: &ObjectId, buf: &mut Vec<u8>) -> Result<Option<Kind>, Error>
        ensures { FindsInto (map.get (objects self.now) id.now) (faulty self.now id.now) result buf.new.items };

    /// The keys for tables of ids of this store's objects: those of the store's own tables. They change no answer. A store that has no
    /// secret keys has those that anybody knows.
    fn keys(&self) -> Keys {
        Keys::KNOWN
    }

    /// Looks an object up, and lends its bytes from `buf`. None says that the store has no such object. After None, or the last
    /// use of what was lent, `buf` may hold anything.
    ///
    /// # Errors
    /// `Store` where the store fails, and `Memory` when out of memory. After each `buf` may hold anything.
    final fn try_find<'a>(
        &self,
        id: &ObjectId,
        buf: &'a mut Vec<u8>,
    ) -> Result<Option<Data<'a>>, Error>
    where
        ensures { FoundIs (map.get (objects self.now) id.now) (faulty self.now id.now) result }
    {
        match self.find_into(id, buf)? {
            Some(kind) => Ok(Some(Data { kind, bytes: buf })),
            None => Ok(None),
        }
    }

    /// Looks an object of this kind up, and puts its bytes into `buf` in place of what was there.
    ///
    /// # Errors
    /// `NotFound` where the store has no object of this id, `ObjectKind` where the object is of another kind, `Store` where the
    /// store fails, and `Memory` when out of memory. After each `buf` may hold anything.
    #[inline(always)]
    final fn find_kind_into(
        &self,
        id: &ObjectId,
        expected: Kind,
        buf: &mut Vec<u8>,
    ) -> Result<(), existing_iter::Error>
    where
        ensures { FindsKindInto (objects self.now) (faulty self.now) id.now expected result buf.new.items }
    {
        match self.find_into(id, buf) {
            Ok(Some(actual)) if actual == expected => Ok(()),
            Ok(Some(actual)) => Err(existing_iter::Error::ObjectKind {
                oid: *id,
                expected,
                actual,
            }),
            Ok(None) => Err(existing_iter::Error::NotFound { oid: *id }),
            Err(Error::Store) => Err(existing_iter::Error::Store),
            Err(Error::Memory) => Err(existing_iter::Error::Memory),
        }
    }

    /// Looks a commit up, and lends its items from `buf`. After the last use of what was lent, `buf` may hold anything.
    ///
    /// # Errors
    /// Those of `find_kind_into`. After each `buf` may hold anything.
    final fn find_commit_iter<'a>(
        &self,
        id: &ObjectId,
        buf: &'a mut Vec<u8>,
    ) -> Result<CommitRefIter<'a>, existing_iter::Error>
    where
        ensures { FindsCommit (objects self.now) (faulty self.now) id.now result }
    {
        self.find_kind_into(id, Kind::Commit, buf)?;
        Ok(CommitRefIter::from_bytes(buf, id.kind()))
    }

    /// Looks a tree up, and lends its entries from `buf`. After the last use of what was lent, `buf` may hold anything.
    ///
    /// # Errors
    /// Those of `find_kind_into`. After each `buf` may hold anything.
    final fn find_tree_iter<'a>(
        &self,
        id: &ObjectId,
        buf: &'a mut Vec<u8>,
    ) -> Result<TreeRefIter<'a>, existing_iter::Error>
    where
        ensures { FindsTree (objects self.now) (faulty self.now) id.now result }
    {
        self.find_kind_into(id, Kind::Tree, buf)?;
        Ok(TreeRefIter::from_bytes(buf, id.kind()))
    }
}

impl<F: Find> Find for &F {
    ghost objects = { λ f. F.objects f.now };

    ghost faulty = { λ f. F.faulty f.now };

    fn find_into(&self, id: &ObjectId, buf: &mut Vec<u8>) -> Result<Option<Kind>, Error> {
        F::find_into(self, id, buf)
    }

    fn keys(&self) -> Keys {
        F::keys(self)
    }
}
