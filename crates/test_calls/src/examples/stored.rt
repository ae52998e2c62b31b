//! The example of `MemoryStore`.
use gix_parts::hash::{Keys, ObjectId};
use gix_parts::object::Kind;
use gix_parts::object::memory::MemoryStore;
use std::alloc::{AllocError, Global};

/// A store with one commit.
pub fn store_of_one(
    alloc: Global,
    keys: Keys,
    id: ObjectId,
) -> Result<MemoryStore<'static>, AllocError> {
    let mut store = MemoryStore::new(alloc, keys);
    let commit = b"tree 4b825dc642cb6eb9a060e54bf8d69288fbee4904
author A <a@b> 100 +0000
committer A <a@b> 200 +0000

The first commit
";
    store.insert(id, Kind::Commit, commit)?;
    Ok(store)
}
