//! Objects, and where they are found.
#![tactic(auto)]

pub mod commit;
pub mod decode;
pub mod find;
pub mod laws;
pub mod memory;
pub mod tree;

/// What an object is.
#[derive(Clone, Copy, PartialEq, Eq, Debug)]
pub enum Kind {
    /// A folder: for each entry a mode, a name and an id.
    Tree,
    /// The bytes of a file.
    Blob,
    /// A commit: a tree, parents, an author, a committer and a message.
    Commit,
    /// A name for another object, with a message. Nothing here reads its bytes.
    Tag,
}

/// An object as a look-up lends it.
#[derive(Clone, Copy, Debug)]
pub struct Data<'a> {
    /// What the object is.
    pub kind: Kind,
    /// Its bytes, without the header that Git stores in front of them.
    pub bytes: &'a [u8],
}
