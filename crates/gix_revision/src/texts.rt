//! What the texts of objects name.
ghost use Rattle.std.specs.Prelude.{◌≡◌, ◌+◌, ◌≤◌, ◌<◌, length, IfOk, IfSome, Some};
ghost use Rattle.std.specs.Option.{option_map};
ghost use Rattle.gix_object.specs.CommitText.{Commit, read_commit};
ghost use Rattle.gix_object.specs.TreeItems.{tree_items};
ghost use Rattle.gix_revision.specs.Leads.{IsTagOf, IsRead, entry_named};

use gix_hash::{Kind, ObjectId};
use gix_object::commit::{CommitRefIter, Token};
use gix_object::tree::TreeRefIter;
use std::alloc::{AllocError, Global};

/// What a commit names.
#[derive(Drop)]
pub(crate) struct Links {
    /// Its tree.
    pub tree: ObjectId,
    /// Its parents, in their order.
    pub parents: Vec<ObjectId>,
}

/// The tree and the parents of a commit of this text. None where the text isn't that of a commit.
pub(crate) fn links_of(alloc: Global, kind: Kind, bytes: &[u8]) -> Result<Option<Links>, AllocError>
    ensures { IfOk result (λ found. IfSome found (λ links. IsRead (read_commit kind bytes.now) links.tree links.parents.items)) }
{
    let mut items = CommitRefIter::from_bytes(bytes, kind);
    let Ok(tree) = items.tree_id() else {
        return Ok(None);
    };
    let mut parents = Vec::new(alloc);
    while let Some(item) = items.next() {
        match item {
            Ok(Token::Parent { id }) => parents.push(id)?,
            Ok(Token::Author { .. }) => {}
            Ok(Token::Committer { .. }) => return Ok(Some(Links { tree, parents })),
            _ => return Ok(None),
        }
    }
    Ok(None)
}

/// The id that the first line of a tag names. None where the line is another.
pub(crate) fn tagged(kind: Kind, bytes: &[u8]) -> Option<ObjectId>
    ensures { IfSome result (λ id. IsTagOf kind bytes.now id) }
{
    let line = bytes.strip_prefix(b"object ")?;
    let (digits, behind) = line.split_at_checked(kind.len_in_hex())?;
    let id = ObjectId::from_digits(digits, kind)?;
    let _rest = behind.strip_prefix(b"\n")?;
    Some(id)
}

/// The id of the first entry of this name in a tree. None where there is none in front of the first fault.
pub(crate) fn entry_of(kind: Kind, bytes: &[u8], name: &str) -> Option<ObjectId>
    ensures { IfSome result (λ id. entry_named name.now (tree_items kind bytes.now) ≡ Some id) }
{
    let mut entries = TreeRefIter::from_bytes(bytes, kind);
    while let Some(entry) = entries.next() {
        let Ok(entry) = entry else {
            return None;
        };
        if entry.filename.as_bytes() == name.as_bytes() {
            return Some(entry.oid);
        }
    }
    None
}
