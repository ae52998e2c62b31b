//! What a store says of a commit.
ghost use Rattle.std.specs.Prelude.{◌≡◌, IfOk};
ghost use Rattle.std.specs.Option.{option_map};
ghost use Rattle.gix_object.specs.CommitRefIter.{commit_items_left};
ghost use Rattle.gix_object.specs.CommitText.{commit_of_items};
ghost use Rattle.gix_graph_check.specs.StoredCommits.{commit_shown};

use gix_hash::ObjectId;
use gix_object::commit::{CommitRefIter, Token};
use std::alloc::{AllocError, Global};

/// What the text of a commit says.
#[derive(Drop)]
pub struct StoredCommit {
    /// The id of the tree.
    pub tree: ObjectId,
    /// The ids of the parents, in their order.
    pub parent_ids: Vec<ObjectId>,
    /// The committer's seconds.
    pub time: i64,
}

/// The commit that the items say, where they reach a committer, and None where they don't.
///
/// # Errors
///
/// `AllocError` when out of memory.
pub fn read_whole(
    alloc: Global,
    mut items: CommitRefIter<'_>,
) -> Result<Option<StoredCommit>, AllocError>
    ensures { IfOk result (λ stored. option_map commit_shown stored ≡ commit_of_items (commit_items_left items.entry)) }
{
    let Ok(tree) = items.tree_id() else {
        return Ok(None);
    };
    let mut parent_ids = Vec::new(alloc);
    while let Some(item) = items.next() {
        match item {
            Ok(Token::Parent { id }) => parent_ids.push(id)?,
            Ok(Token::Author { .. }) => {}
            Ok(Token::Committer { signature }) => {
                let time = signature.seconds();
                return Ok(Some(StoredCommit {
                    tree,
                    parent_ids,
                    time,
                }));
            }
            Ok(Token::Tree { .. } | Token::Rest { .. }) | Err(_) => return Ok(None),
        }
    }
    Ok(None)
}
