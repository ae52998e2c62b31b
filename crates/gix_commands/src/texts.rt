//! Texts of commits that a walk may read.
ghost use Rattle.std.specs.Prelude.{◌≡◌, ◌≢◌, [], IsTrue, OnOk, IfErr};
ghost use Rattle.gix_object.specs.CommitRefIter.{commit_items_left};
ghost use Rattle.gix_object.specs.declared.find.Error.TheVariants as store;
ghost use Rattle.gix_revwalk.specs.declared.Parents.TheVariants as mode;
ghost use Rattle.gix_revwalk.specs.Texts.{scanned};
ghost use Rattle.gix_commands.specs.Readable.{is_faultless, is_first, is_text, readable_bytes};

use gix_hash::{Kind as HashKind, ObjectId};
use gix_object::commit::{CommitRefIter, Token};
use gix_object::{Kind, find};
use gix_revwalk::Parents;

/// Puts the byte 0 in place of a commit's bytes that aren't a text. A walk takes bytes without a line for a commit without parents, and
/// by first parents alone it reads no line behind that of the first parent; of the byte 0 it says that it is no commit.
pub fn make_readable(
    parents: Parents,
    id: &ObjectId,
    kind: Kind,
    text: &mut Vec<u8>,
) -> Result<(), find::Error>
    ensures ok { OnOk result (text.new.items ≡ readable_bytes (is_first parents) id.now kind text.old.items) }
    ensures err { IfErr result (λ e. e ≡ store.Memory) }
{
    if is_plain(parents, text.as_slice()) {
        return Ok(());
    }
    match kind {
        Kind::Commit => {}
        Kind::Tree | Kind::Blob | Kind::Tag => return Ok(()),
    }
    if is_text(parents, id.kind(), text.as_slice()) {
        return Ok(());
    }
    text.clear();
    match text.push(0) {
        Ok(()) => Ok(()),
        Err(_) => Err(find::Error::Memory),
    }
}

/// Whether all parents are read, and there are bytes: then no more is asked of them, whatever their kind.
fn is_plain(parents: Parents, bytes: &[u8]) -> bool
    ensures { IsTrue result → (parents ≡ mode.All) × (bytes.now ≢ []) }
{
    match parents {
        Parents::All => !bytes.is_empty(),
        Parents::First => false,
    }
}

/// Whether the bytes of a commit are a text. Where a walk reads the first parents alone, the lines of the others are read here.
fn is_text(parents: Parents, kind: HashKind, bytes: &[u8]) -> bool
    ensures { result ≡ is_text (is_first parents) kind bytes.now }
{
    if bytes.is_empty() {
        return false;
    }
    match parents {
        Parents::All => true,
        Parents::First => has_parents(CommitRefIter::from_bytes(bytes, kind)),
    }
}

/// Whether no fault comes before the end of the parents.
fn has_parents(mut items: CommitRefIter<'_>) -> bool
    ensures { result ≡ is_faultless (scanned mode.All (commit_items_left items.entry)).1 }
{
    while let Some(item) = items.next() {
        match item {
            Ok(Token::Tree { .. } | Token::Parent { .. }) => {}
            Ok(Token::Author { .. } | Token::Committer { .. } | Token::Rest { .. }) => return true,
            Err(_) => return false,
        }
    }
    true
}
