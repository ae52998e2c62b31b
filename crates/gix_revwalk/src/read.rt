//! What a commit's bytes say of its parents and its committer.
ghost use Rattle.std.specs.Prelude.{◌≡◌, ◌≢◌, ◌≤◌, [], None, Err, IfOk, IfErr, IfSome, IsOk, length};
ghost use Rattle.std.specs.Result.{result_map_both};
ghost use Rattle.gix_object.specs.CommitRefIter.{commit_items_left, first_committer, signature_shown};
ghost use Rattle.gix_object.specs.declared.Kind.TheVariants as object;
ghost use Rattle.gix_object.specs.declared.find.existing_iter.Error.TheVariants as existing;
ghost use Rattle.gix_object.specs.Find.{IsExistingFault};
ghost use Rattle.gix_revwalk.specs.declared.Parents.TheVariants as mode;
ghost use Rattle.gix_revwalk.specs.Either.{seconds_told};
ghost use Rattle.gix_revwalk.specs.Reading.{IsFrontAt, ReadsParentIds, ReadsHeader};
ghost use Rattle.gix_revwalk.specs.Texts.{scanned};

use super::{ParentIds, Parents};
use gix_hash::ObjectId;
use gix_object::commit::{CommitRefIter, Signature};
use gix_object::decode;
use gix_object::find::{Find, existing_iter};
use std::alloc::{AllocError, Global};

/// The parents that a commit's items name, up to the first item after them, and the fault that ended the reading.
#[derive(Drop)]
pub struct Scanned {
    /// The ids of the parents, in their order.
    pub parent_ids: ParentIds,
    /// The fault, where no item after the parents comes before it.
    pub fault: Option<decode::Error>,
}

/// Adds the parents that a commit's items name: all of them, or the first alone. The answer is the fault that ended the reading, where no
/// item after the parents comes before it. The items behind those that were read are left.
#[inline(always)]
fn read_parents(
    parents: Parents,
    items: &mut CommitRefIter<'_>,
    parent_ids: &mut ParentIds,
) -> Result<Option<decode::Error>, AllocError>
    requires empty { parent_ids.old.items ≡ [] }
    requires room { 1 ≤ parent_ids.old.capacity }
    ensures ok { IfOk result (λ fault. (parent_ids.new.items, fault) ≡ scanned parents (commit_items_left items.old)) }
    ensures fault { IfOk result (λ fault. IfSome fault (λ e. first_committer (commit_items_left items.old) ≡ Err e)) }
    ensures left { IfOk result (λ fault. fault ≡ None
        → first_committer (commit_items_left items.new) ≡ first_committer (commit_items_left items.old)) }
    ensures succeeds { length (scanned parents (commit_items_left items.old)).0 ≤ 1 → IsOk result }
{
    loop {
        match items.next_parent() {
            Ok(Some(id)) => {
                parent_ids.push(id)?;
                if let Parents::First = parents {
                    return Ok(None);
                }
            }
            Ok(None) => return Ok(None),
            Err(fault) => return Ok(Some(fault)),
        }
    }
}

/// Reads the parents that a commit's items name: all of them, or the first alone. Lists of at most one parent take no memory.
///
/// # Errors
///
/// `AllocError` when out of memory. The items are dropped.
#[inline(always)]
pub fn scan(
    alloc: Global,
    parents: Parents,
    mut items: CommitRefIter<'_>,
) -> Result<Scanned, AllocError>
    ensures ok { IfOk result (λ s. (s.parent_ids.items, s.fault) ≡ scanned parents (commit_items_left items.entry)) }
    ensures succeeds { length (scanned parents (commit_items_left items.entry)).0 ≤ 1 → IsOk result }
{
    let mut parent_ids = ParentIds::new(alloc);
    let fault = read_parents(parents, &mut items, &mut parent_ids)?;
    Ok(Scanned { parent_ids, fault })
}

/// All parents that a commit's items name, up to the first item after them, and the committer's time.
#[derive(Drop)]
pub struct Header {
    /// The ids of the parents, in their order.
    pub parent_ids: ParentIds,
    /// The committer's seconds since 1970-01-01 00:00 UTC. Else the first fault, where it comes before a committer, and `Missing`
    /// where the items end before both.
    pub time: Result<i64, decode::Error>,
}

/// All parents that a commit's items name, up to the first item after them, and the committer.
#[derive(Drop)]
struct Front<'a> {
    parent_ids: ParentIds,
    /// The committer. Else the first fault, where it comes before a committer, and `Missing` where the items end before both.
    committer: Result<Signature<'a>, decode::Error>,
}

/// Reads the parents and the committer in one pass, and ends there. Lists of at most one parent take no memory.
#[inline(always)]
fn read_front<'a>(alloc: Global, mut items: CommitRefIter<'a>) -> Result<Front<'a>, AllocError>
    ensures parents { IfOk result (λ f. f.parent_ids.items ≡ (scanned mode.All (commit_items_left items.entry)).0) }
    ensures committer { IfOk result (λ f. signature_shown f.committer ≡ first_committer (commit_items_left items.entry)) }
    ensures succeeds { length (scanned mode.All (commit_items_left items.entry)).0 ≤ 1 → IsOk result }
{
    let mut parent_ids = ParentIds::new(alloc);
    let fault = read_parents(Parents::All, &mut items, &mut parent_ids)?;
    let committer = match fault {
        None => items.committer(),
        Some(fault) => Err(fault),
    };
    Ok(Front {
        parent_ids,
        committer,
    })
}

/// Looks a commit up, and reads its front, which `text` then holds.
#[inline(always)]
fn find_front<'a, F: Find>(
    alloc: Global,
    objects: &F,
    id: &ObjectId,
    text: &'a mut Vec<u8>,
) -> Result<Front<'a>, existing_iter::Error>
where
    ensures found { IfOk result (λ f. IsFrontAt (F.objects objects.now) id.now f.parent_ids.items (signature_shown f.committer)) }
    ensures fault { IfErr result (λ why. why ≢ existing.Memory
        → IsExistingFault (F.objects objects.now) (F.faulty objects.now) id.now object.Commit why) }
{
    let items = objects.find_commit_iter(id, text)?;
    match read_front(alloc, items) {
        Ok(front) => Ok(front),
        Err(_) => Err(existing_iter::Error::Memory),
    }
}

/// The seconds of a committer.
pub(crate) fn seconds_of(
    committer: Result<Signature<'_>, decode::Error>,
) -> Result<i64, decode::Error>
    ensures { result ≡ seconds_told (signature_shown committer.entry) }
{
    match committer {
        Ok(signature) => Ok(signature.seconds()),
        Err(fault) => Err(fault),
    }
}

/// Looks a commit up, and reads its header in one pass over its text, which `text` then holds.
///
/// # Errors
///
/// After each of them `text` may hold anything:
/// - `NotFound` if the store has no object of this id, and `ObjectKind` if the object is no commit,
/// - `Store` if the store can't read the object,
/// - `Memory` when out of memory.
pub fn find_header<F: Find>(
    alloc: Global,
    objects: &F,
    id: &ObjectId,
    text: &mut Vec<u8>,
) -> Result<Header, existing_iter::Error>
    ensures reads { IfOk result (ReadsHeader (F.objects objects.now) id.now) }
    ensures fault { IfErr result (λ why. why ≢ existing.Memory
        → IsExistingFault (F.objects objects.now) (F.faulty objects.now) id.now object.Commit why) }
{
    let Front {
        parent_ids,
        committer,
    } = find_front(alloc, objects, id, text)?;
    Ok(Header {
        parent_ids,
        time: seconds_of(committer),
    })
}

/// Looks a commit up, and reads its parents in one pass over its text to the end of its committer. `text` holds the text then.
/// Where no committer can be read, the answer is the first fault, or `Missing`, instead of the parents.
///
/// # Errors
///
/// As [`find_header`].
#[inline(always)]
pub fn find_parents<F: Find>(
    alloc: Global,
    objects: &F,
    id: &ObjectId,
    text: &mut Vec<u8>,
) -> Result<Result<ParentIds, decode::Error>, existing_iter::Error>
    ensures reads { IfOk result (λ read. ReadsParentIds (F.objects objects.now) id.now (result_map_both (λ ids. ids.items) (λ e. e) read)) }
    ensures fault { IfErr result (λ why. why ≢ existing.Memory
        → IsExistingFault (F.objects objects.now) (F.faulty objects.now) id.now object.Commit why) }
{
    let Front {
        parent_ids,
        committer,
    } = find_front(alloc, objects, id, text)?;
    match committer {
        Ok(_) => Ok(Ok(parent_ids)),
        Err(fault) => Ok(Err(fault)),
    }
}
