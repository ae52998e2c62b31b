//! What searches read of a commit: by its row as long as rows are in use, and else from the store.
ghost use Rattle.std.specs.Prelude.{◌≡◌, IfOk, IfErr};
ghost use Rattle.gix_revwalk.specs.Agreeing.{rows_of};
ghost use Rattle.gix_paint.specs.Reading.{FailsAt, ReadFails, Reads, ReadsParents};

use crate::Hidden;
use gix_hash::ObjectId;
use gix_object::find::Find;
use gix_revwalk::ParentIds;
use gix_revwalk::read::find_parents;
use gix_revwalk::row::Near;
use gix_revwalk::source::Source;

/// The parents of a commit, and where to look first for their rows.
#[derive(Drop)]
pub struct Named {
    /// The ids of the parents, in their order.
    pub parent_ids: ParentIds,
    /// Where to look first for their rows.
    pub near: Near,
}

/// The parents that the store says, of a commit whose committer is read too.
#[inline(always)]
fn stored_parents<F: Find>(source: &mut Source<&F>, id: &ObjectId) -> Result<ParentIds, Hidden>
    ensures objects { source.new.objects ≡ source.old.objects }
    ensures graph { source.new.graph ≡ source.old.graph }
    ensures in_use { source.new.in_use ≡ source.old.in_use }
    ensures read { IfOk result (λ ids. Reads (F.objects source.old.objects.now) id.now ids.items) }
    ensures fault { IfErr result (FailsAt (F.objects source.old.objects.now) (F.faulty source.old.objects.now) id.now) }
{
    Ok(find_parents(source.alloc, source.objects, id, &mut source.text)??)
}

/// The parents of a commit, by its row or else from the store. A corrupt row drops the rows for good. `near` is where to look first for the
/// row.
///
/// # Errors
///
/// `Find` where the store can't give the commit, and when out of memory. `ObjectDecode` where its bytes are broken before its committer
/// ends.
#[inline(always)]
pub fn parents<F: Find>(source: &mut Source<&F>, id: &ObjectId, near: u32) -> Result<Named, Hidden>
    ensures objects { source.new.objects ≡ source.old.objects }
    ensures graph { source.new.graph ≡ source.old.graph }
    ensures parents { IfOk result (λ named. ReadsParents (F.objects source.old.objects.now) (rows_of source.old.graph) source.old.in_use
        id.now named.parent_ids.items source.new.in_use) }
    ensures fault { IfErr result (ReadFails (F.objects source.old.objects.now) (F.faulty source.old.objects.now)
        (rows_of source.old.graph) source.old.in_use id.now) }
{
    if let Some(row) = source.read_row(id, near)? {
        return Ok(Named {
            parent_ids: row.parent_ids,
            near: row.near,
        });
    }
    let parent_ids = stored_parents(source, id)?;
    Ok(Named {
        parent_ids,
        near: Near::nowhere(),
    })
}
