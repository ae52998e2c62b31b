//! The commits that wait: by what they are taken, and what is known of their parents.
ghost use Rattle.std.specs.Prelude.{◌≡◌, ◌≢◌, IfOk, IfErr};
ghost use Rattle.gix_object.specs.declared.find.existing_iter.Error.TheVariants as existing;
ghost use Rattle.gix_paint.specs.Painting.{IsFaultAt};
ghost use Rattle.gix_paint.specs.Reading.{IsRowless, ReadFails};
ghost use Rattle.gix_revwalk.specs.Agreeing.{rows_of};
ghost use Rattle.gix_contained.specs.Inside.Search.{GivesParents, Knows};

use gix_hash::ObjectId;
use gix_object::find::Find;
use gix_paint::Hidden;
use gix_paint::source::{Named, parents};
use gix_revwalk::ParentIds;
use gix_revwalk::read::Header;
use gix_revwalk::row::Near;
use gix_revwalk::source::Source;

/// The generation of a commit without a row, which is greater than that of any row.
const INFINITE: u32 = u32::MAX;

/// Whose parents are met first: those of the commit of the greatest generation, and of one generation the newest.
#[derive(Clone, Copy, PartialEq, Eq, PartialOrd, Ord)]
pub(super) struct Key {
    pub(super) generation: u32,
    time: i64,
}

/// A commit that was met, and whose parents weren't yet.
#[derive(Drop)]
pub(super) struct Waiting {
    id: ObjectId,
    near: u32,
    /// The parents, where the store was asked for the commit.
    parent_ids: Option<ParentIds>,
}

/// What is known of a commit by its row, whose places are left alone, or else by the store.
pub(super) fn look_up<F: Find>(
    source: &mut Source<&F>,
    id: ObjectId,
    near: u32,
) -> Result<(Key, Waiting), Hidden>
    ensures objects { source.new.objects ≡ source.old.objects }
    ensures graph { source.new.graph ≡ source.old.graph }
    ensures in_use { source.new.in_use ≡ source.old.in_use }
    ensures known { IfOk result (Knows (F.objects source.old.objects.now) (rows_of source.old.graph) source.old.in_use id) }
    ensures fault { IfErr result (λ why. why ≢ Hidden.Find existing.Memory → IsRowless (rows_of source.old.graph) source.old.in_use id
        × IsFaultAt (F.objects source.old.objects.now) (F.faulty source.old.objects.now) id why) }
{
    if let Some(commit) = source.row(&id, near) {
        let key = Key {
            generation: commit.generation(),
            time: commit.committer_timestamp(),
        };
        return Ok((
            key,
            Waiting {
                id,
                near,
                parent_ids: None,
            },
        ));
    }
    let Header { parent_ids, time } = source.header(&id)?;
    let key = Key {
        generation: INFINITE,
        time: time?,
    };
    Ok((
        key,
        Waiting {
            id,
            near,
            parent_ids: Some(parent_ids),
        },
    ))
}

impl Waiting {
    /// The parents of a commit that waited: those that it brings, or else those that are read now.
    pub(super) fn parents<F: Find>(self, source: &mut Source<&F>) -> Result<Named, Hidden>
        ensures objects { source.new.objects ≡ source.old.objects }
        ensures graph { source.new.graph ≡ source.old.graph }
        ensures parents { IfOk result (λ named. GivesParents (F.objects source.old.objects.now) (rows_of source.old.graph) source.old.in_use
            self named.parent_ids.items source.new.in_use) }
        ensures fault { IfErr result (ReadFails (F.objects source.old.objects.now) (F.faulty source.old.objects.now)
            (rows_of source.old.graph) source.old.in_use self.id) }
    {
        let Waiting {
            id,
            near,
            parent_ids,
        } = self;
        match parent_ids {
            Some(parent_ids) => Ok(Named {
                parent_ids,
                near: Near::nowhere(),
            }),
            None => parents(source, &id, near),
        }
    }
}
