//! How many commits a walk gives that is drawn to its end.
ghost use Rattle.std.specs.Prelude.{◌≢◌, ◌∷◌, [], IfOk, IfErr};
ghost use Rattle.std.specs.Iterator.{IsFinite};
ghost use Rattle.gix_ahead.specs.Ahead.{FailsBy};
ghost use Rattle.gix_ahead.specs.Inside.Walks.{DrawsSoMany, Numbers};
ghost use Rattle.gix_contained.specs.declared.Error.TheVariants as error;
ghost use Rattle.gix_merge_base.specs.Inside.Steps.{GatherFails};
ghost use Rattle.gix_revwalk.specs.Agreeing.{rows_in};

use gix_commitgraph::Graph;
use gix_contained::Error;
use gix_hash::ObjectId;
use gix_merge_base::{error_of_walk, walk_from};
use gix_object::find::Find;
use gix_revwalk::Info;
use std::alloc::Global;

/// How many commits the tip reaches and the hidden one doesn't.
pub(super) fn number_reached<F: Find>(
    alloc: Global,
    tip: ObjectId,
    hidden: ObjectId,
    objects: &F,
    graph: Option<&Graph>,
) -> Result<usize, Error>
    ensures ok { IfOk result (Numbers (F.objects objects.now) (rows_in graph.entry) tip hidden) }
    ensures err { IfErr result (λ e. e ≢ error.Memory
        → FailsBy (F.objects objects.now) (F.faulty objects.now) (rows_in graph.entry) hidden (tip ∷ []) e) }
{
    let walk = walk_from(alloc, hidden, &[tip], objects, graph)?;
    number_drawn(walk)
}

/// How many commits the walk gives.
fn number_drawn<I>(walk: I) -> Result<usize, Error>
where
    I: Iterator<Item = Result<Info, gix_simple::Error>> + Drop,
    requires can { I.can_next walk }
    requires finite { IsFinite (I.remaining walk) }
    ensures ok { IfOk result (DrawsSoMany I.next_gives walk) }
    ensures err { IfErr result (λ e. e ≢ error.Memory → GatherFails I.next_gives walk e) }
{
    let mut number: usize = 0;
    for answer in walk {
        match answer {
            Ok(info) => drop(info),
            Err(e) => return Err(error_of_walk(e)),
        }
        // No memory holds more commits than there are numbers.
        let Some(next) = number.checked_add(1) else {
            return Err(Error::Memory);
        };
        number = next;
    }
    Ok(number)
}
