//! The commits that a list goes through.
ghost use Rattle.std.specs.Iterator.{IsFinite};

use crate::chosen::Chooser;
use crate::commits::{Ends, topo_walk_from, walk_from};
use gix_commitgraph::Graph;
use gix_hash::ObjectId;
use gix_records::NamedObjects;
use gix_revwalk::{Info, Parents};
use gix_words::{Command, Fault, Format, Order, Shown};
use std::alloc::{AllocError, Global};

/// The ids of the commits that the list goes through which a command asks for, up to its end or its first fault: each that is written, and
/// each that is passed over before the last of these. None for another command.
///
/// A list with a format needs the texts of these commits, which no row has. So whoever has rows reads these commits, and then runs the
/// list. Nothing is promised of the ids: if one isn't among them whose text is needed, the run says that it is missing.
///
/// # Errors
/// Those of a walk that can't begin. `Memory`.
pub fn listed_ids(
    alloc: Global,
    command: &Command,
    objects: &NamedObjects,
    graph: Option<&Graph>,
) -> Result<Vec<ObjectId>, Fault> {
    let Command::Commits {
        order,
        shown,
        tips,
        hidden,
    } = command
    else {
        return Ok(Vec::new(alloc));
    };
    let shown = without_format(*shown);
    let ends = Ends::of(alloc, tips.as_slice(), hidden.as_slice())?;
    let store = objects.store();
    match *order {
        Order::Simple { parents, sorting } => {
            let walk = walk_from(alloc, parents, sorting, ends, store, graph)?;
            drawn(
                alloc,
                walk,
                Chooser::new(alloc, shown, parents, store, graph),
            )
        }
        Order::Topo { parents, sorting } => {
            let walk = topo_walk_from(alloc, parents, sorting, ends, store, graph)?;
            drawn(
                alloc,
                walk,
                Chooser::new(alloc, shown, Parents::All, store, graph),
            )
        }
    }
}

/// The same of lines that have no format.
fn without_format(shown: Shown) -> Shown {
    let mut plain = shown;
    plain.line.format = Format::none();
    plain
}

/// The ids of the commits that a walk gives, until as many are chosen as may be.
fn drawn<I, E>(alloc: Global, walk: I, mut chooser: Chooser<'_>) -> Result<Vec<ObjectId>, Fault>
where
    I: Iterator<Item = Result<Info, E>> + Drop,
    E: Into<Fault> + Drop,
    requires can { I.can_next walk }
    requires finite { IsFinite (I.remaining walk) }
{
    let mut ids = Vec::new(alloc);
    for answer in walk {
        if chooser.is_done() {
            break;
        }
        let Ok(info) = answer else {
            break;
        };
        chooser.takes(&info.id)?;
        ids.push(info.id).map_err(AllocError::from)?;
    }
    Ok(ids)
}
