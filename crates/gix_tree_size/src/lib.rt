//! How many entries an unfolded tree has, and how deep they lie, without unfolding it.
#![tactic(auto)]

ghost use Rattle.std.specs.Prelude.{◌≡◌, ◌≢◌, IfOk, IfErr};
ghost use Rattle.gix_tree.specs.declared.breadthfirst.Error.TheVariants as error;
ghost use Rattle.gix_tree_size.specs.Survey.{IsSurvey, FailsSo};

mod surveyor;

use gix_hash::ObjectId;
use gix_object::find::Find;
use gix_tree::depthfirst::{Error, State, depthfirst};
use std::alloc::Global;
use surveyor::Surveyor;

/// What a walk in depth shows of a tree, where it goes into each tree.
#[derive(Clone, Copy, PartialEq, Eq, Debug)]
pub struct Survey {
    /// How many entries: those of the tree, and those of each tree in it as often as it is met. `u64::MAX` stands for more, too.
    pub entries: u64,
    /// How many trees an entry is in at most, of which the whole tree is one: 0 where there is no entry. `usize::MAX` stands for more, too.
    pub depth: usize,
    /// The tree of the first entry whose name is none: it is empty or holds a `/`.
    pub misnamed: Option<ObjectId>,
}

/// Surveys the tree of this id. Each tree is looked up and read once, however often it is met, so a few trees that name each other
/// many times are surveyed at once, where their entries would fill any memory.
///
/// # Errors
/// That of a walk in depth that goes into each tree, which is the first on its way: `Find`, `ObjectDecode` or `Cycle`. `Memory`.
pub fn survey_tree<F: Find + Drop>(
    alloc: Global,
    root: ObjectId,
    objects: F,
) -> Result<Survey, Error>
    ensures ok { IfOk result (IsSurvey (F.objects objects) (F.faulty objects) root) }
    ensures err { IfErr result (λ e. e ≢ error.Memory → FailsSo (F.objects objects) (F.faulty objects) root e) }
{
    let mut surveyor = Surveyor::above(alloc, objects.keys(), root)?;
    depthfirst(alloc, root, &mut State::new(alloc), objects, &mut surveyor)?;
    Ok(surveyor.survey())
}
