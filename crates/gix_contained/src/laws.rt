//! Laws of what is contained.

ghost use Rattle.gix_contained.specs.Laws.{ContainsExactly, RowsAgree, Succeeds};

use gix_object::find::Find;

/// Over rows that agree with the store, or none, the answer is exactly those of the ids that the tips reach by the parents that the
/// store's commits name, in the order given and with repeats.
pub fn contains_exactly()
    ensures { ContainsExactly }
{}

/// Two answers about the same tips and ids are the same, over whatever stores and rows they were found, where these are parts of one
/// history: with a commit-graph that agrees as without.
pub fn rows_agree()
    ensures { RowsAgree }
{}

/// Over rows that agree with the store, or none, a call fails only where memory runs out or the store fails, if all that tips and ids
/// reach reads whole.
pub fn succeeds<F: Find>()
    ensures { Succeeds F.objects F.faulty }
{}
