//! Laws of what contains a commit.

ghost use Rattle.gix_containing.specs.Laws.{ContainingExactly, ContainingOfHistory, RowsAgree, IsConverse, Succeeds};

use gix_object::find::Find;

/// Over rows that agree with the store, or none, the answer is exactly those of the tips that reach the target by the parents that the
/// store's commits name, in the order given and with repeats.
pub fn containing_exactly()
    ensures { ContainingExactly }
{}

/// The answer is also exactly those of the tips that reach the target in each history that agrees with the rows and of which the store has
/// a part: the call has read all that the target and the tips reach.
pub fn containing_of_history()
    ensures { ContainingOfHistory }
{}

/// Two answers about the same target and tips are the same list, over whatever stores and rows they were found, where these are parts of
/// one history, and the rows of each agree with its store: with a commit-graph as without.
pub fn rows_agree()
    ensures { RowsAgree }
{}

/// A tip is in the answer exactly if the target is in what `contained` answers about this tip alone, over the same history.
pub fn is_converse()
    ensures { IsConverse }
{}

/// Over rows that agree with the store, or none, a call fails only where memory runs out or the store fails, if all that the target and
/// the tips reach reads whole.
pub fn succeeds<F: Find>()
    ensures { Succeeds F.objects F.faulty }
{}
