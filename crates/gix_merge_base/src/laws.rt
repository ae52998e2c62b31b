//! Laws of the best common ancestors.

ghost use Rattle.gix_merge_base.specs.Laws.{BasesExactly, BasesOfHistory, RowsAgree, SomeBase, OneBase, Succeeds};

use gix_object::find::Find;

/// Over rows that agree with the store, or none, the answer is exactly the best common ancestors by the parents that the store's commits
/// name, each once, in rising order of their ids.
pub fn bases_exactly()
    ensures { BasesExactly }
{}

/// The answer is also exactly the best common ancestors of each history that agrees with the rows and of which the store has a part: the
/// call has read all that `one` and the others reach.
pub fn bases_of_history()
    ensures { BasesOfHistory }
{}

/// Two answers about the same commits are the same list, over whatever stores and rows they were found, where these are parts of one
/// history, and the rows of each agree with its store: with a commit-graph as without.
pub fn rows_agree()
    ensures { RowsAgree }
{}

/// Where no two common ancestors reach each other, as in each history whose ids are hashes, each common ancestor is reached by one of
/// the answer: where there is a common ancestor, the answer isn't empty.
pub fn some_base()
    ensures { SomeBase }
{}

/// Where no two common ancestors reach each other and some of the others reaches `one`, `one` alone is the answer.
pub fn one_base()
    ensures { OneBase }
{}

/// Over rows that agree with the store, or none, a call fails only where memory runs out or the store fails, if all that `one` and the
/// others reach reads whole.
pub fn succeeds<F: Find>()
    ensures { Succeeds F.objects F.faulty }
{}
