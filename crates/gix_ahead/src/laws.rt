//! Laws of how far two commits are apart.

ghost use Rattle.gix_ahead.specs.Laws.{AheadOfHistory, RowsAgree, Succeeds};

use gix_object::find::Find;

/// Over rows that agree with the store, or none, the numbers are those of each history that agrees with the rows and of which the store
/// has a part, so of the store's commits too: the call has read all that the two commits reach.
pub fn ahead_of_history()
    ensures { AheadOfHistory }
{}

/// Two answers about the same commits are the same numbers, over whatever stores and rows they were found, where these are parts of one
/// history, and the rows of each agree with its store: with a commit-graph as without.
pub fn rows_agree()
    ensures { RowsAgree }
{}

/// Over rows that agree with the store, or none, a call fails only where memory runs out or the store fails, if all that the two commits
/// reach reads whole.
pub fn succeeds<F: Find>()
    ensures { Succeeds F.objects F.faulty }
{}
