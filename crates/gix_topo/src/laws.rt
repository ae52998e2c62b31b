//! Laws of `commit::Topo`.
//!
//! The walk set is what tips reach by the walked parents and no end reaches. What is walked is what tips reach so and what ends reach
//! by any parents. The history is *sound* where the rows agree with the store or there are none, and all that is walked and all
//! parents of what tips reach read whole. A law that names no premise holds for every store, all rows and every predicate, and over
//! cycles.

ghost use Rattle.gix_topo.specs.Statements.{RunsAreInOrder, RunsBeginInOrder, BeginsEachOnce, SomeTopoOrder, SomeDateOrder, TopoOrderIsOne, DateOrderIsOne, TopoBeginningIsOne, DateBeginningIsOne, TakesEachOnce, RunsGiveTheDifference, TakesChildrenFirst, RowsLeaveTheIds, RowsLeaveTheSet, RowsChangeGenerationsAlone, Ends, AsksNeverTwice, GivesNeverTwice, FailsForItsReason, StaysEnded, ParentsAreKnown, TellsTheGenerations, CountsDownToTheDepth, FaultlessRunsAreInOrder, FaultlessRunsBeginInOrder, TakesEachByText, FaultlessRunsGiveTheDifference};

use gix_object::find::Find;
use gix_revwalk::Predicate;

/// A walk that was built over a sound history and is drawn to its end, where memory and the store don't fail and the predicate's
/// answer depends on the id alone: it takes the commits of its set in the order that was asked for, and gives those that the
/// predicate accepts.
pub fn in_order<F: Find, P: Predicate>()
    ensures { RunsAreInOrder F.objects F.faulty P.answers }
{}

/// A walk as of `in_order`, except that it is drawn as far as one likes: the commits taken, up to the last one given, are a beginning in
/// the order that was asked for, and it gives those that the predicate accepts.
pub fn begins_in_order<F: Find, P: Predicate>()
    ensures { RunsBeginInOrder F.objects F.faulty P.answers }
{}

/// The first commits that are taken, as `begins_in_order` says: none is taken twice, none outside of the walk set, and each after all of
/// its children in that set.
pub fn begins_once<F: Find>()
    ensures { BeginsEachOnce F.objects }
{}

/// There is a list in topological order, whatever the tips and ends are, where each id names next some of the parents that the text of
/// its commit names in a store. The history may have cycles: such a list holds what can become ready.
pub fn some_topo_order()
    ensures { SomeTopoOrder }
{}

/// There is a list in date order, too, where the ends go on to each id that the walk goes on to.
pub fn some_date_order()
    ensures { SomeDateOrder }
{}

/// Over any parents, tips and ends, two lists in topological order are equal.
pub fn one_topo_order()
    ensures { TopoOrderIsOne }
{}

/// Over any parents, times, tips and ends, two lists in date order are equal.
pub fn one_date_order()
    ensures { DateOrderIsOne }
{}

/// A beginning in topological order is the first ids of the whole list in that order.
pub fn one_topo_beginning()
    ensures { TopoBeginningIsOne }
{}

/// A beginning in date order is the first ids of the whole list in that order.
pub fn one_date_beginning()
    ensures { DateBeginningIsOne }
{}

/// Commits that are taken in the order that was asked for: none is taken twice, and none outside of the walk set; and the whole set
/// is taken, where no commit of it is its own ancestor by the walked parents.
pub fn each_once<F: Find>()
    ensures { TakesEachOnce F.objects }
{}

/// A walk that was built, goes through all parents, has a predicate that accepts every id, and is drawn to its end: it gives no fault,
/// no commit twice, and only commits that its tips reach and its ends don't; and all of these, where none of them is its own ancestor.
/// Memory and the store don't fail, the rows agree with the store, and all that tips and ends reach reads whole.
pub fn difference<F: Find, P: Predicate>()
    ensures { RunsGiveTheDifference F.objects F.faulty P.answers }
{}

/// A walk that was built over rows that agree or none, and is drawn to its end, none of whose answers is a fault, and whose predicate's
/// answer depends on the id alone: it takes the commits of its set in the order that was asked for, and gives those that the predicate
/// accepts. Parents are those that the texts of commits name, and so is the set; a commit whose text breaks off before its committer
/// has the time 0. Nothing else is asked of the history.
pub fn faultless<F: Find, P: Predicate>()
    ensures { FaultlessRunsAreInOrder F.objects F.faulty P.answers }
{}

/// Such a walk that is drawn as far as one likes, as long as it gives no fault: the commits that it has taken up to the last that it
/// gave are a beginning in that order, and it gave those that the predicate accepts.
pub fn faultless_begins<F: Find, P: Predicate>()
    ensures { FaultlessRunsBeginInOrder F.objects F.faulty P.answers }
{}

/// Commits that are taken in order by the texts, as in `faultless`: none is taken twice, none outside of the set, and each before its
/// walked parents; and the whole set is taken, where no commit of it is its own ancestor by the walked parents.
pub fn faultless_once<F: Find>()
    ensures { TakesEachByText F.objects }
{}

/// A walk as in `faultless` that goes through all parents and whose predicate accepts every id: it gives no commit twice, and only
/// commits that its tips reach and its ends don't, by the parents that texts name; and all of these, where none of them is its own
/// ancestor.
pub fn faultless_difference<F: Find, P: Predicate>()
    ensures { FaultlessRunsGiveTheDifference F.objects F.faulty P.answers }
{}

/// In a list as of `each_once` a commit comes before each of its walked parents that is in the list.
pub fn children_first<F: Find>()
    ensures { TakesChildrenFirst F.objects }
{}

/// Two walks that were built alike, except that each has rows of its own or none, give the same list of ids, where
/// the premises of `in_order` hold for both, and both predicates answer alike.
pub fn rows_agree<F: Find, P: Predicate>()
    ensures { RowsLeaveTheIds F.objects F.faulty P.answers }
{}

/// Two walks that were built alike, except that each has rows of its own or none, and an order of its own: they take the same commits,
/// where the premises of `in_order` hold for both, and both predicates answer alike. The history may have cycles.
pub fn rows_agree_on_ids<F: Find, P: Predicate>()
    ensures { RowsLeaveTheSet F.objects F.faulty P.answers }
{}

/// Every topological walk ends: it gives at most an answer for each ready commit, and for each id not taken or ready that rows
/// or the texts of stored commits name.
pub fn ends<F: Find, P: Predicate>()
    ensures { Ends F.objects F.faulty P.answers }
{}

/// The predicate of a walk that was built is never asked about one id twice, wherever the caller stops: its state is a run of its own
/// steps over different ids.
pub fn asks_once<F: Find, P: Predicate>()
    ensures { AsksNeverTwice F.objects F.faulty P.answers }
{}

/// A walk that was built gives no commit twice, whatever faults come, and wherever the caller stops.
pub fn never_twice<F: Find, P: Predicate>()
    ensures { GivesNeverTwice F.objects F.faulty P.answers }
{}

/// A fault of `next` comes for its reason alone, and nothing follows it: an object can't be read, the rows don't agree, or memory ran
/// out. Where the rows agree, tips or ends reach the object, or it is a parent of a commit that was still to be taken; over a sound
/// history it is the store that fails. Without rows the object is a parent that isn't walked, or the store fails.
pub fn fails_once<F: Find, P: Predicate>()
    ensures { FailsForItsReason F.objects F.faulty P.answers }
{}

/// After None nothing is ready, so `next` may be called again, whatever its predicate, and it gives None.
pub fn stays_ended<F: Find, P: Predicate>()
    ensures { StaysEnded F.objects F.faulty P.answers }
{}

/// Each parent of a commit that a built walk gives, walked or not, has a row, or is stored as a commit whose text can be read.
pub fn parents_known<F: Find, P: Predicate>()
    ensures { ParentsAreKnown F.objects F.faulty P.answers }
{}

/// A walk that was built, where the rows agree or there are none: as long as the rows are in use, a commit is given with the generation
/// of its row, and with none where it has no row.
pub fn tells<F: Find, P: Predicate>()
    ensures { TellsTheGenerations F.objects F.faulty P.answers }
{}

/// A walk that was built, where the rows agree or there are none, and that gave no fault: as long as the rows are in use, counting has
/// read the parents of exactly the commits that tips or ends reach, by the parents that texts name, and that aren't below its depth,
/// and no such commit has a corrupt row. The rows are dropped only for one; then it has read the parents of all that tips or ends reach.
pub fn counts<F: Find, P: Predicate>()
    ensures { CountsDownToTheDepth F.objects F.faulty P.answers }
{}

/// Rows that agree change nothing that a walk gives but generations, in either order: with rows as without, it gives the same commits in
/// the same order, each with the same parents and the same time, and no fault. The two walks were built alike, except that each has rows
/// of its own or none, the premises of `in_order` hold for both, and both predicates answer alike.
pub fn rows_change_generations_alone<F: Find, P: Predicate>()
    ensures { RowsChangeGenerationsAlone F.objects F.faulty P.answers }
{}
