//! Laws of `commit::Simple`, and of the commits that walks give.

ghost use Rattle.gix_simple.specs.Statements.{MakesNewWalks, BuildsFreshWalks, NewWalksGiveBreadthFirst, PlainRunsAreInBreadthOrder, PlainRunsAreInTimeOrder, RunsAreInOrder, GivesEachOnce, RunsBeginInOrder, BeginsOnce, RunsGiveTheDifference, FaultlessRunsGiveTheDifference, FaultlessRunsAreInOrder, FaultlessRunsBeginInOrder, info_cmp, BuildsAlike, HidesWhatIsReached, HidesNoLater, RowsLeaveTheIds, RowsChangeGenerationsAlone, TellsTheGenerations, TimesFall, GivesNeverTwice, AsksNeverTwice, Ends, ReachIsDecided, SomeBreadthOrder, SomeTimeOrder, OneBreadthOrder, OneBreadthBeginning, OneTimeOrder, OneTimeBeginning};
ghost use Rattle.std.specs.Prelude.{◌≡◌};
ghost use Rattle.gix_revwalk.specs.declared.Info.{Info as InfoRecord};

use gix_object::find::Find;
use gix_revwalk::{Info, Predicate};

/// A walk that was just made, where the predicate's answer depends on the id alone: the accepted tips are pending, each at its
/// first place, and nothing else is. It is fresh, walks all parents breadth first, and has no rows and no hidden tips.
pub fn is_made<F: Find, P: Predicate>()
    ensures { MakesNewWalks F.objects F.faulty P.answers }
{}

/// Whatever calls built it, in any order and any number of times, before its first step a walk is fresh, where the predicate's
/// answer depends on the id alone: each pending commit is pending once, was accepted, and has its own time where an order by time
/// is in force.
pub fn is_built<F: Find, P: Predicate>()
    ensures { BuildsFreshWalks F.objects F.faulty P.answers }
{}

/// A walk that was made of some tips and, with no other call between, drawn to its end. Memory and the store don't fail, what the
/// accepted tips reach through accepted parents reads whole, and the predicate's answer depends on the id alone. It gives exactly
/// the commits that these tips reach so, each once, breadth first.
pub fn gives_breadth_first<F: Find, P: Predicate>()
    ensures { NewWalksGiveBreadthFirst F.objects F.faulty P.answers }
{}

/// A fresh walk without hidden tips and rows, and with no order by time, that is drawn to its end. Memory and the store don't fail,
/// what the pending commits reach through accepted parents reads whole, and the predicate's answer depends on the id alone. Each
/// commit that it gives is the first new id among the ids named before, and it ends where there is none.
pub fn breadth_order<F: Find, P: Predicate>()
    ensures { PlainRunsAreInBreadthOrder F.objects F.faulty P.answers }
{}

/// A fresh walk without hidden tips and rows, and in an order by time, that is drawn to its end. Memory and the store don't fail,
/// what the pending commits reach through accepted parents that no cutoff drops reads whole, and the predicate's answer depends on
/// the id alone. Each commit that it gives is of best time among the pending ones, and of one time the one that was named first, and
/// it ends where there is none.
pub fn time_order<F: Find, P: Predicate>()
    ensures { PlainRunsAreInTimeOrder F.objects F.faulty P.answers }
{}

/// Any fresh walk that is drawn to its end, with hidden tips and with rows that agree with the store, gives what it names in the
/// order in force. Memory and the store don't fail, what it gives reads whole, so does all that tips and hidden tips reach where it
/// has both, and the predicate's answer depends on the id alone.
pub fn in_order<F: Find, P: Predicate>()
    ensures { RunsAreInOrder F.objects F.faulty P.answers }
{}

/// Any fresh walk without hidden tips, over rows that agree or none, that is drawn to its end, and none of whose answers is a fault,
/// where the predicate's answer depends on the id alone. It gives the commits in the order in force, with the parents that their texts
/// name, each once, and exactly those that its tips reach by these parents, where parents are left out that are refused or older than
/// the cutoff. Nothing more is asked of the store, of memory or of the history: a text may break off behind its parents, and its time
/// is then 0.
pub fn faultless<F: Find, P: Predicate>()
    ensures { FaultlessRunsAreInOrder F.objects F.faulty P.answers }
{}

/// Such a walk that is drawn as far as one likes, as long as it gives no fault: the commits that it has given are the beginning of a list
/// in the order in force, each once, and only commits that its tips reach by the parents of `faultless`.
pub fn faultless_begins<F: Find, P: Predicate>()
    ensures { FaultlessRunsBeginInOrder F.objects F.faulty P.answers }
{}

/// A walk that gives its commits in order, as `in_order` says, gives no id twice, and exactly the ids that its tips reach through
/// the parents that it walks, where tips and parents are left out that are refused, hidden or older than the cutoff.
pub fn each_once<F: Find, P: Predicate>()
    ensures { GivesEachOnce F.objects F.faulty P.answers }
{}

/// Any fresh walk that is drawn as far as one likes, to its tenth answer or to its end, has given the beginning of a list in the order
/// in force. The premises are those of `in_order`, except that the walk is drawn to its end.
pub fn begins_in_order<F: Find, P: Predicate>()
    ensures { RunsBeginInOrder F.objects F.faulty P.answers }
{}

/// A walk that gives the beginning of a list in order, as `begins_in_order` says, gives no id twice, and only ids that its tips reach
/// through the parents that it walks, where tips and parents are left out that are refused, hidden or older than the cutoff.
pub fn begins_once<F: Find, P: Predicate>()
    ensures { BeginsOnce F.objects F.faulty P.answers }
{}

/// A walk that was built by any calls, none with a cutoff, goes through all parents, has a predicate that accepts every id, and is
/// drawn to its end: it gives exactly the commits that its tips reach and its hidden tips don't, by all parents, each once, and no
/// fault. Memory and the store don't fail, the rows agree with the store, and all that tips and hidden tips reach reads whole.
pub fn difference<F: Find, P: Predicate>()
    ensures { RunsGiveTheDifference F.objects F.faulty P.answers }
{}

/// A walk as `difference` asks, with hidden tips, over rows that agree or none, and none of whose answers is a fault: it gives what
/// `difference` says. Nothing more is asked of the store, of memory or of the history, since the first step reads all that tips and
/// hidden tips reach, by a row or from the store.
pub fn faultless_difference<F: Find, P: Predicate>()
    ensures { FaultlessRunsGiveTheDifference F.objects F.faulty P.answers }
{}

/// Two walks that were built of the same tips by the same calls are alike, whatever rows and hidden tips each was given, where the
/// predicate's answer depends on the id alone: they start from the same commits and walk the same parents in the same order.
pub fn are_alike<F: Find, P: Predicate>()
    ensures { BuildsAlike F.objects F.faulty P.answers }
{}

/// With hidden tips a walk gives exactly the commits of a walk without hidden tips that these tips don't reach, where the two walks
/// are alike, their predicates accept the same ids, and each walk is as `in_order` asks.
pub fn hides<F: Find, P: Predicate>()
    ensures { HidesWhatIsReached F.objects F.faulty P.answers }
{}

/// Once `next` was called, what `hide` is given changes no answer of a walk: it takes the same steps with any hidden tips.
pub fn hides_no_later<F: Find, P: Predicate>()
    ensures { HidesNoLater F.objects F.faulty P.answers }
{}

/// Rows that agree, corrupt ones among them, leave the list of the ids as it is, in every order. The two walks are alike, their
/// predicates accept the same ids, their hidden tips reach the same ids, and each walk is as `in_order` asks.
pub fn rows_agree<F: Find, P: Predicate>()
    ensures { RowsLeaveTheIds F.objects F.faulty P.answers }
{}

/// The generations that are given are the generations of the rows, and none for a commit without a row, up to where a corrupt row
/// drops the rows; from there on none is given. Where the rows agree with the store, either the first answer from there on is the
/// commit with the corrupt row or a fault of it, and pending commits reach it by the parents that are walked, as texts name them; or
/// painting read the corrupt row, and no generation is given at all. It holds of any walk, wherever the caller stops, and whatever
/// faults come.
pub fn tells<F: Find, P: Predicate>()
    ensures { TellsTheGenerations F.objects F.faulty P.answers }
{}

/// A walk that gives its commits in order, as `in_order` says, newest first: if no parent in the store is newer than its child, the
/// times never rise.
pub fn times_fall<F: Find, P: Predicate>()
    ensures { TimesFall F.objects F.faulty P.answers }
{}

/// A walk that was built gives no id twice, whatever its predicate answers, whatever faults come, and wherever the caller stops.
pub fn never_twice<F: Find, P: Predicate>()
    ensures { GivesNeverTwice F.objects F.faulty P.answers }
{}

/// A walk that was built asks about no id twice, whatever faults come and wherever the caller stops, and only about tips and ids that
/// rows and the texts of stored commits name: the predicate's state is a run of its own steps over such ids.
pub fn asks_once<F: Find, P: Predicate>()
    ensures { AsksNeverTwice F.objects F.faulty P.answers }
{}

/// Every walk ends, whatever faults come: however many answers are drawn, there is at most one for each pending commit, and for each
/// id not seen that rows or the texts of stored commits name.
pub fn ends<F: Find, P: Predicate>()
    ensures { Ends F.objects F.faulty P.answers }
{}

/// Over any store, and for any ids, there is a test of which ids these reach by their parents.
pub fn reach_is_decided()
    ensures { ReachIsDecided }
{}

/// There is a list in breadth order, whatever the starts are, where each id names next some of the parents that its commit has in a
/// store.
pub fn some_breadth_order()
    ensures { SomeBreadthOrder }
{}

/// There is then a list in each order by time, too.
pub fn some_time_order()
    ensures { SomeTimeOrder }
{}

/// Whatever the starts are, and whatever each id names next, there is at most one list in breadth order.
pub fn one_breadth_order()
    ensures { OneBreadthOrder }
{}

/// The beginning of a list in breadth order, up to any place, is the first ids of the whole list.
pub fn one_breadth_beginning()
    ensures { OneBreadthBeginning }
{}

/// Newest first or oldest first there is at most one list, whatever the times are.
pub fn one_time_order()
    ensures { OneTimeOrder }
{}

/// The beginning of a list newest first or oldest first, up to any place, is the first ids of the whole list.
pub fn one_time_beginning()
    ensures { OneTimeBeginning }
{}

/// Commits are compared by their ids, then by their parents, then by their generations, and then by their times.
pub fn infos_are_ordered()
    ensures { (a b : InfoRecord) → ⟦<Info as Ord>⟧.cmp a b ≡ info_cmp a b }
{}

/// Rows that agree, corrupt ones among them, change nothing that a walk gives but generations, in every order: with rows as without, it
/// gives the same commits in the same order, each with the same parents and the same time, and no fault. The two walks are alike, their
/// predicates accept the same ids, their hidden tips reach the same ids, and each walk is as `in_order` asks.
pub fn rows_change_generations_alone<F: Find, P: Predicate>()
    ensures { RowsChangeGenerationsAlone F.objects F.faulty P.answers }
{}
