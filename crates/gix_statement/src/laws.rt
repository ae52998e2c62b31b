//! What follows from the pages alone, as laws: functions that do nothing, and whose contracts are proved.

ghost use Rattle.gix_statement.specs.WholeStatement.{Carries, HaveHistory, OneAnswer};

/// A history exists for whatever objects and rows agree, so nothing is promised of no history at all.
pub fn have_history()
    ensures { HaveHistory }
{}

/// What a run answers rightly of the objects that it read is right of all objects that have these, with a commit-graph or without, unless
/// two different objects have one id.
pub fn carries()
    ensures { Carries }
{}

/// One answer is right. Of two runs over the same words, each over something that one history has, those that end well write the same, and
/// one that fails writes a beginning of it.
pub fn one_answer()
    ensures { OneAnswer }
{}
