//! What follows from the page alone, as laws: functions that do nothing, and whose contracts are proved.

ghost use Rattle.gix_history_cut.specs.Cut.{CutCarries};

/// If the parents of some commits aren't known, what is right of the history as far as it is known is right of all of it, if no commit that
/// is listed, counted or asked about is one that those may reach.
pub fn cut_carries()
    ensures { CutCarries }
{}
