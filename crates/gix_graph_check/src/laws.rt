//! Laws of rows.

ghost use Rattle.gix_graph_check.specs.HeadsReach.{HeadsReach};

/// The heads of a graph reach each of its rows by the parents that rows name, where all rows are sound, as `first_unsound` tells. So who
/// hides what the heads reach hides every commit that has a row.
pub fn heads_reach()
    ensures { HeadsReach }
{}
