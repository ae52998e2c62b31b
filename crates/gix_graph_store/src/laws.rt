//! Laws of a store with rows.

ghost use Rattle.gix_graph_store.specs.Laws.{RowsTell, ToldRowsAgree, ToldIsStored};

/// What a store with the rows of a graph has at an id. What is stored stays, and so does what has no row. Where nothing is stored,
/// there is the commit that the row says: its tree, the ids at its places and its seconds. Where all rows are sound, as
/// `first_unsound` of gix_graph_check tells, each row says one.
pub fn rows_tell()
    ensures { RowsTell }
{}

/// Sound rows agree with a store that has them, where each object that is stored at the id of a row is the commit that the row says, as
/// where none is. So each law of walks with rows applies to a walk over such a store.
pub fn told_rows_agree()
    ensures { ToldRowsAgree }
{}

/// Where sound rows agree with a store, as `check` of gix_graph_check finds, and all records are from that store, the records are as
/// the rows say, and rows and records tell of each commit that has a row or a record what that store has.
pub fn told_is_stored()
    ensures { ToldIsStored }
{}
