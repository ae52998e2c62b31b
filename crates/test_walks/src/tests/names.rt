//! Each name by which users reach the libraries, once more: where one is lost, this doesn't check.
pub mod graph {
    pub use gix_parts::graph::{
        Commit, GENERATION_NUMBER_INFINITY, Graph, GraphError, ParentFault, ParentPlace,
        ParentPlaces, Parents, Place, Position, Row,
    };
}

pub mod hash {
    pub use gix_parts::hash::{HexError, Keys, Kind, ObjectId};
}

pub mod hashtable {
    pub use gix_parts::hashtable::{IdMap, IdSet};
}

pub mod object {
    pub use gix_parts::object::{Data, Kind};
}

pub mod commit_items {
    pub use gix_parts::object::commit::{CommitRefIter, Signature, Token};
}

pub mod decode {
    pub use gix_parts::object::decode::Error;
}

pub mod find {
    pub use gix_parts::object::find::{Error, Find};
}

pub mod existing_iter {
    pub use gix_parts::object::find::existing_iter::Error;
}

pub mod memory {
    pub use gix_parts::object::memory::{MemoryStore, Stored};
}

pub mod tree_entries {
    pub use gix_parts::object::tree::{EntryMode, EntryRef, TreeRefIter};
}

pub mod queue {
    pub use gix_parts::queue::{IterUnordered, PriorityQueue};
}

pub mod records {
    pub use gix_parts::records::{Error, READS, read, read_to_end, records_in, records_of};
}

pub mod laws_of_parts {
    pub use gix_parts::laws::{faults_end, reads_texts, spellings_are_read, spellings_differ};
}

pub mod commit {
    pub use gix_traverse::commit::{
        Either, Filter, Info, ParentIds, Parents, Predicate, Simple, Topo, Unfiltered, find,
    };
}

pub mod contained {
    pub use gix_traverse::commit::contained::{Error, contained};
}

pub mod simple {
    pub use gix_traverse::commit::simple::{CommitTimeOrder, Error, Hidden, Simple, Sorting};
}

pub mod topo {
    pub use gix_traverse::commit::topo::{Builder, Error, Sorting, Topo};
}

pub mod tree {
    pub use gix_traverse::tree::{Recorder, Visit};
}

pub mod breadthfirst {
    pub use gix_traverse::tree::breadthfirst::{Error, State, breadthfirst};
}

pub mod depthfirst {
    pub use gix_traverse::tree::depthfirst::{Error, State, depthfirst};
}

pub mod recorder {
    pub use gix_traverse::tree::recorder::{Entry, Location, Recorder};
}

pub mod visit {
    pub use gix_traverse::tree::visit::{Action, Visit};
}

pub mod laws_of_contained {
    pub use gix_traverse::laws::contained::{contains_exactly, rows_agree, succeeds};
}

pub mod laws_of_simple {
    pub use gix_traverse::laws::simple::{
        are_alike, asks_once, begins_in_order, begins_once, breadth_order, difference, each_once,
        ends, faultless, faultless_begins, faultless_difference, gives_breadth_first, hides,
        hides_no_later, in_order, infos_are_ordered, is_built, is_made, never_twice,
        one_breadth_beginning, one_breadth_order, one_time_beginning, one_time_order,
        reach_is_decided, rows_agree, some_breadth_order, some_time_order, tells, time_order,
        times_fall,
    };
}

pub mod laws_of_topo {
    pub use gix_traverse::laws::topo::{
        asks_once, begins_in_order, begins_once, children_first, counts, difference, each_once,
        ends, fails_once, faultless, faultless_begins, faultless_difference, faultless_once,
        in_order, never_twice, one_date_beginning, one_date_order, one_topo_beginning,
        one_topo_order, parents_known, rows_agree, rows_agree_on_ids, some_date_order,
        some_topo_order, stays_ended, tells,
    };
}

pub mod laws_of_tree {
    pub use gix_traverse::laws::tree::{
        both_record_the_same, depth_begins_in_order, depth_ends_at_break, depth_in_order,
        depth_recorded, levels_begin_in_order, levels_end_at_break, levels_in_order,
        levels_recorded, met_depth_succeeds, met_levels_succeed, ok_without_break,
        sound_depth_succeeds, sound_levels_succeed, work_lessens,
    };
}
