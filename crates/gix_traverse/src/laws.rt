//! What whole walks keep, as laws over their definitions: functions that do nothing, and whose contracts are proved.
pub use gix_ahead::laws as ahead;
pub use gix_contained::laws as contained;
pub use gix_containing::laws as containing;
pub use gix_merge_base::laws as merge_base;
pub use gix_simple::laws as simple;
pub use gix_topo::laws as topo;
pub use gix_tree::laws as tree;
