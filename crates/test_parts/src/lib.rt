//! Tests of the parts under the walks: ids, the ids that objects have, tables, objects, rows, the queue.
#![tactic(auto)]

#[cfg(test)]
mod commit;
#[cfg(test)]
mod graph;
#[cfg(test)]
mod ids;
#[cfg(test)]
mod names;
#[cfg(test)]
mod queue;
#[cfg(test)]
mod rows;
#[cfg(test)]
mod store;
#[cfg(test)]
mod tables;
#[cfg(test)]
mod tree;
