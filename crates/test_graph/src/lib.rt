//! Tests of rows from git's commit-graph files: read, tested, and put beside a store.
#![tactic(auto)]

#[cfg(test)]
mod checks;
#[cfg(test)]
mod errors;
#[cfg(test)]
mod files;
#[cfg(test)]
mod sizes;
#[cfg(test)]
mod stores;
