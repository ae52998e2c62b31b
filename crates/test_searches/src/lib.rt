//! Tests of searches. What is wanted of a history without a cycle is what git prints of the same history: `git for-each-ref --contains`, with a
//! ref at each tip, for which commits contain another, and `git merge-base --all` for the best common ancestors.
#![tactic(auto)]

#[cfg(test)]
mod bases;
#[cfg(test)]
mod calls;
#[cfg(test)]
mod containing;
