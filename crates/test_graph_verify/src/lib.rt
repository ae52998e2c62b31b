//! Commit-graph files that git wrote, compared with their commits.
#![tactic(auto)]

#[cfg(test)]
mod commits;
