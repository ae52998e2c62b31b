//! Tests of words and texts: the small text files of a repository, the words that name revisions, the program's arguments, and certificates.
#![tactic(auto)]

#[cfg(test)]
mod arguments;
#[cfg(test)]
mod certificates;
#[cfg(test)]
mod refs;
#[cfg(test)]
mod revisions;
