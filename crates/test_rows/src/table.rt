//! Tables of walks: a row has a walk, and the text that it is to tell.
use crate::history::By;
use crate::words::Stop;
use std::alloc::Global;

/// A table of walks.
pub trait Table {
    /// A walk, and what it is to tell.
    type Case;

    /// The rows, and how their walks read commits. In each way they tell the same.
    fn rows(&self) -> (&[Self::Case], &[By]);

    /// What the walk of a case is to tell.
    fn want<'c>(case: &'c Self::Case) -> &'c str;

    /// What the walk of a case tells, which reads commits in this way.
    fn tell(&self, alloc: Global, by: By, case: &Self::Case, told: &mut String) -> Result<(), Stop>;
}
