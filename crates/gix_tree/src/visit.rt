//! The delegates of walks of trees.
ghost use Rattle.std.specs.Prelude.{MatchResult};
ghost use Rattle.bstr.specs.BStr.{bstr_bytes};
ghost use Rattle.gix_object.specs.TreeItems.{is_tree};
ghost use Rattle.gix_object.specs.TreeRefIter.{entry_of};
ghost use Rattle.gix_tree.specs.Delegate.{Call, PushPath, PopPath, PushBack, PopBack, PopFront, VisitTree, VisitNontree, Refused};
ghost use Rattle.gix_tree.specs.Visits.{visit_call_of};

use bstr::BStr;
use gix_object::tree::EntryRef;
use std::alloc::AllocError;
use std::ops::ControlFlow;

/// What a delegate answers to a visit: `Break` ends the walk, `Continue(true)` goes into the entry's tree, and
/// `Continue(false)` goes on with the next entry. Where the entry is no tree, the walk goes on with the next at either.
pub type Action = ControlFlow<(), bool>;

/// Watches a walk of trees. By the calls below a walk shows it each entry, and the names that lead there.
///
/// A delegate that follows the names keeps a path, and a queue of the paths of trees that the walk has yet to enter.
///
/// # Errors
/// A call that answers `AllocError` ends the walk with `Memory`. The delegate gets no further call.
///
/// # Examples
///
/// ```rust
/// /// Counts the files of a tree and of the trees in it, without those in folders of a name.
/// #[derive(Drop)]
/// pub struct Files<'a> {
///     pub without: &'a [u8],
///     pub count: usize,
/// }
///
/// impl Visit for Files<'_> {
///     // A relation of what was before a call, the call, and what is after it. This one says nothing.
///     ghost steps = { λ _ _ _. Unit {0} };
///
///     fn pop_back_tracked_path_and_set_current(&mut self) {}
///
///     fn pop_front_tracked_path_and_set_current(&mut self) {}
///
///     fn pop_path_component(&mut self) {}
///
///     fn push_back_tracked_path_component(&mut self, _name: &BStr<'_>) -> Result<(), AllocError> {
///         Ok(())
///     }
///
///     fn push_path_component(&mut self, _name: &BStr<'_>) -> Result<(), AllocError> {
///         Ok(())
///     }
///
///     fn visit_tree(&mut self, entry: &EntryRef<'_>) -> Result<Action, AllocError> {
///         let goes_in = entry.filename.as_bytes() != self.without;
///         Ok(ControlFlow::Continue(goes_in))
///     }
///
///     fn visit_nontree(&mut self, _entry: &EntryRef<'_>) -> Result<Action, AllocError> {
///         self.count = self.count.saturating_add(1);
///         Ok(ControlFlow::Continue(true))
///     }
/// }
/// ```
pub trait Visit {
    /// What a call may leave of the delegate. Where nothing is to be proved of it, `ghost steps = { λ _ _ _. Unit {0} };` is enough.
    ghost steps: { Self → Call → Self → Type 0 };

    /// Makes the path that was queued last the current one.
    fn pop_back_tracked_path_and_set_current(&mut self)
        ensures { steps self.old PopBack self.new };

    /// Makes the path that was queued first the current one.
    fn pop_front_tracked_path_and_set_current(&mut self)
        ensures { steps self.old PopFront self.new };

    /// Takes the last name off the path.
    fn pop_path_component(&mut self)
        ensures { steps self.old PopPath self.new };

    /// Puts a name at the end of the path, and queues the path.
    fn push_back_tracked_path_component(&mut self, component: &BStr<'_>) -> Result<(), AllocError>
        ensures { MatchResult result (λ _. steps self.old (PushBack (bstr_bytes component.now)) self.new)
            (λ _. steps self.old Refused self.new) };

    /// Puts a name at the end of the path.
    fn push_path_component(&mut self, component: &BStr<'_>) -> Result<(), AllocError>
        ensures { MatchResult result (λ _. steps self.old (PushPath (bstr_bytes component.now)) self.new)
            (λ _. steps self.old Refused self.new) };

    /// Sees the entry of a tree. The current path is the entry's.
    fn visit_tree(&mut self, entry: &EntryRef<'_>) -> Result<Action, AllocError>
        ensures { MatchResult result (λ a. steps self.old (VisitTree (entry_of entry.now) a) self.new)
            (λ _. steps self.old Refused self.new) };

    /// Sees any other entry. The current path is the entry's.
    fn visit_nontree(&mut self, entry: &EntryRef<'_>) -> Result<Action, AllocError>
        ensures { MatchResult result (λ a. steps self.old (VisitNontree (entry_of entry.now) a) self.new)
            (λ _. steps self.old Refused self.new) };
}

/// Shows the entry by the call for what it is.
pub(crate) fn see<V: Visit>(delegate: &mut V, entry: &EntryRef<'_>) -> Result<Action, AllocError>
    ensures { MatchResult result (λ a. V.steps delegate.old (visit_call_of (is_tree entry.now.mode.value) (entry_of entry.now) a)
        delegate.new)
        (λ _. V.steps delegate.old Refused delegate.new) }
{
    if entry.mode.is_tree() {
        delegate.visit_tree(entry)
    } else {
        delegate.visit_nontree(entry)
    }
}
