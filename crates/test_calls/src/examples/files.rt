//! The example of `Visit`.
use bstr::BStr;
use gix_parts::object::tree::EntryRef;
use gix_traverse::tree::visit::{Action, Visit};
use std::alloc::AllocError;
use std::ops::ControlFlow;

/// Counts the files of a tree and of the trees in it, without those in folders of a name.
#[derive(Drop)]
pub struct Files<'a> {
    pub without: &'a [u8],
    pub count: usize,
}

impl Visit for Files<'_> {
    // A relation of what was before a call, the call, and what is after it. This one says nothing.
    ghost steps = { λ _ _ _. Unit {0} };

    fn pop_back_tracked_path_and_set_current(&mut self) {}

    fn pop_front_tracked_path_and_set_current(&mut self) {}

    fn pop_path_component(&mut self) {}

    fn push_back_tracked_path_component(&mut self, _name: &BStr<'_>) -> Result<(), AllocError> {
        Ok(())
    }

    fn push_path_component(&mut self, _name: &BStr<'_>) -> Result<(), AllocError> {
        Ok(())
    }

    fn visit_tree(&mut self, entry: &EntryRef<'_>) -> Result<Action, AllocError> {
        let goes_in = entry.filename.as_bytes() != self.without;
        Ok(ControlFlow::Continue(goes_in))
    }

    fn visit_nontree(&mut self, _entry: &EntryRef<'_>) -> Result<Action, AllocError> {
        self.count = self.count.saturating_add(1);
        Ok(ControlFlow::Continue(true))
    }
}
