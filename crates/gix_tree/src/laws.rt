//! Laws of the walks of trees.
ghost use Rattle.gix_tree.specs.Measure.{WorkLessens};
ghost use Rattle.gix_tree.specs.Laws.{LevelsAreRecorded, DepthIsRecorded, BothRecordTheSame, LevelsAreInOrder, DepthIsInOrder, LevelsBeginInOrder, DepthBeginsInOrder, MetLevelsSucceed, MetDepthSucceeds, SoundLevelsSucceed, SoundDepthSucceeds, LevelsEndAtBreak, DepthEndsAtBreak, OkWithoutBreak};

use crate::Visit;
use gix_object::find::Find;

/// A walk of `breadthfirst` that doesn't fail, so shows all or ends at a `Break`, makes its visits in level order.
pub fn levels_in_order<F: Find, V: Visit>(store: &F, _delegate: &V)
    ensures { LevelsAreInOrder (F.objects store.now) (F.faulty store.now) V.steps }
{}

/// A walk of `depthfirst` that doesn't fail, so shows all or ends at a `Break`, makes its visits in preorder.
pub fn depth_in_order<F: Find, V: Visit>(store: &F, _delegate: &V)
    ensures { DepthIsInOrder (F.objects store.now) (F.faulty store.now) V.steps }
{}

/// Whatever `breadthfirst` answers, its visits are a beginning of level order.
pub fn levels_begin_in_order<F: Find, V: Visit>(store: &F, _delegate: &V)
    ensures { LevelsBeginInOrder (F.objects store.now) (F.faulty store.now) V.steps }
{}

/// Whatever `depthfirst` answers, its visits are a beginning of preorder.
pub fn depth_begins_in_order<F: Find, V: Visit>(store: &F, _delegate: &V)
    ensures { DepthBeginsInOrder (F.objects store.now) (F.faulty store.now) V.steps }
{}

/// A fresh recorder that followed `breadthfirst` holds one record for each visit, with its path, where memory didn't run out and no
/// name that was visited is empty or holds `/`.
pub fn levels_recorded<F: Find>(store: &F)
    ensures { LevelsAreRecorded (F.objects store.now) (F.faulty store.now) }
{}

/// A fresh recorder that followed `depthfirst` holds one record for each visit, with its path, where memory didn't run out and no
/// name that was visited is empty or holds `/`.
pub fn depth_recorded<F: Find>(store: &F)
    ensures { DepthIsRecorded (F.objects store.now) (F.faulty store.now) }
{}

/// Both walks of one stored tree, each with a fresh recorder, record the same entries with the same paths, as often, where both
/// answer `Ok` and no name that was visited is empty or holds `/`.
pub fn both_record_the_same<F: Find>(store: &F)
    ensures { BothRecordTheSame (F.objects store.now) (F.faulty store.now) }
{}

/// `breadthfirst` fails only for memory, where the store didn't fail, what is read of the root is whole, each tree that its visits
/// go into is stored and reads whole, and no tree on the way down to such a tree has its id. Of a walk that a `Break` ends nothing is asked.
pub fn met_levels_succeed<F: Find, V: Visit>(store: &F, _delegate: &V)
    ensures { MetLevelsSucceed (F.objects store.now) (F.faulty store.now) V.steps }
{}

/// `depthfirst` fails only for memory, where the store didn't fail, the root and each tree that its visits go into are stored and
/// read whole, and no tree on the way down to such a tree has its id. Of a walk that a `Break` ends nothing is asked.
pub fn met_depth_succeeds<F: Find, V: Visit>(store: &F, _delegate: &V)
    ensures { MetDepthSucceeds (F.objects store.now) (F.faulty store.now) V.steps }
{}

/// `breadthfirst` fails only for memory, where the store didn't fail, what is read of the root is whole, and all trees that the
/// delegate may go into are stored, read whole and don't hold themselves. Trees that it leaves out may be missing or broken, or hold
/// themselves.
pub fn sound_levels_succeed<F: Find, V: Visit>(store: &F, _delegate: &V)
    ensures { SoundLevelsSucceed (F.objects store.now) (F.faulty store.now) V.steps }
{}

/// `depthfirst` fails only for memory, where the store didn't fail, and the root and all trees that the delegate may go into are
/// stored, read whole and don't hold themselves. Trees that it leaves out may be missing or broken, or hold themselves.
pub fn sound_depth_succeeds<F: Find, V: Visit>(store: &F, _delegate: &V)
    ensures { SoundDepthSucceeds (F.objects store.now) (F.faulty store.now) V.steps }
{}

/// `breadthfirst` ends at the first visit that is answered `Break`, where there is one, with the calls up to it, and answers
/// `Cancelled`.
pub fn levels_end_at_break<F: Find, V: Visit>(store: &F, _delegate: &V)
    ensures { LevelsEndAtBreak (F.objects store.now) (F.faulty store.now) V.steps }
{}

/// `depthfirst` ends at the first visit that is answered `Break`, where there is one, with the calls up to it, and answers `Ok`.
pub fn depth_ends_at_break<F: Find, V: Visit>(store: &F, _delegate: &V)
    ensures { DepthEndsAtBreak (F.objects store.now) (F.faulty store.now) V.steps }
{}

/// Whatever the store holds and whatever a visit is answered, it leaves less work than there was before it, so a walk ends.
pub fn work_lessens<F: Find>(store: &F)
    ensures { WorkLessens (F.objects store.now) }
{}

/// A `breadthfirst` that doesn't fail answers `Ok` where no visit was answered `Break`, and otherwise `Cancelled`.
pub fn ok_without_break<F: Find, V: Visit>(store: &F, _delegate: &V)
    ensures { OkWithoutBreak (F.objects store.now) (F.faulty store.now) V.steps }
{}
