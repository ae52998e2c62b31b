//! How the pending tips are read for their times.
ghost use Rattle.std.specs.Prelude.{◌≡◌, ◌≢◌, IfOk, IfErr, OnOk};
ghost use Rattle.gix_simple.specs.declared.Error.TheVariants as error;
ghost use Rattle.gix_revwalk.specs.Commits.{HasTime};
ghost use Rattle.gix_simple.specs.Building.{IsTipFault, FailsAtTip, SortsIn, SortsAll};

use super::step::is_older_than;
use super::{Error, Simple};
use gix_hash::ObjectId;
use gix_object::find::Find;
use gix_revwalk::row::NOWHERE;
use gix_revwalk::{Pending, Predicate};
use std::collections::VecDeque;

impl<F: Find + Drop, P: Predicate + Drop> Simple<F, P> {
    /// The tips are pending again with their times, up to the first that can't be read.
    pub(super) fn sort_tips(
        &mut self,
        mut tips: VecDeque<Pending>,
        limit: Option<i64>,
    ) -> Result<(), Error>
        ensures ok { OnOk result (SortsAll F.objects F.faulty limit self.old tips.items self.new) }
        ensures err { IfErr result (λ e. e ≢ error.Memory → FailsAtTip (F.objects self.old.store) (F.faulty self.old.store) tips.items e) }
    {
        while let Some(tip) = tips.pop_front() {
            match self.sort_in(tip.id, limit) {
                Ok(()) => {}
                Err(error) => return Err(error),
            }
        }
        Ok(())
    }

    /// The tip is pending again with its time, unless it is older than the cutoff.
    fn sort_in(&mut self, id: ObjectId, limit: Option<i64>) -> Result<(), Error>
        ensures { SortsIn F.objects F.faulty limit self.old id result self.new }
    {
        let time = self.tip_time(&id)?;
        let near = NOWHERE;
        if is_older_than(time, limit) {
            self.seen.remove(&id);
            self.remembered.insert(id)?;
        } else {
            self.pending.push(None, Pending { id, time, near })?;
        }
        Ok(())
    }

    fn tip_time(&mut self, id: &ObjectId) -> Result<i64, Error>
        ensures ok { IfOk result (HasTime (F.objects self.old.store) id.now) }
        ensures err { IfErr result (IsTipFault (F.objects self.old.store) (F.faulty self.old.store) id.now) }
        ensures kept { self.new ≡ self.old }
    {
        Ok(self.source.time(id)??)
    }
}
