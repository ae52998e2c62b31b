//! How a walk hides what its hidden tips reach.
ghost use Rattle.std.specs.Prelude.{◌≡◌, ◌≢◌, ◌==◌, ◌||◌, [], true, filter, length, not, if◌then◌else◌, IfOk, IfErr};
ghost use Rattle.std.specs.FinSet as set;
ghost use Rattle.gix_object.specs.declared.find.existing_iter.Error.TheVariants as existing;
ghost use Rattle.gix_paint.specs.declared.Hidden.TheVariants as hidden_by;
ghost use Rattle.gix_paint.specs.Painting.{Paints, IsHiddenFault};
ghost use Rattle.gix_simple.specs.Inside.Steps.{Hides, concealed, unpainted};
ghost use Rattle.gix_simple.specs.Walk.{FirstStep};
ghost use Rattle.gix_revwalk.specs.Ids.{ids_of};

use super::{Error, Simple};
use gix_object::find::Find;
use gix_paint::{Hidden, HiddenIds, Painting, paint};
use gix_revwalk::{Info, Pending, Predicate};
use std::alloc::{AllocError, Global};
use std::collections::VecDeque;

/// The tips that aren't hidden.
fn visible(
    alloc: Global,
    mut tips: VecDeque<Pending>,
    hidden: &HiddenIds,
) -> Result<VecDeque<Pending>, AllocError>
    ensures { IfOk result (λ shown. shown.items ≡ filter (λ tip. not (set.contains hidden.now tip.id)) tips.items) }
{
    let mut shown = VecDeque::new(alloc);
    while let Some(tip) = tips.pop_front() {
        if !hidden.contains(&tip.id) {
            shown.push_back(tip)?;
        }
    }
    Ok(shown)
}

impl<F: Find + Drop, P: Predicate + Drop> Simple<F, P> {
    /// The first step: what is hidden is painted first.
    #[cold]
    #[inline(never)]
    pub(super) fn first_step(&mut self) -> Option<Result<Info, Error>>
        requires { P.can_accept self.old.predicate }
        ensures steps { FirstStep F.objects F.faulty P.answers (record self.old { begun = true }) result self.new }
        ensures asks { P.can_accept self.new.predicate }
    {
        self.begun = true;
        if let Err(error) = self.hide_painted() {
            return Some(Err(error));
        }
        self.step()
    }

    /// Paints what the hidden tips reach, and takes the pending commits among it out. Without pending commits or hidden tips
    /// there is nothing to do.
    fn hide_painted(&mut self) -> Result<(), Error>
        ensures hides { Hides F.objects F.faulty P.answers self.old result self.new }
        ensures asks { self.new.predicate ≡ self.old.predicate }
    {
        if self.has_nothing_to_hide() {
            self.hidden_tips.clear();
            return Ok(());
        }
        let tips = match self.take_tips() {
            Ok(tips) => tips,
            Err(_) => return Err(self.give_up(Error::Memory)),
        };
        let painting = match self.painted(&tips) {
            Ok(painting) => painting,
            Err(why) => return Err(self.give_up(Error::from(why))),
        };
        match self.visible(tips, &painting.hidden) {
            Ok(shown) => {
                self.conceal(shown, painting);
                Ok(())
            }
            Err(_) => Err(self.give_up(Error::Memory)),
        }
    }

    fn painted(&self, tips: &VecDeque<Pending>) -> Result<Painting, Hidden>
        ensures ok { IfOk result (λ p. Paints (F.objects self.now.store) self.now.rows (ids_of tips.now.items) self.now.hidden_tips p.hidden
            (if p.rows_in_use then self.now.rows else [])) }
        ensures fault { IfErr result (λ why. why ≢ hidden_by.Find existing.Memory
            → IsHiddenFault (F.objects self.now.store) (F.faulty self.now.store) self.now.rows
            (ids_of tips.now.items) self.now.hidden_tips why) }
    {
        paint(
            self.source.alloc,
            &self.source.objects,
            self.graph(),
            tips,
            self.hidden_tips.as_slice(),
        )
    }

    /// The pending commits, none of which stays.
    fn take_tips(&mut self) -> Result<VecDeque<Pending>, AllocError>
        ensures tips { IfOk result (λ tips. tips.items ≡ self.old.pending) }
        ensures left { self.new ≡ record self.old { pending = [] } }
    {
        self.pending.take_list()
    }

    fn visible(
        &self,
        tips: VecDeque<Pending>,
        hidden: &HiddenIds,
    ) -> Result<VecDeque<Pending>, AllocError>
        ensures { IfOk result (λ shown. shown.items ≡ filter (λ tip. not (set.contains hidden.now tip.id)) tips.items) }
    {
        visible(self.source.alloc, tips, hidden)
    }

    fn has_nothing_to_hide(&self) -> bool
        ensures { result ≡ (length self.now.pending == 0 || length self.now.hidden_tips == 0) }
    {
        self.pending.is_empty() || self.hidden_tips.is_empty()
    }

    fn give_up(&mut self, error: Error) -> Error
        ensures same { result ≡ error }
        ensures left { self.new ≡ unpainted self.old }
    {
        self.text.clear();
        self.hidden_tips.clear();
        self.pending.clear();
        error
    }

    fn conceal(&mut self, shown: VecDeque<Pending>, painting: Painting)
        ensures { self.new ≡ concealed self.old shown.items painting }
    {
        self.pending.set_list(shown);
        self.hidden = painting.hidden;
        self.hidden_tips.clear();
        if !painting.rows_in_use {
            self.source.in_use = false;
        }
    }
}
