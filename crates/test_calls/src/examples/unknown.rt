//! The example of `Predicate`.
ghost use Rattle.std.specs.Prelude.{◌≡◌, not};
ghost use Rattle.std.specs.FinSet as set;

use gix_parts::hash::ObjectId;
use gix_parts::hashtable::IdSet;
use gix_traverse::commit::Predicate;

/// Accepts the commits that aren't known, and stays as it is.
#[derive(Drop)]
pub struct Unknown {
    pub known: IdSet,
}

impl Predicate for Unknown {
    ghost answers = { λ old id answer new. (answer ≡ not (set.contains old.known id)) × (new ≡ old) };

    fn accepts(&mut self, id: &ObjectId) -> bool {
        !self.known.contains(id)
    }
}
