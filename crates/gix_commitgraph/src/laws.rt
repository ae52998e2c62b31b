//! What follows from the definitions alone.

ghost use Rattle.gix_commitgraph.specs.PackedLaws.{SpellingsAreRead, SpellingsDiffer};

/// Packed rows of a commit-graph are read again: `Graph::from_packed` accepts what `Graph::new` packs, and it means the same rows.
pub fn spellings_are_read()
    ensures { SpellingsAreRead }
{}

/// A commit-graph has one spelling, and no other has it.
pub fn spellings_differ()
    ensures { SpellingsDiffer }
{}
