//! A store that has a commit for each row of a commit-graph beside its own objects.
#![tactic(auto)]

ghost use Rattle.std.specs.Prelude.{◌≡◌};
ghost use Rattle.gix_revwalk.specs.Agreeing.{rows_in};
ghost use Rattle.gix_graph_store.specs.WithRows.{with_rows, objects_with};

pub mod laws;
mod stored;
mod text;

use gix_commitgraph::Graph;
use gix_hash::{Keys, ObjectId};
use gix_object::Kind;
use gix_object::find::{Error, Find};
pub use stored::{agree_at, check_stored};

/// A store that has a commit for each row beside its own objects. Where the store has no object of a row's id, there is a text written
/// from the row: its tree, its parents and the committer's seconds. A row with a corrupt place has no text.
#[derive(Drop)]
pub struct WithRows<'a, F> {
    store: F,
    graph: Option<&'a Graph>,
}

impl<'a, F: Find> WithRows<'a, F> {
    /// The store with these rows, if there are any. No memory is taken. The graph is lent, and may be used by others meanwhile.
    pub fn new(store: F, graph: Option<&'a Graph>) -> WithRows<'a, F>
        ensures { objects_with F.objects result ≡ with_rows (rows_in graph.entry) (F.objects store) }
    {
        WithRows { store, graph }
    }
}

impl<F: Find> Find for WithRows<'_, F> {
    ghost objects = { objects_with F.objects };

    ghost faulty = { λ s. F.faulty s.store };

    #[inline(always)]
    fn find_into(&self, id: &ObjectId, buf: &mut Vec<u8>) -> Result<Option<Kind>, Error> {
        if let Some(kind) = self.store.find_into(id, buf)? {
            return Ok(Some(kind));
        }
        match text::write(self.graph, id, buf) {
            Ok(true) => Ok(Some(Kind::Commit)),
            Ok(false) => Ok(None),
            Err(_) => Err(Error::Memory),
        }
    }

    fn keys(&self) -> Keys {
        self.store.keys()
    }
}
