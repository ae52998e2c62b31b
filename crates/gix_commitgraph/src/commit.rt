//! The commits of a commit-graph, read in place.
ghost use Rattle.std.specs.Prelude.{◌≡◌, ◌<◌, length, All, IfOk};
ghost use Rattle.std.proofs.Props.{props};
ghost use Rattle.gix_commitgraph.specs.Parents.{answers_of};
ghost use Rattle.gix_commitgraph.specs.Packed.{IsPlaceAmong-prop};
ghost use Rattle.gix_commitgraph.specs.PackedLayout.{BeginsWithRow};
ghost use Rattle.gix_commitgraph.specs.Rows.{row_at};

use super::parents::Parents;
use super::{Graph, Position, fields};
use gix_hash::ObjectId;

/// A row of a commit-graph.
#[derive(Clone, Copy, Debug)]
pub struct Commit<'a> {
    graph: &'a Graph,
    position: Position,
    /// What begins with the row.
    row: &'a [u8],
    ghost in_range: { position.0 < length graph.now },
    ghost begins: { BeginsWithRow graph.now position.0 row.now } by { Prim.hlevel (props, IsPlaceAmong-prop) },
}

impl<'a> Commit<'a> {
    ghost use Rattle.gix_commitgraph.specs.GraphCommit.{rows_of_commit, row_of_commit};

    /// The commit of a row.
    pub(super) fn new(graph: &'a Graph, position: Position) -> Commit<'a>
        requires { position.0 < length graph.now }
        ensures rows { rows_of_commit result ≡ graph.now }
        ensures row { row_of_commit result ≡ row_at graph.now position.0 }
    {
        Commit {
            graph,
            position,
            row: graph.row(position.0),
        }
    }

    /// The commit's id.
    pub fn id(&self) -> ObjectId
        ensures { result ≡ (row_of_commit self.now).id }
    {
        fields::id_field(self.graph.kind(), self.row)
    }

    /// The id of the commit's tree.
    pub fn root_tree_id(&self) -> ObjectId
        ensures { result ≡ (row_of_commit self.now).tree }
    {
        fields::tree_field(self.graph.kind(), self.row)
    }

    /// The generation that the row says.
    pub fn generation(&self) -> u32
        ensures { result ≡ (row_of_commit self.now).generation }
    {
        fields::generation_field(self.graph.kind(), self.row)
    }

    /// The committer's seconds since 1970-01-01 00:00 UTC.
    pub fn committer_timestamp(&self) -> i64
        ensures { result ≡ (row_of_commit self.now).time }
    {
        fields::time_field(self.graph.kind(), self.row)
    }

    /// The places of the row in order: the positions of the parents, or faults.
    pub fn iter_parents(self) -> Parents<'a>
        ensures places { result ≡ answers_of (row_of_commit self.entry).parents }
        ensures within { All (λ answer. IfOk answer (λ position. position.0 < length (rows_of_commit self.entry))) result }
    {
        let kind = self.graph.kind();
        Parents::new(
            fields::first_field(kind, self.row),
            fields::second_field(kind, self.row),
            self.graph.overflow(),
        )
    }
}
