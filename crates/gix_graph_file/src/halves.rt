//! The packed bytes of a file that is given up while it is packed: first the upper half of its rows, which is then cut off, and then the
//! lower half. So the file and all packed rows are never in memory at once.
ghost use Rattle.std.specs.Prelude.{◌≡◌, take, IfOk};
ghost use Rattle.gix_graph_file.specs.PackedParts.{seen, IsWhole};
ghost use Rattle.gix_graph_file.specs.Halves.{lower_half, HasLower, lower_end, upper_packed, halves_packed};

use crate::packing::{packed_len, push_edges, push_head, push_rows};
use crate::table::{Layout, commits_len, ids_len};
use gix_hash::Kind;
use std::alloc::{AllocError, Global};

/// The least bytes of a block that the C library never keeps when it is given back: 32 MiB, and what it adds to a block.
const HANDED_BACK: usize = (32 << 20) + (1 << 14);

/// The lower half of the rows of a file, which is left to pack.
#[derive(Clone, Copy)]
pub(super) struct LowerHalf {
    pub kind: Kind,
    /// How many rows the file has.
    pub rows: u32,
    /// How many words of parents the file has.
    pub words: u32,
    /// How many of the rows are in the lower half.
    pub count: u32,
    /// Where the ids begin in the file.
    pub ids_at: usize,
    /// Where the commits begin in the file.
    pub commits_at: usize,
}

/// The lower half of these rows.
pub(super) fn lower_of(layout: Layout<'_>) -> LowerHalf
    requires { IsWhole (seen layout) }
    ensures { result ≡ lower_half layout.entry }
{
    LowerHalf {
        kind: layout.kind,
        rows: layout.rows,
        words: (layout.edges.len() / 4) as u32,
        count: layout.rows / 2,
        ids_at: layout.ids_at,
        commits_at: layout.commits_at,
    }
}

/// The packed bytes of the upper half of the rows, and of all words.
#[tactic(auto, unfolding(crate::specs::Halves::upper_packed))]
pub(super) fn upper_of(alloc: Global, layout: Layout<'_>) -> Result<Vec<u8>, AllocError>
    requires { IsWhole (seen layout) }
    ensures { IfOk result (λ bytes. bytes.items ≡ upper_packed (seen layout.entry)) }
{
    let Layout { kind, rows, .. } = layout;
    let below = rows / 2;
    let above = rows - below;
    let words = (layout.edges.len() / 4) as u32;
    let (_, ids) = layout.ids.split_at(ids_len(kind, below));
    let (_, commits) = layout.commits.split_at(commits_len(kind, below));
    let mut out = Vec::with_capacity(alloc, packed_len(kind, above, words))?;
    push_rows(&mut out, kind, rows, above, ids, commits)?;
    push_edges(&mut out, rows, layout.edges)?;
    Ok(out)
}

/// Cuts off what is behind the lower half of the rows. The memory of what is cut off is given back.
fn cut(file: &mut Vec<u8>, lower: LowerHalf)
    requires { HasLower file.old.items lower }
    ensures { file.new.items ≡ take (lower_end lower) file.old.items }
{
    let ids_end = lower.ids_at + ids_len(lower.kind, lower.count);
    let commits_end = lower.commits_at + commits_len(lower.kind, lower.count);
    file.truncate(ids_end.max(commits_end));
    file.shrink_to_fit();
}

/// The packed bytes of a file, of whose rows the upper half and the words are packed.
pub(super) fn packed_of_halves(
    alloc: Global,
    lower: LowerHalf,
    mut file: Vec<u8>,
    upper: Vec<u8>,
) -> Result<Vec<u8>, AllocError>
    requires { HasLower file.items lower }
    ensures { IfOk result (λ bytes. bytes.items ≡ halves_packed lower file.items upper.items) }
{
    cut(&mut file, lower);
    let LowerHalf {
        kind,
        rows,
        words,
        ..
    } = lower;
    let mut out = Vec::with_capacity(alloc, packed_len(kind, rows, words))?;
    push_head(&mut out, kind, rows, words)?;
    let (_, ids) = file.as_slice().split_at(lower.ids_at);
    let (_, commits) = file.as_slice().split_at(lower.commits_at);
    push_rows(&mut out, kind, rows, lower.count, ids, commits)?;
    hand_back(file);
    out.extend_from_slice(upper.as_slice())?;
    hand_back(upper);
    Ok(out)
}

/// Hands a block back to the system. The C library would keep this block and from then on all that aren't larger, with holes between them,
/// so it is made larger than those that are kept. None of its new pages is touched.
pub(super) fn hand_back(mut bytes: Vec<u8>) {
    let _ = bytes.reserve(HANDED_BACK);
}
