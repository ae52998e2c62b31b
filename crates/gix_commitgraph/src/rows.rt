//! The tests of rows that are handed in.
ghost use Rattle.std.specs.Prelude.{◌≡◌, ◌==◌, ◌+◌, ◌<◌, ◌≤◌, length, map, IsTrue, ◌≢◌, MatchBool, MatchOption, MatchResult};
ghost use Rattle.std.specs.List.{AllByRecursion};
ghost use Rattle.gix_commitgraph.specs.Packed.{most, kind_of_rows, overflow_of, overflow_words, AreBytes, IsIdOf, IsPlaceAmong};
ghost use Rattle.gix_hash.specs.Id.{id_len, kind_of};
ghost use Rattle.gix_commitgraph.specs.PackedLayout.{HasLayout};
ghost use Rattle.gix_commitgraph.specs.Renumbering.{Refuses, row_seen, rows_seen, AreOfKind, IsRowOf, HavePlacesWithin};

use super::check::{Layout, MOST};
use super::{GraphError, ParentPlace, Row};
use gix_hash::{Kind, ObjectId};

/// How many overflow words a row of these parents has.
pub(super) fn overflow_len(parents: &[ParentPlace]) -> usize
    ensures { result ≡ length (overflow_of parents.now) }
{
    match parents {
        [] | [_] | [_, _] => 0,
        _ => parents.len() - 1,
    }
}

/// How many overflow words the rows have, where they are not too many.
pub(super) fn count_words(rows: &[Row]) -> Option<u32>
    ensures { MatchOption result (most < length (overflow_words (rows_seen rows.now)))
        (λ words. (words ≡ length (overflow_words (rows_seen rows.now))) × (words ≤ most)) }
{
    let mut words = 0;
    for row in rows {
        let len = overflow_len(row.parents.as_slice());
        if len > (MOST - words) as usize {
            return None;
        }
        words += len as u32;
    }
    Some(words)
}

/// Whether there are as many bytes as an id of this kind has.
fn has_len_of(bytes: &[u8], kind: Kind) -> bool
    ensures len { result ≡ (length bytes.now == id_len kind) }
    ensures bytes { AreBytes bytes.now }
{
    bytes.len() == kind.len_in_bytes()
}

/// Whether the id is of this kind, which its length says.
fn is_of_kind(id: &ObjectId, kind: Kind) -> bool
    ensures { MatchBool result (IsIdOf kind id.now) (¬ (kind_of id.now ≡ kind)) }
{
    has_len_of(id.as_bytes(), kind)
}

/// Whether the row's id and tree are of this kind.
fn is_row_of_kind(row: &Row, kind: Kind) -> bool
    ensures { MatchBool result (IsRowOf kind (row_seen row.now)) (¬ ((kind_of row.now.id ≡ kind) × (kind_of row.now.tree ≡ kind))) }
{
    is_of_kind(&row.id, kind) && is_of_kind(&row.tree, kind)
}

/// Whether all ids and trees are of this kind.
pub(super) fn are_of_kind(rows: &[Row], kind: Kind) -> bool
    ensures { MatchBool result (AllByRecursion (IsRowOf kind) (rows_seen rows.now)) (¬ AreOfKind kind (rows_seen rows.now)) }
{
    for row in rows {
        if !is_row_of_kind(row, kind) {
            return false;
        }
    }
    true
}

/// Whether a place is a fault or below this number of rows.
fn is_among(place: ParentPlace, count: usize) -> bool
    ensures { MatchBool result (IsPlaceAmong count place) (¬ IsPlaceAmong count place) }
{
    match place {
        ParentPlace::At(number) => (number as usize) < count,
        ParentPlace::Fault => true,
    }
}

/// Whether each place is a fault or below this number of rows.
fn are_among(places: &[ParentPlace], count: usize) -> bool
    ensures { MatchBool result (AllByRecursion (IsPlaceAmong count) places.now) (¬ AllByRecursion (IsPlaceAmong count) places.now) }
{
    for place in places {
        if !is_among(*place, count) {
            return false;
        }
    }
    true
}

/// Whether all places are faults or places of the list.
pub(super) fn have_places_within(rows: &[Row]) -> bool
    ensures { MatchBool result (HavePlacesWithin (rows_seen rows.now)) (¬ HavePlacesWithin (rows_seen rows.now)) }
{
    for row in rows {
        if !are_among(row.parents.as_slice(), rows.len()) {
            return false;
        }
    }
    true
}

/// The kind of the first row's id.
fn kind_of_rows(rows: &[Row]) -> Kind
    ensures { result ≡ kind_of_rows (rows_seen rows.now) }
{
    match rows {
        [] => Kind::Sha1,
        [row, ..] => row.id.kind(),
    }
}

/// What the head of the rows' packed bytes will say, where they are not too many and of one kind.
pub(super) fn layout_of(rows: &[Row]) -> Result<Layout, GraphError>
    ensures { MatchResult result (HasLayout (rows_seen rows.now))
        (λ error. Refuses (rows_seen rows.now) error × (error ≢ GraphError.Memory)) }
{
    if rows.len() > MOST as usize {
        return Err(GraphError::TooMany);
    }
    let Some(words) = count_words(rows) else {
        return Err(GraphError::TooMany);
    };
    let kind = kind_of_rows(rows);
    if !are_of_kind(rows, kind) {
        return Err(GraphError::MixedKinds);
    }
    Ok(Layout {
        kind,
        rows: rows.len() as u32,
        words,
    })
}
