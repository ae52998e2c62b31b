//! The order of rows by their ids.
ghost use Rattle.std.specs.Prelude.{◌≡◌, ◌≤◌, length, MatchBool, MatchResult, IfOk, IsPermutation};
ghost use Rattle.std.specs.Ordering.{is_lt};
ghost use Rattle.gix_hash.specs.Id.{id_cmp};
ghost use Rattle.gix_commitgraph.specs.Packed.{most};
ghost use Rattle.gix_commitgraph.specs.PackedLayout.{HasLayout};
ghost use Rattle.gix_commitgraph.specs.Renumbering.{rows_seen, entries_from, IsAccepted, Refuses, NeverFall, AlwaysRise, StopsRising, HasPlaces, AreNumbers};

use super::check::Layout;
use super::rows::have_places_within;
use super::{GraphError, Row};
use gix_hash::ObjectId;
use std::alloc::{AllocError, Global};

/// The ids of the rows, each with the row's place.
fn entries(alloc: Global, rows: &[Row]) -> Result<Vec<(ObjectId, u32)>, AllocError>
    requires { length rows.now ≤ most }
    ensures { IfOk result (λ entries. entries.items ≡ entries_from 0 (rows_seen rows.now)) }
{
    let mut entries = Vec::with_capacity(alloc, rows.len())?;
    for (place, row) in rows.iter().enumerate() {
        entries.push((row.id, place as u32))?;
    }
    Ok(entries)
}

/// The ids of the rows, each with the row's place, in the order of the ids.
pub(super) fn sorted_entries(
    alloc: Global,
    rows: &[Row],
) -> Result<Vec<(ObjectId, u32)>, AllocError>
    requires { length rows.now ≤ most }
    ensures same { IfOk result (λ order. IsPermutation (entries_from 0 (rows_seen rows.now)) order.items) }
    ensures sorted { IfOk result (λ order. NeverFall order.items) }
{
    let mut order = entries(alloc, rows)?;
    order.sort()?;
    Ok(order)
}

fn is_less(a: &ObjectId, b: &ObjectId) -> bool
    ensures { result ≡ is_lt (id_cmp a.now b.now) }
{
    a.cmp(b).is_lt()
}

/// Whether each id is above the one before it.
fn always_rise(order: &[(ObjectId, u32)]) -> bool
    ensures { MatchBool result (AlwaysRise order.now) (StopsRising order.now) }
{
    for i in 1..order.len() {
        if !is_less(&order[i - 1].0, &order[i].0) {
            return false;
        }
    }
    true
}

/// The numbers of the entries, by the entries' places.
pub(super) fn numbers(alloc: Global, order: &[(ObjectId, u32)]) -> Result<Vec<u32>, AllocError>
    requires few { length order.now ≤ most }
    requires places { HasPlaces (length order.now) order.now }
    ensures { IfOk result (λ numbers. AreNumbers order.now numbers.items) }
{
    let mut numbers = vec![in alloc; 0u32; order.len()]?;
    for (number, entry) in order.iter().enumerate() {
        numbers[entry.1 as usize] = number as u32;
    }
    Ok(numbers)
}

/// Tests that no id comes twice, and then that all places are in range.
pub(super) fn test(
    layout: Layout,
    rows: &[Row],
    order: &[(ObjectId, u32)],
) -> Result<(), GraphError>
    requires layout { HasLayout (rows_seen rows.now) layout }
    requires same { IsPermutation (entries_from 0 (rows_seen rows.now)) order.now }
    requires sorted { NeverFall order.now }
    ensures { MatchResult result (λ _. AlwaysRise order.now × IsAccepted (rows_seen rows.now)) (Refuses (rows_seen rows.now)) }
{
    if !always_rise(order) {
        return Err(GraphError::DuplicateId);
    }
    if !have_places_within(rows) {
        return Err(GraphError::PositionOutOfRange);
    }
    Ok(())
}
