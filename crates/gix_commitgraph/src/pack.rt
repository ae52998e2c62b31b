//! Rows written as packed bytes.
ghost use Rattle.std.specs.Prelude.{◌≡◌, ℕ, ◌+◌, ◌≤◌, ◌++◌, length, map, slice_index, OnOk, IfOk, IsPermutation};
ghost use Rattle.std.specs.Int.{w32, to_be_bytes};
ghost use Rattle.std.specs.List.{AllByRecursion, flat_map};
ghost use Rattle.gix_commitgraph.specs.Packed.{most, place_word, first_word, second_word, overflow_of, row_bytes, rows_bytes, overflow_words, layout_name, kind_of_rows, spelling, IsPlaceAmong};
ghost use Rattle.gix_commitgraph.specs.PackedLayout.{IsHeadOf, HasLayout, PacksSame};
ghost use Rattle.gix_commitgraph.specs.Renumbering.{row_seen, rows_seen, moved, renumbered, arranged, CanArrange, IsInRange, IsAccepted, AlwaysRise, entries_from};

use super::check::{FAULT, FLAG, Layout, NO_PARENT};
use super::order::numbers;
use super::rows::overflow_len;
use super::{ParentPlace, Row, fields};
use gix_hash::{Kind, ObjectId};
use std::alloc::{AllocError, Global};

fn push_word(out: &mut Vec<u8>, word: u32) -> Result<(), AllocError>
    ensures { OnOk result (out.new.items ≡ out.old.items ++ to_be_bytes w32 word) }
{
    out.extend_from_slice(&word.to_be_bytes())
}

/// The word of a place, by the new numbers of the rows.
fn place_word(place: ParentPlace, numbers: &[u32]) -> u32
    requires { IsPlaceAmong (length numbers.now) place }
    ensures { result ≡ place_word (moved (slice_index numbers.now) place) }
{
    match place {
        ParentPlace::At(place) => numbers[place as usize],
        ParentPlace::Fault => FAULT,
    }
}

fn first_word(parents: &[ParentPlace], numbers: &[u32]) -> u32
    requires { AllByRecursion (IsPlaceAmong (length numbers.now)) parents.now }
    ensures { result ≡ first_word (map (moved (slice_index numbers.now)) parents.now) }
{
    match parents {
        [] => NO_PARENT,
        [first, ..] => place_word(*first, numbers),
    }
}

/// The second parent word of a row whose overflow list, if it has one, begins at the word `next`.
fn second_word(parents: &[ParentPlace], next: u32, numbers: &[u32]) -> u32
    requires places { AllByRecursion (IsPlaceAmong (length numbers.now)) parents.now }
    requires few { next ≤ most }
    ensures { result ≡ second_word next (map (moved (slice_index numbers.now)) parents.now) }
{
    match parents {
        [] | [_] => NO_PARENT,
        [_, second] => place_word(*second, numbers),
        _ => FLAG + next,
    }
}

/// Writes a row.
fn push_row(out: &mut Vec<u8>, row: &Row, next: u32, numbers: &[u32]) -> Result<(), AllocError>
    requires places { AllByRecursion (IsPlaceAmong (length numbers.now)) row.now.parents.items }
    requires few { next ≤ most }
    ensures bytes { OnOk result (out.new.items ≡ out.old.items
        ++ row_bytes next (renumbered (slice_index numbers.now) (row_seen row.now))) }
    ensures range { IsInRange (row_seen row.now) }
{
    let first = first_word(row.parents.as_slice(), numbers);
    let second = second_word(row.parents.as_slice(), next, numbers);
    let time = row.time;
    let generation = row.generation;
    out.extend_from_slice(row.id.as_bytes())?;
    out.extend_from_slice(row.tree.as_bytes())?;
    push_word(out, first)?;
    push_word(out, second)?;
    push_word(out, generation)?;
    out.extend_from_slice(&time.to_be_bytes())?;
    Ok(())
}

/// Writes the overflow list of a row.
fn push_list(out: &mut Vec<u8>, parents: &[ParentPlace], numbers: &[u32]) -> Result<(), AllocError>
    requires places { AllByRecursion (IsPlaceAmong (length numbers.now)) parents.now }
    requires small { (place : ℕ) → slice_index numbers.now place ≤ most }
    ensures { OnOk result (out.new.items ≡ out.old.items
        ++ flat_map (to_be_bytes w32) (overflow_of (map (moved (slice_index numbers.now)) parents.now))) }
{
    if parents.len() < 3 {
        return Ok(());
    }
    let mut left = parents.split_at(1).1;
    while let [place, rest @ ..] = left {
        let word = place_word(*place, numbers);
        push_word(out, if rest.is_empty() { FLAG + word } else { word })?;
        left = rest;
    }
    Ok(())
}

/// Writes the rows in this order.
fn push_rows(
    out: &mut Vec<u8>,
    rows: &[Row],
    order: &[(ObjectId, u32)],
    numbers: &[u32],
) -> Result<(), AllocError>
    requires { CanArrange (rows_seen rows.now) order.now numbers.now }
    ensures bytes { OnOk result (out.new.items ≡ out.old.items ++ rows_bytes 0 (arranged (rows_seen rows.now) order.now numbers.now)) }
    ensures range { OnOk result (AllByRecursion IsInRange (arranged (rows_seen rows.now) order.now numbers.now)) }
{
    let mut next = 0;
    for (_, place) in order {
        let row = &rows[*place as usize];
        push_row(out, row, next, numbers)?;
        next += overflow_len(row.parents.as_slice()) as u32;
    }
    Ok(())
}

/// Writes the overflow lists of the rows in this order.
fn push_lists(
    out: &mut Vec<u8>,
    rows: &[Row],
    order: &[(ObjectId, u32)],
    numbers: &[u32],
) -> Result<(), AllocError>
    requires { CanArrange (rows_seen rows.now) order.now numbers.now }
    ensures { OnOk result (out.new.items ≡ out.old.items
        ++ flat_map (to_be_bytes w32) (overflow_words (arranged (rows_seen rows.now) order.now numbers.now))) }
{
    for (_, place) in order {
        let row = &rows[*place as usize];
        push_list(out, row.parents.as_slice(), numbers)?;
    }
    Ok(())
}

/// Writes the head, which is before the rows.
fn push_head(out: &mut Vec<u8>, kind: Kind, rows: u32, words: u32) -> Result<(), AllocError>
    ensures { OnOk result (out.new.items ≡ out.old.items ++ (layout_name kind ++ (to_be_bytes w32 rows ++ to_be_bytes w32 words))) }
{
    let name = match kind {
        Kind::Sha1 => b"GTR1",
        Kind::Sha256 => b"GTR2",
    };
    out.extend_from_slice(name)?;
    push_word(out, rows)?;
    push_word(out, words)
}

/// The packed bytes of the rows in this order.
fn pack(
    alloc: Global,
    layout: Layout,
    rows: &[Row],
    order: &[(ObjectId, u32)],
    numbers: &[u32],
) -> Result<Vec<u8>, AllocError>
    requires arranged { CanArrange (rows_seen rows.now) order.now numbers.now }
    requires head { IsHeadOf layout (arranged (rows_seen rows.now) order.now numbers.now) }
    ensures bytes { IfOk result (λ bytes. bytes.items ≡ spelling (arranged (rows_seen rows.now) order.now numbers.now)) }
    ensures range { OnOk result (AllByRecursion IsInRange (arranged (rows_seen rows.now) order.now numbers.now)) }
{
    let mut out = Vec::with_capacity(alloc, fields::packed_len(layout))?;
    push_head(&mut out, layout.kind, layout.rows, layout.words)?;
    push_rows(&mut out, rows, order, numbers)?;
    push_lists(&mut out, rows, order, numbers)?;
    Ok(out)
}

/// The packed bytes of rows in the rising order of their ids.
pub(super) fn pack_rows(
    alloc: Global,
    layout: Layout,
    rows: &[Row],
    order: &[(ObjectId, u32)],
) -> Result<Vec<u8>, AllocError>
    requires layout { HasLayout (rows_seen rows.now) layout }
    requires accepted { IsAccepted (rows_seen rows.now) }
    requires same { IsPermutation (entries_from 0 (rows_seen rows.now)) order.now }
    requires rising { AlwaysRise order.now }
    ensures { IfOk result (λ bytes. PacksSame (rows_seen rows.now) layout bytes.items) }
{
    let numbers = numbers(alloc, order)?;
    let packed = pack(alloc, layout, rows, order, numbers.as_slice())?;
    Ok(packed)
}
