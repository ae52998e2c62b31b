//! Whether bytes are packed rows.
ghost use Rattle.std.specs.Prelude.{◌≡◌, ℕ, ◌+◌, ◌-◌, ◌*◌, ◌/◌, ◌<◌, ◌≤◌, length, drop, is_some, MatchResult, IsOk, IfSome, Some, None, Err};
ghost use Rattle.std.specs.Option.{option_map};
ghost use Rattle.gix_commitgraph.specs.PackedReading.{words_of, place_of, list_at, long_list_at, parents_at, id_field, row_len, is_sized, is_above, read_packed, rows_in};
ghost use Rattle.gix_commitgraph.specs.Packed.{most};
ghost use Rattle.gix_commitgraph.specs.PackedLayout.{IsLaidOut, IsPackedAs, StepsOver, id_before, rows_left, faults};

use super::{Place, fields};
use gix_hash::Kind;

/// The word of a place that names no row.
pub(super) const FAULT: u32 = 0x7FFF_FFFE;
/// The word where there is no parent.
pub(super) const NO_PARENT: u32 = 0x7FFF_FFFF;
/// What is added to the last word of an overflow list, and to the number of its first word.
pub(super) const FLAG: u32 = 0x8000_0000;
/// The most rows, and the most overflow words.
pub(super) const MOST: u32 = 2_147_483_646;

/// Whether a word is a place among so many rows.
fn is_place(rows: u32, word: u32) -> bool
    ensures { result ≡ is_some (place_of rows word) }
{
    word < rows || word == FAULT
}

/// What follows the overflow list at the front of the words, and None where there is no such list.
fn after_list(rows: u32, words: &[u8]) -> Option<&[u8]>
    ensures { option_map (λ rest. words_of rest.now) result ≡ option_map (λ p. p.1) (list_at rows (words_of words.now)) }
{
    let mut left = words;
    while let [a, b, c, d, rest @ ..] = left {
        let word = u32::from_be_bytes([*a, *b, *c, *d]);
        if word >= FLAG {
            return if is_place(rows, word - FLAG) {
                Some(rest)
            } else {
                None
            };
        }
        if !is_place(rows, word) {
            return None;
        }
        left = rest;
    }
    None
}

/// What follows an overflow list of two places at least.
fn after_long_list(rows: u32, words: &[u8]) -> Option<&[u8]>
    ensures { option_map (λ rest. words_of rest.now) result ≡ option_map (λ p. p.1) (long_list_at rows (words_of words.now)) }
{
    match words {
        [a, b, c, d, ..] if u32::from_be_bytes([*a, *b, *c, *d]) < FLAG => after_list(rows, words),
        _ => None,
    }
}

/// The overflow words that a row leaves, whose parent words these are; the word `next` is the first that is left.
fn after_parents(rows: u32, next: u32, first: u32, second: u32, words: &[u8]) -> Option<&[u8]>
    requires { next < 2147483647 }
    ensures { option_map (λ rest. words_of rest.now) result
        ≡ option_map (λ p. p.1) (parents_at rows next first second (words_of words.now)) }
{
    if first == NO_PARENT {
        return if second == NO_PARENT {
            Some(words)
        } else {
            None
        };
    }
    if !is_place(rows, first) {
        return None;
    }
    if second == NO_PARENT {
        Some(words)
    } else if second < FLAG {
        if is_place(rows, second) {
            Some(words)
        } else {
            None
        }
    } else if second == FLAG + next {
        after_long_list(rows, words)
    } else {
        None
    }
}

/// What the first twelve bytes say, for bytes of the length that they ask for.
#[derive(Clone, Copy, Debug)]
pub(super) struct Layout {
    /// The kind of all ids.
    pub kind: Kind,
    /// How many rows.
    pub rows: u32,
    /// How many overflow words behind them.
    pub words: u32,
}

/// Whether so many bytes hold so many rows and overflow words.
fn is_sized(kind: Kind, rows: u32, words: u32, len: usize) -> bool
    ensures { result ≡ is_sized kind rows words len }
{
    if rows > MOST || words > MOST {
        return false;
    }
    match kind {
        Kind::Sha1 => len == 12 + 60 * rows as usize + 4 * words as usize,
        Kind::Sha256 => len == 12 + 84 * rows as usize + 4 * words as usize && 0 < rows,
    }
}

#[tactic(auto, unfolding(crate::specs::PackedReading::read_packed))]
fn layout_of(bytes: &[u8]) -> Result<Layout, Place>
    ensures { MatchResult result (IsLaidOut bytes.now) (λ place. read_packed bytes.now ≡ Err place) }
{
    if bytes.len() < 12 {
        return Err(Place::Head);
    }
    let kind = if bytes.starts_with(b"GTR1") {
        Kind::Sha1
    } else if bytes.starts_with(b"GTR2") {
        Kind::Sha256
    } else {
        return Err(Place::Head);
    };
    let rows = fields::word_at(bytes, 4);
    let words = fields::word_at(bytes, 8);
    if !is_sized(kind, rows, words, bytes.len()) {
        return Err(Place::Size);
    }
    Ok(Layout { kind, rows, words })
}

/// Whether the id at the front of a row is above the id at the front of the row before it, if there is one.
fn is_above(kind: Kind, before: Option<&[u8]>, row: &[u8]) -> bool
    requires before { IfSome before (λ row. row_len kind ≤ length row.now) }
    requires whole { row_len kind ≤ length row.now }
    ensures { result ≡ is_above (id_before kind before.entry) (id_field kind row.now) }
{
    match before {
        None => true,
        Some(before) => fields::compare_ids(kind, before, row).is_lt(),
    }
}

/// Tests the row `r` at the front of `row`, behind the row at the front of `before`: gives the overflow words that it leaves.
fn check_row<'a>(
    layout: Layout,
    r: u32,
    before: Option<&[u8]>,
    row: &[u8],
    words: &'a [u8],
) -> Result<&'a [u8], Place>
    requires few { layout.words ≤ most }
    requires before { IfSome before (λ row. row_len layout.kind ≤ length row.now) }
    requires whole { row_len layout.kind ≤ length row.now }
    ensures { (left : ℕ) → StepsOver (rows_left layout (left + 1) r (id_before layout.kind before.entry) row.now (words_of words.now))
        (λ rest. rows_left layout left (r + 1) (Some (id_field layout.kind row.now)) (drop (row_len layout.kind) row.now)
        (words_of rest.now))
        result }
{
    if !is_above(layout.kind, before, row) {
        return Err(Place::Order(r));
    }
    let first = fields::first_field(layout.kind, row);
    let second = fields::second_field(layout.kind, row);
    let next = (layout.words as usize).saturating_sub(words.len() / 4) as u32;
    match after_parents(layout.rows, next, first, second, words) {
        Some(rest) => Ok(rest),
        None => Err(Place::Parents(r)),
    }
}

fn check_rows(layout: Layout, rows: &[u8], words: &[u8]) -> Result<(), Place>
    requires few { layout.words ≤ most }
    requires whole { row_len layout.kind * layout.rows ≤ length rows.now }
    ensures { faults result ≡ faults (rows_left layout layout.rows 0 None rows.now (words_of words.now)) }
{
    let mut before = None;
    let mut left = rows;
    let mut words_left = words;
    for r in 0..layout.rows {
        words_left = check_row(layout, r, before, left, words_left)?;
        before = Some(left);
        left = left.split_at(fields::row_len(layout.kind)).1;
    }
    if words_left.len() < 4 {
        Ok(())
    } else {
        Err(Place::Overflow)
    }
}

/// The layout of packed rows, and of other bytes the first place that is not as it should be.
pub(super) fn check(bytes: &[u8]) -> Result<Layout, Place>
    ensures { MatchResult result (λ layout. IsPackedAs bytes.now layout (rows_in (read_packed bytes.now)) × IsOk (read_packed bytes.now))
        (λ place. read_packed bytes.now ≡ Err place) }
{
    let layout = layout_of(bytes)?;
    let rows = bytes.split_at(12).1;
    let words = rows
        .split_at(fields::row_len(layout.kind) * layout.rows as usize)
        .1;
    check_rows(layout, rows, words)?;
    Ok(layout)
}
