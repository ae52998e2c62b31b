//! The fields of packed rows, read in place.
ghost use Rattle.std.specs.Prelude.{◌≡◌, ◌+◌, ◌*◌, ◌≤◌, length, take, drop};
ghost use Rattle.std.specs.Int.{w64, from_be_bytes};
ghost use Rattle.std.specs.Cmp.Lexicographic.{slice_cmp};
ghost use Rattle.std.specs.Ordering.{nat_cmp};
ghost use Rattle.gix_hash.specs.Id.{id_len, id_cmp, bytes_of};
ghost use Rattle.gix_commitgraph.specs.PackedReading.{word_at, row_len, id_field, tree_field, first_field, second_field, generation_field, time_field};

use super::check::Layout;
use gix_hash::{Kind, ObjectId};
use std::cmp::Ordering;

/// The number of bytes of a packed row.
pub(super) fn row_len(kind: Kind) -> usize
    ensures { result ≡ row_len kind }
{
    match kind {
        Kind::Sha1 => 60,
        Kind::Sha256 => 84,
    }
}

/// The number of bytes of packed rows.
pub(super) fn packed_len(layout: Layout) -> usize
    ensures { result ≡ 12 + row_len layout.kind * layout.rows + 4 * layout.words }
{
    let words_len = 4 * layout.words as usize;
    match layout.kind {
        Kind::Sha1 => 12 + 60 * layout.rows as usize + words_len,
        Kind::Sha256 => 12 + 84 * layout.rows as usize + words_len,
    }
}

/// What begins with the packed row of a number.
pub(super) fn row(packed: &[u8], kind: Kind, row: u32) -> &[u8]
    requires { 12 + row_len kind * row + row_len kind ≤ length packed.now }
    ensures bytes { result.now ≡ drop (12 + row_len kind * row) packed.now }
    ensures whole { row_len kind ≤ length result.now }
{
    let at = match kind {
        Kind::Sha1 => 12 + 60 * row as usize,
        Kind::Sha256 => 12 + 84 * row as usize,
    };
    packed.split_at(at).1
}

/// The number in the four bytes from `at` on.
pub(super) fn word_at(bytes: &[u8], at: usize) -> u32
    requires { at + 4 ≤ length bytes.now }
    ensures { result ≡ word_at at bytes.now }
{
    let (_, rest) = bytes.split_at(at);
    u32::from_be_bytes([rest[0], rest[1], rest[2], rest[3]])
}

/// The id at the front.
pub(super) fn id_field(kind: Kind, bytes: &[u8]) -> ObjectId
    requires { id_len kind ≤ length bytes.now }
    ensures { result ≡ id_field kind bytes.now }
{
    match kind {
        Kind::Sha1 => {
            let (front, _) = bytes.split_at(20);
            let mut id = [0u8; 20];
            id.copy_from_slice(front);
            ObjectId::Sha1(id)
        }
        Kind::Sha256 => {
            let (front, _) = bytes.split_at(32);
            let mut id = [0u8; 32];
            id.copy_from_slice(front);
            ObjectId::Sha256(id)
        }
    }
}

/// The number in the first four bytes of an id.
pub(super) fn front(id: &ObjectId) -> u32
    ensures { result ≡ word_at 0 (bytes_of id.now) }
{
    match id {
        ObjectId::Sha1(bytes) => word_at(bytes, 0),
        ObjectId::Sha256(bytes) => word_at(bytes, 0),
    }
}

/// The order of bytes.
fn compare_all(a: &[u8], b: &[u8]) -> Ordering
    ensures { result ≡ slice_cmp nat_cmp a.now b.now }
{
    a.cmp(&b)
}

/// The order of bytes, which the first four tell where they differ. Searches call it at each step.
#[inline]
fn compare(a: &[u8], b: &[u8]) -> Ordering
    requires { (4 ≤ length a.now) × (4 ≤ length b.now) }
    ensures { result ≡ slice_cmp nat_cmp a.now b.now }
{
    let (x, y) = (word_at(a, 0), word_at(b, 0));
    if x < y {
        return Ordering::Less;
    }
    if y < x {
        return Ordering::Greater;
    }
    compare_all(a, b)
}

/// The order of the id at the front and another, compared where they are.
pub(super) fn compare_id(kind: Kind, bytes: &[u8], id: &ObjectId) -> Ordering
    requires { id_len kind ≤ length bytes.now }
    ensures { result ≡ id_cmp (id_field kind bytes.now) id.now }
{
    match (kind, id) {
        (Kind::Sha1, ObjectId::Sha1(id)) => compare(bytes.split_at(20).0, id),
        (Kind::Sha1, ObjectId::Sha256(_)) => Ordering::Less,
        (Kind::Sha256, ObjectId::Sha1(_)) => Ordering::Greater,
        (Kind::Sha256, ObjectId::Sha256(id)) => compare(bytes.split_at(32).0, id),
    }
}

/// The order of the ids at two fronts, compared where they are.
pub(super) fn compare_ids(kind: Kind, a: &[u8], b: &[u8]) -> Ordering
    requires { (id_len kind ≤ length a.now) × (id_len kind ≤ length b.now) }
    ensures { result ≡ id_cmp (id_field kind a.now) (id_field kind b.now) }
{
    match kind {
        Kind::Sha1 => compare(a.split_at(20).0, b.split_at(20).0),
        Kind::Sha256 => compare(a.split_at(32).0, b.split_at(32).0),
    }
}

pub(super) fn tree_field(kind: Kind, row: &[u8]) -> ObjectId
    requires { row_len kind ≤ length row.now }
    ensures { result ≡ tree_field kind row.now }
{
    match kind {
        Kind::Sha1 => id_field(kind, &row[20..]),
        Kind::Sha256 => id_field(kind, &row[32..]),
    }
}

pub(super) fn first_field(kind: Kind, row: &[u8]) -> u32
    requires { row_len kind ≤ length row.now }
    ensures { result ≡ first_field kind row.now }
{
    match kind {
        Kind::Sha1 => word_at(row, 40),
        Kind::Sha256 => word_at(row, 64),
    }
}

pub(super) fn second_field(kind: Kind, row: &[u8]) -> u32
    requires { row_len kind ≤ length row.now }
    ensures { result ≡ second_field kind row.now }
{
    match kind {
        Kind::Sha1 => word_at(row, 44),
        Kind::Sha256 => word_at(row, 68),
    }
}

pub(super) fn generation_field(kind: Kind, row: &[u8]) -> u32
    requires { row_len kind ≤ length row.now }
    ensures { result ≡ generation_field kind row.now }
{
    match kind {
        Kind::Sha1 => word_at(row, 48),
        Kind::Sha256 => word_at(row, 72),
    }
}

/// The committer's seconds, as two's complement.
pub(super) fn time_field(kind: Kind, row: &[u8]) -> i64
    requires { row_len kind ≤ length row.now }
    ensures { result ≡ time_field kind row.now }
{
    time_bits(kind, row).cast_signed()
}

fn time_bits(kind: Kind, row: &[u8]) -> u64
    requires { row_len kind ≤ length row.now }
    ensures { result ≡ from_be_bytes w64 (take 8 (drop (2 * id_len kind + 12) row.now)) }
{
    match kind {
        Kind::Sha1 => long_at(row, 52),
        Kind::Sha256 => long_at(row, 76),
    }
}

/// The number in the eight bytes from `at` on.
fn long_at(bytes: &[u8], at: usize) -> u64
    requires { at + 8 ≤ length bytes.now }
    ensures { result ≡ from_be_bytes w64 (take 8 (drop at bytes.now)) }
{
    let (_, rest) = bytes.split_at(at);
    u64::from_be_bytes([
        rest[0], rest[1], rest[2], rest[3], rest[4], rest[5], rest[6], rest[7],
    ])
}
