//! Hex digits of ids, sixteen at a time.
ghost use Rattle.std.specs.Prelude.{◌≡◌, ◌↔◌, ◌+◌, ◌*◌, ◌≤◌, IsTrue, length};
ghost use Rattle.std.specs.Bool.{OnTrue};
ghost use Rattle.gix_hash.specs.HexDigits.{AreDigits, AreSpelled, decoded};

use std::simd::prelude::*;

/// Whether the sixteen bytes from a place on are hex digits, in either case.
#[inline(always)]
fn are_digits(digits: &[u8], at: usize) -> bool
    requires { at + 16 ≤ length digits.now }
    ensures { IsTrue result ↔ AreDigits digits.now at (at + 16) }
{
    let lanes = u8x16::from_slice(&digits[at..]);
    let decimal = lanes - u8x16::splat(b'0');
    let letter = (lanes | u8x16::splat(0x20)) - u8x16::splat(b'a');
    (decimal.simd_ge(u8x16::splat(10)) & letter.simd_ge(u8x16::splat(6))).to_bitmask() == 0
}

/// The bytes that the sixteen digits from a place on spell.
#[inline(always)]
fn bytes_at(digits: &[u8], at: usize) -> u8x8
    requires room { at + 16 ≤ length digits.now }
    requires digits { AreDigits digits.now at (at + 16) }
    ensures len { length result ≡ 8 }
    ensures bytes { AreSpelled digits.now at result 8 }
{
    let lanes = u8x16::from_slice(&digits[at..]);
    let decimal = lanes - u8x16::splat(b'0');
    let letter = (lanes | u8x16::splat(0x20)) - u8x16::splat(b'a' - 10);
    let values = decimal.simd_lt(u8x16::splat(10)).select(decimal, letter);
    let high = values.swizzle([0, 2, 4, 6, 8, 10, 12, 14]);
    let low = values.swizzle([1, 3, 5, 7, 9, 11, 13, 15]);
    (high << u8x8::splat(4)) + low
}

/// Spells the eight bytes from a place on, behind the bytes that are spelled already.
#[inline(always)]
fn spell(digits: &[u8], bytes: &mut [u8], at: usize) -> bool
    requires digits { 2 * at + 16 ≤ length digits.now }
    requires room { at + 8 ≤ length bytes.old }
    requires before { AreSpelled digits.now 0 bytes.old at }
    ensures are_digits { IsTrue result ↔ AreDigits digits.now (2 * at) (2 * at + 16) }
    ensures len { length bytes.new ≡ length bytes.old }
    ensures spelled { OnTrue result (AreSpelled digits.now 0 bytes.new (at + 8)) }
{
    if !are_digits(digits, 2 * at) {
        return false;
    }
    bytes_at(digits, 2 * at).copy_to_slice(&mut bytes[at..]);
    true
}

/// The N bytes that twice as many digits spell. The last step overlaps the one before where N isn't a multiple of eight.
pub(super) fn spelled<const N: usize>(digits: &[u8]) -> Option<[u8; N]>
    requires enough { 8 ≤ N }
    requires len { length digits.now ≡ 2 * N }
    ensures { result ≡ decoded digits.now }
{
    let mut bytes = [0u8; N];
    let mut at = 0;
    while at < N - 8 {
        if !spell(digits, &mut bytes, at) {
            return None;
        }
        at += 8;
    }
    if !spell(digits, &mut bytes, N - 8) {
        return None;
    }
    Some(bytes)
}
