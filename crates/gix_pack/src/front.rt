//! The hex digits that ids begin with.
ghost use Rattle.std.specs.Prelude.{◌≡◌, ◌+◌, ◌≤◌, ◌<◌, length, IfSome};

use gix_hash::ObjectId;
use std::cmp::Ordering;

/// The hex digits that some ids begin with, from 2 to 64.
#[derive(Clone, Copy, Debug)]
pub struct Front {
    /// Two digits a byte, and zeros behind the last.
    bytes: [u8; 32],
    /// How many digits there are.
    digits: usize,
}

impl Front {
    /// These digits, in either case. None where there are fewer than 2 or more than 64, or one of the bytes is no hex digit.
    pub fn new(digits: &[u8]) -> Option<Front> {
        if digits.len() < 2 || digits.len() > 64 {
            return None;
        }
        let mut bytes = [0u8; 32];
        let mut rest = digits;
        for byte in bytes.iter_mut() {
            match rest {
                [] => break,
                [high] => {
                    *byte = byte_of(*high, b'0')?;
                    break;
                }
                [high, low, behind @ ..] => {
                    *byte = byte_of(*high, *low)?;
                    rest = behind;
                }
            }
        }
        Some(Front {
            bytes,
            digits: digits.len(),
        })
    }

    /// The byte that the first two digits spell.
    pub fn first_byte(&self) -> u8 {
        self.bytes[0]
    }

    /// Whether an id begins with the digits.
    pub fn begins(&self, id: &ObjectId) -> bool {
        self.digits <= id.kind().len_in_hex() && self.compare(id.as_bytes()) == Ordering::Equal
    }

    /// How the digits compare with as many of the bytes of an id: `Equal` where the id begins with them.
    pub fn compare(&self, id: &[u8]) -> Ordering {
        for i in 0..32usize {
            let Some(byte) = id.get(i) else {
                break;
            };
            if 2 * i >= self.digits {
                break;
            }
            let byte = if 2 * i + 1 < self.digits {
                *byte
            } else {
                *byte / 16 * 16
            };
            match self.bytes[i].cmp(&byte) {
                Ordering::Equal => {}
                order => return order,
            }
        }
        Ordering::Equal
    }
}

/// The byte that two hex digits spell, in either case.
fn byte_of(high: u8, low: u8) -> Option<u8> {
    Some(value_of(high)? % 16 * 16 + value_of(low)? % 16)
}

/// The number that a hex digit spells, in either case.
fn value_of(digit: u8) -> Option<u8> {
    match digit {
        b'0'..=b'9' => Some(digit - b'0'),
        b'a'..=b'f' => Some(digit - b'a' + 10),
        b'A'..=b'F' => Some(digit - b'A' + 10),
        _ => None,
    }
}
