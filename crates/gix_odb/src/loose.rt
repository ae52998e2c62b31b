//! Loose objects.
ghost use Rattle.std.specs.Prelude.{◌≡◌, ◌+◌, ◌≤◌, ◌<◌, length, IfSome};

use crate::fault::Damage;
use crate::work::{MOST_OBJECT, Work, most_of};
use gix_hash::ObjectId;
use gix_inflate::{inflate, inflate_front};
use gix_object::Kind;
use std::alloc::{AllocError, Global};

/// How many bytes the head of an object has at the most, with the byte 0 that ends it.
const MOST_HEAD: usize = 32;

const DIGITS: &[u8; 16] = b"0123456789abcdef";

/// The head of a loose object.
#[derive(Clone, Copy)]
struct Head {
    /// What the object is.
    kind: Kind,
    /// How many bytes it has.
    size: u64,
    /// How many bytes the head has.
    len: usize,
}

/// The path of an object's file in a folder of objects.
pub(crate) fn path_of(alloc: Global, folder: &str, id: &ObjectId) -> Result<String, AllocError> {
    let mut path = String::from_str(alloc, folder)?;
    path.push('/')?;
    let mut is_first = true;
    for byte in id.as_bytes() {
        path.push(DIGITS[(*byte / 16) as usize] as char)?;
        path.push(DIGITS[(*byte % 16) as usize] as char)?;
        if is_first {
            path.push('/')?;
            is_first = false;
        }
    }
    Ok(path)
}

/// Puts the object whose file is in `work.stream` into `work.out`, and returns its kind.
pub(crate) fn read_file(work: &mut Work) -> Result<Kind, Damage> {
    let mut front = [0u8; MOST_HEAD];
    let count = match inflate_front(&mut work.inflater, work.stream.as_slice(), &mut front) {
        Ok(count) => count,
        Err(fault) => return Err(Damage::LooseStream(fault)),
    };
    let Some(head) = head_of(front.get(..count).unwrap_or_default()) else {
        return Err(Damage::LooseHead);
    };
    if head.size > MOST_OBJECT || head.size > most_of(work.stream.len() as u64) {
        return Err(Damage::LooseTooLarge(head.size));
    }
    let all = head.len.saturating_add(head.size as usize);
    work.spend(all)?;
    let room = work.room.first(all)?;
    match inflate(&mut work.inflater, work.stream.as_slice(), room) {
        Ok(taken) => {
            if taken != work.stream.len() {
                return Err(Damage::LooseBehind);
            }
        }
        Err(fault) => return Err(Damage::LooseStream(fault)),
    }
    work.out.clear();
    work.out
        .extend_from_slice(room.get(head.len..).unwrap_or_default())?;
    Ok(head.kind)
}

/// The head at the front of what a loose object's stream holds: a kind, a space, a size in decimal digits, a byte 0.
fn head_of(front: &[u8]) -> Option<Head> {
    let (kind, digits) = kind_of(front)?;
    if let [b'0', b'0'..=b'9', ..] = digits {
        return None;
    }
    let mut size = 0u64;
    let mut rest = digits;
    for _ in 0..MOST_HEAD {
        match rest {
            [digit @ b'0'..=b'9', behind @ ..] => {
                size = size.checked_mul(10)?.checked_add((*digit - b'0') as u64)?;
                rest = behind;
            }
            [0, behind @ ..] => {
                if rest.len() == digits.len() {
                    return None;
                }
                let len = front.len().saturating_sub(behind.len());
                return Some(Head { kind, size, len });
            }
            _ => return None,
        }
    }
    None
}

/// The kind that a head begins with, and what is behind the space.
fn kind_of(front: &[u8]) -> Option<(Kind, &[u8])> {
    match front {
        [b'c', b'o', b'm', b'm', b'i', b't', b' ', rest @ ..] => Some((Kind::Commit, rest)),
        [b't', b'r', b'e', b'e', b' ', rest @ ..] => Some((Kind::Tree, rest)),
        [b'b', b'l', b'o', b'b', b' ', rest @ ..] => Some((Kind::Blob, rest)),
        [b't', b'a', b'g', b' ', rest @ ..] => Some((Kind::Tag, rest)),
        _ => None,
    }
}
