//! The heads of a pack's entries.
ghost use Rattle.std.specs.Prelude.{◌≡◌, ◌+◌, ◌≤◌, ◌<◌, length, IfSome, IfOk};
ghost use Rattle.gix_pack.specs.Entry.{IsBefore};

use gix_hash::ObjectId;
use gix_object::Kind;
use thiserror::Error;

/// What the stream of an entry holds.
#[derive(Clone, Copy, PartialEq, Eq, Debug)]
pub enum Base {
    /// An object of this kind.
    Whole(Kind),
    /// A delta of the object whose entry begins this many bytes from the front of the pack.
    Offset(u64),
    /// A delta of the object of this id.
    Id(ObjectId),
}

/// The head of an entry.
#[derive(Clone, Copy, PartialEq, Eq, Debug)]
pub struct Entry {
    /// What the entry's stream holds.
    pub base: Base,
    /// How many bytes the entry's stream holds, as the head says.
    pub size: u64,
    /// How many bytes the head has: the stream is behind them.
    pub head: usize,
}

/// Why bytes are no head of an entry.
#[derive(Clone, Copy, PartialEq, Eq, Debug, Error)]
pub enum EntryFault {
    /// They end within the head.
    #[error("an entry that is cut")]
    Truncated,
    /// The size doesn't fit into 64 bits.
    #[error("an entry with a size above 64 bits")]
    Size,
    /// The entry is of the kind 0 or 5.
    #[error("an entry of the unknown kind {0}")]
    EntryKind(u8),
    /// The entry of the base would be this one, or begin before the first.
    #[error("an entry whose base is no entry before it")]
    Offset,
}

/// The head of the entry that begins `at` bytes from the front of a pack whose ids are of this kind, of the bytes from there on.
///
/// # Errors
///
/// The first fault of [`EntryFault`] that is met.
pub fn entry_at(kind: gix_hash::Kind, at: u64, bytes: &[u8]) -> Result<Entry, EntryFault>
    ensures head { IfOk result (λ entry. entry.head ≤ length bytes.now) }
    ensures base { IfOk result (λ entry. IsBefore at entry.base) }
{
    let mut rest = bytes;
    let (number, size) = take_kind_and_size(&mut rest)?;
    let base = match number {
        1 => Base::Whole(Kind::Commit),
        2 => Base::Whole(Kind::Tree),
        3 => Base::Whole(Kind::Blob),
        4 => Base::Whole(Kind::Tag),
        6 => Base::Offset(take_offset(at, &mut rest)?),
        7 => Base::Id(take_id(kind, &mut rest)?),
        number => return Err(EntryFault::EntryKind(number)),
    };
    let head = bytes.len().saturating_sub(rest.len());
    Ok(Entry { base, size, head })
}

/// Takes the number of a kind and a size from the front: of the first byte three and four bits, then seven bits a byte, the lowest first.
fn take_kind_and_size(rest: &mut &[u8]) -> Result<(u8, u64), EntryFault> {
    let [first, behind @ ..] = *rest else {
        return Err(EntryFault::Truncated);
    };
    *rest = behind;
    let number = *first / 16 % 8;
    let mut size = *first as u64 % 16;
    let mut goes_on = *first >= 128;
    for i in 0..9u32 {
        if !goes_on {
            return Ok((number, size));
        }
        let [byte, behind @ ..] = *rest else {
            return Err(EntryFault::Truncated);
        };
        *rest = behind;
        if i == 8 && *byte >= 16 {
            return Err(EntryFault::Size);
        }
        size = size | ((*byte as u64 % 128) << (7 * i + 4));
        goes_on = *byte >= 128;
    }
    if goes_on {
        return Err(EntryFault::Size);
    }
    Ok((number, size))
}

/// Takes from the front how far before `at` a base begins, and returns where that is.
fn take_offset(at: u64, rest: &mut &[u8]) -> Result<u64, EntryFault>
    ensures { IfOk result (λ base. base < at) }
{
    let mut back = 0u64;
    for i in 0..10u32 {
        let [byte, behind @ ..] = *rest else {
            return Err(EntryFault::Truncated);
        };
        *rest = behind;
        if i > 0 {
            back = back.saturating_add(1).saturating_mul(128);
        }
        back = back | (*byte as u64 % 128);
        if *byte < 128 {
            if back == 0 || back > at || at - back < crate::HEAD as u64 {
                return Err(EntryFault::Offset);
            }
            return Ok(at - back);
        }
    }
    Err(EntryFault::Offset)
}

/// Takes an id from the front.
fn take_id(kind: gix_hash::Kind, rest: &mut &[u8]) -> Result<ObjectId, EntryFault> {
    let Some((id, behind)) = rest.split_at_checked(kind.len_in_bytes()) else {
        return Err(EntryFault::Truncated);
    };
    *rest = behind;
    ObjectId::from_bytes(id).ok_or(EntryFault::Truncated)
}
