//! The entries of tree objects.
ghost use Rattle.std.specs.Prelude.{◌≡◌, ◌+◌, ◌<◌, ◌==◌, length, drop, position, IfSome};
ghost use Rattle.std.specs.Option.{option_map};
ghost use Rattle.std.specs.Iterator.{item_count};
ghost use Rattle.gix_object.specs.TreeItems.{is_tree, parted, mode_of, mode_at, id_at, tree_items};
ghost use Rattle.gix_object.specs.TreeRefIter.{bytes_left, id_kind, items_left, IsEndOf, ReadsNext};
ghost use Rattle.gix_object.specs.TreeParts.{IsFront};

use crate::decode;
use bstr::BStr;
use gix_hash::{Kind, ObjectId};
use std::simd::prelude::*;

/// The mode of an entry of a tree, as Git writes it in octal digits: the kind of file and its permissions.
#[derive(Clone, Copy, PartialEq, Eq, Debug)]
pub struct EntryMode {
    /// The number that the digits say.
    pub value: u32,
}

impl EntryMode {
    /// Whether the kind of file is a directory, so that the entry's id is that of a tree.
    pub fn is_tree(self) -> bool
        ensures { result ≡ is_tree self.value }
    {
        self.value & 0o170000 == 0o040000
    }
}

/// An entry of a tree, borrowed from the tree's bytes.
#[derive(Clone, Copy, PartialEq, Eq, Debug)]
pub struct EntryRef<'a> {
    /// The kind of file and its permissions.
    pub mode: EntryMode,
    /// The name, which holds no NUL. Nothing else is asked of it: it may be empty or hold a `/`.
    pub filename: BStr<'a>,
    /// The id of what has this name: a blob, a tree, or the commit of a submodule.
    pub oid: ObjectId,
}

/// Reads the entries of a tree object from its bytes, in their order, and takes no memory. The items of any bytes are
/// entries and at most one fault, which is the last.
#[derive(Clone, Copy, Debug)]
pub struct TreeRefIter<'a> {
    rest: &'a [u8],
    kind: Kind,
}

impl<'a> TreeRefIter<'a> {
    /// An iterator over the entries of a tree with these bytes, whose ids are of this kind.
    pub fn from_bytes(bytes: &'a [u8], kind: Kind) -> TreeRefIter<'a>
        ensures items { items_left result ≡ tree_items kind bytes.now }
        ensures bytes { bytes_left result ≡ bytes.now }
        ensures kind { id_kind result ≡ kind }
    {
        TreeRefIter { rest: bytes, kind }
    }

    /// Where the next entry begins in `buf`, as a number of bytes from its front. `buf` must be the bytes that this iterator was
    /// made of, or any other bytes that end with the bytes that are left. An iterator over the bytes of `buf` from there on gives
    /// what this one still would.
    pub fn offset_to_next_entry(&self, buf: &[u8]) -> usize
        requires { IsEndOf (bytes_left self.now) buf.now }
        ensures offset { result + length (bytes_left self.now) ≡ length buf.now }
        ensures rest { drop result buf.now ≡ bytes_left self.now }
    {
        buf.len() - self.rest.len()
    }
}

impl<'a> Iterator for TreeRefIter<'a> {
    type Item = Result<EntryRef<'a>, decode::Error>;

    ghost next_gives = { ReadsNext };

    ghost remaining = { item_count items_left };

    /// The next entry. At bytes that are no entry the fault of the first part that is missing: `EntryMode` for 1 to 6
    /// octal digits and a space, `EntryName` for a name and a NUL, `EntryId` for the bytes of an id. After a fault
    /// nothing is left.
    fn next(&mut self) -> Option<Result<EntryRef<'a>, decode::Error>> {
        if self.rest.is_empty() {
            return None;
        }
        match read_entry(self.rest, self.kind) {
            Ok((entry, rest)) => {
                self.rest = rest;
                Some(Ok(entry))
            }
            Err(error) => {
                self.rest = &[];
                Some(Err(error))
            }
        }
    }
}

/// The entry at the front, and the bytes behind it.
fn read_entry<'a>(bytes: &'a [u8], kind: Kind) -> Result<(EntryRef<'a>, &'a [u8]), decode::Error>
    ensures { IsFront kind bytes.now result }
{
    let Some((mode, rest)) = read_mode(bytes) else {
        return Err(decode::Error::EntryMode);
    };
    let Some((name, rest)) = split_at_byte(rest, 0) else {
        return Err(decode::Error::EntryName);
    };
    let Some((oid, rest)) = read_id(rest, kind) else {
        return Err(decode::Error::EntryId);
    };
    let mode = EntryMode { value: mode };
    let filename = BStr::new(name);
    Ok((
        EntryRef {
            mode,
            filename,
            oid,
        },
        rest,
    ))
}

/// The mode at the front, and the bytes behind its space.
fn read_mode(bytes: &[u8]) -> Option<(u32, &[u8])>
    ensures { option_map (λ p. (p.0, p.1.now)) result ≡ mode_at bytes.now }
{
    // Most entries are of files, and most others of trees.
    if let [b'1', b'0', b'0', b'6', b'4', b'4', b' ', rest @ ..] = bytes {
        return Some((0o100644, rest));
    }
    if let [b'4', b'0', b'0', b'0', b'0', b' ', rest @ ..] = bytes {
        return Some((0o040000, rest));
    }
    let (digits, rest) = split_at_byte(bytes, b' ')?;
    Some((octal_number(digits)?, rest))
}

/// The number that 1 to 6 octal digits say.
fn octal_number(digits: &[u8]) -> Option<u32>
    ensures { result ≡ mode_of digits.now }
{
    if digits.is_empty() || 6 < digits.len() {
        return None;
    }
    let mut number = 0u32;
    for digit in digits {
        match *digit {
            b'0'..=b'7' => number = 8 * number + u32::from(*digit - b'0'),
            _ => return None,
        }
    }
    Some(number)
}

/// The id at the front, and the bytes behind it.
fn read_id(bytes: &[u8], kind: Kind) -> Option<(ObjectId, &[u8])>
    ensures { option_map (λ p. (p.0, p.1.now)) result ≡ id_at kind bytes.now }
{
    let len = kind.len_in_bytes();
    if bytes.len() < len {
        return None;
    }
    Some((ObjectId::from_bytes(&bytes[..len])?, &bytes[len..]))
}

/// The bytes before the first such byte, and the bytes behind it.
fn split_at_byte(bytes: &[u8], byte: u8) -> Option<(&[u8], &[u8])>
    ensures { option_map (λ p. (p.0.now, p.1.now)) result ≡ parted byte bytes.now }
{
    let at = index_of(bytes, byte)?;
    Some((&bytes[..at], &bytes[at + 1..]))
}

/// The place of the first such byte. The first 32 bytes are looked at in one step, as most names end there.
fn index_of(bytes: &[u8], byte: u8) -> Option<usize>
    ensures value { result ≡ position (λ b. b == byte) bytes.now }
    ensures bound { IfSome result (λ at. at < length bytes.now) }
{
    if 32 <= bytes.len() {
        let places = u8x32::from_slice(bytes)
            .simd_eq(u8x32::splat(byte))
            .to_bitmask();
        if places != 0 {
            return Some(places.trailing_zeros() as usize);
        }
    }
    bytes.iter().position(|b| *b == byte)
}
