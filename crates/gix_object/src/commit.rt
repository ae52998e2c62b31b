//! The items of a commit: its tree, its parents, its author and committer, and the rest of its bytes.
ghost use Rattle.std.specs.Prelude.{◌≡◌, ◌==◌, ◌+◌, ◌*◌, ◌<◌, ◌≤◌, false, codes, drop, length, min, None, Some, Err, []};
ghost use Rattle.std.specs.Option.{option_map, option_copied};
ghost use Rattle.std.specs.Iterator.{YieldsFirstBy, item_count};
ghost use Rattle.memchr.specs.Find.{IsFirstByte, Nowhere, Passes, is_byte};
ghost use Rattle.gix_object.specs.declared.commit.Place.TheVariants as state;
ghost use Rattle.gix_object.specs.CommitItems.{AtTree, AtEnd, Found, Rest, after_word, line_at, id_line_at, text_line_at, tree_front, author_front, committer_front, parent_front, front, commit_items};
ghost use Rattle.gix_object.specs.CommitText.{behind_last, without_spaces, digits_from, signed_seconds, seconds_of};
ghost use Rattle.gix_object.specs.CommitRefIter.{place_of, commit_items_left, IsTaken, item_shown, first_tree, first_committer, signature_shown, next_parent, behind_parent};

use crate::decode::Error;
use gix_hash::{Kind, ObjectId};
use memchr::{memchr, memrchr};
use std::simd::prelude::*;

/// Who made a change and when.
#[derive(Clone, Copy, PartialEq, Eq, Debug)]
pub struct Signature<'a> {
    /// The bytes between the header's name and the newline, as a name, an address in angle brackets, seconds and an offset.
    /// It may be any bytes.
    pub bytes: &'a [u8],
}

impl Signature<'_> {
    /// The seconds since 1970-01-01 00:00 UTC. They come after the last `>`: spaces, an optional `-` and decimal digits.
    /// 0 where there is no `>`, no digit there, or a number out of the range of 64 bits.
    pub fn seconds(&self) -> i64
        ensures { result ≡ seconds_of self.now.bytes.now }
    {
        match behind_last(self.bytes) {
            Some(rest) => signed_seconds(without_spaces(rest)),
            None => 0,
        }
    }
}

/// A length of the bytes that leaves out no `>`. The last 16 bytes are looked at in one step, as in most lines they are seconds and an
/// offset.
fn angles_end(bytes: &[u8]) -> usize
    ensures within { result ≤ length bytes.now }
    ensures none { Nowhere (Passes (is_byte 62) bytes.now) result (length bytes.now) }
{
    let Some(at) = bytes.len().checked_sub(16) else {
        return bytes.len();
    };
    let angles = u8x16::from_slice(&bytes[at..])
        .simd_eq(u8x16::splat(b'>'))
        .to_bitmask();
    if angles != 0 {
        return bytes.len();
    }
    at
}

/// The bytes behind the last `>`.
fn behind_last(bytes: &[u8]) -> Option<&[u8]>
    ensures { option_copied result ≡ behind_last None bytes.now }
{
    let end = memrchr(b'>', &bytes[..angles_end(bytes)])?;
    Some(&bytes[end + 1..])
}

/// Without the spaces at the front.
fn without_spaces(mut bytes: &[u8]) -> &[u8]
    ensures { result.now ≡ without_spaces bytes.entry.now }
{
    while let [b' ', rest @ ..] = bytes {
        bytes = rest;
    }
    bytes
}

/// Behind the digits of a number one more digit, capped at the greatest of 64 bits.
#[inline(always)]
fn with_digit(number: u64, digit: u8) -> u64
    requires { digit < 10 }
    ensures { result ≡ min (10 * number + digit) u64.MAX }
{
    if number < 1 << 60 {
        return 10 * number + u64::from(digit);
    }
    number.saturating_mul(10).saturating_add(u64::from(digit))
}

/// The number that the digits at the front say, capped at the greatest of 64 bits.
fn number_at(bytes: &[u8]) -> u64
    ensures { result ≡ min (digits_from 0 bytes.now) u64.MAX }
{
    let mut number = 0u64;
    for b in bytes {
        if !b.is_ascii_digit() {
            return number;
        }
        number = with_digit(number, b - b'0');
    }
    number
}

/// An optional `-` and digits, and 0 where they say a number out of the range of 64 bits.
fn signed_seconds(bytes: &[u8]) -> i64
    ensures { result ≡ signed_seconds bytes.now }
{
    match bytes {
        [b'-', digits @ ..] => 0i64.checked_sub_unsigned(number_at(digits)).unwrap_or(0),
        digits => i64::try_from(number_at(digits)).unwrap_or(0),
    }
}

/// One item of a commit. The slices are of the commit's bytes.
#[derive(Clone, Copy, PartialEq, Eq, Debug)]
pub enum Token<'a> {
    /// The id of the commit's tree.
    Tree { id: ObjectId },
    /// The id of a parent. There is one token for each parent line, in their order.
    Parent { id: ObjectId },
    /// The author, without the header's name and the newline.
    Author { line: &'a [u8] },
    /// The committer, without the header's name and the newline.
    Committer { signature: Signature<'a> },
    /// All that follows the committer's line: further headers, an empty line, the message.
    Rest { bytes: &'a [u8] },
}

/// Which item may come next.
#[derive(Clone, Copy, Debug)]
enum Place {
    Tree,
    Parents,
    Committer,
    Rest,
    End,
}

/// The items of a commit's bytes, read one at a time and no further than asked: the tree, the parents, the author, the committer
/// and the rest, in this order. Bytes that end where an item may begin have no further item. A fault is given once, and then
/// nothing. No call takes memory.
#[derive(Clone, Copy, Debug)]
pub struct CommitRefIter<'a> {
    bytes: &'a [u8],
    kind: Kind,
    place: Place,
}

/// What follows a word at the front of the bytes.
#[inline(always)]
fn after_word<'a>(bytes: &'a [u8], word: &[u8]) -> Option<&'a [u8]>
    ensures { option_copied result ≡ after_word word.now bytes.now }
{
    bytes.strip_prefix(word)
}

/// The place of the first newline. The first 64 bytes are looked at in one step, as most lines end there.
fn newline_in(bytes: &[u8]) -> Option<usize>
    ensures { IsFirstByte (is_byte 10) bytes.now result }
{
    if 64 <= bytes.len() {
        let newlines = u8x64::from_slice(bytes)
            .simd_eq(u8x64::splat(b'\n'))
            .to_bitmask();
        if newlines != 0 {
            return Some(newlines.trailing_zeros() as usize);
        }
    }
    memchr(b'\n', bytes)
}

/// The bytes before the first newline, and the bytes behind it.
fn line_at(bytes: &[u8]) -> Option<(&[u8], &[u8])>
    ensures { option_map (λ r. (r.0.now, r.1.now)) result ≡ line_at bytes.now }
{
    let end = newline_in(bytes)?;
    Some((&bytes[..end], &bytes[end + 1..]))
}

/// An id in hex digits and a newline: the id, and the bytes behind them.
#[inline(always)]
fn id_line_at(bytes: &[u8], kind: Kind) -> Option<(ObjectId, &[u8])>
    ensures { option_map (λ r. (r.0, r.1.now)) result ≡ id_line_at kind (Some bytes.now) }
{
    let (digits, rest) = bytes.split_at_checked(kind.len_in_hex())?;
    let id = ObjectId::from_digits(digits, kind)?;
    let rest = rest.strip_prefix(b"\n")?;
    Some((id, rest))
}

impl<'a> CommitRefIter<'a> {
    /// The items of the bytes of a commit, whose ids are of this kind. Any bytes will do: nothing is read yet.
    #[tactic(auto, unfolding(crate::specs::CommitRefIter::commit_items_left))]
    pub fn from_bytes(bytes: &'a [u8], kind: Kind) -> Self
        ensures { commit_items_left result ≡ commit_items kind bytes.now }
    {
        CommitRefIter {
            bytes,
            kind,
            place: Place::Tree,
        }
    }

    /// Takes the next item, and returns the id where it is the tree.
    ///
    /// # Errors
    /// The fault, where the next item is one. `Missing` where no item is left, or the next isn't the tree. The item is taken in each
    /// case.
    pub fn tree_id(&mut self) -> Result<ObjectId, Error>
        ensures value { result ≡ first_tree (commit_items_left self.old) }
        ensures taken { commit_items_left self.new ≡ drop 1 (commit_items_left self.old) }
    {
        match self.next() {
            Some(Ok(Token::Tree { id })) => Ok(id),
            Some(Err(fault)) => Err(fault),
            _ => Err(Error::Missing),
        }
    }

    /// The first committer among the items left.
    ///
    /// # Errors
    /// The first fault, where it comes before a committer, and `Missing` where the items end before both.
    pub fn committer(mut self) -> Result<Signature<'a>, Error>
        ensures { signature_shown result ≡ first_committer (commit_items_left self.entry) }
    {
        while !self.bytes.is_empty() {
            match self.place {
                Place::Tree => {
                    self.take_tree()?;
                }
                Place::Parents => {
                    self.take_parent_or_author()?;
                }
                Place::Committer => {
                    if let Token::Committer { signature } = self.take_committer()? {
                        return Ok(signature);
                    }
                }
                Place::Rest | Place::End => break,
            }
        }
        Err(Error::Missing)
    }

    /// Takes the next parent, with the tree where that comes before it. None where another item comes next, or none: where that is the
    /// author it is taken, and a later one is left.
    ///
    /// # Errors
    /// The fault, where it comes before a parent and any other item but the tree. It is taken.
    #[inline(always)]
    pub fn next_parent(&mut self) -> Result<Option<ObjectId>, Error>
        ensures parent { result ≡ next_parent (commit_items_left self.old) }
        ensures left { commit_items_left self.new ≡ behind_parent (commit_items_left self.old) }
    {
        while !self.bytes.is_empty() {
            match self.place {
                Place::Tree => {
                    self.take_tree()?;
                }
                Place::Parents => {
                    return match self.take_parent_or_author()? {
                        Token::Parent { id } => Ok(Some(id)),
                        _ => Ok(None),
                    };
                }
                Place::Committer => return self.fault_at_committer(),
                Place::Rest | Place::End => break,
            }
        }
        Ok(None)
    }

    /// The fault of the committer's line, if it has one. Then it is taken.
    #[inline(never)]
    fn fault_at_committer(&mut self) -> Result<Option<ObjectId>, Error>
        requires place { self.old.place ≡ state.Committer }
        requires some { false ≡ (length self.old.bytes.now == 0) }
        ensures parent { result ≡ next_parent (commit_items_left self.old) }
        ensures left { commit_items_left self.new ≡ behind_parent (commit_items_left self.old) }
    {
        let mut ahead = *self;
        if let Err(fault) = ahead.take_committer() {
            *self = ahead;
            return Err(fault);
        }
        Ok(None)
    }

    /// Ends at a fault.
    fn end_at(&mut self, why: Error) -> Error
        ensures result { result ≡ why }
        ensures kind { self.new.kind ≡ self.old.kind }
        ensures end { place_of self.new.place ≡ AtEnd }
    {
        self.place = Place::End;
        why
    }

    /// Takes the tree's line.
    #[inline(always)]
    fn take_tree(&mut self) -> Result<Token<'a>, Error>
        ensures { IsTaken self.old (tree_front (id_line_at self.old.kind (after_word (codes "tree ") self.old.bytes.now))) (Some result)
            self.new }
    {
        let Some(digits) = after_word(self.bytes, b"tree ") else {
            return Err(self.end_at(Error::Tree));
        };
        let Some((id, rest)) = id_line_at(digits, self.kind) else {
            return Err(self.end_at(Error::Tree));
        };
        self.bytes = rest;
        self.place = Place::Parents;
        Ok(Token::Tree { id })
    }

    /// Takes a parent's line, or the author's.
    #[inline(always)]
    fn take_parent_or_author(&mut self) -> Result<Token<'a>, Error>
        ensures { IsTaken self.old (parent_front self.old.kind self.old.bytes.now (after_word (codes "parent ") self.old.bytes.now)
            (id_line_at self.old.kind (after_word (codes "parent ") self.old.bytes.now))) (Some result) self.new }
    {
        let Some(digits) = after_word(self.bytes, b"parent ") else {
            return self.take_author();
        };
        let Some((id, rest)) = id_line_at(digits, self.kind) else {
            return Err(self.end_at(Error::Parent));
        };
        self.bytes = rest;
        self.place = Place::Parents;
        Ok(Token::Parent { id })
    }

    /// Takes the author's line.
    #[inline(always)]
    fn take_author(&mut self) -> Result<Token<'a>, Error>
        ensures { IsTaken self.old (author_front (text_line_at (after_word (codes "author ") self.old.bytes.now))) (Some result) self.new }
    {
        let Some(text) = after_word(self.bytes, b"author ") else {
            return Err(self.end_at(Error::Author));
        };
        let Some((line, rest)) = line_at(text) else {
            return Err(self.end_at(Error::Author));
        };
        self.bytes = rest;
        self.place = Place::Committer;
        Ok(Token::Author { line })
    }

    /// Takes the committer's line. Its word is compared in two parts, each of which fits into a register.
    #[inline(always)]
    fn take_committer(&mut self) -> Result<Token<'a>, Error>
        ensures { IsTaken self.old (committer_front (text_line_at (after_word (codes "committer ") self.old.bytes.now))) (Some result)
            self.new }
    {
        let Some(text) = after_word(self.bytes, b"committ") else {
            return Err(self.end_at(Error::Committer));
        };
        let Some(text) = after_word(text, b"er ") else {
            return Err(self.end_at(Error::Committer));
        };
        let Some((line, rest)) = line_at(text) else {
            return Err(self.end_at(Error::Committer));
        };
        self.bytes = rest;
        self.place = Place::Rest;
        let signature = Signature { bytes: line };
        Ok(Token::Committer { signature })
    }

    /// Takes all that is left.
    fn take_rest(&mut self) -> Result<Token<'a>, Error>
        ensures { IsTaken self.old (Found (Rest self.old.bytes.now) AtEnd []) (Some result) self.new }
    {
        let bytes = self.bytes;
        self.bytes = &[];
        self.place = Place::End;
        Ok(Token::Rest { bytes })
    }

    /// Takes what is at the front of the bytes left.
    fn take(&mut self) -> Option<Result<Token<'a>, Error>>
        ensures { IsTaken self.old (front self.old.kind (place_of self.old.place) self.old.bytes.now) result self.new }
    {
        if self.bytes.is_empty() {
            return None;
        }
        match self.place {
            Place::Tree => Some(self.take_tree()),
            Place::Parents => Some(self.take_parent_or_author()),
            Place::Committer => Some(self.take_committer()),
            Place::Rest => Some(self.take_rest()),
            Place::End => None,
        }
    }
}

impl<'a> Iterator for CommitRefIter<'a> {
    type Item = Result<Token<'a>, Error>;

    ghost next_gives = { YieldsFirstBy item_shown commit_items_left };

    ghost remaining = { item_count commit_items_left };

    fn next(&mut self) -> Option<Result<Token<'a>, Error>> {
        self.take()
    }
}
