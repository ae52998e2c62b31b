//! The record at the front of a text.
ghost use Rattle.std.specs.Prelude.{◌≡◌};
ghost use Rattle.std.specs.Option.{option_map};
ghost use Rattle.std.specs.Result.{result_ok};
ghost use Rattle.gix_hash.specs.Id.{id_from_hex};
ghost use Rattle.gix_records.specs.Decimal.{decimal};
ghost use Rattle.gix_records.specs.RecordFront.{split_at_byte, kind_named, front_kind, front_id, ended_at, record_at, front_shown};

use gix_hash::ObjectId;
use gix_object::Kind;
use memchr::memchr;

/// A record at the front of a text, and the text after it.
#[derive(Clone, Copy)]
pub struct Front<'a> {
    /// What the bytes are.
    pub kind: Kind,
    /// The id.
    pub id: ObjectId,
    /// The bytes.
    pub bytes: &'a [u8],
    /// The text after the newline that ends the record.
    pub behind: &'a [u8],
}

/// The record at the front: a kind, a space, an id in hex digits, a space, the length in decimal digits, a newline, as many bytes, a
/// newline.
#[tactic(auto, unfolding(crate::specs::RecordFront::record_at))]
pub fn record_at(text: &[u8]) -> Option<Front<'_>>
    ensures { option_map front_shown result ≡ record_at text.now }
{
    let (kind, rest) = front_kind(text)?;
    let (id, rest) = front_id(rest)?;
    let (digits, rest) = split_at_byte(rest, b'\n')?;
    let len = decimal(digits)?;
    let (bytes, behind) = ended_at(rest, len, b'\n')?;
    Some(Front {
        kind,
        id,
        bytes,
        behind,
    })
}

/// The kind before the first space, and the text after the space. A commit, as most are, needs no search for it.
#[tactic(auto, unfolding(crate::specs::RecordFront::front_kind))]
fn front_kind(text: &[u8]) -> Option<(Kind, &[u8])>
    ensures { option_map (λ r. (r.0, r.1.now)) result ≡ front_kind text.now }
{
    if let [b'c', b'o', b'm', b'm', b'i', b't', b' ', rest @ ..] = text {
        return Some((Kind::Commit, rest));
    }
    let (word, rest) = split_at_byte(text, b' ')?;
    Some((kind_named(word)?, rest))
}

/// The id before the first space, and the text after the space. An id of 40 digits, as most are, needs no search for it.
#[tactic(auto, unfolding(crate::specs::RecordFront::front_id))]
fn front_id(text: &[u8]) -> Option<(ObjectId, &[u8])>
    ensures { option_map (λ r. (r.0, r.1.now)) result ≡ front_id text.now }
{
    if let Some((digits, rest)) = ended_at(text, 40, b' ') {
        if let Some(id) = ObjectId::from_digits(digits, gix_hash::Kind::Sha1) {
            return Some((id, rest));
        }
    }
    let (digits, rest) = split_at_byte(text, b' ')?;
    Some((id_spelled(digits)?, rest))
}

/// The text before the first such byte, and the text after it.
fn split_at_byte(text: &[u8], byte: u8) -> Option<(&[u8], &[u8])>
    ensures { option_map (λ r. (r.0.now, r.1.now)) result ≡ split_at_byte byte text.now }
{
    let end = memchr(byte, text)?;
    Some((&text[..end], &text[end + 1..]))
}

/// The id that 40 or 64 hex digits spell.
fn id_spelled(digits: &[u8]) -> Option<ObjectId>
    ensures { result ≡ result_ok (id_from_hex digits.now) }
{
    match digits.len() {
        40 => ObjectId::from_digits(digits, gix_hash::Kind::Sha1),
        64 => ObjectId::from_digits(digits, gix_hash::Kind::Sha256),
        _ => None,
    }
}

fn kind_named(word: &[u8]) -> Option<Kind>
    ensures { result ≡ kind_named word.now }
{
    if word == b"commit".as_slice() {
        return Some(Kind::Commit);
    }
    if word == b"tree".as_slice() {
        return Some(Kind::Tree);
    }
    if word == b"blob".as_slice() {
        return Some(Kind::Blob);
    }
    if word == b"tag".as_slice() {
        return Some(Kind::Tag);
    }
    None
}

/// The number that 1 to 10 decimal digits spell.
fn decimal(digits: &[u8]) -> Option<usize>
    ensures { result ≡ decimal digits.now }
{
    if digits.is_empty() || digits.len() > 10 {
        return None;
    }
    let mut number = 0;
    for digit in digits {
        if !digit.is_ascii_digit() {
            return None;
        }
        number = 10 * number + usize::from(digit - b'0');
    }
    Some(number)
}

/// So many bytes, if this byte ends them, and the text after it.
fn ended_at(text: &[u8], len: usize, end: u8) -> Option<(&[u8], &[u8])>
    ensures { option_map (λ r. (r.0.now, r.1.now)) result ≡ ended_at end len text.now }
{
    let (bytes, rest) = text.split_at_checked(len)?;
    let (byte, behind) = rest.split_first()?;
    if *byte != end {
        return None;
    }
    Some((bytes, behind))
}
