//! Ids of objects, of 20 bytes (SHA-1) or 32 (SHA-256), and sets and maps of them.
#![tactic(auto)]

ghost use Rattle.std.specs.Prelude.{◌≡◌, ◌+◌, ◌*◌, ◌≤◌, length, Some};
ghost use Rattle.gix_hash.specs.Id.{id_len, word_at};

use std::alloc::Global;
use std::default::MadeWith;
use std::hash::{Hash, Hasher};
use std::{fmt, str};
use thiserror::Error;

mod digits;
pub mod hashtable;
mod keys;

pub use keys::{Keys, Mixed};

/// The kind of an id, which decides its length.
#[derive(Clone, Copy, PartialEq, Eq, PartialOrd, Ord, Hash, Debug)]
pub enum Kind {
    /// SHA-1: ids of 20 bytes.
    Sha1,
    /// SHA-256: ids of 32 bytes.
    Sha256,
}

impl Kind {
    /// The number of bytes of an id of this kind.
    pub fn len_in_bytes(self) -> usize
        ensures { result ≡ id_len self }
    {
        match self {
            Kind::Sha1 => 20,
            Kind::Sha256 => 32,
        }
    }

    /// The number of hex digits that an id of this kind is written in.
    pub fn len_in_hex(self) -> usize
        ensures { result ≡ 2 * id_len self }
    {
        match self {
            Kind::Sha1 => 40,
            Kind::Sha256 => 64,
        }
    }
}

/// The id of an object. Ids are ordered by kind and then by their bytes, and print as hex digits in lower case. Nothing asks that an id
/// is the hash of its object.
#[derive(Clone, Copy, PartialEq, Eq, PartialOrd, Ord, Debug)]
pub enum ObjectId {
    /// The bytes of a SHA-1 id, in the order in which they are written.
    Sha1([u8; 20]),
    /// The bytes of a SHA-256 id, in the order in which they are written.
    Sha256([u8; 32]),
}

/// Why a text is no id.
#[derive(Clone, Copy, PartialEq, Eq, Debug, Error)]
pub enum HexError {
    /// It has neither 40 nor 64 characters.
    #[error("an id has 40 or 64 hex digits")]
    Length,
    /// Its length is right, but one of its characters is no hex digit.
    #[error("a character of an id is no hex digit")]
    Digit,
}

impl ObjectId {
    ghost use Rattle.gix_hash.specs.Id.{kind_of, bytes_of, id_from_bytes, id_from_hex, id_of_hex, is_same};

    /// Reads an id of 40 or 64 hex digits, in either case.
    ///
    /// # Errors
    ///
    /// `Length` where there are neither 40 nor 64 bytes, and otherwise `Digit` where one of them is no hex digit.
    pub fn from_hex(hex: &[u8]) -> Result<ObjectId, HexError>
        ensures { result ≡ id_from_hex hex.now }
    {
        match hex.len() {
            40 => match <[u8; 20] as hex::FromHex>::from_hex(hex) {
                Ok(bytes) => Ok(ObjectId::Sha1(bytes)),
                Err(_) => Err(HexError::Digit),
            },
            64 => match <[u8; 32] as hex::FromHex>::from_hex(hex) {
                Ok(bytes) => Ok(ObjectId::Sha256(bytes)),
                Err(_) => Err(HexError::Digit),
            },
            _ => Err(HexError::Length),
        }
    }

    /// The id of this kind that hex digits in either case spell, and None where they spell none. Reads what `from_hex` reads of
    /// the kind's length, sixteen digits at a time.
    #[inline(always)]
    pub fn from_digits(digits: &[u8], kind: Kind) -> Option<ObjectId>
        ensures { result ≡ id_of_hex kind digits.now }
    {
        if digits.len() != kind.len_in_hex() {
            return None;
        }
        match kind {
            Kind::Sha1 => Some(ObjectId::Sha1(digits::spelled(digits)?)),
            Kind::Sha256 => Some(ObjectId::Sha256(digits::spelled(digits)?)),
        }
    }

    /// The id of these 20 or 32 bytes, and None where there are more or fewer.
    pub fn from_bytes(bytes: &[u8]) -> Option<ObjectId>
        ensures { result ≡ id_from_bytes bytes.now }
    {
        if let Ok(bytes) = <[u8; 20]>::try_from(bytes) {
            return Some(ObjectId::Sha1(bytes));
        }
        if let Ok(bytes) = <[u8; 32]>::try_from(bytes) {
            return Some(ObjectId::Sha256(bytes));
        }
        None
    }

    /// The bytes, 20 or 32 of them.
    pub fn as_bytes(&self) -> &[u8]
        ensures value { result.now ≡ bytes_of self.now }
        ensures len { length result.now ≡ id_len (kind_of self.now) }
    {
        match self {
            ObjectId::Sha1(bytes) => bytes,
            ObjectId::Sha256(bytes) => bytes,
        }
    }

    /// Whether the id has 20 bytes or 32.
    pub fn kind(&self) -> Kind
        ensures { result ≡ kind_of self.now }
    {
        match self {
            ObjectId::Sha1(_) => Kind::Sha1,
            ObjectId::Sha256(_) => Kind::Sha256,
        }
    }
}

/// An id is hashed by all its bytes.
impl Hash for ObjectId {
    ghost use Rattle.std.specs.Prelude.{◌∷◌, []};
    ghost use Rattle.std.specs.Cmp.Rules.{hashing};
    ghost use Rattle.std.proofs.Common.{rules};
    ghost use Rattle.gix_hash.specs.Id.{bytes_of};

    ghost hash_input = { λ i. bytes_of i ∷ [] };

    ghost respects_eq = { Prim.search (hashing, rules) };

    #[inline(always)]
    fn hash<H: Hasher>(&self, state: &mut H) {
        match self {
            ObjectId::Sha1(bytes) => state.write(bytes),
            ObjectId::Sha256(bytes) => state.write(bytes),
        }
    }
}

/// The eight bytes from a place on as a number, the lowest first.
#[inline(always)]
fn word_at(bytes: &[u8], at: usize) -> u64
    requires { at + 8 ≤ length bytes.now }
    ensures { result ≡ word_at bytes.now at }
{
    u64::from_le_bytes([
        bytes[at],
        bytes[at + 1],
        bytes[at + 2],
        bytes[at + 3],
        bytes[at + 4],
        bytes[at + 5],
        bytes[at + 6],
        bytes[at + 7],
    ])
}

/// The id of 20 zero bytes, which fills the unused places of a small vector.
impl MadeWith<Global> for ObjectId {
    ghost use Rattle.std.specs.Prelude.{◌≡◌, replicate};
    ghost use Rattle.gix_hash.specs.declared.ObjectId.TheVariants.{Sha1};

    ghost is_made_with = { λ i. i ≡ Sha1 (replicate 20 0) };

    fn made_with(_alloc: Global) -> ObjectId {
        ObjectId::Sha1([0; 20])
    }
}

impl fmt::Display for ObjectId {
    ghost use Rattle.std.specs.Prelude.{Some};
    ghost use Rattle.gix_hash.specs.Id.{hex_of};

    ghost output = { λ i. Some (hex_of i) };

    fn fmt<W: fmt::Write>(&self, f: &mut fmt::Formatter<W>) -> fmt::Result {
        let mut digits = [0u8; 64];
        let digits = &mut digits[..self.kind().len_in_hex()];
        let Ok(()) = hex::encode_to_slice(self.as_bytes(), &mut *digits) else {
            unreachable!();
        };
        let Ok(text) = str::from_utf8(digits) else {
            unreachable!();
        };
        f.write_str(text)
    }
}
