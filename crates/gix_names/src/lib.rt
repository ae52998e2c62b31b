//! The ids that objects have: hashes of their kinds and bytes.
#![tactic(auto)]

ghost use Rattle.std.specs.Prelude.{◌≡◌, ◌↔◌, IsTrue};
ghost use Rattle.sha1.specs.Sha1.{sha1};
ghost use Rattle.sha2.specs.Sha256.{sha256};
ghost use Rattle.gix_hash.specs.Id.{kind_of};
ghost use Rattle.gix_names.specs.Named.{kind_word, name_text, name_of, IsNamed};

pub mod laws;

use gix_hash::{Kind, ObjectId};
use gix_object as object;
use sha1::Sha1;
use sha2::{Digest, Sha256};

/// The id of this kind that an object has: the hash of the object's kind (`tree`, `blob`, `commit` or `tag`), a space, the number of its
/// bytes in decimal digits, a byte 0, and its bytes. Ids of 20 bytes are by SHA-1, ids of 32 by SHA-256. The bytes are hashed whatever
/// they are: a commit's needn't be those of a commit.
pub fn name_of(kind: Kind, object: object::Kind, bytes: &[u8]) -> ObjectId
    ensures exact { result ≡ name_of kind object bytes.now }
    ensures named { IsNamed result object bytes.now }
    ensures kind { kind_of result ≡ kind }
{
    match kind {
        Kind::Sha1 => ObjectId::Sha1(sha1_of(object, bytes)),
        Kind::Sha256 => ObjectId::Sha256(sha256_of(object, bytes)),
    }
}

/// Whether this is the id of the object. An id of 20 bytes is compared with the object's SHA-1, one of 32 with its SHA-256.
pub fn is_named(id: &ObjectId, object: object::Kind, bytes: &[u8]) -> bool
    ensures { IsTrue result ↔ IsNamed id.now object bytes.now }
{
    *id == name_of(id.kind(), object, bytes)
}

/// The word for a kind of object.
fn kind_word(object: object::Kind) -> &'static [u8]
    ensures { result.now ≡ kind_word object }
{
    match object {
        object::Kind::Tree => b"tree",
        object::Kind::Blob => b"blob",
        object::Kind::Commit => b"commit",
        object::Kind::Tag => b"tag",
    }
}

/// The SHA-1 of an object.
fn sha1_of(object: object::Kind, bytes: &[u8]) -> [u8; 20]
    ensures { result ≡ sha1 (name_text object bytes.now) }
{
    let mut hasher = Sha1::new();
    hasher.update(kind_word(object));
    hasher.update(b" ");
    hasher.update(itoa::Buffer::new().format(bytes.len()).as_bytes());
    hasher.update(b"\0");
    hasher.update(bytes);
    hasher.finalize()
}

/// The SHA-256 of an object.
fn sha256_of(object: object::Kind, bytes: &[u8]) -> [u8; 32]
    ensures { result ≡ sha256 (name_text object bytes.now) }
{
    let space: &[u8] = b" ";
    let zero: &[u8] = b"\0";
    let word = kind_word(object);
    let mut digits = itoa::Buffer::new();
    let mut hasher = Sha256::new();
    hasher.update(word);
    hasher.update(space);
    hasher.update(digits.format(bytes.len()).as_bytes());
    hasher.update(zero);
    hasher.update(bytes);
    hasher.finalize()
}
