//! SHA-256 of bytes.
ghost use Rattle.std.specs.Prelude.{◌≡◌, option_map};
ghost use Rattle.std.specs.Result.{result_ok};
ghost use Rattle.sha2.specs.Sha256.{sha256};
ghost use Rattle.hex.specs.Hex.{decode_sized};

use gix_hash::ObjectId;
use sha2::{Digest as Hasher, Sha256};
use std::fmt;

/// The SHA-256 of some bytes. It prints as 64 hex digits in lower case, as an id of 32 bytes.
#[derive(Clone, Copy, PartialEq, Eq, Debug)]
pub struct Digest {
    /// Its bytes, in the order in which they are written.
    pub bytes: [u8; 32],
}

impl Digest {
    /// The digest of these bytes.
    pub fn of(bytes: &[u8]) -> Digest
        ensures { result.bytes ≡ sha256 bytes.now }
    {
        Digest {
            bytes: Sha256::digest(bytes),
        }
    }

    /// The digest that 64 hex digits in either case spell, and None where they spell none.
    pub fn from_hex(digits: &str) -> Option<Digest>
        ensures { option_map (λ found. found.bytes) result ≡ result_ok (decode_sized digits.now 32) }
    {
        match <[u8; 32] as hex::FromHex>::from_hex(digits) {
            Ok(bytes) => Some(Digest { bytes }),
            Err(_) => None,
        }
    }
}

impl fmt::Display for Digest {
    ghost use Rattle.std.specs.Prelude.{Some};
    ghost use Rattle.hex.specs.Hex.{encode_lower};

    ghost output = { λ d. Some (encode_lower d.bytes) };

    fn fmt<W: fmt::Write>(&self, f: &mut fmt::Formatter<W>) -> fmt::Result {
        fmt::Display::fmt(&ObjectId::Sha256(self.bytes), f)
    }
}
