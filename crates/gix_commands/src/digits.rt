//! Hex digits of ids in lines.
ghost use Rattle.std.specs.Prelude.{◌≡◌, ◌++◌, ◌∷◌, [], OnOk, OnErr};
ghost use Rattle.gix_hash.specs.Id.{hex_of};

use gix_hash::ObjectId;
use gix_lines::put_digits;
use std::alloc::AllocError;

/// Adds an id in hex digits of lower case, and this byte after it.
///
/// # Errors
/// Out of memory. Nothing is added.
pub fn add_id(lines: &mut Vec<u8>, id: &ObjectId, behind: u8) -> Result<(), AllocError>
    ensures ok { OnOk result (lines.new.items ≡ lines.old.items ++ (hex_of id.now ++ behind ∷ [])) }
    ensures err { OnErr result (lines.new.items ≡ lines.old.items) }
{
    match id {
        ObjectId::Sha1(bytes) => {
            let mut text = [behind; 41];
            put_digits(bytes, &mut text[..40]);
            lines.extend_from_slice(&text)
        }
        ObjectId::Sha256(bytes) => {
            let mut text = [behind; 65];
            put_digits(bytes, &mut text[..64]);
            lines.extend_from_slice(&text)
        }
    }
}

/// Adds an id in hex digits of lower case.
///
/// # Errors
/// Out of memory. Nothing is added.
pub fn add_digits(line: &mut Vec<u8>, id: &ObjectId) -> Result<(), AllocError>
    ensures ok { OnOk result (line.new.items ≡ line.old.items ++ hex_of id.now) }
    ensures err { OnErr result (line.new.items ≡ line.old.items) }
{
    match id {
        ObjectId::Sha1(bytes) => {
            let mut text = [0; 40];
            put_digits(bytes, &mut text);
            line.extend_from_slice(&text)
        }
        ObjectId::Sha256(bytes) => {
            let mut text = [0; 64];
            put_digits(bytes, &mut text);
            line.extend_from_slice(&text)
        }
    }
}
