//! Ids that begin with some hex digits.
ghost use Rattle.std.specs.Prelude.{◌≡◌, ◌+◌, ◌≤◌, ◌<◌, length};

use crate::fault::Damage;
use crate::listing::damage_of;
use gix_hash::hashtable::IdSet;
use gix_hash::{Keys, Kind, ObjectId};
use gix_pack::Front;
use std::alloc::{AllocError, Global};
use std::fs::{self, Files};
use std::io::ErrorKind;

const DIGITS: &[u8; 16] = b"0123456789abcdef";

/// Ids that begin with the same digits, each once, in the order in which they were met.
#[derive(Drop)]
pub(crate) struct Beginning {
    /// The digits.
    pub front: Front,
    /// How many ids are kept at the most.
    most: usize,
    seen: IdSet,
    /// The ids.
    pub ids: Vec<ObjectId>,
}

impl Beginning {
    /// No ids. So few are kept that the keys of their table need be no secret.
    pub fn new(alloc: Global, front: Front, most: usize) -> Beginning {
        Beginning {
            front,
            most,
            seen: IdSet::new(alloc, Keys::KNOWN),
            ids: Vec::new(alloc),
        }
    }

    /// Whether no more ids are kept.
    pub fn is_full(&self) -> bool {
        self.ids.len() >= self.most
    }

    /// Adds an id where it begins with the digits, is new, and there are fewer than the most.
    pub fn add(&mut self, id: ObjectId) -> Result<(), AllocError> {
        if !self.is_full() && self.front.begins(&id) && self.seen.insert(id)? {
            self.ids.push(id)?;
        }
        Ok(())
    }
}

/// Adds the ids of the loose objects of a folder of objects.
pub(crate) fn add_loose<R>(
    rt: &R,
    objects: &str,
    kind: Kind,
    found: &mut Beginning,
) -> Result<(), Damage>
where
    R: Files + AllocGlobal + Clone + Drop,
{
    let first = found.front.first_byte();
    let digits = [DIGITS[(first / 16) as usize], DIGITS[(first % 16) as usize]];
    let mut folder = String::from_str(rt.alloc(), objects)?;
    folder.push('/')?;
    folder.push(digits[0] as char)?;
    folder.push(digits[1] as char)?;
    let entries = match fs::read_dir(rt, folder.as_str()) {
        Ok(entries) => entries,
        Err(error) => {
            return match error.kind() {
                ErrorKind::NotFound => Ok(()),
                kind => Err(damage_of(kind)),
            };
        }
    };
    for entry in entries {
        match entry {
            Ok(entry) => {
                if let Some(id) = id_of(kind, &digits, entry.file_name().as_bytes()) {
                    found.add(id)?;
                }
            }
            Err(error) => {
                if error.kind() != ErrorKind::InvalidFilename {
                    return Err(damage_of(error.kind()));
                }
            }
        }
    }
    Ok(())
}

/// The id whose first two digits these are, and whose others are the name of a file. None where they are none.
fn id_of(kind: Kind, first: &[u8; 2], name: &[u8]) -> Option<ObjectId> {
    let mut digits = [0u8; 64];
    let len = kind.len_in_hex();
    if name.len() != len - 2 {
        return None;
    }
    digits[0] = first[0];
    digits[1] = first[1];
    for i in 0..62usize {
        let Some(digit) = name.get(i) else {
            break;
        };
        digits[i + 2] = *digit;
    }
    ObjectId::from_digits(digits.get(..len)?, kind)
}
