//! Hashing of ids by keys that whoever picks the ids doesn't know.
ghost use Rattle.std.specs.Prelude.{◌≡◌, ◌≤◌, length};
ghost use Rattle.gix_hash.specs.Keyed.{folded_multiply, mixed, keys_of};

use crate::word_at;
use std::hash::{BuildHasher, Hasher};
use std::io;
use std::random::RandomSource;

/// The keys of tables of ids. They change no answer. But whoever knows them can choose ids that make tables slow. So if ids come from
/// strangers, take [`Keys::random`], once in a run, for all its tables. A caller without a source of randomness has [`Keys::KNOWN`].
#[derive(Clone, Copy)]
pub struct Keys {
    /// Where a hash begins.
    first: u64,
    /// What each word is multiplied by.
    second: u64,
}

impl Keys {
    /// Keys that anybody knows, for tests, and for ids that nobody chose.
    pub const KNOWN: Keys = Keys {
        first: 0x243F_6A88_85A3_08D3,
        second: 0x1319_8A2E_0370_7345,
    };

    /// Keys of the system's randomness.
    ///
    /// # Errors
    ///
    /// Why the system has none.
    pub fn random(rt: &impl RandomSource) -> io::Result<Keys> {
        let mut bytes = [0; 16];
        rt.fill_bytes(&mut bytes)?;
        Ok(Keys::of(bytes))
    }

    /// The keys that these bytes say. Each byte should be random.
    pub fn of(bytes: [u8; 16]) -> Keys
        ensures { result ≡ keys_of bytes }
    {
        Keys {
            first: word_at(&bytes, 0),
            second: word_at(&bytes, 8) | 1,
        }
    }
}

/// The hash of the words so far.
#[derive(Clone, Copy)]
pub struct Mixed {
    state: u64,
    key: u64,
}

/// The two halves of the product of 128 bits, joined bit by bit.
#[inline(always)]
fn folded_multiply(a: u64, b: u64) -> u64
    ensures { result ≡ folded_multiply a b }
{
    let product = a as u128 * b as u128;
    (product & 0xFFFF_FFFF_FFFF_FFFF) as u64 ^ (product >> 64) as u64
}

impl Mixed {
    #[inline(always)]
    fn mix(&mut self, word: u64)
        ensures { self.new ≡ mixed self.old word }
    {
        self.state = folded_multiply(self.state ^ word, self.key);
    }
}

impl Hasher for Mixed {
    ghost use Rattle.gix_hash.specs.Keyed.{write};

    ghost write = { write };

    ghost finish = { λ s. s.state };

    #[inline(always)]
    fn finish(&self) -> u64 {
        self.state
    }

    #[inline(always)]
    fn write(&mut self, bytes: &[u8]) {
        let len = bytes.len();
        if len < 16 {
            return;
        }
        self.mix(word_at(bytes, 0));
        self.mix(word_at(bytes, 8));
        if len >= 32 {
            self.mix(word_at(bytes, 16));
        }
        self.mix(word_at(bytes, len - 8));
    }
}

impl BuildHasher for Keys {
    type Hasher = Mixed;

    ghost use Rattle.gix_hash.specs.Keyed.{begun};

    ghost build_hasher = { begun };

    #[inline(always)]
    fn build_hasher(&self) -> Mixed {
        Mixed {
            state: self.first,
            key: self.second,
        }
    }
}
