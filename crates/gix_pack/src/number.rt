//! Numbers in bytes, the highest byte first.
ghost use Rattle.std.specs.Prelude.{◌≡◌, ◌+◌, ◌≤◌, length};

/// The number in the four bytes from `at` on, and None where there are fewer.
#[inline(always)]
pub(crate) fn word_at(bytes: &[u8], at: usize) -> Option<u32> {
    let [a, b, c, d, ..] = bytes.get(at..)? else {
        return None;
    };
    Some(u32::from_be_bytes([*a, *b, *c, *d]))
}
