//! Adler-32.
ghost use Rattle.std.specs.Prelude.{◌≡◌, ◌≤◌, ◌<◌, length};

/// The greatest prime below 65,536.
const PRIME: u32 = 65521;

/// How many bytes can be summed before a remainder has to be taken, a multiple of 8.
const MOST: usize = 5544;

/// Each second byte of a word.
const EVEN: u64 = 0x00FF_00FF_00FF_00FF;

/// The Adler-32 of these bytes.
pub(crate) fn adler_32(bytes: &[u8]) -> u32 {
    let mut low = 1u32;
    let mut high = 0u32;
    for part in bytes.chunks(MOST) {
        (low, high) = summed(low, high, part);
        low = low % PRIME;
        high = high % PRIME;
    }
    high.wrapping_mul(65536) | low
}

/// Both sums with these bytes, eight bytes at a time: the first is that of the bytes, the second that of the first after each byte.
fn summed(low: u32, high: u32, bytes: &[u8]) -> (u32, u32) {
    let (mut low, mut high) = (low, high);
    let mut rest = bytes;
    for _ in 0..MOST {
        let [a, b, c, d, e, f, g, h, behind @ ..] = rest else {
            break;
        };
        let word = u64::from_le_bytes([*a, *b, *c, *d, *e, *f, *g, *h]);
        let even = word & EVEN;
        let odd = (word >> 8) & EVEN;
        let sum = even.wrapping_add(odd).wrapping_mul(0x0001_0001_0001_0001) >> 48;
        let weighted = even
            .wrapping_mul(0x0008_0006_0004_0002)
            .wrapping_add(odd.wrapping_mul(0x0007_0005_0003_0001))
            >> 48;
        high = high
            .wrapping_add(low.wrapping_mul(8))
            .wrapping_add((weighted % 65536) as u32);
        low = low.wrapping_add((sum % 65536) as u32);
        rest = behind;
    }
    for byte in rest {
        low = low.wrapping_add(*byte as u32);
        high = high.wrapping_add(low);
    }
    (low, high)
}
