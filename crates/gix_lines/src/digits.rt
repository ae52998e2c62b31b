//! The digits of ids and modes.
ghost use Rattle.std.specs.Prelude.{◌≡◌, ◌*◌, ◌<◌, ◌≤◌, ◌++◌, ◌∷◌, [], drop, length, slice_index, IfSome};
ghost use Rattle.hex.specs.Hex.{encode_lower, lower_digits};
ghost use Rattle.gix_lines.specs.Files.{six_octal_digits};

/// The six digits of a mode that Git writes.
#[inline(always)]
pub fn usual_mode(mode: u32) -> Option<&'static [u8; 6]>
    ensures { IfSome result (λ text. text.now ≡ six_octal_digits mode) }
{
    match mode {
        0o100644 => Some(b"100644"),
        0o040000 => Some(b"040000"),
        0o100755 => Some(b"100755"),
        0o120000 => Some(b"120000"),
        0o160000 => Some(b"160000"),
        _ => None,
    }
}

/// Puts the octal digits of a mode, six at least, to the end of a text, and returns where they begin.
pub fn put_octal(mode: u32, text: &mut [u8; 11]) -> usize
    ensures within { result ≤ 11 }
    ensures digits { drop result text.new ≡ six_octal_digits mode }
{
    let mut at = 11;
    let mut rest = mode;
    'digits: while at > 5 || rest != 0 {
        at -= 1;
        text[at] = b'0' + (rest % 8) as u8;
        rest /= 8;
    }
    at
}

/// Writes the two digits of each byte. The digits are found in two rows first, so that a compiler can find many at once.
#[inline(always)]
pub fn put_digits<const N: usize>(bytes: &[u8; N], text: &mut [u8])
    requires { length text.old ≡ 2 * N }
    ensures { text.new ≡ encode_lower bytes.now }
{
    let mut first = [0; N];
    let mut second = [0; N];
    'bytes: for i in 0..N {
        let byte = bytes[i];
        first[i] = digit(byte >> 4);
        second[i] = digit(byte & 0x0f);
    }
    'pairs: for i in 0..N {
        text[2 * i] = first[i];
        text[2 * i + 1] = second[i];
    }
}

/// The digit of a number.
#[inline(always)]
fn digit(number: u8) -> u8
    requires { number < 16 }
    ensures { result ≡ slice_index lower_digits number }
{
    number + b'0' + u8::from(number > 9) * (b'a' - b'9' - 1)
}
