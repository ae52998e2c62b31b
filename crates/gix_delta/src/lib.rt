//! Deltas: how git's packs say an object as what it has in common with another one, its base, and what it has not.
#![tactic(auto)]

ghost use Rattle.std.specs.Prelude.{◌≡◌, ◌≤◌, ◌<◌, length, OnOk, IfOk};

use std::alloc::AllocError;
use thiserror::Error;

/// Why bytes are no delta of a base.
#[derive(Clone, Copy, PartialEq, Eq, Debug, Error)]
pub enum Fault {
    /// The delta ends within a size or an instruction.
    #[error("the delta is cut")]
    Truncated,
    /// A size doesn't fit into 64 bits.
    #[error("a size above 64 bits")]
    Size,
    /// The base doesn't have the size that the delta says.
    #[error("a base of another size")]
    BaseSize,
    /// An instruction is the byte 0.
    #[error("an instruction that means nothing")]
    Reserved,
    /// A copy is of bytes that the base doesn't have.
    #[error("a copy of bytes outside of the base")]
    OutsideBase,
    /// The instructions make more bytes than the delta says.
    #[error("more bytes than it says")]
    TooLong,
    /// The instructions make fewer bytes than the delta says.
    #[error("fewer bytes than it says")]
    TooShort,
    /// Memory ran out.
    #[error("out of memory")]
    Memory,
}

impl From<AllocError> for Fault {
    fn from(_error: AllocError) -> Fault {
        Fault::Memory
    }
}

/// How many bytes a delta says that its base has, and how many it makes.
///
/// # Errors
///
/// `Truncated` and `Size`.
pub fn sizes(delta: &[u8]) -> Result<(u64, u64), Fault> {
    let mut rest = delta;
    let base = take_size(&mut rest)?;
    let made = take_size(&mut rest)?;
    Ok((base, made))
}

/// Puts what a delta makes of a base into `out`, in place of what was there. `out` grows as bytes come, to the size that the delta says at
/// the most. Ask [`sizes`] first where that is to be bounded.
///
/// # Errors
///
/// All of [`Fault`], the first that is met. `out` then holds what was made until then.
pub fn apply(base: &[u8], delta: &[u8], out: &mut Vec<u8>) -> Result<(), Fault> {
    out.clear();
    let mut rest = delta;
    if take_size(&mut rest)? != base.len() as u64 {
        return Err(Fault::BaseSize);
    }
    let mut left = take_size(&mut rest)?;
    for _ in 0..u64::MAX {
        let [instruction, behind @ ..] = rest else {
            break;
        };
        rest = behind;
        let part = if *instruction >= 128 {
            copied(base, *instruction, &mut rest)?
        } else {
            taken(*instruction, &mut rest)?
        };
        if part.len() as u64 > left {
            return Err(Fault::TooLong);
        }
        left -= part.len() as u64;
        out.extend_from_slice(part)?;
    }
    if left > 0 {
        return Err(Fault::TooShort);
    }
    Ok(())
}

/// Takes a size from the front: seven bits a byte, the lowest first, and the highest bit of each byte but the last.
fn take_size(rest: &mut &[u8]) -> Result<u64, Fault> {
    let mut size = 0u64;
    for i in 0..10u32 {
        let [byte, behind @ ..] = *rest else {
            return Err(Fault::Truncated);
        };
        *rest = behind;
        if i == 9 && *byte > 1 {
            return Err(Fault::Size);
        }
        size = size | ((*byte as u64 % 128) << (7 * i));
        if *byte < 128 {
            return Ok(size);
        }
    }
    Err(Fault::Size)
}

/// The bytes of the base that an instruction names. Its low bits say which bytes of a place and of a length follow.
fn copied<'a>(base: &'a [u8], instruction: u8, rest: &mut &[u8]) -> Result<&'a [u8], Fault> {
    let mut place = 0u64;
    let mut bits = instruction;
    for i in 0..4u32 {
        place = place | take_byte(bits, rest)? << (8 * i);
        bits = bits / 2;
    }
    let mut len = 0u64;
    for i in 0..3u32 {
        len = len | take_byte(bits, rest)? << (8 * i);
        bits = bits / 2;
    }
    if len == 0 {
        len = 65536;
    }
    let Some((_, behind)) = base.split_at_checked(place as usize) else {
        return Err(Fault::OutsideBase);
    };
    match behind.split_at_checked(len as usize) {
        Some((part, _)) => Ok(part),
        None => Err(Fault::OutsideBase),
    }
}

/// The byte at the front where the lowest bit is set, and otherwise 0.
#[inline(always)]
fn take_byte(bits: u8, rest: &mut &[u8]) -> Result<u64, Fault> {
    if bits % 2 == 0 {
        return Ok(0);
    }
    let [byte, behind @ ..] = *rest else {
        return Err(Fault::Truncated);
    };
    *rest = behind;
    Ok(*byte as u64)
}

/// So many bytes that follow in the delta, at least one.
fn taken<'a>(len: u8, rest: &mut &'a [u8]) -> Result<&'a [u8], Fault> {
    if len == 0 {
        return Err(Fault::Reserved);
    }
    let Some((part, behind)) = rest.split_at_checked(len as usize) else {
        return Err(Fault::Truncated);
    };
    *rest = behind;
    Ok(part)
}

#[cfg(test)]
mod tests {
    use super::*;
    use std::test::Fail;

    /// Each instruction once, as the format says it, and what git makes of them.
    const CASES: &[(&[u8], Result<&[u8], Fault>)] = &[
        (b"\x0A\x05\x91\x02\x03\x02xy", Ok(b"cdexy")),
        (b"\x0A\x0A\x90\x0A", Ok(b"abcdefghij")),
        (b"\x0A\x00", Ok(b"")),
        (b"\x0A\x05\x91\x02\x03", Err(Fault::TooShort)),
        (b"\x0A\x02\x91\x02\x03", Err(Fault::TooLong)),
        (b"\x0A\x03\x91\x08\x03", Err(Fault::OutsideBase)),
        (b"\x0A\x01\x80", Err(Fault::OutsideBase)),
        (b"\x0A\x01\x00", Err(Fault::Reserved)),
        (b"\x0B\x01\x01x", Err(Fault::BaseSize)),
        (b"\x0A\x04\x04xy", Err(Fault::Truncated)),
        (b"\x0A\x04\x91\x01", Err(Fault::Truncated)),
        (b"\x8A\x80\x00\x81\x00\x01x", Ok(b"x")),
        (
            b"\x8A\x80\x80\x80\x80\x80\x80\x80\x80\x02",
            Err(Fault::Size),
        ),
        (b"\x8A", Err(Fault::Truncated)),
    ];

    #[test]
    fn instructions(rt: HostRuntime) -> Result<(), Fail> {
        let mut out = Vec::new(rt.alloc());
        for (delta, wanted) in CASES {
            let answer = apply(b"abcdefghij", *delta, &mut out);
            match wanted {
                Ok(bytes) => {
                    assert_eq!(rt; answer, Ok(()), "{delta:?}");
                    assert_eq!(rt; out.as_slice(), *bytes, "{delta:?}");
                }
                Err(fault) => assert_eq!(rt; answer, Err(*fault), "{delta:?}"),
            }
        }
        assert_eq!(rt; sizes(b"\x80\x01\x05"), Ok((128, 5)));
        Ok(())
    }
}
