//! Inflates streams that come on standard input, and writes a line for each. `tests/inflate` compares the lines with what zlib says.
//!
//! Three numbers of four bytes come before a stream: 0 to inflate it whole or 1 for its front, how many bytes have to come out, and how
//! many bytes it has. The line is `ok`, how many bytes the stream takes (of a front, how many came out), and the SHA-1 of what came out;
//! or the name of the fault.
#![tactic(auto)]

use anyhow::Result;
use gix_inflate::{Fault, Inflater, inflate, inflate_front};
use sha1::Sha1;
use std::alloc::Global;
use std::io::{BufWriter, Read, Write};

/// Takes a number of four bytes from the front.
fn take_number(left: &mut &[u8]) -> Option<usize> {
    match *left {
        [a, b, c, d, rest @ ..] => {
            *left = rest;
            Some(u32::from_be_bytes([*a, *b, *c, *d]) as usize)
        }
        _ => None,
    }
}

/// Writes the line of a stream. What came out is the first `len` bytes of `room`.
fn write_line<W: Write>(
    out: &mut W,
    answer: Result<usize, Fault>,
    room: &[u8],
    len: usize,
) -> Result<()> {
    match answer {
        Ok(count) => {
            write!(out, "ok {count} ")?;
            for byte in Sha1::digest(room.get(..len).unwrap_or_default()) {
                write!(out, "{byte:02x}")?;
            }
            writeln!(out, "")?;
        }
        Err(fault) => writeln!(out, "{fault:?}")?,
    }
    Ok(())
}

/// Answers one stream of the input, and returns whether there was one.
fn answer<W: Write>(
    alloc: Global,
    inflater: &mut Inflater,
    left: &mut &[u8],
    out: &mut W,
) -> Result<bool> {
    let (Some(way), Some(size), Some(len)) = (
        take_number(left),
        take_number(left),
        take_number(left),
    ) else {
        return Ok(false);
    };
    let Some((stream, behind)) = left.split_at_checked(len) else {
        return Ok(false);
    };
    *left = behind;
    let mut room: Vec<u8> = vec![in alloc; 0xA5; size]?;
    if way == 0 {
        let answer = inflate(inflater, stream, room.as_mut_slice());
        write_line(out, answer, room.as_slice(), size)?;
    } else {
        let answer = inflate_front(inflater, stream, room.as_mut_slice());
        let len = answer.unwrap_or_default();
        write_line(out, answer, room.as_slice(), len)?;
    }
    Ok(true)
}

fn main(rt: HostRuntime) -> Result<()> {
    let mut input = Vec::new(rt.alloc());
    rt.stdin().read_to_end(&mut input)?;
    let mut out = BufWriter::new(rt.alloc(), rt.stdout())?;
    let mut inflater = Inflater::new();
    let mut left = input.as_slice();
    for _ in 0..u64::MAX {
        if !answer(rt.alloc(), &mut inflater, &mut left, &mut out)? {
            break;
        }
    }
    out.flush()?;
    Ok(())
}
