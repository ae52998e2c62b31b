//! Bytes that are given to a writer.
ghost use Rattle.std.specs.Prelude.{◌≡◌, ◌≤◌, length, take, IfErr, IfOk, OnOk};
ghost use Rattle.std.specs.Io.KnownBytes.{Appends, Keeps};
ghost use Rattle.gix_lines.specs.Output.{IsCut};

use crate::Error;
use std::io::{ErrorKind, Write};

/// How often a writer is asked at the most to take bytes.
const WRITES: u32 = 1 << 31;

/// Writes these bytes. A write that was interrupted is made again.
///
/// # Errors
/// `Write` where the writer failed, or took nothing: a beginning of the bytes is written.
pub fn write_bytes<W: Write>(bytes: &[u8], writer: &mut W) -> Result<(), Error>
    ensures ok { OnOk result (Appends (W.contents writer.old) (W.contents writer.new) bytes.now) }
    ensures fault { IfErr result (IsCut (W.contents writer.old) (W.contents writer.new) bytes.now) }
{
    let mut rest = bytes;
    for _turn in 0..WRITES {
        if rest.is_empty() {
            return Ok(());
        }
        let taken = write_some(rest, writer)?;
        rest = &rest[taken..];
    }
    Err(Error::Write)
}

/// Asks the writer once to take bytes. How many it took: none where it was interrupted.
fn write_some<W: Write>(bytes: &[u8], writer: &mut W) -> Result<usize, Error>
    ensures within { IfOk result (λ taken. taken ≤ length bytes.now) }
    ensures ok { IfOk result (λ taken. Appends (W.contents writer.old) (W.contents writer.new) (take taken bytes.now)) }
    ensures fault { IfErr result (λ e. (e ≡ Error.Write) × Keeps (W.contents writer.old) (W.contents writer.new)) }
{
    match writer.write(bytes) {
        Ok(0) => Err(Error::Write),
        Ok(taken) => Ok(taken),
        Err(error) => {
            if error.kind() != ErrorKind::Interrupted {
                return Err(Error::Write);
            }
            Ok(0)
        }
    }
}
