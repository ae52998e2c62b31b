//! The whole of the input.
ghost use Rattle.std.specs.Prelude.{◌≡◌, ◌⊎◌, ◌<◌, true, length, vec_len, IfOk, IfErr, OnOk};
ghost use Rattle.std.specs.Io.KnownBytes.{IsAtEnd};
ghost use Rattle.gix_records.specs.Input.{Tells, Moves};

use crate::Error;
use std::alloc::{AllocError, Global};
use std::io::{ErrorKind, Read};

/// How many bytes a read asks for.
const CHUNK: usize = 1 << 16;

/// The bytes that a reader gives until its end. It is asked this often at most: a read that was interrupted is made again, and counts.
///
/// # Errors
/// `Read` where the reader failed, or none of its answers was the end. `Memory`. The bytes that were read until then are lost.
pub fn read_to_end<R: Read>(alloc: Global, reader: &mut R, most: u32) -> Result<Vec<u8>, Error>
    ensures whole { IfOk result (λ input. Tells (R.remaining reader.old) input.items) }
    ensures fault { IfErr result (λ e. (e ≡ Error.Read) ⊎ (e ≡ Error.Memory)) }
{
    let mut input = Vec::new(alloc);
    let mut chunk = new_chunk(alloc)?;
    for _ in 0..most {
        if read_some(reader, chunk.as_mut_slice(), &mut input)? {
            return Ok(input);
        }
    }
    Err(Error::Read)
}

/// Room for a read.
fn new_chunk(alloc: Global) -> Result<Vec<u8>, AllocError>
    ensures { IfOk result (λ chunk. 0 < vec_len chunk) }
{
    vec![in alloc; 0; CHUNK]
}

/// Asks the reader once, and adds what it gave. Whether this was the end.
fn read_some<R: Read>(reader: &mut R, chunk: &mut [u8], input: &mut Vec<u8>) -> Result<bool, Error>
    requires { 0 < length chunk.old }
    ensures moves { OnOk result (Moves (R.remaining reader.old) (R.remaining reader.new) input.old.items input.new.items) }
    ensures end { IfOk result (λ ended. ended ≡ true → IsAtEnd (R.remaining reader.new)) }
    ensures fault { IfErr result (λ e. (e ≡ Error.Read) ⊎ (e ≡ Error.Memory)) }
{
    match reader.read(chunk) {
        Ok(0) => Ok(true),
        Ok(n) => {
            input.extend_from_slice(&chunk[..n])?;
            Ok(false)
        }
        Err(error) => {
            if error.kind() != ErrorKind::Interrupted {
                return Err(Error::Read);
            }
            Ok(false)
        }
    }
}

#[cfg(test)]
mod tests;
