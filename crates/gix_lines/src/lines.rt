//! The line of an entry.
ghost use Rattle.std.specs.Prelude.{◌++◌, ◌∷◌, []};
ghost use Rattle.gix_hash.specs.Id.{hex_of};
ghost use Rattle.gix_object.specs.TreeRefIter.{entry_of};
ghost use Rattle.gix_lines.specs.Files.{file_line, six_octal_digits};
ghost use Rattle.gix_lines.specs.Inside.{record_in};
ghost use Rattle.gix_lines.specs.Output.{Puts};

use crate::Error;
use crate::buffer::Buffer;
use crate::digits::{put_digits, put_octal, usual_mode};
use crate::walk::Walk;
use gix_hash::ObjectId;
use gix_object::tree::EntryRef;
use std::io::Write;

/// Puts the line of an entry that the walk has come to.
#[inline(always)]
pub fn put_line<W: Write>(
    ending: u8,
    walk: &Walk<'_>,
    entry: &EntryRef<'_>,
    buffer: &mut Buffer,
    writer: &mut W,
) -> Result<(), Error>
    ensures { Puts (W.contents writer.old) buffer.old (file_line ending (record_in walk.now.above (entry_of entry.now))) result
        (W.contents writer.new) buffer.new }
{
    put_mode(entry.mode.value, buffer, writer)?;
    put_id(&entry.oid, buffer, writer)?;
    walk.put_names(buffer, writer)?;
    buffer.put(entry.filename.as_bytes(), ending, writer)
}

/// Puts the octal digits of a mode, six at least, and a space.
#[inline(always)]
fn put_mode<W: Write>(mode: u32, buffer: &mut Buffer, writer: &mut W) -> Result<(), Error>
    ensures { Puts (W.contents writer.old) buffer.old (six_octal_digits mode ++ 32 ∷ []) result (W.contents writer.new) buffer.new }
{
    if let Some(text) = usual_mode(mode) {
        return buffer.put(text, b' ', writer);
    }
    let mut text = [0; 11];
    let at = put_octal(mode, &mut text);
    buffer.put(&text[at..], b' ', writer)
}

/// Puts an id in hex digits of lower case, and a space.
#[inline(always)]
fn put_id<W: Write>(id: &ObjectId, buffer: &mut Buffer, writer: &mut W) -> Result<(), Error>
    ensures { Puts (W.contents writer.old) buffer.old (hex_of id.now ++ 32 ∷ []) result (W.contents writer.new) buffer.new }
{
    match id {
        ObjectId::Sha1(bytes) => {
            let mut text = [0; 40];
            put_digits(bytes, &mut text);
            buffer.put(&text, b' ', writer)
        }
        ObjectId::Sha256(bytes) => {
            let mut text = [0; 64];
            put_digits(bytes, &mut text);
            buffer.put(&text, b' ', writer)
        }
    }
}
