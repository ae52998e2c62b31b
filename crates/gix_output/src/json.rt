//! What a line says, as JSON.
ghost use Rattle.std.specs.Prelude.{◌≡◌, ◌==◌, [], ◌∷◌, ◌++◌, IfOk, length, string_bytes};
ghost use Rattle.std.specs.List.{after_first, before_first};
ghost use Rattle.serde_json.specs.View.{view};
ghost use Rattle.gix_output.specs.Json.{ReadsBack, ahead_data, commit_data, count_data, data_of, entry_data, json_of, only_id_data, number_data, parents_data, id_and_revision_data, resolved_data, bytes_data};

use memchr::memchr;
use serde_json::{Category, Value, json};
use std::alloc::{AllocError, Global};
use std::str;

/// What a line has, and so which members its object has.
#[derive(Clone, Copy, PartialEq, Eq, Debug)]
pub enum Shape {
    /// Of a commit the id, the tree's id, the parents' ids with a space between two, the committer's seconds, the author's name and address,
    /// and the subject, with a newline between two.
    Commit,
    /// Of an entry of a tree its mode, its id and its path, with a space between two.
    Entry,
    /// A number of lines.
    Count,
    /// How many commits the one has and the other hasn't, a space, and how many the other has and the one hasn't.
    Ahead,
    /// An id.
    Id,
    /// An id, a space, and the revision that stands for it.
    Revision,
    /// An id, behind `^` if it is excluded.
    Resolved,
}

/// A line as JSON: an object on one line, with its members by rising names, and a newline. A text that isn't UTF-8 is an object of its bytes
/// in hex digits, and what should be a number is null if it is no integer of 64 bits.
///
/// # Errors
///
/// `AllocError` when out of memory.
pub fn json_line(alloc: Global, shape: Shape, line: &[u8]) -> Result<String, AllocError>
    ensures json { IfOk result (λ text. string_bytes text ≡ json_of shape line.now ++ 10 ∷ []) }
    ensures reads_back { IfOk result (λ text. ReadsBack shape line.now) }
{
    let mut text = value_of(alloc, shape, line)?.to_string(alloc)?;
    text.push_str("\n")?;
    Ok(text)
}

fn value_of(alloc: Global, shape: Shape, line: &[u8]) -> Result<Value, AllocError>
    ensures { IfOk result (λ value. view value ≡ data_of shape line.now) }
{
    match shape {
        Shape::Commit => commit_value(alloc, line),
        Shape::Entry => entry_value(alloc, line),
        Shape::Count => count_value(alloc, line),
        Shape::Ahead => ahead_value(alloc, line),
        Shape::Id => id_value(alloc, line),
        Shape::Revision => revision_value(alloc, line),
        Shape::Resolved => resolved_value(alloc, line),
    }
}

fn commit_value(alloc: Global, line: &[u8]) -> Result<Value, AllocError>
    ensures { IfOk result (λ value. view value ≡ commit_data line.now) }
{
    let (id, line) = cut(line, b'\n');
    let (tree, line) = cut(line, b'\n');
    let (parents, line) = cut(line, b'\n');
    let (time, line) = cut(line, b'\n');
    let (author, line) = cut(line, b'\n');
    let (email, subject) = cut(line, b'\n');
    json!(in alloc; {
        "author": text_value(alloc, author)?,
        "email": text_value(alloc, email)?,
        "id": text_value(alloc, id)?,
        "parents": parents_value(alloc, parents)?,
        "subject": text_value(alloc, subject)?,
        "time": number_value(alloc, time)?,
        "tree": text_value(alloc, tree)?
    })
}

fn entry_value(alloc: Global, line: &[u8]) -> Result<Value, AllocError>
    ensures { IfOk result (λ value. view value ≡ entry_data line.now) }
{
    let (mode, line) = cut(line, b' ');
    let (id, path) = cut(line, b' ');
    json!(in alloc; {
        "id": text_value(alloc, id)?,
        "mode": text_value(alloc, mode)?,
        "path": text_value(alloc, path)?
    })
}

fn count_value(alloc: Global, line: &[u8]) -> Result<Value, AllocError>
    ensures { IfOk result (λ value. view value ≡ count_data line.now) }
{
    json!(in alloc; {"count": number_value(alloc, line)?})
}

fn ahead_value(alloc: Global, line: &[u8]) -> Result<Value, AllocError>
    ensures { IfOk result (λ value. view value ≡ ahead_data line.now) }
{
    let (ahead, behind) = cut(line, b' ');
    json!(in alloc; {"ahead": number_value(alloc, ahead)?, "behind": number_value(alloc, behind)?})
}

fn id_value(alloc: Global, line: &[u8]) -> Result<Value, AllocError>
    ensures { IfOk result (λ value. view value ≡ only_id_data line.now) }
{
    json!(in alloc; {"id": text_value(alloc, line)?})
}

fn revision_value(alloc: Global, line: &[u8]) -> Result<Value, AllocError>
    ensures { IfOk result (λ value. view value ≡ id_and_revision_data line.now) }
{
    let (id, revision) = cut(line, b' ');
    json!(in alloc; {"id": text_value(alloc, id)?, "revision": text_value(alloc, revision)?})
}

fn resolved_value(alloc: Global, line: &[u8]) -> Result<Value, AllocError>
    ensures { IfOk result (λ value. view value ≡ resolved_data line.now) }
{
    match line {
        [b'^', id @ ..] => json!(in alloc; {"excluded": true, "id": text_value(alloc, id)?}),
        id => json!(in alloc; {"excluded": false, "id": text_value(alloc, id)?}),
    }
}

/// What is before the first such byte, and what is behind it: all and nothing where there is none.
fn cut(text: &[u8], byte: u8) -> (&[u8], &[u8])
    ensures front { result.0.now ≡ before_first (λ b. b == byte) text.now }
    ensures behind { result.1.now ≡ after_first (λ b. b == byte) text.now }
{
    match memchr(byte, text) {
        None => (text, &[]),
        Some(end) => (&text[..end], &text[end + 1..]),
    }
}

/// A text, or its bytes in hex digits if it isn't UTF-8.
#[tactic(auto, using(crate::proofs::Texts::said, crate::proofs::Texts::said_in_hex))]
fn text_value(alloc: Global, text: &[u8]) -> Result<Value, AllocError>
    ensures { IfOk result (λ value. view value ≡ bytes_data text.now) }
{
    match str::from_utf8(text) {
        Ok(text) => Value::try_from_str(alloc, text),
        Err(_) => json!(in alloc; {"hex": hex::encode(alloc, text)?}),
    }
}

/// The integer of 64 bits that JSON reads in a text, or null.
fn number_value(alloc: Global, text: &[u8]) -> Result<Value, AllocError>
    ensures { IfOk result (λ value. view value ≡ number_data text.now) }
{
    match Value::from_slice(alloc, text) {
        Ok(Value::Number(number)) => if number.is_f64() {
            Ok(Value::Null)
        } else {
            Ok(Value::Number(number))
        },
        Ok(_) => Ok(Value::Null),
        Err(error) => match error.classify() {
            Category::Memory => Err(AllocError),
            _ => Ok(Value::Null),
        },
    }
}

/// Ids with a space between two.
fn parents_value(alloc: Global, ids: &[u8]) -> Result<Value, AllocError>
    ensures { IfOk result (λ value. view value ≡ parents_data ids.now) }
{
    let mut values = Vec::new(alloc);
    if ids.is_empty() {
        return Ok(Value::Array(values));
    }
    for id in ids.split(|byte| *byte == b' ') {
        values.push(text_value(alloc, id)?)?;
    }
    Ok(Value::Array(values))
}
