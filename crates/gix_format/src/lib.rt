//! What a format says of a commit, as `git log --format` writes it.
#![tactic(auto)]

ghost use Rattle.std.specs.Prelude.{◌≡◌, ◌≤◌, ◌==◌, ◌&&◌, ◌||◌, ℕ, List, [], ◌∷◌, ◌++◌, length, take, drop, flat_map, OnOk, IsOk};
ghost use Rattle.std.specs.Str.{str_to_ascii_lowercase};
ghost use Rattle.gix_statement.specs.Formats.{formatted, hex, digits_in};
ghost use Rattle.gix_format.specs.Page.{page_commit};
ghost use Rattle.gix_format.specs.Pieces.{field_text};

use gix_hash::ObjectId;
use std::alloc::AllocError;

mod date;
mod person;
mod subject;
#[cfg(test)]
mod tests;

/// What a format says something of.
#[derive(Clone, Copy)]
pub struct Commit<'a> {
    /// The commit's own id.
    pub id: ObjectId,
    /// The ids of its parents, in their order.
    pub parents: &'a [ObjectId],
    /// The committer's time, in seconds since 1970.
    pub time: i64,
    /// All bytes of the commit, from the line for its tree on.
    pub text: &'a [u8],
}

/// Adds a text, or nothing where memory runs out.
fn add(line: &mut Vec<u8>, text: &[u8]) -> Result<(), AllocError>
    ensures whole { OnOk result (line.new.items ≡ line.old.items ++ text.now) }
    ensures begun { (added more : List ℕ) × (line.new.items ≡ line.old.items ++ added) × (added ++ more ≡ text.now) }
    ensures succeeds { text.now ≡ [] → IsOk result }
{
    line.extend_from_slice(text)
}

/// Adds a text in lower case.
fn add_lower(line: &mut Vec<u8>, text: &[u8]) -> Result<(), AllocError>
    ensures whole { OnOk result (line.new.items ≡ line.old.items ++ str_to_ascii_lowercase text.now) }
    ensures begun { (added more : List ℕ) × (line.new.items ≡ line.old.items ++ added) × (added ++ more ≡ str_to_ascii_lowercase text.now) }
    ensures succeeds { str_to_ascii_lowercase text.now ≡ [] → IsOk result }
{
    for byte in text {
        line.push(byte.to_ascii_lowercase())?;
    }
    Ok(())
}

/// Adds the first `count` hex digits of an id, or nothing where memory runs out.
fn add_digits(line: &mut Vec<u8>, id: &ObjectId, count: usize) -> Result<(), AllocError>
    requires { count ≤ digits_in id.now }
    ensures whole { OnOk result (line.new.items ≡ line.old.items ++ take count (hex id.now)) }
    ensures begun { (added more : List ℕ) × (line.new.items ≡ line.old.items ++ added) × (added ++ more ≡ take count (hex id.now)) }
    ensures all { count ≡ digits_in id.now → take count (hex id.now) ≡ hex id.now }
    ensures succeeds { take count (hex id.now) ≡ [] → IsOk result }
{
    let mut digits = [0u8; 64];
    let digits = &mut digits[..id.kind().len_in_hex()];
    let Ok(()) = hex::encode_to_slice(id.as_bytes(), &mut *digits) else {
        unreachable!();
    };
    line.extend_from_slice(&digits[..count])
}

/// Adds all digits of an id, or nothing where memory runs out.
fn add_id(line: &mut Vec<u8>, id: &ObjectId) -> Result<(), AllocError>
    ensures whole { OnOk result (line.new.items ≡ line.old.items ++ hex id.now) }
    ensures begun { (added more : List ℕ) × (line.new.items ≡ line.old.items ++ added) × (added ++ more ≡ hex id.now) }
    ensures succeeds { hex id.now ≡ [] → IsOk result }
{
    add_digits(line, id, id.kind().len_in_hex())
}

/// Adds ids with a space between them.
fn add_parents(line: &mut Vec<u8>, parents: &[ObjectId]) -> Result<(), AllocError>
    ensures whole { OnOk result (line.new.items ≡ line.old.items ++ drop 1 (flat_map (λ p. 32 ∷ hex p) parents.now)) }
    ensures begun { (added more : List ℕ) × (line.new.items ≡ line.old.items ++ added)
        × (added ++ more ≡ drop 1 (flat_map (λ p. 32 ∷ hex p) parents.now)) }
    ensures succeeds { drop 1 (flat_map (λ p. 32 ∷ hex p) parents.now) ≡ [] → IsOk result }
{
    let [first, others @ ..] = parents else {
        return Ok(());
    };
    add_id(line, first)?;
    for parent in others {
        line.push(b' ')?;
        add_id(line, parent)?;
    }
    Ok(())
}

/// The digits that the line for the tree has, which are as many as the commit's id has.
fn tree(commit: Commit<'_>) -> &[u8]
    ensures { result.now ≡ take (digits_in (page_commit commit.entry).id) (drop 5 (page_commit commit.entry).text) }
{
    let behind = &commit.text[5usize.min(commit.text.len())..];
    let digits = commit.id.kind().len_in_hex();
    &behind[..digits.min(behind.len())]
}

/// Adds what a field says of a commit: nothing where there is no field of this name.
#[tactic(auto, using(crate::proofs::Fields::what_each_says))]
fn add_field(
    line: &mut Vec<u8>,
    before: u8,
    letter: u8,
    commit: Commit<'_>,
) -> Result<(), AllocError>
    ensures whole { OnOk result (line.new.items ≡ line.old.items ++ field_text (page_commit commit.entry) before letter) }
    ensures begun { (added more : List ℕ) × (line.new.items ≡ line.old.items ++ added)
        × (added ++ more ≡ field_text (page_commit commit.entry) before letter) }
    ensures succeeds { field_text (page_commit commit.entry) before letter ≡ [] → IsOk result }
{
    match (before, letter) {
        (b'%', b'%') => add(line, b"%"),
        (b'%', b'n') => add(line, b"\n"),
        (b'%', b'H') => add_id(line, &commit.id),
        (b'%', b'h') => add_digits(line, &commit.id, 10),
        (b'%', b'T') => add_lower(line, tree(commit)),
        (b'%', b'P') => add_parents(line, commit.parents),
        (b'%', b's') => subject::add_subject(line, commit.text),
        (b'a', b'n') => add(line, person::name_in(person::author(commit.text))),
        (b'a', b'e') => add(line, person::address_in(person::author(commit.text))),
        (b'c', b't') => { add(line, itoa::Buffer::new().format(commit.time).as_bytes()) }
        (b'c', b'i') => {
            let offset = person::offset(person::committer(commit.text));
            date::add_date_and_time(line, commit.time, offset)
        }
        _ => Ok(()),
    }
}

/// Whether a letter is the first of two behind a `%`.
fn goes_on(before: u8, letter: u8) -> bool
    ensures { result ≡ (before == 37 && (letter == 97 || letter == 99)) }
{
    before == b'%' && (letter == b'a' || letter == b'c')
}

/// Adds what a format says of a commit: its fields, and its other bytes as they are. A field is a `%` and a letter, or a `%`, an `a` or a
/// `c`, and a letter:
///
/// - `%%` and `%n`: a `%` and a newline
/// - `%H` and `%h`: the id, and its first ten digits
/// - `%T` and `%P`: the id of the tree, and those of the parents with a space between them
/// - `%s`: the subject
/// - `%an` and `%ae`: the author's name and address
/// - `%ct` and `%ci`: the committer's time in seconds, and as a date such as `2005-04-07 15:13:13 -0700`
///
/// Any other says nothing, and so does one that the end of the format cuts short.
///
/// # Errors
///
/// Where memory runs out. What was added then is a beginning of what the format says, or nothing.
pub fn add_formatted(
    line: &mut Vec<u8>,
    format: &[u8],
    commit: Commit<'_>,
) -> Result<(), AllocError>
    ensures whole { OnOk result (line.new.items ≡ line.old.items ++ formatted (page_commit commit.entry) 0 format.now) }
    ensures begun { (added more : List ℕ) × (line.new.items ≡ line.old.items ++ added)
        × (added ++ more ≡ formatted (page_commit commit.entry) 0 format.now) }
    ensures succeeds { formatted (page_commit commit.entry) 0 format.now ≡ [] → IsOk result }
{
    let mut before = 0;
    for byte in format {
        if before == 0 {
            if *byte == b'%' {
                before = b'%';
            } else {
                line.push(*byte)?;
            }
        } else if goes_on(before, *byte) {
            before = *byte;
        } else {
            add_field(line, before, *byte, commit)?;
            before = 0;
        }
    }
    Ok(())
}
