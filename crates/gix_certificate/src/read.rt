//! Certificates, read from a text that anybody may have written.
ghost use Rattle.std.specs.Prelude.{IfOk};
ghost use Rattle.gix_certificate.specs.Written.{IsTextOf};

use crate::digest::Digest;
use crate::fault::Fault;
use crate::record::{Certificate, Lines, Meaning, Page, Program, Revision, Rows};
use crate::value::VERSION;
use gix_hash::ObjectId;
use serde_json::{Category, Value};
use std::alloc::Global;
use std::str;

/// The statuses of a run that ends well.
const STATUSES: [u64; 2] = [0, 3];

/// The certificate that a text is, to the byte: a text in another layout, or with another member, is none.
///
/// # Errors
///
/// `NotText`, `NotJson`, `Version`, `Member`, `Changed`, and `Memory`.
pub fn read_certificate(alloc: Global, bytes: &[u8]) -> Result<Certificate, Fault>
    ensures { IfOk result (λ certificate. IsTextOf certificate bytes.now) }
{
    let Ok(text) = str::from_utf8(bytes) else {
        return Err(Fault::NotText);
    };
    let value = match Value::from_str(alloc, text) {
        Ok(value) => value,
        Err(error) => {
            return Err(match error.classify() {
                Category::Memory => Fault::Memory,
                _ => Fault::NotJson,
            });
        }
    };
    let certificate = certificate_of(alloc, &value)?;
    let again = certificate.text(alloc)?;
    if again.as_bytes() != bytes {
        return Err(Fault::Changed);
    }
    Ok(certificate)
}

fn certificate_of(alloc: Global, value: &Value) -> Result<Certificate, Fault> {
    if number(value, "certificate")? != VERSION {
        return Err(Fault::Version(VERSION));
    }
    let status = number(value, "status")?;
    if !STATUSES.contains(&status) {
        return Err(Fault::Member("status"));
    }
    let Some(rows) = Rows::of(text(value, "rows")?) else {
        return Err(Fault::Member("rows"));
    };
    let output = member(value, "output")?;
    Ok(Certificate {
        words: texts_of(alloc, value, "words")?,
        lines: texts_of(alloc, value, "lines")?,
        revisions: revisions_of(alloc, array(value, "revisions")?)?,
        question: texts_of(alloc, value, "question")?,
        output: Lines {
            sha256: digest(output, "sha256")?,
            bytes: number(output, "bytes")?,
        },
        status: if status == 0 { 0 } else { 3 },
        rows,
        program: program_of(alloc, member(value, "program")?)?,
        pages: pages_of(alloc, array(value, "pages")?)?,
    })
}

/// A member that is a list of texts.
fn texts_of(alloc: Global, value: &Value, name: &'static str) -> Result<Vec<String>, Fault> {
    let mut texts = Vec::new(alloc);
    for value in array(value, name)? {
        let Some(text) = value.as_str() else {
            return Err(Fault::Member(name));
        };
        texts.push(String::from_str(alloc, text)?)?;
    }
    Ok(texts)
}

fn revisions_of(alloc: Global, values: &[Value]) -> Result<Vec<Revision>, Fault> {
    let mut revisions = Vec::new(alloc);
    for value in values {
        let word = String::from_str(alloc, text(value, "word")?)?;
        let meaning = meaning_of(value)?;
        revisions.push(Revision { word, meaning })?;
    }
    Ok(revisions)
}

fn meaning_of(value: &Value) -> Result<Meaning, Fault> {
    let one = id(value, "id")?;
    if value.get("other").is_some() {
        let other = id(value, "other")?;
        return Ok(Meaning::Symmetric { one, other });
    }
    match member(value, "excluded")?.as_bool() {
        Some(is_excluded) => Ok(Meaning::One {
            id: one,
            is_excluded,
        }),
        None => Err(Fault::Member("excluded")),
    }
}

fn program_of(alloc: Global, value: &Value) -> Result<Program, Fault> {
    Ok(Program {
        version: String::from_str(alloc, text(value, "version")?)?,
        commit: optional(alloc, value, "commit")?,
        proved_by: optional(alloc, value, "proved_by")?,
        sha256: digest(value, "sha256")?,
    })
}

fn pages_of(alloc: Global, values: &[Value]) -> Result<Vec<Page>, Fault> {
    let mut pages = Vec::new(alloc);
    for value in values {
        let name = String::from_str(alloc, text(value, "name")?)?;
        let sha256 = digest(value, "sha256")?;
        pages.push(Page { name, sha256 })?;
    }
    Ok(pages)
}

/// A member of an object.
fn member<'a>(value: &'a Value, name: &'static str) -> Result<&'a Value, Fault> {
    match value.get(name) {
        Some(found) => Ok(found),
        None => Err(Fault::Member(name)),
    }
}

/// A member that is a number.
fn number(value: &Value, name: &'static str) -> Result<u64, Fault> {
    match member(value, name)?.as_u64() {
        Some(found) => Ok(found),
        None => Err(Fault::Member(name)),
    }
}

/// A member that is a text.
fn text<'a>(value: &'a Value, name: &'static str) -> Result<&'a str, Fault> {
    match member(value, name)?.as_str() {
        Some(found) => Ok(found),
        None => Err(Fault::Member(name)),
    }
}

/// A member that is a text or null.
fn optional(alloc: Global, value: &Value, name: &'static str) -> Result<Option<String>, Fault> {
    if member(value, name)?.is_null() {
        return Ok(None);
    }
    Ok(Some(String::from_str(alloc, text(value, name)?)?))
}

/// A member that is a list.
fn array<'a>(value: &'a Value, name: &'static str) -> Result<&'a [Value], Fault> {
    match member(value, name)?.as_array() {
        Some(found) => Ok(found.as_slice()),
        None => Err(Fault::Member(name)),
    }
}

/// A member that is a digest.
fn digest(value: &Value, name: &'static str) -> Result<Digest, Fault> {
    match Digest::from_hex(text(value, name)?) {
        Some(found) => Ok(found),
        None => Err(Fault::Member(name)),
    }
}

/// A member that is the id of an object.
fn id(value: &Value, name: &'static str) -> Result<ObjectId, Fault> {
    match ObjectId::from_hex(text(value, name)?.as_bytes()) {
        Ok(found) => Ok(found),
        Err(_) => Err(Fault::Member(name)),
    }
}
