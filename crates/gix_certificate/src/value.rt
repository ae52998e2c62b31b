//! A certificate as JSON.
ghost use Rattle.std.specs.Prelude.{◌≡◌, IfOk, string_bytes};
ghost use Rattle.hex.specs.Hex.{encode_lower};
ghost use Rattle.serde_json.specs.View.{view};
ghost use Rattle.gix_certificate.specs.Written.{IsTextOf, IsLineOf, array_of, certificate_data, optional_data, output_data, page_data, program_data, revision_data, seal_data, text_data};

use crate::digest::Digest;
use crate::record::{Certificate, Lines, Meaning, Page, Program, Revision};
use serde_json::{Value, json};
use std::alloc::{AllocError, Global};

/// The version of the form.
pub(crate) const VERSION: u64 = 2;

impl Certificate {
    /// The certificate as a text: JSON in lines, with the members of each object by rising names, and a newline behind it. The member
    /// `sha256` is the digest of the same text with null in its place.
    pub fn text(&self, alloc: Global) -> Result<String, AllocError>
        ensures { IfOk result (λ text. IsTextOf self.now (string_bytes text)) }
    {
        let bare = text_with(alloc, self, None)?;
        text_with(alloc, self, Some(Digest::of(bare.as_bytes())))
    }
}

/// The text with this digest of itself, or with null in its place.
fn text_with(
    alloc: Global,
    certificate: &Certificate,
    seal: Option<Digest>,
) -> Result<String, AllocError>
    ensures { IfOk result (λ text. IsLineOf (certificate_data (seal_data seal) certificate.now) (string_bytes text)) }
{
    let mut text = certificate_value(alloc, certificate, seal)?.to_string_pretty(alloc)?;
    text.push_str("\n")?;
    Ok(text)
}

fn certificate_value(
    alloc: Global,
    certificate: &Certificate,
    seal: Option<Digest>,
) -> Result<Value, AllocError>
    ensures { IfOk result (λ value. view value ≡ certificate_data (seal_data seal) certificate.now) }
{
    // Each value is made where it is put in, so that none is held while another is made.
    json!(in alloc; {
        "certificate": VERSION,
        "lines": words_value(alloc, certificate.lines.as_slice())?,
        "output": output_value(alloc, &certificate.output)?,
        "pages": pages_value(alloc, certificate.pages.as_slice())?,
        "program": program_value(alloc, &certificate.program)?,
        "question": words_value(alloc, certificate.question.as_slice())?,
        "revisions": revisions_value(alloc, certificate.revisions.as_slice())?,
        "rows": certificate.rows.word(),
        "sha256": seal_value(alloc, seal)?,
        "status": certificate.status,
        "words": words_value(alloc, certificate.words.as_slice())?
    })
}

fn output_value(alloc: Global, output: &Lines) -> Result<Value, AllocError>
    ensures { IfOk result (λ value. view value ≡ output_data output.now) }
{
    let sha256 = digits(alloc, output.sha256)?;
    let bytes = output.bytes;
    json!(in alloc; {"bytes": bytes, "sha256": sha256})
}

/// A digest, or null.
fn seal_value(alloc: Global, seal: Option<Digest>) -> Result<Value, AllocError>
    ensures { IfOk result (λ value. view value ≡ seal_data seal) }
{
    let Some(digest) = seal else {
        return Ok(Value::Null);
    };
    let digits = digits(alloc, digest)?;
    Value::try_from_str(alloc, digits.as_str())
}

/// A digest in hex digits.
fn digits(alloc: Global, digest: Digest) -> Result<String, AllocError>
    ensures { IfOk result (λ text. string_bytes text ≡ encode_lower digest.bytes) }
{
    format!(in alloc; "{digest}")
}

fn page_value(alloc: Global, page: &Page) -> Result<Value, AllocError>
    ensures { IfOk result (λ value. view value ≡ page_data page.now) }
{
    let name = page.name.as_str();
    let sha256 = digits(alloc, page.sha256)?;
    json!(in alloc; {"name": name, "sha256": sha256})
}

fn pages_value(alloc: Global, pages: &[Page]) -> Result<Value, AllocError>
    ensures { IfOk result (λ value. view value ≡ array_of page_data pages.now) }
{
    let mut values = Vec::new(alloc);
    'pages: for page in pages {
        values.push(page_value(alloc, page)?)?;
    }
    Ok(Value::Array(values))
}

fn program_value(alloc: Global, program: &Program) -> Result<Value, AllocError>
    ensures { IfOk result (λ value. view value ≡ program_data program.now) }
{
    json!(in alloc; {
        "commit": optional_value(alloc, &program.commit)?, "proved_by": optional_value(alloc, &program.proved_by)?,
        "sha256": digits(alloc, program.sha256)?,
        "version": program.version.as_str()
    })
}

/// A text, or null.
fn optional_value(alloc: Global, text: &Option<String>) -> Result<Value, AllocError>
    ensures { IfOk result (λ value. view value ≡ optional_data text.now) }
{
    match text {
        Some(text) => Value::try_from_str(alloc, text.as_str()),
        None => Ok(Value::Null),
    }
}

fn revision_value(alloc: Global, revision: &Revision) -> Result<Value, AllocError>
    ensures { IfOk result (λ value. view value ≡ revision_data revision.now) }
{
    let word = revision.word.as_str();
    match revision.meaning {
        Meaning::One { id, is_excluded } => {
            json!(in alloc; {"excluded": is_excluded, "id": format!(in alloc; "{id}")?, "word": word})
        }
        Meaning::Symmetric { one, other } => {
            json!(in alloc; {"id": format!(in alloc; "{one}")?, "other": format!(in alloc; "{other}")?, "word": word})
        }
    }
}

fn revisions_value(alloc: Global, revisions: &[Revision]) -> Result<Value, AllocError>
    ensures { IfOk result (λ value. view value ≡ array_of revision_data revisions.now) }
{
    let mut values = Vec::new(alloc);
    'revisions: for revision in revisions {
        values.push(revision_value(alloc, revision)?)?;
    }
    Ok(Value::Array(values))
}

fn words_value(alloc: Global, words: &[String]) -> Result<Value, AllocError>
    ensures { IfOk result (λ value. view value ≡ array_of text_data words.now) }
{
    let mut values = Vec::new(alloc);
    'words: for word in words {
        values.push(Value::try_from_str(alloc, word.as_str())?)?;
    }
    Ok(Value::Array(values))
}
