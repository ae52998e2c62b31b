//! Two certificates compared: what was written, and what another run of the same words writes now.
ghost use Rattle.std.specs.Prelude.{◌≡◌, ◌↔◌, IsTrue, string_eq};
ghost use Rattle.std.specs.Cmp.Lexicographic.{pointwise};

use crate::digest::Digest;
use crate::record::{Certificate, Lines, Meaning, Page, Program, Revision};
use std::alloc::{AllocError, Global};

/// Lines of which each says that something agrees or differs. What a certificate says is in quotes there.
#[derive(Drop)]
struct Report {
    alloc: Global,
    text: String,
}

impl Certificate {
    /// Whether two runs wrote the same number of bytes with the same digest, and ended with the same status.
    pub fn has_same_output(&self, other: &Certificate) -> bool
        ensures { IsTrue result
            ↔ (self.now.output ≡ other.now.output) × (self.now.status ≡ other.now.status) }
    {
        self.output == other.output && self.status == other.status
    }

    /// Whether two runs asked the same: the words of their questions are the same, in order.
    pub fn has_same_question(&self, other: &Certificate) -> bool
        ensures { result ≡ pointwise string_eq self.now.question.items other.now.question.items }
    {
        self.question == other.question
    }

    /// What agrees in both certificates and what differs, in lines. The revisions of the second are those that the words stand for now.
    pub fn report(&self, alloc: Global, now: &Certificate) -> Result<String, AllocError> {
        let mut report = Report {
            alloc,
            text: String::new(alloc),
        };
        match report.add_all(self, now) {
            Ok(()) => Ok(report.text),
            Err(error) => Err(error),
        }
    }
}

impl Report {
    /// Adds all lines.
    fn add_all(&mut self, then: &Certificate, now: &Certificate) -> Result<(), AllocError> {
        self.add_words("words", then.words.as_slice())?;
        if !then.lines.is_empty() {
            self.add_words("lines", then.lines.as_slice())?;
        }
        self.add_question(then.question.as_slice(), now.question.as_slice())?;
        self.add_output(then.output, now.output)?;
        self.add_status(then.status, now.status)?;
        self.add_program(&then.program, &now.program)?;
        self.add_pages(then.pages.as_slice(), now.pages.as_slice())?;
        self.add("rows", then.rows.word(), now.rows.word())?;
        self.add_revisions(then.revisions.as_slice(), now.revisions.as_slice())
    }

    /// Adds a line about what was and what is.
    fn add(&mut self, what: &str, then: &str, now: &str) -> Result<(), AllocError> {
        let line = if then == now {
            format!(in self.alloc; "agrees: {what}: {now}\n")?
        } else {
            format!(in self.alloc; "differs: {what}: {then} then, {now} now\n")?
        };
        Ok(self.text.push_str(line.as_str())?)
    }

    /// Adds words that nothing is compared with.
    fn add_words(&mut self, what: &str, words: &[String]) -> Result<(), AllocError> {
        let words = quoted(self.alloc, words)?;
        let line = format!(in self.alloc; "{what}:{words}\n")?;
        Ok(self.text.push_str(line.as_str())?)
    }

    /// Adds what was asked.
    fn add_question(&mut self, then: &[String], now: &[String]) -> Result<(), AllocError> {
        let asked = quoted(self.alloc, then)?;
        let asks = quoted(self.alloc, now)?;
        let line = if asked == asks {
            format!(in self.alloc; "agrees: question:{asks}\n")?
        } else {
            format!(in self.alloc; "differs: question:{asked} then,{asks} now\n")?
        };
        Ok(self.text.push_str(line.as_str())?)
    }

    /// Adds what was written.
    fn add_output(&mut self, then: Lines, now: Lines) -> Result<(), AllocError> {
        let written = lines(self.alloc, then)?;
        let writes = lines(self.alloc, now)?;
        self.add("output", written.as_str(), writes.as_str())
    }

    /// Adds the status.
    fn add_status(&mut self, then: u8, now: u8) -> Result<(), AllocError> {
        let ended = format!(in self.alloc; "{then}")?;
        let ends = format!(in self.alloc; "{now}")?;
        self.add("status", ended.as_str(), ends.as_str())
    }

    /// Adds which program ran.
    fn add_program(&mut self, then: &Program, now: &Program) -> Result<(), AllocError> {
        let ran = hash(self.alloc, then.sha256)?;
        let runs = hash(self.alloc, now.sha256)?;
        self.add("program", ran.as_str(), runs.as_str())?;
        self.add_known("version", Some(&then.version), Some(&now.version))?;
        self.add_known("commit", then.commit.as_ref(), now.commit.as_ref())?;
        self.add_known("proved by", then.proved_by.as_ref(), now.proved_by.as_ref())
    }

    /// Adds texts that may be unknown.
    fn add_known(
        &mut self,
        what: &str,
        then: Option<&String>,
        now: Option<&String>,
    ) -> Result<(), AllocError> {
        let then = known(self.alloc, then)?;
        let now = known(self.alloc, now)?;
        self.add(what, then.as_str(), now.as_str())
    }

    /// Adds the pages of both, by their names.
    fn add_pages(&mut self, then: &[Page], now: &[Page]) -> Result<(), AllocError> {
        let alloc = self.alloc;
        for page in then {
            let what = format!(in alloc; "page {:?}", page.name)?;
            let said = hash(alloc, page.sha256)?;
            let says = match now.iter().find(|other| other.name == page.name) {
                Some(other) => hash(alloc, other.sha256)?,
                None => String::from_str(alloc, "not there")?,
            };
            self.add(what.as_str(), said.as_str(), says.as_str())?;
        }
        for page in now {
            if !then.iter().any(|other| other.name == page.name) {
                let what = format!(in alloc; "page {:?}", page.name)?;
                let says = hash(alloc, page.sha256)?;
                self.add(what.as_str(), "not there", says.as_str())?;
            }
        }
        Ok(())
    }

    /// Adds the revisions of both, by their words.
    fn add_revisions(&mut self, then: &[Revision], now: &[Revision]) -> Result<(), AllocError> {
        let alloc = self.alloc;
        for revision in then {
            let what = format!(in alloc; "revision {:?}", revision.word)?;
            let meant = meaning(alloc, revision)?;
            let means = match now.iter().find(|other| is_alike(other, revision)) {
                Some(other) => meaning(alloc, other)?,
                None => String::from_str(alloc, "not there")?,
            };
            self.add(what.as_str(), meant.as_str(), means.as_str())?;
        }
        for revision in now {
            if !then.iter().any(|other| is_alike(other, revision)) {
                let what = format!(in alloc; "revision {:?}", revision.word)?;
                let means = meaning(alloc, revision)?;
                self.add(what.as_str(), "not there", means.as_str())?;
            }
        }
        Ok(())
    }
}

/// Words in quotes, with a space before each.
fn quoted(alloc: Global, words: &[String]) -> Result<String, AllocError> {
    let mut text = String::new(alloc);
    for word in words {
        let word = format!(in alloc; " {word:?}")?;
        text.push_str(word.as_str())?;
    }
    Ok(text)
}

/// The number and the digest of bytes, as words.
fn lines(alloc: Global, lines: Lines) -> Result<String, AllocError> {
    format!(in alloc; "{} bytes, SHA-256 {}", lines.bytes, lines.sha256)
}

/// A digest, as words.
fn hash(alloc: Global, sha256: Digest) -> Result<String, AllocError> {
    format!(in alloc; "SHA-256 {sha256}")
}

/// A text in quotes, where it is known.
fn known(alloc: Global, text: Option<&String>) -> Result<String, AllocError> {
    match text {
        Some(text) => format!(in alloc; "{text:?}"),
        None => String::from_str(alloc, "nobody knows"),
    }
}

/// What a revision stands for, as words.
fn meaning(alloc: Global, revision: &Revision) -> Result<String, AllocError> {
    match revision.meaning {
        Meaning::One { id, is_excluded } => {
            let mark = if is_excluded { "^" } else { "" };
            format!(in alloc; "{mark}{id}")
        }
        Meaning::Symmetric { one, other } => format!(in alloc; "{one}...{other}"),
    }
}

/// Whether two revisions are called alike, and are of one form.
fn is_alike(one: &Revision, other: &Revision) -> bool {
    let is_form = match (one.meaning, other.meaning) {
        (
            Meaning::One { is_excluded, .. },
            Meaning::One {
                is_excluded: also,
                ..
            },
        ) => { is_excluded == also }
        (Meaning::Symmetric { .. }, Meaning::Symmetric { .. }) => true,
        _ => false,
    };
    is_form && one.word == other.word
}
