//! Certificates of runs: written behind the lines, and verified by another run.
use crate::answer::{
    Answered, answer, answer_from, input_lines, open, resolve, takes_lines, write,
};
use crate::failure::Failure;
use crate::graph::rows_of;
use crate::help::about;
use gix_certificate::asked::{Left, check, each, fixed, meaning, stood_for};
use gix_certificate::{
    Certificate, Fault, Hashing, Lines, Meaning, Revision, check_new, load, pages, running_program,
    save,
};
use gix_hash::Keys;
use gix_object::Kind;
use gix_options::{Asked, Asks, Misuse, Name, Question, Rows, VERSION, read_arguments};
use gix_questions::{resolve_one, wanted};
use gix_repository::Repository;
use gix_revision::{Chosen, Resolved};
use std::alloc::AllocError;
use std::env;
use std::io::{self, Write};

/// The status where other lines are written than a certificate says.
const DIFFERS: u8 = 3;

/// Does what a question about a repository asks, with or without a certificate, and gives the status.
pub(crate) fn serve<W: Write>(
    rt: &HostRuntime,
    keys: Keys,
    words: &[String],
    question: &Question,
    output: &mut W,
) -> Result<u8, Failure> {
    if question.name == Name::VerifyCertificate {
        return verify(rt, keys, question, output);
    }
    let Some(path) = &question.options.certificate else {
        return answer(rt, keys, question, output);
    };
    check_new(rt, path.as_str())?;
    let certificate = match certify(rt, keys, words, question, output) {
        Ok(certificate) => certificate,
        Err(failure) => {
            let _ = eprintln!(rt; "gix_walk: no certificate is written, since the run fails:");
            return Err(failure);
        }
    };
    let text = certificate.text(rt.alloc())?;
    save(rt, path.as_str(), text.as_str())?;
    Ok(certificate.status)
}

/// Answers a question, and gives the certificate of that.
fn certify<W: Write>(
    rt: &HostRuntime,
    keys: Keys,
    words: &[String],
    question: &Question,
    output: &mut W,
) -> Result<Certificate, Failure> {
    let given = copies(rt, words)?;
    let mut repository = open(rt, &question.place)?;
    certify_in(rt, keys, &mut repository, given, question, output)
}

/// Answers a question in its repository, and gives the certificate of that.
fn certify_in<W: Write>(
    rt: &HostRuntime,
    keys: Keys,
    repository: &mut Repository<HostRuntime>,
    words: Vec<String>,
    question: &Question,
    output: &mut W,
) -> Result<Certificate, Failure> {
    let alloc = rt.alloc();
    let lines = input_lines(rt, question)?;
    let resolved = resolve(rt, repository, question, lines.as_slice())?;
    let revisions = revisions_of(rt, resolved.as_slice())?;
    let asked = each(alloc, question.asked.as_slice(), lines.as_slice())?;
    check(
        alloc,
        repository.kind(),
        asked.as_slice(),
        revisions.as_slice(),
    )?;
    let mut hashing = Hashing::new(output);
    let answered = answer_from(rt, keys, repository, question, resolved, &mut hashing)?;
    let mut certificate = certificate_of(rt, revisions, answered, hashing.finish())?;
    certificate.words = words;
    certificate.lines = lines;
    Ok(certificate)
}

/// Copies of words.
fn copies(rt: &HostRuntime, words: &[String]) -> Result<Vec<String>, AllocError> {
    let mut copies = Vec::new(rt.alloc());
    for word in words {
        copies.push(word.clone()?)?;
    }
    Ok(copies)
}

/// The revisions of a certificate, and what they stand for.
fn revisions_of(rt: &HostRuntime, resolved: &[Resolved]) -> Result<Vec<Revision>, AllocError> {
    let mut revisions = Vec::new(rt.alloc());
    for one in resolved {
        let word = one.word.clone()?;
        revisions.push(Revision {
            word,
            meaning: meaning(one),
        })?;
    }
    Ok(revisions)
}

/// The certificate of a run of this program, without its words and lines.
fn certificate_of(
    rt: &HostRuntime,
    revisions: Vec<Revision>,
    answered: Answered,
    output: Lines,
) -> Result<Certificate, Failure> {
    let about = about(rt).ok();
    let name = env::args(rt).ok().and_then(|mut words| words.next());
    let program = running_program(rt, VERSION, about.as_ref(), name.as_ref())?;
    Ok(Certificate {
        words: Vec::new(rt.alloc()),
        lines: Vec::new(rt.alloc()),
        revisions,
        output,
        status: answered.status,
        rows: answered.rows,
        question: answered.into_words(),
        program,
        pages: pages(rt.alloc())?,
    })
}

/// Runs the words of a certificate again, from its ids, and writes what agrees and what differs.
fn verify<W: Write>(
    rt: &HostRuntime,
    keys: Keys,
    question: &Question,
    output: &mut W,
) -> Result<u8, Failure> {
    let [Asked::Word(path)] = question.asked.as_slice() else {
        return Err(Failure::Certificate(Fault::Member("words")));
    };
    let kept = load(rt, path.as_str())?;
    let now = again(rt, keys, question, &kept)?;
    let report = kept.report(rt.alloc(), &now)?;
    write(output, report.as_bytes())?;
    Ok(if kept.has_same_question(&now) && kept.has_same_output(&now) {
        0
    } else {
        DIFFERS
    })
}

/// The certificate of what a certificate's words give now, without words.
fn again(
    rt: &HostRuntime,
    keys: Keys,
    question: &Question,
    kept: &Certificate,
) -> Result<Certificate, Failure> {
    let mut asked = question_of(rt, kept)?;
    if question.options.rows == Rows::Unused {
        asked.options.rows = Rows::Unused;
    }
    let mut repository = open(rt, &question.place)?;
    again_in(rt, keys, &mut repository, &asked, kept)
}

/// The same of its words' question in a repository.
fn again_in(
    rt: &HostRuntime,
    keys: Keys,
    repository: &mut Repository<HostRuntime>,
    asked: &Question,
    kept: &Certificate,
) -> Result<Certificate, Failure> {
    let found = resolve_again(rt, repository, asked, kept)?;
    let revisions = revisions_of(rt, found.as_slice())?;
    let mut hashing = Hashing::new(io::sink());
    let resolved = resolved_of(rt, kept)?;
    let answered = answer_from(rt, keys, repository, asked, resolved, &mut hashing)?;
    certificate_of(rt, revisions, answered, hashing.finish())
}

/// What the words of a certificate ask. They ask for a certificate, and the rows and lines that it names go with them.
fn question_of(rt: &HostRuntime, kept: &Certificate) -> Result<Question, Failure> {
    let Asks::Question(question) = read_again(rt, kept)? else {
        return Err(Failure::Certificate(Fault::Member("words")));
    };
    let options = &question.options;
    let name = if options.certificate.is_none() || question.name == Name::VerifyCertificate {
        "words"
    } else if kept.rows != gix_certificate::Rows::Unused && kept.rows != rows_of(options) {
        "rows"
    } else if !kept.lines.is_empty() && !takes_lines(&question) {
        "lines"
    } else {
        return Ok(question);
    };
    Err(Failure::Certificate(Fault::Member(name)))
}

/// What the words of a certificate ask, where they ask something.
fn read_again(rt: &HostRuntime, kept: &Certificate) -> Result<Asks, Fault> {
    match read_arguments(rt.alloc(), kept.words.as_slice()) {
        Ok(asks) => Ok(asks),
        Err(Misuse::Memory) => Err(Fault::Memory),
        Err(_) => Err(Fault::Member("words")),
    }
}

/// What the revisions of a certificate stood for.
fn resolved_of(rt: &HostRuntime, kept: &Certificate) -> Result<Vec<Resolved>, AllocError> {
    let mut resolved = Vec::new(rt.alloc());
    for revision in kept.revisions.iter() {
        let word = revision.word.clone()?;
        let chosen = match revision.meaning {
            Meaning::One { id, is_excluded } => Chosen::One {
                id,
                is_hidden: is_excluded,
            },
            Meaning::Symmetric { one, other } => Chosen::Symmetric { one, other },
        };
        resolved.push(Resolved { word, chosen })?;
    }
    Ok(resolved)
}

/// What the words of a certificate stand for now. Of those that stand for nothing it is said why.
fn resolve_again(
    rt: &HostRuntime,
    repository: &mut Repository<HostRuntime>,
    again: &Question,
    kept: &Certificate,
) -> Result<Vec<Resolved>, Failure> {
    let alloc = rt.alloc();
    let wanted = wanted(again.name);
    let words = each(alloc, again.asked.as_slice(), kept.lines.as_slice())?;
    let mut left = Left::new(alloc, repository.kind(), kept.revisions.as_slice());
    let mut found = Vec::new(alloc);
    for word in words.iter() {
        let taken = left.take(word)?;
        check_fixed(rt, repository, word, taken, wanted)?;
        if let Err(fault) = resolve_one(alloc, repository, word, &[], wanted, &mut found) {
            let _ = eprintln!(rt; "gix_walk: now: {fault}");
        }
    }
    left.end()?;
    Ok(found)
}

/// Whether a word stood for what it stands for whatever refs there are, as far as that is so.
fn check_fixed(
    rt: &HostRuntime,
    repository: &mut Repository<HostRuntime>,
    word: &Asked,
    taken: &[Revision],
    wanted: Kind,
) -> Result<(), Failure> {
    let alloc = rt.alloc();
    let Some(word) = fixed(alloc, repository.kind(), word, taken)? else {
        return Ok(());
    };
    let mut found = Vec::new(alloc);
    if let Err(fault) = resolve_one(alloc, repository, &word, &[], wanted, &mut found) {
        return Err(Failure::Revision(fault));
    }
    if stood_for(taken, found.as_slice()) {
        Ok(())
    } else {
        Err(Failure::Certificate(Fault::Member("revisions")))
    }
}
