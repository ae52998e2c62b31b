//! Certificates as texts, compared with one another, and hashed while lines are written.
use gix_certificate::{
    Certificate, Digest, Fault, Hashing, Lines, Meaning, PAGES, Page, Program, Revision, Rows,
    pages, read_certificate,
};
use gix_hash::ObjectId;
use std::alloc::Global;
use std::io::{self, ErrorKind, Write};
use std::test::Fail;

/// The SHA-256 of `abc`, by FIPS 180.
const OF_ABC: &str = "ba7816bf8f01cfea414140de5dae2223b00361a396177a9cb410ff61f20015ad";

/// The certificate of `example`, as python3 writes it: `json.dumps(.., indent=2, sort_keys=True)`. Its `sha256` is that of the same text with
/// null in its place.
const TEXT: &str = r#"{
  "certificate": 2,
  "lines": [
    "^main"
  ],
  "output": {
    "bytes": 3,
    "sha256": "ba7816bf8f01cfea414140de5dae2223b00361a396177a9cb410ff61f20015ad"
  },
  "pages": [
    {
      "name": "a page",
      "sha256": "ba7816bf8f01cfea414140de5dae2223b00361a396177a9cb410ff61f20015ad"
    }
  ],
  "program": {
    "commit": "c, d",
    "proved_by": "t",
    "sha256": "ba7816bf8f01cfea414140de5dae2223b00361a396177a9cb410ff61f20015ad",
    "version": "0.1.0"
  },
  "question": [
    "newest",
    "^1111111111111111111111111111111111111111"
  ],
  "revisions": [
    {
      "excluded": true,
      "id": "1111111111111111111111111111111111111111",
      "word": "main"
    },
    {
      "id": "1111111111111111111111111111111111111111",
      "other": "2222222222222222222222222222222222222222",
      "word": "a\"b"
    }
  ],
  "rows": "checked",
  "sha256": "b52ae54233542ceedf0d0f6e787f176d0e525989e9352b03aceaceff5aa2d418",
  "status": 3,
  "words": [
    "-C",
    ".",
    "newest",
    "--stdin"
  ]
}
"#;

/// Copies of texts.
fn texts(alloc: Global, texts: &[&str]) -> Result<Vec<String>, Fault> {
    let mut copies = Vec::new(alloc);
    for text in texts {
        copies.push(String::from_str(alloc, text)?)?;
    }
    Ok(copies)
}

/// A certificate with each kind of revision.
fn example(alloc: Global) -> Result<Certificate, Fault> {
    let Some(sha256) = Digest::from_hex(OF_ABC) else {
        return Err(Fault::Member("sha256"));
    };
    let one = ObjectId::Sha1([0x11; 20]);
    let other = ObjectId::Sha1([0x22; 20]);
    let mut revisions = Vec::new(alloc);
    revisions.push(Revision {
        word: String::from_str(alloc, "main")?,
        meaning: Meaning::One {
            id: one,
            is_excluded: true,
        },
    })?;
    revisions.push(Revision {
        word: String::from_str(alloc, "a\"b")?,
        meaning: Meaning::Symmetric { one, other },
    })?;
    let mut pages = Vec::new(alloc);
    pages.push(Page {
        name: String::from_str(alloc, "a page")?,
        sha256,
    })?;
    Ok(Certificate {
        words: texts(alloc, &["-C", ".", "newest", "--stdin"])?,
        lines: texts(alloc, &["^main"])?,
        revisions,
        question: texts(
            alloc,
            &["newest", "^1111111111111111111111111111111111111111"],
        )?,
        output: Lines { sha256, bytes: 3 },
        status: 3,
        rows: Rows::Checked,
        program: Program::new(alloc, "0.1.0", "commit c, d, proved by t\n", sha256)?,
        pages,
    })
}

/// What `found` says of a text: the text that is written for it, or the fault.
fn read_again(alloc: Global, text: &str) -> Result<String, Fault> {
    match read_certificate(alloc, text.as_bytes()) {
        Ok(certificate) => Ok(certificate.text(alloc)?),
        Err(Fault::Memory) => Err(Fault::Memory),
        Err(fault) => Ok(format!(in alloc; "{fault}")?),
    }
}

#[test]
fn is_written_and_read(rt: HostRuntime) -> Result<(), Fail> {
    let alloc = rt.alloc();
    assert_eq!(rt; example(alloc)?.text(alloc)?.as_str(), TEXT);
    assert_eq!(rt; read_again(alloc, TEXT)?.as_str(), TEXT);
    assert_eq!(rt;
        read_again(alloc, "{}")?.as_str(),
        "the certificate is wrong or incomplete at \"certificate\""
    );
    assert_eq!(rt; pages(alloc)?.len(), PAGES.len());
    Ok(())
}

#[test]
fn is_compared(rt: HostRuntime) -> Result<(), Fail> {
    let alloc = rt.alloc();
    let kept = example(alloc)?;
    let mut now = example(alloc)?;
    assert!(rt; kept.has_same_output(&now));
    assert!(rt; kept.has_same_question(&now));
    now.question = texts(
        alloc,
        &["newest", "1111111111111111111111111111111111111111"],
    )?;
    assert!(rt; !kept.has_same_question(&now));
    now.output.bytes = 4;
    now.revisions.clear();
    assert!(rt; !kept.has_same_output(&now));
    let report = kept.report(alloc, &now)?;
    assert_eq!(rt;
        report
            .lines()
            .filter(|line| line.starts_with("differs: "))
            .count(),
        4
    );
    assert_eq!(rt;
        report
            .lines()
            .filter(|line| line.starts_with("agrees: "))
            .count(),
        7
    );
    Ok(())
}

/// A word with `^` is another revision than the same word without it.
#[test]
fn agrees_with_itself(rt: HostRuntime) -> Result<(), Fail> {
    let alloc = rt.alloc();
    let mut kept = example(alloc)?;
    kept.revisions.push(Revision {
        word: String::from_str(alloc, "main")?,
        meaning: Meaning::One {
            id: ObjectId::Sha1([0x33; 20]),
            is_excluded: false,
        },
    })?;
    let report = kept.report(alloc, &kept)?;
    assert!(rt; !report.lines().any(|line| line.starts_with("differs: ")));
    Ok(())
}

/// A writer that takes a byte or two at a time, and at last fails.
#[derive(Drop)]
struct Narrow {
    taken: Vec<u8>,
    room: usize,
}

impl Write for Narrow {
    fn write(&mut self, bytes: &[u8]) -> io::Result<usize> {
        if self.room == 0 {
            return Err(io::Error::from(ErrorKind::StorageFull));
        }
        let count = self.room.min(bytes.len()).min(2);
        let front = bytes.get(..count).unwrap_or_default();
        match self.taken.extend_from_slice(front) {
            Ok(()) => {}
            Err(_) => return Err(io::Error::from(ErrorKind::OutOfMemory)),
        }
        self.room -= count;
        Ok(count)
    }

    fn flush(&mut self) -> io::Result<()> {
        Ok(())
    }
}

#[test]
fn hashes_what_was_accepted(rt: HostRuntime) -> Result<(), Fail> {
    let mut whole = Vec::new(rt.alloc());
    let mut hashing = Hashing::new(&mut whole);
    hashing.write_all(b"ab")?;
    hashing.write_all(b"c")?;
    let lines = hashing.finish();
    assert_eq!(rt; Digest::from_hex(OF_ABC), Some(lines.sha256));
    assert_eq!(rt; whole.as_slice(), b"abc".as_slice());
    let mut narrow = Narrow {
        taken: Vec::new(rt.alloc()),
        room: 3,
    };
    let mut hashing = Hashing::new(&mut narrow);
    assert!(rt; hashing.write_all(b"abcd").is_err());
    let lines = hashing.finish();
    assert_eq!(rt; Digest::from_hex(OF_ABC), Some(lines.sha256));
    assert_eq!(rt; lines.bytes, 3);
    Ok(())
}
