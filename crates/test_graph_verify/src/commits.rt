//! Files that git wrote, compared with their commits.
ghost use Rattle.std.specs.Prelude.{IfOk};
ghost use Rattle.gix_graph_verify.specs.Named.{IsFound};

use gix_graph_verify::{Found, Objects, verify};
use gix_hash::ObjectId;
use gix_names::is_named;
use gix_object::Kind;
use std::alloc::{AllocError, Global};
use std::fmt::Write;
use std::test::Fail;

/// A file of three commits that git wrote: what is before the fan-out.
const LOW_HEAD: &str =
    "43475048010103004f49444600000000000000384f49444c000000000000043843444154000000000000047400000000\
    00000000000004e0";
/// What is behind the fan-out.
const LOW_BODY: &str =
    "00c63bda3410c8746f5479788670a85f6822f5a229d7f9d87e2395e6c9675b9672dd0cd0f3d72c2cf75791819afe4020\
    046792420e4af20ccab4de744b825dc642cb6eb9a060e54bf8d69288fbee49040000000170000000000000083b9aca02\
    4b825dc642cb6eb9a060e54bf8d69288fbee49047000000070000000000000043b9aca004b825dc642cb6eb9a060e54b\
    f8d69288fbee49040000000170000000000000083b9aca0124aa6d495b48ada6498d144a99033bf316939f51";
/// The layer above it, of two commits: what is before the fan-out.
const HIGH_HEAD: &str =
    "43475048010104014f49444600000000000000444f49444c000000000000044443444154000000000000046c42415345\
    00000000000004b40000000000000000000004c8";
/// What is behind the fan-out.
const HIGH_BODY: &str =
    "177fee2dfc01ce4c16ba1d29000901fdb7428a1ddaa7d7da45f15cfb8f99d4b99c4af468d6f304ad4b825dc642cb6eb9\
    a060e54bf8d69288fbee49040000000470000000000000103b9aca044b825dc642cb6eb9a060e54bf8d69288fbee4904\
    00000000000000020000000c3b9aca0324aa6d495b48ada6498d144a99033bf316939f514f6b5ed3a270faaacda80595\
    ff4b23828e6b8e4c";

/// A commit: its id, its seconds, and the ids of its parents.
type Line<'a> = (&'a str, i64, &'a [&'a str]);

const ROOT: &str = "29d7f9d87e2395e6c9675b9672dd0cd0f3d72c2c";

const LEFT: &str = "f75791819afe4020046792420e4af20ccab4de74";

const RIGHT: &str = "00c63bda3410c8746f5479788670a85f6822f5a2";

const MERGE: &str = "daa7d7da45f15cfb8f99d4b99c4af468d6f304ad";

const TIP: &str = "177fee2dfc01ce4c16ba1d29000901fdb7428a1d";

const EMPTY_TREE: &str = "4b825dc642cb6eb9a060e54bf8d69288fbee4904";

/// The commits of both files, as git wrote them. All have the empty tree.
const COMMITS: [Line; 5] = [
    (ROOT, 1_000_000_000, &[]),
    (LEFT, 1_000_000_001, &[ROOT]),
    (RIGHT, 1_000_000_002, &[ROOT]),
    (MERGE, 1_000_000_003, &[RIGHT, LEFT]),
    (TIP, 1_000_000_004, &[MERGE]),
];

/// An object that is stored at an id.
#[derive(Drop)]
struct Stored {
    id: ObjectId,
    kind: Kind,
    bytes: String,
}

/// A few objects, each under an id that needn't be its own.
#[derive(Drop)]
struct Table {
    all: Vec<Stored>,
    /// How many were read.
    reads: u32,
}

impl Objects for Table {
    type Fault = AllocError;

    fn read(&mut self, id: &ObjectId, buf: &mut Vec<u8>) -> Result<Found, AllocError> {
        self.reads = self.reads.saturating_add(1);
        buf.clear();
        for stored in self.all.iter() {
            if stored.id == *id {
                buf.extend_from_slice(stored.bytes.as_bytes())?;
                return Ok(if is_named(id, stored.kind, buf.as_slice()) {
                    Found::Named(stored.kind)
                } else {
                    Found::Misnamed
                });
            }
        }
        Ok(Found::Missing)
    }
}

/// The text of a commit, as git wrote it.
fn text_of(alloc: Global, line: Line) -> Result<String, Fail> {
    let mut text = format!(in alloc; "tree {EMPTY_TREE}\n")?;
    for parent in line.2 {
        writeln!(text, "parent {parent}")?;
    }
    let seconds = line.1;
    write!(
        text,
        "author A <a> {seconds} +0000\ncommitter A <a> {seconds} +0000\n\nm\n"
    )?;
    Ok(text)
}

fn id_of(hex: &str) -> Result<ObjectId, Fail> {
    Ok(ObjectId::from_hex(hex.as_bytes())?)
}

/// The commits, but none at the id `missing`, and another text at the id `other`; and the empty tree.
fn table_of(alloc: Global, missing: &str, other: &str) -> Result<Table, Fail> {
    let mut all = Vec::new(alloc);
    for line in COMMITS {
        if line.0 != missing {
            let mut bytes = text_of(alloc, line)?;
            if line.0 == other {
                bytes.push('m')?;
            }
            all.push(Stored {
                id: id_of(line.0)?,
                kind: Kind::Commit,
                bytes,
            })?;
        }
    }
    all.push(Stored {
        id: id_of(EMPTY_TREE)?,
        kind: Kind::Tree,
        bytes: String::new(alloc),
    })?;
    Ok(Table { all, reads: 0 })
}

/// Adds the bytes that hex digits say.
fn push_digits(bytes: &mut Vec<u8>, digits: &str) -> Result<(), AllocError> {
    for pair in digits.as_bytes().chunks(2) {
        if let [high, low] = pair {
            bytes.push(value_of(*high).wrapping_mul(16) | value_of(*low))?;
        }
    }
    Ok(())
}

fn value_of(digit: u8) -> u8 {
    match digit {
        b'0'..=b'9' => digit - b'0',
        b'a'..=b'f' => digit - b'a' + 10,
        _ => 0,
    }
}

/// A file of so many ids in its body.
fn file_of(alloc: Global, head: &str, body: &str, count: usize) -> Result<Vec<u8>, AllocError> {
    let mut bytes = Vec::new(alloc);
    let mut behind = Vec::new(alloc);
    push_digits(&mut bytes, head)?;
    push_digits(&mut behind, body)?;
    for first in 0..=255u8 {
        let mut sum = 0u32;
        for row in 0..count {
            let begins = behind.as_slice().get(row.saturating_mul(20)).copied();
            if begins.unwrap_or(0) <= first {
                sum = sum.saturating_add(1);
            }
        }
        bytes.extend_from_slice(&sum.to_be_bytes())?;
    }
    bytes.extend_from_slice(behind.as_slice())?;
    Ok(bytes)
}

/// A change of a file: its number, the place, and the bits that are turned there.
type Damage = (usize, usize, u8);

/// What is said of both files with these changes, compared with these objects, where so many have passed: the number of rows, then a line
/// for each difference, and how many objects were read.
fn said(
    alloc: Global,
    damages: &[Damage],
    passed: usize,
    table: &mut Table,
) -> Result<String, Fail> {
    let mut low = file_of(alloc, LOW_HEAD, LOW_BODY, 3)?;
    let mut high = file_of(alloc, HIGH_HEAD, HIGH_BODY, 2)?;
    for (layer, place, bits) in damages {
        let file = if *layer == 0 { &mut low } else { &mut high };
        if let Some(byte) = file.as_mut_slice().get_mut(*place) {
            *byte ^= *bits;
        }
    }
    let layers = [low.as_slice(), high.as_slice()];
    let mut text = String::new(alloc);
    match verify(alloc, &layers, passed, table) {
        Ok(report) => {
            write!(text, "{} rows", report.rows)?;
            for difference in report.differences.iter() {
                write!(text, "\n{difference}")?;
            }
        }
        Err(fault) => write!(text, "{fault}")?,
    }
    write!(text, "\n{} reads", table.reads)?;
    Ok(text)
}

/// Changes of the files, and what is said.
const DAMAGES: [(&[Damage], &str); 7] = [
    (&[], "5 rows\n5 reads"),
    (
        &[(0, 1140 + 35, 1)],
        "5 rows\nlayer 0: the file doesn't end with the hash of its bytes\n\
        00c63bda3410c8746f5479788670a85f6822f5a2: the commit has another time\n5 reads",
    ),
    (
        &[(0, 1140 + 36, 1)],
        "5 rows\nlayer 0: the file doesn't end with the hash of its bytes\n\
        29d7f9d87e2395e6c9675b9672dd0cd0f3d72c2c: the commit has another tree\n5 reads",
    ),
    (
        &[(1, 1132 + 23, 6)],
        "5 rows\nlayer 1: the file doesn't end with the hash of its bytes\n\
        177fee2dfc01ce4c16ba1d29000901fdb7428a1d: the commit has other parents\n5 reads",
    ),
    (
        &[(0, 1140 + 72 + 23, 1), (1, 1132 + 23, 0x40)],
        "5 rows\nlayer 0: the file doesn't end with the hash of its bytes\n\
        layer 1: the file doesn't end with the hash of its bytes\n\
        177fee2dfc01ce4c16ba1d29000901fdb7428a1d: the row isn't sound\n\
        f75791819afe4020046792420e4af20ccab4de74: the row isn't sound\n3 reads",
    ),
    (&[(1, 0, 1)], "layer 1: no signature CGPH\n0 reads"),
    (
        &[(1, 1240, 1)],
        "5 rows\nlayer 1: the file doesn't end with the hash of its bytes\n5 reads",
    ),
];

#[test]
fn changed_files_differ(rt: HostRuntime) -> Result<(), Fail> {
    for (damages, lines) in DAMAGES {
        let mut table = table_of(rt.alloc(), "", "")?;
        assert_eq!(rt; said(rt.alloc(), damages, 0, &mut table)?.as_str(), lines);
    }
    Ok(())
}

/// The id without an object, the id with another one, how many files have passed, and what is said.
const STORES: [(&str, &str, usize, &str); 6] = [
    (
        LEFT,
        TIP,
        0,
        "5 rows\n177fee2dfc01ce4c16ba1d29000901fdb7428a1d: another object is stored for the commit\n\
        f75791819afe4020046792420e4af20ccab4de74: the commit is missing\n5 reads",
    ),
    (
        LEFT,
        TIP,
        1,
        "5 rows\n177fee2dfc01ce4c16ba1d29000901fdb7428a1d: another object is stored for the commit\n2 reads",
    ),
    (LEFT, RIGHT, 1, "5 rows\n2 reads"),
    (LEFT, TIP, 2, "5 rows\n0 reads"),
    (LEFT, TIP, 3, "5 rows\n0 reads"),
    ("", "", 0, "5 rows\n5 reads"),
];

#[test]
fn rows_need_their_commits(rt: HostRuntime) -> Result<(), Fail> {
    for (missing, other, passed, lines) in STORES {
        let mut table = table_of(rt.alloc(), missing, other)?;
        assert_eq!(rt; said(rt.alloc(), &[], passed, &mut table)?.as_str(), lines);
    }
    Ok(())
}

#[test]
fn a_tree_is_no_commit(rt: HostRuntime) -> Result<(), Fail> {
    let mut damages = Vec::new(rt.alloc());
    let from = id_of(LEFT)?;
    let to = id_of(EMPTY_TREE)?;
    for place in 0..20usize {
        let byte = from.as_bytes().get(place).copied().unwrap_or(0);
        let other = to.as_bytes().get(place).copied().unwrap_or(0);
        damages.push((0, place + 1120, byte ^ other))?;
    }
    let mut table = table_of(rt.alloc(), "", "")?;
    let lines = "5 rows\nlayer 0: the file doesn't end with the hash of its bytes\n\
        4b825dc642cb6eb9a060e54bf8d69288fbee4904: the object is no commit\n\
        daa7d7da45f15cfb8f99d4b99c4af468d6f304ad: the commit has other parents\n5 reads";
    assert_eq!(rt;
        said(rt.alloc(), damages.as_slice(), 0, &mut table)?.as_str(),
        lines
    );
    Ok(())
}
