//! Runs over objects that were compared with their ids.
use super::*;
use gix_commands::answer;
use gix_parts::hash::ObjectId;
use gix_parts::names::is_named;
use gix_parts::object::Kind;
use gix_parts::records::NamedObjects;
use gix_words::read_command;

/// An object, with its id.
type Named = (&'static str, Kind, &'static [u8]);

/// The ids of a tree, a commit of it, and the commit behind that.
const TREE: &str = "496d6428b9cf92981dc9495211e6e1120fb6f2ba";

const FIRST: &str = "823a8a296fc96cbdaba5c22bfe4b19f0de84017e";

const SECOND: &str = "d2a521c9b86619f5102ab7eb50afe40d1a82a3c9";

/// Objects under their ids, and one under another's.
const OBJECTS: &[Named] = &[
    (
        TREE,
        Kind::Tree,
        b"100644 a\0\xe6\x9d\xe2\x9b\xb2\xd1\xd6\x43\x4b\x8b\x29\xae\x77\x5a\xd8\xc2\xe4\x8c\x53\x91",
    ),
    (
        FIRST,
        Kind::Commit,
        b"tree 4b825dc642cb6eb9a060e54bf8d69288fbee4904\nauthor A <a@b> 1 +0000\ncommitter A <a@b> 1 +0000\n\n",
    ),
    (
        SECOND,
        Kind::Commit,
        b"tree 4b825dc642cb6eb9a060e54bf8d69288fbee4904\nparent 823a8a296fc96cbdaba5c22bfe4b19f0de84017e\nauthor A <a@b> 2 +0000\ncommitter A <a@b> 2 +0000\n\n",
    ),
    ("4b825dc642cb6eb9a060e54bf8d69288fbee4904", Kind::Blob, b""),
];

/// Puts an object in, if its id is its own.
fn add(objects: &mut NamedObjects, named: &Named) -> Result<(), AllocError> {
    let (id, kind, bytes) = *named;
    match ObjectId::from_hex(id.as_bytes()) {
        Ok(id) if is_named(&id, kind, bytes) => objects.insert(id, kind, bytes),
        _ => Ok(()),
    }
}

fn check_named(alloc: Global, rows: &[Row]) -> Result<(), Fail> {
    let mut objects = NamedObjects::new(alloc, Keys::KNOWN);
    for named in OBJECTS {
        add(&mut objects, named)?;
    }
    for (words, want) in rows {
        check_told_of(alloc, &words_of(alloc, words)?, &objects, want)?;
    }
    Ok(())
}

fn check_told_of(
    alloc: Global,
    words: &[String],
    objects: &NamedObjects,
    want: &str,
) -> Result<(), Fail> {
    let mut told = Vec::new(alloc);
    let command = read_command(alloc, words)?;
    if let Err(fault) = answer(alloc, &command, objects, None, &mut told) {
        push_fault(alloc, &mut told, fault)?;
    }
    compare(words, &told, &text_of(alloc, &[want])?)
}

#[test]
fn objects_are_those_of_their_ids(rt: HostRuntime) -> Result<(), Fail> {
    check_named(
        rt.alloc(),
        &[
            (
                &["newest", SECOND],
                "d2a521c9b86619f5102ab7eb50afe40d1a82a3c9\n823a8a296fc96cbdaba5c22bfe4b19f0de84017e\n",
            ),
            (
                &["topo", SECOND, "^823a8a296fc96cbdaba5c22bfe4b19f0de84017e"],
                "d2a521c9b86619f5102ab7eb50afe40d1a82a3c9\n",
            ),
            (
                &["files", TREE],
                "100644 e69de29bb2d1d6434b8b29ae775ad8c2e48c5391 a\n",
            ),
            (
                &["files", "4b825dc642cb6eb9a060e54bf8d69288fbee4904"],
                "! missing 4b825dc642cb6eb9a060e54bf8d69288fbee4904",
            ),
        ],
    )
}
