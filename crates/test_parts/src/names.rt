//! The ids that objects have, as `git hash-object` prints them.
use gix_parts::hash::Kind;
use gix_parts::names::{is_named, name_of};
use gix_parts::object;
use std::alloc::{AllocError, Global};
use std::test::Fail;

/// Both ids of an object.
fn names(alloc: Global, object: object::Kind, bytes: &[u8]) -> Result<String, AllocError> {
    let short = name_of(Kind::Sha1, object, bytes);
    let long = name_of(Kind::Sha256, object, bytes);
    format!(in alloc; "{short} {long}")
}

#[test]
fn objects_have_the_ids_that_git_prints(rt: HostRuntime) -> Result<(), Fail> {
    let alloc = rt.alloc();
    let text =
        "4b825dc642cb6eb9a060e54bf8d69288fbee4904 6ef19b41225c5369f1c104d45d8d85efa9b057b53b14b4b9b939dd74decc5321";
    assert_eq!(rt; names(alloc, object::Kind::Tree, b"")?.as_str(), text);
    let text =
        "c57eff55ebc0c54973903af5f72bac72762cf4f4 745b1517d3a647e2a45689c4c0cf968ffed35e6bdc6a90e3e5c6e648dc30508b";
    assert_eq!(rt;
        names(alloc, object::Kind::Blob, b"Hello World!")?.as_str(),
        text
    );
    Ok(())
}

#[test]
fn the_kind_is_part_of_the_id(rt: HostRuntime) -> Result<(), Fail> {
    for kind in [Kind::Sha1, Kind::Sha256] {
        let id = name_of(kind, object::Kind::Commit, b"text");
        assert!(rt; is_named(&id, object::Kind::Commit, b"text"));
        assert!(rt; !is_named(&id, object::Kind::Tag, b"text"));
        assert!(rt; !is_named(&id, object::Kind::Commit, b"tex"));
    }
    Ok(())
}
