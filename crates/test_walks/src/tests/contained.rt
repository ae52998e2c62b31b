//! Which commits are contained in others.
use crate::tests::check;
use gix_parts::object::decode;
use gix_parts::object::find::existing_iter;
use gix_traverse::commit::contained::Error;
use gix_traverse::commit::simple::Hidden;
use std::test::Fail;
use test_rows::history::id;

#[test]
fn rows(rt: HostRuntime) -> Result<(), Fail> {
    check(rt.alloc(), "ids", test_contained_rows::tables())
}

#[test]
fn faults_of_painting_become_faults(rt: HostRuntime) {
    let missing = existing_iter::Error::NotFound { oid: id(6) };
    assert_eq!(rt; Error::from(Hidden::Find(missing)), Error::Find(missing));
    let broken = decode::Error::Parent;
    assert_eq!(rt;
        Error::from(Hidden::ObjectDecode(broken)),
        Error::ObjectDecode(broken)
    );
    assert_eq!(rt;
        Error::from(Hidden::Find(existing_iter::Error::Memory)),
        Error::Memory
    );
}
