//! The items of commits.
use gix_parts::hash::{Kind, ObjectId};
use gix_parts::object::commit::{CommitRefIter, Signature, Token};
use gix_parts::object::decode::Error;
use std::alloc::{AllocError, Global};
use std::test::Fail;

/// A commit with one parent and an empty message: 144 bytes.
const SHORT: &[u8] =
    b"tree 4b825dc642cb6eb9a060e54bf8d69288fbee4904\nparent 1111111111111111111111111111111111111111\nauthor A <a@b> 2 +0000\ncommitter A <a@b> 2 +0000\n\n";

/// The same with ids of 64 digits: 192 bytes.
const LONG: &[u8] =
    b"tree aaaaaaaaaaaaaaaaaaaaaaaaaaaaaaaaaaaaaaaaaaaaaaaaaaaaaaaaaaaaaaaa\nparent 1111111111111111111111111111111111111111111111111111111111111111\nauthor A <a@b> 2 +0000\ncommitter A <a@b> 2 +0000\n\n";

fn name_of(item: Result<Token<'_>, Error>) -> &'static str {
    match item {
        Ok(Token::Tree { .. }) => "tree ",
        Ok(Token::Parent { .. }) => "parent ",
        Ok(Token::Author { .. }) => "author ",
        Ok(Token::Committer { .. }) => "committer ",
        Ok(Token::Rest { .. }) => "rest ",
        Err(Error::Tree) => "no tree",
        Err(Error::Parent) => "no parent",
        Err(Error::Author) => "no author",
        Err(Error::Committer) => "no committer",
        Err(_) => "another fault",
    }
}

fn names(alloc: Global, bytes: &[u8], kind: Kind) -> Result<String, AllocError> {
    let mut names = String::new(alloc);
    for item in CommitRefIter::from_bytes(bytes, kind) {
        names.push_str(name_of(item))?;
    }
    Ok(names)
}

#[test]
fn no_bytes_have_no_items(rt: HostRuntime) {
    let mut iter = CommitRefIter::from_bytes(b"", Kind::Sha1);
    assert_eq!(rt; iter.next(), None);
    assert_eq!(rt; iter.committer(), Err(Error::Missing));
    assert_eq!(rt; iter.tree_id(), Err(Error::Missing));
}

#[test]
fn a_tree_line_has_all_its_digits(rt: HostRuntime) {
    let bytes = b"tree 111111111111111111111111111111111111111\n";
    assert_eq!(rt; bytes.len(), 45);
    let mut iter = CommitRefIter::from_bytes(bytes, Kind::Sha1);
    assert_eq!(rt; iter.committer(), Err(Error::Tree));
    assert_eq!(rt; iter.next(), Some(Err(Error::Tree)));
    assert_eq!(rt; iter.next(), None);
    let mut again = CommitRefIter::from_bytes(bytes, Kind::Sha1);
    assert_eq!(rt; again.tree_id(), Err(Error::Tree));
}

#[test]
fn a_text_may_end_behind_its_parents(rt: HostRuntime) -> Result<(), Fail> {
    let parent = ObjectId::from_hex(b"1111111111111111111111111111111111111111")?;
    let tree = ObjectId::from_hex(b"4b825dc642cb6eb9a060e54bf8d69288fbee4904")?;
    assert!(rt; SHORT.len() >= 94);
    let mut iter = CommitRefIter::from_bytes(&SHORT[..94], Kind::Sha1);
    assert_eq!(rt; iter.next(), Some(Ok(Token::Tree { id: tree })));
    assert_eq!(rt; iter.next(), Some(Ok(Token::Parent { id: parent })));
    assert_eq!(rt; iter.next(), None);
    assert_eq!(rt; iter.next(), None);
    Ok(())
}

#[test]
fn a_whole_commit_is_read(rt: HostRuntime) -> Result<(), Fail> {
    let mut iter = CommitRefIter::from_bytes(SHORT, Kind::Sha1);
    assert_eq!(rt; iter.committer().map(|s| s.seconds()), Ok(2));
    let tree = ObjectId::from_hex(b"4b825dc642cb6eb9a060e54bf8d69288fbee4904")?;
    assert_eq!(rt; iter.tree_id(), Ok(tree));
    // the parent is taken by the second call
    assert_eq!(rt; iter.tree_id(), Err(Error::Missing));
    let line = b"A <a@b> 2 +0000";
    let signature = Signature { bytes: line };
    assert_eq!(rt; iter.next(), Some(Ok(Token::Author { line })));
    assert_eq!(rt; iter.next(), Some(Ok(Token::Committer { signature })));
    assert_eq!(rt; iter.next(), Some(Ok(Token::Rest { bytes: b"\n" })));
    assert_eq!(rt; iter.next(), None);
    assert_eq!(rt; iter.committer(), Err(Error::Missing));
    Ok(())
}

#[test]
fn seconds_stand_behind_the_last_angle(rt: HostRuntime) {
    let cases: [(&[u8], i64); 11] = [
        (b"A <a@b>", 0),
        (b"A <a@b> 9223372036854775807", i64::MAX),
        (b"A <a@b> 9223372036854775808", 0),
        (b"A <a@b> -9223372036854775808", i64::MIN),
        (b"A <a@b> -9223372036854775809", 0),
        (b"A <a@b> - 5", 0),
        (
            b"A <a@b> 100000000000000000000000000000000000000000 +0000",
            0,
        ),
        (b"A > 1 <a@b>   -12x3 +0000", -12),
        (b"A <a@b>5", 5),
        (b"A 7 +0000", 0),
        (b"", 0),
    ];
    for (bytes, seconds) in cases {
        assert_eq!(rt; Signature { bytes }.seconds(), seconds);
    }
}

/// The items of the front of a commit, from each first length to each last.
fn check_cuts(
    alloc: Global,
    bytes: &[u8],
    kind: Kind,
    cuts: &[(usize, usize, &str)],
) -> Result<(), Fail> {
    for (first, last, items) in cuts {
        for length in *first..=*last {
            let front = bytes.get(..length).ok_or("too long")?;
            let found = names(alloc, front, kind)?;
            if found.as_str() != *items {
                return Err(Fail::new(format_args!("{found} at {length}, not {items}")));
            }
        }
    }
    Ok(())
}

#[test]
fn a_commit_is_cut_at_each_length(rt: HostRuntime) -> Result<(), Fail> {
    let cuts = &[
        (0, 0, ""),
        (1, 45, "no tree"),
        (46, 46, "tree "),
        (47, 52, "tree no author"),
        (53, 93, "tree no parent"),
        (94, 94, "tree parent "),
        (95, 116, "tree parent no author"),
        (117, 117, "tree parent author "),
        (118, 142, "tree parent author no committer"),
        (143, 143, "tree parent author committer "),
        (144, 144, "tree parent author committer rest "),
    ];
    assert_eq!(rt; SHORT.len(), 144);
    check_cuts(rt.alloc(), SHORT, Kind::Sha1, cuts)
}

#[test]
fn a_commit_with_long_ids_is_cut_at_each_length(rt: HostRuntime) -> Result<(), Fail> {
    let cuts = &[
        (0, 0, ""),
        (1, 69, "no tree"),
        (70, 70, "tree "),
        (71, 76, "tree no author"),
        (77, 141, "tree no parent"),
        (142, 142, "tree parent "),
        (143, 164, "tree parent no author"),
        (165, 165, "tree parent author "),
        (166, 190, "tree parent author no committer"),
        (191, 191, "tree parent author committer "),
        (192, 192, "tree parent author committer rest "),
    ];
    assert_eq!(rt; LONG.len(), 192);
    check_cuts(rt.alloc(), LONG, Kind::Sha256, cuts)
}

#[test]
fn ids_have_the_kind_that_was_asked_for(rt: HostRuntime) -> Result<(), Fail> {
    assert_eq!(rt; names(rt.alloc(), SHORT, Kind::Sha256)?.as_str(), "no tree");
    assert_eq!(rt; names(rt.alloc(), LONG, Kind::Sha1)?.as_str(), "no tree");
    let mixed =
        b"tree aaaaaaaaaaaaaaaaaaaaaaaaaaaaaaaaaaaaaaaaaaaaaaaaaaaaaaaaaaaaaaaa\nparent 1111111111111111111111111111111111111111\n";
    assert_eq!(rt;
        names(rt.alloc(), mixed, Kind::Sha256)?.as_str(),
        "tree no parent"
    );
    Ok(())
}

#[test]
fn parents_may_repeat(rt: HostRuntime) -> Result<(), Fail> {
    let bytes =
        b"tree AAAAAAAAAAAAAAAAAAAAAAAAAAAAAAAAAAAAAAAA\nparent 1111111111111111111111111111111111111111\nparent 1111111111111111111111111111111111111111\nauthor \ncommitter \n";
    assert_eq!(rt;
        names(rt.alloc(), bytes, Kind::Sha1)?.as_str(),
        "tree parent parent author committer "
    );
    Ok(())
}
