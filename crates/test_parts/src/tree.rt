//! The entries of trees.
ghost use Rattle.std.specs.Prelude.{◌≡◌, drop};
ghost use Rattle.gix_object.specs.TreeItems.{tree_items};
ghost use Rattle.gix_object.specs.TreeRefIter.{bytes_left, id_kind, items_left, IsEndOf};

use gix_parts::hash::{Kind, ObjectId};
use gix_parts::object::decode::Error;
use gix_parts::object::tree::{EntryMode, EntryRef, TreeRefIter};
use std::alloc::Global;
use std::process::Abort;
use std::test::Fail;

/// The next item has to be an entry.
fn next_entry<'a>(rt: &impl Abort, items: &mut TreeRefIter<'a>) -> EntryRef<'a> {
    match items.next() {
        Some(Ok(entry)) => entry,
        Some(Err(error)) => panic!(rt; "{error:?}"),
        None => panic!(rt; "no entry is left"),
    }
}

/// Checks the items of an entry's bytes, whole and cut off anywhere. The entry's mode is 100644, and its name x.
fn check_cuts(rt: &impl Abort, entry: &[u8], kind: Kind) {
    for len in 0..entry.len() {
        let fault = match len {
            0 => None,
            1..=6 => Some(Error::EntryMode),
            7 | 8 => Some(Error::EntryName),
            _ => Some(Error::EntryId),
        };
        let mut items = TreeRefIter::from_bytes(&entry[..len], kind);
        match items.next() {
            None => assert_eq!(rt; fault, None, "{len} bytes"),
            Some(Err(error)) => assert_eq!(rt; fault, Some(error), "{len} bytes"),
            Some(Ok(_)) => panic!(rt; "an entry of {len} bytes"),
        }
        assert!(rt; items.next().is_none(), "behind {len} bytes");
    }
    let mut items = TreeRefIter::from_bytes(entry, kind);
    let found = next_entry(rt, &mut items);
    assert_eq!(rt; found.mode.value, 0o100644);
    assert_eq!(rt; found.filename.as_bytes(), b"x".as_slice());
    assert_eq!(rt; found.oid.kind(), kind);
    assert!(rt; found.oid.as_bytes().iter().all(|byte| *byte == 2));
    assert!(rt; items.next().is_none());
}

#[test]
fn cuts(rt: HostRuntime) {
    let mut entry = [2; 29];
    entry[..9].copy_from_slice(b"100644 x\0");
    check_cuts(&rt, &entry, Kind::Sha1);
    let mut entry = [2; 41];
    entry[..9].copy_from_slice(b"100644 x\0");
    check_cuts(&rt, &entry, Kind::Sha256);
}

#[test]
fn seven_digits(rt: HostRuntime) {
    let mut entry = [2; 30];
    entry[..10].copy_from_slice(b"1006444 x\0");
    let mut items = TreeRefIter::from_bytes(&entry, Kind::Sha1);
    assert_eq!(rt; items.next(), Some(Err(Error::EntryMode)));
    assert_eq!(rt; items.next(), None);
}

/// Reads an item, and says where the next one begins.
fn offset_behind(items: &mut TreeRefIter<'_>, buf: &[u8]) -> usize
    requires { IsEndOf (bytes_left items.old) buf.now }
    ensures end { IsEndOf (bytes_left items.new) buf.now }
    ensures resumes { tree_items (id_kind items.new) (drop result buf.now) ≡ items_left items.new }
{
    let _ = items.next();
    items.offset_to_next_entry(buf)
}

#[test]
fn offsets(rt: HostRuntime) {
    let mut tree = [2; 86];
    tree[..9].copy_from_slice(b"100644 a\0");
    tree[29..37].copy_from_slice(b"40000 d\0");
    tree[57..66].copy_from_slice(b"100644 e\0");
    let tree = tree.as_slice();
    let mut items = TreeRefIter::from_bytes(tree, Kind::Sha1);
    assert_eq!(rt; items.offset_to_next_entry(tree), 0);
    assert_eq!(rt; offset_behind(&mut items, tree), 29);
    assert_eq!(rt; offset_behind(&mut items, tree), 57);
    let mut resumed = TreeRefIter::from_bytes(&tree[29..], Kind::Sha1);
    let found = next_entry(&rt, &mut resumed);
    assert_eq!(rt; found.filename.as_bytes(), b"d".as_slice());
    assert!(rt; found.mode.is_tree());
    assert_eq!(rt; offset_behind(&mut items, tree), 86);
    assert!(rt; items.next().is_none());
}

/// Both trees were written by git 2.39 in an empty folder, the second with `git init --object-format=sha256` and 64 ones:
///     git init
///     printf 'one\n' > a.txt
///     printf '#!/bin/sh\n' > run.sh
///     chmod +x run.sh
///     ln -s a.txt link
///     mkdir 'sub dir'
///     printf 'two\n' > 'sub dir/b'
///     printf 'three\n' > sub.txt
///     git add .
///     git update-index --add --cacheinfo 160000,1111111111111111111111111111111111111111,module
///     git cat-file tree $(git write-tree)
/// Each text is what `git ls-tree $(git write-tree)` printed.
const SHORT_IDS: &[u8; 202] = b"\
    100644 a.txt\0\x56\x26\xab\xf0\xf7\x2e\x58\xd7\xa1\x53\x36\x8b\xa5\x7d\xb4\xc6\x73\xc0\xe1\x71\
    120000 link\0\x8d\x14\xcb\xf9\x83\xb3\xfa\xd6\x83\x17\x1c\x94\x18\x99\x8d\x9f\x68\x34\x08\x23\
    160000 module\0\x11\x11\x11\x11\x11\x11\x11\x11\x11\x11\x11\x11\x11\x11\x11\x11\x11\x11\x11\x11\
    100755 run.sh\0\x1a\x24\x85\x25\x1c\x33\xa7\x04\x32\x39\x4c\x93\xfb\x89\x33\x0e\xf2\x14\xbf\xc9\
    40000 sub dir\0\x7f\x69\x51\x52\x98\xcb\xc4\xe3\x60\x2e\x46\x28\xaa\x09\x91\x6e\x53\x7c\xbb\x2d\
    100644 sub.txt\0\x2b\xdf\x67\xab\xb1\x63\xa4\xff\xb2\xd7\xf3\xf0\x88\x0c\x9f\xe5\x06\x8c\xe7\x82\
    ";

const SHORT_IDS_LISTED: &str = "\
100644 blob 5626abf0f72e58d7a153368ba57db4c673c0e171\ta.txt
120000 blob 8d14cbf983b3fad683171c9418998d9f68340823\tlink
160000 commit 1111111111111111111111111111111111111111\tmodule
100755 blob 1a2485251c33a70432394c93fb89330ef214bfc9\trun.sh
040000 tree 7f69515298cbc4e3602e4628aa09916e537cbb2d\tsub dir
100644 blob 2bdf67abb163a4ffb2d7f3f0880c9fe5068ce782\tsub.txt
";

const LONG_IDS: &[u8; 274] = b"\
    100644 a.txt\0\xa4\xed\x1f\x35\x5a\xfb\x02\xd8\x8c\xd2\x91\xd0\xe4\x46\x39\x10\xc5\x06\x1e\xce\x48\xa4\x9a\xa2\xb1\x53\x9b\x9a\xf9\x73\xb2\x86\
    120000 link\0\x0e\xfe\x91\x99\x05\x51\x6c\xae\x9a\x49\xc9\xb6\xd2\x72\x8c\x67\x88\xda\x5c\x91\x33\x46\x93\x12\xb2\xb5\xc0\x53\xe7\x8d\x1a\x6b\
    160000 module\0\x11\x11\x11\x11\x11\x11\x11\x11\x11\x11\x11\x11\x11\x11\x11\x11\x11\x11\x11\x11\x11\x11\x11\x11\x11\x11\x11\x11\x11\x11\x11\x11\
    100755 run.sh\0\x12\x49\x03\x4e\x3c\xf9\x00\x73\x62\xd6\x95\xb0\x9b\x1f\xbd\xb4\xc5\x78\x90\x3b\xf1\x0b\x66\x57\x49\xb9\x47\x43\xf8\x17\x7c\xe1\
    40000 sub dir\0\x22\x40\x73\x2d\x1d\xc7\x68\x4f\xdf\x65\x81\x8b\xf5\xeb\xef\xa0\xf3\xaf\x4c\x7b\x95\xac\xa8\xd1\xdb\x84\x79\xe3\xeb\xd7\x0c\xcc\
    100644 sub.txt\0\xb8\x36\x43\xf4\x39\x0b\x33\x9c\x1b\x3f\xf2\xf5\x13\x2c\x99\xbd\x4a\x77\x68\x7d\xd3\x21\xd3\xf3\x86\xc2\x59\x53\xaa\x6f\x1c\xe4\
    ";

const LONG_IDS_LISTED: &str = "\
100644 blob a4ed1f355afb02d88cd291d0e4463910c5061ece48a49aa2b1539b9af973b286\ta.txt
120000 blob 0efe919905516cae9a49c9b6d2728c6788da5c9133469312b2b5c053e78d1a6b\tlink
160000 commit 1111111111111111111111111111111111111111111111111111111111111111\tmodule
100755 blob 1249034e3cf9007362d695b09b1fbdb4c578903bf10b665749b94743f8177ce1\trun.sh
040000 tree 2240732d1dc7684fdf65818bf5ebefa0f3af4c7b95aca8d1db8479e3ebd70ccc\tsub dir
100644 blob b83643f4390b339c1b3ff2f5132c99bd4a77687dd321d3f386c25953aa6f1ce4\tsub.txt
";

/// The entries as `git ls-tree` prints them.
fn listed(alloc: Global, tree: &[u8], kind: Kind) -> Result<String, Fail> {
    let mut text = String::new(alloc);
    for item in TreeRefIter::from_bytes(tree, kind) {
        let EntryRef {
            mode,
            filename,
            oid,
        } = item?;
        let number = mode.value;
        let object = if mode.is_tree() {
            "tree"
        } else if number & 0o170000 == 0o160000 {
            "commit"
        } else {
            "blob"
        };
        writeln!(text, "{number:06o} {object} {oid}\t{filename}")?;
    }
    Ok(text)
}

#[test]
fn trees_of_git(rt: HostRuntime) -> Result<(), Fail> {
    assert_eq!(rt;
        listed(rt.alloc(), SHORT_IDS, Kind::Sha1)?.as_str(),
        SHORT_IDS_LISTED
    );
    assert_eq!(rt;
        listed(rt.alloc(), LONG_IDS, Kind::Sha256)?.as_str(),
        LONG_IDS_LISTED
    );
    Ok(())
}
