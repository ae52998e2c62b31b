//! What texts say, as git reads them.
use gix_hash::{Kind, ObjectId};
use gix_refs::{
    Quoted, Ref, RefFault, common_dir, git_file, is_name_of_any_level, is_ref_name, name_of_text,
    packed_refs, read_ref, settings_of, text_of_name, upstream_of,
};
use std::alloc::Global;
use std::test::Fail;

/// Names, what `git check-ref-format` says of them, and what it says with `--allow-onelevel`.
const NAMES: &[(&str, bool, bool)] = &[
    ("refs/heads/main", true, true),
    ("HEAD", false, true),
    ("refs/heads/@", true, true),
    ("@", false, false),
    ("@/a", true, true),
    ("refs/heads/a@{b", false, false),
    ("refs/heads/{a", true, true),
    ("refs/heads/a.lock/b", false, false),
    ("refs/heads/a.lockb", true, true),
    ("refs/heads/.a", false, false),
    ("refs/a./b", true, true),
    ("refs/a.", false, false),
    ("refs/a..b", false, false),
    ("refs//a", false, false),
    ("/refs/a", false, false),
    ("refs/a/", false, false),
    ("", false, false),
    ("refs/a b", false, false),
    ("refs/a*", false, false),
    ("refs/a\x7f", false, false),
    ("refs/-a", true, true),
    ("refs/ü", true, true),
];

/// Texts of the files of refs, and what git takes them for.
const REFS: &[(&str, &str)] = &[
    (
        "1111111111111111111111111111111111111111\n",
        "1111111111111111111111111111111111111111",
    ),
    (
        "1111111111111111111111111111111111111111",
        "1111111111111111111111111111111111111111",
    ),
    (
        "aBcDeF1111111111111111111111111111111111\r\n",
        "abcdef1111111111111111111111111111111111",
    ),
    (
        "1111111111111111111111111111111111111111 x",
        "1111111111111111111111111111111111111111",
    ),
    ("1111111111111111111111111111111111111111x", ""),
    (" 1111111111111111111111111111111111111111", ""),
    ("111111111111111111111111111111111111111", ""),
    ("ref:refs/heads/main", "refs/heads/main"),
    ("ref: \t refs/heads/main \n\n", "refs/heads/main"),
    ("ref: HEAD\n", "HEAD"),
    ("ref: refs/heads/..\n", ""),
    ("ref: ../../secret\n", ""),
    ("ref: /etc/passwd\n", ""),
    ("REF: refs/heads/main\n", ""),
    ("ref:", ""),
    ("", ""),
];

/// Configs, and what git takes for the kind of the ids.
const CONFIGS: &[(&str, &str)] = &[
    ("", "sha1"),
    (
        "[core]\n\trepositoryformatversion = 0\n\tbare = false\n",
        "sha1",
    ),
    (
        "[CORE] RepositoryFormatVersion=1\r\n[Extensions] ObjectFormat=sha256 ; x\n",
        "sha256",
    ),
    (
        "[core]\nrepositoryformatversion = \"1\" # x\n[extensions]\nobjectformat = sha2\\\n56\n",
        "sha256",
    ),
    ("[extensions]\nobjectformat=sha256\nnew=1\n", "sha1"),
    (
        "[core]\nrepositoryformatversion=0\n[extensions]\nnew=1\n",
        "sha1",
    ),
    (
        "[core]\nrepositoryformatversion=0\n[extensions]\nobjectformat=sha1\n",
        "",
    ),
    (
        "[core]\nrepositoryformatversion=1\n[extensions]\nnew=1\n",
        "",
    ),
    (
        "[core]\nrepositoryformatversion=1\n[extensions]\nobjectformat=SHA1\n",
        "",
    ),
    ("[core]\nrepositoryformatversion=2\n", ""),
    ("[core \"x\"]\nrepositoryformatversion=2\n", "sha1"),
    ("[a \"b\\\"c\"]\nd=e\n[core]\nx = \"a ; b\" c\ny\n", "sha1"),
    ("[a \"b\nc\"]\n", ""),
    ("[core]\nx = \"a\n", ""),
    ("[core]\nx = a\\q\n", ""),
    ("[core\n", ""),
    ("[core]\n1x = 3\n", ""),
];

/// Packed refs with lines of each kind.
const PACKED: &str = "\
# pack-refs with: peeled fully-peeled sorted \n\
1111111111111111111111111111111111111111 refs/heads/main\n\
2222222222222222222222222222222222222222 refs/tags/v1\n\
^1111111111111111111111111111111111111111\n\
1111111111111111111111111111111111111111 refs/heads/a..b\n\
2222222222222222222222222222222222222222 HEAD\n\
no line\n\
2222222222222222222222222222222222222222 refs/heads/cut";

#[test]
fn names_are_those_of_git() -> Result<(), Fail> {
    for (name, is_whole, is_any) in NAMES {
        let bytes = name.as_bytes();
        if is_ref_name(bytes) != *is_whole || is_name_of_any_level(bytes) != *is_any {
            return Err(Fail::new(format_args!("{name:?}")));
        }
    }
    Ok(())
}

/// Whether a text is read as git reads it.
fn is_read_as(text: &str, expected: &str) -> bool {
    match read_ref(Kind::Sha1, text.as_bytes()) {
        Ok(Ref::Id(id)) => ObjectId::from_hex(expected.as_bytes()) == Ok(id),
        Ok(Ref::Symbolic(name)) => name == expected.as_bytes(),
        Err(_) => expected.is_empty(),
    }
}

#[test]
fn refs_are_read_as_git_reads_them() -> Result<(), Fail> {
    for (text, expected) in REFS {
        if !is_read_as(text, expected) {
            return Err(Fail::new(format_args!("{text:?}")));
        }
    }
    Ok(())
}

/// What a config says of the kind of the ids.
fn kind_in(alloc: Global, config: &str) -> Option<Kind> {
    match settings_of(alloc, config.as_bytes()) {
        Ok(settings) => Some(settings.kind),
        Err(_) => None,
    }
}

#[test]
fn configs_are_read_as_git_reads_them(rt: HostRuntime) -> Result<(), Fail> {
    for (config, expected) in CONFIGS {
        let expected = match *expected {
            "sha1" => Some(Kind::Sha1),
            "sha256" => Some(Kind::Sha256),
            _ => None,
        };
        if kind_in(rt.alloc(), config) != expected {
            return Err(Fail::new(format_args!("{config:?}")));
        }
    }
    Ok(())
}

/// Writes what packed refs say, a word for each.
fn tell_packed(alloc: Global, text: &str) -> Result<String, Fail> {
    let mut told = String::new(alloc);
    for line in packed_refs(Kind::Sha1, text.as_bytes()) {
        match line {
            Ok(packed) => told.push_str(text_of_name(alloc, packed.name)?.as_str())?,
            Err(RefFault::Line(_)) => told.push_str("line")?,
            Err(_) => told.push_str("name")?,
        }
        told.push(' ')?;
    }
    Ok(told)
}

#[test]
fn packed_refs_come_line_by_line(rt: HostRuntime) -> Result<(), Fail> {
    let told = tell_packed(rt.alloc(), PACKED)?;
    if told.as_str() == "refs/heads/main refs/tags/v1 name HEAD line line " {
        return Ok(());
    }
    Err(Fail::new(format_args!("{told}")))
}

#[test]
fn paths_end_before_the_end_of_the_line(rt: HostRuntime) -> Result<(), Fail> {
    assert!(rt; git_file(b"gitdir: ../a/.git\r\n") == Ok("../a/.git"));
    assert!(rt; git_file(b"gitdir: \n") == Err(RefFault::NoRepository));
    assert!(rt; git_file(b"gitdir:/a\n") == Err(RefFault::NoRepository));
    assert!(rt; common_dir(b"../..\n") == Ok("../.."));
    assert!(rt; common_dir(b"\n") == Err(RefFault::NoFolder));
    Ok(())
}

/// A config with remotes and branches.
const UPSTREAMS: &str = "\
[remote \"origin\"]\n\
\turl = x\n\
\tfetch = refs/heads/only:refs/remotes/origin/one\n\
\tfetch = +refs/heads/*:refs/remotes/origin/*\n\
\tfetch = +refs/*/pull:refs/pulled/*/here\n\
[remote \"Other\"]\n\
\tfetch = +refs/heads/x/*:refs/remotes/o/*\n\
[branch \"main\"]\n\
\tremote = other\n\
\tremote = origin\n\
\tmerge = refs/heads/main\n\
\tmerge = refs/heads/second\n\
[branch \"a/B\"]\n\
\tmerge = refs/heads/only\n\
\tremote = origin\n\
[branch \"local\"]\n\
\tremote = .\n\
\tmerge = refs/heads/main\n\
[branch \"pull\"]\n\
\tremote = origin\n\
\tmerge = refs/tags/1/pull\n\
[branch \"x\"]\n\
\tremote = Other\n\
\tmerge = refs/heads/x/y\n\
[branch \"far\"]\n\
\tremote = Other\n\
\tmerge = refs/heads/y\n\
[branch \"half\"]\n\
\tremote = origin\n\
\tmerge\n\
[branch \"lost\"]\n\
\tremote = none\n\
\tmerge = refs/heads/main\n";

/// Branches, and what `git rev-parse --symbolic-full-name BRANCH@{upstream}` prints.
const BRANCHES: &[(&str, &str)] = &[
    ("main", "refs/remotes/origin/main"),
    ("a/B", "refs/remotes/origin/one"),
    ("a/b", ""),
    ("local", "refs/heads/main"),
    ("pull", "refs/pulled/tags/1/here"),
    ("x", "refs/remotes/o/y"),
    ("far", ""),
    ("half", ""),
    ("lost", ""),
    ("", ""),
];

#[test]
fn upstreams_are_those_of_git(rt: HostRuntime) -> Result<(), Fail> {
    for (branch, wanted) in BRANCHES {
        let found = match upstream_of(rt.alloc(), UPSTREAMS.as_bytes(), branch.as_bytes()) {
            Ok(found) => found,
            Err(fault) => return Err(Fail::new(format_args!("{fault}"))),
        };
        let name = match &found {
            Some(name) => name.as_slice(),
            None => b"",
        };
        if name != wanted.as_bytes() {
            return Err(Fail::new(format_args!("{branch}: {name:?}")));
        }
    }
    Ok(())
}

/// Names of refs, and their texts.
const NAMES_AS_TEXTS: &[(&[u8], &str)] = &[
    (b"refs/heads/main", "refs/heads/main"),
    (b"refs/heads/\xC3\xA9", "refs/heads/\u{e9}"),
    (b"refs/heads/l\xE9in", "refs/heads/l\\351in"),
    (b"\xC3\xA9\x80\xFF", "\\303\\251\\200\\377"),
    (b"a\\351", "a\\134351"),
    (b"\\", "\\134"),
    (b"", ""),
];

#[test]
fn names_are_those_of_their_texts(rt: HostRuntime) -> Result<(), Fail> {
    let alloc = rt.alloc();
    for (name, text) in NAMES_AS_TEXTS {
        let as_text = text_of_name(alloc, *name)?;
        let as_name = name_of_text(alloc, *text)?;
        if as_text.as_str() != *text || as_name.as_slice() != *name {
            return Err(Fail::new(format_args!("{text}: {as_text}")));
        }
    }
    for text in ["\\101", "\\35", "\\3", "\\", "\\400", "\\x41"] {
        if name_of_text(alloc, text)?.as_slice() != text.as_bytes() {
            return Err(Fail::new(format_args!("{text}")));
        }
    }
    Ok(())
}

/// What a message writes for a name.
fn tell_quoted(alloc: Global, name: &[u8]) -> Result<String, Fail> {
    let quoted = Quoted::new(alloc, name)?;
    Ok(format!(in alloc; "{quoted:?}")?)
}

#[test]
fn names_in_messages_are_quoted_as_by_git(rt: HostRuntime) -> Result<(), Fail> {
    let alloc = rt.alloc();
    assert_eq!(rt; tell_quoted(alloc, b"a b")?.as_str(), "\"a b\"");
    assert_eq!(rt; tell_quoted(alloc, b"\xC3\xA9")?.as_str(), "\"\u{e9}\"");
    assert_eq!(rt;
        tell_quoted(alloc, b"l\xE9\"\x01\\in")?.as_str(),
        "\"l\\351\\\"\\001\\\\in\""
    );
    Ok(())
}

#[test]
fn names_may_hold_any_bytes(rt: HostRuntime) -> Result<(), Fail> {
    let alloc = rt.alloc();
    let packed = b"1111111111111111111111111111111111111111 refs/heads/l\xE9in\n";
    for line in packed_refs(Kind::Sha1, packed) {
        match line {
            Ok(packed) => assert_eq!(rt; packed.name, b"refs/heads/l\xE9in".as_slice()),
            Err(fault) => return Err(Fail::new(format_args!("{fault}"))),
        }
    }
    assert!(rt;
        read_ref(Kind::Sha1, b"ref: refs/heads/\xE9\n") == Ok(Ref::Symbolic(b"refs/heads/\xE9"))
    );
    let config =
        b"[branch \"\xE9\"]\nremote=\xE8\nmerge=refs/heads/x\xE7\n[remote \"\xE8\"]\nfetch=+refs/heads/*:refs/remotes/\xE8/*\n";
    match upstream_of(alloc, config, b"\xE9") {
        Ok(Some(name)) => assert_eq!(rt; name.as_slice(), b"refs/remotes/\xE8/x\xE7".as_slice()),
        _ => return Err(Fail::new(format_args!("no upstream"))),
    }
    Ok(())
}
