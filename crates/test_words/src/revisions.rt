//! What words ask for. `git rev-parse` gives one id for the words of a pair, and refuses those that are refused here as no revision.
use gix_hash::Kind;
use gix_revision::parse::{Base, Rev, Revision, Step, parse};
use std::alloc::{AllocError, Global};
use std::process::Abort;
use std::test::Fail;

/// A word as text: its steps one by one, or why it is refused.
fn show(alloc: Global, word: &str) -> Result<String, AllocError> {
    match parse(alloc, Kind::Sha1, word) {
        Ok(revision) => show_revision(alloc, &revision),
        Err(fault) => format!(in alloc; "{fault}"),
    }
}

/// A word behind `--not` as text.
fn show_turned(alloc: Global, word: &str) -> Result<String, AllocError> {
    match parse(alloc, Kind::Sha1, word) {
        Ok(revision) => show_revision(alloc, &revision.turned()),
        Err(fault) => format!(in alloc; "{fault}"),
    }
}

/// What a word asks for, as text.
fn show_revision(alloc: Global, revision: &Revision<'_>) -> Result<String, AllocError> {
    let mut text = String::new(alloc);
    match revision {
        Revision::One { rev, is_hidden } => {
            text.push_str(if *is_hidden { "not " } else { "" })?;
            show_rev(alloc, &mut text, rev)?;
        }
        Revision::Range { hidden, tip } => {
            show_rev(alloc, &mut text, tip)?;
            text.push_str(" not ")?;
            show_rev(alloc, &mut text, hidden)?;
        }
        Revision::Symmetric { one, other } => {
            show_rev(alloc, &mut text, one)?;
            text.push_str(" or ")?;
            show_rev(alloc, &mut text, other)?;
        }
        Revision::Neither { one, other } => {
            text.push_str("not ")?;
            show_rev(alloc, &mut text, one)?;
            text.push_str(" not ")?;
            show_rev(alloc, &mut text, other)?;
        }
        Revision::Parents { rev, are_hidden } => {
            text.push_str(if *are_hidden { "not " } else { "" })?;
            text.push_str("parents of ")?;
            show_rev(alloc, &mut text, rev)?;
        }
        Revision::Without {
            rev,
            parent,
            is_hidden,
        } => {
            text.push_str(if *is_hidden { "not " } else { "" })?;
            show_rev(alloc, &mut text, rev)?;
            text.push_str(if *is_hidden { " but" } else { " not" })?;
            match parent {
                Some(number) => text.push_str(format!(in alloc; " parent {number}")?.as_str())?,
                None => text.push_str(" parents")?,
            }
        }
    }
    Ok(text)
}

/// Adds a revision.
fn show_rev(alloc: Global, text: &mut String, rev: &Rev<'_>) -> Result<(), AllocError> {
    match rev.base {
        Base::Id(id) => text.push_str(format!(in alloc; "id {id}")?.as_str())?,
        Base::Name(name) => text.push_str(name)?,
        Base::Upstream(Some(branch)) => {
            text.push_str(format!(in alloc; "upstream of {branch}")?.as_str())?;
        }
        Base::Upstream(None) => text.push_str("upstream")?,
    }
    for step in rev.steps.iter() {
        text.push_str(" ")?;
        match step {
            Step::Parent(number) => text.push_str(format!(in alloc; "^{number}")?.as_str())?,
            Step::Ancestor(count) => text.push_str(format!(in alloc; "~{count}")?.as_str())?,
            Step::Peel(target) => text.push_str(format!(in alloc; "{target:?}")?.as_str())?,
            Step::Entry(name) => text.push_str(format!(in alloc; "/{name}")?.as_str())?,
        }
    }
    Ok(())
}

/// Compares each word of a table with its text.
fn check(rt: &(impl Abort + AllocGlobal), table: &[(&str, &str)]) -> Result<(), AllocError> {
    for (word, expected) in table {
        let shown = show(rt.alloc(), word)?;
        assert_eq!(rt; shown.as_str(), *expected, "{word}");
    }
    Ok(())
}

/// Words behind `--not`, as `git rev-parse --not` turns them round.
const TURNED: &[(&str, &str)] = &[
    ("A", "not A"),
    ("^A", "A"),
    ("A..B", "A not B"),
    ("A..", "A not HEAD"),
    ("..B~2", "HEAD not B ~2"),
    ("A...B", "not A not B"),
    ("...B^", "not HEAD not B ^1"),
    ("A^@", "not parents of A"),
    ("^A^@", "parents of A"),
    ("A^!", "not A but parents"),
    ("^A^-2", "A not parent 2"),
    ("A:b..c", "not A Tree /b..c"),
    ("..", "`..` is the name of a folder"),
    ("^A..B", "`^` is in front of a range"),
];

#[test]
fn not_turns_words(rt: HostRuntime) -> Result<(), Fail> {
    for (word, expected) in TURNED {
        let shown = show_turned(rt.alloc(), word)?;
        assert_eq!(rt; shown.as_str(), *expected, "{word}");
    }
    Ok(())
}

#[test]
fn parents_of_words(rt: HostRuntime) -> Result<(), Fail> {
    check(
        &rt,
        &[
            ("HEAD^@", "parents of HEAD"),
            ("^HEAD~^@", "not parents of HEAD ~1"),
            ("v1^{commit}^!", "v1 Commit not parents"),
            ("^v1^!", "not v1 but parents"),
            ("main^-", "main not parent 1"),
            ("main^-02", "main not parent 2"),
            ("^main~2^-2", "not main ~2 but parent 2"),
            ("@^!", "HEAD not parents"),
            ("HEAD:a^@", "HEAD Tree /a^@"),
            ("main^-0", "it has a step that isn't known"),
            ("main^-x", "it has a step that isn't known"),
            ("main^!~1", "it has a step that isn't known"),
            ("main^@^@", "it has a step that isn't known"),
            ("main^!..topic", "it has a step that isn't known"),
            ("^^!", "it names nothing"),
        ],
    )?;
    Ok(())
}

#[test]
fn upstreams_of_words(rt: HostRuntime) -> Result<(), Fail> {
    check(
        &rt,
        &[
            ("@{u}", "upstream"),
            ("@{Upstream}~2", "upstream ~2"),
            ("@@{u}", "upstream"),
            ("HEAD@{U}^{tree}", "upstream Tree"),
            ("main@{upstream}", "upstream of main"),
            ("a/b@{u}:c", "upstream of a/b Tree /c"),
            ("@{u}..", "HEAD not upstream"),
            ("main@{u}...main", "upstream of main or main"),
            ("main@{u}^@", "parents of upstream of main"),
            ("@{u}@{u}", "it has a step that isn't known"),
        ],
    )?;
    Ok(())
}

#[test]
fn steps_of_words(rt: HostRuntime) -> Result<(), Fail> {
    check(
        &rt,
        &[
            ("main", "main"),
            ("@", "HEAD"),
            ("HEAD~", "HEAD ~1"),
            ("HEAD~1", "HEAD ~1"),
            ("@~~", "HEAD ~1 ~1"),
            ("HEAD^", "HEAD ^1"),
            ("HEAD^02", "HEAD ^2"),
            ("HEAD^0", "HEAD ^0"),
            ("HEAD~3^2~", "HEAD ~3 ^2 ~1"),
            ("v1.0^{}", "v1.0 Untagged"),
            ("v1.0^{commit}^", "v1.0 Commit ^1"),
            ("v1.0^{tree}", "v1.0 Tree"),
            ("v1.0^{tag}", "v1.0 Tag"),
            ("v1.0^{blob}", "v1.0 Blob"),
            ("v1.0^{object}", "v1.0 Object"),
            ("refs/heads/a-b", "refs/heads/a-b"),
            ("abcd", "abcd"),
            ("HEAD~2147483647", "HEAD ~2147483647"),
        ],
    )?;
    Ok(())
}

#[test]
fn ids_and_paths_of_words(rt: HostRuntime) -> Result<(), Fail> {
    check(
        &rt,
        &[
            (
                "4b825dc642cb6eb9a060e54bf8d69288fbee4904",
                "id 4b825dc642cb6eb9a060e54bf8d69288fbee4904",
            ),
            (
                "4B825DC642CB6EB9A060E54BF8D69288FBEE4904^{tree}",
                "id 4b825dc642cb6eb9a060e54bf8d69288fbee4904 Tree",
            ),
            ("HEAD:", "HEAD Tree"),
            ("HEAD:d", "HEAD Tree /d"),
            ("HEAD:d/", "HEAD Tree /d"),
            ("HEAD~1:d/e..f", "HEAD ~1 Tree /d /e..f"),
            ("v1^{tree}:a b", "v1 Tree Tree /a b"),
        ],
    )?;
    Ok(())
}

#[test]
fn ranges_of_words(rt: HostRuntime) -> Result<(), Fail> {
    check(
        &rt,
        &[
            ("^main", "not main"),
            ("^main~2", "not main ~2"),
            ("main..topic", "topic not main"),
            ("main~1..", "HEAD not main ~1"),
            ("..topic", "topic not HEAD"),
            ("main...topic^", "main or topic ^1"),
            ("main...", "main or HEAD"),
            ("...topic", "HEAD or topic"),
        ],
    )?;
    Ok(())
}

#[test]
fn words_that_are_refused(rt: HostRuntime) -> Result<(), Fail> {
    check(
        &rt,
        &[
            ("..", "`..` is the name of a folder"),
            ("^main..topic", "`^` is in front of a range"),
            ("^main...topic", "`^` is in front of a range"),
            ("", "it names nothing"),
            ("^", "it names nothing"),
            ("^^HEAD", "it names nothing"),
            ("~1", "it names nothing"),
            (":", "it names nothing"),
            ("HEAD~1x", "it has a step that isn't known"),
            ("HEAD^1x", "it has a step that isn't known"),
            ("HEAD^{commit", "it has a step that isn't known"),
            ("HEAD^{}x", "it has a step that isn't known"),
            ("HEAD^{foo}", "it has a kind of object that isn't known"),
            ("HEAD~2147483648", "it has a number above 2147483647"),
            ("HEAD~99999999999", "it has a number above 2147483647"),
        ],
    )?;
    Ok(())
}

#[test]
fn forms_that_are_not_taken(rt: HostRuntime) -> Result<(), Fail> {
    check(
        &rt,
        &[
            (
                "main@{1}",
                "the log of a ref (`@{..}`) isn't taken, but the id that `git reflog` shows is",
            ),
            (
                "@{yesterday}",
                "the log of a ref (`@{..}`) isn't taken, but the id that `git reflog` shows is",
            ),
            (
                "@{-1}",
                "the branch that was checked out before (`@{-n}`) isn't taken, but its name is",
            ),
            (
                "main@{push}",
                "what a branch is pushed to (`@{push}`) isn't taken, but its name is, as `origin/main`",
            ),
            (
                ":/text",
                "a search for a message (`:/text`) isn't taken, but the commit's id is",
            ),
            (
                "HEAD^{/a..b}",
                "a search for a message (`:/text`) isn't taken, but the commit's id is",
            ),
            (
                ":README",
                "a path in the index (`:path`) isn't taken, but files takes `HEAD:path`",
            ),
            (
                ":0:README",
                "a path in the index (`:path`) isn't taken, but files takes `HEAD:path`",
            ),
            (
                "HEAD:./a",
                "a path from the current folder (`:./path`) isn't taken, but one from the top is (`:path`)",
            ),
            (
                "HEAD:../a",
                "a path from the current folder (`:./path`) isn't taken, but one from the top is (`:path`)",
            ),
            (
                "ma*n",
                "a pattern isn't taken, but --branches, --tags, --remotes and --all are",
            ),
            (
                "ma[i]n~1",
                "a pattern isn't taken, but --branches, --tags, --remotes and --all are",
            ),
        ],
    )?;
    Ok(())
}
