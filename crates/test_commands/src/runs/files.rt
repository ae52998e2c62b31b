//! The command `files`.
use super::*;

/// A tree with a file, a tree of the id 7, and another file.
const ROOT: &str = "\
tree #a 86\n\
100644 a\0$\x11\
40000 d\0$\x77\
100644 e\0$\x33\n";

#[test]
fn lists_the_files_of_a_tree(rt: HostRuntime) -> Result<(), Fail> {
    check(
        rt.alloc(),
        &[ROOT, "tree #7 29\n100644 x\0$\x22\n"],
        &[
            (
                &["files", "#a"],
                "100644 #1 a\n040000 #7 d\n100644 #2 d/x\n100644 #3 e\n",
            ),
            (
                &["files", "-z", "#a"],
                "100644 #1 a\x00040000 #7 d\x00100644 #2 d/x\x00100644 #3 e\x00",
            ),
            (&["files", "-n", "0", "#a"], ""),
            (
                &["files", "-n", "3", "#a"],
                "100644 #1 a\n040000 #7 d\n100644 #2 d/x\n",
            ),
            (&["files", "-n", "1", "-z", "#a"], "100644 #1 a\x00"),
            (
                &["files", "-n", "5", "#a"],
                "100644 #1 a\n040000 #7 d\n100644 #2 d/x\n100644 #3 e\n",
            ),
        ],
    )
}

#[test]
fn an_empty_tree_has_no_files(rt: HostRuntime) -> Result<(), Fail> {
    check(rt.alloc(), &["tree #a 0\n\n"], &[(&["files", "#a"], "")])
}

#[test]
fn writes_modes_and_paths_as_they_are(rt: HostRuntime) -> Result<(), Fail> {
    check(
        rt.alloc(),
        &[
            "tree #a 144\n",
            "0 a b\0$\x11",
            "777777 \"\0$\x11",
            "040000 %\0$\x77",
            "160000 %\n\0$\x22",
            "120000 ..\0$\x33\n",
            "tree #7 61\n100644 .\0$\x22100755 .git\0$\x22\n",
        ],
        &[(
            &["files", "#a"],
            "000000 #1 a b\n777777 #1 \"\n040000 #7 %\n100644 #2 %/.\n100755 #2 %/.git\n160000 #2 %\n\n120000 #3 ..\n",
        )],
    )
}

/// A tree with a file, a tree of the id 7, and a file without a name.
const UNNAMED: &str = "\
tree #a 85\n\
100644 a\0$\x11\
40000 d\0$\x77\
100644 \0$\x33\n";

#[test]
fn a_tree_with_a_bad_name_has_no_lines(rt: HostRuntime) -> Result<(), Fail> {
    let alloc = rt.alloc();
    check(
        alloc,
        &[
            "tree #a 59\n40000 x/y\0$\x77100644 b\0$\x22\n",
            "tree #7 29\n100644 a\0$\x11\n",
            "tree #6 28\n160000 \0$\x11\n",
            "tree #5 30\n160000 a/\0$\x11\n",
            "tree #e 84\n40000 a\0$\x7740000 b\0$\x5540000 c\0$\x66\n",
        ],
        &[
            (&["files", "#a"], "! bad name in tree #a"),
            (&["files", "-n", "0", "-z", "#a"], "! bad name in tree #a"),
            (&["files", "#6"], "! bad name in tree #6"),
            (&["files", "#5"], "! bad name in tree #5"),
            (&["files", "#e"], "! bad name in tree #5"),
            (&["files", "#7"], "100644 #1 a\n"),
        ],
    )?;
    check(
        alloc,
        &[UNNAMED, "tree #7 29\n100644 x\0$\x22\n"],
        &[(&["files", "#a"], "! bad name in tree #a")],
    )?;
    check(
        alloc,
        &[UNNAMED, "tree #7 29\n100644 /\0$\x22\n"],
        &[(&["files", "#a"], "! bad name in tree #7")],
    )?;
    check(alloc, &[UNNAMED], &[(&["files", "#a"], "! missing #7")])
}

#[test]
fn a_tree_that_fails_has_no_lines(rt: HostRuntime) -> Result<(), Fail> {
    let alloc = rt.alloc();
    check(
        alloc,
        &["tree #7 28\n40000 d\0$\x77\ncommit #c 0\n\n"],
        &[
            (&["files", "#7"], "! cycle #7"),
            (&["files", "#c"], "! wrong kind #c"),
        ],
    )?;
    check(alloc, &[ROOT], &[(&["files", "#a"], "! missing #7")])?;
    check(
        alloc,
        &[ROOT, "tree #7 8\n100644 x\n"],
        &[(&["files", "#a"], "! broken object")],
    )?;
    check(
        alloc,
        &[ROOT, "blob #7 0\n\n"],
        &[(&["files", "#a"], "! wrong kind #7")],
    )?;
    check(alloc, &[], &[(&["files", "#a"], "! missing #a")])?;
    check(alloc, &["tree"], &[(&["files", "#a"], "! bad record 1")])
}

#[test]
fn files_takes_one_id(rt: HostRuntime) -> Result<(), Fail> {
    check(
        rt.alloc(),
        &["no record"],
        &[
            (&["files"], "! usage"),
            (&["files", "zz", "#a"], "! usage"),
            (&["files", "-z"], "! usage"),
            (&["files", "#a", "-z"], "! usage"),
            (&["files", "-z", "^#a"], "! usage"),
            (&["files", "-z", "#a", "#a"], "! usage"),
            (&["files", "-z", "zz"], "! bad id in word 3"),
            (&["breadth", "-z", "zz"], "! bad id in word 3"),
            (&["ahead", "-z", "#a", "#a"], "! usage"),
            (&["files", "zz", "zz"], "! usage"),
            (&["files", "^#a"], "! usage"),
            (&["files", "^"], "! usage"),
            (&["files", ""], "! bad id in word 2"),
            (&["files", "zz"], "! bad id in word 2"),
        ],
    )
}
