//! What options choose of a list.
use super::*;

#[test]
fn lines_are_skipped_and_limited(rt: HostRuntime) -> Result<(), Fail> {
    check(
        rt.alloc(),
        &[SAMPLE],
        &[
            (&["newest", "--skip", "0", "#8", "^#6"], "#8\n#7\n#4\n#2\n"),
            (&["newest", "--skip", "2", "#8", "^#6"], "#4\n#2\n"),
            (&["newest", "--skip", "4", "#8", "^#6"], ""),
            (&["newest", "--skip", "999999999", "#8", "^#6"], ""),
            (&["newest", "--skip", "1", "-n", "2", "#8"], "#7\n#6\n"),
            (&["oldest", "--skip", "7", "-n", "1", "#8"], "#2\n"),
            (&["topo", "--skip", "1", "-n", "0", "#8"], ""),
            (&["date", "--skip", "3", "#8", "^#1"], "#5\n#4\n#3\n#2\n"),
            (
                &["breadth", "--first-parent", "--skip", "1", "-n", "2", "#8"],
                "#6\n#5\n",
            ),
        ],
    )
}

#[test]
fn the_last_line_comes_first(rt: HostRuntime) -> Result<(), Fail> {
    check(
        rt.alloc(),
        &[SAMPLE],
        &[
            (&["newest", "--reverse", "#8", "^#6"], "#2\n#4\n#7\n#8\n"),
            (&["newest", "-n", "2", "--reverse", "#8"], "#7\n#8\n"),
            (
                &["topo", "--skip", "1", "-n", "2", "--reverse", "#8", "^#6"],
                "#4\n#7\n",
            ),
            (&["date", "--reverse", "#1", "^#1"], ""),
        ],
    )
}

#[test]
fn lines_are_counted(rt: HostRuntime) -> Result<(), Fail> {
    check(
        rt.alloc(),
        &[SAMPLE],
        &[
            (&["breadth", "--count", "#8"], "8\n"),
            (&["newest", "--count", "#8", "^#6"], "4\n"),
            (&["oldest", "--since", "4", "--count", "#8"], "5\n"),
            (&["topo", "--skip", "3", "--count", "#8"], "5\n"),
            (&["topo", "--skip", "3", "-n", "4", "--count", "#8"], "4\n"),
            (&["date", "-n", "0", "--count", "#8"], "0\n"),
            (&["date", "--count", "#1", "^#1"], "0\n"),
        ],
    )
}

#[test]
fn lines_have_times_and_parents(rt: HostRuntime) -> Result<(), Fail> {
    check(
        rt.alloc(),
        &[SAMPLE],
        &[
            (
                &["newest", "--timestamp", "-n", "1", "#8"],
                "! bad id in word 3",
            ),
            (&["newest", "-n", "2", "--timestamp", "#8"], "8 #8\n7 #7\n"),
            (
                &["topo", "--parents", "#8", "^#6"],
                "#8 #6 #7\n#7 #4\n#4 #2\n#2 #1\n",
            ),
            (
                &["date", "-n", "1", "--timestamp", "--parents", "-z", "#8"],
                "8 #8 #6 #7\0",
            ),
            (&["oldest", "--reverse", "--timestamp", "#1"], "1 #1\n"),
            // A commit names all of its parents, also if the walk takes the first.
            (
                &["breadth", "--first-parent", "-n", "1", "--parents", "#8"],
                "#8 #6 #7\n",
            ),
            (&["newest", "--count", "--timestamp", "-z", "#8"], "8\n"),
            (
                &["newest", "--parents", "--timestamp", "#8"],
                "! bad id in word 3",
            ),
        ],
    )
}

#[test]
fn merges_are_told_from_others(rt: HostRuntime) -> Result<(), Fail> {
    check(
        rt.alloc(),
        &[SAMPLE],
        &[
            (&["newest", "--merges", "#8"], "#8\n"),
            (&["topo", "--merges", "#7"], ""),
            (&["date", "--merges", "--skip", "1", "#8"], ""),
            (&["newest", "--no-merges", "#8", "^#6"], "#7\n#4\n#2\n"),
            (
                &["newest", "--no-merges", "--skip", "1", "-n", "1", "#8"],
                "#6\n",
            ),
            // What the walk takes as parents doesn't count, but what the commit names.
            (&["breadth", "--first-parent", "--merges", "#8"], "#8\n"),
            (
                &["breadth", "--first-parent", "--no-merges", "#8"],
                "#6\n#5\n#3\n#1\n",
            ),
        ],
    )
}

#[test]
fn later_commits_are_left_out(rt: HostRuntime) -> Result<(), Fail> {
    check(
        rt.alloc(),
        &[SAMPLE],
        &[
            (&["newest", "--until", "3", "#8"], "#3\n#2\n#1\n"),
            (&["topo", "--until", "0", "#8"], ""),
            (&["date", "--until", "9999999999", "-n", "1", "#8"], "#8\n"),
            (
                &["oldest", "--since", "2", "--until", "5", "--count", "#8"],
                "4\n",
            ),
            (
                &["breadth", "--until", "7", "--no-merges", "-n", "2", "#8"],
                "#6\n#7\n",
            ),
        ],
    )
}

#[test]
fn a_fault_leaves_lines_alone(rt: HostRuntime) -> Result<(), Fail> {
    let lost =
        "commit #9 144\ntree #0\nparent #a\nauthor A <a@b> 9 +0000\ncommitter A <a@b> 9 +0000\n\n\n";
    let missing = "#9\n! missing #a";
    check(
        rt.alloc(),
        &[lost],
        &[
            (&["newest", "#9"], missing),
            (&["newest", "--skip", "1", "#9"], "! missing #a"),
            (&["newest", "--reverse", "#9"], "! missing #a"),
            (&["newest", "--count", "#9"], "! missing #a"),
            (&["newest", "-n", "1", "--count", "#9"], "1\n"),
            (&["newest", "--merges", "-n", "1", "#9"], "! missing #a"),
            (&["newest", "--merges", "-n", "0", "#9"], ""),
        ],
    )
}

#[test]
fn options_have_one_order(rt: HostRuntime) -> Result<(), Fail> {
    check(
        rt.alloc(),
        &["no record"],
        &[
            (&["topo", "--skip", "#1"], "! usage"),
            (&["topo", "--skip", "1"], "! usage"),
            (&["topo", "--skip", "1000000000", "#1"], "! usage"),
            (&["topo", "--until", "-1", "#1"], "! usage"),
            (&["topo", "--until", "10000000000", "#1"], "! usage"),
            (&["topo", "--count"], "! usage"),
            (&["topo", "--merges", "^#1"], "! usage"),
            (
                &["topo", "--merges", "--no-merges", "#1"],
                "! bad id in word 3",
            ),
            (
                &["topo", "-n", "1", "--skip", "1", "#1"],
                "! bad id in word 4",
            ),
            (
                &["topo", "--count", "--reverse", "#1"],
                "! bad id in word 3",
            ),
            (
                &[
                    "newest", "--since", "1", "--until", "2", "--merges", "--skip", "3", "-n", "4",
                    "--count", "#1", "zz",
                ],
                "! bad id in word 13",
            ),
            (&["files", "--count", "#1"], "! usage"),
            (&["ahead", "--reverse", "#1"], "! usage"),
            (&["contains", "--merges", "#1"], "! usage"),
            (&["merge-base", "--skip", "1", "#1"], "! usage"),
        ],
    )
}
