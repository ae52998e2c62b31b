//! The command `breadth`, and what all walks over commits have in common.
use super::*;

#[test]
fn prints_the_child_first(rt: HostRuntime) -> Result<(), Fail> {
    check(rt.alloc(), &[SAMPLE], &[(&["breadth", "#2"], "#2\n#1\n")])
}

#[test]
fn a_missing_parent_comes_behind_the_child(rt: HostRuntime) -> Result<(), Fail> {
    check(
        rt.alloc(),
        &[
            "commit #2 144\ntree #0\nparent #1\nauthor A <a@b> 2 +0000\ncommitter A <a@b> 2 +0000\n\n\n",
        ],
        &[(&["breadth", "#2"], "#2\n! missing #1")],
    )
}

#[test]
fn tells_what_an_object_is_not(rt: HostRuntime) -> Result<(), Fail> {
    check(
        rt.alloc(),
        &[
            "tree #a 96\ntree #0\nauthor A <a@b> 1 +0000\ncommitter A <a@b> 1 +0000\n\n\n",
            "blob #b 96\ntree #0\nauthor A <a@b> 1 +0000\ncommitter A <a@b> 1 +0000\n\n\n",
            "tag #c 96\ntree #0\nauthor A <a@b> 1 +0000\ncommitter A <a@b> 1 +0000\n\n\n",
            "commit #d 4\ntree\n",
        ],
        &[
            (&["breadth", "#a"], "! wrong kind #a"),
            (&["breadth", "#b"], "! wrong kind #b"),
            (&["breadth", "#c"], "! wrong kind #c"),
            (&["breadth", "#d"], "! broken object"),
        ],
    )
}

#[test]
fn hides_what_hidden_commits_reach(rt: HostRuntime) -> Result<(), Fail> {
    check(
        rt.alloc(),
        &[SAMPLE],
        &[
            (&["breadth", "#8", "^#7"], "#8\n#6\n#5\n#3\n"),
            (&["breadth", "^#7", "#8"], "#8\n#6\n#5\n#3\n"),
            (&["breadth", "^#7"], "! usage"),
            (&["newest", "#8", "^#7"], "#8\n#6\n#5\n#3\n"),
            (&["newest", "^#7", "#8"], "#8\n#6\n#5\n#3\n"),
            (&["newest", "^#7"], "! usage"),
            (&["oldest", "#8", "^#7"], "#8\n#6\n#5\n#3\n"),
            (&["oldest", "^#7", "#8"], "#8\n#6\n#5\n#3\n"),
            (&["oldest", "^#7"], "! usage"),
        ],
    )
}

#[test]
fn walks_through_ids_of_64_digits(rt: HostRuntime) -> Result<(), Fail> {
    check(
        rt.alloc(),
        &[
            "commit ##1 120\ntree ##a\nauthor A <a@b> 1 +0000\ncommitter A <a@b> 1 +0000\n\n\n",
            "commit ##2 192\ntree ##a\nparent ##1\nauthor A <a@b> 2 +0000\ncommitter A <a@b> 2 +0000\n\n\n",
        ],
        &[(&["breadth", "##2"], "##2\n##1\n")],
    )
}

#[test]
fn goes_to_first_parents_alone(rt: HostRuntime) -> Result<(), Fail> {
    check(
        rt.alloc(),
        &[
            SAMPLE,
            "commit #a 192\ntree #0\nparent #1\nparent #f\nauthor A <a@b> 9 +0000\ncommitter A <a@b> 9 +0000\n\n\n",
        ],
        &[
            (&["breadth", "--first-parent", "#8"], "#8\n#6\n#5\n#3\n#1\n"),
            (
                &["breadth", "--first-parent", "#7", "#8"],
                "#7\n#8\n#4\n#6\n#2\n#5\n#1\n#3\n",
            ),
            (
                &["breadth", "--first-parent", "#8", "^#7"],
                "#8\n#6\n#5\n#3\n",
            ),
            (&["breadth", "--first-parent", "#7", "^#8"], ""),
            (&["breadth", "--first-parent", "-n", "2", "#8"], "#8\n#6\n"),
            // no second parent is read, unless something is hidden
            (&["breadth", "--first-parent", "#a"], "#a\n#1\n"),
            (&["breadth", "--first-parent", "#a", "^#2"], "! missing #f"),
            (&["breadth", "#a"], "#a\n#1\n! missing #f"),
        ],
    )
}

#[test]
fn a_limit_ends_the_walk_before_a_fault(rt: HostRuntime) -> Result<(), Fail> {
    check(
        rt.alloc(),
        &[
            "commit #a 144\ntree #0\nparent #b\nauthor A <a@b> 2 +0000\ncommitter A <a@b> 2 +0000\n\n\n",
        ],
        &[
            (&["breadth", "-n", "1", "#a"], "#a\n"),
            (&["breadth", "-n", "2", "#a"], "#a\n! missing #b"),
            (&["breadth", "-n", "0", "#c"], ""),
            (&["newest", "-n", "0", "#c"], "! missing #c"),
        ],
    )
}
