//! The commands `newest` and `oldest`.
use super::*;

#[test]
fn lists_in_an_order_by_time(rt: HostRuntime) -> Result<(), Fail> {
    check(
        rt.alloc(),
        &[SAMPLE],
        &[
            (&["newest", "#8"], "#8\n#7\n#6\n#5\n#4\n#3\n#2\n#1\n"),
            (&["oldest", "#8"], "#8\n#6\n#5\n#3\n#1\n#7\n#4\n#2\n"),
        ],
    )
}

#[test]
fn leaves_out_what_is_older(rt: HostRuntime) -> Result<(), Fail> {
    check(
        rt.alloc(),
        &[SAMPLE],
        &[
            (&["newest", "--since", "4", "#8"], "#8\n#7\n#6\n#5\n#4\n"),
            (&["oldest", "--since", "4", "#8"], "#8\n#6\n#5\n#7\n#4\n"),
            (
                &["newest", "--since", "0000000004", "-n", "2", "#8"],
                "#8\n#7\n",
            ),
            (&["newest", "--since", "4", "#8", "^#6"], "#8\n#7\n#4\n"),
            (&["newest", "--since", "4", "#3", "#5"], "#5\n"),
            (&["newest", "--since", "9", "#8", "^#7"], ""),
            (&["newest", "--since", "9999999999", "#8"], ""),
            // a tip is read for its time
            (&["newest", "--since", "9", "#b"], "! missing #b"),
        ],
    )
}

#[test]
fn a_tip_without_a_time_is_told_first(rt: HostRuntime) -> Result<(), Fail> {
    check(
        rt.alloc(),
        &[SAMPLE, "commit #a 69\ntree #0\nauthor A <a@b> 1 +0000\n\n"],
        &[
            (&["newest", "#b"], "! missing #b"),
            (&["oldest", "#8", "#a"], "! broken object"),
        ],
    )
}

/// Commits behind the sample, each of which has a second parent that is missing, a blob, or a commit without a committer.
const LOST: &str = "\
commit #a 192\ntree #0\nparent #1\nparent #f\nauthor A <a@b> 9 +0000\ncommitter A <a@b> 9 +0000\n\n\n\
commit #b 192\ntree #0\nparent #8\nparent #c\nauthor A <a@b> 9 +0000\ncommitter A <a@b> 9 +0000\n\n\n\
blob #c 1\nx\n\
commit #d 192\ntree #0\nparent #8\nparent #e\nauthor A <a@b> 9 +0000\ncommitter A <a@b> 9 +0000\n\n\n\
commit #e 69\ntree #0\nauthor A <a@b> 1 +0000\n\n\
";

#[test]
fn a_parent_that_is_not_there_is_named_behind_its_child(rt: HostRuntime) -> Result<(), Fail> {
    check(
        rt.alloc(),
        &[SAMPLE, LOST],
        &[
            (&["newest", "#a"], "#a\n! missing #f"),
            (&["oldest", "#a"], "#a\n! missing #f"),
            (&["newest", "#8", "#a"], "#a\n! missing #f"),
            (
                &["oldest", "#8", "#a"],
                "#8\n#6\n#5\n#3\n#1\n#7\n#4\n#2\n#a\n! missing #f",
            ),
            (&["newest", "--since", "9", "#a"], "#a\n! missing #f"),
            (&["oldest", "--since", "2", "#a"], "#a\n! missing #f"),
            (&["newest", "-n", "2", "#a"], "#a\n! missing #f"),
            (&["newest", "#b"], "#b\n! wrong kind #c"),
            (&["newest", "--since", "9", "#b"], "#b\n! wrong kind #c"),
            (&["newest", "#d"], "#d\n! broken object"),
            (&["oldest", "--since", "9", "#d"], "#d\n! broken object"),
        ],
    )
}

#[test]
fn parents_of_the_last_line_are_not_asked_for(rt: HostRuntime) -> Result<(), Fail> {
    check(
        rt.alloc(),
        &[SAMPLE, LOST],
        &[
            (&["newest", "-n", "1", "#a"], "#a\n"),
            (&["oldest", "--since", "9", "-n", "1", "#a"], "#a\n"),
            (&["newest", "-n", "1", "#b"], "#b\n"),
            (&["newest", "-n", "1", "#d"], "#d\n"),
            (&["breadth", "#a"], "#a\n#1\n! missing #f"),
        ],
    )
}
