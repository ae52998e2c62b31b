//! The commands `topo` and `date`.
use super::*;

#[test]
fn lists_no_commit_before_its_children(rt: HostRuntime) -> Result<(), Fail> {
    check(
        rt.alloc(),
        &[SAMPLE],
        &[
            (&["topo", "#8", "#8"], "#8\n#7\n#4\n#2\n#6\n#5\n#3\n#1\n"),
            (&["date", "#8", "#8"], "#8\n#7\n#6\n#5\n#4\n#3\n#2\n#1\n"),
            (&["topo", "#8", "^#7"], "#8\n#6\n#5\n#3\n"),
            (&["topo", "#8", "^#5"], "#8\n#7\n#4\n#2\n#6\n"),
            (&["date", "^#7", "#8"], "#8\n#6\n#5\n#3\n"),
            (&["topo", "-n", "3", "#8"], "#8\n#7\n#4\n"),
            (&["date", "-n", "09", "#8", "^#7"], "#8\n#6\n#5\n#3\n"),
            (&["date", "-n", "0", "#8"], ""),
        ],
    )
}

#[test]
fn goes_to_first_parents_alone_in_order(rt: HostRuntime) -> Result<(), Fail> {
    check(
        rt.alloc(),
        &[SAMPLE],
        &[
            (&["topo", "--first-parent", "#8"], "#8\n#6\n#5\n#3\n#1\n"),
            (
                &["topo", "--first-parent", "#7", "#8"],
                "#8\n#6\n#5\n#3\n#7\n#4\n#2\n#1\n",
            ),
            (
                &["date", "--first-parent", "#7", "#8"],
                "#8\n#7\n#6\n#5\n#4\n#3\n#2\n#1\n",
            ),
            (&["topo", "--first-parent", "#8", "^#7"], "#8\n#6\n#5\n#3\n"),
            (&["date", "--first-parent", "#7", "^#8"], ""),
            (
                &["date", "--first-parent", "-n", "1", "--parents", "#8"],
                "#8 #6 #7\n",
            ),
        ],
    )
}

#[test]
fn a_fault_below_comes_before_all_lines(rt: HostRuntime) -> Result<(), Fail> {
    check(
        rt.alloc(),
        &[
            "commit #a 144\ntree #0\nparent #b\nauthor A <a@b> 2 +0000\ncommitter A <a@b> 2 +0000\n\n\n",
            "commit #c 144\ntree #0\nparent #d\nauthor A <a@b> 2 +0000\ncommitter A <a@b> 2 +0000\n\n\n",
            "blob #d 0\n\n",
            "commit #e 144\ntree #0\nparent #f\nauthor A <a@b> 2 +0000\ncommitter A <a@b> 2 +0000\n\n\n",
            "commit #f 4\ntree\n",
        ],
        &[
            (&["topo", "#a"], "! missing #b"),
            (&["date", "#a"], "! missing #b"),
            (&["topo", "#c"], "! wrong kind #d"),
            (&["date", "#c"], "! wrong kind #d"),
            (&["topo", "#e"], "! broken object"),
            (&["date", "#e"], "! broken object"),
        ],
    )
}

#[test]
fn topo_wants_a_tip(rt: HostRuntime) -> Result<(), Fail> {
    check(
        rt.alloc(),
        &["no record"],
        &[
            (&["topo", "^#7"], "! usage"),
            (&["topo", "#1", "^zz"], "! bad id in word 3"),
            (&["date", "^#7"], "! usage"),
            (&["date", "#1", "^zz"], "! bad id in word 3"),
        ],
    )
}
