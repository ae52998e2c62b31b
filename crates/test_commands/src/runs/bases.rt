//! The command `merge-base`.
use super::*;

#[test]
fn writes_the_best_common_ancestors(rt: HostRuntime) -> Result<(), Fail> {
    check(
        rt.alloc(),
        &[SAMPLE],
        &[
            (&["merge-base", "#6", "#7"], "#1\n"),
            (&["merge-base", "#6", "#7", "#5"], "#5\n"),
            (&["merge-base", "#8", "#7", "#6"], "#6\n#7\n"),
            (&["merge-base", "#8", "#8"], "#8\n"),
            (&["merge-base", "#6", "#a"], "! missing #a"),
            (&["merge-base", "#a", "#6"], "! missing #a"),
        ],
    )
}

#[test]
fn bases_take_two_ids_at_least(rt: HostRuntime) -> Result<(), Fail> {
    check(
        rt.alloc(),
        &["no record"],
        &[
            (&["merge-base"], "! usage"),
            (&["merge-base", "#6"], "! usage"),
            (&["merge-base", "#6", "^#7"], "! usage"),
            (&["merge-base", "zz", "z"], "! bad id in word 2"),
            (&["merge-base", "#6", "#7", "z"], "! bad id in word 4"),
        ],
    )
}
