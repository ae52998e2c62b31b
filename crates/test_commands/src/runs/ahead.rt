//! The command `ahead`.
use super::*;

#[test]
fn counts_what_each_reaches_alone(rt: HostRuntime) -> Result<(), Fail> {
    check(
        rt.alloc(),
        &[SAMPLE],
        &[
            (&["ahead", "#6", "#7"], "3 3\n"),
            (&["ahead", "#8", "#7"], "4 0\n"),
            (&["ahead", "#7", "#8"], "0 4\n"),
            (&["ahead", "#8", "#8"], "0 0\n"),
            (&["ahead", "#8", "#5"], "5 0\n"),
            (&["ahead", "#5", "#8"], "0 5\n"),
            (&["ahead", "#6", "#a"], "! missing #a"),
            (&["ahead", "#a", "#6"], "! missing #a"),
        ],
    )
}

#[test]
fn ahead_takes_two_ids(rt: HostRuntime) -> Result<(), Fail> {
    check(
        rt.alloc(),
        &["no record"],
        &[
            (&["ahead", "#6"], "! usage"),
            (&["ahead", "#6", "^#7"], "! usage"),
            (&["ahead", "^#7", "zz"], "! usage"),
            (&["ahead", "#6", "#7", "#8"], "! usage"),
            (&["ahead", "zz", "z"], "! bad id in word 2"),
            (&["ahead", "#6", "zz"], "! bad id in word 3"),
        ],
    )
}
