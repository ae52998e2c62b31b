//! The command `contains`.
use super::*;

#[test]
fn writes_what_the_first_reaches(rt: HostRuntime) -> Result<(), Fail> {
    check(
        rt.alloc(),
        &[SAMPLE],
        &[
            (&["contains", "#6", "#7", "#5", "#1"], "#5\n#1\n"),
            (&["contains", "#8", "#1", "#8", "#1"], "#1\n#8\n#1\n"),
            (&["contains", "#1", "#8"], ""),
            (&["contains", "#6", "#5", "#a"], "! missing #a"),
            (&["contains", "#a", "#6"], "! missing #a"),
        ],
    )
}

#[test]
fn contains_takes_two_ids_at_least(rt: HostRuntime) -> Result<(), Fail> {
    check(
        rt.alloc(),
        &["no record"],
        &[
            (&["contains"], "! usage"),
            (&["contains", "#6"], "! usage"),
            (&["contains", "#6", "^#7"], "! usage"),
            (&["contains", "^#6", "#7"], "! usage"),
            (&["contains", "zz", "#7", "^#8"], "! usage"),
            (&["contains", "zz", "z"], "! bad id in word 2"),
            (&["contains", "#6", "zz", "z"], "! bad id in word 3"),
            (&["contains", "#6", "#7", "z"], "! bad id in word 4"),
        ],
    )
}
