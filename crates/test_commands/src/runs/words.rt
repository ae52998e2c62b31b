//! Words that are no command.
use super::*;

#[test]
fn judges_the_words_first(rt: HostRuntime) -> Result<(), Fail> {
    check(
        rt.alloc(),
        &["no record"],
        &[
            (&[], "! usage"),
            (&["breadth"], "! usage"),
            (&["walk", "#1", "#1", "zz"], "! usage"),
            (&["", "#1", "#1", "zz"], "! usage"),
            (&["breadths", "#1", "#1", "zz"], "! usage"),
            (&["breadth", "#1", "^#1", "zz"], "! bad id in word 4"),
            (&["newest", "#1", "^", "zz"], "! bad id in word 3"),
            (&["oldest", "#1", "^^#1", "zz"], "! bad id in word 3"),
            (&["breadth", "#1", "", "zz"], "! bad id in word 3"),
            (&["breadth", "#1", "zz", "zz"], "! bad id in word 3"),
            (
                &[
                    "breadth",
                    "#1",
                    "111111111111111111111111111111111111111z",
                    "zz",
                ],
                "! bad id in word 3",
            ),
            (&["breadth", "#1", "#11", "zz"], "! bad id in word 3"),
            (&["topo", "-n", "", "#1"], "! usage"),
            (&["topo", "-n", "1000000000", "#1"], "! usage"),
            (&["topo", "-n", "+1", "#1"], "! usage"),
            (&["topo", "-n", "1"], "! usage"),
            (&["topo", "-n", "1", "^#1"], "! usage"),
            (&["topo", "-n", "1", "#1", "zz"], "! bad id in word 5"),
            (&["topo", "-n"], "! usage"),
            (&["topo", "#1", "-n", "1"], "! bad id in word 3"),
            (&["files", "-n", "#1"], "! usage"),
            (&["files", "-n", "1"], "! usage"),
            (&["files", "-n", "1000000000", "#1"], "! usage"),
            (&["files", "-z", "-n", "1", "#1"], "! usage"),
            (&["files", "-n", "1", "zz"], "! bad id in word 4"),
            (&["files", "-n", "1", "-z", "zz"], "! bad id in word 5"),
            (&["breadth", "--first-parent"], "! usage"),
            (&["breadth", "--first-parent", "zz"], "! bad id in word 3"),
            (
                &["breadth", "--first-parent", "-n", "1", "#1", "zz"],
                "! bad id in word 6",
            ),
            (
                &["breadth", "-n", "1", "--first-parent", "#1"],
                "! bad id in word 4",
            ),
            (&["breadth", "--since", "1", "#1"], "! usage"),
            (&["newest", "--first-parent", "#1"], "! usage"),
            (&["oldest", "--first-parent", "#1"], "! usage"),
            (&["topo", "--first-parent", "zz"], "! bad id in word 3"),
            (
                &["date", "--first-parent", "--since", "1", "#1"],
                "! bad id in word 3",
            ),
            (&["date", "--since", "1", "#1"], "! usage"),
            (&["newest", "--since"], "! usage"),
            (&["newest", "--since", "1"], "! usage"),
            (&["newest", "--since", "", "#1"], "! usage"),
            (&["newest", "--since", "-1", "#1"], "! usage"),
            (&["oldest", "--since", "10000000000", "#1"], "! usage"),
            (
                &["oldest", "--since", "9999999999", "zz", "#1"],
                "! bad id in word 4",
            ),
            (
                &["oldest", "--since", "1", "-n", "1", "#1", "zz"],
                "! bad id in word 7",
            ),
            (
                &["newest", "--since", "1", "--since", "1", "#1"],
                "! bad id in word 4",
            ),
            (&["files", "--first-parent", "#1"], "! usage"),
        ],
    )
}

#[test]
fn a_bad_id_is_told_by_its_number(rt: HostRuntime) -> Result<(), Fail> {
    check(
        rt.alloc(),
        &[],
        &[(&["breadth", "zz"], "! bad id in word 2")],
    )
}
