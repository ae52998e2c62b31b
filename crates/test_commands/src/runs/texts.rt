//! Commits whose bytes are no text, or whose lines of parents aren't sound.
use super::*;

/// Behind the sample: a commit without a byte and its child, a commit with a bad line behind that of its first parent and its child, and a
/// commit that ends behind its parents.
const TEXTS: &str = "\
commit #a 0\n\n\
commit #b 192\ntree #0\nparent #1\nparent #a\nauthor A <a@b> 9 +0000\ncommitter A <a@b> 9 +0000\n\n\n\
commit #c 154\ntree #0\nparent #1\nparent zz\nauthor A <a@b> 9 +0000\ncommitter A <a@b> 9 +0000\n\n\n\
commit #d 144\ntree #0\nparent #c\nauthor A <a@b> 9 +0000\ncommitter A <a@b> 9 +0000\n\n\n\
commit #e 94\ntree #0\nparent #1\n\n\
";

#[test]
fn a_commit_without_a_byte_is_broken(rt: HostRuntime) -> Result<(), Fail> {
    check(
        rt.alloc(),
        &[SAMPLE, TEXTS],
        &[
            (&["breadth", "#a"], "! broken object"),
            (&["breadth", "#1", "#a"], "#1\n! broken object"),
            (&["breadth", "#b"], "#b\n#1\n! broken object"),
            (&["breadth", "-n", "2", "#b"], "#b\n#1\n"),
            (&["breadth", "#b", "^#a"], "! broken object"),
            (&["breadth", "#8", "^#b"], "! broken object"),
            (&["newest", "#a"], "! broken object"),
            (&["oldest", "#8", "#a"], "! broken object"),
            (&["newest", "#b"], "#b\n! broken object"),
            (&["oldest", "--since", "9", "#b"], "#b\n! broken object"),
            (&["newest", "-n", "1", "#b"], "#b\n"),
            (&["topo", "#a"], "! broken object"),
            (&["topo", "#b"], "! broken object"),
            (&["date", "#b", "^#8"], "! broken object"),
            (&["date", "#8", "^#a"], "! broken object"),
            (&["ahead", "#a", "#8"], "! broken object"),
            (&["ahead", "#8", "#b"], "! broken object"),
            (&["contains", "#b", "#8"], "! broken object"),
            (&["contains", "#8", "#a"], "! broken object"),
            (&["files", "#a"], "! wrong kind #a"),
        ],
    )
}

#[test]
fn first_parents_need_the_lines_of_all(rt: HostRuntime) -> Result<(), Fail> {
    check(
        rt.alloc(),
        &[SAMPLE, TEXTS],
        &[
            (&["breadth", "--first-parent", "#a"], "! broken object"),
            (&["breadth", "--first-parent", "#b"], "#b\n#1\n"),
            (
                &["breadth", "--first-parent", "#b", "^#2"],
                "! broken object",
            ),
            (&["breadth", "#c"], "! broken object"),
            (&["breadth", "--first-parent", "#c"], "! broken object"),
            (&["breadth", "--first-parent", "#d"], "#d\n! broken object"),
            (&["breadth", "--first-parent", "-n", "1", "#d"], "#d\n"),
            (
                &["breadth", "--first-parent", "#8", "^#d"],
                "! broken object",
            ),
            (&["breadth", "--first-parent", "#e"], "#e\n#1\n"),
        ],
    )
}
