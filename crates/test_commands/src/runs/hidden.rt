//! A hidden commit that can't be read, by each command that reads one.
use super::*;

/// Each command that reads a hidden commit. The one of `ahead` is hidden from the other, and the first of `contains` hides the others.
const COMMANDS: [&[&str]; 8] = [
    &["breadth", "#8", "^#a"],
    &["newest", "#8", "^#a"],
    &["oldest", "#8", "^#a"],
    &["topo", "#8", "^#a"],
    &["date", "#8", "^#a"],
    &["ahead", "#8", "#a"],
    &["contains", "#a", "#8"],
    &["contains", "#8", "#7", "#a"],
];

// Tries each command over the sample and this record behind it.
fn check_each(alloc: Global, record: &str, want: &str) -> Result<(), Fail> {
    check_commands(alloc, &text_of(alloc, &[SAMPLE, record])?, want)
}

fn check_commands(alloc: Global, input: &[u8], want: &str) -> Result<(), Fail> {
    for words in COMMANDS {
        check_run(alloc, words, &mut { input }, want)?;
    }
    Ok(())
}

#[test]
fn a_hidden_commit_has_to_be_there(rt: HostRuntime) -> Result<(), Fail> {
    let alloc = rt.alloc();
    check_each(alloc, "", "! missing #a")?;
    check(
        alloc,
        &[],
        &[(&["breadth", "zz", "^#7"], "! bad id in word 2")],
    )
}

#[test]
fn a_hidden_commit_has_to_be_a_whole_one(rt: HostRuntime) -> Result<(), Fail> {
    let alloc = rt.alloc();
    check_each(
        alloc,
        "tree #a 96\ntree #0\nauthor A <a@b> 1 +0000\ncommitter A <a@b> 1 +0000\n\n\n",
        "! wrong kind #a",
    )?;
    check_each(
        alloc,
        "blob #a 96\ntree #0\nauthor A <a@b> 1 +0000\ncommitter A <a@b> 1 +0000\n\n\n",
        "! wrong kind #a",
    )?;
    check_each(
        alloc,
        "tag #a 96\ntree #0\nauthor A <a@b> 1 +0000\ncommitter A <a@b> 1 +0000\n\n\n",
        "! wrong kind #a",
    )?;
    check_each(alloc, "commit #a 4\ntree\n", "! broken object")?;
    check_each(alloc, "commit #a 0\n\n", "! broken object")
}
