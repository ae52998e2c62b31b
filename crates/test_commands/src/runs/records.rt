//! Records, and what is none.
use super::*;

#[test]
fn empty_input_is_no_records(rt: HostRuntime) -> Result<(), Fail> {
    check(rt.alloc(), &[], &[(&["breadth", "#1"], "! missing #1")])
}

#[test]
fn a_later_record_replaces_an_earlier(rt: HostRuntime) -> Result<(), Fail> {
    check(
        rt.alloc(),
        &[
            "commit #1 144\ntree #0\nparent #2\nauthor A <a@b> 1 +0000\ncommitter A <a@b> 1 +0000\n\n\n",
            SAMPLE,
        ],
        &[(&["breadth", "#1"], "#1\n")],
    )
}

#[test]
fn takes_other_spellings(rt: HostRuntime) -> Result<(), Fail> {
    check(
        rt.alloc(),
        &[
            "tag #A 000\n\n",
            "commit #A 0000000096\ntree #0\nauthor A <a@b> 1 +0000\ncommitter A <a@b> 1 +0000\n\n\n",
        ],
        &[
            (&["breadth", "#a", "#a"], "#a\n"),
            (&["breadth", "#A", "#a"], "#a\n"),
            (&["breadth", "##1"], "! missing ##1"),
        ],
    )
}

/// Records that aren't any.
const NO_RECORDS: [&str; 28] = [
    "c#1",
    "commit#1",
    "#1 0\n\n",
    " #1 0\n\n",
    "commits #1 0\n\n",
    "Commit #1 0\n\n",
    "commit  #1 0\n\n",
    "commit\n#1 0\n\n",
    "commit x#1 0\n\n",
    "commit 1#1 0\n\n",
    "commit 111111111111111111111111111111111111111 0\n\n",
    "commit #1",
    "commit #1\n",
    "commit #1 ",
    "commit #1 \n\n",
    "commit #1 0",
    "commit #1 0\n",
    "commit #1 0\nx",
    "commit #1 0 \n\n",
    "commit #1  0\n\n",
    "commit #1 -1\n\n",
    "commit #1 +0\n\n",
    "commit #1 0x0\n\n",
    "commit #1 00000000000\n\n",
    "commit #1 9999999999\n\n",
    "commit #1 96\n0123456789",
    "commit #1 3\n12\n",
    "commit #1 1\n12\n",
];

// Tries what is no record, by itself and as the third.
fn check_refused(alloc: Global, short: &str) -> Result<(), Fail> {
    check(alloc, &[short], &[(&["breadth", "#1"], "! bad record 1")])?;
    check(
        alloc,
        &["blob #2 0\n\nblob #1 1\nx\n", short],
        &[(&["breadth", "#1"], "! bad record 3")],
    )
}

#[test]
fn refuses_what_is_no_record(rt: HostRuntime) -> Result<(), Fail> {
    for short in NO_RECORDS {
        if let Err(fail) = check_refused(rt.alloc(), short) {
            let _ = eprintln!(rt; "Where this is the record: {short:?}");
            return Err(fail);
        }
    }
    Ok(())
}
