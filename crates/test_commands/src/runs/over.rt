//! Runs over the layers of a commit-graph.
use super::*;
use gix_commands::run_over;

/// A row: the byte of its id, and its four words behind the tree: the parents, four times the generation, and the seconds.
type Line = (u8, [u32; 4]);

/// The word where there is no parent.
const NONE: u32 = 0x70000000;

/// The rows of the sample.
const LINES: [Line; 8] = [
    (0x11, [NONE, NONE, 4, 1]),
    (0x22, [0, NONE, 8, 2]),
    (0x33, [0, NONE, 8, 3]),
    (0x44, [1, NONE, 12, 4]),
    (0x55, [2, NONE, 12, 5]),
    (0x66, [4, NONE, 16, 6]),
    (0x77, [3, NONE, 16, 7]),
    (0x88, [5, 6, 20, 8]),
];

/// The first two of them, but for the generation of the second, which is that of its parent.
const BACKWARD: [Line; 2] = [(0x11, [NONE, NONE, 4, 1]), (0x22, [0, NONE, 4, 2])];

/// What is before the fan-out of a layer of eight rows: the signature, the versions, and the chunks OIDF, OIDL and CDAT by where each begins.
const EIGHT: &[u32] = &[
    0x43475048, 0x01010300, 0x4f494446, 0, 0x38, 0x4f49444c, 0, 0x438, 0x43444154, 0, 0x4d8, 0, 0,
    0x5f8,
];

/// The same of seven rows.
const SEVEN: &[u32] = &[
    0x43475048, 0x01010300, 0x4f494446, 0, 0x38, 0x4f49444c, 0, 0x438, 0x43444154, 0, 0x4c4, 0, 0,
    0x5c0,
];

/// The same of two rows.
const TWO: &[u32] = &[
    0x43475048, 0x01010300, 0x4f494446, 0, 0x38, 0x4f49444c, 0, 0x438, 0x43444154, 0, 0x460, 0, 0,
    0x4a8,
];

/// The same of one row above another layer, with the chunk BASE.
const UPPER: &[u32] = &[
    0x43475048, 0x01010401, 0x4f494446, 0, 0x44, 0x4f49444c, 0, 0x444, 0x43444154, 0, 0x458,
    0x42415345, 0, 0x47c, 0, 0, 0x490,
];

/// The record of the last commit of the sample.
const LAST: &str =
    "commit #8 192\ntree #0\nparent #6\nparent #7\nauthor A <a@b> 8 +0000\ncommitter A <a@b> 8 +0000\n\n\n";

fn push_words(layer: &mut Vec<u8>, words: &[u32]) -> Result<(), AllocError> {
    for word in words {
        layer.extend_from_slice(&word.to_be_bytes())?;
    }
    Ok(())
}

fn push_ids(layer: &mut Vec<u8>, lines: &[Line]) -> Result<(), AllocError> {
    for (byte, _) in lines {
        push_times(layer, *byte, 20)?;
    }
    Ok(())
}

fn push_rows(layer: &mut Vec<u8>, lines: &[Line]) -> Result<(), AllocError> {
    for (_, words) in lines {
        push_times(layer, 0, 20)?;
        push_words(layer, words)?;
    }
    Ok(())
}

// A layer of these rows, whose number is below 256. Hashes are zeros: nothing looks at them, but that BASE has those of the layers below.
fn layer_of(alloc: Global, head: &[u32], lines: &[Line]) -> Result<Vec<u8>, AllocError> {
    let mut layer = Vec::new(alloc);
    push_words(&mut layer, head)?;
    push_times(&mut layer, 0, 1023)?;
    layer.push(u8::try_from(lines.len()).unwrap_or(0))?;
    push_ids(&mut layer, lines)?;
    push_rows(&mut layer, lines)?;
    push_times(
        &mut layer,
        0,
        if head.len() == UPPER.len() { 40 } else { 20 },
    )?;
    Ok(layer)
}

fn layers_of(alloc: Global, wanted: &[(&[u32], &[Line])]) -> Result<Vec<Vec<u8>>, AllocError> {
    let mut layers = Vec::new(alloc);
    for (head, lines) in wanted {
        layers.push(layer_of(alloc, head, lines)?)?;
    }
    Ok(layers)
}

// Tries each row over these layers and records.
fn check_over(
    alloc: Global,
    layers: &[(&[u32], &[Line])],
    records: &[&str],
    rows: &[Row],
) -> Result<(), Fail> {
    let layers = layers_of(alloc, layers)?;
    let input = text_of(alloc, records)?;
    for (words, want) in rows {
        check_told_over(alloc, &words_of(alloc, words)?, &layers, &input, want)?;
    }
    Ok(())
}

fn check_told_over(
    alloc: Global,
    words: &[String],
    layers: &[Vec<u8>],
    input: &[u8],
    want: &str,
) -> Result<(), Fail> {
    let mut told = Vec::new(alloc);
    if let Err(fault) = run_over(alloc, Keys::KNOWN, words, layers, &mut { input }, &mut told) {
        push_fault(alloc, &mut told, fault)?;
    }
    compare(words, &told, &text_of(alloc, &[want])?)
}

/// What each command writes of the sample.
const COMMANDS: &[Row] = &[
    (&["breadth", "#8"], "#8\n#6\n#7\n#5\n#4\n#3\n#2\n#1\n"),
    (&["newest", "#8"], "#8\n#7\n#6\n#5\n#4\n#3\n#2\n#1\n"),
    (&["oldest", "#8"], "#8\n#6\n#5\n#3\n#1\n#7\n#4\n#2\n"),
    (&["topo", "#8"], "#8\n#7\n#4\n#2\n#6\n#5\n#3\n#1\n"),
    (&["date", "#8"], "#8\n#7\n#6\n#5\n#4\n#3\n#2\n#1\n"),
    (&["breadth", "#8", "^#7"], "#8\n#6\n#5\n#3\n"),
    (&["newest", "#8", "^#7"], "#8\n#6\n#5\n#3\n"),
    (&["oldest", "#8", "^#7"], "#8\n#6\n#5\n#3\n"),
    (&["topo", "#8", "^#7"], "#8\n#6\n#5\n#3\n"),
    (&["date", "#8", "^#7"], "#8\n#6\n#5\n#3\n"),
    (&["ahead", "#8", "#7"], "4 0\n"),
    (&["contains", "#7", "#8", "#4", "#6", "#1"], "#4\n#1\n"),
];

#[test]
fn commits_with_a_row_need_no_record(rt: HostRuntime) -> Result<(), Fail> {
    let alloc = rt.alloc();
    check_over(alloc, &[(EIGHT, &LINES)], &[], COMMANDS)?;
    check_over(alloc, &[(SEVEN, &LINES[..7])], &[LAST], COMMANDS)?;
    check_over(
        alloc,
        &[(SEVEN, &LINES[..7]), (UPPER, &LINES[7..])],
        &[],
        COMMANDS,
    )
}

#[test]
fn records_may_have_rows(rt: HostRuntime) -> Result<(), Fail> {
    let alloc = rt.alloc();
    check_over(alloc, &[(EIGHT, &LINES)], &[SAMPLE], COMMANDS)?;
    check_over(alloc, &[], &[SAMPLE], COMMANDS)
}

#[test]
fn parents_are_there_by_rows_or_records(rt: HostRuntime) -> Result<(), Fail> {
    check_over(
        rt.alloc(),
        &[(SEVEN, &LINES[..7])],
        &[
            LAST,
            "commit #a 192\ntree #0\nparent #8\nparent #f\nauthor A <a@b> 9 +0000\ncommitter A <a@b> 9 +0000\n\n\n",
        ],
        &[
            (&["newest", "-n", "3", "#8"], "#8\n#7\n#6\n"),
            (&["newest", "--since", "8", "#8"], "#8\n"),
            (&["newest", "--since", "9", "#a"], "#a\n! missing #f"),
            (&["oldest", "#a"], "#a\n! missing #f"),
        ],
    )
}

#[test]
fn a_subject_is_that_of_a_record(rt: HostRuntime) -> Result<(), Fail> {
    let alloc = rt.alloc();
    let rows: &[(&[u32], &[Line])] = &[(EIGHT, &LINES)];
    let seventh =
        "commit #7 146\ntree #0\nparent #4\nauthor A <a@b> 7 +0000\ncommitter A <a@b> 7 +0000\n\ns\n\n";
    check_over(
        alloc,
        rows,
        &[LAST, seventh],
        &[
            (&["newest", "--oneline", "#8", "^#6", "^#4"], "#8 \n#7 s\n"),
            (&["topo", "-n", "2", "--oneline", "#8"], "#8 \n#7 s\n"),
            (
                &["date", "--skip", "1", "-n", "1", "--oneline", "#8"],
                "#7 s\n",
            ),
            (
                &["breadth", "--merges", "-n", "1", "--oneline", "#8"],
                "#8 \n",
            ),
            (&["topo", "--count", "--oneline", "#8", "^#6", "^#4"], "2\n"),
            (&["newest", "-n", "0", "--oneline", "#8"], ""),
        ],
    )?;
    check_over(
        alloc,
        rows,
        &[LAST, seventh],
        &[
            (&["newest", "--oneline", "#8"], "#8 \n#7 s\n! missing #6"),
            (&["breadth", "--oneline", "#8"], "#8 \n! missing #6"),
            (
                &["topo", "--oneline", "#8", "^#6"],
                "#8 \n#7 s\n! missing #4",
            ),
            (
                &["date", "--reverse", "--oneline", "#8", "^#6"],
                "! missing #4",
            ),
            (
                &["breadth", "--merges", "--oneline", "#8"],
                "#8 \n! missing #6",
            ),
            (
                &["oldest", "--skip", "1", "-n", "1", "--oneline", "#8"],
                "! missing #6",
            ),
        ],
    )
}

#[test]
fn objects_without_a_row_are_records(rt: HostRuntime) -> Result<(), Fail> {
    check_over(
        rt.alloc(),
        &[(SEVEN, &LINES[..7])],
        &["tree #a 29\n100644 x\0$\x22\n", LAST],
        &[
            (&["files", "#a"], "100644 #2 x\n"),
            (&["files", "#8"], "! wrong kind #8"),
            (&["files", "#7"], "! wrong kind #7"),
            (&["breadth", "#a"], "! wrong kind #a"),
            (&["breadth", "#7", "#b"], "#7\n! missing #b"),
        ],
    )
}

#[test]
fn tests_words_then_rows_then_records(rt: HostRuntime) -> Result<(), Fail> {
    let alloc = rt.alloc();
    check_over(
        alloc,
        &[(TWO, &BACKWARD)],
        &["no record"],
        &[
            (&["breadth"], "! usage"),
            (&["heads"], "! usage"),
            (&["breadth", "zz"], "! bad id in word 2"),
            (&["breadth", "#1"], "! bad row #2 in the commit-graph"),
        ],
    )?;
    check_over(
        alloc,
        &[(TWO, &LINES[..2])],
        &["blob #1 0\n\n", "no record"],
        &[(&["breadth", "#1"], "! bad record 2")],
    )?;
    check_over(
        alloc,
        &[(EIGHT, &LINES), (&[], &[])],
        &["no record"],
        &[(
            &["breadth", "#1"],
            "! bad commit-graph: layer 1: no signature CGPH",
        )],
    )
}

// Tries whether a record is what the rows of the sample say of commit 2.
fn check_second(alloc: Global, record: &str, want: &str) -> Result<(), Fail> {
    check_over(
        alloc,
        &[(EIGHT, &LINES)],
        &[record],
        &[(&["breadth", "#2"], want)],
    )
}

#[test]
fn records_are_compared_with_rows(rt: HostRuntime) -> Result<(), Fail> {
    let alloc = rt.alloc();
    check_second(
        alloc,
        "commit #2 144\ntree #0\nparent #1\nauthor B <b@c> 7 +0100\ncommitter B <b@c> 2 +0100\n\n\n",
        "#2\n#1\n",
    )?;
    for record in [
        "commit #2 144\ntree #9\nparent #1\nauthor A <a@b> 2 +0000\ncommitter A <a@b> 2 +0000\n\n\n",
        "commit #2 144\ntree #0\nparent #3\nauthor A <a@b> 2 +0000\ncommitter A <a@b> 2 +0000\n\n\n",
        "commit #2 144\ntree #0\nparent #1\nauthor A <a@b> 2 +0000\ncommitter A <a@b> 3 +0000\n\n\n",
        "commit #2 96\ntree #0\nauthor A <a@b> 2 +0000\ncommitter A <a@b> 2 +0000\n\n\n",
        "commit #2 192\ntree #0\nparent #1\nparent #1\nauthor A <a@b> 2 +0000\ncommitter A <a@b> 2 +0000\n\n\n",
        "tag #2 144\ntree #0\nparent #1\nauthor A <a@b> 2 +0000\ncommitter A <a@b> 2 +0000\n\n\n",
        "commit #2 4\ntree\n",
        "blob #2 0\n\n",
    ] {
        check_second(alloc, record, "! commit-graph disagrees with #2")?;
    }
    Ok(())
}
