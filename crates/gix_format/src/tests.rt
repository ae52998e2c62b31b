//! What git 2.39 writes of the same commits, with `--abbrev=10`.
use super::*;
use std::test::Fail;

/// A commit, and what git writes for some formats.
struct Case {
    id: &'static [u8],
    parents: &'static [&'static [u8]],
    time: i64,
    /// What is behind the lines for the tree and the parents.
    people: &'static [u8],
    says: &'static [(&'static [u8], &'static [u8])],
}

const CASES: &[Case] = &[
    Case {
        id: b"744e8f64c84216807e949fd6c1cdb02ce70084ae",
        parents: &[],
        time: 951_868_799,
        people: b"author A U Thor  <a.u@thor> 1112911993 -0700\ncommitter C O Mitter <c@o> 951868799 +0530\n\nsubject line\n\nbody\n",
        says: &[
            (
                b"%H%n%h|%T|%P|",
                b"744e8f64c84216807e949fd6c1cdb02ce70084ae\n744e8f64c8|4b825dc642cb6eb9a060e54bf8d69288fbee4904||",
            ),
            (b"%an <%ae>: %s", b"A U Thor <a.u@thor>: subject line"),
            (b"%ct|%ci", b"951868799|2000-03-01 05:29:59 +0530"),
            (b"", b""),
            (b"%%", b"%"),
            (b"100%%", b"100%"),
            (b"a%%H%%%h", b"a%H%744e8f64c8"),
            (b"acn%nac", b"acn\nac"),
            (b"%an%ae%ct%s", b"A U Thora.u@thor951868799subject line"),
        ],
    },
    Case {
        id: b"d39b1be61314ab36d19ec0c6d8db54c05369fb7f",
        parents: &[
            b"dc1f3c0ccbae0094039c537e581d078057c46d70",
            b"5ed5b7c1761a1cc57e1640f5667118b899f15366",
        ],
        time: 4_102_444_799,
        people: b"author <only@mail> 0 +0000\ncommitter X <x> 4102444799 -0030\n\nmerge\n",
        says: &[
            (
                b"%P",
                b"dc1f3c0ccbae0094039c537e581d078057c46d70 5ed5b7c1761a1cc57e1640f5667118b899f15366",
            ),
            (
                b"%an|%ae|%ci|%ct",
                b"|only@mail|2099-12-31 23:29:59 -0030|4102444799",
            ),
        ],
    },
    Case {
        id: b"61550163f47faaa24028125076c3368bd83bfd80",
        parents: &[b"dc1f3c0ccbae0094039c537e581d078057c46d70"],
        time: 68_256_000,
        people: b"author A<b <a<b> c> 0 +0000\ncommitter X <x> 68256000 +0000\n\nx\n",
        says: &[
            (b"%P", b"dc1f3c0ccbae0094039c537e581d078057c46d70"),
            (b"%an|%ae", b"A|b <a<b"),
            (b"%ci", b"1972-03-01 00:00:00 +0000"),
        ],
    },
    Case {
        id: b"6ef12e66bc1144651ce42e36acd20d1c9d069f79",
        parents: &[],
        time: 951_782_400,
        people: b"author A\tB \t <a b > 0 +0000\ncommitter X <x> 951782400 +0000\n\n\n",
        says: &[
            (b"%an|%ae|%s|", b"A\tB|a b ||"),
            (b"%ci", b"2000-02-29 00:00:00 +0000"),
        ],
    },
];

/// What is behind the line for the tree of a commit whose time is 1000000000 seconds, and what git writes for `%an|%ae|%ci|%s`.
const PEOPLE: &[(&[u8], &[u8])] = &[
    (
        b"author A <a> 1 +0000\r\ncommitter C <c> 1000000000 +0200\r\n\nsubj\n",
        b"A|a|2001-09-09 03:46:40 +0200|subj",
    ),
    (
        b"author A <a> 1 +0000\ncommitter C <c> 1000000000 +0200 \n\nsubj\n",
        b"A|a|2001-09-09 03:46:40 +0200|subj",
    ),
    (
        b"author A <a> 1 +0000\ncommitter C <c> 1000000000 +0200\t \t\n\nsubj\n",
        b"A|a|2001-09-09 03:46:40 +0200|subj",
    ),
    (
        b"author A <a> 1 +0000\ncommitter C <c> 1000000000   +0200\n\nsubj\n",
        b"A|a|2001-09-09 03:46:40 +0200|subj",
    ),
    (
        b"author A <a> 1 +0000\ncommitter C <c> 1000000000+0200\n\nsubj\n",
        b"A|a|2001-09-09 03:46:40 +0200|subj",
    ),
    (
        b"author A <a> 1 +0000\ncommitter C <c> 1000000000 -0000\n\nsubj\n",
        b"A|a|2001-09-09 01:46:40 +0000|subj",
    ),
    (
        b"author A <a> 1 +0000\ncommitter C <c> 1000000000 +0299\n\nsubj\n",
        b"A|a|2001-09-09 05:25:40 +0299|subj",
    ),
    (
        b"author A <a> 1 +0000\ncommitter C <c> 1000000000 +9999\n\nsubj\n",
        b"A|a|2001-09-13 06:25:40 +9999|subj",
    ),
    (
        b"author A <a> 1 +0000\ncommitter C <c> 1000000000 -9959\n\nsubj\n",
        b"A|a|2001-09-04 21:47:40 -9959|subj",
    ),
    (
        b"author A <a> 1 +0000\ncommitter C <c> 1000000000\n\nsubj\n",
        b"A|a||subj",
    ),
    (
        b"author A <a> 1 +0000\ncommitter C <c> 1000000000 \n\nsubj\n",
        b"A|a||subj",
    ),
    (
        b"author A <a> 1 +0000\ncommitter C <c> 1000000000 0200\n\nsubj\n",
        b"A|a||subj",
    ),
    (
        b"author A <a> 1 +0000\ncommitter C <c> 1000000000 +\n\nsubj\n",
        b"A|a||subj",
    ),
    (
        b"author A <a> 1 +0000\ncommitter C <c> 1000000000 + 0200\n\nsubj\n",
        b"A|a||subj",
    ),
    (
        b"author A <a> 1 +0000\ncommitter C <c> 1000000000 *0200\n\nsubj\n",
        b"A|a||subj",
    ),
    (
        b"author A <a> 1 +0000\ncommitter C <c 1000000000 +0200\n\nsubj\n",
        b"A|a||subj",
    ),
    (b"author A <a> 1 +0000\ncommitter \n\nsubj\n", b"A|a||subj"),
    (b"author A <a> 1 +0000\ncommitter C\n\nsubj\n", b"A|a||subj"),
    (b"author A <a> 1 +0000\n\nsubj\n", b"A|a||subj"),
    (
        b"committer C <c> 1000000000 +0200\n\nsubj\n",
        b"||2001-09-09 03:46:40 +0200|subj",
    ),
    (b"\nsubj\n", b"|||subj"),
    (
        b"author A <a> 1 +0000\n\ncommitter C <c> 1000000000 +0200\n\nsubj\n",
        b"A|a||committer C <c> 1000000000 +0200",
    ),
    (
        b"Author A <a> 1 +0000\ncommitter C <c> 1000000000 +0200\n\nsubj\n",
        b"||2001-09-09 03:46:40 +0200|subj",
    ),
    (
        b" author A <a> 1 +0000\ncommitter C <c> 1000000000 +0200\n\nsubj\n",
        b"||2001-09-09 03:46:40 +0200|subj",
    ),
    (
        b"author A <a> 1 +0000\ncommitters C <c> 1000000000 +0200\n\nsubj\n",
        b"A|a||subj",
    ),
    (
        b"author A <a> 1 +0000\ncommitter C <c> 1000000000 +0200\nauthors B <b> 2 +0000\ncommitters D <d> 2 -0100\n\nsubj\n",
        b"A|a|2001-09-09 03:46:40 +0200|subj",
    ),
    (
        b"mergetag author B <b> 2 +0000\n author B <b> 2 +0000\nauthor A <a> 1 +0000\ncommitter C <c> 1000000000 +0200\n\nsubj\n",
        b"A|a|2001-09-09 03:46:40 +0200|subj",
    ),
    (
        b"author A <a>\0b 1 +0000\ncommitter C <c> 1000000000 +0200\n\nsubj\n",
        b"A|a|2001-09-09 03:46:40 +0200|subj",
    ),
    (
        b"author A <a> 1 +0000\ncommitter C <c> 1000000000 +0200\0\n\nsubj\n",
        b"A|a|2001-09-09 03:46:40 +0200|subj",
    ),
    (
        b"author A <a> 1 +0000\ncommitter C <c> 1000000000 +0200\0-0300\n\nsubj\n",
        b"A|a|2001-09-09 03:46:40 +0200|subj",
    ),
    (
        b"author A <a> 1 +0000\ncommitter C <c> 1000000000 +0200\nx\0y\nsubj\n",
        b"A|a|2001-09-09 03:46:40 +0200|",
    ),
    (
        b"author A <a> 1 +0000\ncommitter C <c> 1000000000 +0200\n\0\nsubj\n",
        b"A|a|2001-09-09 03:46:40 +0200|",
    ),
    (
        b"author A <a> 1 +0000\ncommitter C <c> 1000000000 +0200\n\n\0\nsubj\n",
        b"A|a|2001-09-09 03:46:40 +0200|",
    ),
    (
        b"\0author A <a> 1 +0000\ncommitter C <c> 1000000000 +0200\n\nsubj\n",
        b"|||",
    ),
    (
        b"author A <a> 1 +0000\n\0committer C <c> 1000000000 +0200\n\nsubj\n",
        b"A|a||",
    ),
    (
        b"x\0author A <a> 1 +0000\ncommitter C <c> 1000000000 +0200\n\nsubj\n",
        b"A|a|2001-09-09 03:46:40 +0200|subj",
    ),
    (
        b"author A <a> 1 +0000\ncommitter C <c> 1000000000 +0200\n",
        b"A|a|2001-09-09 03:46:40 +0200|",
    ),
    (
        b"author A <a> 1 +0000\ncommitter C <c> 1000000000 +0200",
        b"A|a|2001-09-09 03:46:40 +0200|",
    ),
];

/// Seconds and an offset of the committer's clock, and the date that git writes.
const DATES: &[(i64, &[u8], &[u8])] = &[
    (0, b"+0000", b"1970-01-01 00:00:00 +0000"),
    (68_169_599, b"+0000", b"1972-02-28 23:59:59 +0000"),
    (68_256_000, b"+0000", b"1972-03-01 00:00:00 +0000"),
    (951_782_400, b"+0000", b"2000-02-29 00:00:00 +0000"),
    (951_868_799, b"+0530", b"2000-03-01 05:29:59 +0530"),
    (1_112_911_993, b"-0700", b"2005-04-07 15:13:13 -0700"),
    (4_102_444_799, b"-0030", b"2099-12-31 23:29:59 -0030"),
    (4_107_542_399, b"+0000", b"2100-02-28 23:59:59 +0000"),
    (4_107_542_400, b"+0000", b"2100-03-01 00:00:00 +0000"),
    (253_402_300_799, b"+0000", b"9999-12-31 23:59:59 +0000"),
    (16_725_225_600, b"+0000", b"2500-01-01 00:00:00 +0000"),
    (1_699_999_999, b"+1400", b"2023-11-15 12:13:19 +1400"),
    (978_307_199, b"-1200", b"2000-12-31 11:59:59 -1200"),
    (86_399, b"+0001", b"1970-01-02 00:00:59 +0001"),
    (1_704_067_199, b"-0059", b"2023-12-31 23:00:59 -0059"),
    (1_709_164_800, b"+0000", b"2024-02-29 00:00:00 +0000"),
    (1_735_603_200, b"+0000", b"2024-12-31 00:00:00 +0000"),
    (13_569_465_599, b"+0000", b"2399-12-31 23:59:59 +0000"),
    (13_569_465_600, b"+0000", b"2400-01-01 00:00:00 +0000"),
];

fn id(hex: &[u8]) -> Result<ObjectId, Fail> {
    let Ok(id) = ObjectId::from_hex(hex) else {
        return Err(Fail::new(format_args!("no id")));
    };
    Ok(id)
}

#[test]
fn formats(rt: HostRuntime) -> Result<(), Fail> {
    let mut parents = Vec::new(rt.alloc());
    let mut text = Vec::new(rt.alloc());
    let mut line = Vec::new(rt.alloc());
    for case in CASES {
        parents.clear();
        text.clear();
        text.extend_from_slice(b"tree 4b825dc642cb6eb9a060e54bf8d69288fbee4904\n")?;
        for parent in case.parents {
            parents.push(id(parent)?)?;
            text.extend_from_slice(b"parent ")?;
            text.extend_from_slice(*parent)?;
            text.extend_from_slice(b"\n")?;
        }
        text.extend_from_slice(case.people)?;
        let commit = Commit {
            id: id(case.id)?,
            parents: &parents,
            time: case.time,
            text: &text,
        };
        for (format, says) in case.says {
            line.clear();
            add_formatted(&mut line, *format, commit)?;
            assert_eq!(rt; line.as_slice(), *says, "{format:?}");
        }
    }
    Ok(())
}

#[test]
fn dates(rt: HostRuntime) -> Result<(), Fail> {
    let mut text = Vec::new(rt.alloc());
    let mut line = Vec::new(rt.alloc());
    for (time, offset, says) in DATES {
        text.clear();
        text.extend_from_slice(b"author X <x> 0 +0000\ncommitter X <x> 0 ")?;
        text.extend_from_slice(*offset)?;
        let commit = Commit {
            id: ObjectId::Sha1([0; 20]),
            parents: &[],
            time: *time,
            text: &text,
        };
        line.clear();
        add_formatted(&mut line, b"%ci", commit)?;
        assert_eq!(rt; line.as_slice(), *says);
    }
    Ok(())
}

#[test]
fn people(rt: HostRuntime) -> Result<(), Fail> {
    let mut text = Vec::new(rt.alloc());
    let mut line = Vec::new(rt.alloc());
    for (behind, says) in PEOPLE {
        text.clear();
        text.extend_from_slice(b"tree 4B825DC642CB6EB9A060E54BF8D69288FBEE4904\n")?;
        text.extend_from_slice(*behind)?;
        let commit = Commit {
            id: ObjectId::Sha1([0; 20]),
            parents: &[],
            time: 1_000_000_000,
            text: &text,
        };
        line.clear();
        add_formatted(&mut line, b"%an|%ae|%ci|%s", commit)?;
        assert_eq!(rt; line.as_slice(), *says, "{behind:?}");
        line.clear();
        add_formatted(&mut line, b"%T", commit)?;
        assert_eq!(rt;
            line.as_slice(),
            b"4b825dc642cb6eb9a060e54bf8d69288fbee4904".as_slice()
        );
    }
    Ok(())
}
