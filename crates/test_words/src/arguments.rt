//! What arguments ask, and what is said where they are misused.
use gix_options::{
    Asked, Asks, Name, Place, Refs, Rows, read_arguments, read_lines, words_of as words_of_bytes,
};
use std::alloc::Global;
use std::test::Fail;

/// Arguments, with a space between any two, and why they ask nothing; or an empty text where they ask something.
const CASES: &[(&str, &str)] = &[
    ("-C .", "a command is missing"),
    ("-C", "-C needs a folder"),
    ("topo HEAD --git-dir", "--git-dir needs a folder"),
    (
        "-C . log",
        "no command is called \"log\": newest lists commits as git rev-list does, with --oneline or --format as git log",
    ),
    (
        "-C . topo --graph HEAD",
        "no option is called \"--graph\": the command topo lists commits in this order",
    ),
    (
        "-C . newest --tags=v* HEAD",
        "no option is called \"--tags=v*\": refs aren't chosen by a pattern, but --branches, --tags, --remotes and --all add refs",
    ),
    (
        "-C . newest --patch HEAD",
        "no option is called \"--patch\": what a commit changes isn't known",
    ),
    (
        "-C . topo HEAD -n",
        "-n needs a number of 1 to 9 digits, or one below 0 for no limit",
    ),
    (
        "-C . topo HEAD -n 1234567890",
        "-n needs a number of 1 to 9 digits, or one below 0 for no limit",
    ),
    ("-C . topo HEAD -n 123456789", ""),
    ("-C . topo HEAD -n -1", ""),
    ("-C . topo --max-count=-20 HEAD", ""),
    (
        "-C . topo HEAD -n -0",
        "-n needs a number of 1 to 9 digits, or one below 0 for no limit",
    ),
    (
        "-C . newest --since x HEAD",
        "--since needs seconds of 1 to 10 digits, as date -d '2 weeks ago' +%s writes them, or a date from 1970 on, as 2024-05-01 or 2024-05-01T12:00:00Z",
    ),
    ("-C . newest --since 1234567890 HEAD", ""),
    ("-C . newest --after=2024-02-29 HEAD", ""),
    ("-C . newest -3 HEAD --remotes", ""),
    ("-C . newest -3a HEAD", "no option is called \"-3a\""),
    ("topo HEAD --git-dir=.git", ""),
    ("topo HEAD --git-dir=", "--git-dir needs a folder"),
    (
        "-C . newest --after 2023-02-29 HEAD",
        "--after needs seconds of 1 to 10 digits, as date -d '2 weeks ago' +%s writes them, or a date from 1970 on, as 2024-05-01 or 2024-05-01T12:00:00Z",
    ),
    (
        "-C . newest --before 2023-02-29 HEAD",
        "--before needs seconds of 1 to 10 digits, as date -d '2 weeks ago' +%s writes them, or a date from 1970 on, as 2024-05-01 or 2024-05-01T12:00:00Z",
    ),
    ("-C . topo HEAD --max-count=2 -n3 --skip 4", ""),
    (
        "-C . topo HEAD --skip=",
        "--skip needs a number of 1 to 9 digits",
    ),
    (
        "-C . topo --merges HEAD --no-merges",
        "--merges and --no-merges don't go together",
    ),
    ("-C . topo --count HEAD --reverse", ""),
    (
        "-C . ahead a b --count",
        "--count doesn't go with ahead, only with lists of commits",
    ),
    (
        "-C . contains --no-merges a b",
        "--no-merges doesn't go with contains, only with lists of commits",
    ),
    (
        "-C . files a --until 1",
        "--until doesn't go with files, only with lists of commits",
    ),
    (
        "-C . merge-base --skip=1 a b",
        "--skip doesn't go with merge-base, only with lists of commits",
    ),
    (
        "-C . resolve --reverse a",
        "--reverse doesn't go with resolve, only with lists of commits",
    ),
    ("-C . date --before=1 --merges --skip 2 --count a", ""),
    ("-C . oldest --until=2024-02-29 --no-merges --reverse a", ""),
    (
        "-C . topo --since 1 HEAD",
        "--since doesn't go with topo, only with newest and oldest",
    ),
    (
        "-C . oldest HEAD --first-parent",
        "--first-parent doesn't go with oldest, only with breadth, newest, topo and date",
    ),
    (
        "-C . newest --since 1 HEAD --first-parent",
        "--first-parent doesn't go with --since",
    ),
    ("-C . newest HEAD --first-parent", ""),
    ("-C . topo HEAD --first-parent", ""),
    ("-C . date --first-parent HEAD", ""),
    ("-C . topo -z --parents HEAD --timestamp", ""),
    (
        "-C . contains --timestamp a b",
        "--timestamp doesn't go with contains, only with lists of commits",
    ),
    (
        "-C . files --parents a",
        "--parents doesn't go with files, only with lists of commits",
    ),
    ("-C . topo -z --oneline HEAD --reverse", ""),
    (
        "-C . ahead --oneline a b",
        "--oneline doesn't go with ahead, only with lists of commits",
    ),
    (
        "-C . newest --oneline --border HEAD",
        "--oneline doesn't go with --border",
    ),
    (
        "-C . topo --format=%H%h%T%P%s%an%ae%ct%ci%n%% -z --count HEAD",
        "",
    ),
    ("-C . breadth --format a=b HEAD", ""),
    (
        "-C . topo --format %%%H%h%C(red) HEAD",
        "--format has no field \"%C(\": its fields are %H, %h, %T, %P, %s, %an, %ae, %ct, %ci, %n and %%",
    ),
    (
        "-C . topo --format é%éa HEAD",
        "--format has no field \"%é\": its fields are %H, %h, %T, %P, %s, %an, %ae, %ct, %ci, %n and %%",
    ),
    (
        "-C . topo --format %H%a HEAD",
        "--format has no field \"%a\": its fields are %H, %h, %T, %P, %s, %an, %ae, %ct, %ci, %n and %%",
    ),
    (
        "-C . topo HEAD --format",
        "--format is empty: it needs 1 to 128 bytes, as %H or '%h %an: %s'",
    ),
    (
        "-C . topo HEAD --format=",
        "--format is empty: it needs 1 to 128 bytes, as %H or '%h %an: %s'",
    ),
    (
        "-C . topo HEAD --format %",
        "--format has no field \"%\": its fields are %H, %h, %T, %P, %s, %an, %ae, %ct, %ci, %n and %%",
    ),
    (
        "-C . topo HEAD --format %ad",
        "--format has no field \"%ad\": its fields are %H, %h, %T, %P, %s, %an, %ae, %ct, %ci, %n and %%",
    ),
    (
        "-C . topo HEAD --format %B",
        "--format has no field \"%B\": its fields are %H, %h, %T, %P, %s, %an, %ae, %ct, %ci, %n and %%",
    ),
    (
        "-C . topo HEAD --format xxxxxxxxxxxxxxxxxxxxxxxxxxxxxxxxxxxxxxxxxxxxxxxxxxxxxxxxxxxxxxxxxxxxxxxxxxxxxxxxxxxxxxxxxxxxxxxxxxxxxxxxxxxxxxxxxxxxxxxxxxxxxxxxx",
        "--format has 129 bytes, and takes 128 at most",
    ),
    (
        "-C . topo HEAD --format xxxxxxxxxxxxxxxxxxxxxxxxxxxxxxxxxxxxxxxxxxxxxxxxxxxxxxxxxxxxxxxxxxxxxxxxxxxxxxxxxxxxxxxxxxxxxxxxxxxxxxxxxxxxxxxxxxxxxxxxxxxxxxxx",
        "",
    ),
    (
        "-C . topo --pretty=format:%H HEAD",
        "no option is called \"--pretty=format:%H\": --format FORMAT and --oneline say what a line has",
    ),
    (
        "-C . newest --oneline --format %H HEAD",
        "--format doesn't go with --oneline",
    ),
    (
        "-C . newest --format %H --parents HEAD",
        "--format doesn't go with --parents",
    ),
    (
        "-C . newest --timestamp --format %H HEAD",
        "--format doesn't go with --timestamp",
    ),
    (
        "-C . newest --format %H --border HEAD",
        "--format doesn't go with --border",
    ),
    (
        "-C . ahead --format %H a b",
        "--format doesn't go with ahead, only with lists of commits",
    ),
    ("-C . files -n 1 HEAD -z", ""),
    (
        "-C . ahead -n 1 a b",
        "-n doesn't go with ahead, only with lists of commits and with files",
    ),
    (
        "-C . topo HEAD -- x",
        "paths aren't known: nothing may be behind --, and only files takes REVISION:PATH",
    ),
    (
        "-C . newest --nowhere HEAD",
        "no option is called \"--nowhere\"",
    ),
    ("-C . topo HEAD --", ""),
    ("-C . topo A --not B --all --not C", ""),
    ("-C . topo --not ^A", ""),
    ("-C . topo --not A..B", ""),
    (
        "-C . topo --not --all",
        "topo needs a revision without ^, as HEAD",
    ),
    (
        "-C . topo --not A...B",
        "topo needs a revision without ^, as HEAD",
    ),
    ("-C . topo --not A^!", ""),
    ("-C . topo ^A^-2", ""),
    ("-C . topo --not ^", "a revision is empty"),
    ("-C . topo --not --stdin", ""),
    (
        "-C . files --not HEAD",
        "the number of revisions for files is 1, none of them with ^ or a range A..B",
    ),
    (
        "-C . verify-certificate --not FILE",
        "verify-certificate takes one file, and no option but -C and --no-graph",
    ),
    ("-C . topo ^", "a revision is empty"),
    (
        "-C . topo ^^HEAD",
        "a revision has one ^ at most: \"^^HEAD\"",
    ),
    ("-C . topo HEAD\r", "a revision ends in a carriage return"),
    (
        "-C . topo ^HEAD",
        "topo needs a revision without ^, as HEAD",
    ),
    ("topo --all -C .", ""),
    ("-C . topo ^HEAD --stdin", ""),
    (
        "-C . contains HEAD",
        "contains needs two revisions at least, the first of them by its name, as in contains A --tags, and none with ^ or a range A..B",
    ),
    (
        "-C . contains --tags HEAD",
        "contains needs two revisions at least, the first of them by its name, as in contains A --tags, and none with ^ or a range A..B",
    ),
    (
        "-C . contains HEAD ^a",
        "contains needs two revisions at least, the first of them by its name, as in contains A --tags, and none with ^ or a range A..B",
    ),
    ("-C . contains HEAD --tags", ""),
    (
        "-C . containing HEAD",
        "containing needs two revisions at least, the first of them by its name, as in containing A --tags, and none with ^ or a range A..B",
    ),
    (
        "-C . containing --count HEAD a",
        "--count doesn't go with containing, only with lists of commits",
    ),
    ("-C . containing HEAD --names --tags", ""),
    ("-C . contains HEAD --names --tags", ""),
    (
        "-C . merge-base HEAD --names a",
        "--names doesn't go with merge-base, only with contains and containing",
    ),
    (
        "-C . merge-base HEAD",
        "merge-base needs two revisions at least, the first of them by its name, as in merge-base A --tags, and none with ^ or a range A..B",
    ),
    (
        "-C . merge-base HEAD a ^b",
        "merge-base needs two revisions at least, the first of them by its name, as in merge-base A --tags, and none with ^ or a range A..B",
    ),
    ("-C . merge-base HEAD --stdin", ""),
    ("-C . merge-base --all HEAD a", ""),
    (
        "-C . merge-base HEAD --all",
        "merge-base needs two revisions at least, the first of them by its name, as in merge-base A --tags, and none with ^ or a range A..B",
    ),
    (
        "-C . is-ancestor HEAD",
        "the number of revisions for is-ancestor is 2, none of them with ^ or a range A..B",
    ),
    (
        "-C . is-ancestor a ^b",
        "the number of revisions for is-ancestor is 2, none of them with ^ or a range A..B",
    ),
    ("-C . is-ancestor a b", ""),
    (
        "-C . ahead HEAD",
        "ahead takes two revisions without ^, or A...B",
    ),
    ("-C . ahead a...b", ""),
    (
        "-C . files a b",
        "the number of revisions for files is 1, none of them with ^ or a range A..B",
    ),
    ("-C . files HEAD:a..b", ""),
    (
        "-C . check-graph HEAD",
        "check-graph takes no revisions, and no option but -C",
    ),
    ("-C . check-graph", ""),
    ("topo HEAD", ""),
    ("", ""),
];

fn words_of(alloc: Global, text: &str) -> Result<Vec<String>, Fail> {
    let mut words = Vec::new(alloc);
    for word in text.split(' ') {
        words.push(String::from_str(alloc, word)?)?;
    }
    Ok(words)
}

/// The same of options that say what a line has.
const FORMS: &[(&str, &str)] = &[
    ("-C . ahead -z a b", ""),
    ("-C . resolve --json a", ""),
    ("-C . topo --json --count HEAD", ""),
    ("-C . ahead --json --border a b", ""),
    ("-C . contains --json --names a b", ""),
    ("-C . is-ancestor -z a b", "-z doesn't go with is-ancestor"),
    ("-C . files --json -z a", "--json doesn't go with -z"),
    (
        "-C . topo --json --format %H HEAD",
        "--json doesn't go with --format",
    ),
    (
        "-C . newest --parents --json HEAD",
        "--json doesn't go with --parents",
    ),
    (
        "-C . newest --border --json HEAD",
        "--json doesn't go with --border",
    ),
    (
        "-C . check-graph --json",
        "check-graph takes no revisions, and no option but -C",
    ),
    (
        "-C . verify-certificate --json x",
        "verify-certificate takes one file, and no option but -C and --no-graph",
    ),
];

#[test]
fn misuse_has_a_name(rt: HostRuntime) -> Result<(), Fail> {
    compare(rt.alloc(), CASES)
}

#[test]
fn forms_of_lines_go_alone(rt: HostRuntime) -> Result<(), Fail> {
    compare(rt.alloc(), FORMS)
}

/// Compares what is said of words with what is wanted.
fn compare(alloc: Global, cases: &[(&str, &str)]) -> Result<(), Fail> {
    for (text, wanted) in cases {
        let words = words_of(alloc, *text)?;
        let said = match read_arguments(alloc, words.as_slice()) {
            Ok(_) => String::new(alloc),
            Err(misuse) => format!(in alloc; "{misuse}")?,
        };
        if said.as_str() != *wanted {
            return Err(Fail::new(format_args!("{text}: {said}")));
        }
    }
    Ok(())
}

#[test]
fn options_may_be_anywhere(rt: HostRuntime) -> Result<(), Fail> {
    let alloc = rt.alloc();
    let words = words_of(
        alloc,
        "topo --trust-graph A --all -n 3 --border ^B -C a --not C --all --verbose -C b",
    )?;
    let Asks::Question(question) = read_arguments(alloc, words.as_slice())? else {
        return Err(Fail::new("no question"));
    };
    let is_right = question.name == Name::Topo
        && question.options.rows == Rows::Trusted
        && question.options.takes_border
        && question.options.is_verbose
        && matches!(&question.place, Place::Folder(folder) if folder.as_str() == "b")
        && question.options.limit == Some(3);
    let [
        Asked::Word(a),
        Asked::Refs(Refs::All),
        Asked::Word(b),
        Asked::Turned(c),
        Asked::Hidden(Refs::All),
    ] = question.asked.as_slice()
    else {
        return Err(Fail::new("other words"));
    };
    if is_right && a.as_str() == "A" && b.as_str() == "^B" && c.as_str() == "C" {
        return Ok(());
    }
    let asked = question.asked.as_slice();
    Err(Fail::new(format_args!("{asked:?}")))
}

#[test]
fn lines_have_numbers(rt: HostRuntime) -> Result<(), Fail> {
    let alloc = rt.alloc();
    let cases: [(&[u8], &str); 8] = [
        (b"", "0 lines"),
        (b"a\nb", "2 lines"),
        (b"a\n^b\n", "2 lines"),
        (b"a\n\nb", "line 2 of standard input: a revision is empty"),
        (
            b"a\r\nb\n",
            "line 1 of standard input: a revision ends in a carriage return",
        ),
        (
            b"a\nb\n--all\n",
            "line 3 of standard input: an option is no revision",
        ),
        (b"a\n\xFF~2\n", "2 lines"),
        (
            b"a:\xFF\n",
            "line 1 of standard input: a revision isn't UTF-8",
        ),
    ];
    for (text, wanted) in cases.as_slice() {
        let said = match read_lines(alloc, *text) {
            Ok(lines) => {
                let count = lines.len();
                format!(in alloc; "{count} lines")?
            }
            Err(misuse) => format!(in alloc; "{misuse}")?,
        };
        if said.as_str() != *wanted {
            return Err(Fail::new(format_args!("{said}, not {wanted}")));
        }
    }
    Ok(())
}

/// Texts, and the seconds that they say, as `date -u -d` has them.
const TIMES: &[(&str, Option<i64>)] = &[
    ("0", Some(0)),
    ("0000000017", Some(17)),
    ("12345678901", None),
    ("1970-01-01", Some(0)),
    ("2024-05-01", Some(1714521600)),
    ("2000-02-29", Some(951782400)),
    ("1900-02-28", None),
    ("2024-05-01T12:00:00Z", Some(1714564800)),
    ("2024-05-01T12:00", Some(1714564800)),
    ("2024-05-01T12:00:07+02:00", Some(1714557607)),
    ("2024-05-01T12:00:00-0330", Some(1714577400)),
    ("1970-01-01T00:00:00+00:01", None),
    ("2286-11-20T17:46:39Z", Some(9999999999)),
    ("2286-11-20T17:46:40Z", None),
    ("2024-13-01", None),
    ("2024-04-31", None),
    ("2024-05-01T24:00", None),
    ("2024-05-01 12:00", Some(1714564800)),
    ("2024-05-01 12:00:00 +0200", Some(1714557600)),
    ("2024-05-01  12:00", None),
    ("yesterday", None),
    ("", None),
];

/// The seconds that `--since` takes a text for.
fn since(alloc: Global, text: &str) -> Result<Option<i64>, Fail> {
    let mut words = words_of(alloc, "-C . newest HEAD --since")?;
    words.push(String::from_str(alloc, text)?)?;
    let Ok(Asks::Question(question)) = read_arguments(alloc, words.as_slice()) else {
        return Ok(None);
    };
    Ok(question.options.since)
}

#[test]
fn times_are_read(rt: HostRuntime) -> Result<(), Fail> {
    for (text, seconds) in TIMES {
        if since(rt.alloc(), text)? != *seconds {
            return Err(Fail::new(format_args!("{text}")));
        }
    }
    Ok(())
}

/// Arguments with a space between any two, and the words that they are, or why they are none.
const BYTES: &[(&[u8], &str)] = &[
    (b"-C . newest HEAD \xC3\xA9", "-C . newest HEAD \u{e9}"),
    (
        b"-C . newest l\xE9in~2 ^\xFF..main",
        "-C . newest l\\351in~2 ^\\377..main",
    ),
    (b"newest l\xE9in --git-dir=x", "newest l\\351in --git-dir=x"),
    (b"-C . topo -n -n l\xE9", "-C . topo -n -n l\\351"),
    (b"-C \xE9 newest HEAD", "\\351"),
    (b"-C . newest --format \xE9 HEAD", "\\351"),
    (b"-C . newest --certificate \xE9 \xE9", "\\351"),
    (b"-C . newest --format=\xE9", "--format=\\351"),
    (b"-C . files HEAD:\xE9", "HEAD:\\351"),
    (b"-C . verify-certificate \xE9", "\\351"),
    (b"newest \xE9", "\\351"),
];

/// The words that arguments are, or the one that is no word, as a text.
fn tell_words(alloc: Global, text: &[u8]) -> Result<String, Fail> {
    let mut arguments = Vec::new(alloc);
    for part in text.split(|byte| *byte == b' ') {
        arguments.push(Vec::from_slice(alloc, part)?)?;
    }
    let mut told = String::new(alloc);
    match words_of_bytes(alloc, arguments.as_slice()) {
        Ok(words) => for word in words.iter() {
            if !told.is_empty() {
                told.push(' ')?;
            }
            told.push_str(word.as_str())?;
        },
        Err(misuse) => {
            let said = format!(in alloc; "{misuse}")?;
            let mut parts = said.as_str().split('"');
            let _before = parts.next();
            told.push_str(parts.next().unwrap_or_default())?;
        }
    }
    Ok(told)
}

#[test]
fn arguments_are_bytes(rt: HostRuntime) -> Result<(), Fail> {
    for (text, wanted) in BYTES {
        let told = tell_words(rt.alloc(), *text)?;
        if told.as_str() != *wanted {
            return Err(Fail::new(format_args!("{told}, not {wanted}")));
        }
    }
    Ok(())
}
