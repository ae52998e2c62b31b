//! What there is in place of words that aren't taken.
use crate::{COMMANDS, Name};

/// How many first letters of a command's name stand for it in a hint, at the least.
const FEWEST_LETTERS: usize = 3;
/// Why no picked copy of a commit is found.
const BY_IDS: &str =
    ": commits are compared by their ids, not by what they change, so a picked copy is another commit";

/// What there is in place of a word that is no command, behind a colon: for a command of git's, or the command of nearly this name.
pub(crate) fn of_command(word: &str) -> (&'static str, &'static str) {
    let hint = of_command_of_git(word);
    if !hint.is_empty() {
        return (hint, "");
    }
    match nearest(word) {
        Some(name) => (": the nearest is ", name.word()),
        None => ("", ""),
    }
}

/// The first command whose name begins with a word, or is one letter away from it.
fn nearest(word: &str) -> Option<Name> {
    let found = COMMANDS
        .iter()
        .find(|command| is_near(word, command.name.word()))?;
    Some(found.name)
}

/// Whether a name begins with a word of some letters, or a letter more, less or another, or two exchanged, make it that word.
fn is_near(word: &str, name: &str) -> bool {
    if word.len() >= FEWEST_LETTERS && name.starts_with(word) {
        return true;
    }
    let (word, name) = without_common_front(word.as_bytes(), name.as_bytes());
    match without_common_end(word, name) {
        ([], [_]) | ([_], []) | ([_], [_]) => true,
        ([a, b], [c, d]) => a == d && b == c,
        _ => false,
    }
}

/// What is left of two texts behind the letters with which both begin.
fn without_common_front<'a>(word: &'a [u8], name: &'a [u8]) -> (&'a [u8], &'a [u8]) {
    let (mut word, mut name) = (word, name);
    for _ in 0..word.len() {
        match (word, name) {
            ([a, behind @ ..], [b, rest @ ..]) if a == b => {
                word = behind;
                name = rest;
            }
            _ => break,
        }
    }
    (word, name)
}

/// What is left of two texts before the letters with which both end.
fn without_common_end<'a>(word: &'a [u8], name: &'a [u8]) -> (&'a [u8], &'a [u8]) {
    let (mut word, mut name) = (word, name);
    for _ in 0..word.len() {
        match (word, name) {
            ([before @ .., a], [rest @ .., b]) if a == b => {
                word = before;
                name = rest;
            }
            _ => break,
        }
    }
    (word, name)
}

/// What there is in place of a command of git's, behind a colon.
fn of_command_of_git(word: &str) -> &'static str {
    match word {
        "log" | "rev-list" =>
            ": newest lists commits as git rev-list does, with --oneline or --format as git log",
        "branch" | "tag" =>
            ": containing A --branches --names says which branches have A, and so with --tags",
        "rev-parse" | "show-ref" => ": resolve gives the ids of revisions",
        "ls-tree" => ": files lists the files of a revision, as files HEAD or files HEAD:docs",
        "cherry" | "cherry-pick" => BY_IDS,
        _ => "",
    }
}

/// What there is in place of an option of git's behind this command, behind a colon.
pub(crate) fn of_option(option: &str, name: Option<Name>) -> &'static str {
    match option {
        "--branches" | "--tags" | "--remotes" | "--glob" | "--exclude" =>
            ": refs aren't chosen by a pattern, but --branches, --tags, --remotes and --all add refs",
        "--pretty" => ": --format FORMAT and --oneline say what a line has",
        "--abbrev-commit" | "--abbrev" => ": --format %h writes short ids",
        "--topo-order" | "--graph" => ": the command topo lists commits in this order",
        "--date-order" | "--author-date-order" =>
            ": the command date lists commits by the committer's time, none before its children",
        "--no-walk" => ": resolve gives the ids of revisions, and newest -n 1 lists one commit",
        "--left-right" | "--left-only" | "--right-only" => ": ahead A B counts both sides",
        "--cherry-pick" | "--cherry-mark" | "--cherry" => BY_IDS,
        "--contains" | "--no-contains" | "--merged" | "--no-merged" =>
            ": containing A --branches --names says which branches have A, and contains A --branches --names which A has",
        "--is-ancestor" => ": it is a command, is-ancestor A B",
        "--min-parents" | "--max-parents" =>
            ": --merges and --no-merges choose by the number of parents",
        "--author" | "--committer" | "--grep" =>
            ": commits aren't chosen by texts, but --format '%h %an: %s' writes them",
        "--name-only" if name == Some(Name::Files) =>
            ": files writes mode, id and path: cut -d' ' -f3- keeps the path",
        "-p" | "-u" | "--patch" | "--stat" | "--name-only" | "--name-status" =>
            ": what a commit changes isn't known",
        "--max-age" => ": --since TIME says it",
        "--min-age" => ": --until TIME says it",
        _ => "",
    }
}
