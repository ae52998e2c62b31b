//! What the help says.
use crate::Name;

/// What the help says of a command.
#[derive(Clone, Copy)]
pub struct Command {
    /// The command.
    pub name: Name,
    /// What follows its name.
    pub arguments: &'static str,
    /// What it writes, in lines of at most 100 letters.
    pub what: &'static [&'static str],
    /// Examples, from its name on. The help of all commands has the first.
    pub examples: &'static [&'static str],
    /// When the status is 3, behind a comma, or nothing.
    pub status: &'static str,
}

/// The version of program and library. Scripts read it here, so it stands here alone.
pub const VERSION: &str = "0.1.0";

/// How the program is called.
pub const USAGE: &[&str] = &[
    "usage: gix_walk -C FOLDER [OPTION..] COMMAND REVISION..",
    "       gix_walk -C FOLDER check-graph",
    "       gix_walk -C FOLDER verify-certificate FILE",
    "       gix_walk [--commit-graph FILE..] COMMAND ID.. < RECORDS",
];

/// What the program does.
pub const WHAT: &str =
    "Lists the commits that revisions of a Git repository reach, or the files of one revision.";

/// The commands, in the order of the help.
pub const COMMANDS: &[Command] = &[
    Command {
        name: Name::Breadth,
        arguments: "A..",
        what: &["the commits that the revisions reach, in the order in which they are met"],
        examples: &[
            "breadth HEAD",
            "breadth --count HEAD",
            "breadth --parents main ^v1.0",
        ],
        status: "",
    },
    Command {
        name: Name::Newest,
        arguments: "A..",
        what: &[
            "the same commits, newest first among the commits met so far, as git rev-list of the same tips",
        ],
        examples: &[
            "newest HEAD~2 ^HEAD~9",
            "newest --oneline -n 9 main..topic",
            "newest --since 2024-05-01 --format '%h %ci %an: %s' HEAD",
        ],
        status: "",
    },
    Command {
        name: Name::Oldest,
        arguments: "A..",
        what: &[
            "the same commits, oldest first among the commits met so far, so this isn't git rev-list",
            "--reverse",
        ],
        examples: &[
            "oldest HEAD",
            "oldest -n 1 HEAD",
            "oldest --since 2024-05-01 HEAD",
        ],
        status: "",
    },
    Command {
        name: Name::Topo,
        arguments: "A..",
        what: &[
            "the same commits, no commit before its children, one line of history after the other,",
            "as git rev-list --topo-order of the same tips",
        ],
        examples: &[
            "topo HEAD",
            "topo --merges v1.0..v2.0",
            "topo --first-parent --oneline HEAD",
        ],
        status: "",
    },
    Command {
        name: Name::Date,
        arguments: "A..",
        what: &[
            "the same commits, no commit before its children, otherwise the newest first,",
            "as git rev-list --date-order of the same tips",
        ],
        examples: &[
            "date HEAD~9..HEAD",
            "date --branches --not --tags",
            "date --reverse --json v1.0..v2.0",
        ],
        status: "",
    },
    Command {
        name: Name::Ahead,
        arguments: "A B",
        what: &[
            "how many commits the first revision reaches and the second doesn't, a space,",
            "and how many the second reaches and the first doesn't",
        ],
        examples: &[
            "ahead HEAD HEAD~3",
            "ahead topic main",
            "ahead main...topic",
        ],
        status: "",
    },
    Command {
        name: Name::Contains,
        arguments: "A B..",
        what: &[
            "those of the further revisions that the first reaches, as ids, in the order given",
        ],
        examples: &[
            "contains HEAD HEAD~3 HEAD~9",
            "contains v2.0 FIX",
            "contains main --branches --names",
        ],
        status: ", 3 where some revisions aren't contained",
    },
    Command {
        name: Name::Containing,
        arguments: "A B..",
        what: &[
            "those of the further revisions that reach the first, as ids, in the order given, as",
            "git tag --contains finds tags",
        ],
        examples: &[
            "containing HEAD~3 HEAD HEAD~9",
            "containing FIX --tags --names",
            "containing FIX --branches --json",
        ],
        status: ", 3 where none reaches the first",
    },
    Command {
        name: Name::MergeBase,
        arguments: "A B..",
        what: &[
            "the best common ancestors of the first revision and of any of the others, in rising order,",
            "as git merge-base --all lists them in another",
        ],
        examples: &[
            "merge-base HEAD~3 HEAD~9",
            "merge-base main topic",
            "merge-base main --branches",
        ],
        status: "",
    },
    Command {
        name: Name::IsAncestor,
        arguments: "A B",
        what: &[
            "nothing: the status is 0 if the second revision reaches the first, and 3 if it doesn't",
        ],
        examples: &[
            "is-ancestor HEAD~3 HEAD",
            "is-ancestor FIX v2.0",
            "is-ancestor --json v1.0 v2.0",
        ],
        status: ", 3 where the first isn't reached",
    },
    Command {
        name: Name::Files,
        arguments: "A",
        what: &["mode, id and path of each entry of a tree and of the trees in it"],
        examples: &["files HEAD:docs", "files v2.0", "files -z HEAD"],
        status: "",
    },
    Command {
        name: Name::Resolve,
        arguments: "A..",
        what: &["the id of the commit that each revision stands for, with ^ where it is excluded"],
        examples: &[
            "resolve v1.0 main~3",
            "resolve --tags",
            "resolve main...topic",
        ],
        status: "",
    },
    Command {
        name: Name::CheckGraph,
        arguments: "",
        what: &[
            "compares git's commit-graph with the commits, and these with their ids; the other commands",
            "then use it, until it changes",
        ],
        examples: &["check-graph"],
        status: "",
    },
    Command {
        name: Name::VerifyCertificate,
        arguments: "FILE",
        what: &[
            "runs the words of a certificate again, from its ids, and says what agrees with it and what",
            "differs, a line each",
        ],
        examples: &[
            "verify-certificate FILE",
            "--no-graph verify-certificate FILE",
        ],
        status: ", 3 where other lines are written",
    },
];

/// What the help says of revisions and objects, behind the commands.
pub const REVISIONS: &str = "\
A revision is an id, the first 4 digits of one or more, a ref by git's rules, HEAD or @, BRANCH@{u} for the branch's upstream, @{u} for
HEAD's, or worktrees/NAME/HEAD or main-worktree/HEAD of another worktree; behind it any of ~N, ^N, ^{commit}, ^{tree}, ^{tag} and ^{};
for files also :PATH. In the first five commands ^A excludes all commits that A reaches, A..B stands for ^A B, and A...B for A and B
without what both reach. A^@ stands for A's parents, A^! for A without what they reach, and A^-N for A without what its parent N
reaches. For ahead A...B stands for A B.

Each object that is read is compared with its id. A damaged one is a fault, and nothing is listed. Where one is missing, or no commit,
the first five commands have listed the commits before it, and nothing with --reverse and --count, and the others nothing. newest and
oldest look whether each parent of a commit that they have met is there, except behind the last line that -n allows. files refuses a tree
with a name that is empty or holds a slash, and without -n one of more than 268435456 entries, with those of the trees in it.
Over records, whose ids needn't be hashes, topo and date leave out commits that are their own ancestors, and all that these reach.
";

/// Which commands take an option.
#[derive(Clone, Copy)]
pub enum Takers {
    /// All.
    All,
    /// Those that take revisions.
    Revisions,
    /// Those that write lines over revisions.
    Lines,
    /// Those that look at rows of a commit-graph, or at commits without them.
    Rows,
    /// Lists of commits.
    Lists,
    /// Lists of commits, and of files.
    ListsAndFiles,
    /// Lists that may go through first parents alone.
    ByFirstParents,
    /// Lists by one step that looks at times.
    ByTime,
    /// Those that name revisions.
    Named,
    /// None: it stands alone.
    Nothing,
}

/// What the help says of an option.
#[derive(Clone, Copy)]
pub struct Explained {
    /// The option, and what is behind it.
    pub words: &'static str,
    /// What it does, in lines.
    pub what: &'static [&'static str],
    /// Which commands take it.
    pub takers: Takers,
}

/// The options, in the order of the help.
pub const OPTIONS: &[Explained] = &[
    Explained {
        words: "-C FOLDER",
        what: &[
            "takes the repository of this folder, or of the nearest one above it that has one; no variable names another",
        ],
        takers: Takers::All,
    },
    Explained {
        words: "--git-dir FOLDER",
        what: &["takes the folder that is called .git elsewhere"],
        takers: Takers::All,
    },
    Explained {
        words: "-n NUMBER",
        what: &[
            "ends after so many lines, in the first five commands and in files, which reads all trees; a number has 1 to 9",
            "digits, and one below 0 is no limit. -n2, -2, --max-count 2 and --max-count=2 are the same as -n 2",
        ],
        takers: Takers::ListsAndFiles,
    },
    Explained {
        words: "--skip NUMBER",
        what: &[
            "leaves out so many lines first, in the first five commands, and -n counts those behind them",
        ],
        takers: Takers::Lists,
    },
    Explained {
        words: "--merges",
        what: &[
            "takes the commits of two parents and more alone, in the first five commands; --no-merges takes those of one and none",
        ],
        takers: Takers::Lists,
    },
    Explained {
        words: "--until TIME",
        what: &[
            "leaves out the commits of a later time, in the first five commands, and goes on from them. --before TIME is the same",
        ],
        takers: Takers::Lists,
    },
    Explained {
        words: "--reverse",
        what: &[
            "writes the lines of the first five commands with the last first, as --skip and -n have chosen them",
        ],
        takers: Takers::Lists,
    },
    Explained {
        words: "--count",
        what: &["writes the number of these lines and not the lines, whatever their order"],
        takers: Takers::Lists,
    },
    Explained {
        words: "--timestamp",
        what: &[
            "writes the committer's seconds and a space before each id, in the first five commands",
        ],
        takers: Takers::Lists,
    },
    Explained {
        words: "--parents",
        what: &[
            "writes behind each id a space and the id of each parent, as the commit names them, in the first five commands",
        ],
        takers: Takers::Lists,
    },
    Explained {
        words: "--oneline",
        what: &[
            "writes behind these a space and the commit's subject, in the first five commands. Not with --border",
        ],
        takers: Takers::Lists,
    },
    Explained {
        words: "--format FORMAT",
        what: &[
            "writes on each line of the first five commands, in place of the id, a format of at most 128 bytes. In it %H stands for",
            "the id and %h for its first ten digits, %T for the tree's id, %P for the parents' ids, %s for the subject, %an and",
            "%ae for the author's name and address, %ct and %ci for the committer's time, in seconds and as a date, %n for a",
            "newline, and %% for %. Not with --oneline, --parents, --timestamp and --border",
        ],
        takers: Takers::Lists,
    },
    Explained {
        words: "--names",
        what: &[
            "writes behind each id of contains and containing a space and the revision as it was given, or the name of",
            "the ref",
        ],
        takers: Takers::Named,
    },
    Explained {
        words: "--first-parent",
        what: &[
            "goes from each commit to its first parent alone, in breadth, topo, date, and newest of one revision without ^; what",
            "^A excludes is reached by all parents",
        ],
        takers: Takers::ByFirstParents,
    },
    Explained {
        words: "--since TIME",
        what: &[
            "leaves out the commits of an earlier time and what it would meet by them alone, in newest and oldest. The time",
            "is in seconds since 1970, of 1 to 10 digits, or a date, as 2024-05-01 for its midnight in UTC, or",
            "2024-05-01T12:00:00 with nothing or Z for UTC behind it or an offset as +02:00. --after TIME, --since=TIME",
            "and --after=TIME are the same",
        ],
        takers: Takers::ByTime,
    },
    Explained {
        words: "--json",
        what: &[
            "writes each line as a JSON object, and whether is-ancestor finds that the first is reached. A commit has id, tree,",
            "parents, time, author, email and subject, an entry mode, id and path; others have id, revision, excluded, ahead,",
            "behind, count or is_ancestor. A text that isn't UTF-8 is an object with the member hex, its bytes. Not with",
            "check-graph, verify-certificate and options that say what a line has, and in lists not with --border",
        ],
        takers: Takers::Revisions,
    },
    Explained {
        words: "-z",
        what: &[
            "ends each line in a byte 0 and not in a newline, which a path may have. The number of --count stays a line. Not with",
            "--json, is-ancestor, check-graph and verify-certificate",
        ],
        takers: Takers::Lines,
    },
    Explained {
        words: "--all",
        what: &[
            "adds all refs and HEAD to the revisions, and none in merge-base; --branches adds all branches, --tags all tags, and",
            "--remotes all remote branches",
        ],
        takers: Takers::Revisions,
    },
    Explained {
        words: "--not",
        what: &[
            "turns ^ round for the revisions behind it, up to the next --not: A --not B --tags is A ^B and ^ before each tag",
        ],
        takers: Takers::Revisions,
    },
    Explained {
        words: "--stdin",
        what: &[
            "adds the lines of standard input to the revisions, none of which is empty or an option; --not doesn't count for them",
        ],
        takers: Takers::Revisions,
    },
    Explained {
        words: "--border",
        what: &[
            "takes the commits at the border of a shallow clone as commits without parents, as git does",
        ],
        takers: Takers::Revisions,
    },
    Explained {
        words: "--no-graph",
        what: &[
            "reads all commits themselves. Otherwise git's commit-graph is used where check-graph has found it right",
        ],
        takers: Takers::Rows,
    },
    Explained {
        words: "--trust-graph",
        what: &["uses git's commit-graph although nobody has checked it, as git does"],
        takers: Takers::Revisions,
    },
    Explained {
        words: "--certificate FILE",
        what: &[
            "writes into a new file what was asked, the ids, the SHA-256 of the lines, and which program ran, as JSON;",
            "not with check-graph and verify-certificate",
        ],
        takers: Takers::Revisions,
    },
    Explained {
        words: "--verbose",
        what: &["says on standard error what each revision stands for"],
        takers: Takers::All,
    },
    Explained {
        words: "--version",
        what: &["alone: says which program this is, and whether it was proved"],
        takers: Takers::Nothing,
    },
];

/// What the help says at its end.
pub const STATUS: &str = "\
The status is 0 where everything was listed, or the commit-graph is right, 1 after a fault, 2 where the words are no such command, and
3 where contains found that some revisions aren't contained, containing that none reaches the first, is-ancestor that the first
isn't reached, or verify-certificate that other lines are written. A line on standard error says why. On a terminal, bytes of lines that it
would take as commands, if it reads UTF-8, are written as a backslash and three octal digits.
";

impl Takers {
    /// Whether a command is among them.
    pub fn have(self, name: Name) -> bool {
        let takes_revisions = !matches!(name, Name::CheckGraph | Name::VerifyCertificate);
        match self {
            Takers::All => true,
            Takers::Revisions => takes_revisions,
            Takers::Lines => takes_revisions && name != Name::IsAncestor,
            Takers::Rows => name != Name::CheckGraph,
            Takers::Lists => name.is_list(),
            Takers::ListsAndFiles => name.takes_limit(),
            Takers::ByFirstParents => name.is_list() && name != Name::Oldest,
            Takers::ByTime => matches!(name, Name::Newest | Name::Oldest),
            Takers::Named => matches!(name, Name::Contains | Name::Containing),
            Takers::Nothing => false,
        }
    }
}

/// What the help says of a command.
pub fn help_of(name: Name) -> Option<&'static Command> {
    COMMANDS.iter().find(|command| command.name == name)
}
