//! The names of the commands.
ghost use Rattle.std.specs.Prelude.{◌≡◌, IfSome};
ghost use Rattle.gix_options.specs.Names.{word_of};
ghost use Rattle.gix_options.specs.OptionWords.{is_list};

/// A command over a repository.
#[derive(Clone, Copy, PartialEq, Eq, Debug)]
pub enum Name {
    /// A list in the order in which commits are met.
    Breadth,
    /// A list, newest first among the commits met.
    Newest,
    /// A list, oldest first among the commits met.
    Oldest,
    /// A list, no commit before its children, one line of history after the other.
    Topo,
    /// A list, no commit before its children, otherwise the newest first.
    Date,
    /// Two numbers: how far two revisions are apart.
    Ahead,
    /// Which of some revisions another one reaches.
    Contains,
    /// Which of some revisions reach another one.
    Containing,
    /// The best common ancestors of a revision and of any of some others.
    MergeBase,
    /// Whether a revision is reached by another one.
    IsAncestor,
    /// The entries of a tree.
    Files,
    /// The ids that revisions stand for.
    Resolve,
    /// Whether git's commit-graph says what the commits say.
    CheckGraph,
    /// Whether what a certificate says was written is written now.
    VerifyCertificate,
}

impl Name {
    /// The command of this name.
    pub fn of(word: &str) -> Option<Name>
        ensures { IfSome result (λ name. word.now ≡ word_of name) }
    {
        match word {
            "breadth" => Some(Name::Breadth),
            "newest" => Some(Name::Newest),
            "oldest" => Some(Name::Oldest),
            "topo" => Some(Name::Topo),
            "date" => Some(Name::Date),
            "ahead" => Some(Name::Ahead),
            "contains" => Some(Name::Contains),
            "containing" => Some(Name::Containing),
            "merge-base" => Some(Name::MergeBase),
            "is-ancestor" => Some(Name::IsAncestor),
            "files" => Some(Name::Files),
            "resolve" => Some(Name::Resolve),
            "check-graph" => Some(Name::CheckGraph),
            "verify-certificate" => Some(Name::VerifyCertificate),
            _ => None,
        }
    }

    /// The name as it is written.
    pub fn word(self) -> &'static str
        ensures { result.now ≡ word_of self }
    {
        match self {
            Name::Breadth => "breadth",
            Name::Newest => "newest",
            Name::Oldest => "oldest",
            Name::Topo => "topo",
            Name::Date => "date",
            Name::Ahead => "ahead",
            Name::Contains => "contains",
            Name::Containing => "containing",
            Name::MergeBase => "merge-base",
            Name::IsAncestor => "is-ancestor",
            Name::Files => "files",
            Name::Resolve => "resolve",
            Name::CheckGraph => "check-graph",
            Name::VerifyCertificate => "verify-certificate",
        }
    }

    /// Whether it lists commits, so that a number of lines goes with it, and hidden commits.
    pub fn is_list(self) -> bool
        ensures { result ≡ is_list self }
    {
        matches!(
            self,
            Name::Breadth | Name::Newest | Name::Oldest | Name::Topo | Name::Date
        )
    }

    /// Whether it writes a list of commits or entries, of which `-n` may take the first.
    pub fn takes_limit(self) -> bool {
        self.is_list() || self == Name::Files
    }
}
