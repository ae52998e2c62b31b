//! Arguments that ask something of a repository.
ghost use Rattle.std.specs.Prelude.{◌≡◌, ◌+◌, ◌≤◌, ◌<◌, ◌&&◌, ◌++◌, ◌∷◌, [], false, codes, is_some, length, not, IfOk, IfSome, MatchBool, OnOk};
ghost use Rattle.std.specs.Option.{option_to_list};
ghost use Rattle.std.specs.Str.{bytes_eq};
ghost use Rattle.gix_options.specs.AskedWords.{IsRevision, asked_refs, set_of};
ghost use Rattle.gix_options.specs.declared.question.Asked.{Asked};
ghost use Rattle.gix_options.specs.OptionWords.{AreFit, GoWith, IsFit};

use crate::hint::{of_command, of_option};
use crate::lines::{fault_of, misuse_of};
use crate::options::{number_in, takes_value};
use crate::{Asked, Asks, Misuse, Name, Options, Place, Question, Refs, Rows};
use std::alloc::{AllocError, Global};
use std::mem;

/// What was read of the arguments.
struct Arguments {
    alloc: Global,
    place: Option<Place>,
    name: Option<Name>,
    needs_help: bool,
    /// Whether `^` means the opposite, as behind `--not`.
    is_turned: bool,
    asked: Vec<Asked>,
    options: Options,
}

/// A call drops what was read.
impl Drop for Arguments {
    fn drop(self) {
        let Arguments {
            alloc: _,
            place: _,
            name: _,
            needs_help: _,
            is_turned: _,
            asked: _,
            options: _,
        } = self;
    }
}

/// What the arguments behind the program's name ask. They are about a repository where one of them is `-C` or `--git-dir`, and each option
/// may then be anywhere: the first other word is the command, and what follows are revisions. Of an option that is given twice the later
/// counts.
///
/// # Errors
///
/// The first [`Misuse`] that is met. Where no repository is named, arguments are never misused here.
pub fn read_arguments(alloc: Global, words: &[String]) -> Result<Asks, Misuse>
    ensures { IfOk result AreFit }
{
    if let Some(asks) = read_help(words) {
        return Ok(asks);
    }
    if !words.iter().any(|word| names_place(word.as_str())) {
        return Ok(Asks::Records);
    }
    let mut arguments = Arguments::new(alloc);
    arguments.read_all(words)?;
    arguments.ask()
}

/// What a command, its options and revisions ask of the repository at a place, as [`read_arguments`] takes them behind `-C` and a folder.
///
/// # Errors
///
/// The first [`Misuse`] that is met. `NoCommand` where help is asked for, and `NoOption` where the words name a place of their own.
pub fn read_question(alloc: Global, place: Place, words: &[String]) -> Result<Question, Misuse>
    ensures { IfOk result IsFit }
{
    let mut arguments = Arguments::new(alloc);
    arguments.read_all(words)?;
    if arguments.place.is_some() {
        return Err(Misuse::NoOption(String::from_str(alloc, "-C")?, ""));
    }
    arguments.place = Some(place);
    match arguments.ask() {
        Ok(Asks::Question(question)) => Ok(question),
        Ok(_) => Err(Misuse::NoCommand),
        Err(misuse) => Err(misuse),
    }
}

/// Whether an argument says where a repository is.
pub(crate) fn names_place(word: &str) -> bool {
    word == "-C" || word == "--git-dir" || word.starts_with("--git-dir=")
}

/// Help that is asked for without a repository: the first word is an option that asks for it.
fn read_help(words: &[String]) -> Option<Asks>
    ensures { IfSome result AreFit }
{
    let [first, behind @ ..] = words else {
        return None;
    };
    match first.as_str() {
        "--help" | "-h" | "help" => {
            let name = behind.first().and_then(|word| Name::of(word.as_str()));
            Some(Asks::Help(name))
        }
        "--version" => Some(Asks::Version),
        word => match (Name::of(word), behind) {
            (Some(name), [option]) => {
                if is_help(option.as_str()) {
                    Some(Asks::Help(Some(name)))
                } else {
                    None
                }
            }
            _ => None,
        },
    }
}

/// Whether an option asks for help.
fn is_help(word: &str) -> bool {
    word == "--help" || word == "-h"
}

impl Arguments {
    /// Nothing was read.
    fn new(alloc: Global) -> Arguments {
        Arguments {
            alloc,
            place: None,
            name: None,
            needs_help: false,
            is_turned: false,
            asked: Vec::new(alloc),
            options: Options::none(),
        }
    }

    /// Reads all arguments.
    fn read_all(&mut self, words: &[String]) -> Result<(), Misuse> {
        let mut left = words;
        for _ in 0..=words.len() {
            let [word, behind @ ..] = left else {
                break;
            };
            left = self.read(word.as_str(), behind)?;
        }
        Ok(())
    }

    /// Reads an argument, and lends the arguments that are left behind it and what goes with it.
    fn read<'a>(&mut self, word: &str, behind: &'a [String]) -> Result<&'a [String], Misuse>
        // `--not` turns, and nothing else does.
        ensures { OnOk result (MatchBool (bytes_eq word.now (codes "--not")) (self.new.is_turned ≡ not self.old.is_turned) (self.new.is_turned ≡ self.old.is_turned)) }
    {
        if word == "--not" {
            self.is_turned = !self.is_turned;
            return Ok(behind);
        }
        if word == "-C" || word == "--git-dir" {
            return self.read_place(word, behind);
        }
        if self.read_set(word)? {
            return Ok(behind);
        }
        self.read_other(word, behind)
    }

    /// Reads a set of revisions. Whether the word is one.
    fn read_set(&mut self, word: &str) -> Result<bool, AllocError>
        ensures turned { self.new.is_turned ≡ self.old.is_turned }
        ensures asked { IfOk result (λ is_set. (is_set ≡ is_some (set_of word.now self.old.is_turned)) × (self.new.asked.items ≡ self.old.asked.items
            ++ option_to_list (set_of word.now self.old.is_turned))) }
    {
        match word {
            "--all" => self.push_refs(Refs::All)?,
            "--branches" => self.push_refs(Refs::Branches)?,
            "--tags" => self.push_refs(Refs::Tags)?,
            "--remotes" => self.push_refs(Refs::Remotes)?,
            "--stdin" => self.asked.push(Asked::Lines)?,
            _ => return Ok(false),
        }
        Ok(true)
    }

    /// Reads an option, the command, or a revision, and lends the arguments that are left.
    fn read_other<'a>(&mut self, word: &str, behind: &'a [String]) -> Result<&'a [String], Misuse>
        ensures { self.new.is_turned ≡ self.old.is_turned }
    {
        let (option, value) = with_value(word);
        if takes_value(option) {
            return self.read_value(option, value, behind);
        }
        if self.options.take_flag(word) || self.read_joined(word)? {
            return Ok(behind);
        }
        match word {
            "--help" | "-h" => self.needs_help = true,
            "--" if behind.is_empty() => {}
            "--" => return Err(Misuse::Paths),
            word => self.read_word(word)?,
        }
        Ok(behind)
    }

    /// Takes a set of refs.
    fn push_refs(&mut self, refs: Refs) -> Result<(), AllocError>
        ensures turned { self.new.is_turned ≡ self.old.is_turned }
        ensures asked { OnOk result (self.new.asked.items ≡ self.old.asked.items ++ asked_refs self.old.is_turned refs ∷ []) }
    {
        let asked = if self.is_turned {
            Asked::Hidden(refs)
        } else {
            Asked::Refs(refs)
        };
        Ok(self.asked.push(asked)?)
    }

    /// Reads `--git-dir=FOLDER`, or `-N` for `-n N`. Whether the word is one of them.
    fn read_joined(&mut self, word: &str) -> Result<bool, Misuse>
        ensures { self.new.is_turned ≡ self.old.is_turned }
    {
        if let Some(folder) = word.strip_prefix("--git-dir=") {
            self.set_place("--git-dir", folder)?;
            return Ok(true);
        }
        let number = word.strip_prefix('-').unwrap_or_default();
        let Some(limit) = number_in(number.as_bytes()) else {
            return Ok(false);
        };
        self.options.limit = Some(limit);
        Ok(true)
    }

    /// Reads where the repository is.
    fn read_place<'a>(&mut self, option: &str, behind: &'a [String]) -> Result<&'a [String], Misuse>
        ensures { self.new.is_turned ≡ self.old.is_turned }
    {
        let option = if option == "-C" { "-C" } else { "--git-dir" };
        let [folder, behind @ ..] = behind else {
            return Err(Misuse::NoFolder(option));
        };
        self.set_place(option, folder.as_str())?;
        Ok(behind)
    }

    /// Takes where the repository is.
    fn set_place(&mut self, option: &'static str, folder: &str) -> Result<(), Misuse>
        ensures { self.new.is_turned ≡ self.old.is_turned }
    {
        if folder.is_empty() {
            return Err(Misuse::NoFolder(option));
        }
        let folder = String::from_str(self.alloc, folder)?;
        self.place = Some(if option == "-C" {
            Place::Folder(folder)
        } else {
            Place::GitDir(folder)
        });
        Ok(())
    }

    /// Reads the value of an option: the one in its own word, or else the next word.
    fn read_value<'a>(
        &mut self,
        option: &str,
        value: Option<&str>,
        behind: &'a [String],
    ) -> Result<&'a [String], Misuse>
        ensures { self.new.is_turned ≡ self.old.is_turned }
    {
        let (value, behind) = match (value, behind) {
            (Some(value), behind) => (value, behind),
            (None, [value, behind @ ..]) => (value.as_str(), behind),
            (None, []) => ("", behind),
        };
        self.options.take_value(self.alloc, option, value)?;
        Ok(behind)
    }

    /// Reads a word that is no option: the command, or a revision.
    fn read_word(&mut self, word: &str) -> Result<(), Misuse>
        ensures { self.new.is_turned ≡ self.old.is_turned }
    {
        if word.starts_with('-') {
            let text = String::from_str(self.alloc, word)?;
            let (option, _) = with_value(word);
            return Err(Misuse::NoOption(text, of_option(option, self.name)));
        }
        if self.name.is_none() {
            return self.read_command(word);
        }
        if let Some(fault) = fault_of(word) {
            return Err(misuse_of(self.alloc, word, fault)?);
        }
        self.push_revision(word)?;
        Ok(())
    }

    /// Reads the command.
    fn read_command(&mut self, word: &str) -> Result<(), Misuse>
        ensures { self.new.is_turned ≡ self.old.is_turned }
    {
        if word == "help" {
            self.needs_help = true;
            return Ok(());
        }
        let Some(name) = Name::of(word) else {
            let text = String::from_str(self.alloc, word)?;
            let (hint, nearest) = of_command(word);
            return Err(Misuse::Command(text, hint, nearest));
        };
        self.name = Some(name);
        Ok(())
    }

    /// Takes a revision.
    fn push_revision(&mut self, word: &str) -> Result<(), AllocError>
        ensures turned { self.new.is_turned ≡ self.old.is_turned }
        ensures asked { OnOk result ((one : Asked) × IsRevision self.old.is_turned word.now one × (self.new.asked.items ≡ self.old.asked.items ++ one ∷ [])) }
    {
        let text = String::from_str(self.alloc, word)?;
        let asked = if self.is_turned {
            Asked::Turned(text)
        } else {
            Asked::Word(text)
        };
        Ok(self.asked.push(asked)?)
    }

    /// What all arguments ask. It is moved out of what was read.
    fn ask(&mut self) -> Result<Asks, Misuse>
        ensures { IfOk result AreFit }
    {
        if self.needs_help {
            return Ok(Asks::Help(self.name));
        }
        let Some(name) = self.name else {
            return Err(Misuse::NoCommand);
        };
        self.take_as_git(name);
        self.check_options(name)?;
        self.check_number(name)?;
        if self.options.as_json {
            self.options.take_json(name);
        }
        match self.place.take() {
            Some(place) => Ok(Asks::Question(self.question(place, name))),
            None => Err(Misuse::NoFolder("-C")),
        }
    }

    /// Leaves out what git leaves out: the order of what is only counted, and that all best common ancestors are wanted, as they always are.
    fn take_as_git(&mut self, name: Name)
        ensures { (self.new.options.counts && self.new.options.is_reversed) ≡ false }
    {
        if self.options.counts {
            self.options.is_reversed = false;
        }
        if name == Name::MergeBase {
            self.asked
                .retain(|asked| !matches!(asked, Asked::Refs(Refs::All)));
        }
    }

    /// The question of this command at this place.
    fn question(&mut self, place: Place, name: Name) -> Question
        ensures name { result.name ≡ name }
        ensures options { result.options ≡ self.old.options }
    {
        Question {
            place,
            name,
            asked: mem::replace(&mut self.asked, Vec::new(self.alloc)),
            options: mem::replace(&mut self.options, Options::none()),
        }
    }

    /// Whether each option goes with the command.
    fn check_options(&self, name: Name) -> Result<(), Misuse>
        ensures merges { OnOk result ((self.now.options.merges && self.now.options.no_merges) ≡ false) }
        ensures walk { OnOk result (GoWith name self.now.options) }
    {
        if self.options.limit.is_some() && !name.takes_limit() {
            return Err(Misuse::option("-n", name));
        }
        if !name.is_list() {
            if let Some(option) = self.options.of_list() {
                return Err(Misuse::option(option, name));
            }
        }
        if self.options.merges && self.options.no_merges {
            return Err(Misuse::Merges);
        }
        if let Some(form) = self.options.whole_line() {
            if let Some(option) = self.options.against_whole_line() {
                return Err(Misuse::Misfit(form, option, ""));
            }
            if self.options.takes_border && name.is_list() {
                return Err(Misuse::Misfit(form, "--border", ""));
            }
        }
        if self.options.gives_subject && self.options.takes_border {
            return Err(Misuse::Misfit("--oneline", "--border", ""));
        }
        self.check_walk(name)?;
        if self.options.ends_in_zero && name == Name::IsAncestor {
            return Err(Misuse::option("-z", name));
        }
        if self.options.gives_names && !matches!(name, Name::Contains | Name::Containing) {
            return Err(Misuse::option("--names", name));
        }
        if self.options.certificate.is_some() && name == Name::CheckGraph {
            return Err(Misuse::option("--certificate", name));
        }
        if name == Name::VerifyCertificate
            && (self.options.certificate.is_some()
                || self.options.as_json
                || self.options.ends_in_zero
                || self.is_turned
                || self.options.takes_border
                || self.options.rows == Rows::Trusted)
        {
            return Err(Misuse::Certificate);
        }
        if name == Name::CheckGraph
            && (!self.asked.is_empty()
                || self.options.takes_border
                || self.options.as_json
                || self.options.ends_in_zero
                || self.options.rows != Rows::Checked)
        {
            return Err(Misuse::CheckGraph);
        }
        Ok(())
    }

    /// Whether what is said of the walk goes with the command.
    fn check_walk(&self, name: Name) -> Result<(), Misuse>
        ensures { OnOk result (GoWith name self.now.options) }
    {
        let takes_first = matches!(name, Name::Breadth | Name::Newest | Name::Topo | Name::Date);
        let takes_since = matches!(name, Name::Newest | Name::Oldest);
        let is_first = self.options.by_first_parents;
        let is_since = self.options.since.is_some();
        if is_first && !takes_first {
            Err(Misuse::option("--first-parent", name))
        } else if is_first && is_since {
            Err(Misuse::Misfit("--first-parent", "--since", ""))
        } else if is_since && !takes_since {
            Err(Misuse::option("--since", name))
        } else {
            Ok(())
        }
    }

    /// Whether so many revisions go with the command, as far as words show it: a set or a range may name many.
    fn check_number(&self, name: Name) -> Result<(), Misuse> {
        let words = self.asked.len();
        let tips = self.asked.iter().filter(|word| may_be_tip(word)).count();
        match name {
            Name::CheckGraph => Ok(()),
            Name::VerifyCertificate => match self.asked.as_slice() {
                [Asked::Word(_)] => Ok(()),
                _ => Err(Misuse::Certificate),
            },
            Name::Ahead => {
                if words == 2 && tips == 2 || words == 1 && self.has_symmetric() {
                    Ok(())
                } else {
                    Err(Misuse::Ahead)
                }
            }
            Name::IsAncestor => {
                if words == 2 && tips == 2 {
                    Ok(())
                } else {
                    Err(Misuse::Number(name.word(), 2))
                }
            }
            Name::Files => {
                if words == 1 && tips == 1 {
                    Ok(())
                } else {
                    Err(Misuse::Number(name.word(), 1))
                }
            }
            Name::Contains | Name::Containing | Name::MergeBase => {
                let begins = matches!(self.asked.first(), Some(Asked::Word(_)));
                if begins && words > 1 && tips == words {
                    Ok(())
                } else {
                    Err(Misuse::Several(name.word()))
                }
            }
            _ => {
                if tips > 0 {
                    Ok(())
                } else {
                    Err(Misuse::NoTip(name.word()))
                }
            }
        }
    }

    /// Whether the first word is a range with three dots.
    fn has_symmetric(&self) -> bool {
        match self.asked.first() {
            Some(Asked::Word(word)) => word.contains("..."),
            _ => false,
        }
    }
}

/// Whether a word may name a commit that isn't hidden.
fn may_be_tip(asked: &Asked) -> bool {
    match asked {
        Asked::Word(word) => may_be_shown(word.as_str(), false),
        Asked::Turned(word) => may_be_shown(word.as_str(), true),
        Asked::Hidden(_) => false,
        Asked::Refs(_) | Asked::Lines => true,
    }
}

/// The same of a word, behind `--not` or not: a range, or one with parents, may name commits of both kinds.
fn may_be_shown(word: &str, is_turned: bool) -> bool {
    if word.contains("...") {
        return !is_turned;
    }
    let has_both = word.contains("..") || word.ends_with("^!") || word.contains("^-");
    has_both || word.starts_with('^') == is_turned
}

/// An option, and its value where it is in the same word.
fn with_value(word: &str) -> (&str, Option<&str>) {
    if word.starts_with("--") {
        return match word.split_once('=') {
            Some((option, value)) => (option, Some(value)),
            None => (word, None),
        };
    }
    match word.strip_prefix("-n") {
        Some("") | None => (word, None),
        Some(value) => ("-n", Some(value)),
    }
}

/// Whether the word behind this one is its value.
pub(crate) fn needs_value(word: &str) -> bool {
    match with_value(word) {
        (_, Some(_)) => false,
        (option, None) => takes_value(option) || option == "-C" || option == "--git-dir",
    }
}
