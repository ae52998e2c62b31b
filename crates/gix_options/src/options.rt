//! The options of a question, and the values that they take.
ghost use Rattle.std.specs.Prelude.{◌≡◌, Some, IfOk, OnOk, is_some};
ghost use Rattle.std.specs.Option.{unwrap_or};
ghost use Rattle.gix_options.specs.Flags.{with_flag};
ghost use Rattle.gix_options.specs.Values.{HasValue, IsSeconds, is_negative, limit_in};
ghost use Rattle.gix_words.specs.Formats.{format_of};
ghost use Rattle.gix_words.specs.Words.{number_in};

use crate::date::{number, seconds_of};
use crate::format::format_of;
use crate::{Misuse, Name};
use gix_words::Format;
use std::alloc::Global;

/// What a line of a list of commits says with `--json`, by `--format`: of its lines each but the last is a member of the object.
const JSON_FORMAT: &str = "%H%n%T%n%P%n%ct%n%an%n%ae%n%s";

/// When git's commit-graph is used.
#[derive(Clone, Copy, PartialEq, Eq, Debug)]
pub enum Rows {
    /// Where the file was checked and hasn't changed since.
    Checked,
    /// Always, as by git.
    Trusted,
    /// Never.
    Unused,
}

/// What the options say.
pub struct Options {
    /// When git's commit-graph is used.
    pub rows: Rows,
    /// Whether the commits at the border of a shallow clone have no parents.
    pub takes_border: bool,
    /// Whether it is said what each word stands for.
    pub is_verbose: bool,
    /// Whether only first parents are walked.
    pub by_first_parents: bool,
    /// The least time, in seconds since 1970, of at most 10 digits.
    pub since: Option<i64>,
    /// The greatest time of a commit that is listed, of at most 10 digits.
    pub until: Option<i64>,
    /// Whether only commits of two parents at least are listed.
    pub merges: bool,
    /// Whether only commits of one parent at most are listed.
    pub no_merges: bool,
    /// How many lines are left out first, of at most 9 digits.
    pub skip: Option<u64>,
    /// How many lines are written at most, of at most 9 digits.
    pub limit: Option<u64>,
    /// Whether only the number of lines is written.
    pub counts: bool,
    /// Whether the last line comes first.
    pub is_reversed: bool,
    /// What a line says of its commit, in place of the id.
    pub format: Option<Format>,
    /// Whether a line begins with the committer's seconds.
    pub gives_time: bool,
    /// Whether a line has the ids of the parents.
    pub gives_parents: bool,
    /// Whether a line ends with the commit's subject.
    pub gives_subject: bool,
    /// Whether each line is an object of JSON.
    pub as_json: bool,
    /// Whether a byte 0 ends each line.
    pub ends_in_zero: bool,
    /// Whether each line says how its revision was called.
    pub gives_names: bool,
    /// The new file in which it is kept what was written.
    pub certificate: Option<String>,
}

/// A call drops options. Else each function that holds them would drop them one by one, and so would its proof.
impl Drop for Options {
    fn drop(self) {
        let Options {
            rows: _,
            takes_border: _,
            is_verbose: _,
            by_first_parents: _,
            since: _,
            until: _,
            merges: _,
            no_merges: _,
            skip: _,
            limit: _,
            counts: _,
            is_reversed: _,
            format: _,
            gives_time: _,
            gives_parents: _,
            gives_subject: _,
            as_json: _,
            ends_in_zero: _,
            gives_names: _,
            certificate: _,
        } = self;
    }
}

impl Options {
    /// Nothing is given.
    pub(crate) fn none() -> Options {
        Options {
            rows: Rows::Checked,
            takes_border: false,
            is_verbose: false,
            by_first_parents: false,
            since: None,
            until: None,
            merges: false,
            no_merges: false,
            skip: None,
            limit: None,
            counts: false,
            is_reversed: false,
            format: None,
            gives_time: false,
            gives_parents: false,
            gives_subject: false,
            as_json: false,
            ends_in_zero: false,
            gives_names: false,
            certificate: None,
        }
    }

    /// Whether lines say what no row of a commit-graph has.
    pub fn give_text(&self) -> bool {
        self.gives_subject || self.format.is_some()
    }

    /// Notes an option without a value, and says whether the word is one.
    pub(crate) fn take_flag(&mut self, word: &str) -> bool
        ensures taken { result ≡ is_some (with_flag word.now self.old) }
        ensures options { self.new ≡ unwrap_or (with_flag word.now self.old) self.old }
    {
        match word {
            "--merges" => self.merges = true,
            "--no-merges" => self.no_merges = true,
            "--count" => self.counts = true,
            "--reverse" => self.is_reversed = true,
            "--timestamp" => self.gives_time = true,
            "--parents" => self.gives_parents = true,
            "--oneline" => self.gives_subject = true,
            "--json" => self.as_json = true,
            "--no-graph" => self.rows = Rows::Unused,
            "--trust-graph" => self.rows = Rows::Trusted,
            "--border" => self.takes_border = true,
            "--verbose" => self.is_verbose = true,
            "--first-parent" => self.by_first_parents = true,
            "-z" => self.ends_in_zero = true,
            "--names" => self.gives_names = true,
            _ => return false,
        }
        true
    }

    /// Takes an option's value.
    pub(crate) fn take_value(
        &mut self,
        alloc: Global,
        option: &str,
        value: &str,
    ) -> Result<(), Misuse>
        ensures { OnOk result (HasValue option.now value.now self.old self.new) }
    {
        match option {
            "-n" | "--max-count" => self.take_limit(value.as_bytes()),
            "--skip" => self.take_skip(value.as_bytes()),
            "--certificate" => self.take_certificate(alloc, value),
            "--format" => self.take_format(alloc, value),
            "--since" => self.take_since("--since", value),
            "--after" => self.take_since("--after", value),
            "--until" => self.take_until("--until", value),
            _ => self.take_until("--before", value),
        }
    }

    /// Takes how many lines are written. A number below 0 is no limit.
    fn take_limit(&mut self, value: &[u8]) -> Result<(), Misuse>
        ensures { OnOk result (self.new ≡ record self.old { limit = limit_in value.now }) }
    {
        self.limit = if is_negative(value) {
            None
        } else {
            Some(number_in(value).ok_or(Misuse::Limit)?)
        };
        Ok(())
    }

    /// Takes how many lines are left out first.
    fn take_skip(&mut self, value: &[u8]) -> Result<(), Misuse>
        ensures { OnOk result (self.new ≡ record self.old { skip = number_in 9 value.now }) }
    {
        self.skip = Some(number_in(value).ok_or(Misuse::Skip)?);
        Ok(())
    }

    /// Takes the name of a file for the certificate.
    fn take_certificate(&mut self, alloc: Global, value: &str) -> Result<(), Misuse>
        ensures { OnOk result (self.new ≡ record self.old { certificate = self.new.certificate }) }
    {
        if value.is_empty() {
            return Err(Misuse::NoFile);
        }
        self.certificate = Some(String::from_str(alloc, value)?);
        Ok(())
    }

    /// Takes what a line says.
    fn take_format(&mut self, alloc: Global, value: &str) -> Result<(), Misuse>
        ensures { OnOk result (self.new ≡ record self.old { format = format_of value.now }) }
    {
        self.format = Some(format_of(alloc, value)?);
        Ok(())
    }

    /// Takes the least time.
    fn take_since(&mut self, option: &'static str, value: &str) -> Result<(), Misuse>
        ensures time { OnOk result (IsSeconds value.now self.new.since) }
        ensures others { OnOk result (self.new ≡ record self.old { since = self.new.since }) }
    {
        self.since = Some(seconds_behind(option, value)?);
        Ok(())
    }

    /// Takes the greatest time.
    fn take_until(&mut self, option: &'static str, value: &str) -> Result<(), Misuse>
        ensures time { OnOk result (IsSeconds value.now self.new.until) }
        ensures others { OnOk result (self.new ≡ record self.old { until = self.new.until }) }
    {
        self.until = Some(seconds_behind(option, value)?);
        Ok(())
    }

    /// An option that goes with lists of commits alone, if there is one.
    pub(crate) fn of_list(&self) -> Option<&'static str> {
        let given = [
            (self.skip.is_some(), "--skip"),
            (self.until.is_some(), "--until"),
            (self.merges, "--merges"),
            (self.no_merges, "--no-merges"),
            (self.counts, "--count"),
            (self.is_reversed, "--reverse"),
            (self.format.is_some(), "--format"),
            (self.gives_time, "--timestamp"),
            (self.gives_parents, "--parents"),
            (self.gives_subject, "--oneline"),
        ];
        for (is_given, option) in given {
            if is_given {
                return Some(option);
            }
        }
        None
    }

    /// The option that says all of what a line has, if there is one.
    pub(crate) fn whole_line(&self) -> Option<&'static str> {
        if self.as_json {
            Some("--json")
        } else if self.format.is_some() {
            Some("--format")
        } else {
            None
        }
    }

    /// An option that doesn't go with one that says all of what a line has, if there is one.
    pub(crate) fn against_whole_line(&self) -> Option<&'static str> {
        let given = [
            (self.as_json && self.format.is_some(), "--format"),
            (self.gives_subject, "--oneline"),
            (self.gives_parents, "--parents"),
            (self.gives_time, "--timestamp"),
            (self.as_json && self.ends_in_zero, "-z"),
        ];
        for (is_given, option) in given {
            if is_given {
                return Some(option);
            }
        }
        None
    }

    /// Has the lines of a command say what their objects have, each up to a byte 0, which no text that a format writes has, and no path.
    pub(crate) fn take_json(&mut self, name: Name)
        ensures { self.new ≡ record self.old { format = self.new.format; ends_in_zero = self.new.ends_in_zero } }
    {
        if name.is_list() && !self.counts {
            self.format = Format::read(JSON_FORMAT.as_bytes());
            self.ends_in_zero = true;
        }
        if name == Name::Files {
            self.ends_in_zero = true;
        }
    }
}

/// The seconds that the value of this option says.
fn seconds_behind(option: &'static str, value: &str) -> Result<i64, Misuse>
    ensures { IfOk result (λ seconds. IsSeconds value.now (Some seconds)) }
{
    match seconds_of(value).map(i64::try_from) {
        Some(Ok(seconds)) => Ok(seconds),
        _ => Err(Misuse::Time(option)),
    }
}

/// Whether an option has a value.
pub(crate) fn takes_value(option: &str) -> bool {
    matches!(
        option,
        "-n" | "--max-count"
            | "--skip"
            | "--since"
            | "--after"
            | "--until"
            | "--before"
            | "--certificate"
            | "--format"
    )
}

/// The number that 1 to 9 decimal digits write.
pub(crate) fn number_in(digits: &[u8]) -> Option<u64>
    ensures { result ≡ number_in 9 digits.now }
{
    if digits.is_empty() || digits.len() > 9 {
        return None;
    }
    number(digits)
}

/// Whether a word is a number below 0 of at most 9 digits.
fn is_negative(word: &[u8]) -> bool
    ensures { result ≡ is_negative word.now }
{
    match word {
        [b'-', digits @ ..] => matches!(number_in(digits), Some(1..)),
        _ => false,
    }
}
