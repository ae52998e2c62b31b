//! The list that options ask for.
ghost use Rattle.std.specs.Prelude.{◌≡◌, ◌==◌, ◌∷◌, ◌++◌, codes, IfSome, is_some};
ghost use Rattle.gix_options.specs.OptionWords.{GoTogether, GoWith, field_options, form_options, is_list, merges_options, option_words, order_options, since_options};
ghost use Rattle.gix_statement.specs.WholeStatement.{says_more};
ghost use Rattle.gix_words.specs.Formats.{format_bytes};
ghost use Rattle.gix_words.specs.Printed.{form_words, line_words, merges_words, order_words, shown_words, time_name, where_given};

use crate::{Name, Options};
use gix_revwalk::{CommitTimeOrder, Parents};
use gix_simple::Sorting;
use gix_words::{EntryLines, Form, Format, Line, Merges, Order, Shown};

impl Options {
    /// The order of a list of this name, through the parents that are followed. None if the name is of no list. The first parents of one tip
    /// are in one row, so `newest` lists them as `breadth` does.
    pub fn order(&self, name: Name) -> Option<Order>
        ensures list { is_some result ≡ is_list name }
        // In the words of the page: the name, and the options that an order may have.
        ensures words { GoWith name self.now → IfSome result (λ order. order_words order ≡ order_options name self.now) }
    {
        let parents = if self.by_first_parents {
            Parents::First
        } else {
            Parents::All
        };
        match name {
            Name::Breadth => Some(Order::Simple {
                parents,
                sorting: Sorting::BreadthFirst,
            }),
            Name::Newest if self.by_first_parents => Some(Order::Simple {
                parents,
                sorting: Sorting::BreadthFirst,
            }),
            Name::Newest => Some(self.by_time(CommitTimeOrder::NewestFirst)),
            Name::Oldest => Some(self.by_time(CommitTimeOrder::OldestFirst)),
            Name::Topo => Some(Order::Topo {
                parents,
                sorting: gix_topo::Sorting::TopoOrder,
            }),
            Name::Date => Some(Order::Topo {
                parents,
                sorting: gix_topo::Sorting::DateOrder,
            }),
            _ => None,
        }
    }

    /// An order by time, of what isn't older than is asked for.
    fn by_time(&self, order: CommitTimeOrder) -> Order
        ensures { order_words result ≡ time_name order ∷ since_options self.now.since }
    {
        let sorting = match self.since {
            Some(seconds) => Sorting::ByCommitTimeCutoff { order, seconds },
            None => Sorting::ByCommitTime(order),
        };
        Order::Simple {
            parents: Parents::All,
            sorting,
        }
    }

    /// What is written of a list of commits.
    pub fn shown(&self) -> Shown
        // In the words of the page: each option that is given, in its place.
        ensures { GoTogether self.now → shown_words result ≡ option_words self.now }
    {
        Shown {
            until: self.until,
            merges: self.merges(),
            skip: self.skip.unwrap_or(0),
            limit: self.limit,
            form: self.form(),
            line: self.line(),
        }
    }

    /// Which commits, by their parents.
    fn merges(&self) -> Merges
        ensures { GoTogether self.now → merges_words result ≡ merges_options self.now }
    {
        if self.merges {
            Merges::Only
        } else if self.no_merges {
            Merges::No
        } else {
            Merges::Any
        }
    }

    /// How a list is written.
    fn form(&self) -> Form
        ensures { GoTogether self.now → form_words result ≡ form_options self.now }
    {
        if self.counts {
            Form::Count
        } else if self.is_reversed {
            Form::Reverse
        } else {
            Form::Lines
        }
    }

    /// What a line of a commit has. A format says all of it.
    fn line(&self) -> Line
        ensures { line_words result ≡ field_options self.now ++ where_given self.now.ends_in_zero (codes "-z") }
    {
        let ending = self.ending();
        match self.format {
            Some(format) => Line {
                id: false,
                time: false,
                parents: false,
                format,
                ending,
            },
            None => Line {
                id: true,
                time: self.gives_time,
                parents: self.gives_parents,
                format: self.subject(),
                ending,
            },
        }
    }

    /// What is said behind a line's ids.
    fn subject(&self) -> Format
        ensures { says_more (format_bytes result) ≡ self.now.gives_subject }
    {
        if self.gives_subject {
            Format::subject()
        } else {
            Format::none()
        }
    }

    /// What is written of the entries of a tree.
    pub fn entry_lines(&self) -> EntryLines
        ensures limit { result.limit ≡ self.now.limit }
        ensures ending { (result.ending == 0) ≡ self.now.ends_in_zero }
    {
        EntryLines {
            limit: self.limit,
            ending: self.ending(),
        }
    }

    /// The byte at the end of a line.
    fn ending(&self) -> u8
        ensures { (result == 0) ≡ self.now.ends_in_zero }
    {
        if self.ends_in_zero { 0 } else { b'\n' }
    }
}
