//! What a command asks of a history: from where, and how far down.
use crate::decided::limit_of;
use gix_hash::ObjectId;
use gix_words::{Command, Order};
use std::slice::from_ref;

/// What one side reaches.
pub(crate) const ONE: u8 = 1;
/// What the other side reaches.
pub(crate) const OTHER: u8 = 2;
/// What a commit reaches that both sides reach.
pub(crate) const STALE: u8 = 4;

/// Which commits are gone through: the search ends once none of these is left.
#[derive(Clone, Copy, PartialEq, Eq)]
pub(crate) enum Until {
    /// Those that the other side doesn't reach.
    Hidden,
    /// Those that not both sides reach.
    Both,
    /// Those that one side reaches, except for what a commit reaches that both sides reach.
    Bases,
    /// Those whose generation isn't below that of each id that is asked about.
    Down,
    /// So many.
    Count,
}

impl Until {
    /// Whether a commit that is reached so is gone through, whatever its generation is.
    pub fn goes_through(self, sides: u8) -> bool {
        match self {
            Until::Hidden => sides & OTHER == 0,
            Until::Both => sides & (ONE | OTHER) != ONE | OTHER,
            Until::Bases => sides & ONE != 0 && sides & STALE == 0,
            Until::Down | Until::Count => false,
        }
    }
}

/// What is asked of a history.
#[derive(Clone, Copy)]
pub(crate) struct Asking<'a> {
    /// The ids to begin with.
    pub one: &'a [ObjectId],
    /// Those of the other side.
    pub other: &'a [ObjectId],
    /// Those that are asked about, if `until` is [`Until::Down`].
    pub about: &'a [ObjectId],
    pub until: Until,
    /// How many rows are gone through, if `until` is [`Until::Count`].
    pub count: u64,
}

impl<'a> Asking<'a> {
    /// What a command asks. None if it lists all that its tips reach, or no commits.
    pub fn of(command: &'a Command) -> Option<Asking<'a>> {
        let nothing = Asking {
            one: &[],
            other: &[],
            about: &[],
            until: Until::Down,
            count: 0,
        };
        Some(match command {
            Command::Commits { tips, hidden, .. } if !hidden.is_empty() => Asking {
                one: tips.as_slice(),
                other: hidden.as_slice(),
                until: Until::Hidden,
                ..nothing
            },
            Command::Commits {
                order: Order::Topo { .. },
                shown,
                tips,
                ..
            } => Asking {
                one: tips.as_slice(),
                until: Until::Count,
                count: limit_of(shown)?,
                ..nothing
            },
            Command::Ahead { one, other } => Asking {
                one: from_ref(one),
                other: from_ref(other),
                until: Until::Both,
                ..nothing
            },
            Command::Contained { tip, ids } => Asking {
                one: from_ref(tip),
                about: ids.as_slice(),
                ..nothing
            },
            Command::Containing { target, tips } => Asking {
                one: tips.as_slice(),
                about: from_ref(target),
                ..nothing
            },
            Command::Bases { one, others } => Asking {
                one: from_ref(one),
                other: others.as_slice(),
                until: Until::Bases,
                ..nothing
            },
            Command::Commits { .. } | Command::Files { .. } => return None,
        })
    }
}
