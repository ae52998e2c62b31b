//! The list that a command asks for.
ghost use Rattle.std.specs.Prelude.{◌≡◌, ◌≢◌, IfOk, IfErr, MatchBool};
ghost use Rattle.gix_words.specs.Words.{Commits, request_of_command};
ghost use Rattle.gix_batches.specs.Failing.{HasNoList, all_lines_to};

use gix_commands::commits::Ends;
use gix_words::{Command, Fault, Form, Merges, Order, Shown};
use std::alloc::Global;

/// A list command, of which all lines are asked for, up to a limit.
#[derive(Drop)]
pub struct Listing {
    pub(crate) order: Order,
    pub(crate) limit: Option<u64>,
    pub(crate) ends: Ends,
}

impl Listing {
    /// The list that a command asks for.
    ///
    /// # Errors
    /// `Usage` where it asks for something else, or for some lines only, and `Memory`.
    pub(crate) fn of(alloc: Global, command: &Command) -> Result<Listing, Fault>
        ensures ok { IfOk result (λ listing. request_of_command command.now
            ≡ Commits listing.order (all_lines_to listing.limit) listing.ends.tips.items listing.ends.hidden.items) }
        ensures err { IfErr result (HasNoList (request_of_command command.now)) }
    {
        let Command::Commits {
            order,
            shown,
            tips,
            hidden,
        } = command
        else {
            return Err(Fault::Usage);
        };
        if !are_all_lines(*shown) {
            return Err(Fault::Usage);
        }
        let ends = Ends::of(alloc, tips.as_slice(), hidden.as_slice())?;
        Ok(Listing {
            order: *order,
            limit: shown.limit,
            ends,
        })
    }
}

/// Whether all lines of a list are asked for, up to a limit.
pub fn are_all_lines(shown: Shown) -> bool
    ensures { MatchBool result (shown ≡ all_lines_to shown.limit) (shown ≢ all_lines_to shown.limit) }
{
    shown.until.is_none()
        && matches!(shown.merges, Merges::Any)
        && shown.skip == 0
        && matches!(shown.form, Form::Lines)
        && shown.line.id
        && !shown.line.time
        && !shown.line.parents
        && shown.line.format.is_none()
        && shown.line.ending == b'\n'
}
