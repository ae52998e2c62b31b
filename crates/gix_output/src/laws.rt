//! What holds of all that is written.
ghost use Rattle.gix_output.specs.Json.{EachOnOneLine};
ghost use Rattle.gix_output.specs.Terminal.{QuotesInPieces, QuotesWhatSteers};

/// No JSON of [`json_line`](crate::json_line) holds a newline: each object is on one line.
pub fn json_is_on_one_line()
    ensures { EachOnOneLine }
{}

/// Nothing that [`add_quoted`](crate::add_quoted) adds is a command of a terminal, and what is none is added as it is.
pub fn quotes_what_steers()
    ensures { QuotesWhatSteers }
{}

/// What is written to a [`Quoting`](crate::Quoting) in pieces is quoted as in one piece.
pub fn quotes_in_pieces()
    ensures { QuotesInPieces }
{}
