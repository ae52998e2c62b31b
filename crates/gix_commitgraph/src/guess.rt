//! Where a search among rows looks next.
ghost use Rattle.std.specs.Prelude.{◌≡◌, ◌*◌, ◌/◌, ◌^◌, ◌<◌, ◌≤◌};
ghost use Rattle.std.specs.Int.{abs_diff};

/// How many probes of a search are guesses. Ids that are spread as those of a hash need about half of them.
pub(super) const GUESSES: u32 = 8;

/// How many rows, of so many, are between two ids that begin with these numbers, where the ids of rows are spread evenly.
pub(super) fn rows_between(a: u32, b: u32, rows: u32) -> u32
    ensures { result ≡ abs_diff a b * rows / 2 ^ 32 }
{
    ((u64::from(a.abs_diff(b)) * u64::from(rows)) >> 32) as u32
}

/// The next row to look at, of those from `low` on and before `high`: the guess or the nearest of them, where guesses are left, and
/// else the middle.
pub(super) fn probe(guesses: u32, guess: u32, low: u32, high: u32) -> u32
    requires { low < high }
    ensures from { low ≤ result }
    ensures before { result < high }
{
    if guesses > 0 {
        guess.clamp(low, high - 1)
    } else {
        low + (high - low) / 2
    }
}
