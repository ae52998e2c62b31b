//! The status of an answer.
ghost use Rattle.std.specs.Prelude.{◌≡◌, ◌==◌, count_by};
ghost use Rattle.gix_questions.specs.Status.{status_of};

use gix_options::Name;

/// The status of the question: not all, or none, of what was asked about was found.
const NOT_FOUND: u8 = 3;

/// The status of an answer of these lines to a question about so many ids without `^`: 3 where `contains` found that some of them aren't
/// contained, `containing` that none reaches the first, or `is-ancestor` that the first isn't reached.
pub fn status(name: Name, ids: usize, lines: &[u8]) -> u8
    ensures { result ≡ status_of name ids (count_by (λ byte. byte == 10) lines.now) }
{
    let count = count_lines(lines);
    let is_found = match name {
        Name::Contains => count >= ids.saturating_sub(1),
        Name::Containing | Name::IsAncestor => count > 0,
        _ => true,
    };
    if is_found { 0 } else { NOT_FOUND }
}

/// How many lines these are.
fn count_lines(lines: &[u8]) -> usize
    ensures { result ≡ count_by (λ byte. byte == 10) lines.now }
{
    let mut count = 0;
    for byte in lines {
        if *byte == b'\n' {
            count += 1;
        }
    }
    count
}
