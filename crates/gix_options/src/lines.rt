//! Words that are to be revisions, and lines of standard input that are.
use crate::Misuse;
use crate::misuse::LineFault;
use crate::words::word_of;
use std::alloc::{AllocError, Global};

/// What is wrong with a word that is to be a revision, whatever the repository has.
pub(crate) fn fault_of(word: &str) -> Option<LineFault> {
    match word.as_bytes() {
        [] | [b'^'] => Some(LineFault::Empty),
        [b'-', ..] => Some(LineFault::Dash),
        [b'^', b'^', ..] => Some(LineFault::TwoHidden),
        [.., b'\r'] => Some(LineFault::CarriageReturn),
        _ => None,
    }
}

/// The misuse of a word with a fault.
pub(crate) fn misuse_of(alloc: Global, word: &str, fault: LineFault) -> Result<Misuse, AllocError> {
    let text = String::from_str(alloc, word)?;
    Ok(match fault {
        LineFault::Empty => Misuse::Empty,
        LineFault::TwoHidden => Misuse::TwoHidden(text),
        LineFault::CarriageReturn => Misuse::CarriageReturn,
        LineFault::Dash => Misuse::Dash(text),
        LineFault::NotText => Misuse::NotText,
    })
}

/// The revisions that the lines of a text are, as words like those of [`words_of`](crate::words_of). The last line need not end in a newline. An empty text has no line.
///
/// # Errors
///
/// The first line that can't be a revision, whatever the repository has, by its number. `Memory`.
pub fn read_lines(alloc: Global, text: &[u8]) -> Result<Vec<String>, Misuse> {
    let mut lines = Vec::new(alloc);
    let mut rest = text;
    for _ in 0..text.len() {
        if rest.is_empty() {
            break;
        }
        let end = rest
            .iter()
            .position(|byte| *byte == b'\n')
            .unwrap_or(rest.len());
        let number = lines.len().saturating_add(1);
        let line = rest.get(..end).unwrap_or_default();
        rest = rest.get(end.saturating_add(1)..).unwrap_or_default();
        let Some(line) = word_of(alloc, line)? else {
            return Err(Misuse::Line(number, LineFault::NotText));
        };
        if let Some(fault) = fault_of(line.as_str()) {
            return Err(Misuse::Line(number, fault));
        }
        lines.push(line)?;
    }
    Ok(lines)
}
