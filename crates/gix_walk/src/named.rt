//! Which revisions the lines of an answer are of.
use gix_questions::Chosen;
use gix_repository::name_of_text;
use std::alloc::{AllocError, Global};

/// Whether each of the revisions behind the first is one that the lines of `contains` or `containing` are of. The lines are those of some of
/// them, in order and with repeats, so each is that of the next revision of its id.
pub(crate) fn are_listed(
    alloc: Global,
    chosen: &Chosen,
    lines: &[u8],
) -> Result<Vec<bool>, AllocError> {
    let mut listed = Vec::new(alloc);
    let mut left = lines;
    for id in chosen.tips.iter().skip(1) {
        let line = format!(in alloc; "{id}\n")?;
        let behind = left.strip_prefix(line.as_bytes());
        listed.push(behind.is_some())?;
        left = behind.unwrap_or(left);
    }
    Ok(listed)
}

/// The lines of `contains` or `containing`, each with a space behind its id and the bytes of the revision, and without a newline.
pub(crate) fn named(
    alloc: Global,
    chosen: &Chosen,
    lines: &[u8],
) -> Result<Vec<Vec<u8>>, AllocError> {
    let listed = are_listed(alloc, chosen, lines)?;
    let mut named = Vec::new(alloc);
    let behind = chosen.tips.iter().zip(chosen.resolved.iter()).skip(1);
    for ((id, resolved), is_listed) in behind.zip(listed.iter()) {
        if *is_listed {
            let name = name_of_text(alloc, resolved.word.as_str())?;
            let mut line = format!(in alloc; "{id} ")?.into_bytes();
            line.extend_from_slice(name.as_slice())?;
            named.push(line)?;
        }
    }
    Ok(named)
}
