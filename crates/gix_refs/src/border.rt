//! The border of a shallow clone.
use crate::fault::RefFault;
use gix_hash::{Kind, ObjectId};
use std::alloc::Global;

/// The ids that the lines of a file `shallow` begin with: those of the commits whose parents a shallow clone doesn't have.
///
/// # Errors
///
/// `Border` with the first line that doesn't begin with an id of this kind. `Memory`.
pub fn shallow_ids(alloc: Global, kind: Kind, text: &[u8]) -> Result<Vec<ObjectId>, RefFault> {
    let mut ids = Vec::new(alloc);
    let text = match text {
        [front @ .., b'\n'] => front,
        _ => text,
    };
    if text.is_empty() {
        return Ok(ids);
    }
    let mut number = 0u64;
    for line in text.split(|byte| *byte == b'\n') {
        number = number.saturating_add(1);
        let digits = line.get(..kind.len_in_hex()).unwrap_or_default();
        match ObjectId::from_digits(digits, kind) {
            Some(id) => ids.push(id)?,
            None => return Err(RefFault::Border(number)),
        }
    }
    Ok(ids)
}
