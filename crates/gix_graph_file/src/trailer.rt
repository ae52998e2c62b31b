//! The hash at the end of a commit-graph file.
ghost use Rattle.std.specs.Prelude.{◌≡◌, ◌-◌, length, take, drop};
ghost use Rattle.gix_graph_file.specs.Trailer.{has_its_hash};

use sha1::Sha1;
use sha2::{Digest, Sha256};

/// Whether a commit-graph file, or a layer of a chain, ends with the hash of all its other bytes: with SHA-1 or SHA-256, as its head
/// says. Of a file whose head says neither, it is false.
///
/// Git writes the hash and looks at it only in `git commit-graph verify`. [`graph_of`](crate::graph_of) and
/// [`graph_of_chain`](crate::graph_of_chain) don't look at it: call this where a changed byte must not go unseen. It reads the whole file once.
#[tactic(auto, unfolding(crate::specs::Trailer::has_its_hash))]
pub fn has_its_hash(file: &[u8]) -> bool
    ensures { result ≡ has_its_hash file.now }
{
    if file.len() < 8 {
        return false;
    }
    match file[5] {
        1 => {
            let (body, hash) = split_hash(file, 20);
            hash == Sha1::digest(body).as_slice()
        }
        2 => {
            let (body, hash) = split_hash(file, 32);
            hash == Sha256::digest(body).as_slice()
        }
        _ => false,
    }
}

/// What is before the last `size` bytes, and these.
fn split_hash(file: &[u8], size: usize) -> (&[u8], &[u8])
    ensures body { result.0.now ≡ take (length file.now - size) file.now }
    ensures hash { result.1.now ≡ drop (length file.now - size) file.now }
{
    file.split_at(file.len().saturating_sub(size))
}
