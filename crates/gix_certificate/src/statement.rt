//! The pages that say what the program promises.
use crate::digest::Digest;
use crate::fault::Fault;
use crate::record::Page;
use std::alloc::Global;

/// The path of each page and the SHA-256 of its file. `tests/certificate` compares them with the files, and says what to write here.
pub const PAGES: &[(&str, &str)] = &[
    (
        "crates/gix_statement/specs/WholeStatement.antt",
        "b18361900affb920eac2b033c1219eb2114247e14a7e6fe1eb1b9e6ab67c1258",
    ),
    (
        "crates/gix_statement/specs/Formats.antt",
        "88b2877f404e6083ca2e4799611a701623b221663a2d7659f4438c5754c9d86e",
    ),
    (
        "crates/gix_statement/specs/CommitGraph.antt",
        "3e873d360d65b69c6b03472ab80fc42e650c37e3c1a2b74e1d3fa7a54de3a78c",
    ),
    (
        "crates/gix_graph_pages/specs/GraphPages.antt",
        "8fe84a7f0fb611c0596a40af3ed69ee98546d58020b20b89deaae1ca40d24176",
    ),
];

/// The pages of this program.
///
/// # Errors
///
/// `Memory`.
pub fn pages(alloc: Global) -> Result<Vec<Page>, Fault> {
    let mut pages = Vec::new(alloc);
    for (name, digits) in PAGES {
        let Some(sha256) = Digest::from_hex(digits) else {
            return Err(Fault::Member("pages"));
        };
        let name = String::from_str(alloc, name)?;
        pages.push(Page { name, sha256 })?;
    }
    Ok(pages)
}
