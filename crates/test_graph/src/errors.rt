//! The text of each error.
use gix_commitgraph::GraphError;
use gix_graph_check::Disagreement;
use gix_graph_file::{ChainError, Chunk, Error};
use gix_hash::ObjectId;
use std::alloc::Global;
use std::fmt::Display;
use std::test::Fail;

const ID: ObjectId = ObjectId::Sha256([0x1a; 32]);

fn check_texts<E: Display>(alloc: Global, texts: &[(E, &str)]) -> Result<(), Fail> {
    for (error, text) in texts {
        let printed = format!(in alloc; "{error}")?;
        if printed.as_str() != *text {
            return Err(Fail::new(format_args!("{printed}, not {text}")));
        }
    }
    Ok(())
}

const OF_FILES: [(Error, &str); 19] = [
    (Error::Header, "fewer than 8 bytes"),
    (Error::Signature, "no signature CGPH"),
    (Error::Version, "the version isn't 1"),
    (Error::HashVersion, "the hash is neither SHA-1 nor SHA-256"),
    (Error::Layer, "the file has another number of lower layers"),
    (Error::Truncated, "the table of chunks doesn't fit"),
    (Error::Table, "the table of chunks is damaged"),
    (Error::Missing(Chunk::FanOut), "no chunk OIDF"),
    (Error::Missing(Chunk::Ids), "no chunk OIDL"),
    (Error::Missing(Chunk::Data), "no chunk CDAT"),
    (Error::Missing(Chunk::Base), "no chunk BASE"),
    (
        Error::Size(Chunk::Edges),
        "the chunk EDGE has the wrong size",
    ),
    (Error::TooMany, "too many commits or parents"),
    (
        Error::Kind,
        "the ids are of another kind than those of the layers below",
    ),
    (
        Error::Base,
        "the chunk BASE isn't the hashes of the layers below",
    ),
    (
        Error::Order(7),
        "the id of row 7 isn't above the one before",
    ),
    (Error::Parents(8), "the parents of row 8 are damaged"),
    (Error::Edges, "words are left in EDGE"),
    (Error::Memory, "out of memory"),
];

const OF_CHAINS: [(ChainError, &str); 3] = [
    (
        ChainError::Layer(2, Error::Signature),
        "layer 2: no signature CGPH",
    ),
    (
        ChainError::Rows(GraphError::DuplicateId),
        "the layers together: two rows of a commit-graph have one id",
    ),
    (ChainError::Memory, "out of memory"),
];

const OF_CHECKS: [(Disagreement, &str); 3] = [
    (
        Disagreement::Row(ID),
        "the row of 1a1a1a1a1a1a1a1a1a1a1a1a1a1a1a1a1a1a1a1a1a1a1a1a1a1a1a1a1a1a1a1a doesn't agree with the store",
    ),
    (
        Disagreement::Store(ID),
        "the store could not be read at 1a1a1a1a1a1a1a1a1a1a1a1a1a1a1a1a1a1a1a1a1a1a1a1a1a1a1a1a1a1a1a1a",
    ),
    (Disagreement::Memory, "out of memory"),
];

#[test]
fn have_texts(rt: HostRuntime) -> Result<(), Fail> {
    check_texts(rt.alloc(), &OF_FILES)?;
    check_texts(rt.alloc(), &OF_CHAINS)?;
    check_texts(rt.alloc(), &OF_CHECKS)
}
