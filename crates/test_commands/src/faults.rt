//! The texts of all faults.
use gix_commands::Fault;
use gix_graph_file::{ChainError, Error};
use gix_parts::hash::ObjectId;
use std::test::Fail;

#[test]
fn prints_its_text(rt: HostRuntime) -> Result<(), Fail> {
    let id = ObjectId::Sha1([0x11; 20]);
    for (fault, text) in [
        (Fault::Usage, "usage"),
        (Fault::Id(2), "bad id in word 2"),
        (Fault::Record(1), "bad record 1"),
        (
            Fault::Missing(id),
            "missing 1111111111111111111111111111111111111111",
        ),
        (
            Fault::WrongKind(id),
            "wrong kind 1111111111111111111111111111111111111111",
        ),
        (Fault::Broken, "broken object"),
        (
            Fault::Cycle(id),
            "cycle 1111111111111111111111111111111111111111",
        ),
        (
            Fault::Name(id),
            "bad name in tree 1111111111111111111111111111111111111111",
        ),
        (
            Fault::Entries(18446744073709551615),
            "too many entries: 18446744073709551615",
        ),
        (
            Fault::Graph(ChainError::Layer(1, Error::Base)),
            "bad commit-graph: layer 1: the chunk BASE isn't the hashes of the layers below",
        ),
        (
            Fault::Row(id),
            "bad row 1111111111111111111111111111111111111111 in the commit-graph",
        ),
        (
            Fault::Disagrees(id),
            "commit-graph disagrees with 1111111111111111111111111111111111111111",
        ),
        (Fault::Memory, "out of memory"),
        (Fault::Read, "read failed"),
        (Fault::Write, "write failed"),
        (Fault::Internal, "internal fault"),
    ] {
        let printed = fault.to_string(rt.alloc())?;
        assert_eq!(rt; printed.as_str(), text);
    }
    Ok(())
}
