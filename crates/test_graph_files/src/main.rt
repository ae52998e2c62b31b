//! Reads commit-graph files from standard input, and writes for each its rows or its first fault, and then a line `end`.
//! `tests/graph-files` runs it over files of git, whole and damaged.
//!
//! A number in four bytes comes first: 0 before a file that is alone, and otherwise one more than a chain has layers. The length of each file
//! comes before it, in four bytes. A row is a line: the id, the tree's id, the generation, the committer's seconds, and for each parent
//! its position, or `x` if it is no row. A fault is its name, with its chunk or its row. In a chain the layer's number comes before it.
#![tactic(auto)]

use anyhow::Result;
use gix_commitgraph::{Graph, Position};
use gix_graph_file::{ChainError, Error, graph_of, graph_of_chain};
use std::alloc::Global;
use std::io::{BufWriter, Read, Write};

fn write_rows<W: Write>(out: &mut W, graph: &Graph) -> Result<()> {
    for position in 0..graph.num_commits() {
        let commit = graph.commit_at(Position(position));
        write!(
            out,
            "{} {} {} {}",
            commit.id(),
            commit.root_tree_id(),
            commit.generation(),
            commit.committer_timestamp()
        )?;
        for place in commit.iter_parents() {
            match place {
                Ok(parent) => write!(out, " {}", parent.0)?,
                Err(_) => write!(out, " x")?,
            }
        }
        writeln!(out, "")?;
    }
    Ok(())
}

fn write_fault<W: Write>(out: &mut W, error: Error) -> Result<()> {
    match error {
        Error::Missing(chunk) => writeln!(out, "Missing {chunk}")?,
        Error::Size(chunk) => writeln!(out, "Size {chunk}")?,
        Error::Order(row) => writeln!(out, "Order {row}")?,
        Error::Parents(row) => writeln!(out, "Parents {row}")?,
        error => writeln!(out, "{error:?}")?,
    }
    Ok(())
}

fn write_chain_fault<W: Write>(out: &mut W, error: ChainError) -> Result<()> {
    match error {
        ChainError::Layer(number, error) => {
            write!(out, "Layer {number} ")?;
            write_fault(out, error)
        }
        ChainError::Rows(error) => Ok(writeln!(out, "Rows {error:?}")?),
        ChainError::Memory => Ok(writeln!(out, "Memory")?),
    }
}

/// Takes a number of four bytes from the front.
fn take_number(left: &mut &[u8]) -> Option<usize> {
    match *left {
        [a, b, c, d, rest @ ..] => {
            *left = rest;
            Some(u32::from_be_bytes([*a, *b, *c, *d]) as usize)
        }
        _ => None,
    }
}

/// Takes a file from the front, whose length comes before it.
fn take_file<'a>(left: &mut &'a [u8]) -> Option<&'a [u8]> {
    let len = take_number(left)?;
    let (file, behind) = left.split_at_checked(len)?;
    *left = behind;
    Some(file)
}

fn take_layers<'a>(alloc: Global, left: &mut &'a [u8], count: usize) -> Result<Vec<&'a [u8]>> {
    let mut layers = Vec::new(alloc);
    for _ in 0..count {
        if let Some(file) = take_file(left) {
            layers.push(file)?;
        }
    }
    Ok(layers)
}

fn main(rt: HostRuntime) -> Result<()> {
    let mut input = Vec::new(rt.alloc());
    rt.stdin().read_to_end(&mut input)?;
    let mut out = BufWriter::new(rt.alloc(), rt.stdout())?;
    let mut left = input.as_slice();
    for _ in 0..u64::MAX {
        let Some(number) = take_number(&mut left) else {
            break;
        };
        if number == 0 {
            let file = take_file(&mut left).unwrap_or_default();
            match graph_of(rt.alloc(), file) {
                Ok(graph) => write_rows(&mut out, &graph)?,
                Err(error) => write_fault(&mut out, error)?,
            }
        } else {
            let layers = take_layers(rt.alloc(), &mut left, number.saturating_sub(1))?;
            match graph_of_chain(rt.alloc(), layers.as_slice()) {
                Ok(graph) => write_rows(&mut out, &graph)?,
                Err(error) => write_chain_fault(&mut out, error)?,
            }
        }
        writeln!(out, "end")?;
    }
    out.flush()?;
    Ok(())
}
