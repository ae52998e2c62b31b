//! Commands over records on standard input, or over a folder of objects.
use crate::failure::Failure;
use gix_commands::{Fault, answer, run, run_in, run_over};
use gix_hash::{Keys, Kind};
use gix_odb::Odb;
use gix_records::{READS, check_names, read_to_end};
use gix_repository_commands::{Part, Silent};
use gix_words::{Command, read_command};
use std::fs;
use std::io::{ErrorKind, IsTerminal, Read, Write};

/// Runs the command that the words are, from standard input, or from the folder of objects that they name.
pub(crate) fn serve<W: Write>(
    rt: &HostRuntime,
    keys: Keys,
    words: &[String],
    writer: &mut W,
) -> Result<(), Failure> {
    match words {
        [option, folder, command @ ..] if option.as_str() == "--objects" => {
            serve_folder(rt, keys, folder.as_str(), command, writer)
        }
        [option, words @ ..] if option.as_str() == "--verify-ids" => {
            serve_named(rt, keys, words, writer)
        }
        words => serve_input(rt, keys, words, writer),
    }
}

/// Runs the command over the objects of a folder.
fn serve_folder<W: Write>(
    rt: &HostRuntime,
    keys: Keys,
    folder: &str,
    words: &[String],
    writer: &mut W,
) -> Result<(), Failure> {
    let alloc = rt.alloc();
    let command = read_command(alloc, words)?;
    let mut odb = Odb::open(rt, folder, kind_of(&command))?;
    let mut part = Part::of_command(alloc, keys, &command, None)?;
    let mut silent = Silent;
    part.read_all(&mut odb, None, &mut silent)?;
    answer(alloc, &command, part.gathering.objects(), None, writer)?;
    Ok(())
}

/// The kind of a command's first id.
fn kind_of(command: &Command) -> Kind {
    match command {
        Command::Files { tree, .. } => tree.kind(),
        Command::Commits { tips, hidden, .. } => match (tips.first(), hidden.first()) {
            (Some(id), _) | (None, Some(id)) => id.kind(),
            (None, None) => Kind::Sha1,
        },
        Command::Ahead { one, .. } | Command::Bases { one, .. } => one.kind(),
        Command::Contained { tip, .. } => tip.kind(),
        Command::Containing { target, .. } => target.kind(),
    }
}

/// Runs the command over the records of standard input, and the layers of a commit-graph that options name.
fn serve_input<W: Write>(
    rt: &HostRuntime,
    keys: Keys,
    words: &[String],
    writer: &mut W,
) -> Result<(), Failure> {
    let mut layers = Vec::new(rt.alloc());
    let words = read_layers(rt, words, &mut layers)?;
    if rt.stdin().is_terminal()
        && rt.stderr().is_terminal()
        && read_command(rt.alloc(), words).is_ok()
    {
        let _ = eprintln!(rt; "gix_walk: records are read from standard input, up to its end");
    }
    run_records(rt, keys, words, layers.as_slice(), &mut rt.stdin(), writer)?;
    Ok(())
}

/// As `serve_input`, but each record is compared with its id before the command begins.
fn serve_named<W: Write>(
    rt: &HostRuntime,
    keys: Keys,
    words: &[String],
    writer: &mut W,
) -> Result<(), Failure> {
    let mut layers = Vec::new(rt.alloc());
    let words = read_layers(rt, words, &mut layers)?;
    let input = read_to_end(rt.alloc(), &mut rt.stdin(), READS)?;
    check_names(input.as_slice())?;
    if layers.is_empty() {
        run_in(rt.alloc(), keys, words, input.as_slice(), writer)?;
    } else {
        run_records(
            rt,
            keys,
            words,
            layers.as_slice(),
            &mut input.as_slice(),
            writer,
        )?;
    }
    Ok(())
}

/// Reads the layers of a commit-graph that options before the command name, and lends the words behind the options.
fn read_layers<'a>(
    rt: &HostRuntime,
    words: &'a [String],
    layers: &mut Vec<Vec<u8>>,
) -> Result<&'a [String], Failure> {
    let mut left = words;
    for _ in 0..words.len() {
        let [option, file, rest @ ..] = left else {
            break;
        };
        if option.as_str() != "--commit-graph" {
            break;
        }
        let layer = read_layer(rt, file)?;
        layers.push(layer)?;
        left = rest;
    }
    Ok(left)
}

/// The bytes of a file.
fn read_layer(rt: &HostRuntime, file: &String) -> Result<Vec<u8>, Failure> {
    match fs::read(rt, file.as_str()) {
        Ok(bytes) => Ok(bytes),
        Err(error) => match error.kind() {
            ErrorKind::OutOfMemory => Err(Failure::Command(Fault::Memory)),
            _ => Err(Failure::Unreadable(file.clone()?)),
        },
    }
}

/// Without layers the words are a command over records alone.
fn run_records<R: Read, W: Write>(
    rt: &HostRuntime,
    keys: Keys,
    words: &[String],
    layers: &[Vec<u8>],
    reader: &mut R,
    writer: &mut W,
) -> Result<(), Fault> {
    if layers.is_empty() {
        return run(rt.alloc(), keys, words, reader, writer);
    }
    run_over(rt.alloc(), keys, words, layers, reader, writer)
}
