//! Lists the commits that revisions of a Git repository reach, or the files of one revision: from the repository itself, from a stream of
//! a repository's objects, or from their folder.
#![tactic(auto)]

mod answer;
mod certificate;
mod failure;
mod graph;
mod help;
mod lines;
mod named;
mod paged;
mod progress;
mod records;

use failure::Failure;
use gix_commands::Fault;
use gix_hash::Keys;
use gix_options::{Asks, Misuse, read_arguments, words_of};
use gix_output::Output;
use std::alloc::AllocError;
use std::env::{Env, FillError};
use std::io::{self, IsTerminal};
use std::process::ExitCode;

/// The status of a run over a repository whose words ask nothing.
const MISUSED: u8 = 2;

fn main(rt: HostRuntime) -> ExitCode {
    let stdout = rt.stdout();
    let is_terminal = stdout.is_terminal();
    let mut output = Output::new(rt.alloc(), stdout, is_terminal);
    match run(&rt, &mut output) {
        Ok(status) => ExitCode::from(status),
        Err(failure) => {
            if !output.is_closed {
                let _ = eprintln!(rt; "gix_walk: {failure}");
            }
            match &failure {
                Failure::Misuse(_) => {
                    help::write_usage(&rt);
                    return ExitCode::from(MISUSED);
                }
                // Who reads it is helped by a second line, and a program that reads it by none.
                Failure::Command(Fault::Usage | Fault::Id(_)) => {
                    if rt.stderr().is_terminal() {
                        let _ = eprintln!(rt;
                            "gix_walk: without -C FOLDER the words are a command and ids, and records are read; git walk, or gix_walk -C ., takes revisions of the repository here"
                        );
                    }
                }
                _ => {}
            }
            ExitCode::FAILURE
        }
    }
}

/// Does what the arguments ask, and gives the status.
fn run<W: io::Write + Drop>(rt: &HostRuntime, output: &mut Output<W>) -> Result<u8, Failure> {
    let arguments = read_all(rt)?;
    let words = match words_of(rt.alloc(), arguments.as_slice()) {
        Ok(words) => words,
        Err(misuse) => return Err(fault_of_arguments(arguments.as_slice(), misuse)),
    };
    match read_arguments(rt.alloc(), words.as_slice())? {
        Asks::Records => records::serve(rt, random_keys(rt)?, words.as_slice(), output)?,
        Asks::Help(name) => help::write_help(rt, name).map_err(fault_of_output)?,
        Asks::Version => help::write_version(rt).map_err(fault_of_output)?,
        Asks::Question(question) => {
            let keys = random_keys(rt)?;
            return certificate::serve(rt, keys, words.as_slice(), &question, output);
        }
    }
    Ok(0)
}

/// The keys of all tables of ids of this run. Nobody can choose ids for them beforehand.
fn random_keys(rt: &HostRuntime) -> Result<Keys, Failure> {
    match Keys::random(rt) {
        Ok(keys) => Ok(keys),
        Err(error) => Err(Failure::Random(error)),
    }
}

/// The arguments behind the program's name, which may hold any bytes.
fn read_all(rt: &HostRuntime) -> Result<Vec<Vec<u8>>, AllocError> {
    let mut arguments = Vec::new(rt.alloc());
    for place in 1..usize::MAX {
        match read_argument(rt, place)? {
            Some(argument) => arguments.push(argument)?,
            None => break,
        }
    }
    Ok(arguments)
}

/// The argument at a place, and None behind the last. The room for it grows until it is enough.
fn read_argument(rt: &HostRuntime, place: usize) -> Result<Option<Vec<u8>>, AllocError> {
    let mut size = 256usize;
    for _ in 0..usize::BITS {
        let mut argument = vec![in rt.alloc(); 0u8; size]?;
        match rt.arg(place, argument.as_mut_slice()) {
            Ok(len) => {
                argument.truncate(len);
                return Ok(Some(argument));
            }
            Err(FillError::NotPresent) => return Ok(None),
            Err(FillError::TooLong) => size = size.saturating_mul(2),
        }
    }
    Err(AllocError)
}

/// Arguments that aren't words are no command.
fn fault_of_arguments(arguments: &[Vec<u8>], misuse: Misuse) -> Failure {
    let asks_of_repository = match arguments.first() {
        Some(first) => {
            first.as_slice() == b"-C".as_slice() || first.as_slice() == b"--git-dir".as_slice()
        }
        None => false,
    };
    if matches!(&misuse, Misuse::Arguments(_)) && !asks_of_repository {
        return Failure::Command(Fault::Usage);
    }
    Failure::from(misuse)
}

/// The help can't be written.
fn fault_of_output(_error: io::Error) -> Failure {
    Failure::Command(Fault::Write)
}
