//! The help, and which program this is.
use gix_options::{
    COMMANDS, Command, Explained, Name, OPTIONS, REVISIONS, STATUS, USAGE, VERSION, WHAT, help_of,
};
use std::{env, fs, io};

/// The letters of a command's name that has what it writes on its own line.
const WIDTH: usize = 11;
/// The letters of an option that has what it does on its own line.
const OPTION_WIDTH: usize = 12;

/// Writes the help of a command, or all of it.
pub(crate) fn write_help(rt: &HostRuntime, name: Option<Name>) -> io::Result<()> {
    if let Some(command) = name.and_then(help_of) {
        return write_alone(rt, command);
    }
    println!(rt; "{WHAT}\n")?;
    for line in USAGE {
        println!(rt; "{line}")?;
    }
    println!(rt; "")?;
    for command in COMMANDS {
        write_command(rt, command)?;
    }
    println!(rt; "\n{REVISIONS}")?;
    for option in OPTIONS {
        write_option(rt, option)?;
    }
    print!(rt; "\n{STATUS}")
}

/// Writes the help of a command, with its options.
fn write_alone(rt: &HostRuntime, command: &Command) -> io::Result<()> {
    write_command(rt, command)?;
    for example in command.examples.get(1..).unwrap_or_default() {
        println!(rt; "              gix_walk -C . {example}")?;
    }
    println!(rt; "")?;
    for option in OPTIONS {
        if option.takers.have(command.name) {
            write_option(rt, option)?;
        }
    }
    let when = command.status;
    println!(rt;
        "\nThe status is 1 after a fault, 2 where the words are no such command{when}, and else 0."
    )
}

/// Writes what the help says of a command.
fn write_command(rt: &HostRuntime, command: &Command) -> io::Result<()> {
    let word = command.name.word();
    let mut front = word;
    if word.len() > WIDTH {
        println!(rt; "  {word}")?;
        front = "";
    }
    for line in command.what {
        println!(rt; "  {front:<11} {line}")?;
        front = "";
    }
    let example = command.examples.first().copied().unwrap_or_default();
    println!(rt; "              gix_walk -C . {example}")
}

/// Writes what the help says of an option.
fn write_option(rt: &HostRuntime, option: &Explained) -> io::Result<()> {
    let mut front = option.words;
    if front.len() > OPTION_WIDTH {
        println!(rt; "  {front}")?;
        front = "";
    }
    for line in option.what {
        println!(rt; "  {front:<12} {line}")?;
        front = "";
    }
    Ok(())
}

/// The line of the file that is called like the program, with `.version` behind: of which commit the program is, and what proved it.
pub(crate) fn about(rt: &HostRuntime) -> io::Result<String> {
    env::current_exe(rt).and_then(|path| {
        let mut name = String::from_str(rt.alloc(), path.as_path().to_str().unwrap_or_default())?;
        name.push_str(".version")?;
        fs::read_to_string(rt, name.as_str())
    })
}

/// Writes which program this is. What built it has left a file with it that says of which commit it is, and what proved it.
pub(crate) fn write_version(rt: &HostRuntime) -> io::Result<()> {
    println!(rt; "gix_walk {VERSION} of Kestrelrack, a port of gix-traverse 0.61.0")?;
    match about(rt) {
        Ok(text) => print!(rt; "{text}"),
        Err(_) => println!(rt; "of no known commit; nothing says that it was proved"),
    }
}

/// Says on standard error how the program is called.
pub(crate) fn write_usage(rt: &HostRuntime) {
    for line in USAGE {
        let _ = eprintln!(rt; "{line}");
    }
    let _ = eprint!(rt; "commands:");
    for command in COMMANDS {
        let word = command.name.word();
        let _ = eprint!(rt; " {word}");
    }
    let _ = eprintln!(rt; "; gix_walk --help says what each writes");
}
