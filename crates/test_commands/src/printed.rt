//! Commands that are printed are the words that were read.
use gix_words::read_command;
use std::alloc::Global;
use std::test::Fail;

/// Words of commands, each with its options in their order. `A` and `B` stand for ids.
const COMMANDS: &[&str] = &[
    "breadth A",
    "breadth --first-parent -n 0 A B",
    "newest --since 5 --until 9 --no-merges --skip 2 -n 3 --reverse --timestamp --parents --oneline -z A ^B",
    "oldest --since 0 --merges --count A",
    "topo --until 9999999999 --format %h%n -z A ^A ^B",
    "date --first-parent -n 999999999 A",
    "files A",
    "files -n 7 -z B",
    "ahead A B",
    "contains A B B",
    "containing B A",
    "merge-base A B A",
];

#[test]
fn commands_are_printed_as_they_are_read(rt: HostRuntime) -> Result<(), Fail> {
    let alloc = rt.alloc();
    for command in COMMANDS {
        let words = words_of(alloc, command)?;
        let printed = read_command(alloc, words.as_slice())?.words(alloc)?;
        if printed != words {
            return Err(Fail::new(format_args!("{command} is printed as {printed:?}")));
        }
    }
    Ok(())
}

/// The words of a text, with ids in place of `A` and `B`.
fn words_of(alloc: Global, text: &str) -> Result<Vec<String>, Fail> {
    let mut words = Vec::new(alloc);
    for word in text.split(' ') {
        let mut long = String::new(alloc);
        for letter in word.chars() {
            match letter {
                'A' => long.push_str("d2a521c9b86619f5102ab7eb50afe40d1a82a3c9")?,
                'B' => long.push_str("823a8a296fc96cbdaba5c22bfe4b19f0de84017e")?,
                other => long.push(other)?,
            }
        }
        words.push(long)?;
    }
    Ok(words)
}
