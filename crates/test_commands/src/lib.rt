//! Tests of the program's commands.
#![tactic(auto)]

#[cfg(test)]
mod faults;
#[cfg(test)]
mod printed;
#[cfg(test)]
mod runs;
