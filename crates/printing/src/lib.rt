// Text in a buffer of its own, reading into a lent buffer and writing what one holds, for the programs.
#![tactic(auto)]

pub mod argument;
pub mod input;
pub mod output;
pub mod text;

use std::io::{Error, ErrorKind};

// How often in a row a call that a signal interrupts is made again. There is an end to it, since every function is proved to return.
const AGAIN: usize = 1000;

// Whether a signal has interrupted the call that has just failed with this.
fn interrupted(error: &Error) -> bool {
    error.kind() == ErrorKind::Interrupted
}
