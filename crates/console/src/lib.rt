// What the programs share: the words of a command line, what is read and printed, and how a program stops.
#![tactic(auto)]

pub mod arguments;
pub mod streams;
pub mod words;
