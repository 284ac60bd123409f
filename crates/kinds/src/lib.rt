// A kind of tag: what it owes, how it hears a frame, what a tag can say and the bytes in which it says it.
#![tactic(auto)]

pub mod hearing;
pub mod kind;
pub mod said;
