// The tray: two rows of tags before a reader, and the calls that it takes.
#![tactic(auto)]

pub mod calls;
pub mod frames;
mod hearing;
mod progress;
mod row;
mod sounds;
mod speaking;
pub mod stock;
pub mod tray;
mod walking;
