// Type B frames: check bytes, soundness, and what a tag can hear in a frame.
#![tactic(auto)]

pub mod crc;
pub mod frames;
pub mod message;
pub mod reading;
pub mod received;
mod table;
