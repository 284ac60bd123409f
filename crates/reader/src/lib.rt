// The reader's half: every command built, every reply read.
#![tactic(auto)]

pub mod commands;
pub mod judging;
pub mod making;
pub mod replies;
