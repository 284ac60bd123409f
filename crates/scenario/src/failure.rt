// Why the story cannot go on.
use crate::wording::Refused;
use refusals::Refusal;
use std::alloc::AllocError;
use std::io;
use thiserror::Error;

#[derive(Debug, Drop, Error)]
pub enum Failure {
    // a tag could not be made, or the reader refused a command or a reply
    #[error("{why}", why = Refused(*.0))]
    Refused(#[from] Refusal),
    // want of memory
    #[error(transparent)]
    Memory(#[from] AllocError),
    // a line could not be written
    #[error("cannot write: {0}")]
    Output(#[from] io::Error),
}
