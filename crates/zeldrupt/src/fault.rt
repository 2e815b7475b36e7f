// Why a command has no other answer: a refused call, or an error of the script.
use file::faults::FileFault;
use script::error::ScriptError;
use std::alloc::AllocError;
use std::io;
use thiserror::Error;
use volume::refusal::Refusal;

#[derive(Debug, Drop, Error)]
pub enum Fault {
    #[error(transparent)]
    Call(#[from] Refusal),
    #[error(transparent)]
    File(#[from] FileFault),
    #[error("error: {0}")]
    Script(#[from] ScriptError),
    #[error("error: nothing is formatted")]
    Unformatted,
    #[error("error: no such kind")]
    Kind,
    // there is no such cell, head, state or record
    #[error("error: no such place")]
    Place,
    // more than the tool makes
    #[error("error: too large")]
    Large,
    #[error("error: out of memory")]
    Memory(#[from(alloc)] AllocError),
    #[error("error: {0}")]
    Files(#[from] io::Error),
}
