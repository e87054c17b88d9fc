// Why a line is not obeyed.
use std::alloc::AllocError;
use std::io;
use thiserror::Error;

#[derive(Debug, Drop, Error)]
pub enum Complaint {
    #[error("the line is no text")]
    NotText,
    #[error("no such command: help lists them")]
    NoCommand,
    // The form of the command, whose words are missing or too many.
    #[error("the form is: {0}")]
    Form(&'static str),
    #[error("a number has decimal digits, or hexadecimal digits after 0x")]
    NoNumber,
    // The largest that is allowed.
    #[error("a number is above {0}")]
    TooLarge(u32),
    #[error("the bytes of an image have two hexadecimal digits each")]
    NoBytes,
    #[error("the board is described before the first call or question")]
    LateBoard,
    #[error("the file cannot be read: {0}")]
    File(#[from] io::Error),
    #[error("no memory is left for this line")]
    NoMemory(#[from(alloc)] AllocError),
}
