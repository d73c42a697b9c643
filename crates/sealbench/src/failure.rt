// Why a command could not do its work.
use fault::Fault;
use std::alloc::AllocError;
use std::io;
use thiserror::Error;

#[derive(Debug, Drop, Error)]
pub enum Failure {
    // The library refused.
    #[error("refused {0}")]
    Refused(#[from] Fault),
    // A file could not be read, or a line not be written.
    #[error("{0}")]
    File(#[from] io::Error),
    #[error("there is not enough memory")]
    Memory(#[from(alloc)] AllocError),
    // What is wrong was printed already.
    #[error("see above")]
    Told,
    // The words of the command line do not fit together.
    #[error("{0}; 'sealbench help' lists commands and options")]
    Usage(&'static str),
}
