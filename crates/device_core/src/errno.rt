//! `Errno`: the errors of requests, by their numbers in Linux.
use thiserror::Error;

/// The error of a request, numbered as the errno that Linux gives. A refused request changes nothing.
#[derive(Clone, Copy, Debug, PartialEq, Eq, Hash, Error)]
pub enum Errno {
    #[error("no object has that number")]
    NoEntry = 2,
    #[error("out of memory")]
    NoMemory = 12,
    #[error("the call takes no such flags")]
    Invalid = 22,
    #[error("the object is of another kind")]
    WrongKind = 25,
    #[error("no number is left")]
    NoNumber = 28,
    #[error("an increment past the greatest value")]
    Overflow = 75,
}
