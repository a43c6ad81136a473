// Why the playing stops before the text ends.

use std::alloc::{AllocError, AllocFailed};
use std::{fmt, io};

// Written by hand, since no derive converts `AllocFailed` of every type.
#[derive(Drop)]
pub enum Stop {
    Input(io::Error),
    NoMemory,
    // a line of the text, counted from 1, and what was expected there
    Text(u64, &'static str),
}

impl fmt::Display for Stop {
    fn fmt<W: fmt::Write>(&self, f: &mut fmt::Formatter<W>) -> fmt::Result {
        match self {
            Stop::Input(error) => write!(f, "{error}"),
            Stop::NoMemory => write!(f, "no memory"),
            Stop::Text(line, expected) => write!(f, "line {line}: expected {expected}"),
        }
    }
}

impl From<io::Error> for Stop {
    fn from(error: io::Error) -> Stop {
        Stop::Input(error)
    }
}

impl From<AllocError> for Stop {
    fn from(_error: AllocError) -> Stop {
        Stop::NoMemory
    }
}

impl<T: Drop> From<AllocFailed<T>> for Stop {
    fn from(_refused: AllocFailed<T>) -> Stop {
        Stop::NoMemory
    }
}
