// What a call to the outside answers when it can't do its work.

use std::error::Error;
use std::fmt;

/// Why a call to files or to a sink did nothing: it failed, which its count of faults then shows, or
/// there was no memory.
#[derive(Clone, Copy, PartialEq, Eq)]
pub enum OutFault {
    Failed,
    OutOfMemory,
}

impl fmt::Display for OutFault {
    fn fmt<W: fmt::Write>(&self, f: &mut fmt::Formatter<W>) -> fmt::Result {
        match self {
            OutFault::Failed => write!(f, "failed"),
            OutFault::OutOfMemory => write!(f, "out of memory"),
        }
    }
}

// As it is displayed.
impl fmt::Debug for OutFault {
    fn fmt<W: fmt::Write>(&self, f: &mut fmt::Formatter<W>) -> fmt::Result {
        fmt::Display::fmt(self, f)
    }
}

impl Error for OutFault {}
