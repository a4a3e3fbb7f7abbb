// Why a line has no answer of its own.
use std::alloc::{AllocError, AllocFailed};
use std::fmt;
use store::Refusal;
use words::Reason;

// The book refused it, the line is wrong, or an answer found no memory.
#[derive(Clone, Copy)]
pub enum Fault {
    Refused(Refusal),
    Wrong(Reason),
    Text(fmt::Error),
}

impl From<Refusal> for Fault {
    fn from(why: Refusal) -> Fault {
        Fault::Refused(why)
    }
}

impl From<Reason> for Fault {
    fn from(why: Reason) -> Fault {
        Fault::Wrong(why)
    }
}

impl From<fmt::Error> for Fault {
    fn from(why: fmt::Error) -> Fault {
        Fault::Text(why)
    }
}

impl From<AllocError> for Fault {
    fn from(_why: AllocError) -> Fault {
        Fault::Wrong(Reason::NoMemory)
    }
}

impl<T: Drop> From<AllocFailed<T>> for Fault {
    fn from(_why: AllocFailed<T>) -> Fault {
        Fault::Wrong(Reason::NoMemory)
    }
}
