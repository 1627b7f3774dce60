//! Why the program gives up.

use std::alloc::{AllocError, AllocFailed};
use std::fmt;
use std::io::{self, Write};

/// Why the program gives up.
#[derive(Clone, Copy, Debug, PartialEq, Eq)]
pub enum Fault {
    /// A line fits no form: its number, from 1.
    BadLine(usize),
    /// The input can't be read.
    Input,
    /// The output can't be written.
    Output,
    /// A growth of the program's own found no memory.
    OutOfMemory,
}

impl fmt::Display for Fault {
    fn fmt<W: fmt::Write>(&self, f: &mut fmt::Formatter<W>) -> fmt::Result {
        match *self {
            Fault::BadLine(number) => write!(f, "line {number}: bad command"),
            Fault::Input => write!(f, "input failed"),
            Fault::Output => write!(f, "output failed"),
            Fault::OutOfMemory => write!(f, "out of memory"),
        }
    }
}

impl std::error::Error for Fault {}

impl Fault {
    /// The exit status that reports it: 1 for a bad line, 3 for the others.
    pub fn status(self) -> u8 {
        match self {
            Fault::BadLine(_) => 1,
            Fault::Input | Fault::Output | Fault::OutOfMemory => 3,
        }
    }

    /// Writes its words as a line on `errors`, and gives its exit status. A write that fails there is
    /// ignored.
    pub fn report<E: Write>(self, errors: &mut E) -> u8 {
        let _ = writeln!(errors, "{self}");
        self.status()
    }

    /// What a failed read means: out of memory for what was read, or a fault of the input.
    pub fn of_read(error: io::Error) -> Fault {
        match error.kind() {
            io::ErrorKind::OutOfMemory => Fault::OutOfMemory,
            _ => Fault::Input,
        }
    }
}

impl From<AllocError> for Fault {
    fn from(_error: AllocError) -> Fault {
        Fault::OutOfMemory
    }
}

impl<T: Drop> From<AllocFailed<T>> for Fault {
    fn from(_failed: AllocFailed<T>) -> Fault {
        Fault::OutOfMemory
    }
}
