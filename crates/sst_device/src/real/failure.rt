//! What a real file failed at, for a message.
ghost use Rattle.std.specs.Prelude.{◌≡◌};

use std::alloc::{AllocError, AllocFailed, Global};
use std::fmt::{Display, Formatter};
use std::{fmt, io};

/// The path at which the system failed, where there was memory for it, and the system's error.
///
/// Its text is one line without a line end: the path in quotes, and the error. No contract tells what it says.
#[derive(Drop)]
pub struct Failure {
    path: Option<String>,
    pub(crate) error: io::Error,
}

impl Failure {
    /// A failure at this path.
    pub(crate) fn at(alloc: Global, path: &str, error: io::Error) -> Failure {
        Failure::from(error).or_at(alloc, path)
    }

    /// The failure, which is at the path that is handed in where it has none yet.
    pub(crate) fn or_at(self, alloc: Global, name: &str) -> Failure
        ensures error { result.error ≡ self.error }
    {
        let Failure { path, error } = self;
        match path {
            Some(other) => Failure {
                path: Some(other),
                error,
            },
            None => Failure {
                path: String::from_str(alloc, name).ok(),
                error,
            },
        }
    }
}

impl From<io::Error> for Failure {
    fn from(error: io::Error) -> Failure {
        Failure { path: None, error }
    }
}

impl From<AllocError> for Failure {
    fn from(error: AllocError) -> Failure {
        Failure::from(io::Error::from(error))
    }
}

impl<T: Drop> From<AllocFailed<T>> for Failure {
    fn from(refused: AllocFailed<T>) -> Failure {
        Failure::from(io::Error::from(refused))
    }
}

impl Display for Failure {
    fn fmt<W: fmt::Write>(&self, f: &mut Formatter<W>) -> fmt::Result {
        match &self.path {
            Some(path) => write!(f, "{:?}: {}", path.as_str(), self.error),
            None => write!(f, "a file: {}", self.error),
        }
    }
}
