//! Why the words of a command line ask for no work.
use clap::Error;
use std::alloc::AllocError;

/// Why no work is asked for: the words are refused, or they ask for help or the version.
pub struct Refusal {
    pub(crate) error: Error,
}

// Written out, so that whoever drops one makes a call, and knows nothing of what is in it.
impl Drop for Refusal {
    fn drop(self) {
        let Refusal { error } = self;
        drop(error);
    }
}

impl From<Error> for Refusal {
    fn from(error: Error) -> Refusal {
        Refusal { error }
    }
}

impl From<AllocError> for Refusal {
    fn from(error: AllocError) -> Refusal {
        Refusal {
            error: Error::from(error),
        }
    }
}
