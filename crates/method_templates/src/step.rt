//! What a method does.

use crate::limits::MOST_LISTED;
use crate::template::Template;
use json_values::{Items, Text};

/// What an error reply to a call does.
#[derive(Clone, Copy, Debug, PartialEq, Eq)]
pub enum OnError {
    /// It ends the method with that error.
    Fail,
    /// The register tells of it, and the method goes on.
    Keep,
}

/// One call of a batch of calls.
#[derive(Debug, Drop)]
pub struct ListedCall {
    pub method: Text,
    pub params: Option<Template>,
}

/// One step of a method. Its parts are parameters, of which one choice is used, so that whether a step may go to another
/// thread is asked of each part by itself.
#[derive(Debug, Drop)]
pub enum Step<T = Template, L = Items<ListedCall>> {
    /// Puts the value into the register.
    Set {
        to: Text,
        value: T,
    },
    /// Puts the sum of two whole numbers into the register.
    Add {
        to: Text,
        left: T,
        right: T,
    },
    /// Skips the next `count` steps, 1 to 64, where both values have the same compact text.
    Skip {
        left: T,
        right: T,
        count: u32,
    },
    /// Makes one call, waits for its reply and puts it into the register.
    Call {
        to: Text,
        method: Text,
        params: Option<T>,
        on_error: OnError,
    },
    /// Makes one batch of 1 to 16 calls, waits for all replies and puts them into the register.
    Calls {
        to: Text,
        list: L,
        on_error: OnError,
    },
    /// Makes one batch of calls, one for each element of an array of 0 to 16, waits for all replies and puts them into the
    /// register. The params of a call are the array of its element.
    Each {
        to: Text,
        over: T,
        method: Text,
        on_error: OnError,
    },
    /// Sends one notification.
    Notify {
        method: Text,
        params: Option<T>,
    },
    /// Ends with this result.
    Answer {
        value: T,
    },
    /// Ends with this error, without data.
    Fail {
        code: i64,
        message: Text,
    },
}

impl Step {
    ghost use Rattle.std.specs.Prelude.{◌≡◌};
    ghost use Rattle.method_templates.specs.Steps.{calls_in, KeepsLimits};

    /// How many calls the step makes at most.
    pub fn calls(&self) -> u32
        requires { KeepsLimits self.now }
        ensures { result ≡ calls_in self.now }
    {
        match self {
            Step::Call { .. } => 1,
            Step::Calls { list, .. } => list.len() as u32,
            Step::Each { .. } => MOST_LISTED as u32,
            _ => 0,
        }
    }
}
