//! What lies behind a host's handle.

ghost use Rattle.std.specs.Prelude.{◌≡◌, ◌≤◌, []};
ghost use Rattle.conversation_judge.specs.Judged.{Stands, new_judge};
ghost use Rattle.lsp_frames.specs.declared.limits.TheConstants.{LARGEST_CONTENT as MOST_BYTES};

use crate::options::Asked;
use conversation_judge::Judge;
use std::alloc::Global;

/// A judge, whose calls have numbers and bytes.
pub struct HostedJudge {
    pub judge: Judge,
}

// Written out, so that whoever drops one makes a call, and knows nothing of what is in it.
impl Drop for HostedJudge {
    fn drop(self) {
        let HostedJudge { judge } = self;
        drop(judge);
    }
}

impl HostedJudge {
    /// One that has seen nothing. Takes no memory.
    pub fn new(alloc: Global, asked: Asked) -> HostedJudge
        requires some { 1 ≤ asked.limits.content }
        requires most { asked.limits.content ≤ MOST_BYTES }
        ensures value { result.judge ≡ new_judge asked.protocol asked.framing asked.limits }
        ensures stands { Stands asked.protocol asked.framing asked.limits result.judge [] [] }
    {
        HostedJudge {
            judge: Judge::new(alloc, asked.protocol, asked.framing, asked.limits),
        }
    }
}
