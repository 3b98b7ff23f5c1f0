ghost use Rattle.std.specs.Prelude.{◌≡◌, IfOk, Some, true};

use crate::open_call::OpenCall;
use crate::replies::Put;
use rpc_messages::{Id, Reply, Standard};
use std::alloc::{AllocError, Global};
use std::mem;

/// What stands for a number that is open or answered. It stands on the heap, with the room for its answer.
#[derive(Drop)]
pub enum Kept {
    Open(OpenCall),
    /// A finished request whose unit isn't released yet.
    Answered { id: Id, reply: Reply },
}

impl Kept {
    ghost use Rattle.open_numbers.specs.declared.kept.Kept.TheVariants.{Open};
    ghost use Rattle.open_numbers.specs.OpenCalls.{new_number};
    ghost use Rattle.open_numbers.specs.Kept.{kept_if, slot_in, with_answer, with_put, with_reach, with_taken};
    ghost use Rattle.open_numbers.specs.Replies.{put_into, given_by};
    ghost use Rattle.open_numbers.specs.SpareBlocks.{is_empty};

    /// A call as it arrives.
    pub fn open(alloc: Global, id: Option<Id>, most: u32) -> Result<Box<Kept>, AllocError>
        ensures { IfOk result (λ kept. kept.value ≡ Open (new_number id most)) }
    {
        let number = OpenCall::new(alloc, id, most)?;
        Ok(Box::new(alloc, Kept::Open(number))?)
    }

    /// A cancel has reached it, where it is open.
    pub fn mark(&mut self)
        ensures { Some self.new ≡ with_reach (Some self.old) }
    {
        if let Kept::Open(call) = self {
            call.is_marked = true;
        }
    }

    /// The end of an open number: a request keeps its answer. It tells whether anything is still kept.
    pub fn answer(&mut self, reply: Reply) -> bool
        ensures { kept_if result self.new ≡ with_answer reply (Some self.old) }
    {
        let id = match self {
            Kept::Open(number) => number.id.take(),
            Kept::Answered { .. } => {
                drop(reply);
                return true;
            }
        };
        match id {
            Some(id) => {
                drop(mem::replace(self, Kept::Answered { id, reply }));
                true
            }
            None => {
                drop(reply);
                false
            }
        }
    }

    /// Keeps the first reply to a call of it, where it is open.
    pub fn put_reply(&mut self, turn: u32, reply: Reply) -> Put
        ensures put { result ≡ put_into (slot_in (Some self.old) turn) }
        ensures after { Some self.new ≡ with_put turn reply (Some self.old) }
    {
        match self {
            Kept::Open(call) => call.replies.put(turn, reply),
            Kept::Answered { .. } => {
                drop(reply);
                Put::Unknown
            }
        }
    }

    /// Takes the reply to a call of it, where it is open.
    pub fn take_reply(&mut self, turn: u32, is_closed: bool) -> Option<Reply>
        ensures reply { result ≡ given_by is_closed (slot_in (Some self.old) turn) }
        ensures after { Some self.new ≡ with_taken turn is_closed (Some self.old) }
    {
        match self {
            Kept::Open(call) => call.replies.take(turn, is_closed),
            Kept::Answered { .. } => None,
        }
    }

    /// Lets go of all that it holds: its id, its replies and its answer.
    pub fn clear(&mut self)
        ensures { is_empty self.new ≡ true }
    {
        match self {
            Kept::Answered { id, reply } => {
                *id = Id::Null;
                *reply = Reply::Standard(Standard::NoReply);
            }
            Kept::Open(_) => *self = Kept::Answered {
                id: Id::Null,
                reply: Reply::Standard(Standard::NoReply),
            },
        }
    }
}
