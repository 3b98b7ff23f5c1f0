//! A handler run to its end with replies that are known beforehand.

ghost use Rattle.futures.specs.Task.{Keeps};
ghost use Rattle.std.specs.Prelude.{◌≡◌};
ghost use Rattle.handler_future.specs.Ready.{IsReadyWith};
ghost use Rattle.handler_future.specs.Evaluation.{Replies};
ghost use Rattle.handler_future.specs.Rehearsed.{AnswersBy, IsRehearsed};
ghost use Rattle.handler_future.specs.Inner.Rehearsing.{Follows, HearsOne, listed_reply};
ghost use Rattle.handler_future.specs.State.{IsWaiting};
ghost use Rattle.std.specs.BTreeMap.{get};
ghost use Rattle.std.specs.Ordering.{nat_cmp};
ghost use Rattle.std.specs.Prelude.{ℕ, ◌≢◌};

use crate::handler::Handler;
use crate::listed::first_replies;
use crate::outcome::Outcome;
use futures::Future;
use futures::task::{Context, Poll};
use rpc_messages::{Reply, Standard};
use std::alloc::Global;
use std::collections::BTreeMap;
use std::mem;

/// A handler that hears the first listed reply of each turn that it awaits, and `No reply` where none is listed. Its first
/// poll is ready, so `block_on` runs it.
#[derive(Drop)]
pub struct Rehearsal {
    handler: Handler,
    replies: Vec<(u32, Reply)>,
    alloc: Global,
}

impl Rehearsal {
    /// A rehearsal of the handler; the replies stand with their turns. Takes no memory.
    pub fn new(alloc: Global, handler: Handler, replies: Vec<(u32, Reply)>) -> Rehearsal
        ensures handler { result.handler ≡ handler }
        ensures replies { result.replies ≡ replies }
    {
        Rehearsal {
            handler,
            replies,
            alloc,
        }
    }
}

impl Future for Rehearsal {
    type Output = Outcome;

    ghost gives = { λ rehearsal outcome.
        IsRehearsed rehearsal.handler rehearsal.replies.items outcome };

    fn poll(&mut self, _cx: &mut Context<'_>) -> Poll<Outcome>
        ensures ready { IsReadyWith result
            (λ outcome. IsRehearsed self.old.handler self.old.replies.items outcome) }
        ensures kept { Keeps _cx.old _cx.new }
    {
        let replies = mem::replace(&mut self.replies, Vec::new(self.alloc));
        match first_replies(self.alloc, replies) {
            Ok(listed) => Poll::Ready(rehearse(&mut self.handler, listed)),
            Err(_) => Poll::Ready(Outcome::Failed),
        }
    }
}

/// Polls the handler to its end, and has it hear one reply after each poll that waits.
fn rehearse(handler: &mut Handler, mut listed: BTreeMap<u32, Reply>) -> Outcome
    ensures { (R : Replies) → Follows R handler.old listed → AnswersBy R handler.old result }
{
    loop {
        match handler.advance() {
            Some(outcome) => return outcome,
            None => hear_one(handler, &mut listed),
        }
    }
}

/// Has the handler hear the reply to the first call that it awaits.
fn hear_one(handler: &mut Handler, listed: &mut BTreeMap<u32, Reply>)
    requires { IsWaiting handler.old }
    ensures { HearsOne handler.old handler.new listed.old listed.new }
{
    if let Some(turn) = handler.waits().first().copied() {
        let reply = reply_of(turn, listed);
        drop(handler.hear(turn, reply));
    }
}

/// Takes the turn's reply off the list.
fn reply_of(turn: u32, listed: &mut BTreeMap<u32, Reply>) -> Reply
    ensures reply { result ≡ listed_reply listed.old turn }
    ensures others { (t : ℕ) → turn ≢ t → get nat_cmp listed.new t ≡ get nat_cmp listed.old t }
{
    match listed.remove(&turn) {
        Some(reply) => reply,
        None => Reply::Standard(Standard::NoReply),
    }
}
