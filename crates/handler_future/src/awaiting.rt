//! A handler as a future of `futures`.

ghost use Rattle.std.specs.Prelude.{◌≡◌};
ghost use Rattle.futures.specs.Poll.{OnPending};
ghost use Rattle.futures.specs.Task.{Covers, Keeps};
ghost use Rattle.handler_future.specs.Ready.{answered_with};
ghost use Rattle.handler_future.specs.State.{IsPoll};

use crate::handler::Handler;
use crate::outcome::Outcome;
use futures::Future;
use futures::task::{Context, Poll, Source, Waker};

/// A handler that a task of `futures` polls. Where it waits for replies, its task waits at the source.
///
/// A `hear` through the field `handler` wakes nobody: who has it hear a reply polls it again, or sees to it that its task is
/// polled.
#[derive(Drop)]
pub struct Awaiting {
    pub handler: Handler,
    source: Source,
    waker: Option<Waker>,
}

impl Awaiting {
    /// A future of the handler. Takes no memory.
    pub fn new(handler: Handler, source: Source) -> Awaiting
        ensures handler { result.handler ≡ handler }
        ensures source { result.source ≡ source }
    {
        Awaiting {
            handler,
            source,
            waker: None,
        }
    }
}

impl Future for Awaiting {
    type Output = Outcome;

    ghost needs = { λ awaiting s. s ≡ awaiting.source.id };

    fn poll(&mut self, cx: &mut Context<'_>) -> Poll<Outcome>
        ensures polled { IsPoll self.old.handler self.new.handler (answered_with result) }
        ensures source { self.new.source ≡ self.old.source }
        ensures registered { OnPending result (Covers cx.new (λ s. s ≡ self.new.source.id)) }
        ensures kept { Keeps cx.old cx.new }
    {
        match self.handler.advance() {
            Some(outcome) => Poll::Ready(outcome),
            None => cx.register(&self.source, &mut self.waker),
        }
    }
}
