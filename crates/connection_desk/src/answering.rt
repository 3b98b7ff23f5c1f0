//! Calls of the other side are answered.

ghost use Rattle.std.specs.Prelude.{◌≡◌, ◌&&◌, [], None, Some, IfOk, IfErr, OnOk, OnErr, if◌then◌else◌};
ghost use Rattle.connection_messages.specs.declared.answer.Answer.TheVariants.{Result};
ghost use Rattle.connection_messages.specs.declared.cancels.Cancels.TheVariants.{Mcp};
ghost use Rattle.connection_history.specs.Counts.{capped};
ghost use Rattle.connection_history.specs.Refusals.{has_cancels};
ghost use Rattle.connection_steps.specs.States.{given_text};
ghost use Rattle.connection_steps.specs.Steps.{leaving, owed_given, staying};
ghost use Rattle.outbox.specs.Output.{OnlyPutSince};
ghost use Rattle.connection_desk.specs.Desks.{IsRefusal, after_answer, after_cancel, answer_count, answer_refused, answer_texts, with_texts};
ghost use Rattle.connection_desk.specs.Inner.{given_answer, withdrawals_of};

use crate::desk::{Desk, emptied, let_go};
use crate::giving::give;
use connection_history::{Order, Refused};
use connection_messages::{Answer, Cancels, write_answer, write_result, write_withdrawal};
use message_ids::{Id, Standard};
use open_calls::{OwnCall, OwnCalls, TheirCall, an_entry_changes_or_goes, numbers_above_one};
use outbox::Outbox;
use owed_answers::OwedAnswers;
use std::alloc::{AllocError, Global};

/// What a call is answered with.
#[derive(Clone, Copy)]
pub(crate) enum Given<'a> {
    Answer(&'a Answer),
    /// The result that is this text.
    Result(&'a str),
    /// It is closed without an answer.
    Nothing,
}

impl Desk {
    /// Answers the open call with this number. For a notification it says that the host is done with it, and nothing is
    /// written.
    pub fn answer(&mut self, number: u64, answer: &Answer) -> Result<(), Refused>
        ensures ok { OnOk result ((answer_refused number self.old.state ≡ None) ×
            (self.new ≡ after_answer number (Some answer.now) self.old)) }
        ensures err { IfErr result (λ why. (self.new ≡ self.old) ×
            IsRefusal why (answer_refused number self.old.state)) }
    {
        self.give_answer(number, Given::Answer(answer))
    }

    /// The same with the result that is this text, which is copied nowhere but into what is written.
    pub fn answer_result(&mut self, number: u64, text: &str) -> Result<(), Refused>
        ensures ok { OnOk result ((answer_refused number self.old.state ≡ None) ×
            (self.new ≡ after_answer number (Some (Result text.now)) self.old)) }
        ensures err { IfErr result (λ why. (self.new ≡ self.old) ×
            IsRefusal why (answer_refused number self.old.state)) }
    {
        self.give_answer(number, Given::Result(text))
    }

    fn give_answer(&mut self, number: u64, given: Given<'_>) -> Result<(), Refused>
        ensures ok { OnOk result ((answer_refused number self.old.state ≡ None) ×
            (self.new ≡ after_answer number (given_answer given.entry) self.old)) }
        ensures err { IfErr result (λ why. (self.new ≡ self.old) ×
            IsRefusal why (answer_refused number self.old.state)) }
    {
        // The prover has the range of a count once it is read.
        let _answers = self.tally.answers;
        let Some(call) = self.theirs.get(number) else {
            return Err(Refused::NotOpen);
        };
        let counted = answer_call(
            self.alloc,
            self.order,
            &mut self.owed,
            call,
            given,
            &mut self.room,
            &mut self.outbox,
        );
        let_go(self.alloc, &mut self.room);
        let count = counted?;
        self.tally.add_answers(count);
        drop(self.theirs.close(number));
        self.own.end_caller(number);
        Ok(())
    }

    /// Withdraws the calls of the open call with this number, and answers it with the error `RequestCancelled`; all or
    /// nothing. With MCP's cancels, a request whose cancel came is closed without an answer.
    pub fn cancel(&mut self, number: u64) -> Result<(), Refused>
        ensures ok { OnOk result ((answer_refused number self.old.state ≡ None) ×
            (self.new ≡ after_cancel number self.old)) }
        ensures err { IfErr result (λ why. (self.new ≡ self.old) ×
            IsRefusal why (answer_refused number self.old.state)) }
    {
        // The prover has the range of a count once it is read.
        let _answers = self.tally.answers;
        let Some(call) = self.theirs.get(number) else {
            return Err(Refused::NotOpen);
        };
        let error = Answer::Standard(Standard::Cancelled);
        let given = cancel_answer(self.cancels, call, &error);
        let mut room = emptied(self.alloc, &mut self.room);
        let mark = self.outbox.mark();
        write_withdrawals(self.cancels, &self.own, number, &mut room, &mut self.outbox)?;
        match answer_call(
            self.alloc,
            self.order,
            &mut self.owed,
            call,
            given,
            &mut room,
            &mut self.outbox,
        ) {
            Ok(count) => self.tally.add_answers(count),
            Err(refused) => {
                self.outbox.back_to(mark);
                return Err(Refused::from(refused));
            }
        }
        drop(self.theirs.close(number));
        self.own.end_caller(number);
        self.keep_room(room);
        Ok(())
    }
}

/// Answers this call, or lets it go without an answer, and lets the answers go out that can then; all or nothing. Says how
/// many they are. A notification is owed none.
#[inline(always)]
fn answer_call(
    alloc: Global,
    order: Order,
    owed: &mut OwedAnswers,
    call: &TheirCall,
    given: Given<'_>,
    room: &mut Vec<u8>,
    outbox: &mut Outbox,
) -> Result<u64, AllocError>
    requires { leaving order owed.old.owed ≡ [] }
    ensures owed { OnOk result (owed.new ≡ record owed.old {
      owed = staying order
          (owed_given (Some call.now) (given_answer given.entry) owed.old.owed);
    }) }
    ensures outbox { OnOk result (outbox.new ≡ with_texts
        (answer_texts (leaving order
        (owed_given (Some call.now) (given_answer given.entry) owed.old.owed)))
        outbox.old) }
    ensures count { IfOk result (λ count. count ≡ capped
        (answer_count (leaving order
        (owed_given (Some call.now) (given_answer given.entry) owed.old.owed)))) }
    ensures owed_err { OnErr result (owed.new ≡ owed.old) }
    ensures outbox_err { OnErr result (outbox.new ≡ outbox.old) }
{
    let Some(id) = &call.id else {
        return Ok(0);
    };
    write_given(alloc, room, id, given)?;
    give(alloc, order, owed, call.place, call.slot, room, outbox)
}

/// The text of the slot of a request with this id. That of a call which is closed without an answer is empty.
#[inline(always)]
fn write_given(
    alloc: Global,
    room: &mut Vec<u8>,
    id: &Id,
    given: Given<'_>,
) -> Result<(), AllocError>
    ensures { OnOk result (room.new.items ≡ given_text id.now (given_answer given.entry)) }
{
    room.clear();
    match given {
        Given::Answer(answer) => write_answer(alloc, room, id, answer),
        Given::Result(text) => write_result(alloc, room, id, text),
        Given::Nothing => Ok(()),
    }
}

/// The answer of a call that the host cancels. With MCP's cancels a request whose cancel came wants none.
fn cancel_answer<'a>(cancels: Option<Cancels>, call: &TheirCall, error: &'a Answer) -> Given<'a>
    ensures { given_answer result ≡
        (if has_cancels Mcp cancels && call.now.is_cancelled then None else Some error.now) }
{
    match cancels {
        Some(Cancels::Mcp) if call.is_cancelled => Given::Nothing,
        _ => Given::Answer(error),
    }
}

/// Writes the notifications that withdraw the calls of this call, where there are cancels; all or nothing.
fn write_withdrawals(
    cancels: Option<Cancels>,
    own: &OwnCalls,
    number: u64,
    room: &mut Vec<u8>,
    outbox: &mut Outbox,
) -> Result<(), AllocError>
    ensures ok { OnOk result (outbox.new ≡
        with_texts (withdrawals_of cancels number own.now.waiting) outbox.old) }
    ensures err { OnErr result (outbox.new ≡ outbox.old) }
{
    let Some(by) = cancels else {
        return Ok(());
    };
    let mark = outbox.mark();
    match write_each_withdrawal(by, own, number, room, outbox) {
        Ok(()) => Ok(()),
        Err(refused) => {
            outbox.back_to(mark);
            Err(refused)
        }
    }
}

/// Where not all are written, some of them may be.
fn write_each_withdrawal(
    by: Cancels,
    own: &OwnCalls,
    number: u64,
    room: &mut Vec<u8>,
    outbox: &mut Outbox,
) -> Result<(), AllocError>
    ensures ok { OnOk result (outbox.new ≡
        with_texts (withdrawals_of (Some by) number own.now.waiting) outbox.old) }
    ensures err { OnErr result (OnlyPutSince outbox.old outbox.new) }
{
    numbers_above_one::<OwnCall>();
    an_entry_changes_or_goes::<OwnCall>();
    let mut next = own.next_of(number, 0);
    while let Some(key) = next {
        room.clear();
        write_withdrawal(room, by, key)?;
        outbox.put(room.as_slice())?;
        next = own.next_of(number, key);
    }
    Ok(())
}
