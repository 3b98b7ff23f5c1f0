//! What is due, in frames (LSP 3.17, "Base Protocol") or in lines.

ghost use Rattle.std.specs.Prelude.{◌≡◌, ◌<◌, ◌^◌, ◌++◌, [], ◌∷◌, All, IfOk, OnOk, OnErr, flat_map, length, map, drop, true};
ghost use Rattle.handler_future.specs.Front.{HasTurnsUpTo};
ghost use Rattle.answer_desk.specs.State.{front_texts, without_front};
ghost use Rattle.peer_output.specs.Course.{message as sends_message, withdrawal};
ghost use Rattle.peer_output.specs.Items.{sent, message_text};
ghost use Rattle.peer_events.specs.Core.{stage_at, with_desk, with_stage, unwritten, unwritten_from};
ghost use Rattle.peer_events.specs.Turning.{written_stage, drained};
ghost use Rattle.stream_framing.specs.Framed.{framed};
ghost use Rattle.stream_framing.specs.declared.framing.Framing.TheVariants.{Frames};
ghost use Rattle.peer_session.specs.Framings.{bytes_in, due_in};
ghost use Rattle.session_runs.specs.Runs.{has_unwritten};
ghost use Rattle.peer_session.specs.Inner.Writing.{Counts, CountsOn};

use crate::finishing::take_idle;
use handler_future::Message;
use json_values::Items;
use peer_events::Stage;
use rpc_messages::{put_call, put_calls, put_notice, put_withdrawal};
use session_runs::Runs;
use std::alloc::{AllocError, Global};
use stream_framing::{Framing, put_text};

/// How many messages and answers were put.
#[derive(Clone, Copy)]
pub(crate) struct Written {
    /// Messages and withdrawals.
    pub(crate) messages: u64,
    /// Those of them that await a reply.
    pub(crate) call_frames: u64,
    pub(crate) answers: u64,
}

/// Nothing yet.
pub(crate) const NOTHING: Written = Written {
    messages: 0,
    call_frames: 0,
    answers: 0,
};

impl Written {
    /// These and more.
    pub(crate) fn and(self, more: Written) -> Written
        ensures { CountsOn self more result }
    {
        Written {
            messages: self.messages.saturating_add(more.messages),
            call_frames: self.call_frames.saturating_add(more.call_frames),
            answers: self.answers.saturating_add(more.answers),
        }
    }

    /// Does nothing that a caller sees: it reads the counts, so that callers learn the range of their type. A clause knows
    /// that range of what is behind a reference only where a body reads it, and a drain that has nothing to write doesn't.
    /// An invariant of this type can't carry it: a loop that adds counts up would lose it.
    pub(crate) fn counts_fit(&self)
        ensures messages { self.now.messages < 2 ^ 64 }
        ensures call_frames { self.now.call_frames < 2 ^ 64 }
        ensures answers { self.now.answers < 2 ^ 64 }
    {
        let _messages = self.messages;
        let _call_frames = self.call_frames;
        let _answers = self.answers;
    }

    /// One message.
    fn of_message(message: &Message) -> Written
        ensures { Counts result (sent 0 (sends_message message.now) ∷ []) }
    {
        let awaits = !matches!(message, Message::Notice(_));
        Written {
            messages: 1,
            call_frames: u64::from(awaits),
            answers: 0,
        }
    }
}

/// Puts all that is due behind the bytes: first what numbers have sent, by number, and then
/// answers. All that may fail comes before what was put is noted.
pub(crate) fn put_due(
    alloc: Global,
    framing: Framing,
    runs: &mut Runs,
    bytes: &mut Vec<u8>,
) -> Result<Written, AllocError>
    ensures bytes { OnOk result (bytes.new.items ≡ bytes.old.items ++ due_in framing runs.old) }
    ensures counts { IfOk result (λ written. Counts written (unwritten_from 0 runs.old.stages)) }
    ensures answers { IfOk result (λ written.
        written.answers ≡ length (front_texts runs.old.desk)) }
    ensures ok { OnOk result (runs.new ≡ drained runs.old) }
    ensures err { framing ≡ Frames → OnErr result (runs.new ≡ runs.old) }
{
    let sendings = put_sendings(alloc, framing, runs, bytes)?;
    let answers = put_answers(framing, runs, bytes)? as u64;
    note_written(runs);
    Ok(Written {
        answers,
        ..sendings
    })
}

/// Puts the answers that are due, and tells how many they are. In lines they are made one by one, so where there is no
/// memory to put them they are lost.
fn put_answers(framing: Framing, runs: &mut Runs, bytes: &mut Vec<u8>) -> Result<usize, AllocError>
    ensures bytes { OnOk result (bytes.new.items ≡ bytes.old.items
        ++ flat_map (framed framing) (front_texts runs.old.desk)) }
    ensures count { IfOk result (λ count. count ≡ length (front_texts runs.old.desk)) }
    ensures ok { OnOk result (runs.new ≡ with_desk runs.old (without_front runs.old.desk)) }
    ensures err { framing ≡ Frames → OnErr result (runs.new ≡ runs.old) }
{
    match framing {
        Framing::Frames => runs.release_to(bytes),
        Framing::Lines => {
            let texts = runs.release()?;
            put_texts(bytes, framing, texts.as_slice())
        }
    }
}

/// Puts texts, and tells how many they are.
fn put_texts(
    bytes: &mut Vec<u8>,
    framing: Framing,
    texts: &[Items<u8>],
) -> Result<usize, AllocError>
    ensures bytes { OnOk result (bytes.new.items ≡
        bytes.old.items ++ flat_map (framed framing) texts.now) }
    ensures count { IfOk result (λ count. count ≡ length texts.now) }
{
    for text in texts {
        put_text(bytes, framing, text.as_slice())?;
    }
    Ok(texts.len())
}

/// Puts what numbers have sent.
fn put_sendings(
    alloc: Global,
    framing: Framing,
    runs: &Runs,
    bytes: &mut Vec<u8>,
) -> Result<Written, AllocError>
    ensures bytes { OnOk result (bytes.new.items ≡
        bytes.old.items ++ bytes_in framing (unwritten_from 0 runs.now.stages)) }
    ensures counts { IfOk result (λ written. Counts written (unwritten_from 0 runs.now.stages)) }
{
    let mut written = NOTHING;
    let mut text = Vec::new(alloc);
    for place in 0..runs.unwritten_len() {
        if let Some(number) = runs.unwritten_at(place) {
            written = written.and(put_number(alloc, framing, bytes, &mut text, runs, number)?);
        }
    }
    Ok(written)
}

/// Puts what one number has sent.
fn put_number(
    alloc: Global,
    framing: Framing,
    bytes: &mut Vec<u8>,
    text: &mut Vec<u8>,
    runs: &Runs,
    number: u32,
) -> Result<Written, AllocError>
    ensures bytes { OnOk result (bytes.new.items ≡
        bytes.old.items ++ bytes_in framing (map (sent number) (unwritten (stage_at runs.now number)))) }
    ensures counts { IfOk result (λ written.
        Counts written (map (sent number) (unwritten (stage_at runs.now number)))) }
{
    match runs.stage(number) {
        Some(Stage::Idle(handler, so_far)) => {
            let messages = behind(handler.messages(), *so_far);
            put_messages(alloc, framing, bytes, text, number, messages)
        }
        Some(Stage::Over(handler, so_far)) => {
            let made = handler.messages().len();
            let messages = behind(handler.messages(), *so_far);
            let turns = behind(handler.waits(), so_far.saturating_sub(made));
            let written = put_messages(alloc, framing, bytes, text, number, messages)?;
            Ok(written.and(put_withdrawals(framing, bytes, text, number, turns)?))
        }
        _ => Ok(NOTHING),
    }
}

/// What stands behind the first so many.
fn behind<T>(items: &[T], count: usize) -> &[T]
    ensures { result.now ≡ drop count items.now }
{
    &items[count.min(items.len())..]
}

/// Puts messages of a number.
fn put_messages(
    alloc: Global,
    framing: Framing,
    bytes: &mut Vec<u8>,
    text: &mut Vec<u8>,
    number: u32,
    messages: &[Message],
) -> Result<Written, AllocError>
    requires { All (HasTurnsUpTo 1024) messages.now }
    ensures bytes { OnOk result (bytes.new.items ≡
        bytes.old.items ++ bytes_in framing (map (sent number) (map sends_message messages.now))) }
    ensures counts { IfOk result (λ written.
        Counts written (map (sent number) (map sends_message messages.now))) }
{
    let mut written = NOTHING;
    for message in messages {
        text.clear();
        put_message(alloc, text, number, message)?;
        put_text(bytes, framing, text.as_slice())?;
        written = written.and(Written::of_message(message));
    }
    Ok(written)
}

fn put_message(
    alloc: Global,
    text: &mut Vec<u8>,
    number: u32,
    message: &Message,
) -> Result<(), AllocError>
    requires { HasTurnsUpTo 1024 message.now }
    ensures { OnOk result (text.new.items ≡ text.old.items ++ message_text number message.now) }
{
    match message {
        Message::Call(turn, outgoing) => put_call(alloc, text, number, *turn, outgoing),
        Message::Calls(first, calls) => put_calls(alloc, text, number, *first, calls.as_slice()),
        Message::Notice(outgoing) => put_notice(alloc, text, outgoing),
    }
}

/// Puts the withdrawals of calls of a number.
fn put_withdrawals(
    framing: Framing,
    bytes: &mut Vec<u8>,
    text: &mut Vec<u8>,
    number: u32,
    turns: &[u32],
) -> Result<Written, AllocError>
    ensures bytes { OnOk result (bytes.new.items ≡
        bytes.old.items ++ bytes_in framing (map (sent number) (map withdrawal turns.now))) }
    ensures counts { IfOk result (λ written.
        Counts written (map (sent number) (map withdrawal turns.now))) }
{
    for turn in turns {
        text.clear();
        put_withdrawal(text, number, *turn)?;
        put_text(bytes, framing, text.as_slice())?;
    }
    Ok(Written {
        messages: turns.len() as u64,
        call_frames: 0,
        answers: 0,
    })
}

/// All that numbers have sent is written.
fn note_written(runs: &mut Runs)
    ensures desk { runs.new.desk ≡ runs.old.desk }
    ensures stages { runs.new.stages ≡ map written_stage runs.old.stages }
{
    while let Some(number) = runs.unwritten_at(0) {
        note_number(runs, number);
    }
}

/// All that a number has sent is written: one that is over is gone.
fn note_number(runs: &mut Runs, number: u32)
    requires { has_unwritten (stage_at runs.old number) ≡ true }
    ensures { runs.new ≡ with_stage runs.old number (written_stage (stage_at runs.old number)) }
{
    if let Some((handler, so_far)) = take_idle(runs, number) {
        let written = so_far.max(handler.messages().len());
        drop(runs.replace(number, Stage::Idle(handler, written)));
        return;
    }
    match runs.replace(number, Stage::Gone) {
        Stage::Over(handler, _) => runs.keep(handler),
        other => drop(other),
    }
}
