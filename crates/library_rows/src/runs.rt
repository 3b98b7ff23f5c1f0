//! Handlers that are polled and that hear replies, call by call, and handlers as futures.

use crate::rows::{each_act, each_row, is_text, json};
use crate::tables::{HELLO, SIX};
use futures::Future;
use futures::executor::block_on;
use futures::task::{Context, Poll, Source};
use handler_future::{Awaiting, Handler, Message, Outcome, Rehearsal};
use json_values::{Json, Text};
use method_steps::Table;
use rpc_messages::{Call, Id, Params, Reply, Standard};
use std::alloc::{AllocGlobal, Global};
use std::process::Abort;
use std::random::RandomSource;
use std::sync::{Arc, Wait};
use std::test::Fail;

/// A call of this method with the id 7 and the params `["x"]`.
fn call(alloc: Global, method: &str) -> Result<Arc<Call>, Fail> {
    let params = Params::Whole(json(alloc, r#"["x"]"#)?);
    let call = Call {
        id: Some(Id::Unsigned(7)),
        method: Text::copy_of(alloc, method)?,
        params,
        target: None,
    };
    Ok(Arc::new(alloc, call)?)
}

/// Handler 1, of a call of the method, or the opening's where none is named.
fn handler_in(alloc: Global, table: &Table, method: Option<&str>) -> Result<Handler, Fail> {
    let Some(name) = method else {
        return Ok(Handler::opening(alloc, table)?.ok_or("no opening")?);
    };
    let method = table.find(name).ok_or("no such method")?;
    let call = call(alloc, name)?;
    if method >= table.len() || matches!(&call.params, Params::Fractional) {
        drop(call);
        return Err("no such call".into());
    }
    Ok(Handler::new(alloc, table, method, 1, call)?)
}

/// The same in the table of this text.
fn handler(alloc: Global, text: &str, method: Option<&str>) -> Result<Handler, Fail> {
    let table = Table::read(alloc, text.as_bytes()).ok().ok_or("no table")?;
    let handler = handler_in(alloc, &table, method);
    drop(table);
    handler
}

fn reply(alloc: Global, text: &str) -> Result<Reply, Fail> {
    Ok(Reply::Done(json(alloc, text)?))
}

/// What `Debug` shows of the answer with which a handler ends.
fn is_answer(alloc: Global, outcome: &Outcome, want: &str) -> Result<bool, Fail> {
    match outcome {
        Outcome::Answer(reply) => Ok(is_text(format!(in alloc; "{reply:?}"), want)?),
        Outcome::Failed => Err("a poll found no memory".into()),
    }
}

fn answers(alloc: Global, outcome: Outcome, want: &str) -> Result<bool, Fail> {
    let is_answer = is_answer(alloc, &outcome, want);
    drop(outcome);
    is_answer
}

enum Act {
    /// A poll gives nothing, since a reply is awaited.
    Waits,
    /// A poll gives this answer.
    Answers(&'static str),
    /// A poll fails.
    Fails,
    /// The handler hears this reply to a turn, which it awaits.
    Hears(u32, &'static str),
    /// It gives back the reply to this turn.
    GivesBack(u32),
    /// It has made so many messages, awaits these turns and has heard so many replies.
    Has(usize, &'static [u32], usize),
}

use Act::{Answers, Fails, GivesBack, Has, Hears, Waits};

/// Whether a poll gives this answer, or none, since a reply is awaited.
fn gives(alloc: Global, handler: &mut Handler, want: Option<&str>) -> Result<bool, Fail> {
    match (handler.advance(), want) {
        (Some(outcome), want) => answers(alloc, outcome, want.unwrap_or("nothing")),
        (None, want) => Ok(want.is_none()),
    }
}

/// Whether a poll fails.
fn fails(handler: &mut Handler) -> bool {
    let outcome = handler.advance();
    let fails = matches!(&outcome, Some(Outcome::Failed));
    drop(outcome);
    fails
}

/// Has the handler hear a reply. Whether it awaited that, and else gives it back.
fn hears(handler: &mut Handler, turn: u32, reply: Reply) -> bool {
    let heard = handler.hear(turn, reply);
    let is_heard = heard.is_ok();
    drop(heard);
    is_heard
}

fn has(handler: &Handler, messages: usize, waits: &[u32], heard: usize) -> bool {
    handler.messages().len() == messages
        && handler.waits() == waits
        && handler.heard().len() == heard
}

fn comes_out(alloc: Global, handler: &mut Handler, act: &Act) -> Result<bool, Fail> {
    match act {
        Act::Waits => gives(alloc, handler, None),
        Act::Answers(want) => gives(alloc, handler, Some(want)),
        Act::Fails => Ok(fails(handler)),
        Act::Hears(turn, text) => Ok(hears(handler, *turn, reply(alloc, text)?)),
        Act::GivesBack(turn) => Ok(!hears(handler, *turn, reply(alloc, "true")?)),
        Act::Has(messages, waits, heard) => Ok(has(handler, *messages, waits, *heard)),
    }
}

/// A method of a table, or its opening, and acts with its handler.
struct Row {
    name: &'static str,
    table: &'static str,
    method: Option<&'static str>,
    acts: &'static [Act],
}

/// It waits for its first call, refuses a reply that it doesn't await, and ends once it heard its own.
const POLL: Row = Row {
    name: "a poll",
    table: SIX,
    method: Some("ask"),
    acts: &[
        Has(0, &[], 0),
        Waits,
        Has(1, &[1], 0),
        GivesBack(2),
        Has(1, &[1], 0),
        Waits,
        Hears(1, "true"),
        Has(1, &[], 1),
        Answers("Done(true)"),
        Has(1, &[], 1),
        Fails,
    ],
};

const ROWS: &[Row] = &[
    Row {
        name: "replies to two calls come out of order",
        table: SIX,
        method: Some("two"),
        acts: &[
            Waits,
            Has(1, &[1, 2], 0),
            Hears(2, r#""B""#),
            Waits,
            Has(1, &[1], 1),
            Hears(1, r#""A""#),
            Answers(r#"Done(["A","B"])"#),
            Has(1, &[], 2),
        ],
    },
    Row {
        name: "a skip past the last step answers null",
        table: "version = 1\nmethod = [{ name = \"m\", step = [{ kind = \"skip\", left = 1, right = 1, count = 64 }] }]\n",
        method: Some("m"),
        acts: &[Answers("Done(null)"), Has(0, &[], 0)],
    },
    Row {
        name: "an opening makes a call, and then a notification",
        table: HELLO,
        method: None,
        acts: &[
            Waits,
            Has(1, &[1], 0),
            Hears(1, "true"),
            Answers("Done(null)"),
            Has(2, &[], 1),
        ],
    },
];

fn played(rt: &impl Abort, alloc: Global, row: &Row) -> Result<(), Fail> {
    let mut handler = handler(alloc, row.table, row.method)?;
    let played = each_act(rt, alloc, row.name, &mut handler, row.acts, comes_out);
    drop(handler);
    played
}

#[test]
fn a_poll_waits_until_its_reply_is_heard(rt: HostRuntime) -> Result<(), Fail> {
    played(&rt, rt.alloc(), &POLL)
}

#[test]
fn handlers_come_to_their_answers(rt: HostRuntime) -> Result<(), Fail> {
    for row in ROWS {
        played(&rt, rt.alloc(), row)?;
    }
    Ok(())
}

/// A handler of 64 batches of 16 calls, whose errors are kept.
fn most_calls(alloc: Global) -> Result<Handler, Fail> {
    let calls = "{ method = \"f\" }, ".repeat(alloc, 16)?;
    let step = [
        "{ kind = \"calls\", to = \"r\", on_error = \"keep\", list = [",
        calls.as_str(),
        "] }, ",
    ]
    .concat(alloc)?;
    let steps = step.as_str().repeat(alloc, 64)?;
    let before = "version = 1\nmethod = [{ name = \"m\", step = [";
    let text = [before, steps.as_str(), "] }]\n"].concat(alloc)?;
    handler(alloc, text.as_str(), Some("m"))
}

/// Polls the handler until it answers, and has it hear that there is no reply to each call. How often it was polled.
fn polls_without_replies(alloc: Global, handler: &mut Handler) -> Result<u32, Fail> {
    for polls in 1..=66 {
        if let Some(outcome) = handler.advance() {
            let is_null = answers(alloc, outcome, "Done(null)")?;
            return Ok(if is_null { polls } else { 0 });
        }
        for _ in 0..16 {
            let turn = handler.waits().first().copied().ok_or("no call")?;
            if !hears(handler, turn, Reply::Standard(Standard::NoReply)) {
                return Err("an awaited reply was refused".into());
            }
        }
    }
    Ok(0)
}

/// Whether the last message is a batch of 16 calls, the last of 1,024.
fn ends_with_a_batch(handler: &Handler) -> bool {
    match handler.messages().last() {
        Some(Message::Calls(first, calls)) => *first == 1_009 && calls.len() == 16,
        _ => false,
    }
}

/// Whether the handler makes all its calls, and answers null at its last poll.
fn makes_all(alloc: Global, handler: &mut Handler) -> Result<bool, Fail> {
    let polls = polls_without_replies(alloc, handler)?;
    Ok(polls == 65 && has(handler, 64, &[], 1_024) && ends_with_a_batch(handler))
}

#[test]
fn most_calls_without_a_reply(rt: HostRuntime) -> Result<(), Fail> {
    let mut handler = most_calls(rt.alloc())?;
    let makes_all = makes_all(rt.alloc(), &mut handler);
    drop(handler);
    assert!(rt; makes_all?);
    let outcome = block_on(
        &rt,
        Rehearsal::new(rt.alloc(), most_calls(rt.alloc())?, Vec::new(rt.alloc())),
    )?;
    assert!(rt; answers(rt.alloc(), outcome, "Done(null)")?);
    Ok(())
}

/// What `Debug` shows of an answer, the method that gives it in a rehearsal, and the replies that are listed.
const REHEARSALS: &[(&str, (&str, &[(u32, &str)]))] = &[
    ("Done(true)", ("ask", &[(1, "true")])),
    ("Standard(NoReply)", ("ask", &[])),
    ("Done([1,2])", ("two", &[(2, "2"), (1, "1"), (2, "3")])),
];

fn list(
    alloc: Global,
    listed: &[(u32, &str)],
    replies: &mut Vec<(u32, Reply)>,
) -> Result<(), Fail> {
    for (turn, text) in listed {
        replies.push((*turn, reply(alloc, text)?))?;
    }
    Ok(())
}

fn rehearsal(alloc: Global, (method, listed): &(&str, &[(u32, &str)])) -> Result<Rehearsal, Fail> {
    let mut replies = Vec::new(alloc);
    let handler = match list(alloc, listed, &mut replies) {
        Ok(()) => handler(alloc, SIX, Some(method)),
        Err(fail) => Err(fail),
    };
    match handler {
        Ok(handler) => Ok(Rehearsal::new(alloc, handler, replies)),
        Err(fail) => {
            drop(replies);
            Err(fail)
        }
    }
}

#[test]
fn rehearsals_are_run_by_block_on(rt: HostRuntime) -> Result<(), Fail> {
    for (want, row) in REHEARSALS {
        let outcome = block_on(&rt, rehearsal(rt.alloc(), row)?)?;
        assert!(rt; answers(rt.alloc(), outcome, want)?, "{want}");
    }
    Ok(())
}

/// Polls an `Awaiting`. After its first poll it has the handler hear its reply, and asks to be polled again.
#[derive(Drop)]
struct Told {
    awaiting: Awaiting,
    pending: u32,
}

impl Future for Told {
    type Output = (Outcome, u32);

    fn poll(&mut self, cx: &mut Context<'_>) -> Poll<(Outcome, u32)> {
        match self.awaiting.poll(cx) {
            Poll::Ready(outcome) => Poll::Ready((outcome, self.pending)),
            Poll::Pending => {
                if self.pending == 0 {
                    let truth = Reply::Done(Json::boolean(true));
                    drop(self.awaiting.handler.hear(1, truth));
                }
                self.pending = self.pending.saturating_add(1);
                cx.yield_now()
            }
        }
    }
}

#[test]
fn another_future_polls_an_awaiting_handler(rt: HostRuntime) -> Result<(), Fail> {
    let told = Told {
        awaiting: Awaiting::new(handler(rt.alloc(), SIX, Some("ask"))?, Source::new()),
        pending: 0,
    };
    let (outcome, pending) = block_on(&rt, told)?;
    assert!(rt; answers(rt.alloc(), outcome, "Done(true)")? && pending == 1);
    Ok(())
}
