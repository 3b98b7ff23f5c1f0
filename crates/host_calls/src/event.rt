//! An event's head and texts.

ghost use Rattle.std.specs.Prelude.{◌≡◌, [], length};
ghost use Rattle.host_calls.specs.Events.{no_head, head_with, name_of, text_of, name_replied, text_replied, or_empty, flag_of, replied_with, broken_with, count_of};

use crate::head::{EventHead, NO_HEAD};
use connection_history::{Close, Defect, Event};
use connection_messages::Reply;
use json_values::Text;
use lsp_frames::FrameFault;
use std::alloc::Global;

/// An event's texts. What an event hasn't is empty.
#[derive(Drop)]
pub struct EventTexts {
    /// A method, or an error's message.
    pub name: Vec<u8>,
    /// Params, a result, an error's data, or the start of a broken content.
    pub text: Vec<u8>,
    pub id: Vec<u8>,
}

impl EventTexts {
    /// Takes no memory.
    pub(crate) fn none(alloc: Global) -> EventTexts
        ensures name { result.name.items ≡ [] }
        ensures text { result.text.items ≡ [] }
        ensures id { result.id.items ≡ [] }
    {
        EventTexts {
            name: Vec::new(alloc),
            text: Vec::new(alloc),
            id: Vec::new(alloc),
        }
    }

    /// Moves an event's name and text here, and gives its head, where its id is here already. Takes no memory.
    pub(crate) fn take_from(&mut self, alloc: Global, event: Event) -> EventHead
        ensures head { result ≡
            head_with (length (name_of event)) (length (text_of event)) (length self.old.id.items) event }
        ensures name { self.new.name.items ≡ name_of event }
        ensures text { self.new.text.items ≡ text_of event }
        ensures id { self.new.id ≡ self.old.id }
    {
        let (head, name, text) = parts_of(alloc, event);
        self.name = name;
        self.text = text;
        EventHead {
            name_len: self.name.len(),
            text_len: self.text.len(),
            id_len: self.id.len(),
            ..head
        }
    }
}

/// An event's head without lengths, its name and its text, each by itself. What it tells is looked at once.
fn parts_of(alloc: Global, event: Event) -> (EventHead, Vec<u8>, Vec<u8>)
    ensures head { result.0 ≡ head_with 0 0 0 event }
    ensures name { result.1.items ≡ name_of event }
    ensures text { result.2.items ≡ text_of event }
{
    match event {
        Event::Call { number, call } => {
            let head = EventHead {
                kind: 1,
                flags: call.id.is_some() as u32,
                number,
                ..NO_HEAD
            };
            (
                head,
                bytes_of(call.method),
                bytes_or_none(alloc, call.params),
            )
        }
        Event::Replied { key, reply } => parts_of_reply(alloc, key, reply),
        Event::Broken(broken) => (
            broken_head(broken.place, broken.defect),
            Vec::new(alloc),
            broken.start.into_vec(),
        ),
        Event::Cancelled { number } => without_texts(
            alloc,
            EventHead {
                kind: 2,
                number,
                ..NO_HEAD
            },
        ),
        Event::Unanswered { key } => without_texts(
            alloc,
            EventHead {
                kind: 4,
                key,
                ..NO_HEAD
            },
        ),
        Event::Over(close) => without_texts(
            alloc,
            EventHead {
                kind: 5,
                flags: flag_of(close),
                ..NO_HEAD
            },
        ),
    }
}

fn without_texts(alloc: Global, head: EventHead) -> (EventHead, Vec<u8>, Vec<u8>)
    ensures head { result.0 ≡ head }
    ensures name { result.1.items ≡ [] }
    ensures text { result.2.items ≡ [] }
{
    (head, Vec::new(alloc), Vec::new(alloc))
}

fn parts_of_reply(alloc: Global, key: u64, reply: Reply) -> (EventHead, Vec<u8>, Vec<u8>)
    ensures head { result.0 ≡ replied_with no_head key reply }
    ensures name { result.1.items ≡ name_replied reply }
    ensures text { result.2.items ≡ text_replied reply }
{
    match reply {
        Reply::Result(text) => {
            let head = EventHead {
                kind: 3,
                key,
                ..NO_HEAD
            };
            (head, Vec::new(alloc), bytes_of(text))
        }
        Reply::Error(error) => {
            let head = EventHead {
                kind: 3,
                flags: 1,
                key,
                code: error.code,
                ..NO_HEAD
            };
            (
                head,
                bytes_of(error.message),
                bytes_or_none(alloc, error.data),
            )
        }
    }
}

/// A content that stands at this place has this defect.
fn broken_head(place: u64, defect: Defect) -> EventHead
    ensures { result ≡ broken_with no_head place defect }
{
    match defect {
        Defect::Unreadable => EventHead {
            kind: 6,
            number: place,
            ..NO_HEAD
        },
        Defect::Invalid { first, count } => EventHead {
            kind: 6,
            flags: 1,
            number: place,
            key: first,
            code: count_of(count),
            ..NO_HEAD
        },
    }
}

fn count_of(count: u64) -> i64
    ensures { result ≡ count_of count }
{
    count.min(i64::MAX as u64) as i64
}

/// Why the input is over, as a number.
fn flag_of(close: Close) -> u32
    ensures { result ≡ flag_of close }
{
    match close {
        Close::Clean => 0,
        Close::Fault(fault) => match fault {
            FrameFault::BadHead => 1,
            FrameFault::BadLength | FrameFault::LongLength => 2,
            FrameFault::TwoLengths => 3,
            FrameFault::TooLarge => 4,
            FrameFault::NoLength => 5,
            FrameFault::HeadTooLong => 6,
            FrameFault::Truncated => 7,
        },
        Close::ReadFailed => 8,
        Close::Full => 9,
    }
}

fn bytes_of(text: Text) -> Vec<u8>
    ensures { result.items ≡ text }
{
    text.into_string().into_bytes()
}

fn bytes_or_none(alloc: Global, text: Option<Text>) -> Vec<u8>
    ensures { result.items ≡ or_empty text }
{
    match text {
        Some(text) => bytes_of(text),
        None => Vec::new(alloc),
    }
}
