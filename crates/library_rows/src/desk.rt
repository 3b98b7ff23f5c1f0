//! Units at the desk: their numbers, their replies and their answers, call by call.

use crate::rows::{each_act, is_text};
use answer_desk::{Desk, Kind, Place, Put, Shape};
use json_values::{Items, Json};
use rpc_messages::{Id, Reply};
use std::alloc::{AllocError, Global};
use std::process::Abort;
use std::test::Fail;

enum Act {
    /// Opens a unit of calls, each with the id of a request and how many calls it makes at most. Its first number is this one.
    Open(&'static [(Option<u64>, u32)], u32),
    /// Finishes a number, which is open, with this result, or with the result true.
    Finish(u32, Option<u64>),
    /// The desk gives these answers.
    Release(&'static [&'static str]),
    /// Puts a reply to a turn of a number.
    Put(u32, u32, Put),
    Has(u32, u32, bool),
    /// What `Debug` shows of the reply that is taken.
    Take(u32, u32, &'static str),
    IsOpen(u32, bool),
    Close,
}

use Act::{Close, Finish, Has, IsOpen, Open, Release, Take};

/// Acts at a new desk, with how many calls the opening makes at most, where there is one.
struct Row {
    name: &'static str,
    opening: Option<u32>,
    acts: &'static [Act],
}

const FIRST_REPLY: Row = Row {
    name: "replies",
    opening: None,
    acts: &[
        Open(&[(Some(1), 1)], 1),
        Open(&[(Some(2), 0)], 2),
        Finish(2, Some(5)),
        Release(&[]),
        Act::Put(1, 1, Put::Kept),
        Act::Put(1, 1, Put::Second),
        Act::Put(1, 2, Put::Unknown),
        Act::Put(3, 1, Put::Unknown),
        Has(1, 1, true),
        Take(1, 1, "Some(Done(true))"),
        Take(1, 1, "None"),
        Finish(1, None),
        Release(&[
            r#"{"id":1,"jsonrpc":"2.0","result":true}"#,
            r#"{"id":2,"jsonrpc":"2.0","result":5}"#,
        ]),
        Release(&[]),
    ],
};

const NOTIFICATION: Row = Row {
    name: "a notification runs on after its batch was answered",
    opening: None,
    acts: &[
        Open(&[(None, 1), (Some(1), 0)], 1),
        Finish(2, Some(5)),
        Release(&[r#"[{"id":1,"jsonrpc":"2.0","result":5}]"#]),
        Act::Put(1, 1, Put::Kept),
        Finish(1, None),
        Act::Put(1, 1, Put::Unknown),
        IsOpen(0, false),
    ],
};

const OPENING: Row = Row {
    name: "the opening is open before any call, and no unit waits for it",
    opening: Some(2),
    acts: &[
        IsOpen(0, true),
        Act::Put(0, 1, Put::Kept),
        Act::Put(0, 1, Put::Second),
        Act::Put(0, 3, Put::Unknown),
        Open(&[(Some(7), 0)], 1),
        Finish(1, None),
        Release(&[r#"{"id":7,"jsonrpc":"2.0","result":true}"#]),
        Take(0, 1, "Some(Done(true))"),
        Close,
        Take(0, 2, "Some(Standard(NoReply))"),
        Take(0, 2, "None"),
        IsOpen(0, true),
        Finish(0, None),
        IsOpen(0, false),
        Release(&[]),
    ],
};

fn places(alloc: Global, calls: &[(Option<u64>, u32)]) -> Result<Vec<Place>, AllocError> {
    let mut places = Vec::new(alloc);
    for (id, most) in calls {
        places.push(Place::Numbered {
            id: id.map(Id::Unsigned),
            most: *most,
        })?;
    }
    Ok(places)
}

/// Opens a unit, and gives its first number.
fn open(desk: &mut Desk, kind: Kind, places: Vec<Place>) -> Result<u32, Fail> {
    if desk.next_number() as usize + places.len() > 1_000_001 {
        drop(places);
        return Err("numbers past the last".into());
    }
    let places = Items::from(places);
    Ok(desk.open_unit(Shape { kind, places })?)
}

fn opens(
    alloc: Global,
    desk: &mut Desk,
    calls: &[(Option<u64>, u32)],
    number: u32,
) -> Result<bool, Fail> {
    let kind = if calls.len() == 1 {
        Kind::Single
    } else {
        Kind::Batch
    };
    Ok(open(desk, kind, places(alloc, calls)?)? == number)
}

fn reply(said: Option<u64>) -> Reply {
    match said {
        Some(number) => Reply::Done(Json::unsigned(number)),
        None => Reply::Done(Json::boolean(true)),
    }
}

/// Finishes a number, which is open.
fn finishes(desk: &mut Desk, number: u32, reply: Reply) -> bool {
    let is_open = desk.is_open(number);
    if is_open {
        desk.finish(number, reply);
    } else {
        drop(reply);
    }
    is_open
}

fn releases(desk: &mut Desk, want: &[&str]) -> Result<bool, AllocError> {
    let texts = desk.release()?;
    let mut are_texts = texts.len() == want.len();
    for (text, want) in texts.as_slice().iter().zip(want) {
        are_texts = are_texts && text.as_slice() == want.as_bytes();
    }
    drop(texts);
    Ok(are_texts)
}

fn takes(
    alloc: Global,
    desk: &mut Desk,
    (number, turn): (u32, u32),
    want: &str,
) -> Result<bool, AllocError> {
    let reply = desk.take_reply(number, turn);
    let shown = format!(in alloc; "{reply:?}");
    drop(reply);
    is_text(shown, want)
}

fn comes_out(alloc: Global, desk: &mut Desk, act: &Act) -> Result<bool, Fail> {
    match act {
        Act::Open(calls, number) => opens(alloc, desk, calls, *number),
        Act::Finish(number, said) => Ok(finishes(desk, *number, reply(*said))),
        Act::Release(texts) => Ok(releases(desk, texts)?),
        Act::Put(number, turn, put) => Ok(desk.put_reply(*number, *turn, reply(None)) == *put),
        Act::Has(number, turn, has) => Ok(desk.has_reply(*number, *turn) == *has),
        Act::Take(number, turn, want) => Ok(takes(alloc, desk, (*number, *turn), want)?),
        Act::IsOpen(number, is_open) => Ok(desk.is_open(*number) == *is_open),
        Act::Close => {
            desk.close_board();
            Ok(true)
        }
    }
}

fn play(rt: &impl Abort, alloc: Global, row: &Row) -> Result<(), Fail> {
    let mut desk = match row.opening {
        Some(most) => Desk::with_opening(alloc, most)?,
        None => Desk::new(alloc),
    };
    let played = each_act(rt, alloc, row.name, &mut desk, row.acts, comes_out);
    drop(desk);
    played
}

#[test]
fn first_reply_is_kept_and_answers_wait_for_earlier_units(rt: HostRuntime) -> Result<(), Fail> {
    play(&rt, rt.alloc(), &FIRST_REPLY)
}

#[test]
fn notifications_and_openings_hold_no_answer_back(rt: HostRuntime) -> Result<(), Fail> {
    play(&rt, rt.alloc(), &NOTIFICATION)?;
    play(&rt, rt.alloc(), &OPENING)
}
