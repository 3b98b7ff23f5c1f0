//! The host says several things in one call.

ghost use Rattle.std.specs.Prelude.{◌≡◌, ◌+◌, ◌<◌, IfOk, MatchOption};
ghost use Rattle.host_calls.specs.Sayings.{kind_of, calls_of, refused_of, lengths_of, are_whole, SaysBatch, SaysAs, SaysOne, SaysAll, HasSaidAll};

use crate::code::{Why, code_of};
use crate::outlet::Outlet;
use crate::part::Part;
use crate::saying::has_call;
use connection::Refused;
use std::alloc::{AllocError, Global};

/// One thing to say, as C has it.
#[repr(C)]
#[derive(Clone, Copy)]
pub struct Saying {
    /// What is said, by `kind_of`.
    pub kind: u32,
    /// The code that it got.
    pub said: i32,
    /// The call that came to which it belongs, or 0.
    pub number: u64,
    /// The call of ours that is withdrawn; or, written, the key that a call got.
    pub key: u64,
    /// That of an error.
    pub code: i64,
    /// How many bytes its name and its text have.
    pub name_len: usize,
    pub text_len: usize,
    /// How many of those behind it are the calls of this batch.
    pub calls: usize,
}

/// What is said.
#[derive(Clone, Copy)]
pub enum SayingKind {
    Answer,
    Fail,
    Close,
    Call,
    Batch,
    Notify,
    Withdraw,
    Cancel,
}

impl Outlet {
    /// Says these things in their order, each by itself, whose names and texts are cut off the bytes. Tells how many got
    /// another code than 0.
    pub fn say_all(
        &mut self,
        sayings: &mut [Saying],
        bytes: &[u8],
        refused: &mut usize,
    ) -> Result<(), Why>
        ensures { HasSaidAll self.old self.new sayings.old sayings.new bytes.now refused.old refused.new result }
    {
        if !are_whole(sayings, bytes) {
            return Err(Why::Settings);
        }
        *refused = self.say_each(sayings, bytes);
        Ok(())
    }

    /// Says these things in their order, and gives how many were refused. Those that are calls of a batch are passed over.
    fn say_each(&mut self, sayings: &mut [Saying], bytes: &[u8]) -> usize
        ensures { SaysAll self.old 0 sayings.old bytes.now self.new sayings.new result }
    {
        let mut rest = bytes;
        let mut passed = 0;
        let mut refused = 0;
        for place in 0..sayings.len() {
            let it = sayings[place];
            if passed > 0 {
                passed -= 1;
            } else {
                let said = self.say_one(&it, &sayings[place + 1..], rest);
                refused += refused_of(&said);
                sayings[place] = said;
                passed = calls_of(&it);
            }
            rest = Part::cut(rest, it.name_len, it.text_len).behind;
        }
        refused
    }

    /// Says one thing, whose name and text lie first in the bytes, and gives it with its code and its key.
    fn say_one(&mut self, it: &Saying, others: &[Saying], bytes: &[u8]) -> Saying
        ensures { SaysOne self.old self.new it.now others.now bytes.now result }
    {
        let mut key = it.key;
        let said = self.say(it, others, bytes, &mut key);
        Saying {
            said: code_of(said),
            key,
            ..*it
        }
    }

    fn say(
        &mut self,
        it: &Saying,
        others: &[Saying],
        bytes: &[u8],
        key: &mut u64,
    ) -> Result<(), Why>
        ensures { SaysAs (kind_of it.now.kind) self.old self.new it.now others.now bytes.now key.old key.new result }
    {
        let part = Part::cut(bytes, it.name_len, it.text_len);
        match kind_of(it.kind) {
            Some(SayingKind::Answer) => self.answer(it.number, part.text),
            Some(SayingKind::Fail) => self.fail(it.number, it.code, part.name, part.text),
            Some(SayingKind::Close) => self.close(it.number),
            Some(SayingKind::Call) => self.call(it.number, part.name, part.text, key),
            Some(SayingKind::Batch) => self.say_batch(it, others, part.behind, key),
            Some(SayingKind::Notify) => self.notify(part.name, part.text),
            Some(SayingKind::Withdraw) => self.withdraw(it.key),
            Some(SayingKind::Cancel) => self.cancel(it.number),
            None => Err(Why::Settings),
        }
    }

    /// Calls the other side several times: the first of the others are the calls, whose methods and params lie first in
    /// the bytes.
    fn say_batch(
        &mut self,
        it: &Saying,
        others: &[Saying],
        bytes: &[u8],
        key: &mut u64,
    ) -> Result<(), Why>
        ensures { SaysBatch self.old self.new it.now others.now bytes.now key.old key.new result }
    {
        if it.calls > others.len() {
            return Err(Why::Settings);
        }
        if !has_call(&self.connection, it.number) {
            return Err(Why::Refused(Refused::NotOpen));
        }
        let lengths = lengths_of(self.alloc, &others[..it.calls])?;
        self.call_parts(it.number, bytes, &lengths, key)
    }
}

fn kind_of(kind: u32) -> Option<SayingKind>
    ensures { result ≡ kind_of kind }
{
    match kind {
        1 => Some(SayingKind::Answer),
        2 => Some(SayingKind::Fail),
        3 => Some(SayingKind::Close),
        4 => Some(SayingKind::Call),
        5 => Some(SayingKind::Batch),
        6 => Some(SayingKind::Notify),
        7 => Some(SayingKind::Withdraw),
        8 => Some(SayingKind::Cancel),
        _ => None,
    }
}

/// How many of those behind it are its calls.
fn calls_of(it: &Saying) -> usize
    ensures { result ≡ calls_of it.now }
{
    if it.kind == 5 { it.calls } else { 0 }
}

/// 1 where it was refused.
fn refused_of(it: &Saying) -> usize
    ensures { result ≡ refused_of it.now }
{
    if it.said == 0 { 0 } else { 1 }
}

/// Two lengths for each.
fn lengths_of(alloc: Global, sayings: &[Saying]) -> Result<Vec<usize>, AllocError>
    ensures { IfOk result (λ lengths. lengths.items ≡ lengths_of sayings.now) }
{
    let mut lengths = Vec::new(alloc);
    let mut left = sayings;
    while let [it, behind @ ..] = left {
        lengths.push(it.name_len)?;
        lengths.push(it.text_len)?;
        left = behind;
    }
    Ok(lengths)
}

/// Whether the lengths of all names and texts add up to that of the bytes.
fn are_whole(sayings: &[Saying], bytes: &[u8]) -> bool
    ensures { result ≡ are_whole sayings.now bytes.now }
{
    let mut rest = bytes.len();
    let mut left = sayings;
    while let [it, behind @ ..] = left {
        match without(rest, it) {
            Some(more) => rest = more,
            None => return false,
        }
        left = behind;
    }
    rest == 0
}

/// How many bytes are left behind those of this one.
fn without(rest: usize, it: &Saying) -> Option<usize>
    ensures { MatchOption result
        (rest < it.now.name_len + it.now.text_len)
        (λ more. more + (it.now.name_len + it.now.text_len) ≡ rest) }
{
    rest.checked_sub(it.name_len)?.checked_sub(it.text_len)
}
