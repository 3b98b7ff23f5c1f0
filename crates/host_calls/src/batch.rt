//! The host calls the other side several times.

ghost use Rattle.std.specs.Prelude.{◌≡◌, ◌<◌, ◌↔◌, ◌∷◌, IsTrue, IfOk, IfErr, IsUtf8, MatchOption, length};
ghost use Rattle.host_calls.specs.Batches.{fit, parts, AreTexts, AreOutgoings, AreNoOutgoings};
ghost use Rattle.host_calls.specs.Saying.{HasCalledAll, HasCalledParts};

use crate::code::Why;
use crate::outlet::Outlet;
use crate::part::Part;
use crate::saying::has_call;
use crate::texts::outgoing_of;
use connection::{Outgoing, Refused};
use json_texts::TextReader;
use std::alloc::Global;

impl Outlet {
    /// Calls the other side several times; `bytes` are the methods and params, cut by the lengths.
    pub fn call_batch(
        &mut self,
        number: u64,
        bytes: &[u8],
        lengths: &[usize],
        first: &mut u64,
    ) -> Result<(), Why>
        ensures { HasCalledAll self.old self.new number bytes.now lengths.now first.old first.new result }
    {
        if !lengths_fit(bytes, lengths) {
            return Err(Why::Settings);
        }
        self.call_parts(number, bytes, lengths, first)
    }

    /// Calls the other side several times; the first bytes are the methods and params, cut by the lengths.
    pub(crate) fn call_parts(
        &mut self,
        number: u64,
        bytes: &[u8],
        lengths: &[usize],
        first: &mut u64,
    ) -> Result<(), Why>
        ensures { HasCalledParts self.old self.new number (parts bytes.now lengths.now) first.old first.new result }
    {
        if !has_call(&self.connection, number) {
            return Err(Why::Refused(Refused::NotOpen));
        }
        let outgoings = read_calls(self.alloc, &mut self.reader, bytes, lengths)?;
        *first = self.connection.call_batch(number, &outgoings)?;
        Ok(())
    }
}

/// The calls of a batch. A method that isn't text is told before params that aren't JSON, over all calls.
fn read_calls(
    alloc: Global,
    reader: &mut TextReader,
    bytes: &[u8],
    lengths: &[usize],
) -> Result<Vec<Outgoing>, Why>
    ensures ok { IfOk result (λ outgoings. AreOutgoings (parts bytes.now lengths.now) outgoings.items) }
    ensures err { IfErr result (λ why. AreNoOutgoings (parts bytes.now lengths.now) why) }
{
    if !are_texts(bytes, lengths) {
        return Err(Why::NotText);
    }
    let mut outgoings = Vec::new(alloc);
    let mut rest = bytes;
    let mut left = lengths;
    while let Some((method, params, behind)) = next_lengths(left) {
        let part = Part::cut(rest, method, params);
        let outgoing = outgoing_of(alloc, reader, part.name, part.text)?;
        if outgoings.push(outgoing).is_err() {
            return Err(Why::Refused(Refused::Memory));
        }
        rest = part.behind;
        left = behind;
    }
    Ok(outgoings)
}

/// Whether the lengths are two for each call, and their sum is that of the bytes.
fn lengths_fit(bytes: &[u8], lengths: &[usize]) -> bool
    ensures { result ≡ fit bytes.now lengths.now }
{
    let mut rest = bytes.len();
    let mut left = lengths;
    while let [length, behind @ ..] = left {
        match rest.checked_sub(*length) {
            Some(more) => rest = more,
            None => return false,
        }
        left = behind;
    }
    lengths.len() % 2 == 0 && rest == 0
}

/// Whether each method is UTF-8.
fn are_texts(bytes: &[u8], lengths: &[usize]) -> bool
    ensures { IsTrue result ↔ AreTexts (parts bytes.now lengths.now) }
{
    let mut rest = bytes;
    let mut left = lengths;
    while let Some((method, params, behind)) = next_lengths(left) {
        let part = Part::cut(rest, method, params);
        if !is_text(part.name) {
            return false;
        }
        rest = part.behind;
        left = behind;
    }
    true
}

fn is_text(bytes: &[u8]) -> bool
    ensures { IsTrue result ↔ IsUtf8 bytes.now }
{
    simdutf8::compat::from_utf8(bytes).is_ok()
}

/// The lengths of the next call, and those behind them.
fn next_lengths(lengths: &[usize]) -> Option<(usize, usize, &[usize])>
    ensures { MatchOption result
        (length lengths.now < 2)
        (λ next. lengths.now ≡ next.0 ∷ next.1 ∷ next.2.now) }
{
    match lengths {
        [method, params, behind @ ..] => Some((*method, *params, behind)),
        _ => None,
    }
}
