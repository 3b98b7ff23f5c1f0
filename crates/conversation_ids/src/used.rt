ghost use Rattle.std.specs.Prelude.{◌≡◌, ◌<◌, ◌+◌, ◌-◌, ◌^◌, nat_lt, false, OnOk, OnErr, IfOk};
ghost use Rattle.conversation_rules.specs.Runs.{as_number, neighbours};
ghost use Rattle.conversation_rules.specs.Used.{none_used, place_of, is_used, has_whole, room, has_place, use_whole, use_text, use_odd, use_id, fills};

use crate::odd::is_among;
use crate::runs::Runs;
use conversation_reading::{Whole, WrittenId, whole_of};
use json_values::Text;
use std::alloc::{AllocError, Global};
use std::collections::BTreeSet;
use std::marker::Model;

/// Numbers that aren't whole are looked through, so that there are places for few.
const MOST_ODD: usize = 1_000;

/// The ids that a side's requests had. Numbers count by their value, as `1.0` and `1`, and null is no id that counts. A run of
/// whole numbers takes one place, however many they are, and so does each other id.
#[derive(Drop)]
pub struct UsedIds {
    most: u32,
    /// The whole numbers, by their place in their order.
    wholes: Runs,
    texts: BTreeSet<Text>,
    /// The numbers that aren't whole, or have a size from 2^64 on, as they are written.
    odd: Vec<Text>,
    /// Whether there was an id without a place.
    is_full: bool,
}

impl Model for UsedIds {
    ghost use Rattle.conversation_rules.specs.Used.{Used};

    ghost Value = { Used };

    ghost view = { λ s. record {
      most = s.most;
      runs = s.wholes;
      texts = s.texts.keys;
      odd = s.odd.items;
      is_full = s.is_full;
    } };
}

impl UsedIds {
    /// No ids, with places for so many. Takes no memory.
    pub fn new(alloc: Global, most: u32) -> UsedIds
        ensures { result ≡ none_used most }
    {
        UsedIds {
            most,
            wholes: Runs::new(alloc),
            texts: BTreeSet::new(alloc),
            odd: Vec::new(alloc),
            is_full: false,
        }
    }

    /// Whether there was an id without a place. None is kept from then on, so an id that isn't found may have been used.
    pub fn is_full(&self) -> bool
        ensures { result ≡ self.now.is_full }
    {
        self.is_full
    }

    /// Whether an id was used, by its value and its type. Null never was. It costs a logarithm, and for a number that isn't
    /// whole a look at each other one.
    pub fn contains(&self, id: &WrittenId) -> bool
        ensures { result ≡ is_used id.now self.now }
    {
        match id {
            WrittenId::Null => false,
            WrittenId::Text(text) => self.texts.contains(text),
            WrittenId::Number(number) => match whole_of(number.as_str()) {
                Some(whole) => self.wholes.contains(place_of(whole)),
                None => is_among(number.as_str(), self.odd.as_slice()),
            },
        }
    }

    /// How many places are taken.
    fn room(&self) -> u128
        ensures value { result ≡ room self.now }
        ensures bound { result < 2 ^ 66 }
    {
        self.wholes.len() as u128 + self.texts.len() as u128 + self.odd.len() as u128
    }

    fn has_place(&self) -> bool
        ensures { result ≡ has_place self.now }
    {
        self.room() < u128::from(self.most)
    }

    /// Whether there is no place for a whole number. With one of the two beside it it lengthens a run, and with both it joins
    /// two.
    fn is_too_many(&self, place: u128) -> bool
        requires positive { 0 < place }
        requires fits { place < 2 ^ 65 }
        ensures { result ≡ nat_lt self.now.most ((room self.now + 1) - neighbours place self.now.runs) }
    {
        let joined = as_number(self.wholes.contains(place - 1))
            + as_number(self.wholes.contains(place + 1));
        (self.room() + 1).saturating_sub(joined) > u128::from(self.most)
    }

    /// Keeps an id, and says whether it is the first for which there is no place. Where memory is refused nothing is changed.
    pub fn insert(&mut self, id: &WrittenId) -> Result<bool, AllocError>
        ensures fills { IfOk result (λ is_first. is_first ≡ fills id.now self.old) }
        ensures ok { OnOk result (self.new ≡ use_id id.now self.old) }
        ensures err { OnErr result (self.new ≡ self.old) }
    {
        if self.is_full || self.contains(id) {
            return Ok(false);
        }
        match id {
            WrittenId::Null => {}
            WrittenId::Text(text) => self.use_text(text)?,
            WrittenId::Number(number) => match whole_of(number.as_str()) {
                Some(whole) => self.use_whole(place_of(whole))?,
                None => self.use_odd(number)?,
            },
        }
        Ok(self.is_full)
    }

    fn use_whole(&mut self, place: u128) -> Result<(), AllocError>
        requires positive { 0 < place }
        requires fits { place < 2 ^ 65 }
        requires missing { has_whole place self.old ≡ false }
        ensures ok { OnOk result (self.new ≡ use_whole place self.old) }
        ensures err { OnErr result (self.new ≡ self.old) }
    {
        if self.is_too_many(place) {
            self.is_full = true;
        } else {
            self.wholes.insert(place)?;
        }
        Ok(())
    }

    fn use_text(&mut self, text: &Text) -> Result<(), AllocError>
        ensures ok { OnOk result (self.new ≡ use_text text.now self.old) }
        ensures err { OnErr result (self.new ≡ self.old) }
    {
        if self.has_place() {
            let copy = text.clone()?;
            self.texts.insert(copy)?;
        } else {
            self.is_full = true;
        }
        Ok(())
    }

    fn use_odd(&mut self, number: &Text) -> Result<(), AllocError>
        ensures ok { OnOk result (self.new ≡ use_odd number.now self.old) }
        ensures err { OnErr result (self.new ≡ self.old) }
    {
        if self.has_place() && self.odd.len() < MOST_ODD {
            let copy = number.clone()?;
            self.odd.push(copy)?;
        } else {
            self.is_full = true;
        }
        Ok(())
    }
}

/// A whole number's place in their order.
fn place_of(whole: Whole) -> u128
    ensures value { result ≡ place_of whole }
    ensures positive { 0 < result }
    ensures bound { result < 2 ^ 65 }
{
    let middle = u128::from(u64::MAX) + 1;
    if whole.minus {
        middle - u128::from(whole.size)
    } else {
        middle + u128::from(whole.size)
    }
}

fn as_number(is_there: bool) -> u128
    ensures { result ≡ as_number is_there }
{
    if is_there { 1 } else { 0 }
}
