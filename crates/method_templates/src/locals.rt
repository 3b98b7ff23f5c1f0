//! The registers of a method whose params are lent.

ghost use Rattle.std.specs.Prelude.{◌≡◌, ◌≤◌, codes, length, None, Some, [], OnOk, OnErr, IfOk, IfSome, IfNone, option_copied};
ghost use Rattle.serde_json.specs.Data.{Data, put};
ghost use Rattle.serde_json.specs.Find.{get_member};
ghost use Rattle.std.specs.List.{insert};
ghost use Rattle.method_templates.specs.Locals.{with_lent, only_params};
ghost use Rattle.method_templates.specs.Inner.Rows.{place_in};

use crate::name::Name;
use json_values::Json;
use std::alloc::{AllocError, Global};
use std::cmp::Ordering;
use std::marker::Model;
use std::mem;

/// A register.
#[derive(Drop)]
pub(crate) struct Row {
    pub(crate) name: Name,
    /// None for the value that is lent.
    pub(crate) value: Option<Json>,
}

/// Where a register stands.
#[derive(Clone, Copy)]
pub(crate) enum Place {
    At(usize),
    /// Nowhere: it would stand before this place.
    Before(usize),
}

/// The registers of a method under way, in the byte order of their names. Who reads them lends the value of `params`.
#[derive(Drop)]
pub struct Locals {
    rows: Vec<Row>,
    alloc: Global,
}

/// Registers for which there is room from the start.
const FIRST_ROOM: usize = 4;

/// Registers whose room is kept for the next method; a larger one is given back.
const MOST_KEPT: usize = 48;

impl Model for Locals {
    ghost use Rattle.std.specs.Prelude.{List};
    ghost use Rattle.std.specs.Coded.{codes};
    ghost use Rattle.json_values.specs.Codes.{coded_data};
    ghost use Rattle.method_templates.specs.declared.locals.Row.{Row};

    ghost Value = { List Row };

    ghost coded = { Prim.hlevel (codes, coded_data) };

    ghost view = { λ f. f.rows.items };
}

impl Locals {
    /// The registers as a method starts: `params` alone, which are lent.
    pub fn new(alloc: Global) -> Result<Locals, AllocError>
        ensures { IfOk result (λ locals. locals ≡ only_params) }
    {
        let mut rows = Vec::with_capacity(alloc, FIRST_ROOM)?;
        rows.push_reserved(params_row());
        Ok(Locals { rows, alloc })
    }

    /// The same again, in the room that there is.
    pub fn restart(&mut self) -> Result<(), AllocError>
        ensures ok { OnOk result (self.new ≡ only_params) }
        ensures err { OnErr result (self.new ≡ self.old) }
    {
        if self.rows.capacity() == 0 || self.rows.capacity() > MOST_KEPT {
            let rows = Vec::with_capacity(self.alloc, FIRST_ROOM)?;
            drop(mem::replace(&mut self.rows, rows));
        } else {
            self.rows.clear();
        }
        self.rows.push_reserved(params_row());
        Ok(())
    }

    /// Puts the value into the register; a value that it had gives way.
    pub fn set(&mut self, name: &str, value: Json) -> Result<(), AllocError>
        ensures ok { OnOk result ((lent : Data)
            → with_lent lent self.new ≡ put name.now value (with_lent lent self.old)) }
        ensures err { OnErr result (self.new ≡ self.old) }
    {
        match self.find(name.as_bytes()) {
            Place::At(place) => {
                drop(self.rows[place].value.replace(value));
                Ok(())
            }
            Place::Before(place) => self.insert(place, name, value),
        }
    }

    /// The value of a register, where it is set; the lent one of `params`.
    pub fn get<'a>(&'a self, lent: &'a Json, name: &str) -> Option<&'a Json>
        ensures { option_copied result ≡ get_member name.now (with_lent lent.now self.now) }
    {
        for row in &self.rows {
            if row.name.as_bytes() == name.as_bytes() {
                return match &row.value {
                    Some(value) => Some(value),
                    None => Some(lent),
                };
            }
        }
        None
    }

    /// Takes the value out of a register that has one of its own.
    pub fn take(&mut self, name: &str) -> Option<Json>
        ensures some { IfSome result (λ value. (lent : Data)
            → get_member name.now (with_lent lent self.old) ≡ Some value) }
        ensures none { IfNone result (self.new ≡ self.old) }
    {
        match self.find(name.as_bytes()) {
            Place::At(place) => self.rows[place].value.take(),
            Place::Before(_) => None,
        }
    }

    /// Forgets all registers. Their room stays.
    pub fn clear(&mut self)
        ensures { self.new ≡ [] }
    {
        self.rows.clear();
    }

    /// Where the register of that name is, or would be.
    fn find(&self, name: &[u8]) -> Place
        ensures { result ≡ place_in name.now self.now }
    {
        let mut place = 0;
        for row in &self.rows {
            match name.cmp(row.name.as_bytes()) {
                Ordering::Less => return Place::Before(place),
                Ordering::Equal => return Place::At(place),
                Ordering::Greater => place += 1,
            }
        }
        Place::Before(place)
    }

    /// Puts in a register that isn't set yet, before this place.
    fn insert(&mut self, place: usize, name: &str, value: Json) -> Result<(), AllocError>
        requires { place ≤ length self.old }
        ensures ok { OnOk result (self.new
            ≡ insert self.old place (record { name = name.now; value = Some value })) }
        ensures err { OnErr result (self.new ≡ self.old) }
    {
        match Name::copy_of(self.alloc, name) {
            Ok(name) => {
                let row = Row {
                    name,
                    value: Some(value),
                };
                Ok(self.rows.insert(place, row)?)
            }
            Err(error) => {
                drop(value);
                Err(error)
            }
        }
    }
}

/// The register `params`, whose value is lent.
fn params_row() -> Row
    ensures { result ≡ record { name = codes "params"; value = None } }
{
    Row {
        name: Name::short(b"params"),
        value: None,
    }
}
