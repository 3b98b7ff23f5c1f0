//! The table of methods.

ghost use Rattle.std.specs.Prelude.{◌≡◌, ◌≢◌, ◌<◌, ◌≤◌, [], length, Ok, Err, Some, None, IfOk, IfErr, IfSome, option_map};
ghost use Rattle.toml.specs.Data.{no_items};
ghost use Rattle.toml.specs.View.{items_view, table_view};
ghost use Rattle.table_reading.specs.Fault.{in_document};
ghost use Rattle.table_reading.specs.Judged.{first_of, steps_fault};
ghost use Rattle.method_steps.specs.Judged.{methods_fault, fault_of_document};
ghost use Rattle.table_reading.specs.Made.{steps_from};
ghost use Rattle.method_steps.specs.Made.{document_of, table_of, made_of, methods_from};
ghost use Rattle.method_templates.specs.Steps.{AreWithinLimits, calls_of};
ghost use Rattle.method_steps.specs.Steps.{place_of, shared_steps, steps_at, calls_at, unless_empty};

use crate::methods::{methods_of, opening_of, places_of};
use json_values::Text;
use method_templates::{MOST_CALLS, MOST_METHODS, MOST_STEPS, Step};
use std::alloc::Global;
use std::collections::BTreeMap;
use std::marker::Model;
use std::sync::Arc;
use table_reading::{
    Entry, FaultKind, TableFault, Version, count_of, has_only, in_document, tables_at, version_of,
};
use toml::Value;

/// A method: its name, and its steps, which handlers share.
#[derive(Drop)]
pub(crate) struct Method {
    pub(crate) name: Text,
    pub(crate) steps: Arc<Vec<Step>>,
    /// How many calls a run of it makes at most.
    pub(crate) calls: u32,
}

/// The methods of a server and its opening, the steps that run as it starts. Seen by contracts as the opening's steps and the
/// list of the methods' names and steps.
pub struct Table {
    /// Where it has steps.
    opening: Option<Arc<Vec<Step>>>,
    methods: Vec<Method>,
    /// The place in `methods` of each name.
    places: BTreeMap<String, u32>,
}

// Written out, so that whoever drops one makes a call, and knows nothing of what is in it.
impl Drop for Table {
    fn drop(self) {
        let Table {
            opening,
            methods,
            places,
        } = self;
        drop(opening);
        drop(methods);
        drop(places);
    }
}

impl Model for Table {
    ghost use Rattle.std.specs.Coded.{codes};
    ghost use Rattle.json_values.specs.Codes.{coded_data};
    ghost use Rattle.method_templates.specs.Shape.{coded_shape};
    ghost use Rattle.method_steps.specs.Steps.{MethodTable};

    ghost Value = { MethodTable };

    ghost coded = { Prim.hlevel (codes, coded_data, coded_shape) };

    ghost use Rattle.method_steps.specs.Inner.Methods.{table_seen, IsIndexed, IsOpening};

    ghost view = { λ t. table_seen t.opening t.methods.items };

    ghost invariant = { λ t. (IsIndexed t.methods.items t.places) × (IsOpening t.opening) };
}

impl Table {
    /// The table that a text in TOML stands for, or its first fault: why it stands for none, and where. A refused growth is
    /// answered `Memory`.
    pub fn read(alloc: Global, bytes: &[u8]) -> Result<Table, TableFault>
        ensures ok { IfOk result (λ table. table_of bytes.now ≡ Ok table) }
        ensures refused { IfErr result (λ fault. fault ≢ in_document FaultKind.Memory
            → table_of bytes.now ≡ Err fault) }
    {
        let top = document_of(alloc, bytes)?;
        match version_of(&top) {
            Some(version) => Table::of_document(alloc, version, &top),
            None => Err(in_document(FaultKind::Version)),
        }
    }

    /// The table of a document of that version, or its first fault.
    fn of_document(alloc: Global, version: Version, top: &toml::Table) -> Result<Table, TableFault>
        ensures ok { IfOk result (λ table. (table ≡ made_of (table_view top.now))
            × (fault_of_document version (table_view top.now) ≡ None)) }
        ensures refused { IfErr result (λ fault. fault ≢ in_document FaultKind.Memory
            → fault_of_document version (table_view top.now) ≡ Some fault) }
    {
        if !has_only(Entry::Document(version), top) {
            return Err(in_document(FaultKind::Field));
        }
        let (Some(opening), Some(methods)) = (tables_at(top, "opening"), tables_at(top, "method"))
        else {
            return Err(in_document(FaultKind::Field));
        };
        if count_of(methods) > MOST_METHODS || count_of(opening) > MOST_STEPS {
            return Err(in_document(FaultKind::Limit));
        }
        Table::of_lists(alloc, version, opening, methods)
    }

    /// The table of an opening's steps and of methods, or their first fault.
    fn of_lists(
        alloc: Global,
        version: Version,
        opening: &[Value],
        methods: &[Value],
    ) -> Result<Table, TableFault>
        requires opening { length opening.now ≤ MOST_STEPS }
        requires methods { length methods.now ≤ MOST_METHODS }
        ensures ok { IfOk result (λ table. (table ≡ record {
          opening = steps_from (items_view opening.now);
          methods = methods_from (items_view methods.now);
        })
            × (first_of (steps_fault version 0 no_items (items_view opening.now))
            (methods_fault version no_items (items_view methods.now)) ≡ None)) }
        ensures refused { IfErr result (λ fault. fault ≢ in_document FaultKind.Memory
            → first_of (steps_fault version 0 no_items (items_view opening.now))
            (methods_fault version no_items (items_view methods.now)) ≡ Some fault) }
    {
        let opening = opening_of(alloc, version, opening)?;
        let methods = methods_of(alloc, version, methods)?;
        let places = places_of(alloc, &methods)?;
        Ok(Table {
            opening,
            methods,
            places,
        })
    }

    /// No opening and no methods. Takes no memory.
    pub fn empty(alloc: Global) -> Table
        ensures { result ≡ record { opening = []; methods = [] } }
    {
        Table {
            opening: None,
            methods: Vec::new(alloc),
            places: BTreeMap::new(alloc),
        }
    }

    /// The steps that run as the peer starts, where there are any.
    pub fn opening_steps(&self) -> Option<&Arc<Vec<Step>>>
        ensures steps { option_map (λ steps. shared_steps steps.now) result
            ≡ unless_empty self.now.opening }
        ensures limits { IfSome result (λ steps. AreWithinLimits (shared_steps steps.now)) }
    {
        self.opening.as_ref()
    }

    /// How many calls a run of the opening makes at most; 0 where there is none.
    pub fn opening_most(&self) -> u32
        ensures number { result ≡ calls_of self.now.opening }
        ensures few { result ≤ MOST_CALLS }
    {
        match self.opening_steps() {
            Some(steps) => calls_of(steps.as_slice()),
            None => 0,
        }
    }

    /// How many methods there are. The opening isn't counted.
    pub fn len(&self) -> u32
        ensures number { result ≡ length self.now.methods }
        ensures few { result ≤ MOST_METHODS }
    {
        self.methods.len() as u32
    }

    /// The place of the method with that name.
    pub fn find(&self, name: &str) -> Option<u32>
        ensures place { result ≡ place_of name.now self.now.methods }
        ensures below_len { IfSome result (λ place. place < length self.now.methods) }
    {
        self.places.get(name).copied()
    }

    /// The steps of a method; none at `len` and above.
    pub fn steps(&self, method: u32) -> Option<&Arc<Vec<Step>>>
        ensures steps { option_map (λ steps. shared_steps steps.now) result
            ≡ steps_at self.now.methods method }
        ensures limits { IfSome result (λ steps. AreWithinLimits (shared_steps steps.now)) }
    {
        match self.methods.get(method as usize) {
            Some(method) => Some(&method.steps),
            None => None,
        }
    }

    /// How many calls a run of the method makes at most; 0 at `len` and above.
    pub fn calls_most(&self, method: u32) -> u32
        ensures number { result ≡ calls_at self.now.methods method }
        ensures few { result ≤ MOST_CALLS }
    {
        match self.methods.get(method as usize) {
            Some(method) => method.calls,
            None => 0,
        }
    }
}

/// The document that the bytes are.
fn document_of(alloc: Global, bytes: &[u8]) -> Result<toml::Table, TableFault>
    ensures ok { IfOk result (λ top. document_of bytes.now ≡ Some (table_view top)) }
    ensures refused { IfErr result (λ fault. fault ≢ in_document FaultKind.Memory
        → (document_of bytes.now ≡ None) × (fault ≡ in_document FaultKind.NotToml)) }
{
    match toml::table_from_slice(alloc, bytes) {
        Ok(top) => Ok(top),
        Err(error) => {
            if error.is_memory() {
                Err(in_document(FaultKind::Memory))
            } else {
                Err(in_document(FaultKind::NotToml))
            }
        }
    }
}

/// The calls of the steps of a method.
pub(crate) fn calls_of(steps: &[Step]) -> u32
    requires { AreWithinLimits steps.now }
    ensures { result ≡ calls_of steps.now }
{
    let mut calls = 0;
    for step in steps {
        calls += step.calls();
    }
    calls
}
