//! Registers that hold their params themselves.

ghost use Rattle.std.specs.Prelude.{◌≡◌, codes, OnOk, OnErr, IfOk, option_copied};
ghost use Rattle.serde_json.specs.Data.{member, no_members, put};
ghost use Rattle.serde_json.specs.Find.{get_member};

use crate::locals::Locals;
use json_values::Json;
use std::alloc::{AllocError, Global};
use std::marker::Model;

/// A map from names to values, seen by contracts as the members of a JSON object, in the byte order of their names.
#[derive(Drop)]
pub struct Registers {
    pub(crate) locals: Locals,
    pub(crate) params: Json,
}

impl Model for Registers {
    ghost use Rattle.serde_json.specs.Data.{Members};
    ghost use Rattle.json_values.specs.Codes.{coded_members};
    ghost use Rattle.method_templates.specs.Locals.{with_lent};

    ghost Value = { Members };

    ghost coded = { coded_members };

    ghost view = { λ r. with_lent r.params r.locals };
}

impl Registers {
    /// The registers as a method starts: `params` alone.
    pub fn new(alloc: Global, params: Json) -> Result<Registers, AllocError>
        ensures { IfOk result (λ r. r ≡ member (codes "params") params no_members) }
    {
        match Locals::new(alloc) {
            Ok(locals) => Ok(Registers { locals, params }),
            Err(error) => {
                drop(params);
                Err(error)
            }
        }
    }

    /// Puts the value into the register; a value that it had gives way.
    pub fn set(&mut self, name: &str, value: Json) -> Result<(), AllocError>
        ensures ok { OnOk result (self.new ≡ put name.now value self.old) }
        ensures err { OnErr result (self.new ≡ self.old) }
    {
        self.locals.set(name, value)
    }

    /// The value of a register, where it is set.
    pub fn get(&self, name: &str) -> Option<&Json>
        ensures { option_copied result ≡ get_member name.now self.now }
    {
        self.locals.get(&self.params, name)
    }
}
