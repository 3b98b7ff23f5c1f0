ghost use Rattle.std.specs.Prelude.{◌≡◌, ◌∷◌, [], ◌++◌, OnOk, OnErr};
ghost use Rattle.serde_json.specs.Data.{array};
ghost use Rattle.serde_json.specs.View.{items_of};

use crate::json_value::Json;
use serde_json::Value;
use std::alloc::{AllocError, Global};
use std::marker::Model;

/// An array under way, seen by contracts as the list of its elements' data.
#[derive(Drop)]
pub struct JsonArray {
    elements: Vec<Value>,
}

impl Model for JsonArray {
    ghost use Rattle.std.specs.Prelude.{List};
    ghost use Rattle.std.specs.Coded.{coded_list};
    ghost use Rattle.serde_json.specs.Data.{Data};
    ghost use Rattle.json_values.specs.Codes.{coded_data};

    ghost Value = { List Data };

    ghost coded = { coded_list coded_data };

    ghost use Rattle.std.specs.Prelude.{◌≡◌, false, map};
    ghost use Rattle.serde_json.specs.View.{view as data_of, items_of};
    ghost use Rattle.serde_json.specs.Written.{items_have_float};

    ghost view = { λ a. map data_of a.elements.items };

    ghost invariant = { λ a. items_have_float (items_of (map data_of a.elements.items)) ≡ false };
}

impl JsonArray {
    /// An array without elements.
    pub fn new(alloc: Global) -> JsonArray
        ensures { result ≡ [] }
    {
        JsonArray {
            elements: Vec::new(alloc),
        }
    }

    /// Puts an element at the end.
    pub fn push(&mut self, element: Json) -> Result<(), AllocError>
        ensures ok { OnOk result (self.new ≡ self.old ++ element ∷ []) }
        ensures err { OnErr result (self.new ≡ self.old) }
    {
        self.elements.push(element.into_value())?;
        Ok(())
    }

    /// The array, with no new memory.
    pub fn finish(self) -> Json
        ensures { result ≡ array (items_of self) }
    {
        Json::of_elements(self.elements)
    }
}
