ghost use Rattle.std.specs.Prelude.{◌≡◌, IfOk, OnOk, OnErr};
ghost use Rattle.serde_json.specs.Data.{object, no_members, put};

use crate::json_value::Json;
use crate::text::Text;
use serde_json::{Map, Value};
use std::alloc::{AllocError, Global};
use std::marker::Model;

/// An object under way, seen by contracts as its members, in the byte order of their names.
#[derive(Drop)]
pub struct JsonObject {
    members: Map<String, Value>,
}

impl Model for JsonObject {
    ghost use Rattle.serde_json.specs.Data.{Members};
    ghost use Rattle.json_values.specs.Codes.{coded_members};

    ghost Value = { Members };

    ghost coded = { coded_members };

    ghost use Rattle.std.specs.Prelude.{◌≡◌, false};
    ghost use Rattle.serde_json.specs.View.{members_view};
    ghost use Rattle.serde_json.specs.Written.{members_have_float};

    ghost view = { λ o. members_view o.members.entries };

    ghost invariant = { λ o. members_have_float (members_view o.members.entries) ≡ false };
}

impl JsonObject {
    /// An object without members.
    pub fn new(alloc: Global) -> JsonObject
        ensures { result ≡ no_members }
    {
        JsonObject {
            members: Map::new(alloc),
        }
    }

    /// Puts the member in; a member of that name gives way to it.
    pub fn insert(&mut self, name: Text, value: Json) -> Result<(), AllocError>
        ensures ok { OnOk result (self.new ≡ put name value self.old) }
        ensures err { OnErr result (self.new ≡ self.old) }
    {
        drop(self.members.insert(name.into_string(), value.into_value())?);
        Ok(())
    }

    /// The object with the member, under a copy of the name.
    pub fn with(self, alloc: Global, name: &str, value: Json) -> Result<JsonObject, AllocError>
        ensures { IfOk result (λ object. object ≡ put name.now value self) }
    {
        let mut object = self;
        object.insert(Text::copy_of(alloc, name)?, value)?;
        Ok(object)
    }

    /// The object, with no new memory.
    pub fn finish(self) -> Json
        ensures { result ≡ object self }
    {
        Json::of_members(self.members)
    }
}
