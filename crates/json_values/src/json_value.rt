ghost use Rattle.std.specs.Prelude.{◌≡◌, ◌≤◌, ◌↔◌, IfOk, IsTrue, false, Some};
ghost use Rattle.serde_json.specs.Data.{null, boolean, number as number_data, string, array, object, unsigned, depth};
ghost use Rattle.serde_json.specs.Find.{of_integer, pointer as points_to};
ghost use Rattle.serde_json.specs.Read.{read, max_depth};
ghost use Rattle.serde_json.specs.View.{view, items_view, members_view};
ghost use Rattle.serde_json.specs.Written.{has_float, items_have_float, members_have_float, compact_text};
ghost use Rattle.json_values.specs.Whole.{whole};

use crate::text::Text;
use crate::whole::has_fraction;
use serde_json::{Map, Value};
use std::alloc::{AllocError, Global};
use std::fmt;
use std::marker::Model;

/// A JSON value in which no number is a fraction, seen by contracts as its data.
#[derive(Drop)]
pub struct Json {
    value: Value,
}

impl Model for Json {
    ghost use Rattle.serde_json.specs.Data.{Data};
    ghost use Rattle.json_values.specs.Codes.{coded_data};

    ghost Value = { Data };

    ghost coded = { coded_data };

    ghost use Rattle.std.specs.Prelude.{◌≡◌, false};
    ghost use Rattle.serde_json.specs.View.{view as data_of};
    ghost use Rattle.serde_json.specs.Written.{has_float};

    ghost view = { λ j. data_of j.value };

    ghost invariant = { λ j. has_float (data_of j.value) ≡ false };
}

impl Json {
    /// The value null.
    pub fn null() -> Json
        ensures { result ≡ null }
    {
        Json { value: Value::Null }
    }

    /// A truth value.
    pub fn boolean(truth: bool) -> Json
        ensures { result ≡ boolean truth }
    {
        Json {
            value: Value::Bool(truth),
        }
    }

    /// A whole number from 0 on.
    pub fn unsigned(number: u64) -> Json
        ensures { result ≡ number_data (unsigned number) }
    {
        Json {
            value: Value::from(number),
        }
    }

    /// A whole number.
    pub fn integer(whole: i64) -> Json
        ensures { result ≡ number_data (of_integer whole) }
    {
        Json {
            value: Value::from(whole),
        }
    }

    /// A string, with no new memory.
    pub fn string(text: Text) -> Json
        ensures { result ≡ string text }
    {
        Json {
            value: Value::String(text.into_string()),
        }
    }

    pub(crate) fn of_elements(elements: Vec<Value>) -> Json
        requires { items_have_float (items_view elements.items) ≡ false }
        ensures { result ≡ array (items_view elements.items) }
    {
        Json {
            value: Value::Array(elements),
        }
    }

    pub(crate) fn of_members(members: Map<String, Value>) -> Json
        requires { members_have_float (members_view members.entries) ≡ false }
        ensures { result ≡ object (members_view members.entries) }
    {
        Json {
            value: Value::Object(members),
        }
    }

    /// The value, where no number in it is a fraction. A number is none where it is a whole number of i64 or u64, written
    /// without a point or an exponent.
    pub fn new(value: Value) -> Option<Json>
        ensures { result ≡ whole (view value) }
    {
        if has_fraction(&value) {
            None
        } else {
            Some(Json { value })
        }
    }

    /// The value, lent: the look-ups of serde_json go on from it.
    pub fn as_value(&self) -> &Value
        ensures value { view result.now ≡ self.now }
        ensures whole { has_float self.now ≡ false }
    {
        &self.value
    }

    /// The value, with no new memory.
    pub fn into_value(self) -> Value
        ensures value { view result ≡ self }
        ensures whole { has_float self ≡ false }
    {
        let Json { value } = self;
        value
    }

    /// A copy of the place that a JSON Pointer (RFC 6901) leads to; `None` where it leads nowhere.
    pub fn pointer(&self, path: &str) -> Result<Option<Json>, AllocError>
        ensures { IfOk result (λ place. place ≡ points_to path.now self.now) }
    {
        match self.value.pointer(path) {
            Some(value) => Ok(Some(Json {
                value: value.clone()?,
            })),
            None => Ok(None),
        }
    }

    /// The text with no space, members in the byte order of their names.
    pub fn to_text(&self, alloc: Global) -> Result<Text, AllocError>
        ensures text { IfOk result (λ text. text ≡ compact_text self.now) }
        ensures reads_back { IfOk result (λ text. depth self.now ≤ max_depth
            → read text ≡ Some self.now) }
    {
        Ok(Text::from(self.value.to_string(alloc)?))
    }

    /// The bytes of that text.
    pub fn to_bytes(&self, alloc: Global) -> Result<Vec<u8>, AllocError>
        ensures text { IfOk result (λ bytes. bytes.items ≡ compact_text self.now) }
        ensures whole { has_float self.now ≡ false }
        ensures reads_back { IfOk result (λ bytes. depth self.now ≤ max_depth
            → read bytes.items ≡ Some self.now) }
    {
        self.value.to_vec(alloc)
    }

    /// Whether both have the same text with no space.
    pub fn has_text_of(&self, alloc: Global, other: &Json) -> Result<bool, AllocError>
        ensures { IfOk result (λ same. IsTrue same
            ↔ (compact_text self.now ≡ compact_text other.now)) }
    {
        let one = self.to_text(alloc)?;
        let another = other.to_text(alloc)?;
        Ok(one.as_str() == another.as_str())
    }

    /// A copy of the value, where there is one.
    pub fn clone_optional(value: &Option<Json>) -> Result<Option<Json>, AllocError>
        ensures { IfOk result (λ copy. copy ≡ value.now) }
    {
        match value {
            Some(value) => Ok(Some(value.clone()?)),
            None => Ok(None),
        }
    }
}

impl Clone for Json {
    ghost is_clone = { λ a b. b ≡ a };

    fn clone(&self) -> Result<Json, AllocError> {
        Ok(Json {
            value: self.value.clone()?,
        })
    }
}

impl fmt::Debug for Json {
    fn fmt<W: fmt::Write>(&self, f: &mut fmt::Formatter<W>) -> fmt::Result {
        let value = self.as_value();
        write!(f, "{value}")
    }
}
