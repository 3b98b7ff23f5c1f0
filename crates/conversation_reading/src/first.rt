ghost use Rattle.std.specs.Prelude.{◌≡◌, IfOk};

use crate::entry::WrittenId;
use json_values::Text;
use std::alloc::{AllocError, Global};
use std::marker::Model;

/// What an entry says by the first of each of its members. It lies apart, since few entries have one: all of them are moved
/// as they are read, and kept while they are open.
#[derive(Debug, Drop)]
pub struct First {
    said: Box<Said>,
}

#[derive(Debug, Drop)]
struct Said {
    id: Option<WrittenId>,
    method: Option<Text>,
    target: Option<WrittenId>,
}

impl Model for First {
    ghost use Rattle.conversation_reading.specs.First.{First as FirstValue};

    ghost Value = { FirstValue };

    ghost view = { λ f. record {
      id = f.said.value.id;
      method = f.said.value.method;
      target = f.said.value.target;
    } };
}

impl First {
    pub(crate) fn new(
        alloc: Global,
        id: Option<WrittenId>,
        method: Option<Text>,
        target: Option<WrittenId>,
    ) -> Result<First, AllocError>
        ensures { IfOk result (λ first. first ≡ record { id = id; method = method; target = target }) }
    {
        let said = Said { id, method, target };
        Ok(First {
            said: Box::new(alloc, said)?,
        })
    }

    /// The id, where it can be read.
    pub fn id(&self) -> &Option<WrittenId>
        ensures { result.now ≡ self.now.id }
    {
        &self.said.id
    }

    /// The method, where it is a string.
    pub fn method(&self) -> &Option<Text>
        ensures { result.now ≡ self.now.method }
    {
        &self.said.method
    }

    /// The id that it cancels.
    pub fn target(&self) -> &Option<WrittenId>
        ensures { result.now ≡ self.now.target }
    {
        &self.said.target
    }
}
