//! The calls of one batch.

ghost use Rattle.std.specs.Prelude.{◌<◌, ◌+◌, ◌^◌, ⊤, length};
ghost use Rattle.connection_messages.specs.Texts.{call_texts};

use crate::outgoing::Outgoing;
use crate::texts::write_call;
use message_texts::Entries;
use std::alloc::{AllocError, Global};

/// Calls whose keys count up from the first.
#[derive(Drop)]
pub(crate) struct CallRow<'a> {
    pub(crate) first: u64,
    pub(crate) calls: &'a [Outgoing],
    ghost keys: { first + length calls.now < 2 ^ 64 },
}

impl Entries for CallRow<'_> {
    ghost texts = { λ row. call_texts row.first row.calls.now };

    ghost known = { λ row place. ⊤ };

    #[tactic(auto, using(crate::proofs::CallRows::length_call_texts))]
    fn len(&self) -> usize {
        self.calls.len()
    }

    #[tactic(auto, using(crate::proofs::CallRows::length_call_texts))]
    fn write_entry(
        &self,
        alloc: Global,
        bytes: &mut Vec<u8>,
        place: usize,
    ) -> Result<(), AllocError> {
        let key = self.first + place as u64;
        write_call(alloc, bytes, key, &self.calls[place])
    }
}
