//! What stands in one array: calls, answers, or texts.

ghost use Rattle.std.specs.Prelude.{◌≡◌, ◌≤◌, ◌+◌, ⊤, get_or, length, map};
ghost use Rattle.serde_json.specs.Written.{compact_text};
ghost use Rattle.rpc_messages.specs.Dues.{answer_seen, text_of};
ghost use Rattle.rpc_messages.specs.Parts.{AreReadBack};
ghost use Rattle.rpc_messages.specs.Texts.{calls_of};
ghost use Rattle.rpc_messages.specs.declared.outgoing.Outgoing.{Outgoing as Said};
ghost use Rattle.rpc_messages.specs.declared.key.TheConstants.{MOST_TURNS};

use crate::our_calls::put_one_call;
use crate::outgoing::Outgoing;
use crate::unit_answer::{Answer, put_one_answer};
use message_texts::Entries;
use std::alloc::{AllocError, Global};

/// Calls of one handler, whose turns count up from the first.
#[derive(Drop)]
pub(crate) struct CallRow<'a> {
    pub(crate) number: u32,
    pub(crate) first: u32,
    pub(crate) calls: &'a [Outgoing],
    ghost turns: { first + length calls.now ≤ MOST_TURNS + 1 },
}

impl Entries for CallRow<'_> {
    ghost texts = { λ row. map compact_text (calls_of row.number row.first row.calls.now) };

    ghost known = { λ row place. (o : Said) → o ≡ get_or row.calls.now place o → AreReadBack o.params };

    #[tactic(auto, using(crate::proofs::Placed::length_calls))]
    fn len(&self) -> usize {
        self.calls.len()
    }

    #[tactic(auto, using(crate::proofs::Placed::length_calls))]
    fn write_entry(
        &self,
        alloc: Global,
        bytes: &mut Vec<u8>,
        place: usize,
    ) -> Result<(), AllocError> {
        let turn = self.first + place as u32;
        put_one_call(alloc, bytes, self.number, turn, &self.calls[place])
    }
}

/// The answers of a batch.
#[derive(Drop)]
pub(crate) struct AnswerRow<'a, 'b> {
    pub(crate) answers: &'a [Answer<'b>],
}

impl Entries for AnswerRow<'_, '_> {
    ghost texts = { λ row. map text_of (map answer_seen row.answers.now) };

    ghost known = { λ row place. ⊤ };

    #[tactic(auto, using(crate::proofs::Placed::length_answers))]
    fn len(&self) -> usize {
        self.answers.len()
    }

    #[tactic(auto, using(crate::proofs::Placed::length_answers))]
    fn write_entry(
        &self,
        alloc: Global,
        bytes: &mut Vec<u8>,
        place: usize,
    ) -> Result<(), AllocError> {
        put_one_answer(alloc, bytes, &self.answers[place])
    }
}

/// Texts as they are.
#[derive(Drop)]
pub(crate) struct TextRow<'a> {
    pub(crate) texts: &'a [Vec<u8>],
}

impl Entries for TextRow<'_> {
    ghost texts = { λ row. map (λ text. text.items) row.texts.now };

    ghost known = { λ row place. ⊤ };

    #[tactic(auto, using(crate::proofs::Placed::length_texts))]
    fn len(&self) -> usize {
        self.texts.len()
    }

    #[tactic(auto, using(crate::proofs::Placed::length_texts))]
    fn write_entry(
        &self,
        alloc: Global,
        bytes: &mut Vec<u8>,
        place: usize,
    ) -> Result<(), AllocError> {
        bytes.extend_from_slice(&self.texts[place])
    }
}
