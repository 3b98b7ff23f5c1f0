//! The texts of messages are made of their parts, as a connection's are: both peers write the same text for the same answer.

ghost use Rattle.std.specs.Prelude.{◌≡◌, ◌<◌, ◌^◌, ℕ, codes, option_map};
ghost use Rattle.serde_json.specs.Data.{Data};
ghost use Rattle.serde_json.specs.Written.{compact_text};
ghost use Rattle.message_ids.specs.declared.id.Id.{Id};
ghost use Rattle.message_ids.specs.declared.standard.Standard.{Standard as FixedError};
ghost use Rattle.message_texts.specs.Texts.{call_text, error_answer_text, error_text, fixed_error_text, notice_text, result_text, withdrawal_text};
ghost use Rattle.message_texts.specs.declared.keys.CallKey.TheVariants.{Pair};
ghost use Rattle.rpc_messages.specs.Texts.{answer_text_of, call_text_of, notice_text_of, withdraw_text_of};
ghost use Rattle.rpc_messages.specs.declared.error_value.ErrorValue.{ErrorValue};
ghost use Rattle.rpc_messages.specs.declared.outgoing.Outgoing.{Outgoing};
ghost use Rattle.rpc_messages.specs.declared.reply.Reply.TheVariants.{Done, Error, Standard};

/// The text of each message is that of its parts, as message_texts defines it.
pub fn each_text_is_of_its_parts()
    ensures result { (id : Id) (d : Data) → answer_text_of id (Done d) ≡ result_text id (compact_text d) }
    ensures error { (id : Id) (e : ErrorValue) → answer_text_of id (Error e) ≡
        error_answer_text id (error_text e.code e.message (option_map compact_text e.extra)) }
    ensures fixed { (id : Id) (s : FixedError) → answer_text_of id (Standard s) ≡
        error_answer_text id (fixed_error_text s) }
    ensures call { (n t : ℕ) (o : Outgoing) → n < 2 ^ 64 → t < 2 ^ 64 → call_text_of n t o ≡
        call_text (Pair n t) o.method (option_map compact_text o.params) }
    ensures notice { (o : Outgoing) → notice_text_of o ≡
        notice_text o.method (option_map compact_text o.params) }
    ensures withdrawal { (n t : ℕ) → n < 2 ^ 64 → t < 2 ^ 64 → withdraw_text_of n t ≡
        withdrawal_text (codes "$/cancelRequest") (codes "id") (Pair n t) }
{}
