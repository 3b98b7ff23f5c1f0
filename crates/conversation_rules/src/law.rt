//! What the definitions say of worked rows. Each law is the contract of a function that does nothing.

ghost use Rattle.std.specs.Prelude.{◌≡◌, ◌∷◌, [], List, ◌++◌, true, false, Some, None, IfSome, codes};
ghost use Rattle.json.specs.Json.{array, no_items, number};
ghost use Rattle.conversation_reading.specs.Rows.{id, message, method, outcome};
ghost use Rattle.conversation_reading.specs.declared.entry.WrittenId.{WrittenId};
ghost use Rattle.conversation_reading.specs.declared.entry.WrittenId.TheVariants.{Null, Text, Number};
ghost use Rattle.conversation_rules.specs.Amounts.{same_id, is_plain};
ghost use Rattle.content_streams.specs.declared.framing.Framing.{Framing};
ghost use Rattle.conversation_rules.specs.Judging.{Seen, findings_of, findings_from, state_of};
ghost use Rattle.conversation_rules.specs.declared.finding.Limits.{Limits as LimitsOf};
ghost use Rattle.conversation_rules.specs.declared.protocol.Protocol.{Protocol as ProtocolOf};
ghost use Rattle.conversation_rules.specs.Dues.{cancelled_in};
ghost use Rattle.conversation_rules.specs.Matching.{IsFor, takes, named_target, null_target, parse_error_target, batch_target};
ghost use Rattle.conversation_rules.specs.Owed.{Due, unreadable_due};
ghost use Rattle.conversation_rules.specs.declared.protocol.Protocol.TheVariants.{JsonRpc, Lsp, Mcp};
ghost use Rattle.conversation_rules.specs.declared.found.Target.TheVariants.{EntryOf, WholeOf};
ghost use Rattle.conversation_rules.specs.Rows.{request, old_request, null_request, null_call, request_without_params, text_request, must_be_answered, expected_of, single, huge, batch};

/// A single answer with an id that isn't null is for an entry that may have this id, by its value and its type; or for
/// nothing.
pub fn answers_are_for_their_id()
    ensures { (id : WrittenId) (dues : List Due) →
        IfSome (named_target id dues) (λ target. IsFor (takes id) dues target) }
{}

/// Findings only grow at the end: nothing that is seen later takes one back.
pub fn findings_only_grow()
    ensures { (protocol : ProtocolOf) (framing : Framing) (limits : LimitsOf) (seen more : List Seen) →
        findings_of protocol framing limits (seen ++ more)
        ≡ findings_of protocol framing limits seen ++ findings_from protocol (state_of protocol framing limits seen) more }
{}

/// What is owed on an entry.
pub fn owed_entries()
    ensures request { must_be_answered JsonRpc (request (codes "7")) ≡ true }
    ensures notification { expected_of (message (method ∷ [])) ≡ None }
    ensures answer { expected_of (message (id (codes "7") ∷ outcome ∷ [])) ≡ None }
    ensures null_id { must_be_answered JsonRpc null_request ≡ true }
    ensures null_id_in_lsp { must_be_answered Lsp null_request ≡ false }
    ensures null_id_in_mcp { must_be_answered Mcp null_request ≡ false }
    ensures odd_id { must_be_answered JsonRpc (request (codes "1.0")) ≡ false }
    ensures odd_id_is_refused { expected_of (request (codes "1.0")) ≡ Some (Some Null) }
    ensures invalid { expected_of (old_request (codes "7")) ≡ Some (Some Null) }
    ensures no_object { expected_of (array no_items) ≡ Some (Some Null) }
    ensures null_params { expected_of (request_without_params (codes "7")) ≡ Some (Some (Number (codes "7"))) }
    ensures null_params_may_be_left { must_be_answered JsonRpc (request_without_params (codes "7")) ≡ false }
    ensures broken_answer { expected_of (message (outcome ∷ [])) ≡ Some None }
{}

/// Ids are equal as values.
pub fn amounts()
    ensures fraction { same_id (Number (codes "1.0")) (Number (codes "1")) ≡ true }
    ensures power { same_id (Number (codes "-10e-1")) (Number (codes "-1")) ≡ true }
    ensures zero { same_id (Number (codes "-0")) (Number (codes "0")) ≡ true }
    ensures sign { same_id (Number (codes "-1")) (Number (codes "1")) ≡ false }
    ensures text { same_id (Text (codes "7")) (Number (codes "7")) ≡ false }
    ensures plain { is_plain (codes "18446744073709551615") ≡ true }
    ensures beyond { is_plain (codes "18446744073709551616") ≡ false }
    ensures least { is_plain (codes "-9223372036854775808") ≡ true }
    ensures minus_zero { is_plain (codes "-0") ≡ false }
{}

/// A single answer is for a single entry first, and for the oldest one.
pub fn single_answers()
    ensures oldest { named_target (Number (codes "7"))
        (single (request (codes "7")) ∷ single (request (codes "7")) ∷ []) ≡ Some (EntryOf 0 0) }
    ensures request_first { named_target (Number (codes "7"))
        (single (old_request (codes "7")) ∷ single (request (codes "7")) ∷ []) ≡ Some (EntryOf 1 0) }
    ensures must_first { named_target (Text (codes "7"))
        (cancelled_in true (Text (codes "7")) (single (text_request (codes "7")))
        ∷ single (text_request (codes "7")) ∷ []) ≡ Some (EntryOf 1 0) }
    ensures own_id { named_target (Number (codes "7")) (single (old_request (codes "7")) ∷ [])
        ≡ Some (EntryOf 0 0) }
    ensures batch_last { named_target (Number (codes "7"))
        (batch (request (codes "8")) (request (codes "7")) ∷ single (request (codes "7")) ∷ [])
        ≡ Some (EntryOf 1 0) }
    ensures in_a_batch { named_target (Number (codes "7"))
        (batch (request (codes "8")) (request (codes "7")) ∷ []) ≡ Some (EntryOf 0 1) }
    ensures another_type { named_target (Text (codes "7")) (single (request (codes "7")) ∷ []) ≡ None }
{}

/// An answer with the id null is for what its code says.
pub fn null_answers()
    ensures invalid { null_target true false
        (single (request (codes "7")) ∷ single (number (codes "1")) ∷ []) ≡ Some (EntryOf 1 0) }
    ensures request_is_named { null_target false false (single (request (codes "7")) ∷ []) ≡ None }
    ensures unreadable { parse_error_target false (unreadable_due 1 0 ∷ []) ≡ Some (WholeOf 0) }
    ensures named { parse_error_target false (single (old_request (codes "7")) ∷ []) ≡ Some (EntryOf 0 0) }
    ensures named_and_unsure { parse_error_target true (single (old_request (codes "7")) ∷ []) ≡ None }
    ensures unnamed { parse_error_target false (single (number (codes "1")) ∷ []) ≡ Some (EntryOf 0 0) }
    ensures null_call { parse_error_target false (single null_call ∷ []) ≡ Some (EntryOf 0 0) }
    ensures null_request_first { parse_error_target false
        (single (number (codes "1")) ∷ single null_request ∷ []) ≡ Some (EntryOf 1 0) }
    ensures unnamed_first { parse_error_target false
        (single (old_request (codes "7")) ∷ single (number (codes "1")) ∷ []) ≡ Some (EntryOf 1 0) }
    ensures huge_first { parse_error_target true
        (single (number (codes "1")) ∷ huge (request (codes "7")) ∷ []) ≡ None }
    ensures huge_stays { parse_error_target false (huge (request (codes "7")) ∷ []) ≡ None }
    ensures batch_stays { parse_error_target false (batch (request (codes "7")) null_request ∷ []) ≡ None }
    ensures in_a_batch { null_target true false (batch (request (codes "7")) null_request ∷ []) ≡ Some (EntryOf 0 1) }
    ensures in_a_batch_and_unsure { null_target true true (batch (request (codes "7")) null_request ∷ []) ≡ None }
    ensures may_be_null { null_target true false (single (request_without_params (codes "7")) ∷ []) ≡ Some (EntryOf 0 0) }
    ensures may_be_null_and_unsure { null_target true true (single (request_without_params (codes "7")) ∷ []) ≡ None }
{}

/// The answers in an array are for the batch from which just these ids are expected, else for one that they can answer.
pub fn answers_of_a_batch()
    ensures other_order { batch_target (Number (codes "8") ∷ Number (codes "7") ∷ []) 0
        (batch (request (codes "7")) (request (codes "8")) ∷ []) ≡ Some 0 }
    ensures second_first { batch_target (Number (codes "7") ∷ Number (codes "9") ∷ []) 0
        (batch (request (codes "7")) (request (codes "8"))
        ∷ batch (request (codes "7")) (request (codes "9")) ∷ []) ≡ Some 1 }
    ensures just_these { batch_target (Number (codes "7") ∷ Number (codes "8") ∷ []) 0
        (batch (request (codes "7")) (old_request (codes "8"))
        ∷ batch (request (codes "7")) (request (codes "8")) ∷ []) ≡ Some 1 }
    ensures must_first { batch_target (Text (codes "7") ∷ Null ∷ []) 0
        (cancelled_in true (Text (codes "7")) (batch (text_request (codes "7")) (number (codes "1")))
        ∷ batch (text_request (codes "7")) (number (codes "1")) ∷ []) ≡ Some 1 }
    ensures invalid_left_out { batch_target (Number (codes "5") ∷ []) 0
        (batch (number (codes "1")) (request (codes "5")) ∷ []) ≡ Some 0 }
    ensures one_is_missing { batch_target (Number (codes "7") ∷ []) 0
        (batch (request (codes "7")) (request (codes "8")) ∷ []) ≡ None }
    ensures one_is_unnamed { batch_target (Number (codes "7") ∷ []) 1
        (batch (request (codes "7")) (request (codes "8")) ∷ []) ≡ Some 0 }
    ensures one_too_many { batch_target (Number (codes "7") ∷ Number (codes "8") ∷ Number (codes "9") ∷ []) 0
        (batch (request (codes "7")) (request (codes "8")) ∷ []) ≡ None }
    ensures no_batch { batch_target (Number (codes "7") ∷ []) 0 (single (request (codes "7")) ∷ []) ≡ None }
{}
