//! What the connection's reading makes of what is read strictly. Each law is the contract of a function that does nothing.

ghost use Rattle.std.specs.Prelude.{◌≡◌, ℕ, List, Bool, true};
ghost use Rattle.connection_messages.specs.Reading as lenient;
ghost use Rattle.connection_messages.specs.declared.rules.Rules.{Rules};
ghost use Rattle.conversation_reading.specs.Strictly as strict;
ghost use Rattle.json.specs.Json.{Json as JsonValue};
ghost use Rattle.judge_laws.specs.Tied.{can_be_read, is_unit, is_answer, is_reply, is_well_call, is_call, has_known_id, may_be_call};

/// Both can read the same contents, by whatever rules.
pub fn unreadable_contents_are_tied()
    ensures { (rules : Rules) (foreign : Bool) (content : List ℕ) →
        can_be_read (strict.reading_of foreign content) ≡ is_unit (lenient.unit_of rules foreign content) }
{}

/// Of one value: what is an answer strictly, broken or not, is a reply to the connection, and nothing else is. What is a
/// request or a notification strictly is a call or a cancel to it, where it knows the id. What is a call or a cancel to it
/// is a request or a notification strictly, but for params that are null.
pub fn entries_are_tied()
    ensures replies { (rules : Rules) (j : JsonValue) →
        is_reply (lenient.entry_of rules j) ≡ is_answer (strict.entry_of j) }
    ensures calls { (rules : Rules) (j : JsonValue) → is_well_call (strict.entry_of j) ≡ true →
        has_known_id j ≡ true → is_call (lenient.entry_of rules j) ≡ true }
    ensures back { (rules : Rules) (j : JsonValue) → is_call (lenient.entry_of rules j) ≡ true →
        may_be_call (strict.entry_of j) ≡ true }
{}
