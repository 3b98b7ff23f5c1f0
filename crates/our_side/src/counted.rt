//! What a content asks, and answers, as worked rows. The law is the contract of a function that does nothing.

ghost use Rattle.std.specs.Prelude.{◌≡◌, ◌∷◌, [], codes};
ghost use Rattle.json.specs.Json.{number};
ghost use Rattle.conversation_reading.specs.Strictly.{value_reading};
ghost use Rattle.conversation_reading.specs.declared.entry.WrittenId.TheVariants.{Null, Number};
ghost use Rattle.conversation_reading.specs.declared.reading.Reading.TheVariants.{NotJson};
ghost use Rattle.conversation_rules.specs.Rows.{request, null_request, request_without_params, notification, answer, null_answer, array_of};
ghost use Rattle.our_side.specs.Asked.{alone, together, under_null, asked_by, answered_by};

/// A request asks its id, with params that are null too; one whose id isn't plain, or null, what is invalid, `[]` and
/// what can't be read ask for an answer under null; a batch asks its ids together, in any order, and none alone, and may
/// be answered under null too; a notification asks nothing.
pub fn contents_ask()
    ensures single { asked_by (alone (Number (codes "7"))) (value_reading (request (codes "7"))) ≡ 1 }
    ensures other { asked_by (alone (Number (codes "8"))) (value_reading (request (codes "7"))) ≡ 0 }
    ensures null_params { asked_by (alone (Number (codes "7"))) (value_reading (request_without_params (codes "7"))) ≡ 1 }
    ensures odd { asked_by under_null (value_reading (request (codes "7.0"))) ≡ 1 }
    ensures null_id { asked_by under_null (value_reading null_request) ≡ 1 }
    ensures invalid { asked_by under_null (value_reading (number (codes "7"))) ≡ 1 }
    ensures empty { asked_by under_null (value_reading (array_of [])) ≡ 1 }
    ensures unreadable { asked_by under_null NotJson ≡ 1 }
    ensures named { asked_by under_null (value_reading (request (codes "7"))) ≡ 0 }
    ensures refused_whole { asked_by under_null (value_reading (array_of (request (codes "7") ∷ []))) ≡ 1 }
    ensures batch { asked_by (together (Number (codes "8") ∷ Number (codes "7") ∷ []))
        (value_reading (array_of (request (codes "7") ∷ request (codes "8") ∷ []))) ≡ 1 }
    ensures with_others { asked_by (together (Null ∷ Number (codes "7") ∷ []))
        (value_reading (array_of (request (codes "7") ∷ notification (codes "a") ∷ number (codes "1") ∷ []))) ≡ 1 }
    ensures fewer { asked_by (together (Number (codes "7") ∷ []))
        (value_reading (array_of (request (codes "7") ∷ request (codes "7") ∷ []))) ≡ 0 }
    ensures not_alone { asked_by (alone (Number (codes "7"))) (value_reading (array_of (request (codes "7") ∷ []))) ≡ 0 }
    ensures notified { asked_by under_null (value_reading (notification (codes "a"))) ≡ 0 }
{}

/// A single answer answers its id, null too; an array answers its ids together, in any order, and counts as one that is
/// under null.
pub fn contents_answer()
    ensures single { answered_by (alone (Number (codes "7"))) (value_reading (answer (codes "7"))) ≡ 1 }
    ensures asking { answered_by (alone (Number (codes "7"))) (value_reading (request (codes "7"))) ≡ 0 }
    ensures unreadable { answered_by under_null (value_reading (null_answer (codes "-32700"))) ≡ 1 }
    ensures invalid { answered_by under_null (value_reading (null_answer (codes "-32600"))) ≡ 1 }
    ensures named { answered_by under_null (value_reading (answer (codes "7"))) ≡ 0 }
    ensures whole_batch { answered_by under_null (value_reading (array_of (answer (codes "7") ∷ []))) ≡ 1 }
    ensures array { answered_by (together (Number (codes "8") ∷ Number (codes "7") ∷ []))
        (value_reading (array_of (answer (codes "7") ∷ answer (codes "8") ∷ []))) ≡ 1 }
    ensures not_alone { answered_by (alone (Number (codes "7"))) (value_reading (array_of (answer (codes "7") ∷ []))) ≡ 0 }
{}
