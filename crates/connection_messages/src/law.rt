//! What is written is read as what was said. Each law is the contract of a function that does nothing.

ghost use Rattle.std.specs.Prelude.{◌≡◌, ◌<◌, ◌≤◌, ◌+◌, ◌^◌, ℕ, List, [], ◌∷◌, Some, None, true, false, length, codes};
ghost use Rattle.json.specs.Json.{Items, null, array, no_items, item};
ghost use Rattle.message_ids.specs.declared.id.Id.{Id};
ghost use Rattle.message_ids.specs.declared.id.Id.TheVariants.{Unsigned};
ghost use Rattle.connection_messages.specs.Envelope.{cancels_by, item_count};
ghost use Rattle.connection_messages.specs.ReadBack.{IsSayable, AreSayable, call_as_read, calls_as_read, notice_as_read, IsId, IsAnswer, AreAnswers, answer_texts, answer_as_read, answers_as_read, IsLine};
ghost use Rattle.connection_messages.specs.Reading.{are_too_many, call_params, value_unit, unit_of};
ghost use Rattle.connection_messages.specs.Texts.{answer_text, batch_text, call_text, calls_text, notice_text, withdrawal_text};
ghost use Rattle.connection_messages.specs.declared.answer.Answer.{Answer};
ghost use Rattle.connection_messages.specs.declared.cancels.Cancels.{Cancels};
ghost use Rattle.connection_messages.specs.declared.entry.Entry.TheVariants.{Call, Cancel, Invalid};
ghost use Rattle.connection_messages.specs.declared.outgoing.Outgoing.{Outgoing};
ghost use Rattle.connection_messages.specs.declared.rules.Rules.{Rules};
ghost use Rattle.connection_messages.specs.declared.unit.Unit.TheVariants.{Single, Batch};

/// A call is read as that call, by whatever rules.
pub fn a_call_reads_back()
    ensures { (rules : Rules) (key : ℕ) (o : Outgoing) → key < 2 ^ 64 → IsSayable o →
        unit_of rules false (call_text key o) ≡ Single (Call (call_as_read key o)) }
{}

/// A batch of calls is read as those calls, in their order, where the reader takes so many entries.
pub fn a_batch_of_calls_reads_back()
    ensures { (rules : Rules) (first : ℕ) (o : Outgoing) (os : List Outgoing) →
        first + length (o ∷ os) ≤ 2 ^ 64 → are_too_many rules.most_entries (length (o ∷ os)) ≡ false →
        AreSayable (o ∷ os) →
        unit_of rules false (calls_text first (o ∷ os)) ≡ Batch (calls_as_read first (o ∷ os)) }
{}

/// A notification is read as that notification, where its method isn't that of the cancels that the reader tells apart.
pub fn a_notification_reads_back()
    ensures { (rules : Rules) (o : Outgoing) → IsSayable o → cancels_by rules.cancels o.method ≡ None →
        unit_of rules false (notice_text o) ≡ Single (Call (notice_as_read o)) }
{}

/// A withdrawal is read as a cancel of that call by a reader with the same cancels.
pub fn a_withdrawal_reads_back()
    ensures { (rules : Rules) (by : Cancels) (key : ℕ) → rules.cancels ≡ Some by → key < 2 ^ 64 →
        unit_of rules false (withdrawal_text by key) ≡ Single (Cancel (Unsigned key)) }
{}

/// An answer is read as the reply to the call whose key its id is. With any other id it is stray.
pub fn an_answer_reads_back()
    ensures { (rules : Rules) (id : Id) (a : Answer) → IsId id → IsAnswer a →
        unit_of rules false (answer_text id a) ≡ Single (answer_as_read id a) }
{}

/// The answers of a batch are read as those replies, in their order, where the reader takes so many entries.
pub fn a_batch_of_answers_reads_back()
    ensures { (rules : Rules) (a : Id × Answer) (more : List (Id × Answer)) →
        are_too_many rules.most_entries (length (a ∷ more)) ≡ false → AreAnswers (a ∷ more) →
        unit_of rules false (batch_text (answer_texts (a ∷ more))) ≡ Batch (answers_as_read (a ∷ more)) }
{}

/// No text that goes out has a line feed.
pub fn each_text_is_one_line()
    ensures call { (key : ℕ) (o : Outgoing) → key < 2 ^ 64 → IsSayable o → IsLine (call_text key o) }
    ensures calls { (first : ℕ) (os : List Outgoing) → first + length os ≤ 2 ^ 64 → AreSayable os →
        IsLine (calls_text first os) }
    ensures notice { (o : Outgoing) → IsSayable o → IsLine (notice_text o) }
    ensures withdrawal { (by : Cancels) (key : ℕ) → key < 2 ^ 64 → IsLine (withdrawal_text by key) }
    ensures answer { (id : Id) (a : Answer) → IsId id → IsAnswer a → IsLine (answer_text id a) }
    ensures answers { (all : List (Id × Answer)) → AreAnswers all → IsLine (batch_text (answer_texts all)) }
{}

/// An array of no more values than a batch may have is read as if there were no limit.
pub fn a_batch_within_the_limit_is_read_as_without_one()
    ensures { (rules : Rules) (most : ℕ) (js : Items) → item_count js ≤ most →
        value_unit (record rules { most_entries = Some most }) (array js)
        ≡ value_unit (record rules { most_entries = None }) (array js) }
{}

/// Worked rows. Where a batch may have two entries, one of two is a batch, and one of three is a single invalid entry. Params
/// that are null are none, or are told as null.
pub fn rules_worked()
    ensures two { value_unit (record { cancels = None; most_entries = Some 2; null_params = false })
        (array (item null (item null no_items))) ≡ Batch (Invalid ∷ Invalid ∷ []) }
    ensures three { value_unit (record { cancels = None; most_entries = Some 2; null_params = false })
        (array (item null (item null (item null no_items)))) ≡ Single Invalid }
    ensures none { value_unit (record { cancels = None; most_entries = Some 0; null_params = false })
        (array no_items) ≡ Single Invalid }
    ensures unlimited { value_unit (record { cancels = None; most_entries = None; null_params = false })
        (array (item null (item null (item null no_items)))) ≡ Batch (Invalid ∷ Invalid ∷ Invalid ∷ []) }
    ensures null_is_none { call_params false (Some null) ≡ Some None }
    ensures null_is_told { call_params true (Some null) ≡ Some (Some (codes "null")) }
{}
