//! What a connection writes breaks no rule of a content or of an entry by itself. Each law is the contract of a
//! function that does nothing.

ghost use Rattle.std.specs.Prelude.{◌<◌, ◌≤◌, ◌+◌, ◌^◌, ℕ, List, ◌∷◌, false, length, map};
ghost use Rattle.connection_messages.specs.ReadBack.{IsSayable, AreSayable, IsId, IsAnswer, AreAnswers, answer_texts};
ghost use Rattle.connection_messages.specs.Texts.{call_text, calls_text, notice_text, withdrawal_text, answer_text, batch_text};
ghost use Rattle.connection_messages.specs.declared.answer.Answer.{Answer};
ghost use Rattle.connection_messages.specs.declared.cancels.Cancels.{Cancels};
ghost use Rattle.connection_messages.specs.declared.outgoing.Outgoing.{Outgoing};
ghost use Rattle.conversation_reading.specs.Strictly.{reading_of};
ghost use Rattle.conversation_reading.specs.declared.entry.Kind.TheVariants as kinds;
ghost use Rattle.message_ids.specs.declared.id.Id.{Id};
ghost use Rattle.judge_laws.specs.Messages.{IsMessage, AreMessages, IsKeyed, AreKeyed, HasNoId, written_as, HasId, HaveIds, code_of, HasCode};

/// A call is read strictly as a request, and a batch of calls as requests.
pub fn calls_read_as_messages()
    ensures single { (key : ℕ) (o : Outgoing) → key < 2 ^ 64 → IsSayable o →
        IsMessage kinds.Request (reading_of false (call_text key o)) }
    ensures batch { (first : ℕ) (o : Outgoing) (os : List Outgoing) → first + length (o ∷ os) ≤ 2 ^ 64 →
        AreSayable (o ∷ os) → AreMessages kinds.Request (reading_of false (calls_text first (o ∷ os))) }
{}

/// The id of a call is read strictly as its key, in decimal digits; those of a batch count up.
pub fn calls_have_their_keys()
    ensures single { (key : ℕ) (o : Outgoing) → key < 2 ^ 64 → IsSayable o →
        IsKeyed key (reading_of false (call_text key o)) }
    ensures batch { (first : ℕ) (o : Outgoing) (os : List Outgoing) → first + length (o ∷ os) ≤ 2 ^ 64 →
        AreSayable (o ∷ os) → AreKeyed first (length (o ∷ os)) (reading_of false (calls_text first (o ∷ os))) }
{}

/// A notification is read strictly as one.
pub fn notifications_read_as_messages()
    ensures { (o : Outgoing) → IsSayable o → IsMessage kinds.Notification (reading_of false (notice_text o)) }
{}

/// A notification and a withdrawal are read strictly as entries without an id.
pub fn notifications_have_no_ids()
    ensures notice { (o : Outgoing) → IsSayable o → HasNoId (reading_of false (notice_text o)) }
    ensures withdrawal { (by : Cancels) (key : ℕ) → key < 2 ^ 64 →
        HasNoId (reading_of false (withdrawal_text by key)) }
{}

/// A withdrawal is read strictly as a notification.
pub fn withdrawals_read_as_messages()
    ensures { (by : Cancels) (key : ℕ) → key < 2 ^ 64 →
        IsMessage kinds.Notification (reading_of false (withdrawal_text by key)) }
{}

/// An answer is read strictly as one, and those of a batch as answers.
pub fn answers_read_as_messages()
    ensures single { (id : Id) (a : Answer) → IsId id → IsAnswer a →
        IsMessage kinds.Answer (reading_of false (answer_text id a)) }
    ensures batch { (a : Id × Answer) (more : List (Id × Answer)) → AreAnswers (a ∷ more) →
        AreMessages kinds.Answer (reading_of false (batch_text (answer_texts (a ∷ more)))) }
{}

/// The id of an answer is read strictly as the one that it was said with; those of a batch are so too, in their order.
pub fn answers_have_their_ids()
    ensures single { (id : Id) (a : Answer) → IsId id → IsAnswer a →
        HasId (written_as id) (reading_of false (answer_text id a)) }
    ensures batch { (a : Id × Answer) (more : List (Id × Answer)) → AreAnswers (a ∷ more) →
        HaveIds (map (λ b. written_as b.0) (a ∷ more)) (reading_of false (batch_text (answer_texts (a ∷ more)))) }
{}

/// The code of an answer's error is read strictly as the one that it was said with; a result has none.
pub fn answers_have_their_codes()
    ensures { (id : Id) (a : Answer) → IsId id → IsAnswer a →
        HasCode (code_of a) (reading_of false (answer_text id a)) }
{}
