//! What holds of outputs and of partial ones. Each law is the contract of a function that does nothing.

ghost use Rattle.std.specs.Prelude.{◌≡◌, ◌↔◌, ℕ, List, [], ◌∷◌, ◌++◌, map, All};
ghost use Rattle.rpc_messages.specs.declared.reply.Reply.TheVariants.{Standard};
ghost use Rattle.message_ids.specs.declared.standard.Standard.TheVariants.{MethodNotFound};
ghost use Rattle.rpc_messages.specs.Dues.{Due, dues};
ghost use Rattle.rpc_messages.specs.Replies.{entries_along};
ghost use Rattle.rpc_messages.specs.Unit.{SeenUnit};
ghost use Rattle.method_steps.specs.Steps.{MethodTable};
ghost use Rattle.peer_output.specs.Course.{Sending, Course};
ghost use Rattle.peer_output.specs.Cancelled.{Begins, IsCancelledCourse};
ghost use Rattle.peer_output.specs.Items.{Item, sent, answered, sent_by, answers_in};
ghost use Rattle.peer_output.specs.Output.{Choice, due_answers, AnswersFollow, IsOutputOf, IsPartialOutputOf, IsOutput, IsPartialOutput};

/// Before anything was written, that is a partial output, whatever has come.
pub fn nothing_is_a_partial_output()
    ensures { (table : MethodTable) (units : List SeenUnit) → IsPartialOutput table units [] }
{}

/// An output is a partial one.
pub fn output_is_a_partial_output()
    ensures { (table : MethodTable) (units : List SeenUnit) (items : List Item) →
        IsOutput table units items → IsPartialOutput table units items }
{}

/// A partial output that lacks no answer and no sending is an output.
pub fn partial_output_that_lacks_nothing()
    ensures { (choice : Choice) (units : List SeenUnit) (items : List Item) →
        IsPartialOutputOf choice units items →
        answers_in items ≡ due_answers choice units →
        ((n : ℕ) → sent_by n items ≡ (choice n).sends) →
        IsOutputOf choice units items }
{}

/// A front of a partial output is one.
pub fn fronts_are_partial_outputs()
    ensures { (choice : Choice) (units : List SeenUnit) (front rest : List Item) →
        IsPartialOutputOf choice units (front ++ rest) → IsPartialOutputOf choice units front }
{}

/// Where no cancel reaches anything, any two outputs have the same answers in the same order, and the same sendings of
/// each number.
pub fn without_cancels_the_parts_are_determined()
    ensures { (table : MethodTable) (units : List SeenUnit) (these others : List Item) →
        ((n : ℕ) (c : Course) → IsCancelledCourse table (entries_along units) n c → ⊥) →
        IsOutput table units these → IsOutput table units others →
        (answers_in these ≡ answers_in others) × ((n : ℕ) → sent_by n these ≡ sent_by n others) }
{}

/// In an output that each answer has before it all that its requests' courses send says the same as that its requests send
/// nothing behind it.
pub fn answers_stand_behind_all_sendings()
    ensures { (choice : Choice) (items : List Item) →
        ((n : ℕ) → sent_by n items ≡ (choice n).sends) →
        AnswersFollow choice items ↔
        ((before after : List Item) (due : Due) → items ≡ before ++ answered due ∷ after →
        All (λ n. sent_by n after ≡ []) due.requests) }
{}

/// What a number's course sends next may be written next.
pub fn sending_is_appended()
    ensures { (choice : Choice) (units : List SeenUnit) (items : List Item) (n : ℕ) (s : Sending) →
        IsPartialOutputOf choice units items →
        Begins (sent_by n items ++ s ∷ []) (choice n).sends →
        IsPartialOutputOf choice units (items ++ sent n s ∷ []) }
{}

/// The answer that is due next may be written next, once all is written that its requests' courses send.
pub fn answer_is_appended()
    ensures { (choice : Choice) (units : List SeenUnit) (items : List Item) (due : Due) →
        IsPartialOutputOf choice units items →
        Begins (answers_in items ++ due ∷ []) (due_answers choice units) →
        All (λ n. sent_by n items ≡ (choice n).sends) due.requests →
        IsPartialOutputOf choice units (items ++ answered due ∷ []) }
{}

/// A peer without methods writes the answers that are due and nothing else: each request is answered `Method not found`.
pub fn without_methods_the_answers_are_all()
    ensures output { (units : List SeenUnit) →
        IsOutput (record { opening = []; methods = [] }) units
        (map answered (dues (λ n. Standard MethodNotFound) 1 units)) }
    ensures parts { (units : List SeenUnit) (items : List Item) →
        IsOutput (record { opening = []; methods = [] }) units items →
        (answers_in items ≡ dues (λ n. Standard MethodNotFound) 1 units)
        × ((n : ℕ) → sent_by n items ≡ []) }
{}
