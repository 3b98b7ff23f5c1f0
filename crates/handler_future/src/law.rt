//! What holds of evaluations, whatever handler there is. Each law is the contract of a function that does nothing.

ghost use Rattle.std.specs.Prelude.{◌≡◌, ℕ, ◌<◌, ◌≤◌, ◌++◌, List, Bool, All, length, nat_lt};
ghost use Rattle.method_templates.specs.Steps.{AreWithinLimits, calls_of};
ghost use Rattle.handler_future.specs.declared.message.Message.{Message};
ghost use Rattle.handler_future.specs.Evaluation.{Replies, Program, evaluation};
ghost use Rattle.handler_future.specs.Front.{Heard, AgreesWith, HasTurnsUpTo, is_heard, until_waiting, front};

/// Where two maps give the same replies to all turns below one, the messages are the same up to and including the first
/// that holds that turn or a later one.
pub fn earlier_replies_decide()
    ensures { (program : Program) (turn : ℕ) (these others : Replies) →
        ((t : ℕ) → t < turn → these t ≡ others t) →
        until_waiting (λ t. nat_lt t turn) (evaluation these program).messages
        ≡ until_waiting (λ t. nat_lt t turn) (evaluation others program).messages }
{}

/// The front of what was heard is the same under every map that agrees with it.
pub fn front_is_the_same_under_every_map()
    ensures { (program : Program) (heard : Heard) (replies : Replies) → AgreesWith heard replies →
        until_waiting (is_heard heard) (evaluation replies program).messages ≡ front program heard }
{}

/// The messages up to the first that waits begin all messages.
pub fn front_begins_the_messages()
    ensures { (is_known : ℕ → Bool) (messages : List Message) →
        (rest : List Message) × (messages ≡ until_waiting is_known messages ++ rest) }
{}

/// No batch of calls in an evaluation is empty, and all turns lie in 1 to the number of calls that the steps make at most.
pub fn turns_lie_within_the_calls()
    ensures { (program : Program) (replies : Replies) → AreWithinLimits program.steps →
        All (HasTurnsUpTo (calls_of program.steps)) (evaluation replies program).messages }
{}

/// A step sends at most one message, and no step is carried out twice: so an evaluation has at most as many messages as there
/// are steps.
pub fn messages_are_at_most_the_steps()
    ensures { (program : Program) (replies : Replies) →
        length (evaluation replies program).messages ≤ length program.steps }
{}
