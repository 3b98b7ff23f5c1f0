//! Worked rows: a conversation that the laws of this crate speak of, and why they say no more. Each law is the
//! contract of a function that does nothing.

ghost use Rattle.std.specs.Prelude.{◌≡◌, ◌∷◌, ◌++◌, [], map, Some, None, true, false};
ghost use Rattle.connection.specs.BackToBack.{as_read, messages_of};
ghost use Rattle.connection_messages.specs.ReadBack.{reply_as_read};
ghost use Rattle.connection_history.specs.Events.{events_of};
ghost use Rattle.connection_history.specs.History.{answer_to, is_waiting, reply_to, stream, units_of};
ghost use Rattle.connection_history.specs.Stream.{first_reply};
ghost use Rattle.connection_history.specs.Told.{replies_told};
ghost use Rattle.connection_history.specs.declared.order.Order.TheVariants.{AsAnswered};
ghost use Rattle.call_laws.specs.Endings.{IsEnded, replied, caller_closed};
ghost use Rattle.call_laws.specs.Rows.{question, reply, request, response, asks, asks_and_hears, answers, hears_and_asks, answers_the_first, closes_first};
ghost use Rattle.call_laws.specs.Talks.{Talk, HasHeardAll};

/// One side asks, the other answers, and the answer is told.
pub fn a_request_and_its_response()
    ensures talk { Talk AsAnswered AsAnswered asks_and_hears answers }
    ensures all { HasHeardAll (messages_of AsAnswered answers) asks_and_hears }
    ensures ended { IsEnded 1 asks_and_hears (replied (reply_as_read reply)) }
    ensures told { replies_told 1 (events_of asks_and_hears) ≡ reply_as_read reply ∷ [] }
{}

/// Each side has heard just what the other said, all of it, and still the request waits: its response came before it
/// was made. So it isn't enough that both are joined at the end; they have to be at each moment.
pub fn a_response_before_its_request_is_ignored()
    ensures heard { units_of hears_and_asks ≡ map as_read (messages_of AsAnswered answers) }
    ensures asked { units_of answers ≡ map as_read (messages_of AsAnswered hears_and_asks) }
    ensures came { first_reply 1 (stream hears_and_asks) ≡ Some (reply_as_read reply) }
    ensures none { reply_to 1 hears_and_asks ≡ None }
    ensures waits { is_waiting 1 hears_and_asks ≡ true }
{}

/// A request of a batch that is answered has its answer said with those of the others, and not before. So it isn't
/// enough that the host answered.
pub fn an_answer_of_a_batch_waits_for_the_others()
    ensures given { answer_to 1 answers_the_first ≡ Some (Some reply) }
    ensures unsaid { messages_of AsAnswered answers_the_first ≡ [] }
{}

/// A response that comes after its caller was answered isn't told.
pub fn a_response_behind_its_callers_answer_is_ignored()
    ensures ended { IsEnded 1 closes_first caller_closed }
    ensures untold { replies_told 1 (events_of closes_first) ≡ [] }
{}
