//! What holds of each history. Each law is the contract of a function that does nothing.

ghost use Rattle.std.specs.Prelude.{◌≡◌, ◌≢◌, ◌≤◌, ◌<◌, ◌+◌, ◌^◌, ◌-◌, ◌↔◌, ◌⊎◌, ℕ, List, [], ◌∷◌, ◌++◌, Bool, true, false, map, length, slice_get, Option, Some, None, if◌then◌else◌, unwrap_or};
ghost use Rattle.std.specs.Option.{option_to_list};
ghost use Rattle.std.specs.List.Sorted.{IsStrictlyIncreasing};
ghost use Rattle.connection_messages.specs.declared.answer.Answer.{Answer};
ghost use Rattle.message_ids.specs.declared.id.Id.{Id};
ghost use Rattle.connection_messages.specs.declared.cancels.Cancels.{Cancels};
ghost use Rattle.connection_messages.specs.declared.cancels.Cancels.TheVariants.{Lsp, Mcp};
ghost use Rattle.connection_messages.specs.declared.entry.Entry.{Entry};
ghost use Rattle.connection_messages.specs.declared.call.Call.{Call};
ghost use Rattle.connection_messages.specs.declared.outgoing.Outgoing.{Outgoing};
ghost use Rattle.connection_messages.specs.declared.reply.Reply.{Reply};
ghost use Rattle.connection_messages.specs.declared.unit.Unit.{Unit};
ghost use Rattle.connection_history.specs.declared.close.Close.{Close};
ghost use Rattle.connection_history.specs.declared.event.Event.{Event};
ghost use Rattle.connection_history.specs.declared.event.Event.TheVariants.{Over, Broken};
ghost use Rattle.connection_history.specs.declared.order.Order.{Order};
ghost use Rattle.connection_history.specs.declared.order.Order.TheVariants.{AsAnswered, AsCame};
ghost use Rattle.connection_history.specs.Stream.{calls_in, entries_in, first_reply, is_cancelled, request_id};
ghost use Rattle.connection_history.specs.History.{Origin, Happening, came, called, called_all, noticed, withdrew, answered, ended, History, stream, is_open, is_given_up, is_waiting, is_withdrawn, is_over, answer_to, caller_of, key_count, reply_to, numbers_to};
ghost use Rattle.connection_history.specs.Refusals.{IsLawful, most_keys, refusal};
ghost use Rattle.connection_history.specs.Events.{broken_in, events_at, events_of, events_of_entry, call_count};
ghost use Rattle.connection_history.specs.Answers.{dues, open_yet, text};
ghost use Rattle.connection_history.specs.Items.{Item, answer, items_of, out, text_if_due};
ghost use Rattle.connection_history.specs.Told.{calls_told, numbered, replies_told, unanswered_told, cancels_told, cancelled_in, unanswered_in, broken_told, without_broken, broken_of, plain_at, plain, AtMost, IsLeft, IsTold, ReachedBy};
ghost use Rattle.connection_history.specs.Written.{said_in, said_of, answers_of, places_in, GoesOutAfter};

/// What was told and what was written stays: more that happens only adds at the end.
pub fn what_is_told_and_written_only_grows()
    ensures told { (more : List Happening) (past : History) →
        (events : List Event) × (events_of (more ++ past) ≡ events_of past ++ events) }
    ensures written { (order : Order) (more : List Happening) (past : History) →
        (items : List Item) × (items_of order (more ++ past) ≡ items_of order past ++ items) }
{}

/// Each call is told once, with its number, just as it came, in the order of the stream.
pub fn each_call_is_told_once()
    ensures { (history : History) →
        calls_told (events_of history) ≡ numbered 1 (calls_in (stream history)) }
{}

/// A reply that is told is the first with its key that came after the call, and is told once. It is told where the call
/// waits for it. A call that is made waits. One that waits when the input ends is told to have no reply, once.
pub fn a_reply_is_told_once()
    ensures first { (history : History) (key : ℕ) →
        AtMost (replies_told key (events_of history)) (reply_to key history) }
    ensures made { (past : History) (happening : Happening) (key number : ℕ) →
        key_count past < key → caller_of key (happening ∷ past) ≡ Some number →
        is_open number past ≡ true → is_over past ≡ false → is_waiting key (happening ∷ past) ≡ true }
    ensures waiting { (past : History) (origin : Option Origin) (unit : Unit) (key : ℕ) (reply : Reply) →
        is_waiting key past ≡ true → first_reply key (entries_in unit) ≡ Some reply →
        replies_told key (events_at past (came origin unit)) ≡ reply ∷ [] }
    ensures not_waiting { (cancels : Option Cancels) (past : History) (happening : Happening) (key : ℕ) →
        IsLawful cancels past → is_waiting key past ≡ false → replies_told key (events_at past happening) ≡ [] }
    ensures ended { (past : History) (close : Close) (key : ℕ) →
        unanswered_told key (events_at past (ended close)) ≡ (if is_waiting key past then 1 else 0) }
    ensures unanswered { (history : History) (key : ℕ) → is_over history ≡ false →
        unanswered_told key (events_of history) ≡ 0 }
{}

/// A cancel is told exactly where it reaches an open request with its id that came before it, and once for each request.
/// No cancel of an answered request is told.
pub fn a_cancel_is_told_where_it_reaches()
    ensures once { (history : History) (number : ℕ) → cancels_told number (events_of history) ≤ 1 }
    ensures reached { (past : History) (origin : Option Origin) (unit : Unit) (number : ℕ) →
        (cancels_told number (events_at past (came origin unit)) ≡ 1) ↔ ReachedBy past unit number }
    ensures open { (history : History) (number : ℕ) → 0 < number → is_open number history ≡ true →
        cancels_told number (events_of history)
        ≡ (if is_cancelled number (stream history) then 1 else 0) }
    ensures cancelled { (history : History) (number : ℕ) →
        0 < cancels_told number (events_of history) → is_cancelled number (stream history) ≡ true }
    ensures answered { (past : History) (happening : Happening) (number : ℕ) (given : Option Answer) →
        answer_to number past ≡ Some given → cancels_told number (events_at past happening) ≡ 0 }
{}

/// A unit whose requests are all answered has its one text once, with the answers that the host gave; no other unit has
/// any. What is out stays out.
pub fn each_unit_has_its_answer_once()
    ensures { (order : Order) (history : History) (place : ℕ) →
        answers_of place (items_of order history)
        ≡ option_to_list (unwrap_or (slice_get (out order (dues history)) place) None) }
{}

/// What is said is written once, in its order. A unit's answer stands after all that was said before its last request was
/// answered.
pub fn what_is_said_is_written_once()
    ensures said { (order : Order) (history : History) →
        said_in (items_of order history) ≡ said_of history }
    ensures answers { (order : Order) (history : History) (front rest : List Item) (place : ℕ)
        (text : List ℕ) → items_of order history ≡ front ++ answer place text ∷ rest →
        GoesOutAfter history front place text }
{}

/// As they came, the answers go out in the order of their units.
pub fn answers_go_out_as_they_came()
    ensures { (history : History) → IsStrictlyIncreasing (places_in (items_of AsCame history)) }
{}

/// Where no call is open, nothing is owed: each unit that has an answer has it.
pub fn nothing_is_owed_where_nothing_is_open()
    ensures out { (order : Order) (history : History) →
        ((number : ℕ) → 0 < number → is_open number history ≡ false) →
        out order (dues history) ≡ map text_if_due (dues history) }
    ensures none_open { (history : History) (place : ℕ) →
        ((number : ℕ) → 0 < number → is_open number history ≡ false) →
        slice_get (dues history) place ≢ Some open_yet }
{}

/// As answered, a unit's answer is out once all of its requests are answered. As they came, it is out once no unit up to it
/// is open, and not before.
pub fn an_answer_goes_out_as_soon_as_it_may()
    ensures as_answered { (history : History) (place : ℕ) (answer : List ℕ) →
        slice_get (dues history) place ≡ Some (text answer) →
        answers_of place (items_of AsAnswered history) ≡ answer ∷ [] }
    ensures as_came { (history : History) (place : ℕ) (answer : List ℕ) →
        slice_get (dues history) place ≡ Some (text answer) →
        ((earlier : ℕ) → earlier < place → slice_get (dues history) earlier ≢ Some open_yet) →
        answers_of place (items_of AsCame history) ≡ answer ∷ [] }
    ensures not_before { (history : History) (place earlier : ℕ) → earlier ≤ place →
        slice_get (dues history) earlier ≡ Some open_yet →
        answers_of place (items_of AsCame history) ≡ [] }
{}

/// Nothing is told after the end. The calls of ours that are told to have no reply go up, and so do the requests that one
/// cancel reaches.
pub fn the_end_is_told_last()
    ensures last { (cancels : Option Cancels) (history : History) (front rest : List Event)
        (close : Close) → IsLawful cancels history → events_of history ≡ front ++ Over close ∷ rest →
        rest ≡ [] }
    ensures unanswered { (cancels : Option Cancels) (history : History) → IsLawful cancels history →
        IsStrictlyIncreasing (unanswered_in (events_of history)) }
    ensures cancelled { (history : History) (entry : Entry) →
        IsStrictlyIncreasing (cancelled_in (events_of_entry history entry)) }
{}

/// A request that isn't open is answered, or needs no answer: MCP's cancel of it came, and the host closed it with none. No
/// other call is closed without an answer.
pub fn each_request_is_answered_or_was_cancelled()
    ensures request { (cancels : Option Cancels) (history : History) (number : ℕ) (id : Id) →
        IsLawful cancels history → request_id number (stream history) ≡ Some id →
        is_open number history ≡ false →
        ((given : Answer) × (answer_to number history ≡ Some (Some given))) ⊎ IsLeft cancels number history }
    ensures left { (cancels : Option Cancels) (history : History) (number : ℕ) →
        IsLawful cancels history → answer_to number history ≡ Some None → IsLeft cancels number history }
{}

/// A call of ours that is withdrawn by LSP's cancel still waits. By MCP's it is given up, for good: neither a reply to it is
/// told, nor that there is none.
pub fn a_call_that_was_given_up_is_told_nothing_of()
    ensures lsp { (past : History) (key : ℕ) →
        is_waiting key (withdrew Lsp key ∷ past) ≡ is_waiting key past }
    ensures mcp { (past : History) (key : ℕ) → is_waiting key past ≡ true →
        is_given_up key (withdrew Mcp key ∷ past) ≡ true }
    ensures stays { (past : History) (happening : Happening) (key : ℕ) →
        is_given_up key past ≡ true → is_given_up key (happening ∷ past) ≡ true }
    ensures reply { (past : History) (happening : Happening) (key : ℕ) →
        is_given_up key past ≡ true → replies_told key (events_at past happening) ≡ [] }
    ensures unanswered { (past : History) (happening : Happening) (key : ℕ) →
        is_given_up key past ≡ true → unanswered_told key (events_at past happening) ≡ 0 }
{}

/// Where broken input is told, each broken content is told once, in front of what else its unit tells. Nothing else changes
/// with it: what is told without these events, what is written and what is refused is the same.
pub fn broken_input_is_told_once()
    ensures once { (history : History) → broken_told (events_of history) ≡ broken_of history }
    ensures front { (past : History) (origin : Option Origin) (unit : Unit) →
        events_at past (came origin unit)
        ≡ map Broken (broken_in origin unit) ++ events_at past (came None unit) }
    ensures told { (history : History) → without_broken (events_of history) ≡ events_of (plain history) }
    ensures written { (order : Order) (history : History) →
        items_of order (plain history) ≡ items_of order history }
    ensures refused { (cancels : Option Cancels) (past : History) (happening : Happening) →
        refusal cancels (plain past) (plain_at happening) ≡ refusal cancels past happening }
{}

/// A host that keeps the rules is refused only for memory. An answer is taken to each call that was told and isn't answered,
/// and a notification always. A call is taken on behalf of such a call or of the host itself, while the input goes on and
/// there are keys; that the input is over may be told later. A withdrawal is taken of each call that waits; that its reply
/// came may be told later.
pub fn what_the_rules_allow_is_not_refused()
    ensures told { (history : History) (told : List Event) (number : ℕ) (call : Call) →
        IsTold history told number call → answer_to number history ≡ None →
        is_open number history ≡ true }
    ensures answer { (cancels : Option Cancels) (history : History) (told : List Event) (number : ℕ)
        (call : Call) (given : Answer) → IsTold history told number call →
        answer_to number history ≡ None →
        refusal cancels history (answered number (Some given)) ≡ None }
    ensures notice { (cancels : Option Cancels) (history : History) (outgoing : Outgoing) →
        refusal cancels history (noticed outgoing) ≡ None }
    ensures call { (cancels : Option Cancels) (history : History) (number : ℕ) (outgoing : Outgoing) →
        is_open number history ≡ true → is_over history ≡ false →
        key_count history + 1 ≤ most_keys →
        refusal cancels history (called number outgoing) ≡ None }
    ensures batch { (cancels : Option Cancels) (history : History) (number : ℕ)
        (outgoings : List Outgoing) → is_open number history ≡ true → is_over history ≡ false →
        0 < length outgoings → key_count history + length outgoings ≤ most_keys →
        refusal cancels history (called_all number outgoings) ≡ None }
    ensures withdrawal { (cancels : Cancels) (history : History) (key : ℕ) →
        is_waiting key history ≡ true → is_withdrawn key history ≡ false →
        refusal (Some cancels) history (withdrew cancels key) ≡ None }
{}

/// The greatest key, in figures.
pub fn limits_of_keys_in_figures()
    ensures { most_keys ≡ 9007199254740991 }
{}
