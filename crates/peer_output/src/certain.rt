//! What is certain of a number while its stream goes on. Each law is the contract of a function that does nothing.

ghost use Rattle.std.specs.Option.{option_map_or};
ghost use Rattle.std.specs.Prelude.{◌<◌, ◌||◌, ◌≡◌, ◌≤◌, ℕ, List, [], ◌∷◌, ◌++◌, map, filter, Bool, true, false, Some};
ghost use Rattle.rpc_messages.specs.declared.reply.Reply.{Reply};
ghost use Rattle.rpc_messages.specs.declared.reply.Reply.TheVariants.{Standard as Fixed};
ghost use Rattle.message_ids.specs.declared.standard.Standard.{Standard};
ghost use Rattle.message_ids.specs.declared.standard.Standard.TheVariants.{Cancelled};
ghost use Rattle.rpc_messages.specs.Entry.{SeenEntry};
ghost use Rattle.rpc_messages.specs.Numbering.{numbers_in};
ghost use Rattle.rpc_messages.specs.Replies.{reply_to, replies};
ghost use Rattle.method_steps.specs.Steps.{MethodTable};
ghost use Rattle.handler_future.specs.Front.{Heard, last_turns};
ghost use Rattle.handler_future.specs.State.{HandlerState, IsWaiting, HasEnded, HasFailed};
ghost use Rattle.handler_future.specs.declared.message.Message.{Message};
ghost use Rattle.handler_future.specs.Evaluation.{Program};
ghost use Rattle.peer_output.specs.Work.{fault, run, work};
ghost use Rattle.peer_output.specs.Course.{Sending, message, withdrawal, Course, silent};
ghost use Rattle.peer_output.specs.Cancelled.{Begins, cancels, is_cancelled, request_id};
ghost use Rattle.peer_output.specs.Later.{MayBecome, IsUnderWay, IsFinished, IsHeardFrom};

/// More entries change neither the work of a call that has come, nor the reply that has come to one of its own calls; and
/// a request that a cancel has reached stays reached.
pub fn more_entries_change_nothing_that_came()
    ensures work { (table : MethodTable) (entries later : List SeenEntry) (n : ℕ) →
        n ≤ numbers_in entries → Begins entries later →
        work table later n ≡ work table entries n }
    ensures reply { (n turn : ℕ) (reply : Reply) (entries later : List SeenEntry) →
        n ≤ numbers_in entries → Begins entries later →
        reply_to n turn entries ≡ Some reply → replies later n turn ≡ reply }
    ensures cancel { (entries later : List SeenEntry) (n : ℕ) → Begins entries later →
        is_cancelled entries n ≡ true → is_cancelled later n ≡ true }
{}

/// One more entry reaches the requests before it of which it is a cancel, and no call that comes with it or behind it.
pub fn cancel_reaches_what_stands_before_it()
    ensures before { (entries : List SeenEntry) (entry : SeenEntry) (n : ℕ) →
        n ≤ numbers_in entries →
        is_cancelled (entries ++ entry ∷ []) n
        ≡ (is_cancelled entries n
        || option_map_or (λ id. cancels id entry) (request_id entries n) false) }
    ensures behind { (entries : List SeenEntry) (entry : SeenEntry) (n : ℕ) →
        numbers_in entries < n →
        is_cancelled (entries ++ entry ∷ []) n ≡ false }
{}

/// What is certain stays so when more entries come and when the input ends.
pub fn certain_facts_stay()
    ensures under_way { (table : MethodTable) (is_over : Bool) (entries longer : List SeenEntry)
        (n : ℕ) (sends : List Sending) → Begins entries longer →
        IsUnderWay table false entries n sends → IsUnderWay table is_over longer n sends }
    ensures finished { (table : MethodTable) (is_over : Bool) (entries longer : List SeenEntry)
        (n : ℕ) (c : Course) → Begins entries longer →
        IsFinished table false entries n c → IsFinished table is_over longer n c }
    ensures heard { (is_over : Bool) (entries longer : List SeenEntry) (n : ℕ) (heard : Heard) →
        Begins entries longer →
        IsHeardFrom false entries n heard → IsHeardFrom is_over longer n heard }
{}

/// A handler may hear the first reply to its call that has come, and once the input is over `No reply` where none has.
pub fn replies_may_be_heard()
    ensures nothing { (is_over : Bool) (entries : List SeenEntry) (n : ℕ) →
        IsHeardFrom is_over entries n [] }
    ensures reply { (is_over : Bool) (entries : List SeenEntry) (n turn : ℕ) (heard : Heard)
        (reply : Reply) → n ≤ numbers_in entries →
        IsHeardFrom is_over entries n heard → reply_to n turn entries ≡ Some reply →
        IsHeardFrom is_over entries n (heard ++ (turn, reply) ∷ []) }
    ensures over { (entries : List SeenEntry) (n turn : ℕ) (heard : Heard) →
        IsHeardFrom true entries n heard →
        IsHeardFrom true entries n (heard ++ (turn, replies entries n turn) ∷ []) }
{}

/// What a handler has sent begins its course while it waits, and where it failed; once it has ended, it is its course.
pub fn handlers_keep_to_their_course()
    ensures nothing { (table : MethodTable) (is_over : Bool) (entries : List SeenEntry) (n : ℕ) →
        IsUnderWay table is_over entries n [] }
    ensures waiting { (table : MethodTable) (is_over : Bool) (entries : List SeenEntry) (n : ℕ)
        (s : HandlerState) → n ≤ numbers_in entries →
        work table entries n ≡ run s.program → IsHeardFrom is_over entries n s.heard → IsWaiting s →
        IsUnderWay table is_over entries n (map message s.messages) }
    ensures failed { (table : MethodTable) (is_over : Bool) (entries : List SeenEntry) (n : ℕ)
        (s : HandlerState) → n ≤ numbers_in entries →
        work table entries n ≡ run s.program → IsHeardFrom is_over entries n s.heard → HasFailed s →
        IsUnderWay table is_over entries n (map message s.messages) }
    ensures ended { (table : MethodTable) (is_over : Bool) (entries : List SeenEntry) (n : ℕ)
        (s : HandlerState) (answer : Reply) → n ≤ numbers_in entries →
        work table entries n ≡ run s.program → IsHeardFrom is_over entries n s.heard →
        HasEnded s answer →
        IsFinished table is_over entries n
        (record { sends = map message s.messages; answer = answer }) }
{}

/// A call that is at fault is finished at once. A request that a cancel has reached may be finished as cancelled wherever
/// it stands, and withdraw any calls of its last message.
pub fn faults_and_cancels_finish()
    ensures fault { (table : MethodTable) (is_over : Bool) (entries : List SeenEntry) (n : ℕ)
        (standard : Standard) → n ≤ numbers_in entries →
        work table entries n ≡ fault standard →
        IsFinished table is_over entries n (silent (Fixed standard)) }
    ensures cancelled { (table : MethodTable) (is_over : Bool) (entries : List SeenEntry) (n : ℕ)
        (program : Program) (made : List Message) (is_withdrawn : ℕ → Bool) →
        work table entries n ≡ run program → is_cancelled entries n ≡ true →
        IsUnderWay table is_over entries n (map message made) →
        IsFinished table is_over entries n
        (record {
          sends = map message made ++ map withdrawal (filter is_withdrawn (last_turns made));
          answer = Fixed Cancelled;
        }) }
{}
