//! What becomes of a past, event by event, and what it has written. Each law is the contract of a function that does nothing.

ghost use Rattle.std.specs.Prelude.{◌≡◌, ◌+◌, ◌≤◌, ℕ, List, [], ◌∷◌, ◌++◌, All, Bool, true, false, Option, None};
ghost use Rattle.rpc_messages.specs.Numbering.{units_numbers};
ghost use Rattle.rpc_messages.specs.Unit.{SeenUnit};
ghost use Rattle.method_steps.specs.Steps.{MethodTable};
ghost use Rattle.peer_output.specs.Work.{nothing, work};
ghost use Rattle.peer_output.specs.Course.{Sending, Course};
ghost use Rattle.peer_output.specs.Cancelled.{Begins};
ghost use Rattle.peer_output.specs.Items.{Item, sent_by};
ghost use Rattle.peer_output.specs.Output.{IsOutput, IsPartialOutput};
ghost use Rattle.peer_output.specs.Later.{MayBecome, IsUnderWay, IsFinished};
ghost use Rattle.peer_output.specs.Past.{Past, past_units, past_entries, requests_of, IsAllSent, dues_of, IsPast};
ghost use Rattle.peer_output.specs.Events.{no_past, with_units, with_sends, with_course, with_sent, with_released};

/// At the start nothing has happened.
pub fn nothing_is_a_past()
    ensures { (table : MethodTable) → IsPast table false no_past }
{}

/// Units may come while the input goes on, and then it may end.
pub fn units_come_and_the_input_ends()
    ensures units { (table : MethodTable) (past : Past) (units : List SeenUnit) →
        IsPast table false past → IsPast table false (with_units past units) }
    ensures end { (table : MethodTable) (past : Past) →
        IsPast table false past → IsPast table true past }
{}

/// A number that was given and isn't finished may send more, and may be finished, where that is certain.
pub fn numbers_send_and_finish()
    ensures sends { (table : MethodTable) (is_over : Bool) (past : Past) (n : ℕ)
        (sends : List Sending) → IsPast table is_over past →
        n ≤ units_numbers (past_units past) → past.took n ≡ None →
        Begins (past.sends n) sends → IsUnderWay table is_over (past_entries past) n sends →
        IsPast table is_over (with_sends past n sends) }
    ensures finished { (table : MethodTable) (is_over : Bool) (past : Past) (n : ℕ) (c : Course) →
        IsPast table is_over past →
        n ≤ units_numbers (past_units past) → past.took n ≡ None →
        Begins (past.sends n) c.sends → IsFinished table is_over (past_entries past) n c →
        IsPast table is_over (with_course past n c) }
{}

/// What a number has sent may be written next; and the answers of the next units, once all is written that their requests
/// have sent.
pub fn sendings_and_answers_are_written()
    ensures sent { (table : MethodTable) (is_over : Bool) (past : Past) (n : ℕ) (s : Sending) →
        IsPast table is_over past →
        Begins (sent_by n past.items ++ s ∷ []) (past.sends n) →
        IsPast table is_over (with_sent past n s) }
    ensures released { (table : MethodTable) (is_over : Bool) (past : Past)
        (units left : List SeenUnit) → IsPast table is_over past →
        past.left ≡ units ++ left →
        All (IsAllSent past.took past.items) (requests_of (1 + units_numbers past.released) units) →
        IsPast table is_over (with_released past units left) }
{}

/// What a past has written is a partial output, whatever may yet come.
pub fn past_is_a_partial_output()
    ensures { (table : MethodTable) (is_over : Bool) (past : Past) (later : List SeenUnit) →
        IsPast table is_over past →
        MayBecome is_over (past_units past) later → IsPartialOutput table later past.items }
{}

/// Once the input is over, all units are released, all that was sent is written and every number is finished, it is an
/// output.
pub fn past_that_is_done_is_an_output()
    ensures { (table : MethodTable) (past : Past) → IsPast table true past →
        past.left ≡ [] → ((n : ℕ) → sent_by n past.items ≡ past.sends n) →
        ((n : ℕ) → past.took n ≡ None → work table (past_entries past) n ≡ nothing) →
        IsOutput table (past_units past) past.items }
{}
