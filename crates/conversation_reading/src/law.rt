//! What the definitions say of worked rows, and what holds of all entries. Each law is the contract of a function that does
//! nothing.

ghost use Rattle.std.specs.Prelude.{◌≡◌, ◌∷◌, ◌&&◌, ◌||◌, [], true, false, not, codes, Some, option_and_then};
ghost use Rattle.json.specs.Json.{Json as JsonValue, null, number, string, array, no_items};
ghost use Rattle.conversation_reading.specs.Numbers.{is_whole};
ghost use Rattle.conversation_reading.specs.Rows.{message, method, id, outcome, failure};
ghost use Rattle.conversation_reading.specs.Strictly.{entry_of, faults_of, has, has_fault, is_message};
ghost use Rattle.conversation_reading.specs.Twice.{has_twice};
ghost use Rattle.conversation_reading.specs.declared.entry.Kind.TheVariants as kinds;
ghost use Rattle.conversation_reading.specs.declared.entry.WrittenId.TheVariants.{Number};

/// An entry is a message exactly where it breaks no rule, and where it is no answer in which a member stands twice.
pub fn messages_break_no_rule()
    ensures { (j : JsonValue) → is_message (entry_of j).kind ≡
        not (has_fault (faults_of j) || (not (has (codes "method") j) && has_twice j)) }
{}

/// Numbers that are whole by their value (RFC 8259, section 6).
pub fn whole_numbers()
    ensures digits { is_whole (codes "7") ≡ true }
    ensures minus_zero { is_whole (codes "-0") ≡ true }
    ensures zeros_behind_the_point { is_whole (codes "1.00") ≡ true }
    ensures point_moved_right { is_whole (codes "1.50e1") ≡ true }
    ensures point_moved_left { is_whole (codes "-10E-1") ≡ true }
    ensures zero_moved_far { is_whole (codes "-0.0e-5") ≡ true }
    ensures large { is_whole (codes "1e400") ≡ true }
{}

/// Numbers that aren't.
pub fn fractions()
    ensures half { is_whole (codes "7.5") ≡ false }
    ensures moved_too_little { is_whole (codes "1.25e+1") ≡ false }
    ensures moved_left_too_far { is_whole (codes "-10e-2") ≡ false }
    ensures small { is_whole (codes "1e-400") ≡ false }
{}

/// Requests, notifications and answers (JSON-RPC 2.0, sections 4 and 5).
pub fn messages()
    ensures request { (entry_of (message (method ∷ id (codes "7") ∷ []))).kind ≡ kinds.Request }
    ensures null_id { (entry_of (message (method ∷ (codes "id", null) ∷ []))).kind ≡ kinds.Request }
    ensures fraction { (entry_of (message (method ∷ id (codes "7.5") ∷ []))).kind ≡ kinds.Request }
    ensures notification { (entry_of (message (method ∷ []))).kind ≡ kinds.Notification }
    ensures result_beside_a_method { (entry_of (message (method ∷ outcome ∷ []))).kind ≡ kinds.Notification }
    ensures answer { (entry_of (message (id (codes "7") ∷ outcome ∷ []))).kind ≡ kinds.Answer }
    ensures failure { (entry_of (message (id (codes "7") ∷ failure (codes "5.0") ∷ []))).kind ≡ kinds.Answer }
{}

/// Null is there, and of a name that stands twice the last counts.
pub fn members()
    ensures params { (faults_of (message (method ∷ (codes "params", null) ∷ []))).params ≡ true }
    ensures error_beside_a_result { (faults_of (message (id (codes "7") ∷ outcome ∷ (codes "error", null) ∷ []))).outcome
        ≡ true }
    ensures method_beside_a_result { (faults_of (message (outcome ∷ (codes "method", null) ∷ []))).method ≡ true }
    ensures last_version { (faults_of (message (method ∷ (codes "jsonrpc", null) ∷ []))).version ≡ true }
    ensures last_id { (faults_of (message (method ∷ (codes "id", array no_items) ∷ id (codes "7") ∷ []))).id
        ≡ false }
{}

/// Members that stand twice (RFC 8259, section 4), of a message and not of what is inside them.
pub fn members_twice()
    ensures once { has_twice (message (method ∷ id (codes "7") ∷ outcome ∷ [])) ≡ false }
    ensures same_value { has_twice (message (id (codes "7") ∷ method ∷ id (codes "7") ∷ [])) ≡ true }
    ensures version { has_twice (message (method ∷ (codes "jsonrpc", null) ∷ [])) ≡ true }
    ensures in_a_result { has_twice (message (id (codes "7") ∷ (codes "result", message ((codes "jsonrpc", null) ∷ [])) ∷ [])) ≡ false }
    ensures other_name { has_twice (message (method ∷ (codes "Id", null) ∷ (codes "Id", null) ∷ [])) ≡ false }
    ensures request { (entry_of (message (method ∷ id (codes "7") ∷ id (codes "8") ∷ []))).kind ≡ kinds.Request }
    ensures answer { (entry_of (message (id (codes "7") ∷ outcome ∷ id (codes "8") ∷ []))).kind ≡ kinds.BrokenAnswer }
    ensures first_id { option_and_then (λ first. first.id) (entry_of (message (method ∷ id (codes "7") ∷ id (codes "8") ∷ []))).first
        ≡ Some (Number (codes "7")) }
    ensures last_id { (entry_of (message (method ∷ id (codes "7") ∷ id (codes "8") ∷ []))).id ≡ Some (Number (codes "8")) }
    ensures first_method { option_and_then (λ first. first.method) (entry_of (message (method ∷ (codes "method", string (codes "b")) ∷ []))).first
        ≡ Some (codes "a") }
{}

/// What is no message.
pub fn broken_entries()
    ensures no_object { (entry_of (number (codes "1"))).kind ≡ kinds.Invalid }
    ensures neither { (entry_of (message (id (codes "7") ∷ []))).kind ≡ kinds.Invalid }
    ensures both { (entry_of (message (id (codes "7") ∷ outcome ∷ failure (codes "5") ∷ []))).kind
        ≡ kinds.BrokenAnswer }
    ensures answer_without_id { (entry_of (message (outcome ∷ []))).kind ≡ kinds.BrokenAnswer }
    ensures code_with_a_fraction { (faults_of (message (id (codes "7") ∷ failure (codes "5.5") ∷ []))).error ≡ true }
    ensures error_that_is_a_string { (faults_of (message (id (codes "7") ∷ (codes "error", string (codes "no")) ∷ []))).error
        ≡ true }
{}
