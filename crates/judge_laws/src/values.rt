//! That only the JSON values of contents count. The law is the contract of a function that does nothing.

ghost use Rattle.std.specs.Prelude.{◌≡◌, ℕ, Bool, List};
ghost use Rattle.conversation_rules.specs.Judging.{contents_findings, behind_contents};
ghost use Rattle.conversation_rules.specs.Speakers.{Pair};
ghost use Rattle.conversation_rules.specs.declared.protocol.Protocol.{Protocol};
ghost use Rattle.conversation_rules.specs.declared.side.Side.{Side};
ghost use Rattle.judge_laws.specs.Values.{HaveSameValues};
ghost use Rattle.lsp_frames.specs.declared.frame.Frame.{Frame};

/// Contents with the same JSON values at the same places have the same findings, however they are spelled: with other blanks
/// or other escapes. What is kept of them is the same too.
pub fn only_values_count()
    ensures findings { (protocol : Protocol) (side : Side) (is_unfinished : Bool) (contents others : List (ℕ × Frame))
        (pair : Pair) → HaveSameValues contents others →
        contents_findings protocol side is_unfinished contents pair
        ≡ contents_findings protocol side is_unfinished others pair }
    ensures kept { (protocol : Protocol) (side : Side) (is_unfinished : Bool) (contents others : List (ℕ × Frame))
        (pair : Pair) → HaveSameValues contents others →
        behind_contents protocol side is_unfinished contents pair
        ≡ behind_contents protocol side is_unfinished others pair }
{}
