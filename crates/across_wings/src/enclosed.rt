//! The texts that a server has written, as lines have them. Each law is the contract of a function that does nothing.

ghost use Rattle.std.specs.Prelude.{◌≡◌, ℕ, List, All, false};
ghost use Rattle.content_streams.specs.Lines.{is_blank, without_cr};
ghost use Rattle.method_steps.specs.Steps.{MethodTable};
ghost use Rattle.peer_output.specs.Items.{Item, item_text};
ghost use Rattle.peer_output.specs.Output.{IsOutput, IsPartialOutput};
ghost use Rattle.rpc_messages.specs.Unit.{SeenUnit};
ghost use Rattle.across_wings.specs.Enclosed.{IsEnclosed};

/// Each text of an output, whole or partial, stands in braces or in brackets.
pub fn written_texts_are_enclosed()
    ensures whole { (table : MethodTable) (units : List SeenUnit) (items : List Item) →
        IsOutput table units items → All (λ item. IsEnclosed (item_text item)) items }
    ensures partial { (table : MethodTable) (units : List SeenUnit) (items : List Item) →
        IsPartialOutput table units items → All (λ item. IsEnclosed (item_text item)) items }
{}

/// A line that has such a text has it as its content: no CR at its end is dropped, and it isn't passed over as blank.
pub fn an_enclosed_text_is_its_lines_content()
    ensures whole { (text : List ℕ) → IsEnclosed text → without_cr text ≡ text }
    ensures not_blank { (text : List ℕ) → IsEnclosed text → is_blank text ≡ false }
{}
