//! What a peer writes has no LF, so that each text may stand on a line of its own: the contract of a function that does nothing.

ghost use Rattle.std.specs.Prelude.{List, All};
ghost use Rattle.lsp_frames.specs.Frames.{HasNoLf};
ghost use Rattle.serde_json.specs.Data.{Data};
ghost use Rattle.serde_json.specs.Written.{compact_text};
ghost use Rattle.rpc_messages.specs.Unit.{SeenUnit};
ghost use Rattle.method_steps.specs.Steps.{MethodTable};
ghost use Rattle.peer_output.specs.Items.{Item, item_text};
ghost use Rattle.peer_output.specs.Output.{IsOutput, IsPartialOutput};

/// A compact text of JSON has no LF, and so has no text of an output, partial or whole.
pub fn written_texts_have_no_lf()
    ensures json { (d : Data) → HasNoLf (compact_text d) }
    ensures whole { (table : MethodTable) (units : List SeenUnit) (items : List Item) →
        IsOutput table units items → All (λ item. HasNoLf (item_text item)) items }
    ensures partial { (table : MethodTable) (units : List SeenUnit) (items : List Item) →
        IsPartialOutput table units items → All (λ item. HasNoLf (item_text item)) items }
{}
