//! What holds of whole lines, whatever code there is. Each law is the contract of a function that does nothing.

ghost use Rattle.std.specs.Prelude.{◌≡◌, ℕ, List, [], All, flat_map, map};
ghost use Rattle.lsp_frames.specs.Contents.{Open};
ghost use Rattle.lsp_frames.specs.Devices.{Finished};
ghost use Rattle.lsp_frames.specs.declared.frame.Frame.{Frame};
ghost use Rattle.content_streams.specs.Streams.{plain};
ghost use Rattle.stream_framing.specs.Framed.{framed, read_text};
ghost use Rattle.stream_framing.specs.Lines.{HoldsLines, IsLine};
ghost use Rattle.stream_framing.specs.declared.framing.Framing.TheVariants.{Lines};

/// A closed input doesn't end inside a line.
pub fn closed_lines_are_whole()
    ensures { (limit : ℕ) (bytes : List ℕ) (frames : List Frame) (rest : List ℕ) →
        HoldsLines limit (read_text Lines Finished bytes) frames (Open rest) → rest ≡ [] }
{}

/// Texts that are lines, written as lines, are read back as they are.
pub fn written_lines_are_read_back()
    ensures { (limit : ℕ) (texts : List (List ℕ)) → All (IsLine limit) texts →
        HoldsLines limit (flat_map (framed Lines) texts) (map plain texts) (Open []) }
{}
