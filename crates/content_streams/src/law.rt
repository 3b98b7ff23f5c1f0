//! What holds of contents and ends, whatever code there is. Each law is the contract of a function that does nothing.

ghost use Rattle.std.specs.Prelude.{◌≡◌, ◌≢◌, ◌+◌, ◌<◌, ◌≤◌, ◌↔◌, ◌⊎◌, ℕ, List, ◌++◌, Option, Some, None, Bool, false, length, slice_get, unwrap_or, option_map, map, IsSome};
ghost use Rattle.std.specs.List.{join_with_byte};
ghost use Rattle.lsp_frames.specs.Contents as frames;
ghost use Rattle.lsp_frames.specs.Contents.{IsContents, Standing};
ghost use Rattle.lsp_frames.specs.declared.frame.Frame.{Frame};
ghost use Rattle.lsp_frames.specs.declared.frame.FrameFault.TheVariants.{TooLarge};
ghost use Rattle.content_streams.specs.Lines.{fits, parts, without_cr};
ghost use Rattle.content_streams.specs.Streams.{contents_of, placed_contents_of, fault_place_of, end_of, fault_left, joined, stream_end};
ghost use Rattle.content_streams.specs.declared.ending.HowEnded.{HowEnded as How};
ghost use Rattle.content_streams.specs.declared.ending.StreamEnd.{StreamEnd as End};
ghost use Rattle.content_streams.specs.declared.framing.Framing.{Framing as Cut};

use crate::ending::{HowEnded, StreamEnd};
use crate::framing::Framing;
use lsp_frames::a_greater_limit_reads_the_same;

/// In frames and lines it doesn't matter how the bytes are cut into pieces.
pub fn cuts_do_not_matter()
    ensures contents { (framing : Cut) (limit : ℕ) (pieces others : List (List ℕ))
        (ended : Option How) → framing ≢ Framing.Contents → joined pieces ≡ joined others →
        contents_of framing limit pieces ended ≡ contents_of framing limit others ended }
    ensures end { (framing : Cut) (limit : ℕ) (pieces others : List (List ℕ))
        (ended : Option How) → framing ≢ Framing.Contents → joined pieces ≡ joined others →
        end_of framing limit pieces ended ≡ end_of framing limit others ended }
{}

/// More pieces, and the end, only add contents.
pub fn contents_only_grow()
    ensures { (framing : Cut) (limit : ℕ) (pieces more : List (List ℕ)) (ended : Option How) →
        (later : List Frame) × (contents_of framing limit (pieces ++ more) ended
        ≡ contents_of framing limit pieces None ++ later) }
{}

/// What has ended before the host has said so, has a fault: this end stays, and no contents are added.
pub fn faults_stay()
    ensures end { (framing : Cut) (limit : ℕ) (pieces more : List (List ℕ)) (ended : Option How)
        (close : End) → end_of framing limit pieces None ≡ Some close →
        end_of framing limit (pieces ++ more) ended ≡ Some close }
    ensures contents { (framing : Cut) (limit : ℕ) (pieces more : List (List ℕ))
        (ended : Option How) (close : End) → end_of framing limit pieces None ≡ Some close →
        contents_of framing limit (pieces ++ more) ended ≡ contents_of framing limit pieces None }
{}

/// Where no content is too large, a greater limit reads the same: a host that allows more than before has what it had.
pub fn greater_limits_read_the_same()
    ensures contents { (framing : Cut) (limit greater : ℕ) (pieces : List (List ℕ))
        (ended : Option How) → limit ≤ greater →
        end_of framing limit pieces ended ≢ Some (StreamEnd.Fault TooLarge) →
        contents_of framing greater pieces ended ≡ contents_of framing limit pieces ended }
    ensures end { (framing : Cut) (limit greater : ℕ) (pieces : List (List ℕ))
        (ended : Option How) → limit ≤ greater →
        end_of framing limit pieces ended ≢ Some (StreamEnd.Fault TooLarge) →
        end_of framing greater pieces ended ≡ end_of framing limit pieces ended }
{
    a_greater_limit_reads_the_same();
}

/// Contents with their places are the contents.
pub fn placed_contents_are_the_contents()
    ensures { (framing : Cut) (limit : ℕ) (pieces : List (List ℕ)) (ended : Option How) →
        map (λ placed. placed.1) (placed_contents_of framing limit pieces ended)
        ≡ contents_of framing limit pieces ended }
{}

/// A content stays where it is: more pieces, and the end, only add contents. A fault stays where it is too. In frames
/// and lines it doesn't matter how the bytes are cut into pieces.
pub fn places_stay()
    ensures grow { (framing : Cut) (limit : ℕ) (pieces more : List (List ℕ)) (ended : Option How) →
        (later : List (ℕ × Frame)) × (placed_contents_of framing limit (pieces ++ more) ended
        ≡ placed_contents_of framing limit pieces None ++ later) }
    ensures fault { (framing : Cut) (limit : ℕ) (pieces more : List (List ℕ)) (ended : Option How)
        (place : ℕ) → fault_place_of framing limit pieces None ≡ Some place →
        fault_place_of framing limit (pieces ++ more) ended ≡ Some place }
    ensures contents { (framing : Cut) (limit : ℕ) (pieces others : List (List ℕ))
        (ended : Option How) → framing ≢ Framing.Contents → joined pieces ≡ joined others →
        placed_contents_of framing limit pieces ended
        ≡ placed_contents_of framing limit others ended }
    ensures fault_cut { (framing : Cut) (limit : ℕ) (pieces others : List (List ℕ))
        (ended : Option How) → framing ≢ Framing.Contents → joined pieces ≡ joined others →
        fault_place_of framing limit pieces ended ≡ fault_place_of framing limit others ended }
{}

/// Frames are those of the joined pieces (LSP 3.17, "Base Protocol").
pub fn frames_are_those_of_the_bytes()
    ensures are { (limit : ℕ) (pieces : List (List ℕ)) (ended : Option How) →
        (standing : Standing) ×
        IsContents limit (joined pieces) (contents_of Framing.Frames limit pieces ended) standing }
    ensures closed { (limit : ℕ) (pieces : List (List ℕ)) (contents : List Frame)
        (standing : Standing) → IsContents limit (joined pieces) contents standing →
        end_of Framing.Frames limit pieces (Some HowEnded.Closed)
        ≡ Some (stream_end (frames.end_of standing)) }
    ensures read_failed { (limit : ℕ) (pieces : List (List ℕ)) (contents : List Frame)
        (standing : Standing) → IsContents limit (joined pieces) contents standing →
        end_of Framing.Frames limit pieces (Some HowEnded.ReadFailed)
        ≡ Some (unwrap_or (option_map StreamEnd.Fault (fault_left standing)) StreamEnd.ReadFailed) }
{}

/// The lines and their LFs are all bytes of a text. A line is too long where its first byte over the limit isn't a CR,
/// or where one more follows.
pub fn lines_are_those_of_the_bytes()
    ensures lines { (bytes : List ℕ) → join_with_byte 10 (parts bytes) ≡ bytes }
    ensures long { (limit : ℕ) (line : List ℕ) → (fits limit (without_cr line) ≡ false) ↔
        (((b : ℕ) × (slice_get line limit ≡ Some b) × (b ≢ 13)) ⊎ (limit + 1 < length line)) }
{}
