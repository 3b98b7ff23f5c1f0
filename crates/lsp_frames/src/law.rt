//! What holds of frames and contents, whatever decoder there is. Each law is the contract of a function that does nothing.

ghost use Rattle.std.specs.Prelude.{◌≡◌, ◌≢◌, ◌≤◌, ◌↔◌, ℕ, List, [], ◌++◌, length, false};
ghost use Rattle.lsp_frames.specs.declared.frame.Frame.{Frame};
ghost use Rattle.lsp_frames.specs.declared.frame.FrameFault.{FrameFault};
ghost use Rattle.lsp_frames.specs.declared.frame.FrameFault.TheVariants.{TooLarge, Truncated};
ghost use Rattle.lsp_frames.specs.declared.limits.TheConstants.{LARGEST_CONTENT as MOST_BYTES, LONGEST_CONTENT as MOST_LONG_BYTES, LONGEST_HEAD, LONGEST_NUMBER};
ghost use Rattle.lsp_frames.specs.Frames.{HasForm, ShowsFault, front, Whole, Faulty, written};
ghost use Rattle.lsp_frames.specs.Contents.{Standing, Open, Broken, IsContents};

use crate::limits::LONGEST_CONTENT;

/// A frame is peeled off the front exactly where some front of the bytes has a frame's form.
pub fn front_is_a_frame()
    ensures { (limit : ℕ) (bytes : List ℕ) (frame : Frame) (rest : List ℕ) →
        (front limit bytes ≡ Whole frame rest) ↔
        ((first : List ℕ) × (bytes ≡ first ++ rest) × HasForm limit first frame) }
{}

/// A fault is found exactly where some front of the bytes shows it.
pub fn front_shows_a_fault()
    ensures { (limit : ℕ) (bytes : List ℕ) (fault : FrameFault) →
        (front limit bytes ≡ Faulty fault) ↔
        ((text : List ℕ) × (more : List ℕ) × (bytes ≡ text ++ more) × ShowsFault limit text fault) }
{}

/// No frame is a proper prefix of another.
pub fn no_frame_extends_another()
    ensures { (limit : ℕ) (bytes more : List ℕ) (frame other : Frame) →
        HasForm limit bytes frame →
        HasForm limit (bytes ++ more) other → (more ≡ []) × (frame ≡ other) }
{}

/// A written content is a frame with that content, and is read back whatever follows it.
pub fn written_frame_is_read_back()
    ensures form { (limit : ℕ) (content : List ℕ) → length content ≤ limit →
        limit ≤ LONGEST_CONTENT →
        HasForm limit (written content) (record { content = content; foreign = false }) }
    ensures read { (limit : ℕ) (content more : List ℕ) → length content ≤ limit →
        limit ≤ LONGEST_CONTENT →
        front limit (written content ++ more) ≡
        Whole (record { content = content; foreign = false }) more }
{}

/// All bytes have contents, and no others.
pub fn contents_are_a_function_of_the_bytes()
    ensures exist { (limit : ℕ) (bytes : List ℕ) →
        (frames : List Frame) × (standing : Standing) × IsContents limit bytes frames standing }
    ensures unique { (limit : ℕ) (bytes : List ℕ) (frames others : List Frame)
        (standing other : Standing) →
        IsContents limit bytes frames standing → IsContents limit bytes others other →
        (frames ≡ others) × (standing ≡ other) }
{}

/// More bytes keep the frames and a fault. Where there is none, the frames go on with those of the rest and the bytes.
pub fn contents_stay()
    ensures fault { (limit : ℕ) (bytes more : List ℕ) (frames : List Frame) (fault : FrameFault) →
        IsContents limit bytes frames (Broken fault) →
        IsContents limit (bytes ++ more) frames (Broken fault) }
    ensures rest { (limit : ℕ) (bytes more : List ℕ) (frames : List Frame) (rest : List ℕ) →
        (later : List Frame) (standing : Standing) →
        IsContents limit bytes frames (Open rest) → IsContents limit (rest ++ more) later standing →
        IsContents limit (bytes ++ more) (frames ++ later) standing }
{}

/// Where no content is too large, a greater limit reads the same: bytes that a decoder takes, each decoder with a greater
/// limit takes too.
pub fn a_greater_limit_reads_the_same()
    ensures { (limit greater : ℕ) (bytes : List ℕ) (frames : List Frame) (standing : Standing) →
        limit ≤ greater → standing ≢ Broken TooLarge →
        IsContents limit bytes frames standing → IsContents greater bytes frames standing }
{}

/// The end inside a frame is no fault of the bytes that came.
pub fn no_bytes_show_an_end()
    ensures { (limit : ℕ) (bytes : List ℕ) (frames : List Frame) (fault : FrameFault) →
        IsContents limit bytes frames (Broken fault) → fault ≢ Truncated }
{}

/// The limits of frames, in figures. All other definitions and clauses cite the constants.
pub fn limits_of_frames_in_figures()
    ensures { (MOST_BYTES ≡ 16777216) × (LONGEST_HEAD ≡ 4096) × (LONGEST_NUMBER ≡ 10)
        × (MOST_LONG_BYTES ≡ 2147483647) }
{}
