//! That cutting plays no part. The law is the contract of a function that does nothing but cite those that it stands on.

ghost use Rattle.std.specs.Prelude.{◌≡◌, ◌≢◌, ◌++◌, ◌∷◌, [], ℕ, List};
ghost use Rattle.content_streams.specs.declared.framing.Framing.{Framing as Cut};
ghost use Rattle.conversation_rules.specs.Judging.{Seen, Wrote, findings_of};
ghost use Rattle.conversation_rules.specs.declared.finding.Limits.{Limits};
ghost use Rattle.conversation_rules.specs.declared.protocol.Protocol.{Protocol};
ghost use Rattle.conversation_rules.specs.declared.side.Side.{Side};

use content_streams::{
    Framing, cuts_do_not_matter, faults_stay, placed_contents_are_the_contents, places_stay,
};

/// In frames and lines the same is found in two pieces, one behind the other, as in both as one. So bytes may be cut into any
/// pieces: these can be joined one by one.
pub fn cutting_plays_no_part()
    ensures { (protocol : Protocol) (framing : Cut) (limits : Limits) (seen : List Seen) (side : Side)
        (first second : List ℕ) → framing ≢ Framing.Contents →
        findings_of protocol framing limits (seen ++ Wrote side first ∷ Wrote side second ∷ [])
        ≡ findings_of protocol framing limits (seen ++ Wrote side (first ++ second) ∷ []) }
{
    cuts_do_not_matter();
    faults_stay();
    placed_contents_are_the_contents();
    places_stay();
}
