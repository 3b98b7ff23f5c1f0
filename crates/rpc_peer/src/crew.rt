//! The threads that a server asks for.

ghost use Rattle.std.specs.Prelude.{◌≡◌};
ghost use Rattle.rpc_peer.specs.declared.crew.TheConstants.{USUAL_YIELDS};

/// How many workers a server has, and how often a thread that finds nothing to do looks again before it sleeps.
#[derive(Clone, Copy, Debug, PartialEq, Eq)]
pub struct Crew {
    /// The threads that turn jobs, 1 to 64.
    pub workers: u32,
    /// The looks: the first 32 at once, the others after a yield.
    pub yields: u32,
}

/// The looks of a thread where the caller names no other number.
pub const USUAL_YIELDS: u32 = 200;

impl Crew {
    /// So many workers, with the usual patience.
    pub fn of(workers: u32) -> Crew
        ensures workers { result.workers ≡ workers }
        ensures patience { result.yields ≡ USUAL_YIELDS }
    {
        Crew {
            workers,
            yields: USUAL_YIELDS,
        }
    }
}
