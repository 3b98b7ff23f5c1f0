ghost use Rattle.std.specs.Prelude.{◌<◌, ◌≤◌};

/// How many workers there are beside the owner, and how many jobs may be under way at a time.
#[derive(Clone, Copy)]
pub struct Crew {
    pub workers: u32,
    /// From 1 to 128.
    pub room: u32,
    ghost has_room: { (0 < room) × (room ≤ 128) },
}

impl Crew {
    /// A crew with the room that is nearest to the one given.
    pub fn new(workers: u32, room: u32) -> Crew {
        Crew {
            workers,
            room: room.clamp(1, 128),
        }
    }
}
