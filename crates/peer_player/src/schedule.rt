//! When a player turns handlers, and which.

ghost use Rattle.std.specs.Prelude.{◌≡◌};
ghost use Rattle.peer_player.specs.Schedule.{place_of};

use json_values::Items;

/// The order in which a player does its work. It decides which of the allowed outputs is written.
#[derive(Debug, Drop)]
pub struct Schedule {
    /// Whether all contents are taken, and the input is ended, before the first handler is turned. Else the player writes what is due
    /// and turns all handlers that are ready after each content.
    pub lazy: bool,
    pub picks: Picks,
}

/// Which of the handlers that are ready is turned next, by its place among them, in the order of their numbers.
#[derive(Debug, Drop)]
pub enum Picks {
    /// The first of them.
    First,
    /// The last of them.
    Last,
    /// The one at each place in turn, modulo how many are ready; behind the last of these places, the first.
    List(Items<u32>),
}

impl Picks {
    /// The place of the handler that is turned where so many were turned before and so many are ready.
    pub(crate) fn place(&self, turned: usize, ready: u32) -> u32
        ensures { result ≡ place_of self.now turned ready }
    {
        match self {
            Picks::First => 0,
            Picks::Last => ready.saturating_sub(1),
            Picks::List(places) => places.as_slice().get(turned).copied().unwrap_or(0),
        }
    }
}
