ghost use Rattle.handler_future.specs.Rooms.{IsVacant};

use crate::run::Run;

/// The room that a handler leaves for the next one: a block, and lists without items that have room for a few. It has
/// nothing of a call.
#[derive(Drop)]
pub struct Room {
    pub(crate) run: Box<Run>,
    ghost vacant: { IsVacant (run.value) },
}
