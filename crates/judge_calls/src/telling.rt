//! The host gets findings.

ghost use Rattle.std.specs.Prelude.{◌≡◌};
ghost use Rattle.judge_calls.specs.Telling.{HasTold};

use crate::finding::HostFinding;
use crate::hosted::HostedJudge;

impl HostedJudge {
    /// Moves the first findings that weren't told to the room, as many as it has room for, and gives how many. Takes no
    /// memory.
    pub fn tell(&mut self, room: &mut [HostFinding]) -> usize
        ensures { HasTold self.old.judge self.new.judge room.old room.new result }
    {
        for place in 0..room.len() {
            match self.judge.next_finding() {
                Some(finding) => room[place] = HostFinding::of(&finding),
                None => return place,
            }
        }
        room.len()
    }
}
