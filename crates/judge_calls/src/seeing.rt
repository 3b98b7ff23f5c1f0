//! The host says what was seen.

ghost use Rattle.std.specs.Prelude.{◌≡◌};
ghost use Rattle.judge_calls.specs.Seeing.{side_of, how_of, wrote_by, ended_by, HasSeen};

use crate::code::NotSeen;
use crate::hosted::HostedJudge;
use content_streams::HowEnded;
use conversation_rules::Side;

impl HostedJudge {
    /// A side wrote these bytes.
    pub fn saw(&mut self, side: u32, bytes: &[u8]) -> Result<(), NotSeen>
        ensures { HasSeen self.old.judge self.new.judge (wrote_by side bytes.now) result }
    {
        let Some(side) = side_of(side) else {
            return Err(NotSeen::Settings);
        };
        self.judge.saw(side, bytes)?;
        Ok(())
    }

    /// A side's stream ended.
    pub fn ended(&mut self, side: u32, how: u32) -> Result<(), NotSeen>
        ensures { HasSeen self.old.judge self.new.judge (ended_by side how) result }
    {
        let (Some(side), Some(how)) = (side_of(side), how_of(how)) else {
            return Err(NotSeen::Settings);
        };
        match how {
            HowEnded::Closed => self.judge.closed(side)?,
            HowEnded::ReadFailed => self.judge.failed(side)?,
        }
        Ok(())
    }
}

fn side_of(side: u32) -> Option<Side>
    ensures { result ≡ side_of side }
{
    match side {
        0 => Some(Side::Client),
        1 => Some(Side::Server),
        _ => None,
    }
}

fn how_of(how: u32) -> Option<HowEnded>
    ensures { result ≡ how_of how }
{
    match how {
        0 => Some(HowEnded::Closed),
        1 => Some(HowEnded::ReadFailed),
        _ => None,
    }
}
