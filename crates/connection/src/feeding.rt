//! What is read goes in.

ghost use Rattle.std.specs.Prelude.{◌≡◌, ◌≢◌, ◌⊎◌, ◌++◌, ◌∷◌, [], List, Some, None, OnOk, IfErr, option_map, if◌then◌else◌};
ghost use Rattle.connection_history.specs.declared.event.Event.{Event};
ghost use Rattle.connection_history.specs.declared.refused.Refused.TheVariants.{Memory, Over};
ghost use Rattle.connection_history.specs.History.{History};

use crate::connection::Connection;
use connection_history::Refused;
use content_streams::{
    HowEnded, contents_only_grow, faults_stay, placed_contents_are_the_contents, places_stay,
};

impl Connection {
    ghost use Rattle.connection.specs.Connections.{StandsAfter};
    ghost use Rattle.content_streams.specs.Streams.{capped, fault_place};

    /// Feeds bytes that were read. Once the input is over, they are ignored.
    pub fn feed(&mut self, piece: &[u8]) -> Result<(), Refused>
        ensures ok { OnOk result ((self.old.stream.ended ≡ None) × (self.new ≡
            (if self.old.desk.state.is_over then self.old else record self.old {
              stream = record self.old.stream { pieces = self.old.stream.pieces ++ piece.now ∷ [] };
            }))) }
        ensures err { IfErr result (λ why. (self.new ≡ self.old) ×
            ((why ≡ Memory) ⊎ ((why ≡ Over) × (self.old.stream.ended ≢ None)))) }
        ensures stands { (history : History) (told : List Event) →
            StandsAfter self.old history told → StandsAfter self.new history told }
    {
        if self.stream.has_ended() {
            return Err(Refused::Over);
        }
        if self.desk.is_over() {
            return Ok(());
        }
        contents_only_grow();
        places_stay();
        placed_contents_are_the_contents();
        self.stream.feed(piece)?;
        Ok(())
    }

    /// Says how the input ended. It is over once all contents that came have been read. Takes no memory.
    pub fn end(&mut self, how: HowEnded) -> Result<(), Refused>
        ensures ok { OnOk result ((self.old.stream.ended ≡ None) ×
            (self.new ≡ record self.old { stream = record self.old.stream { ended = Some how } })) }
        ensures err { IfErr result (λ why. (self.new ≡ self.old) × (why ≡ Over) ×
            (self.old.stream.ended ≢ None)) }
        ensures stands { (history : History) (told : List Event) →
            StandsAfter self.old history told → StandsAfter self.new history told }
    {
        if self.stream.has_ended() {
            return Err(Refused::Over);
        }
        contents_only_grow();
        places_stay();
        placed_contents_are_the_contents();
        faults_stay();
        self.stream.end(how);
        Ok(())
    }

    /// Where the bytes that were fed are at fault: how many stand before the frame or line at fault, in Contents before the
    /// content that is too large. An input that was closed inside a frame is at fault where that frame begins. The number
    /// stays at its greatest once it is there. There is none where nothing is at fault.
    pub fn fault_place(&self) -> Option<u64>
        ensures { result ≡ option_map capped (fault_place self.now.stream) }
    {
        self.stream.fault_place()
    }
}
