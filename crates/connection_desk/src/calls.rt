//! Calls that come by themselves, as most do. What they bring is known at once, so none of it is kept for later.

ghost use Rattle.std.specs.Prelude.{◌≡◌, ◌<◌, ◌+◌, ◌-◌, ◌^◌, ◌++◌, ◌∷◌, [], None, false, IfOk, OnOk, OnErr};
ghost use Rattle.connection_messages.specs.declared.entry.Entry.TheVariants.{Call as call_entry};
ghost use Rattle.connection_messages.specs.declared.unit.Unit.TheVariants.{Single};
ghost use Rattle.connection_steps.specs.States.{owed_slots};
ghost use Rattle.connection_steps.specs.Steps.{new_call_slots};

use crate::desk::Desk;
use connection_history::Event;
use connection_messages::Call;
use message_ids::Id;
use owed_answers::{Owed, OwedAnswers, Slot};
use std::alloc::AllocError;

impl Desk {
    ghost use Rattle.connection_desk.specs.Desks.{after_unit};

    /// A call comes that is a unit by itself, where all is told. It is told by what this gives, and not by `next_event`, so
    /// that it needs no place among the events. Where it is refused, it hasn't come.
    pub fn take_in_call(&mut self, call: Call) -> Result<Event, AllocError>
        requires over { self.old.state.is_over ≡ false }
        requires calls { self.old.state.theirs.came + 1 < 2 ^ 64 }
        requires told { self.old.untold ≡ [] }
        ensures ok { IfOk result (λ event. record self.new { untold = event ∷ [] } ≡
            after_unit None (Single (call_entry call)) self.old) }
        ensures told { OnOk result (self.new.untold ≡ []) }
        ensures err { OnErr result (self.new ≡ self.old) }
    {
        // The prover has the range of each count once it is read.
        let _tally = self.tally;
        let came = self.theirs.came();
        let place = self.owed.places();
        let number = self.theirs.add(call.id.clone()?, place, 0)?;
        if let Err(refused) = owe_call(&mut self.owed, &call.id) {
            self.theirs.take_back(came);
            return Err(refused);
        }
        self.tally.add_call(&call.id);
        Ok(Event::Call { number, call })
    }
}

/// A call that is a unit by itself is owed its answer, where it is a request.
fn owe_call(owed: &mut OwedAnswers, id: &Option<Id>) -> Result<(), AllocError>
    ensures ok { OnOk result (owed.new ≡ record {
      places = owed.old.places + 1;
      owed = owed.old.owed ++ owed_slots owed.old.places false (new_call_slots id.now);
    }) }
    ensures err { OnErr result (owed.new ≡ owed.old) }
{
    if owed.places() == u64::MAX {
        return Err(AllocError);
    }
    match id {
        Some(_) => owed.open(Owed::single(Slot::Lacking)),
        None => {
            owed.skip();
            Ok(())
        }
    }
}
