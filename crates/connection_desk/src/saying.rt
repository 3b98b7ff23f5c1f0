//! What the host says on its own.

ghost use Rattle.std.specs.Prelude.{◌≡◌, ◌+◌, ◌≤◌, ◌∷◌, [], length, None, IfOk, IfErr, OnOk, OnErr};
ghost use Rattle.connection_history.specs.declared.refused.Refused.TheVariants.{Memory};
ghost use Rattle.connection_steps.specs.Steps.{withdrawn_by};

use crate::desk::Desk;
use connection_history::Refused;
use connection_messages::{
    Cancels, Outgoing, write_call, write_calls, write_notice, write_withdrawal,
};
use open_calls::OwnCalls;
use std::alloc::AllocError;

/// The greatest key. It is exact in every reader that holds numbers as floats of 64 bits.
const MOST_KEYS: u64 = (1 << 53) - 1;

impl Desk {
    ghost use Rattle.connection_history.specs.Refusals.{most_keys};
    ghost use Rattle.connection_steps.specs.Steps.{after_called};
    ghost use Rattle.connection_desk.specs.Desks.{IsRefusal, after_call, after_calls, after_notice, after_saying, after_withdrawal, call_refused, has_call, withdraw_refused};

    /// Calls the other side on behalf of the open call with this number, or of the host itself, and answers the call's key.
    pub fn call(&mut self, number: u64, outgoing: &Outgoing) -> Result<u64, Refused>
        ensures key { IfOk result (λ key. key ≡ self.old.state.own.made + 1) }
        ensures ok { OnOk result ((call_refused number 1 self.old.state ≡ None) ×
            (self.new ≡ after_call number outgoing.now self.old)) }
        ensures err { IfErr result (λ why. (self.new ≡ self.old) ×
            IsRefusal why (call_refused number 1 self.old.state)) }
    {
        self.may_call(number, 1)?;
        let mut text = self.take_room();
        let key = self.own.made() + 1;
        write_call(self.alloc, &mut text, key, outgoing)?;
        self.make_calls(number, 1, text)
    }

    /// Calls the other side several times, in one array, and answers the first key. The others follow it.
    pub fn call_batch(&mut self, number: u64, outgoings: &[Outgoing]) -> Result<u64, Refused>
        ensures key { IfOk result (λ key. key ≡ self.old.state.own.made + 1) }
        ensures ok { OnOk result ((call_refused number (length outgoings.now) self.old.state ≡ None) ×
            (self.new ≡ after_calls number outgoings.now self.old)) }
        ensures err { IfErr result (λ why. (self.new ≡ self.old) ×
            IsRefusal why (call_refused number (length outgoings.now) self.old.state)) }
    {
        let count = outgoings.len() as u64;
        self.may_call(number, count)?;
        let mut text = self.take_room();
        let first = self.own.made() + 1;
        write_calls(self.alloc, &mut text, first, outgoings)?;
        self.make_calls(number, count, text)
    }

    /// Notifies the other side.
    pub fn notify(&mut self, outgoing: &Outgoing) -> Result<(), AllocError>
        ensures ok { OnOk result (self.new ≡ after_notice outgoing.now self.old) }
        ensures err { OnErr result (self.new ≡ self.old) }
    {
        let mut text = self.take_room();
        write_notice(self.alloc, &mut text, outgoing)?;
        self.write(text)
    }

    /// Withdraws our call with this key. By LSP's cancel it still waits for its reply, and by MCP's no longer.
    pub fn withdraw(&mut self, key: u64) -> Result<(), Refused>
        ensures ok { OnOk result ((withdraw_refused self.old.cancels key self.old.state ≡ None) ×
            (self.new ≡ after_withdrawal key self.old)) }
        ensures err { IfErr result (λ why. (self.new ≡ self.old) ×
            IsRefusal why (withdraw_refused self.old.cancels key self.old.state)) }
    {
        let by = match (self.cancels, self.own.get(key)) {
            (Some(by), Some(call)) if !call.is_withdrawn => by,
            _ => return Err(Refused::NotWaiting),
        };
        let mut text = self.take_room();
        write_withdrawal(&mut text, by, key)?;
        self.write(text)?;
        withdraw_by(&mut self.own, by, key);
        Ok(())
    }

    /// Why so many calls can't be made on behalf of this number, where they can't.
    fn may_call(&self, number: u64, count: u64) -> Result<(), Refused>
        ensures ok { OnOk result (call_refused number count self.now.state ≡ None) }
        ensures err { IfErr result (λ why. call_refused number count self.now.state ≡ Some why) }
    {
        if number != 0 && self.theirs.get(number).is_none() {
            return Err(Refused::NotOpen);
        }
        if self.is_over {
            return Err(Refused::Over);
        }
        if count == 0 {
            return Err(Refused::Empty);
        }
        if count > MOST_KEYS.saturating_sub(self.own.made()) {
            return Err(Refused::Full);
        }
        Ok(())
    }

    /// Writes the text of so many new calls on behalf of this number, and answers the first key.
    fn make_calls(&mut self, number: u64, count: u64, text: Vec<u8>) -> Result<u64, Refused>
        requires { self.old.state.own.made + count ≤ most_keys }
        ensures key { IfOk result (λ key. key ≡ self.old.state.own.made + 1) }
        ensures ok { OnOk result (self.new ≡ after_saying (text.items ∷ [])
            (record self.old { state = after_called number count self.old.state })) }
        ensures err { IfErr result (λ why. (self.new ≡ self.old) × (why ≡ Memory)) }
    {
        let mark = self.outbox.mark();
        self.write(text)?;
        match self.own.make(number, count) {
            Ok(first) => Ok(first),
            Err(refused) => {
                self.outbox.back_to(mark);
                Err(refused.into())
            }
        }
    }
}

/// Withdraws the call with this key by these cancels.
fn withdraw_by(own: &mut OwnCalls, by: Cancels, key: u64)
    ensures { own.new ≡ record own.old { waiting = withdrawn_by by key own.old.waiting } }
{
    match by {
        Cancels::Lsp => own.withdraw(key),
        Cancels::Mcp => {
            own.remove(key);
        }
    }
}
