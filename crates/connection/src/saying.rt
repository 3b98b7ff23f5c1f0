//! What the host says.

ghost use Rattle.std.specs.Prelude.{◌≡◌, ◌+◌, ◌∷◌, List, Some, None, IfOk, IfErr, OnOk, OnErr};
ghost use Rattle.json_texts.specs.Texts.{IsJsonText};
ghost use Rattle.connection_messages.specs.declared.answer.Answer.TheVariants.{Result};
ghost use Rattle.connection_history.specs.declared.event.Event.{Event};
ghost use Rattle.connection_history.specs.History.{History, called, called_all, noticed, withdrew, answered, key_count};
ghost use Rattle.connection_history.specs.Refusals.{refusal, after, by_of, cancel_answer, cancel_of};

use crate::connection::Connection;
use connection_history::Refused;
use connection_messages::{Answer, Outgoing};
use std::alloc::AllocError;

impl Connection {
    ghost use Rattle.connection.specs.Connections.{IsRefusal, StandsAfter, asked, asked_in, output};

    /// Calls the other side on behalf of the open call with this number, or of the host itself where it is 0, and answers
    /// the key of the call.
    pub fn call(&mut self, number: u64, outgoing: &Outgoing) -> Result<u64, Refused>
        ensures key { (history : History) (told : List Event) →
            StandsAfter self.old history told → IfOk result (λ key. key ≡ key_count history + 1) }
        ensures ok { (history : History) (told : List Event) →
            StandsAfter self.old history told → OnOk result
            ((refusal self.old.settings.cancels history (called number outgoing.now) ≡ None) ×
            StandsAfter self.new (called number outgoing.now ∷ history) told) }
        ensures err { IfErr result (λ why. (self.new ≡ self.old) ×
            ((history : History) (told : List Event) → StandsAfter self.old history told →
            IsRefusal why (refusal self.old.settings.cancels history (called number outgoing.now)))) }
        ensures settings { self.new.settings ≡ self.old.settings }
        ensures stream { self.new.stream ≡ self.old.stream }
        ensures taken { (output self.new).taken ≡ (output self.old).taken }
    {
        outgoing.is_sayable();
        self.desk.call(number, outgoing)
    }

    /// Calls the other side several times, in one array, and answers the key of the first. The other keys follow it.
    pub fn call_batch(&mut self, number: u64, outgoings: &[Outgoing]) -> Result<u64, Refused>
        ensures key { (history : History) (told : List Event) →
            StandsAfter self.old history told → IfOk result (λ key. key ≡ key_count history + 1) }
        ensures ok { (history : History) (told : List Event) →
            StandsAfter self.old history told → OnOk result
            ((refusal self.old.settings.cancels history (called_all number outgoings.now) ≡ None) ×
            StandsAfter self.new (called_all number outgoings.now ∷ history) told) }
        ensures err { IfErr result (λ why. (self.new ≡ self.old) ×
            ((history : History) (told : List Event) → StandsAfter self.old history told →
            IsRefusal why (refusal self.old.settings.cancels history (called_all number outgoings.now)))) }
        ensures settings { self.new.settings ≡ self.old.settings }
        ensures stream { self.new.stream ≡ self.old.stream }
        ensures taken { (output self.new).taken ≡ (output self.old).taken }
    {
        Outgoing::are_sayable(outgoings);
        self.desk.call_batch(number, outgoings)
    }

    /// Notifies the other side.
    pub fn notify(&mut self, outgoing: &Outgoing) -> Result<(), AllocError>
        ensures ok { (history : History) (told : List Event) →
            StandsAfter self.old history told → OnOk result (StandsAfter self.new (noticed outgoing.now ∷ history) told) }
        ensures err { OnErr result (self.new ≡ self.old) }
        ensures settings { self.new.settings ≡ self.old.settings }
        ensures stream { self.new.stream ≡ self.old.stream }
        ensures taken { (output self.new).taken ≡ (output self.old).taken }
    {
        outgoing.is_sayable();
        self.desk.notify(outgoing)
    }

    /// Withdraws our call with this key. By LSP's cancel it still waits for its reply; by MCP's it waits no longer, and a reply
    /// that still comes is ignored.
    pub fn withdraw(&mut self, key: u64) -> Result<(), Refused>
        ensures ok { (history : History) (told : List Event) →
            StandsAfter self.old history told → OnOk result
            ((refusal self.old.settings.cancels history (withdrew (by_of self.old.settings.cancels) key) ≡ None) ×
            StandsAfter self.new (withdrew (by_of self.old.settings.cancels) key ∷ history) told) }
        ensures err { IfErr result (λ why. (self.new ≡ self.old) ×
            ((history : History) (told : List Event) → StandsAfter self.old history told →
            IsRefusal why (refusal self.old.settings.cancels history (withdrew (by_of self.old.settings.cancels) key)))) }
        ensures settings { self.new.settings ≡ self.old.settings }
        ensures stream { self.new.stream ≡ self.old.stream }
        ensures taken { (output self.new).taken ≡ (output self.old).taken }
    {
        self.desk.withdraw(key)
    }

    /// Answers the open call with this number. For a notification it says that the host is done with it, and nothing is
    /// written.
    pub fn answer(&mut self, number: u64, answer: &Answer) -> Result<(), Refused>
        ensures ok { (history : History) (told : List Event) →
            StandsAfter self.old history told → OnOk result
            ((refusal self.old.settings.cancels history (answered number (Some answer.now)) ≡ None) ×
            StandsAfter self.new (answered number (Some answer.now) ∷ history) told) }
        ensures err { IfErr result (λ why. (self.new ≡ self.old) ×
            ((history : History) (told : List Event) → StandsAfter self.old history told →
            IsRefusal why (refusal self.old.settings.cancels history (answered number (Some answer.now))))) }
        ensures settings { self.new.settings ≡ self.old.settings }
        ensures stream { self.new.stream ≡ self.old.stream }
        ensures taken { (output self.new).taken ≡ (output self.old).taken }
    {
        answer.is_answer();
        self.desk.answer(number, answer)
    }

    /// The same with the result that is this text, which is copied nowhere but into what is written.
    pub fn answer_result(&mut self, number: u64, text: &str) -> Result<(), Refused>
        requires { IsJsonText text.now }
        ensures ok { (history : History) (told : List Event) →
            StandsAfter self.old history told → OnOk result
            ((refusal self.old.settings.cancels history (answered number (Some (Result text.now))) ≡ None) ×
            StandsAfter self.new (answered number (Some (Result text.now)) ∷ history) told) }
        ensures err { IfErr result (λ why. (self.new ≡ self.old) ×
            ((history : History) (told : List Event) → StandsAfter self.old history told →
            IsRefusal why (refusal self.old.settings.cancels history (answered number (Some (Result text.now)))))) }
        ensures settings { self.new.settings ≡ self.old.settings }
        ensures stream { self.new.stream ≡ self.old.stream }
        ensures taken { (output self.new).taken ≡ (output self.old).taken }
    {
        self.desk.answer_result(number, text)
    }

    /// Withdraws the calls of the open call with this number that wait, and answers it with the error `Request cancelled`;
    /// all or nothing. With MCP's cancels a request whose cancel came is closed without an answer.
    pub fn cancel(&mut self, number: u64) -> Result<(), Refused>
        ensures ok { (history : History) (told : List Event) →
            StandsAfter self.old history told → OnOk result
            ((refusal self.old.settings.cancels history (answered number (cancel_answer self.old.settings.cancels number history)) ≡ None) ×
            StandsAfter self.new (after history (cancel_of self.old.settings.cancels number history)) told) }
        ensures err { IfErr result (λ why. (self.new ≡ self.old) ×
            ((history : History) (told : List Event) → StandsAfter self.old history told →
            IsRefusal why (refusal self.old.settings.cancels history (answered number (cancel_answer self.old.settings.cancels number history))))) }
        ensures settings { self.new.settings ≡ self.old.settings }
        ensures stream { self.new.stream ≡ self.old.stream }
        ensures taken { (output self.new).taken ≡ (output self.old).taken }
    {
        self.desk.cancel(number)
    }

    /// Whether this call is a request, and so has an answer. There is none where it isn't open.
    pub fn is_request(&self, number: u64) -> Option<bool>
        ensures now { result ≡ asked self.now number }
        ensures history { (history : History) (told : List Event) →
            StandsAfter self.now history told → result ≡ asked_in history number }
    {
        self.desk.is_request(number)
    }
}
