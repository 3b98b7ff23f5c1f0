//! What the host says.

ghost use Rattle.std.specs.Prelude.{◌≡◌, [], true, IfOk, IfErr};
ghost use Rattle.json_texts.specs.Texts.{IsJsonText};
ghost use Rattle.connection_desk.specs.Desks.{has_call};
ghost use Rattle.host_calls.specs.Saying.{HasEnded, HasCalled, HasNotified, HasWithdrawn, HasAnswered, HasFailed, HasCancelled, IsAnswer, IsNoAnswer, how_of};

use crate::code::Why;
use crate::outlet::Outlet;
use crate::texts::{compact_text, failure_of, json_of, outgoing_of};
use connection::{Answer, Connection, HowEnded, Refused};
use json_texts::TextReader;
use message_ids::Standard;

impl Outlet {
    pub fn end(&mut self, how: u32) -> Result<(), Why>
        ensures { HasEnded self.old self.new how result }
    {
        let Some(how) = how_of(how) else {
            return Err(Why::Settings);
        };
        self.connection.end(how)?;
        Ok(())
    }

    pub fn call(
        &mut self,
        number: u64,
        method: &[u8],
        params: &[u8],
        key: &mut u64,
    ) -> Result<(), Why>
        ensures { HasCalled self.old self.new number method.now params.now key.old key.new result }
    {
        if !has_call(&self.connection, number) {
            return Err(Why::Refused(Refused::NotOpen));
        }
        let outgoing = outgoing_of(self.alloc, &mut self.reader, method, params)?;
        *key = self.connection.call(number, &outgoing)?;
        Ok(())
    }

    pub fn notify(&mut self, method: &[u8], params: &[u8]) -> Result<(), Why>
        ensures { HasNotified self.old self.new method.now params.now result }
    {
        let outgoing = outgoing_of(self.alloc, &mut self.reader, method, params)?;
        self.connection.notify(&outgoing)?;
        Ok(())
    }

    pub fn withdraw(&mut self, key: u64) -> Result<(), Why>
        ensures { HasWithdrawn self.old self.new key result }
    {
        self.connection.withdraw(key)?;
        Ok(())
    }

    pub fn answer(&mut self, number: u64, bytes: &[u8]) -> Result<(), Why>
        ensures { HasAnswered self.old self.new number bytes.now result }
    {
        if let Some(text) = compact_text(bytes) {
            return self.answer_compact(number, text);
        }
        let answer = read_result(&self.connection, &mut self.reader, number, bytes)?;
        self.connection.answer(number, &answer)?;
        Ok(())
    }

    /// The same with a text that is compact, which isn't copied before it is written.
    fn answer_compact(&mut self, number: u64, text: &str) -> Result<(), Why>
        requires { IsJsonText text.now }
        ensures { HasAnswered self.old self.new number text.now result }
    {
        match self.connection.answer_result(number, text) {
            Ok(()) => Ok(()),
            Err(refused) => Err(Why::Refused(refused)),
        }
    }

    /// Closes a notification. A request isn't closed without a result.
    pub fn close(&mut self, number: u64) -> Result<(), Why>
        ensures { HasAnswered self.old self.new number [] result }
    {
        self.answer(number, &[])
    }

    pub fn fail(&mut self, number: u64, code: i64, message: &[u8], extra: &[u8]) -> Result<(), Why>
        ensures { HasFailed self.old self.new number code message.now extra.now result }
    {
        if self.connection.is_request(number).is_none() {
            return Err(Why::Refused(Refused::NotOpen));
        }
        let answer = failure_of(self.alloc, &mut self.reader, code, message, extra)?;
        self.connection.answer(number, &answer)?;
        Ok(())
    }

    pub fn cancel(&mut self, number: u64) -> Result<(), Why>
        ensures { HasCancelled self.old self.new number result }
    {
        self.connection.cancel(number)?;
        Ok(())
    }
}

/// The answer to this call. No bytes are the end of a notification, of which nothing is written.
fn read_result(
    connection: &Connection,
    reader: &mut TextReader,
    number: u64,
    bytes: &[u8],
) -> Result<Answer, Why>
    ensures ok { IfOk result (λ answer. IsAnswer connection.now number bytes.now answer) }
    ensures err { IfErr result (λ why. IsNoAnswer connection.now number bytes.now why) }
{
    match connection.is_request(number) {
        None => Err(Why::Refused(Refused::NotOpen)),
        Some(is_request) => {
            if !is_request && bytes.is_empty() {
                return Ok(Answer::Standard(Standard::InternalError));
            }
            Ok(Answer::Result(json_of(reader, bytes)?))
        }
    }
}

/// Whether this call is open. 0 is the host itself.
pub(crate) fn has_call(connection: &Connection, number: u64) -> bool
    ensures { result ≡ has_call number connection.now.desk.state }
{
    number == 0 || connection.is_request(number).is_some()
}

fn how_of(how: u32) -> Option<HowEnded>
    ensures { result ≡ how_of how }
{
    match how {
        0 => Some(HowEnded::Closed),
        1 => Some(HowEnded::ReadFailed),
        _ => None,
    }
}
