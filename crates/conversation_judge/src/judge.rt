//! What is found in what was seen of two sides, as it is seen.

ghost use Rattle.std.specs.Prelude.{◌≡◌, ◌≤◌, ◌++◌, ◌∷◌, [], List, true, drop, OnOk, OnErr, IsErr};
ghost use Rattle.std.specs.Option.{option_to_list};
ghost use Rattle.lsp_frames.specs.declared.limits.TheConstants.{LARGEST_CONTENT as MOST_BYTES};

use crate::seeing::{see_bytes_of, see_end_of};
use content_streams::{ContentStream, Framing, HowEnded};
use conversation_entries::{Speaker, new_speaker};
use conversation_reading::StrictReader;
use conversation_rules::{Finding, Limits, Protocol, Side};
use std::alloc::{AllocError, Global};
use std::collections::VecDeque;
use std::marker::Model;

/// Judges two sides that talk: it is told what was seen of them, in the order in which it was seen, and tells what it
/// finds in it.
///
/// It holds what is owed, the ids that were used, the findings that it hasn't told, and of each stream the unfinished
/// frame or line. What has passed is seen by clauses only.
#[derive(Drop)]
pub struct Judge {
    alloc: Global,
    protocol: Protocol,
    reader: StrictReader,
    client_stream: ContentStream,
    server_stream: ContentStream,
    client: Speaker,
    server: Speaker,
    findings: VecDeque<Finding>,
    is_stopped: bool,
}

impl Model for Judge {
    ghost use Rattle.conversation_judge.specs.Judged.{Judged};
    ghost use Rattle.conversation_entries.specs.Said.{said};

    ghost Value = { Judged };

    ghost view = { λ a. record {
      protocol = a.protocol;
      state = record {
        client_stream = a.client_stream;
        server_stream = a.server_stream;
        client = said a.client;
        server = said a.server;
      };
      untold = a.findings.items;
      is_stopped = a.is_stopped;
    } };
}

impl Judge {
    ghost use Rattle.conversation_judge.specs.Judged.{Judged, new_judge, with_seen, Stands};
    ghost use Rattle.conversation_judge.specs.Said.{ended_as};
    ghost use Rattle.conversation_rules.specs.Judging.{Seen, Wrote};
    ghost use Rattle.conversation_rules.specs.Judging as judging;
    ghost use Rattle.conversation_rules.specs.declared.finding.Finding.{Finding as FindingValue};
    ghost use Rattle.conversation_rules.specs.declared.finding.Limits.{Limits as LimitsValue};
    ghost use Rattle.conversation_rules.specs.declared.protocol.Protocol.{Protocol as ProtocolValue};
    ghost use Rattle.content_streams.specs.declared.framing.Framing.{Framing as FramingValue};

    /// A judge that has seen nothing. Takes no memory.
    pub fn new(alloc: Global, protocol: Protocol, framing: Framing, limits: Limits) -> Judge
        requires some { 1 ≤ limits.content }
        requires most { limits.content ≤ MOST_BYTES }
        ensures value { result ≡ new_judge protocol framing limits }
        ensures stands { Stands protocol framing limits result [] [] }
    {
        Judge {
            alloc,
            protocol,
            reader: StrictReader::new(alloc),
            client_stream: ContentStream::new(alloc, framing, limits.content),
            server_stream: ContentStream::new(alloc, framing, limits.content),
            client: new_speaker(alloc, limits.ids),
            server: new_speaker(alloc, limits.ids),
            findings: VecDeque::new(alloc),
            is_stopped: false,
        }
    }

    /// A side wrote these bytes. Behind the end of a side they count nothing. If it is out of memory, it is as if they
    /// hadn't been seen, and nothing more is.
    pub fn saw(&mut self, side: Side, bytes: &[u8]) -> Result<(), AllocError>
        ensures ok { OnOk result (self.new ≡ with_seen (Wrote side bytes.now) self.old) }
        ensures stands { (protocol : ProtocolValue) (framing : FramingValue) (limits : LimitsValue)
            (seen : List Seen) (told : List FindingValue) → Stands protocol framing limits self.old seen told →
            OnOk result (Stands protocol framing limits self.new (seen ++ Wrote side bytes.now ∷ []) told) }
        ensures err { OnErr result ((self.new.is_stopped ≡ true) × (self.new.untold ≡ self.old.untold)) }
        ensures stopped { self.old.is_stopped ≡ true → IsErr result }
    {
        self.see_bytes(side, bytes)
    }

    /// A side's stream was closed. A second end of a side counts nothing. The same where it is out of memory.
    pub fn closed(&mut self, side: Side) -> Result<(), AllocError>
        ensures ok { OnOk result (self.new ≡ with_seen (judging.Closed side) self.old) }
        ensures stands { (protocol : ProtocolValue) (framing : FramingValue) (limits : LimitsValue)
            (seen : List Seen) (told : List FindingValue) → Stands protocol framing limits self.old seen told →
            OnOk result (Stands protocol framing limits self.new (seen ++ judging.Closed side ∷ []) told) }
        ensures err { OnErr result ((self.new.is_stopped ≡ true) × (self.new.untold ≡ self.old.untold)) }
        ensures stopped { self.old.is_stopped ≡ true → IsErr result }
    {
        self.see_end(side, HowEnded::Closed)
    }

    /// Reading a side's stream failed. The same.
    pub fn failed(&mut self, side: Side) -> Result<(), AllocError>
        ensures ok { OnOk result (self.new ≡ with_seen (judging.Failed side) self.old) }
        ensures stands { (protocol : ProtocolValue) (framing : FramingValue) (limits : LimitsValue)
            (seen : List Seen) (told : List FindingValue) → Stands protocol framing limits self.old seen told →
            OnOk result (Stands protocol framing limits self.new (seen ++ judging.Failed side ∷ []) told) }
        ensures err { OnErr result ((self.new.is_stopped ≡ true) × (self.new.untold ≡ self.old.untold)) }
        ensures stopped { self.old.is_stopped ≡ true → IsErr result }
    {
        self.see_end(side, HowEnded::ReadFailed)
    }

    /// Whether it ran out of memory, and sees nothing more.
    pub fn is_stopped(&self) -> bool
        ensures { result ≡ self.now.is_stopped }
    {
        self.is_stopped
    }

    /// The first finding that wasn't told. Takes no memory, and goes on where the judge is stopped.
    pub fn next_finding(&mut self) -> Option<Finding>
        ensures finding { self.old.untold ≡ option_to_list result ++ self.new.untold }
        ensures others { self.new ≡ record self.old { untold = drop 1 self.old.untold } }
        ensures stands { (protocol : ProtocolValue) (framing : FramingValue) (limits : LimitsValue)
            (seen : List Seen) (told : List FindingValue) → Stands protocol framing limits self.old seen told →
            Stands protocol framing limits self.new seen (told ++ option_to_list result) }
    {
        let finding = self.findings.pop_front();
        // The room of many findings isn't kept for those to come: a side that breaks a rule in each message is rare.
        if finding.is_some() && self.findings.is_empty() {
            self.findings = VecDeque::new(self.alloc);
        }
        finding
    }

    fn see_bytes(&mut self, side: Side, bytes: &[u8]) -> Result<(), AllocError>
        ensures ok { OnOk result (self.new ≡ with_seen (judging.Wrote side bytes.now) self.old) }
        ensures err { OnErr result ((self.new.is_stopped ≡ true) × (self.new.untold ≡ self.old.untold)) }
        ensures stopped { self.old.is_stopped ≡ true → IsErr result }
    {
        if self.is_stopped {
            return Err(AllocError);
        }
        self.is_stopped = true;
        let mut found = Vec::new(self.alloc);
        see_bytes_of(
            self.alloc,
            self.protocol,
            &mut self.reader,
            side,
            &mut found,
            &mut self.client_stream,
            &mut self.server_stream,
            &mut self.client,
            &mut self.server,
            bytes,
        )?;
        self.findings.append(&mut VecDeque::from_vec(found))?;
        self.is_stopped = false;
        Ok(())
    }

    fn see_end(&mut self, side: Side, how: HowEnded) -> Result<(), AllocError>
        ensures ok { OnOk result (self.new ≡ with_seen (ended_as side how) self.old) }
        ensures err { OnErr result ((self.new.is_stopped ≡ true) × (self.new.untold ≡ self.old.untold)) }
        ensures stopped { self.old.is_stopped ≡ true → IsErr result }
    {
        if self.is_stopped {
            return Err(AllocError);
        }
        self.is_stopped = true;
        let mut found = Vec::new(self.alloc);
        see_end_of(
            self.alloc,
            self.protocol,
            &mut self.reader,
            side,
            &mut found,
            &mut self.client_stream,
            &mut self.server_stream,
            &mut self.client,
            &mut self.server,
            how,
        )?;
        self.findings.append(&mut VecDeque::from_vec(found))?;
        self.is_stopped = false;
        Ok(())
    }
}
