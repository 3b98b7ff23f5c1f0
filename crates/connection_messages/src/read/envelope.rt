//! The members of a compact object that tell what it is.

ghost use Rattle.std.specs.Prelude.{◌≡◌, ◌<◌, ◌≤◌, ◌+◌, ◌-◌, get_or, length, IfSome, IsTrue};
ghost use Rattle.json_texts.specs.Known.{IsKnown};
ghost use Rattle.json_texts.specs.Standing.{HasValue};
ghost use Rattle.connection_messages.specs.Envelope.{HasEnvelope, HasEnvelopeAt, target_part};
ghost use Rattle.connection_messages.specs.Named.{HasMember, member_of, name_len, no_parts, with_part};
ghost use Rattle.connection_messages.specs.declared.read.unit.TheConstants.{MOST_DEPTH_IN};

use super::unit::MOST_DEPTH_IN;
use crate::cancels::Cancels;
use json_texts::{Known, begins, begins_short, name_end, value_end};

/// The texts of the members that tell what an object is, and of those by which the params of a cancel name a request. Of
/// members that stand twice it has the last.
#[derive(Drop)]
pub(crate) struct Envelope<'a> {
    pub(crate) version: Option<&'a str>,
    pub(crate) id: Option<&'a str>,
    pub(crate) method: Option<&'a str>,
    pub(crate) params: Option<&'a str>,
    pub(crate) result: Option<&'a str>,
    pub(crate) error: Option<&'a str>,
    pub(crate) request: Option<&'a str>,
}

impl<'a> Envelope<'a> {
    /// The envelope of an object without members. Members are noted in place, since it is too large to be handed on.
    pub(crate) fn new() -> Envelope<'a>
        ensures { result ≡ no_parts }
    {
        Envelope {
            version: None,
            id: None,
            method: None,
            params: None,
            result: None,
            error: None,
            request: None,
        }
    }

    /// Notes the members of a text that is a compact object, and tells whether it is seen to be one.
    pub(crate) fn note_whole(&mut self, text: &'a str, known: Known) -> bool
        requires empty { self.old ≡ no_parts }
        requires known { IsKnown (MOST_DEPTH_IN - 1) text.now known }
        ensures { IsTrue result → HasEnvelope text.now self.new }
    {
        match self.note_object(text, 0, MOST_DEPTH_IN - 1, known) {
            Some(end) => end == text.len(),
            None => false,
        }
    }

    /// Notes the members of the compact object that begins there, which nest at most `levels` deep. Its end.
    pub(crate) fn note_object(
        &mut self,
        text: &'a str,
        start: usize,
        levels: usize,
        known: Known,
    ) -> Option<usize>
        requires empty { self.old ≡ no_parts }
        requires known { IsKnown levels text.now known }
        ensures envelope { IfSome result (λ end. HasEnvelopeAt levels text.now start end self.new) }
        ensures bounds { IfSome result (λ end. (start < end) × (end ≤ length text.now)) }
    {
        let bytes = text.as_bytes();
        if start >= bytes.len() || bytes[start] != b'{' {
            return None;
        }
        let mut at = start + 1;
        while at < bytes.len() {
            let (member, from) = name_at(bytes, at)?;
            let end = part_end(bytes, from, levels, known)?;
            if end == bytes.len() {
                return None;
            }
            let next = bytes[end];
            if next != b',' && next != b'}' {
                return None;
            }
            self.note(member, &text[from..end]);
            at = end + 1;
            if next == b'}' {
                return Some(at);
            }
        }
        None
    }

    fn note(&mut self, member: Member, part: &'a str)
        ensures { self.new ≡ with_part member part.entry self.old }
    {
        match member {
            Member::Version => self.version = Some(part),
            Member::Id => self.id = Some(part),
            Member::Method => self.method = Some(part),
            Member::Params => self.params = Some(part),
            Member::Result => self.result = Some(part),
            Member::Error => self.error = Some(part),
            Member::Request => self.request = Some(part),
            Member::Other => {}
        }
    }

    /// The text of the member by which such cancels name a request.
    pub(crate) fn target(&self, by: Cancels) -> Option<&'a str>
        ensures { result ≡ target_part by self.now }
    {
        match by {
            Cancels::Lsp => self.id,
            Cancels::Mcp => self.request,
        }
    }
}

/// The members that an envelope has, and any other.
#[derive(Clone, Copy)]
enum Member {
    Version,
    Id,
    Method,
    Params,
    Result,
    Error,
    Request,
    Other,
}

impl Member {
    /// The member whose name, with its quotes and the colon behind it, the text begins with.
    fn of(text: &[u8]) -> Member
        ensures member { result ≡ member_of text.now }
        ensures bound { IfSome (name_len result) (λ len. (3 ≤ len) × (len ≤ length text.now)) }
    {
        if begins(text, b"\"jsonrpc", b"\":") {
            return Member::Version;
        }
        if begins_short(text, b"\"id\"", b":") {
            return Member::Id;
        }
        if begins(text, b"\"method\"", b":") {
            return Member::Method;
        }
        if begins(text, b"\"params\"", b":") {
            return Member::Params;
        }
        if begins(text, b"\"result\"", b":") {
            return Member::Result;
        }
        if begins(text, b"\"error\":", b"") {
            return Member::Error;
        }
        if begins(text, b"\"request", b"Id\":") {
            return Member::Request;
        }
        Member::Other
    }

    /// The length of its name, with its quotes and the colon behind it.
    fn name_len(self) -> Option<usize>
        ensures { result ≡ name_len self }
    {
        match self {
            Member::Version => Some(10),
            Member::Id => Some(5),
            Member::Method | Member::Params | Member::Result => Some(9),
            Member::Error => Some(8),
            Member::Request => Some(12),
            Member::Other => None,
        }
    }
}

/// The end of the compact value that begins there. Where it is known from making the text compact, the value isn't
/// passed once more. No member's value begins at 0, which stands for none known.
#[inline(always)]
fn part_end(text: &[u8], from: usize, levels: usize, known: Known) -> Option<usize>
    requires bounds { (0 < from) × (from ≤ length text.now) }
    requires known { IsKnown levels text.now known }
    ensures value { IfSome result (λ end. HasValue levels text.now from end) }
    ensures bounds { IfSome result (λ end. (from ≤ end) × (end ≤ length text.now)) }
{
    if known.start == from {
        return Some(known.end);
    }
    value_end(text, from, levels)
}

/// The member whose name begins there, and the end of the name and of the colon behind it. A name that an envelope has is
/// told by its bytes, so that no search for its end is made and no name is compared twice.
fn name_at(text: &[u8], at: usize) -> Option<(Member, usize)>
    requires { at ≤ length text.now }
    ensures name { IfSome result (λ r. HasMember text.now at r.1 r.0) }
    ensures colon { IfSome result (λ r. get_or text.now (r.1 - 1) 0 ≡ 58) }
    ensures bounds { IfSome result (λ r. (at + 3 ≤ r.1) × (r.1 ≤ length text.now)) }
{
    let member = Member::of(&text[at..]);
    match member.name_len() {
        Some(len) => Some((member, at + len)),
        None => Some((member, name_end(text, at)?)),
    }
}
