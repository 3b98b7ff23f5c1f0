ghost use Rattle.std.specs.Prelude.{◌≡◌, ◌++◌, ◌∷◌, [], map, length, is_some, option_map, IfOk, OnOk, OnErr};
ghost use Rattle.conversation_rules.specs.Dues.{owed_more, closed, may_be_refused, is_asked, has_cancelled, cancelled_in, settled, found, unreadable_target, array_target, found_batch, ids_read, settled_batch, unanswered};
ghost use Rattle.conversation_rules.specs.Matching.{is_guess, named_target, null_target, parse_error_target};
ghost use Rattle.conversation_rules.specs.Owed.{new_due, unreadable_due};

use crate::batches::is_guess;
use crate::settling::{
    settle_batch, settle_named, settle_null, settle_parse_error, settle_unreadable,
};
use crate::sought::{Sought, is_there};
use crate::targets::{has_unreadable, may_be_refused};
use conversation_ids::Owed;
use conversation_open::OpenContents;
use conversation_reading::WrittenId;
use conversation_rules::{Fit, Found, Unanswered};
use std::alloc::{AllocError, Global};
use std::marker::Model;

/// What a side owes, by the contents of the other side, the oldest first. Where memory is refused, it stays what it was.
#[derive(Drop)]
pub struct Dues {
    alloc: Global,
    contents: OpenContents,
}

impl Model for Dues {
    ghost use Rattle.std.specs.Prelude.{List};
    ghost use Rattle.conversation_rules.specs.Owed.{Due as DueValue};

    ghost Value = { List DueValue };

    ghost use Rattle.conversation_open.specs.Open.{open_entries, contents_of, IsOpen};

    ghost view = { λ d. contents_of (open_entries d.contents) };

    ghost invariant = { λ d. IsOpen d.contents };
}

impl Dues {
    pub fn new(alloc: Global) -> Dues
        ensures { result ≡ [] }
    {
        Dues {
            alloc,
            contents: OpenContents::new(alloc),
        }
    }

    /// On how many contents something is owed.
    pub fn len(&self) -> u64
        ensures { result ≡ length self.now }
    {
        self.contents.len()
    }

    /// Begins a content of the other side: `number` is the how-manieth it is, and `offset` that of its first byte. Nothing is
    /// owed on it yet.
    pub fn open(
        &mut self,
        number: u64,
        offset: u64,
        is_batch: bool,
        has_huge: bool,
    ) -> Result<(), AllocError>
        ensures ok { OnOk result (self.new ≡ self.old ++ new_due number offset is_batch has_huge ∷ []) }
        ensures err { OnErr result (self.new ≡ self.old) }
    {
        self.contents.open(number, offset, is_batch, has_huge)
    }

    /// A content that can't be read.
    pub fn open_unreadable(&mut self, number: u64, offset: u64) -> Result<(), AllocError>
        ensures ok { OnOk result (self.new ≡ self.old ++ unreadable_due number offset ∷ []) }
        ensures err { OnErr result (self.new ≡ self.old) }
    {
        self.contents.open_unreadable(number, offset)
    }

    /// One more entry of the last content.
    pub fn owe(&mut self, owed: Owed) -> Result<(), AllocError>
        ensures ok { OnOk result (self.new ≡ owed_more owed self.old) }
        ensures err { OnErr result (self.new ≡ self.old) }
    {
        self.contents.owe(owed)
    }

    /// The last content has no more entries: it is forgotten where nothing on it may be answered.
    pub fn close(&mut self)
        ensures { self.new ≡ closed self.old }
    {
        self.contents.close();
    }

    /// Whether what is open may be refused whole: a batch, or what a reader may limit.
    pub fn may_be_refused(&self) -> bool
        ensures { result ≡ may_be_refused self.now }
    {
        may_be_refused(&self.contents)
    }

    /// Whether a content that couldn't be read is open.
    pub fn has_unreadable(&self) -> bool
        ensures { result ≡ is_some (unreadable_target self.now) }
    {
        has_unreadable(&self.contents)
    }

    /// Whether a request with this id is open.
    pub fn is_asked(&self, id: &WrittenId) -> bool
        ensures { result ≡ is_asked id.now self.now }
    {
        is_there(&self.contents, Sought::Asked, id)
    }

    /// Whether a request with this id is open whose cancel was seen.
    pub fn has_cancelled(&self, id: &WrittenId) -> bool
        ensures { result ≡ has_cancelled id.now self.now }
    {
        is_there(&self.contents, Sought::Cancelled, id)
    }

    /// A cancel of the requests with this id was seen. Where it settles them, they needn't be answered any more.
    pub fn cancel(&mut self, id: &WrittenId, settles: bool)
        ensures { self.new ≡ map (cancelled_in settles id.now) self.old }
    {
        self.contents.cancel(id, settles);
    }

    /// A single answer came whose id isn't null: what it is for is settled, and told.
    pub fn answer_named(&mut self, id: &WrittenId) -> Option<Found>
        ensures found { result ≡ found (named_target id.now self.old) self.old }
        ensures settled { self.new ≡ settled (named_target id.now self.old) self.old }
    {
        settle_named(&mut self.contents, id)
    }

    /// A single answer with the id null came whose code isn't -32700: `says_invalid` where that is -32600, `is_unsure` where
    /// it may be for a content that is refused whole, or that couldn't be read.
    pub fn answer_null(&mut self, says_invalid: bool, is_unsure: bool) -> Option<Found>
        ensures found { result ≡ found (null_target says_invalid is_unsure self.old) self.old }
        ensures settled { self.new ≡ settled (null_target says_invalid is_unsure self.old) self.old }
    {
        settle_null(&mut self.contents, says_invalid, is_unsure)
    }

    /// A single answer with the id null and the code -32700 came.
    pub fn answer_parse_error(&mut self, is_unsure: bool) -> Option<Found>
        ensures found { result ≡ found (parse_error_target is_unsure self.old) self.old }
        ensures settled { self.new ≡ settled (parse_error_target is_unsure self.old) self.old }
    {
        settle_parse_error(&mut self.contents, is_unsure)
    }

    /// An answer came that fits nothing: it may be for the oldest content that couldn't be read. Answers whether there is one.
    pub fn answer_unreadable(&mut self) -> bool
        ensures found { result ≡ is_some (unreadable_target self.old) }
        ensures settled { self.new ≡ settled (unreadable_target self.old) self.old }
    {
        settle_unreadable(&mut self.contents)
    }

    /// An array of answers came, with these ids, where they can be read: the batch that it is for is settled, and of each
    /// answer it is told which entry it takes.
    pub fn answer_batch(
        &mut self,
        ids: &[Option<WrittenId>],
    ) -> Result<Option<Vec<Option<Fit>>>, AllocError>
        ensures found { IfOk result (λ fits. option_map (λ v. v.items) fits ≡ found_batch ids.now self.old) }
        ensures settled { OnOk result (self.new ≡ settled_batch (array_target ids.now self.old) self.old) }
        ensures err { OnErr result (self.new ≡ self.old) }
    {
        settle_batch(self.alloc, &mut self.contents, ids)
    }

    /// Whether it has to be guessed for which batch an array of answers with these ids is: one is open, and just these are
    /// expected from none.
    pub fn is_guess(&self, ids: &[Option<WrittenId>]) -> Result<bool, AllocError>
        ensures { IfOk result (λ b. b ≡ is_guess (ids_read ids.now) self.now) }
    {
        is_guess(self.alloc, &self.contents, ids)
    }

    /// The requests that must be answered, and aren't.
    pub fn unanswered(&self) -> Result<Vec<Unanswered>, AllocError>
        ensures { IfOk result (λ told. told.items ≡ unanswered self.now) }
    {
        let mut told = Vec::new(self.alloc);
        self.contents.put_unanswered(&mut told)?;
        Ok(told)
    }

    /// Nothing is owed any more.
    pub fn clear(&mut self)
        ensures { self.new ≡ [] }
    {
        self.contents = OpenContents::new(self.alloc);
    }
}
