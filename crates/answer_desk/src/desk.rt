ghost use Rattle.std.specs.Prelude.{◌≡◌, ◌+◌, ◌<◌, ◌++◌, ◌≤◌, ◌↔◌, [], ◌∷◌, IsTrue, IfOk, IfSome, OnOk, OnErr, flat_map, length, map, drop, is_some, true, false};
ghost use Rattle.lsp_frames.specs.Frames.{written};
ghost use Rattle.rpc_messages.specs.declared.key.TheConstants.{MOST_NUMBERS};
ghost use Rattle.rpc_messages.specs.declared.kind.Kind.TheVariants.{Single};
ghost use Rattle.open_numbers.specs.Kept.{kept_at, open_number};
ghost use Rattle.answer_desk.specs.Seen.{waiting_of};
ghost use Rattle.answer_desk.specs.Waiting.{behind_front};
ghost use Rattle.open_numbers.specs.Requests.{IsOutOfReach};
ghost use Rattle.answer_desk.specs.Inner.Units.{ascends, requests_of, front_finished};

use crate::answers::may_be_finished;
use crate::arrival::{Arrival, append_place, due_of};
use crate::front::{Front, drop_front, let_go_of_large, put_frames, texts_of};
use crate::queue::shrink_queue;
use crate::shape::{Place, Shape};
use crate::waiting_unit::{Dues, WaitingUnit};
use json_values::Items;
use open_numbers::{Numbers, Put};
use rpc_messages::{Id, Kind, Reply};
use std::alloc::{AllocError, Global};
use std::collections::VecDeque;

/// Numbers the calls that arrive, keeps the first reply to each call of our own until it is taken, and gives the answers
/// back in the order in which their units came.
///
/// Numbers are looked up by their place in a window that begins at the first number that is open or whose answer
/// isn't released, and units wait in a row from the first that isn't released.
pub struct Desk {
    alloc: Global,
    numbers: Numbers,
    units: VecDeque<WaitingUnit>,
    /// Each answer is made here, before it is framed.
    text: Vec<u8>,
    /// How many parts of the first unit are known to be finished.
    finished_parts: usize,
    is_closed: bool,
    ghost numbers_ascend: { ascends 0 (length numbers) (requests_of units.items) ≡ true },
    ghost parts_are_finished: { front_finished finished_parts
        (map (waiting_of numbers) units.items) ≡ true },
    ghost opening: { IsOutOfReach (kept_at numbers 0) },
}

// Written out, so that whoever drops one makes a call, and knows nothing of what is in it.
impl Drop for Desk {
    fn drop(self) {
        let Desk {
            alloc: _,
            numbers,
            units,
            text,
            finished_parts: _,
            is_closed: _,
        } = self;
        drop(numbers);
        drop(units);
        drop(text);
    }
}

impl Desk {
    ghost use Rattle.answer_desk.specs.Desk.{view};
    ghost use Rattle.answer_desk.specs.Places.{new_numbers};
    ghost use Rattle.answer_desk.specs.State.{new_state, opening_state, next_number, is_open, number_at, with_unit, put_of, with_reply, reply_of, without_reply, IsLowestInReach, with_reached, with_marks, with_board_closed, with_end, front_texts, without_front};
    ghost use Rattle.open_numbers.specs.OpenCalls.{is_marked_number};

    /// No number is open, and the first call takes the number 1. Takes no memory.
    pub fn new(alloc: Global) -> Desk
        ensures { view result ≡ new_state }
    {
        Desk::with_numbers(alloc, Numbers::new(alloc))
    }

    /// A desk whose number 0 is open too, for calls that the peer begins by itself: it belongs to no unit, no cancel
    /// reaches it, and it has room for the replies to its calls 1 to `most`. The first call that arrives takes the
    /// number 1.
    pub fn with_opening(alloc: Global, most: u32) -> Result<Desk, AllocError>
        ensures { IfOk result (λ desk. view desk ≡ opening_state most) }
    {
        let numbers = Numbers::with_opening(alloc, most)?;
        Ok(Desk::with_numbers(alloc, numbers))
    }

    /// No unit waits, and the board is open.
    fn with_numbers(alloc: Global, numbers: Numbers) -> Desk
        requires { IsOutOfReach (kept_at numbers 0) }
        ensures { view result ≡
            record { numbers = map open_number numbers; is_closed = false; units = [] } }
    {
        Desk {
            alloc,
            numbers,
            units: VecDeque::new(alloc),
            text: Vec::new(alloc),
            finished_parts: 0,
            is_closed: false,
        }
    }

    /// Whether no unit waits for its answer.
    pub fn is_empty(&self) -> bool
        ensures { IsTrue result ↔ ((view self.now).units ≡ []) }
    {
        self.units.is_empty()
    }

    /// The number that the next call takes; 1,000,001 once there is none left.
    pub fn next_number(&self) -> u32
        ensures { result ≡ next_number (view self.now) }
    {
        self.numbers.next()
    }

    /// Gives the next numbers to the calls of a unit that arrives, in their order; the answer is the first of these
    /// numbers, or the next free one where the unit has no call. Makes the room for the replies to the calls of each
    /// number and for its answer. The numbers stay at most 1,000,000. A single unit has one place; a batch
    /// has at least one, and none that is unreadable.
    pub fn open_unit(&mut self, shape: Shape) -> Result<u32, AllocError>
        requires { next_number (view self.old) + length (new_numbers shape.places)
            ≤ MOST_NUMBERS + 1 }
        ensures number { IfOk result (λ number. number ≡ next_number (view self.old)) }
        ensures ok { OnOk result (view self.new ≡ with_unit (view self.old) shape) }
        ensures err { OnErr result (view self.new ≡ view self.old) }
    {
        let number = self.numbers.next();
        let Shape { kind, places } = shape;
        let Arrival { calls, dues } = Arrival::make(
            self.alloc,
            &mut self.numbers,
            places.into_vec(),
        )?;
        self.units.reserve(1)?;
        self.numbers.append(calls)?;
        self.units.push_back_reserved(WaitingUnit {
            kind,
            dues: Dues::list(dues),
        });
        Ok(number)
    }

    /// The same for a single entry. It makes no list.
    pub fn open_single(&mut self, place: Place) -> Result<u32, AllocError>
        requires { next_number (view self.old) + length (new_numbers (place ∷ []))
            ≤ MOST_NUMBERS + 1 }
        ensures number { IfOk result (λ number. number ≡ next_number (view self.old)) }
        ensures ok { OnOk result (view self.new ≡
            with_unit (view self.old) (record { kind = Single; places = place ∷ [] })) }
        ensures err { OnErr result (view self.new ≡ view self.old) }
    {
        let number = self.numbers.next();
        let due = due_of(number, &place);
        self.units.reserve(1)?;
        append_place(self.alloc, &mut self.numbers, place)?;
        self.units.push_back_reserved(WaitingUnit {
            kind: Kind::Single,
            dues: Dues::one(due),
        });
        Ok(number)
    }

    /// Keeps the first reply to a call of an open number. Takes no memory.
    pub fn put_reply(&mut self, number: u32, turn: u32, reply: Reply) -> Put
        ensures put { result ≡ put_of (view self.old) number turn }
        ensures after { view self.new ≡ with_reply (view self.old) number turn reply }
    {
        if self.is_closed {
            drop(reply);
            return Put::Unknown;
        }
        self.numbers.put_reply(number, turn, reply)
    }

    /// One step of a cancel of this id (LSP 3.17, cancellation support): it marks the lowest open request of that id that no
    /// cancel has reached and whose number is below `before`, and gives its number. Takes no memory.
    pub fn reach(&mut self, id: &Id, before: u32) -> Option<u32>
        ensures lowest { IsLowestInReach (view self.old) id.now before result }
        ensures after { view self.new ≡ with_reached (view self.old) result }
        ensures opening { IfSome result (λ number. 0 < number) }
    {
        self.numbers.reach(id, before)
    }

    /// All steps of a cancel: it marks the open requests of that id whose numbers are below `before`. Takes no memory.
    pub fn mark(&mut self, id: &Id, before: u32)
        ensures after { view self.new ≡ with_marks (view self.old) id.now before }
        ensures opening { number_at (view self.new) 0 ≡ number_at (view self.old) 0 }
    {
        self.numbers.mark(id, before);
    }

    /// Whether a cancel has reached this open number.
    pub fn is_marked(&self, number: u32) -> bool
        ensures marked { result ≡ is_marked_number (number_at (view self.now) number) }
        ensures opening { number ≡ 0 → result ≡ false }
    {
        match self.numbers.open_number(number) {
            Some(call) => call.is_marked,
            None => false,
        }
    }

    /// No further reply comes. Takes no memory.
    pub fn close_board(&mut self)
        ensures { view self.new ≡ with_board_closed (view self.old) }
    {
        self.is_closed = true;
    }

    /// The kept reply to this call, and `No reply` where none was kept before the board was closed; each once. Takes
    /// no memory.
    pub fn take_reply(&mut self, number: u32, turn: u32) -> Option<Reply>
        ensures reply { result ≡ reply_of (view self.old) number turn }
        ensures after { view self.new ≡ without_reply (view self.old) number turn }
    {
        self.numbers.take_reply(number, turn, self.is_closed)
    }

    /// Whether `take_reply` would give one.
    pub fn has_reply(&self, number: u32, turn: u32) -> bool
        ensures { result ≡ is_some (reply_of (view self.now) number turn) }
    {
        match self.numbers.open_number(number) {
            Some(call) => call.replies.has(turn, self.is_closed),
            None => false,
        }
    }

    /// Whether the number is open: it was given, and `finish` hasn't ended it.
    pub fn is_open(&self, number: u32) -> bool
        ensures { result ≡ is_open (view self.now) number }
    {
        self.numbers.open_number(number).is_some()
    }

    /// The end of an open number: a request has its answer, and nothing more is kept of a notification. Takes no memory.
    pub fn finish(&mut self, number: u32, reply: Reply)
        requires { IsTrue (is_open (view self.old) number) }
        ensures { view self.new ≡ with_end (view self.old) number reply }
    {
        self.numbers.finish(number, reply);
        // (behind an answer that is out, notifications end one by one, and `release` has nothing to do)
        self.numbers.shrink();
    }

    /// Whether `release` may have something to do: false only where the first unit that waits isn't whole, or none waits.
    /// One step, whatever waits.
    pub fn has_due(&self) -> bool
        ensures none { result ≡ false → (front_texts (view self.now) ≡ [])
            × (without_front (view self.now) ≡ view self.now) }
        ensures empty { (view self.now).units ≡ [] → result ≡ false }
    {
        match self.units.front() {
            Some(unit) => {
                may_be_finished(&self.numbers, unit.dues.as_slice(), self.finished_parts)
            }
            None => false,
        }
    }

    /// The answers of the longest front of units all of whose requests are finished, in order of arrival (JSON-RPC 2.0,
    /// section 6: a batch is answered with one array, and with nothing where no entry has an answer).
    pub fn release(&mut self) -> Result<Items<Items<u8>>, AllocError>
        ensures texts { IfOk result (λ texts. texts ≡ front_texts (view self.old)) }
        ensures ok { OnOk result (view self.new ≡ without_front (view self.old)) }
        ensures err { OnErr result (view self.new ≡ view self.old) }
    {
        let front = Front::find(&self.numbers, &self.units, self.finished_parts);
        let texts = texts_of(self.alloc, &self.numbers, &self.units, front.count)?;
        self.drop_front(front);
        Ok(Items::from(texts))
    }

    /// Puts what `release` would give behind the bytes, each text in a frame (LSP 3.17, base protocol), and tells how many they
    /// are.
    pub fn release_to(&mut self, bytes: &mut Vec<u8>) -> Result<usize, AllocError>
        ensures count { IfOk result (λ count. count ≡ length (front_texts (view self.old))) }
        ensures bytes { OnOk result (bytes.new.items ≡
            bytes.old.items ++ flat_map written (front_texts (view self.old))) }
        ensures ok { OnOk result (view self.new ≡ without_front (view self.old)) }
        ensures err { OnErr result (view self.new ≡ view self.old) }
        ensures bytes_err { OnErr result (bytes.new.items ≡ bytes.old.items) }
    {
        let front = Front::find(&self.numbers, &self.units, self.finished_parts);
        let text = &mut self.text;
        let count = put_frames(
            self.alloc,
            bytes,
            text,
            &self.numbers,
            &self.units,
            front.count,
        )?;
        self.drop_front(front);
        Ok(count)
    }

    /// Lets go of the units of the front, and of their answers.
    fn drop_front(&mut self, front: Front)
        requires behind { drop front.count (view self.old).units ≡
            behind_front (view self.old).units }
        requires finished { front_finished front.finished_parts
            (drop front.count (view self.old).units) ≡ true }
        ensures { view self.new ≡ without_front (view self.old) }
    {
        drop_front(&mut self.numbers, &mut self.units, front.count);
        self.finished_parts = front.finished_parts;
        self.numbers.shrink();
        shrink_queue(&mut self.units);
        let_go_of_large(self.alloc, &mut self.text);
    }
}
