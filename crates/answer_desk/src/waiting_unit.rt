ghost use Rattle.std.specs.Prelude.{◌≡◌, ◌∷◌, [], length};

use json_values::Items;
use rpc_messages::Kind;
use std::marker::Model;
use std::slice;

/// What an entry of a waiting unit is answered with.
#[derive(Clone, Copy)]
pub enum Due {
    ParseError,
    InvalidRequest,
    /// A reply or a notification is never answered.
    Nothing,
    /// What the request of this number is answered with: its id and its answer stand beside the number.
    Answer(u32),
}

/// A unit whose answer isn't released yet.
#[derive(Drop)]
pub struct WaitingUnit {
    pub kind: Kind,
    pub dues: Dues,
}

/// What is due to each entry of a unit, in their order, seen by contracts as a list.
#[derive(Drop)]
pub struct Dues {
    held: HeldDues,
}

/// A single due stands here itself, so that it takes no memory.
#[derive(Drop)]
pub enum HeldDues {
    One(Due),
    List(Items<Due>),
}

impl Model for Dues {
    ghost use Rattle.std.specs.Prelude.{List};
    ghost use Rattle.answer_desk.specs.declared.waiting_unit.Due.{Due};
    ghost use Rattle.answer_desk.specs.Inner.Dues.{held_dues};

    ghost Value = { List Due };

    ghost view = { λ d. held_dues d.held };
}

impl Dues {
    pub fn one(due: Due) -> Dues
        ensures { result ≡ due ∷ [] }
    {
        Dues {
            held: HeldDues::One(due),
        }
    }

    pub fn list(dues: Vec<Due>) -> Dues
        ensures { result ≡ dues.items }
    {
        Dues {
            held: HeldDues::List(Items::from(dues)),
        }
    }

    pub fn len(&self) -> usize
        ensures { result ≡ length self.now }
    {
        self.as_slice().len()
    }

    pub fn as_slice(&self) -> &[Due]
        ensures { result.now ≡ self.now }
    {
        match &self.held {
            HeldDues::One(due) => slice::from_ref(due),
            HeldDues::List(dues) => dues.as_slice(),
        }
    }
}
