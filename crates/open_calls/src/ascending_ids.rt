ghost use Rattle.std.specs.Prelude.{◌≡◌, ℕ, ◌==◌, ◌&&◌, ◌++◌, ◌∷◌, [], true, false, if◌then◌else◌, IfOk, OnOk, OnErr, MatchOption};
ghost use Rattle.message_ids.specs.declared.id.Id.{Id};
ghost use Rattle.message_ids.specs.Ids.{same_id};
ghost use Rattle.number_windows.specs.Numbered.{at, Below};
ghost use Rattle.open_calls.specs.Inner.{is_ascending, points};

use message_ids::Id;
use number_windows::NumberWindow;
use std::alloc::{AllocError, Global};
use std::marker::Model;

/// Of ids that are whole numbers and ascend, as most clients count them, the number of the request. Contracts see the list of
/// both, by ids.
#[derive(Drop)]
pub struct AscendingIds {
    numbers: NumberWindow<u64>,
}

impl Model for AscendingIds {
    ghost use Rattle.std.specs.Prelude.{ℕ, List};
    ghost use Rattle.number_windows.specs.Windows.{window_entries, IsWindow};

    ghost Value = { List (ℕ × ℕ) };

    ghost view = { λ a. window_entries a.numbers };

    ghost invariant = { λ a. IsWindow a.numbers };
}

impl AscendingIds {
    pub fn new(alloc: Global) -> AscendingIds
        ensures { (id : Id) (k : ℕ) → is_ascending result id k ≡ false }
    {
        AscendingIds {
            numbers: NumberWindow::new(alloc),
        }
    }

    /// The number of this id.
    pub fn number_of(&self, id: &Id) -> Option<u64>
        ensures { MatchOption result
            ((k : ℕ) → is_ascending self.now id.now k ≡ false)
            (λ number. (k : ℕ) → is_ascending self.now id.now k ≡ (number == k)) }
    {
        match id {
            Id::Unsigned(id) => self.numbers.get(*id).copied(),
            _ => None,
        }
    }

    /// Takes the number of this id out, where it is this one.
    pub fn remove(&mut self, id: &Id, number: u64)
        ensures { (q : Id) (k : ℕ) → is_ascending self.new q k ≡
            (if same_id id.now q && (number == k) then false else is_ascending self.old q k) }
    {
        if let Id::Unsigned(id) = id {
            self.remove_of(*id, number);
        }
    }

    fn remove_of(&mut self, id: u64, number: u64)
        ensures { (q k : ℕ) → points (at q self.new) k ≡
            (if (id == q) && (number == k) then false else points (at q self.old) k) }
    {
        match self.numbers.get(id) {
            Some(own) if *own == number => (),
            _ => return,
        }
        drop(self.numbers.remove(id));
    }

    /// Adds the number of an id that is a whole number above all others. Answers whether it is one; nothing changes where it
    /// isn't.
    pub fn add(&mut self, id: &Id, number: u64) -> Result<bool, AllocError>
        ensures ok { IfOk result (λ added. (q : Id) (k : ℕ) → is_ascending self.new q k ≡
            (if added && (same_id id.now q && (number == k)) then true else is_ascending self.old q k)) }
        ensures err { OnErr result (self.new ≡ self.old) }
    {
        match id {
            Id::Unsigned(id) if self.numbers.ends_below(*id) => {
                self.push(*id, number)?;
                Ok(true)
            }
            _ => Ok(false),
        }
    }

    fn push(&mut self, id: u64, number: u64) -> Result<(), AllocError>
        requires { Below id self.old }
        ensures ok { OnOk result (self.new ≡ self.old ++ (id, number) ∷ []) }
        ensures err { OnErr result (self.new ≡ self.old) }
    {
        self.numbers.make_room()?;
        self.numbers.push(id, number);
        Ok(())
    }
}
