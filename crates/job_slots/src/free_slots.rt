ghost use Rattle.std.specs.Prelude.{◌≡◌, ◌≢◌, ℕ, ◌<◌, ◌≤◌, ◌↔◌, IsTrue, MatchOption, nat_lt, if◌then◌else◌};
ghost use Rattle.std.specs.Int.{bit_at};
ghost use Rattle.job_slots.specs.declared.limits.TheConstants.{MOST_SLOTS};

/// Which of at most 128 slots are free, one bit each: the bit of a free slot is 1.
#[derive(Clone, Copy)]
pub(crate) struct FreeSlots {
    bits: u128,
}

impl FreeSlots {
    /// All of so many slots.
    pub(crate) fn all(slots: u32) -> FreeSlots
        requires { (0 < slots) × (slots ≤ MOST_SLOTS) }
        ensures { (k : ℕ) → bit_at result.bits k ≡ (if nat_lt k slots then 1 else 0) }
    {
        FreeSlots {
            bits: u128::MAX >> (128 - slots),
        }
    }

    /// The free slot with the least number.
    pub(crate) fn least(self) -> Option<u32>
        ensures { MatchOption result ((k : ℕ) → k < MOST_SLOTS → bit_at self.bits k ≡ 0) (λ slot.
            (slot < MOST_SLOTS) × (bit_at self.bits slot ≡ 1)
            × ((k : ℕ) → k < slot → bit_at self.bits k ≡ 0)) }
    {
        if self.bits == 0 {
            None
        } else {
            Some(self.bits.trailing_zeros())
        }
    }

    /// The least slot from this one on that isn't free, of 128.
    pub(crate) fn next_in_use(self, from: u32) -> Option<u32>
        ensures { MatchOption result
            ((k : ℕ) → from ≤ k → k < MOST_SLOTS → bit_at self.bits k ≡ 1)
            (λ slot. (from ≤ slot) × (slot < MOST_SLOTS) × (bit_at self.bits slot ≡ 0)
            × ((k : ℕ) → from ≤ k → k < slot → bit_at self.bits k ≡ 1)) }
    {
        if from >= 128 {
            return None;
        }
        let in_use = !self.bits >> from;
        if in_use == 0 {
            None
        } else {
            Some(from + in_use.trailing_zeros())
        }
    }

    pub(crate) fn has(self, slot: u32) -> bool
        requires { slot < MOST_SLOTS }
        ensures { IsTrue result ↔ (bit_at self.bits slot ≡ 1) }
    {
        (self.bits >> slot) & 1 == 1
    }

    /// The slot is free no more.
    pub(crate) fn remove(&mut self, slot: u32)
        requires { slot < MOST_SLOTS }
        ensures { (bit_at self.new.bits slot ≡ 0)
            × ((k : ℕ) → k < MOST_SLOTS → k ≢ slot →
            bit_at self.new.bits k ≡ bit_at self.old.bits k) }
    {
        self.bits &= !(1 << slot);
    }

    /// The slot is free.
    pub(crate) fn insert(&mut self, slot: u32)
        requires { slot < MOST_SLOTS }
        ensures { (bit_at self.new.bits slot ≡ 1)
            × ((k : ℕ) → k < MOST_SLOTS → k ≢ slot →
            bit_at self.new.bits k ≡ bit_at self.old.bits k) }
    {
        self.bits |= 1 << slot;
    }
}
