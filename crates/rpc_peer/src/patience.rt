//! How a thread of a server waits.

ghost use Rattle.std.specs.Prelude.{◌≡◌, ◌≤◌, false, IsSome, is_some, ◌↔◌};
ghost use Rattle.rpc_peer.specs.Learning.{after_finding, after_a_look, after_a_sleep, after_nothing};

use crossbeam_utils::sync::{EventCount, Key};
use std::sync::Wait;
use std::thread;

/// So many of a thread's idle rounds follow each other at once; behind the later ones it lets others run.
const SPINS: u32 = 32;

/// So many looks are left before a sleep where the last ones found nothing: what comes after a pause is waited for asleep,
/// since looking costs processor time and finds nothing.
const FEW_LOOKS: u32 = 4;

/// After so many sleeps it looks often again, once: a pause may be over, and only looking shows it.
const SLEEPS_BEFORE_A_TRIAL: u32 = 16;

/// What a thread does while it finds nothing to do: it looks again so many times, at first at once and then after a yield,
/// and then it sleeps until a bell rings. It learns how many looks pay: all of them where they found something the last
/// time, and few where they ended in a sleep.
///
/// Each round of a thread begins by `announce`, looks at all that it may have to do, and ends by `rest` where that was
/// nothing. So a bell that rings during the round ends its sleep.
#[derive(Drop)]
pub struct Patience {
    /// The most looks before a sleep.
    most: u32,
    /// The looks before the next sleep.
    looks: u32,
    /// The rounds that have found nothing since something was found, at most as many as there are looks.
    idle: u32,
    /// Whether it has slept since something was found.
    has_slept: bool,
    /// The waits that ended in a sleep since one ended in a look.
    sleeps: u32,
}

impl Patience {
    /// All looks before the first sleep.
    pub fn new(most: u32) -> Patience
        ensures { result ≡ record { most = most; looks = most; idle = 0; has_slept = false; sleeps = 0 } }
    {
        Patience {
            most,
            looks: most,
            idle: 0,
            has_slept: false,
            sleeps: 0,
        }
    }

    /// The key to a sleep, where the round that begins now is the last before it.
    pub fn announce<'a>(&self, bell: &'a EventCount) -> Option<Key<'a>>
        ensures { IsSome result ↔ (self.now.looks ≤ self.now.idle) }
    {
        if self.idle < self.looks {
            return None;
        }
        Some(bell.prepare_wait())
    }

    /// The round has found nothing: sleeps until the bell of the key rings, where there is one, and else looks again.
    pub fn rest<R: Wait>(&mut self, rt: &R, key: Option<Key<'_>>)
        ensures { self.new ≡ after_nothing self.old (is_some key.entry) }
    {
        if let Some(key) = key {
            self.has_slept = true;
            key.wait(rt);
            return;
        }
        if self.idle >= SPINS {
            thread::yield_now();
        }
        self.idle = self.idle.saturating_add(1);
    }

    /// The round has found something.
    pub fn renew(&mut self)
        ensures { self.new ≡ after_finding self.old }
    {
        if self.has_slept {
            self.learn_from_a_sleep();
        } else if self.idle > 0 {
            self.learn_from_a_look();
        }
        self.has_slept = false;
        self.idle = 0;
    }

    fn learn_from_a_sleep(&mut self)
        ensures { self.new ≡ after_a_sleep self.old }
    {
        self.sleeps = self.sleeps.saturating_add(1);
        if self.sleeps < SLEEPS_BEFORE_A_TRIAL {
            self.looks = self.most.min(FEW_LOOKS);
        } else {
            self.learn_from_a_look();
        }
    }

    fn learn_from_a_look(&mut self)
        ensures { self.new ≡ after_a_look self.old }
    {
        self.sleeps = 0;
        self.looks = self.most;
    }
}
