use job_slots::Turns;

/// A job with little to do, so that its way to a worker and back is what takes the time.
#[derive(Drop)]
pub struct Job {
    pub number: u32,
    /// How often it was turned.
    pub turns: u32,
}

impl Job {
    pub fn new(number: u32) -> Job {
        Job { number, turns: 0 }
    }
}

impl Turns for Job {
    ghost turned = { λ before after. Unit {0} };

    fn turn(&mut self) {
        self.turns = self.turns.saturating_add(1);
    }
}
