use super::job::Job;
use std::alloc::{AllocError, Global};

/// How far one owner is with its jobs, and how often each came home turned once, by its number. That is a list and no sum, so
/// that one job that is lost and another that comes twice can't cancel out.
#[derive(Drop)]
pub struct Tally {
    jobs: u32,
    handed_out: u32,
    home: u32,
    times: Vec<u8>,
}

impl Tally {
    /// Of so many jobs none is handed out yet. All memory is taken here.
    pub fn new(alloc: Global, jobs: u32) -> Result<Tally, AllocError> {
        Ok(Tally {
            jobs,
            handed_out: 0,
            home: 0,
            times: Vec::from_elem(alloc, 0, jobs as usize)?,
        })
    }

    /// The next job to be handed out, if one is left.
    pub fn next_job(&self) -> Option<Job> {
        if self.handed_out < self.jobs {
            Some(Job::new(self.handed_out))
        } else {
            None
        }
    }

    /// The next job was handed out.
    pub fn hand_out(&mut self) {
        self.handed_out = self.handed_out.saturating_add(1);
    }

    /// A job came home. One that wasn't turned once is noted nowhere, nor is one beyond the jobs there are.
    pub fn take_home(&mut self, job: &Job) {
        self.home = self.home.saturating_add(1);
        let number = job.number as usize;
        if job.turns == 1 && number < self.times.len() {
            self.times[number] = self.times[number].saturating_add(1);
        }
    }

    /// How many jobs were handed out, and how many came home.
    pub fn moves(&self) -> (u32, u32) {
        (self.handed_out, self.home)
    }

    /// Whether as many jobs came home as there are.
    pub fn is_over(&self) -> bool {
        self.home >= self.jobs
    }

    /// How many jobs came home turned once, and came only once.
    pub fn once(&self) -> usize {
        let mut once = 0usize;
        for times in &self.times {
            if *times == 1 {
                once = once.saturating_add(1);
            }
        }
        once
    }
}
