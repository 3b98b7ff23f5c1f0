//! Workers turn jobs side by side, no job waits for another's turn, each job that comes wakes a worker, and a client that sends
//! faster than its requests are worked on is held back: gates hold jobs until they see so.

use super::{ASK, CONFIRMED};
use crate::cuts;
use crate::plays::{METHODS, table};
use lsp_frames::{IoFault, MemSink, Source};
use method_steps::Table;
use peer_session::{Close, Limits};
use rpc_peer::{Crew, Gate, serve_by, serve_with};
use std::alloc::{AllocError, AllocGlobal, Global};
use std::process::Abort;
use std::sync::atomic::AtomicU64;
use std::sync::atomic::Ordering::SeqCst;
use std::sync::{Arc, Wait};
use std::test::Fail;
use std::thread;
use std::thread::Threads;

/// So often a source lets others run before a wave, so that they sleep.
const PAUSE: u32 = 1_000;

/// So many pieces are asked for at most while no job is turned: those of the 128 jobs that are out and of the 129 that are
/// ready, those of a full ring, and one that waits for room in it.
const MOST: u64 = 128 + 129 + 64 + 1;

/// What a gate holds jobs for.
#[derive(Clone, Copy)]
enum Holds {
    /// The first handler, until the second was let through so often.
    First(u64),
    /// Each job, until all that have come have begun. The next ones come once these have seen that.
    Each,
    /// All jobs, until more pieces were asked for than there may be, or the gate has looked for that long enough.
    All,
}

#[derive(Drop)]
struct Hold {
    holds: Holds,
    /// So many jobs came.
    came: AtomicU64,
    begun: AtomicU64,
    /// So many jobs saw what they were held for; or so many had come as all were let go.
    saw: AtomicU64,
    looks: AtomicU64,
}

impl Hold {
    /// So often the held jobs, and the source, look all together for what they wait for: also where the machine gives its
    /// processors to others for a while.
    fn patience(&self) -> u64 {
        match self.holds {
            Holds::First(_) => 1_000_000,
            Holds::Each => 20_000_000,
            Holds::All => 1_000_000,
        }
    }

    /// Waits until so many are counted, unless all together have looked long enough. Whether there are so many.
    fn waits(&self, count: &AtomicU64, wanted: u64) -> bool {
        let patience = self.patience();
        for _ in 0..patience {
            if count.load(SeqCst) >= wanted {
                return true;
            }
            if self.looks.fetch_add(1, SeqCst) >= patience {
                return false;
            }
            thread::yield_now();
        }
        false
    }

    /// Counts a job that has begun, and whether it sees so many begun.
    fn hold_until(&self, begun: u64) {
        self.begun.fetch_add(1, SeqCst);
        if self.waits(&self.begun, begun) {
            self.saw.fetch_add(1, SeqCst);
        }
    }
}

impl Gate for Hold {
    fn pass(&self, number: u32) {
        match self.holds {
            Holds::First(turns) if number == 1 => self.hold_until(turns.saturating_add(1)),
            Holds::First(_) => {
                self.begun.fetch_add(1, SeqCst);
            }
            Holds::Each => self.hold_until(self.came.load(SeqCst)),
            Holds::All => {
                self.waits(&self.came, MOST.saturating_add(1));
                if self.saw.load(SeqCst) == 0 {
                    self.saw.store(self.came.load(SeqCst), SeqCst);
                }
            }
        }
    }
}

/// Gives a piece so many times, of so many jobs each.
#[derive(Drop)]
struct Pieces {
    left: u64,
    jobs: u64,
    piece: Vec<u8>,
    gate: Arc<Hold>,
}

impl Pieces {
    /// Whether the jobs that came before have seen each other, where they wait for that, and all had time to go to sleep.
    fn is_let_come(&self) -> bool {
        let hold = &*self.gate;
        if !matches!(hold.holds, Holds::Each) {
            return true;
        }
        if !hold.waits(&hold.saw, hold.came.load(SeqCst)) {
            return false;
        }
        for _ in 0..PAUSE {
            thread::yield_now();
        }
        true
    }
}

impl Source for Pieces {
    ghost gave = { λ source bytes ending. Unit {0} };

    ghost failures = { λ source. 0 };

    ghost nothing_at_first = { λ source. tt };

    fn next(&mut self, room: &mut [u8]) -> Result<usize, IoFault> {
        if self.left == 0 || !self.is_let_come() {
            return Ok(0);
        }
        self.left = self.left.saturating_sub(1);
        self.gate.came.fetch_add(self.jobs, SeqCst);
        let count = self.piece.len().min(room.len());
        room[..count].copy_from_slice(&self.piece.as_slice()[..count]);
        Ok(count)
    }

    fn failures(&self) -> u64 {
        0
    }
}

/// What a gate holds; the workers, which sleep at once where they find no job, or look again first; how often the frames
/// stand in a piece, and how often it comes; the fewest and the most jobs that saw what they were held for; and what is
/// written, unless that is one answer to each frame.
#[derive(Clone, Copy)]
struct Row {
    name: &'static str,
    holds: Holds,
    workers: u32,
    sleep: bool,
    frames: &'static [&'static str],
    jobs: u64,
    pieces: u64,
    saw: (u64, u64),
    output: &'static [&'static str],
}

impl Row {
    fn piece(&self, alloc: Global) -> Result<Vec<u8>, AllocError> {
        let mut piece = Vec::new(alloc);
        for _ in 0..self.jobs {
            for frame in self.frames {
                piece.extend_from_slice(frame.as_bytes())?;
            }
        }
        Ok(piece)
    }

    /// The bytes that were written, and how many answers, where the input was served to its end.
    fn written<R: Threads + Wait + Sync>(
        &self,
        rt: &R,
        alloc: Global,
        table: &Table,
        gate: Arc<Hold>,
        source: Pieces,
    ) -> Option<(Vec<u8>, u64)> {
        let (limits, workers, sink) = (Limits::standard(), self.workers, MemSink::new(alloc, None));
        let served = if self.sleep {
            let crew = Crew { workers, yields: 0 };
            serve_by(rt, alloc, table, limits, crew, gate, source, sink)
        } else {
            serve_with(rt, alloc, table, limits, workers, gate, source, sink)
        };
        match served {
            Ok((report, sink)) if report.end == Close::Clean => {
                Some((sink.into_vec(), report.answers))
            }
            Ok((_, sink)) => {
                drop(sink);
                None
            }
            Err((_, sink)) => {
                drop(sink);
                None
            }
        }
    }

    fn is_written<R: Threads + Wait + Sync>(
        &self,
        rt: &R,
        alloc: Global,
        table: &Table,
        gate: &Arc<Hold>,
    ) -> Result<bool, AllocError> {
        let source = Pieces {
            left: self.pieces,
            jobs: self.jobs,
            piece: self.piece(alloc)?,
            gate: Arc::try_clone(gate)?,
        };
        let written = match Arc::try_clone(gate) {
            Ok(gate) => self.written(rt, alloc, table, gate, source),
            Err(fault) => {
                drop(source);
                return Err(fault);
            }
        };
        let is_written = match &written {
            Some((bytes, answers)) if self.output.is_empty() => {
                *answers == self.jobs.saturating_mul(self.pieces) && !bytes.is_empty()
            }
            Some((bytes, _)) => cuts::is_made_of(bytes.as_slice(), self.output),
            None => false,
        };
        drop(written);
        Ok(is_written)
    }

    /// Whether all is written, and how many jobs saw what they were held for.
    fn seen<R: Threads + Wait + Sync>(
        &self,
        rt: &R,
        alloc: Global,
        table: &Table,
    ) -> Result<(bool, u64), AllocError> {
        let gate = Arc::new(
            alloc,
            Hold {
                holds: self.holds,
                came: AtomicU64::new(0),
                begun: AtomicU64::new(0),
                saw: AtomicU64::new(0),
                looks: AtomicU64::new(0),
            },
        )?;
        let is_written = self.is_written(rt, alloc, table, &gate);
        let saw = gate.saw.load(SeqCst);
        drop(gate);
        Ok((is_written?, saw))
    }
}

fn compare<R: Threads + Wait + Sync + Abort>(
    rt: &R,
    alloc: Global,
    rows: &[Row],
) -> Result<(), Fail> {
    let table = table(alloc, METHODS)?;
    for row in rows {
        let (is_written, saw) = row.seen(rt, alloc, &table)?;
        assert!(rt; is_written, "{}", row.name);
        assert!(rt; row.saw.0 <= saw && saw <= row.saw.1, "{}: {saw}", row.name);
    }
    drop(table);
    Ok(())
}

const GATED: &[Row] = &[
    Row {
        name: "two workers turn two jobs at once",
        holds: Holds::First(1),
        workers: 2,
        sleep: false,
        frames: &[
            "Content-Length: 54\r\n\r\n",
            r#"{"jsonrpc":"2.0","method":"add","params":[1,2],"id":1}"#,
            "Content-Length: 54\r\n\r\n",
            r#"{"jsonrpc":"2.0","method":"add","params":[3,4],"id":2}"#,
        ],
        jobs: 1,
        pieces: 1,
        saw: (1, 1),
        output: &[
            "Content-Length: 35\r\n\r\n",
            r#"{"id":1,"jsonrpc":"2.0","result":3}"#,
            "Content-Length: 35\r\n\r\n",
            r#"{"id":2,"jsonrpc":"2.0","result":7}"#,
        ],
    },
    Row {
        name: "a job has its second turn while another has its first",
        holds: Holds::First(2),
        workers: 2,
        sleep: false,
        frames: &[
            "Content-Length: 54\r\n\r\n",
            r#"{"jsonrpc":"2.0","method":"add","params":[2,3],"id":1}"#,
            ASK,
            "Content-Length: 42\r\n\r\n",
            r#"{"jsonrpc":"2.0","id":"2.1","result":true}"#,
        ],
        jobs: 1,
        pieces: 1,
        saw: (1, 1),
        output: &[
            "Content-Length: 62\r\n\r\n",
            r#"{"id":"2.1","jsonrpc":"2.0","method":"confirm","params":["x"]}"#,
            "Content-Length: 35\r\n\r\n",
            r#"{"id":1,"jsonrpc":"2.0","result":5}"#,
            CONFIRMED,
        ],
    },
];

#[test]
fn jobs_are_turned_side_by_side_and_none_waits_for_another(rt: HostRuntime) -> Result<(), Fail> {
    compare(&rt, rt.alloc(), GATED)
}

/// A request without a call of its own, short enough that 64 come in one read.
const REQUEST: &[&str] = &[
    "Content-Length: 37\r\n\r\n",
    r#"{"jsonrpc":"2.0","method":"m","id":1}"#,
];

/// Jobs that wait for each other come to workers that sleep: how many workers there are, how many jobs come at once, and how
/// often, each time once those before have passed.
const WAVES: &[(&str, u32, u64, u64)] = &[
    ("two jobs, three workers", 3, 2, 50),
    ("three jobs, three workers", 3, 3, 50),
    ("two jobs, four workers", 4, 2, 50),
    ("three jobs, four workers", 4, 3, 50),
    ("64 jobs at once", 64, 64, 1),
    ("40 jobs at once, 64 workers", 64, 40, 1),
];

#[test]
fn jobs_that_wait_for_each_other_wake_a_worker_each(rt: HostRuntime) -> Result<(), Fail> {
    for (name, workers, jobs, pieces) in WAVES {
        let all = jobs.saturating_mul(*pieces);
        let row = Row {
            name,
            holds: Holds::Each,
            workers: *workers,
            sleep: true,
            frames: REQUEST,
            jobs: *jobs,
            pieces: *pieces,
            saw: (all, all),
            output: &[],
        };
        compare(&rt, rt.alloc(), &[row])?;
    }
    Ok(())
}

const HELD_BACK: &[Row] = &[Row {
    name: "pieces of a client while no job is turned",
    holds: Holds::All,
    workers: 2,
    sleep: false,
    frames: REQUEST,
    jobs: 1,
    pieces: 1_000,
    saw: (1, MOST),
    output: &[],
}];

#[test]
fn a_client_is_held_back_while_many_handlers_wait(rt: HostRuntime) -> Result<(), Fail> {
    compare(&rt, rt.alloc(), HELD_BACK)
}
