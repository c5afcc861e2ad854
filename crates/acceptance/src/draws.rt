use edge_io::Gate;
use std::sync::atomic::{AtomicU64, Ordering};

/// The most turns that a worker is held.
const TURNS: u32 = 200_000_000;

/// A gate at which each group is drawn by the worker that stands at its place here: a worker is held until all groups in front of its next
/// one were drawn. Where none stands here, nobody is held.
#[derive(Drop)]
pub struct DrawGate {
    pub workers: Vec<u32>,
    /// How many groups were drawn.
    pub drawn: AtomicU64,
    /// How often a worker was held for too long.
    pub late: AtomicU64,
}

impl DrawGate {
    pub fn new(workers: Vec<u32>) -> DrawGate {
        DrawGate {
            workers,
            drawn: AtomicU64::new(0),
            late: AtomicU64::new(0),
        }
    }

    /// The next group of a worker behind this one, or the number of all groups.
    fn next_of(&self, worker: u32, group: u32) -> usize {
        for (next, drawer) in self.workers.iter().enumerate() {
            if *drawer == worker && next > group as usize {
                return next;
            }
        }
        self.workers.len()
    }

    /// Whether so many groups are drawn within so many turns.
    fn comes(&self, count: usize) -> bool {
        let mut turns = 0;
        while turns < TURNS {
            if self.drawn.load(Ordering::SeqCst) >= count as u64 {
                return true;
            }
            turns += 1;
        }
        false
    }
}

impl Gate for DrawGate {
    fn enter(&self, worker: u32, group: u32) {
        self.drawn.fetch_add(1, Ordering::SeqCst);
        if !self.comes(self.next_of(worker, group)) {
            self.late.fetch_add(1, Ordering::SeqCst);
        }
    }
}
