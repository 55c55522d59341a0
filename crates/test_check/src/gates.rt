use std::sync::atomic::{AtomicU64, Ordering};
use vm_io::Gate;

// How often a piece reads the other one's word before it gives up.
const TURNS: u64 = 500_000_000;

/// Two pieces, each of which waits at one of its entries until the other one has come to its own.
#[derive(Drop)]
pub struct Meeting {
    /// At which entry they meet, from 0.
    entry: u64,
    /// How often each has entered.
    entered: [AtomicU64; 2],
    /// 1 for each that has met the other one.
    met: [AtomicU64; 2],
}

impl Meeting {
    /// A gate at this entry of both.
    pub fn at(entry: u64) -> Meeting {
        Meeting {
            entry,
            entered: [AtomicU64::new(0), AtomicU64::new(0)],
            met: [AtomicU64::new(0), AtomicU64::new(0)],
        }
    }

    /// Whether each has met the other one.
    pub fn have_met(&self) -> bool {
        self.met[0].load(Ordering::SeqCst) == 1 && self.met[1].load(Ordering::SeqCst) == 1
    }
}

impl Gate for Meeting {
    fn enter(&self, piece: usize) {
        if piece >= 2 || self.entered[piece].fetch_add(1, Ordering::SeqCst) != self.entry {
            return;
        }
        for _ in 0..TURNS {
            if self.entry < self.entered[1 - piece].load(Ordering::SeqCst) {
                self.met[piece].store(1, Ordering::SeqCst);
                return;
            }
        }
    }
}

/// How often each of 64 pieces has entered, up to three times.
#[derive(Drop)]
pub struct Entries {
    /// A bit for each piece that has entered: a first time, a second time, a third time.
    times: [AtomicU64; 3],
}

impl Entries {
    /// None has.
    pub fn new() -> Entries {
        Entries {
            times: [AtomicU64::new(0), AtomicU64::new(0), AtomicU64::new(0)],
        }
    }

    /// Whether each has entered once.
    pub fn are_once(&self) -> bool {
        self.have_entered([u64::MAX, 0, 0])
    }

    /// Whether each has entered twice.
    pub fn are_twice(&self) -> bool {
        self.have_entered([u64::MAX, u64::MAX, 0])
    }

    fn have_entered(&self, times: [u64; 3]) -> bool {
        let mut all = true;
        for i in 0..3usize {
            all = all && self.times[i].load(Ordering::SeqCst) == times[i];
        }
        all
    }
}

impl Gate for Entries {
    fn enter(&self, piece: usize) {
        if piece >= 64 {
            return;
        }
        let bit = 1u64 << piece;
        for i in 0..3usize {
            if self.times[i].fetch_or(bit, Ordering::SeqCst) & bit == 0 {
                return;
            }
        }
    }
}
