//! A gate at which pieces of a scan meet.
use gates::Gate;
use std::hint;
use std::sync::atomic::{AtomicBool, AtomicU64, Ordering};

/// How often a piece looks for the other before it gives up.
const TURNS: u32 = 50_000_000;

/// A gate for scans of two pieces: pieces 0 and 1 each wait at it until the other has come. It counts how often each comes, so
/// where they passed just once each, side by side, and no other did, these are 1, 1, 0 and false.
#[derive(Default, Drop)]
pub struct Meeting {
    /// How often piece 0 came.
    pub first: AtomicU64,
    /// How often piece 1 came.
    pub second: AtomicU64,
    /// How often any other piece came.
    pub others: AtomicU64,
    /// Whether a piece waited in vain.
    pub gave_up: AtomicBool,
}

impl Meeting {
    // Waits until the other piece has come.
    fn wait_for(&self, other: &AtomicU64) {
        for _ in 0..TURNS {
            if other.load(Ordering::SeqCst) > 0 {
                return;
            }
            hint::spin_loop();
        }
        self.gave_up.store(true, Ordering::SeqCst);
    }
}

// How often pieces 0 and 1 came, and any other, and whether one waited in vain.
impl From<&Meeting> for (u64, u64, u64, bool) {
    fn from(gate: &Meeting) -> Self {
        (
            gate.first.load(Ordering::SeqCst),
            gate.second.load(Ordering::SeqCst),
            gate.others.load(Ordering::SeqCst),
            gate.gave_up.load(Ordering::SeqCst),
        )
    }
}

impl Gate for Meeting {
    fn pass(&self, piece: usize) {
        if piece == 0 {
            self.first.fetch_add(1, Ordering::SeqCst);
            self.wait_for(&self.second);
        } else if piece == 1 {
            self.second.fetch_add(1, Ordering::SeqCst);
            self.wait_for(&self.first);
        } else {
            self.others.fetch_add(1, Ordering::SeqCst);
        }
    }
}
