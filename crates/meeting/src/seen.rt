use std::sync::atomic::{AtomicBool, Ordering};

/// How many times a waiter checks for the other before it gives up.
const TURNS: u64 = 1 << 26;

/// Which of two events were noted, and whether one of them waited in vain.
#[derive(Drop)]
pub struct Seen {
    first: AtomicBool,
    second: AtomicBool,
    failed: AtomicBool,
}

impl Seen {
    /// Returns a state where nothing is noted yet.
    pub fn new() -> Self {
        Seen {
            first: AtomicBool::new(false),
            second: AtomicBool::new(false),
            failed: AtomicBool::new(false),
        }
    }

    /// Notes one of the events, and waits until the other is noted too. After `2^26` turns in vain it notes the failure, and no
    /// later call waits.
    pub fn note(&self, is_first: bool) {
        let (mine, theirs) = if is_first {
            (&self.first, &self.second)
        } else {
            (&self.second, &self.first)
        };
        mine.store(true, Ordering::SeqCst);
        for _ in 0..TURNS {
            if theirs.load(Ordering::SeqCst) || self.failed.load(Ordering::SeqCst) {
                return;
            }
        }
        self.failed.store(true, Ordering::SeqCst);
    }

    /// Returns whether both events were noted and neither waited in vain.
    pub fn met(&self) -> bool {
        self.first.load(Ordering::SeqCst)
            && self.second.load(Ordering::SeqCst)
            && !self.failed.load(Ordering::SeqCst)
    }
}
