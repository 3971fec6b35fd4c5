use std::sync::atomic::{AtomicU64, Ordering};
use std::sync::{Condvar, Mutex, Wait};

/// Wakes those who wait for a change. Nothing is claimed of it.
#[derive(Drop)]
pub struct Bell {
    rings: AtomicU64,
    // How many threads wait, or are about to.
    waiting: AtomicU64,
    door: Mutex<u64>,
    rung: Condvar,
}

impl Bell {
    /// A bell that hasn't rung.
    pub fn new() -> Bell {
        Bell {
            rings: AtomicU64::new(0),
            waiting: AtomicU64::new(0),
            door: Mutex::new(0),
            rung: Condvar::new(),
        }
    }

    /// How often it rang; the count stands still at the greatest `u64`.
    pub fn number<R: Wait>(&self, _rt: &R) -> u64 {
        self.rings.load(Ordering::SeqCst)
    }

    /// Rings once, and wakes all who wait.
    pub fn ring<R: Wait>(&self, rt: &R) {
        if self.rings.load(Ordering::SeqCst) < u64::MAX {
            self.rings.fetch_add(1, Ordering::SeqCst);
        }
        if self.waiting.load(Ordering::SeqCst) > 0 {
            drop(self.door.lock(rt));
            self.rung.notify_all();
        }
    }

    /// Waits until it rang more than `n` times, at the greatest `u64` forever.
    pub fn wait_past<R: Wait>(&self, rt: &R, n: u64) {
        self.waiting.fetch_add(1, Ordering::SeqCst);
        drop(
            self.rung.wait_while(rt, self.door.lock(rt), |_door| {
                self.rings.load(Ordering::SeqCst) <= n
            }),
        );
        self.waiting.fetch_sub(1, Ordering::SeqCst);
    }
}
