// Hints which thread to join: a bit for each place in the crew. Only the choice of the thread rests on them.
use std::sync::{Condvar, Mutex, Wait};

/// A bit for each place whose job has ended, and was not taken in yet.
#[derive(Drop)]
pub struct Hints {
    bits: Mutex<u64>,
    rung: Condvar,
}

impl Hints {
    /// None has ended.
    pub fn new() -> Hints {
        Hints {
            bits: Mutex::new(0),
            rung: Condvar::new(),
        }
    }

    /// The job at this place, of 64, has ended.
    pub fn ring<R: Wait>(&self, rt: &R, place: u32) {
        let mut bits = self.bits.lock(rt);
        *bits |= 1 << (place % 64);
        self.rung.notify_one();
    }

    /// Waits until one has ended, and gives its place, once.
    pub fn next<R: Wait>(&self, rt: &R) -> u32 {
        let mut bits = self
            .rung
            .wait_while(rt, self.bits.lock(rt), |bits| *bits == 0);
        let place = bits.trailing_zeros();
        *bits &= *bits - 1;
        place
    }
}
