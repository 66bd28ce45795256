//! A value that one thread hands to another, once.
use std::sync::{Condvar, Mutex, Wait};

/// What a thread tells before it ends: one thread gives a value, and another waits for it. What lies under a lock is no value, so no
/// contract speaks of what is given.
#[derive(Drop)]
pub struct Handover<T: Drop> {
    value: Mutex<Option<T>>,
    given: Condvar,
}

impl<T: Drop> Handover<T> {
    /// Nothing was given yet.
    pub fn new() -> Handover<T> {
        Handover {
            value: Mutex::new(None),
            given: Condvar::new(),
        }
    }

    /// Gives the value. One that was given before and not taken is let go.
    pub fn give<R: Wait>(&self, rt: &R, value: T) {
        let mut held = self.value.lock(rt);
        *held = Some(value);
        drop(held);
        self.given.notify_all();
    }

    /// Waits for the value, and takes it: for ever where none is given.
    pub fn take<R: Wait>(&self, rt: &R) -> T {
        let held = self.value.lock(rt);
        let mut held = self.given.wait_while(rt, held, |value| value.is_none());
        match held.take() {
            Some(value) => value,
            None => unreachable!(),
        }
    }
}
