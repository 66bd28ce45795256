//! A cache of the numbers of texts, by the hashes of these.
use std::alloc::{AllocError, Global};
use std::hash::{FoldHasher, Hasher};

// How many slots a hash may have its number in.
const WAYS: usize = 4;

// The first length of a cache that is not empty.
const FIRST_LEN: usize = 16;

// A hash and a number. Where there is none, the number is 0.
#[derive(Clone, Copy, Debug)]
struct CachedNumber {
    hash: u32,
    number: u32,
}

const FREE: CachedNumber = CachedNumber { hash: 0, number: 0 };

// Numbers by hashes. A number may be lost to a later one, and that of another text may have the same hash: whoever
// takes one from it compares the texts. So no file makes it slow: it looks at four slots, whatever the hashes are.
#[derive(Debug, Drop)]
pub(crate) struct NumberCache {
    slots: Vec<CachedNumber>,
    count: usize,
}

// The hash of a text. Its key is fixed, so a file may have texts whose hashes are all the same.
pub(crate) fn hash_of(text: &str) -> u32 {
    let mut hasher = FoldHasher::default();
    hasher.write(text.as_bytes());
    (hasher.finish() & 0xFFFF_FFFF) as u32
}

impl NumberCache {
    // No numbers.
    pub(crate) fn new(alloc: Global) -> NumberCache {
        NumberCache {
            slots: Vec::new(alloc),
            count: 0,
        }
    }

    // No numbers, with that many slots, a power of two.
    fn with_slots(alloc: Global, len: usize) -> Result<NumberCache, AllocError> {
        let mut slots = Vec::with_capacity(alloc, len)?;
        slots.resize(len, FREE)?;
        Ok(NumberCache { slots, count: 0 })
    }

    // One of the places of the slots of a hash.
    fn place(&self, hash: u32, way: usize) -> usize {
        (hash as usize ^ way) & self.slots.len().wrapping_sub(1)
    }

    // The number that the hash has, or 0.
    pub(crate) fn get(&self, hash: u32) -> u32 {
        for way in 0..WAYS {
            if let Some(slot) = self.slots.get(self.place(hash, way)) {
                if slot.hash == hash {
                    return slot.number;
                }
            }
        }
        0
    }

    // The place of a slot for a hash: one that is free, or else the first.
    fn place_for(&self, hash: u32) -> usize {
        for way in 0..WAYS {
            let place = self.place(hash, way);
            if let Some(slot) = self.slots.get(place) {
                if slot.number == 0 {
                    return place;
                }
            }
        }
        self.place(hash, 0)
    }

    fn put(&mut self, slot: CachedNumber) {
        let place = self.place_for(slot.hash);
        if let Some(old) = self.slots.get_mut(place) {
            *old = slot;
            self.count = self.count.saturating_add(1);
        }
    }

    // Twice as many slots.
    fn grow(&mut self, alloc: Global) -> Result<(), AllocError> {
        let len = self.slots.len().saturating_mul(2).max(FIRST_LEN);
        let mut wider = NumberCache::with_slots(alloc, len)?;
        for slot in &self.slots {
            if slot.number != 0 {
                wider.put(*slot);
            }
        }
        *self = wider;
        Ok(())
    }

    // Adds a number. At most half of the slots are taken, so that few numbers are lost.
    pub(crate) fn insert(
        &mut self,
        alloc: Global,
        hash: u32,
        number: u32,
    ) -> Result<(), AllocError> {
        if self.count >= self.slots.len() / 2 {
            self.grow(alloc)?;
        }
        self.put(CachedNumber { hash, number });
        Ok(())
    }
}
