//! Names and versions of which equal ones have one owner.
ghost use Rattle.std.specs.Prelude.{◌≡◌, IfOk};

use druid_segment_id::{Name, Version};
use std::alloc::{AllocError, Global};
use std::hash::{FoldHasher, Hasher};

// The most names, and the most versions, that are kept at once.
const MAX_SLOTS: usize = 4_096;

// A version, and the text that it was copied from.
#[derive(Drop)]
struct KeptVersion<'a> {
    text: &'a str,
    version: Version,
    ghost same: { version ≡ text.now },
}

/// The names and versions of descriptors that were copied, so that equal texts share one place in memory. It keeps one
/// of each hash at most: of two whose hashes meet, the later one takes the place of the earlier, which then is copied anew.
#[derive(Drop)]
pub struct SharedTexts<'a> {
    alloc: Global,
    names: Vec<Option<Name>>,
    versions: Vec<Option<KeptVersion<'a>>>,
}

// The place of a text among so many slots.
fn place_of(text: &str, slots: usize) -> usize {
    let mut hasher = FoldHasher::default();
    hasher.write(text.as_bytes());
    (hasher.finish() & 0xFFFF_FFFF) as usize % slots.max(1)
}

// That many slots, all free.
fn free_slots<T: Drop>(alloc: Global, count: usize) -> Result<Vec<Option<T>>, AllocError> {
    let mut slots = Vec::with_capacity(alloc, count)?;
    for _ in 0..count {
        slots.push(None)?;
    }
    Ok(slots)
}

impl<'a> SharedTexts<'a> {
    /// Keeps no texts, for a descriptor alone. Does not allocate.
    pub fn new(alloc: Global) -> SharedTexts<'a> {
        SharedTexts {
            alloc,
            names: Vec::new(alloc),
            versions: Vec::new(alloc),
        }
    }

    /// For that many descriptors.
    ///
    /// # Errors
    ///
    /// Out of memory.
    pub fn with_capacity(alloc: Global, count: usize) -> Result<SharedTexts<'a>, AllocError> {
        let slots = count.min(MAX_SLOTS);
        Ok(SharedTexts {
            alloc,
            names: free_slots(alloc, slots)?,
            versions: free_slots(alloc, slots)?,
        })
    }

    // The name of a text, unless memory runs out.
    pub(crate) fn name(&mut self, text: &str) -> Result<Name, AllocError>
        ensures { IfOk result (λ name. name ≡ text.now) }
    {
        let place = place_of(text, self.names.len());
        if let Some(Some(name)) = self.names.get(place) {
            if name.as_str() == text {
                return name.clone();
            }
        }
        let Ok(name) = Name::new(self.alloc, text) else {
            return Err(AllocError);
        };
        if let Some(slot) = self.names.get_mut(place) {
            *slot = Some(name.clone()?);
        }
        Ok(name)
    }

    // The version of a text, unless memory runs out.
    pub(crate) fn version(&mut self, text: &'a str) -> Result<Version, AllocError>
        ensures { IfOk result (λ version. version ≡ text.now) }
    {
        let place = place_of(text, self.versions.len());
        if let Some(Some(kept)) = self.versions.get(place) {
            if kept.text == text {
                return kept.version.clone();
            }
        }
        let Ok(version) = Version::new(self.alloc, text) else {
            return Err(AllocError);
        };
        let copy = version.clone()?;
        if let Some(slot) = self.versions.get_mut(place) {
            *slot = Some(KeptVersion {
                text,
                version: copy,
            });
        }
        Ok(version)
    }
}
