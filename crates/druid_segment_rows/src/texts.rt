//! A list of texts.
ghost use Rattle.std.specs.Prelude.{◌≡◌, ◌++◌, ◌∷◌, [], ◌^◌, ◌<◌, ◌≤◌, length, slice_index_or, OnOk, OnErr};
ghost use Rattle.druid_segment_rows.specs.Texts.{start_from};

use std::alloc::{AllocError, Global};
use std::marker::Model;

/// Texts in their order. They lie one after another in memory, and each takes four bytes beside its own.
#[derive(Debug, Drop)]
pub struct Texts {
    text: String,
    ends: Vec<u32>,
}

impl Model for Texts {
    ghost use Rattle.std.specs.Prelude.{ℕ, List, string_bytes, ◌^◌, ◌<◌, length};
    ghost use Rattle.druid_segment_rows.specs.Texts.{texts_from, AreEnds};

    ghost Value = { List (List ℕ) };

    ghost view = { λ a. texts_from (string_bytes a.text) 0 a.ends.items };

    ghost invariant = { λ a. AreEnds (string_bytes a.text) 0 a.ends.items × (length (string_bytes a.text) < 2 ^ 32) };
}

// Where the text at a place begins.
fn start_of(ends: &[u32], place: usize) -> usize
    requires { place ≤ length ends.now }
    ensures { result ≡ start_from 0 ends.now place }
{
    match place {
        0 => 0,
        place => ends[place - 1] as usize,
    }
}

impl Texts {
    /// No texts.
    pub fn new(alloc: Global) -> Texts
        ensures { result ≡ [] }
    {
        Texts {
            text: String::new(alloc),
            ends: Vec::new(alloc),
        }
    }

    /// How many there are.
    pub fn len(&self) -> usize
        ensures value { result ≡ length self.now }
        ensures fits { length self.now < 2 ^ 63 }
    {
        self.ends.len()
    }

    /// The text at a place.
    pub fn get(&self, place: usize) -> &str
        requires { place < length self.now }
        ensures { result.now ≡ slice_index_or self.now place [] }
    {
        let start = start_of(&self.ends, place);
        let end = self.ends[place] as usize;
        &self.text[start..end]
    }

    /// Adds a text after the others.
    ///
    /// # Errors
    ///
    /// Out of memory, or of the bytes that four bytes count. Leaves the texts as they were.
    pub fn push(&mut self, text: &str) -> Result<(), AllocError>
        ensures ok { OnOk result (self.new ≡ self.old ++ text.now ∷ []) }
        ensures err { OnErr result (self.new ≡ self.old) }
    {
        let Ok(end) = u32::try_from(self.text.len() + text.len()) else {
            return Err(AllocError);
        };
        self.ends.reserve(1)?;
        self.text.push_str(text)?;
        self.ends.push_reserved(end);
        Ok(())
    }
}
