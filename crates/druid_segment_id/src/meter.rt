//! A meter is ghost data: it has no field at run time. `Rank::beats` alone counts on it, since no
//! other public call of this crate takes one by `&mut`; what a count stands for is the author's
//! word.
ghost use Rattle.std.specs.Prelude.{◌≡◌, ◌+◌};

use crate::count::Count;
use std::marker::Model;

/// Counts the comparisons of ranks that are made with it. It takes no room while the program runs.
///
/// A contract sees the count, a whole number without bound.
#[derive(Drop)]
pub struct Meter {
    count: Count,
}

impl Model for Meter {
    ghost use Rattle.std.specs.Prelude.{ℕ};

    ghost Value = { ℕ };

    ghost view = { λ a. a.count.number };
}

impl Meter {
    /// A meter that has counted nothing.
    pub fn new() -> Meter
        ensures { result ≡ 0 }
    {
        Meter {
            count: Count::zero(),
        }
    }

    // The meter after one comparison more.
    pub(crate) fn one_more(&self) -> Meter
        ensures { result ≡ self.now + 1 }
    {
        Meter {
            count: self.count.one_more(),
        }
    }
}
