ghost use Rattle.std.specs.Prelude.{◌≡◌, ℕ, ◌+◌};
ghost use Rattle.std.specs.Borrow.{ftrue};

use std::marker::Model;

/// A whole number that only proofs read. It takes no room, and its methods do nothing at run time.
#[derive(Drop)]
pub struct Count {
    pub ghost number: { ℕ },
}

impl Model for Count {
    ghost also_owns = { λ _. ftrue };
}

// It owns nothing.
unsafe impl Send for Count {}

impl Count {
    /// Nothing counted yet.
    pub fn zero() -> Count
        ensures { result.number ≡ 0 }
    {
        Count {}
    }

    /// The next number.
    pub fn one_more(&self) -> Count
        ensures { result.number ≡ self.now.number + 1 }
    {
        Count {}
    }
}
