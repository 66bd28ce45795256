//! The incarnation of a node, as types name it.
use std::marker::Brand;

/// The incarnation that a node is in. What lies under a lock is known by its type alone, so this number is a matter of types.
pub trait Incarnation {
    ghost use Rattle.std.specs.Prelude.{ℕ};

    ghost number: { ℕ };
}

// No state is of this one: a program picks the number at the call that starts a node.
impl Incarnation for Brand {
    ghost number = { 0 };
}
