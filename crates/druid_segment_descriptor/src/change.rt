ghost use Rattle.std.specs.Prelude.{◌≡◌};

use crate::{Descriptor, Mark};
use std::alloc::AllocError;

/// What happens to the set of segments that a node serves.
#[derive(Debug, Drop)]
pub enum Change {
    /// The node serves the segment from now on.
    Load(Descriptor),
    /// The node serves the segment no longer.
    Drop(Descriptor),
}

impl Clone for Change {
    ghost is_clone = { λ change copy. copy ≡ change };

    fn clone(&self) -> Result<Change, AllocError> {
        match self {
            Change::Load(descriptor) => Ok(Change::Load(descriptor.clone()?)),
            Change::Drop(descriptor) => Ok(Change::Drop(descriptor.clone()?)),
        }
    }
}

/// What a broker asks a node for.
#[derive(Clone, Copy, Debug, PartialEq, Eq)]
pub enum Ask {
    /// All that the node serves.
    Whole,
    /// The changes after a mark, whose incarnation is at least 1.
    Since(Mark),
    /// A page, counted from 0, of all that the node served at a mark, whose incarnation is at least 1.
    Page(Mark, u16),
}

/// Why a node has no changes after the mark that it was asked about.
#[derive(Clone, Copy, Debug, PartialEq, Eq)]
pub enum Cause {
    /// The mark is of another incarnation than the node's.
    OtherIncarnation,
    /// The mark is ahead of the node.
    Ahead,
    /// Changes after the mark are no longer kept.
    TooOld,
}
