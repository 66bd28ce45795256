ghost use Rattle.std.specs.Prelude.{◌≡◌};
ghost use Rattle.druid_inventory_views.specs.declared.fault.PublishFault.TheVariants.{Memory};

use druid_inventory::ApplyFault;
use std::alloc::AllocError;
use thiserror::Error;

/// Why nothing was published, or nothing read.
#[derive(Clone, Copy, Debug, PartialEq, Eq, Drop, Error)]
pub enum PublishFault {
    /// B1: the reply is not applied.
    #[error("B1: {0}")]
    Apply(ApplyFault),
    /// B3: there is nothing to read: the publisher is gone, or memory ran out when what the view has seen was to be shown, and nothing
    /// was published since.
    #[error("B3: no reading")]
    NoReading,
    /// B9: out of memory.
    #[error("B9: out of memory")]
    Memory,
}

impl From<AllocError> for PublishFault {
    ghost from_gives = { λ _ fault. fault ≡ Memory };

    fn from(_error: AllocError) -> PublishFault {
        PublishFault::Memory
    }
}
