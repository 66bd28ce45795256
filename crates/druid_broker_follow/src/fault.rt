ghost use Rattle.std.specs.Prelude.{◌≡◌};
ghost use Rattle.druid_broker_follow.specs.declared.fault.TurnFault.TheVariants.{Memory};

use druid_http_message::WireFault;
use druid_inventory::ApplyFault;
use druid_sync_text::SyncFault;
use std::alloc::AllocError;
use thiserror::Error;

/// Why a turn brought nothing.
#[derive(Clone, Copy, Debug, PartialEq, Eq, Drop, Error)]
pub enum TurnFault {
    /// K1: the link failed, or no response came back.
    #[error("K1: {0}")]
    Wire(WireFault),
    /// K4: the response has another status than 200.
    #[error("K4: status {0}")]
    Status(u16),
    /// K2: the body of the response is no reply.
    #[error("K2: {0}")]
    Reply(SyncFault),
    /// K5: the reply is not the page that was asked for.
    #[error("K5: another page")]
    PageLost,
    /// K3: the reply is not applied.
    #[error("K3: {0}")]
    Apply(ApplyFault),
    /// K6: the view has no reading.
    #[error("K6: no reading")]
    NoReading,
    /// K9: out of memory.
    #[error("K9: out of memory")]
    Memory,
}

impl From<AllocError> for TurnFault {
    ghost from_gives = { λ _ fault. fault ≡ Memory };

    fn from(_error: AllocError) -> TurnFault {
        TurnFault::Memory
    }
}
